// Prints lines of the forms that `schedule` prints, with both ends of the 64-bit range, and is held to the file stdout.
#![tactic(auto)]

ghost use Rattle.std.specs.Prelude.{◌≤◌, length};

use std::io;

// Prints the first bytes of a buffer.
fn print(rt: &impl Print, out: &[u8], end: usize) -> io::Result<()>
    requires { end ≤ length out.now }
{
    rt.write_all(&out[..end])
}

// Lines of transactions, one behind another in one buffer.
fn show_lines(rt: &impl Print) -> io::Result<()> {
    let mut out = [0u8; 1024];
    let numbers = [10, 0, 2, 1, -9223372036854775808, 9223372036854775807, -1];
    let keys = [-9223372036854775808, -10, 0, 9223372036854775807];
    let values = [9223372036854775807, 99, -100, -9223372036854775808];
    let first = listing::put_line(&mut out, 0, 7, &numbers[..4], &keys[..2], &values[..2]);
    let second = listing::put_line(
        &mut out,
        first,
        18446744073709551615,
        &numbers,
        &keys,
        &values,
    );
    let third = listing::put_line(&mut out, second, 10, &numbers[..1], &[], &[]);
    print(rt, &out, third)
}

// A line of a word, a number of its own behind it.
fn show_number(rt: &impl Print, word: &[u8], number: u64) -> io::Result<()> {
    let mut out = [0u8; 64];
    if word.len() < 32 {
        let end = listing::put_number_line(&mut out, 0, word, number);
        print(rt, &out, end)?;
    }
    Ok(())
}

fn main(rt: HostRuntime) -> io::Result<()> {
    let mut out = [0u8; 64];
    show_number(&rt, b"set-up", 0)?;
    show_lines(&rt)?;
    show_number(&rt, b"stop", 18446744073709551615)?;
    let word = listing::put_bytes(&mut out, 0, b"en");
    let end = listing::put_word_line(&mut out, word, b"d");
    print(&rt, &out, end)
}
