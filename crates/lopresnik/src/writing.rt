// Calls and headers of a schedule file as a host gives them, in plain numbers, written to a lent buffer.
ghost use Rattle.std.specs.Prelude.{◌≡◌};
ghost use Rattle.groups.specs.Buffers.{Writes};
ghost use Rattle.transactions.specs.Sequences.{bytes_of};
ghost use Rattle.transactions.specs.Calls.{header_of};
ghost use Rattle.lopresnik.specs.Exports.{Gives};
ghost use Rattle.lopresnik.specs.Written.{narrowed, asked, written, AskedWritten, headed};

use sizes::{Node, Version};
use transactions::{Call, Header};

// A number below 2^32, where it is one.
fn narrow(n: i64) -> Option<u32>
    ensures { result ≡ narrowed n }
{
    u32::try_from(n).ok()
}

// The call of this code with these numbers, where there is one.
fn call_of(code: u32, first: i64, second: i64, third: u64) -> Option<Call>
    ensures { result ≡ asked code first second third }
{
    Some(match code {
        0 => Call::Lookup(first),
        1 => Call::Insert(first, second, third),
        2 => Call::Remove(first),
        3 => Call::HandOver(Node(narrow(first)?)),
        4 => Call::Ceil(first),
        5 => Call::Floor(first),
        6 => Call::Succ(first),
        7 => Call::Pred(first),
        8 => Call::Fast(first, second),
        9 => Call::Open(first, second),
        10 => Call::Step(Version(narrow(first)?), narrow(second)?),
        11 => Call::Close(Version(narrow(first)?)),
        12 => Call::Sweep,
        13 => Call::Tally,
        _ => return None,
    })
}

// Writes the call of this code with these numbers at the front of a lent buffer and answers its length: 0 where there is no such call, or where the buffer is too short.
pub fn lopresnik_write_call(
    buffer: &mut [u8],
    code: u32,
    first: i64,
    second: i64,
    third: u64,
) -> usize
    ensures { AskedWritten (asked code first second third) buffer.old buffer.new result }
{
    match call_of(code, first, second, third) {
        Some(call) => transactions::write_call(buffer, call).unwrap_or(0),
        None => 0,
    }
}

// Writes a header at the front of a lent buffer and answers its length: 0 where the buffer is too short.
pub fn lopresnik_write_header(buffer: &mut [u8], capacity: u32, start: u32) -> usize
    ensures { Gives (Writes (bytes_of (header_of (headed capacity start))) buffer.old buffer.new) written result }
{
    let header = Header {
        capacity,
        start: Version(start),
    };
    transactions::write_header(buffer, header).unwrap_or(0)
}
