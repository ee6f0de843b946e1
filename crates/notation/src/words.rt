// The words of a line: what stands between blanks, up to a remark.

ghost use Rattle.std.specs.Prelude.{◌≡◌, ◌+◌, ◌≤◌, length, drop};
ghost use Rattle.notation.specs.Words.{blank, run_of, NextWord, WordAt};

// From a place of a line up to another.
#[derive(Clone, Copy)]
pub struct Span {
    pub start: usize,
    pub end: usize,
}

// What begins a remark.
const REMARK: u8 = b'#';

// A space, a tab, a line feed or a carriage return.
fn is_blank(byte: u8) -> bool
    ensures { result ≡ blank byte }
{
    matches!(byte, b' ' | b'\t' | b'\n' | b'\r')
}

// The end of the blanks, or of the bytes that are none, which stand at a place.
fn run_end(line: &[u8], at: usize, blanks: bool) -> usize
    requires { at ≤ length line.now }
    ensures { (result ≡ at + run_of blanks (drop at line.now)) × (result ≤ length line.now) }
{
    for i in at..line.len() {
        if is_blank(line[i]) != blanks {
            return i;
        }
    }
    line.len()
}

// The next word from a place on, empty where there is none or a remark begins.
pub fn next_word(line: &[u8], at: usize) -> Span
    requires { at ≤ length line.now }
    ensures { NextWord line.now at result }
{
    let start = run_end(line, at, true);
    if start < line.len() && line[start] == REMARK {
        return Span { start, end: start };
    }
    let end = run_end(line, start, false);
    Span { start, end }
}

// The word with this number, from 0, empty where there are fewer.
pub fn word_at(line: &[u8], number: usize) -> Span
    ensures { WordAt line.now number result }
{
    let mut place = 0;
    for _ in 0..number {
        let word = next_word(line, place);
        if word.start == word.end {
            return word;
        }
        place = word.end;
    }
    next_word(line, place)
}
