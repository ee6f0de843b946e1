// The name of each call and of the header, and what stands behind it.
ghost use Rattle.std.specs.Prelude.{◌≡◌, ◌≤◌, ◌<◌, [], length, get_or, drop, unwrap_or, IfSome};
ghost use Rattle.listing.specs.Puts.{Room, Put};
ghost use Rattle.notation.specs.Words.{words as Words·words};
ghost use Rattle.notation.specs.Forms.{names, name_of, kinds, same, find, operand, with, missing, operands};
ghost use Rattle.notation.specs.Inner.{operands_of};

use crate::{Fault, Kind, Misread, numerals, words};

// The names of the fourteen calls, by code, and of the header, and behind them the word `start`.
const NAMES: [&[u8]; 16] = [
    b"lookup",
    b"insert",
    b"remove",
    b"hand-over",
    b"ceil",
    b"floor",
    b"succ",
    b"pred",
    b"fast",
    b"open",
    b"step",
    b"close",
    b"sweep",
    b"tally",
    b"capacity",
    b"start",
];

// The place of the word `start` among the names, and how many stand in front of it.
const START: usize = 15;

// What stands behind each name, by code.
const KINDS: [&[Kind]; 15] = [
    &[Kind::Key],
    &[Kind::Key, Kind::Key, Kind::Coin],
    &[Kind::Key],
    &[Kind::Small],
    &[Kind::Key],
    &[Kind::Key],
    &[Kind::Key],
    &[Kind::Key],
    &[Kind::Key, Kind::Key],
    &[Kind::Key, Kind::Key],
    &[Kind::Small, Kind::Small],
    &[Kind::Small],
    &[],
    &[],
    &[Kind::Small, Kind::Start, Kind::Small],
];

// The name of this number.
fn name_of(number: usize) -> &'static [u8]
    requires { number < 16 }
    ensures { result.now ≡ name_of number }
{
    NAMES[number]
}

// What stands behind the name of this number.
fn kinds_of(code: usize) -> &'static [Kind]
    requires { code < 15 }
    ensures { result.now ≡ get_or kinds code [] }
{
    KINDS[code]
}

// Whether a word is the name of this number.
fn is_name(word: &[u8], number: usize) -> bool
    requires { number < 16 }
    ensures { result ≡ same word.now (name_of number) }
{
    word == name_of(number)
}

// The number of the form that a word names.
pub fn code_of(word: &[u8]) -> Option<usize>
    ensures is { unwrap_or result 15 ≡ find names word.now }
    ensures below { IfSome result (λ code. code < 15) }
{
    for code in 0..START {
        if is_name(word, code) {
            return Some(code);
        }
    }
    None
}

// What a word is worth where one of this kind must stand.
fn read_operand(word: &[u8], kind: Kind) -> Result<u64, Fault>
    ensures { result ≡ operand kind word.now }
{
    match kind {
        Kind::Start if is_name(word, START) => Ok(0),
        Kind::Start => Err(Fault::StartMissing),
        _ => numerals::read_number(word, kind),
    }
}

// No word of this kind is left.
fn missing_of(kind: Kind) -> Fault
    ensures { result ≡ missing kind }
{
    match kind {
        Kind::Start => Fault::StartMissing,
        _ => Fault::NumberMissing,
    }
}

// Reads the words that stand behind a name, up to the end of the line.
pub fn read_operands(line: &[u8], at: usize, code: usize) -> Result<[u64; 3], Misread>
    requires { (at ≤ length line.now) × (code < 15) }
    ensures { operands_of code result ≡ with code (operands (get_or kinds code []) (Words·words (drop at line.now))) }
{
    let kinds = kinds_of(code);
    let mut found = [0u64; 3];
    let mut place = at;
    for (i, kind) in kinds.iter().enumerate() {
        let word = words::next_word(line, place);
        if word.start == word.end {
            return Err(Misread {
                fault: missing_of(*kind),
                word: i + 1,
            });
        }
        match read_operand(&line[word.start..word.end], *kind) {
            Ok(number) => found[i] = number,
            Err(fault) => return Err(Misread { fault, word: i + 1 }),
        }
        place = word.end;
    }
    let more = words::next_word(line, place);
    if more.start != more.end {
        return Err(Misread {
            fault: Fault::TooManyWords,
            word: kinds.len() + 1,
        });
    }
    Ok(found)
}

// Puts a name at the front of a text.
pub fn put_name(out: &mut [u8], number: usize) -> usize
    requires { (number < 16) × Room out.old 0 9 }
    ensures { Put out.old 0 9 (name_of number) out.new result }
{
    listing::put_bytes(out, 0, name_of(number))
}
