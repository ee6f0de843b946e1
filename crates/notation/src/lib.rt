// A schedule as text for people: one header or call a line, read and written.
#![tactic(auto)]

mod forms;
mod numerals;
mod putting;
mod showing;
mod words;

ghost use Rattle.std.specs.Prelude.{◌≡◌, [], ◌∷◌, ◌≤◌, ◌<◌, length, get_or};
ghost use Rattle.groups.specs.Buffers.{Writes};
ghost use Rattle.transactions.specs.Calls.{small};
ghost use Rattle.notation.specs.Words.{words as Words·words};
ghost use Rattle.notation.specs.Forms.{numbers as Forms·numbers, kinds, sense, sense_of};
ghost use Rattle.notation.specs.Texts.{text_of, header_text};
ghost use Rattle.notation.specs.Showing.{shown, mark_length, fault_byte, NoCall};
ghost use Rattle.notation.specs.Inner.{counted, Ranged};

use groups::{TooShort, unturn};
use sizes::{Node, Version};
use transactions::{Call, Header};

// What a word must be: a key or value, a coin, a number below 2^32, or the word `start`, which counts as 0.
#[derive(Clone, Copy, Debug, PartialEq, Eq)]
pub enum Kind {
    Key,
    Coin,
    Small,
    Start,
}

// Why a line is neither a header nor a call. Out of range: that of this kind.
#[derive(Clone, Copy, Debug, PartialEq, Eq)]
pub enum Fault {
    UnknownWord,
    NumberMissing,
    TooManyWords,
    NotANumber,
    OutOfRange(Kind),
    StartMissing,
}

// A fault with the number of its word, from 0.
#[derive(Clone, Copy, Debug, PartialEq, Eq)]
pub struct Misread {
    pub fault: Fault,
    pub word: usize,
}

// What a line says: nothing where it has no word.
#[derive(Clone, Copy)]
pub enum Line {
    Nothing,
    Header(Header),
    Call(Call),
}

// The byte order mark that some editors put in front of a text.
const MARK: [u8; 3] = [239, 187, 191];

// The length of the byte order mark at the front of a text.
pub fn mark_length(text: &[u8]) -> usize
    ensures { (result ≡ mark_length text.now) × (result ≤ length text.now) }
{
    if text.starts_with(&MARK) {
        MARK.len()
    } else {
        0
    }
}

// The byte that a fault leaves behind what was written of a schedule file: no call begins with it.
pub fn fault_byte() -> u8
    ensures { (result ≡ fault_byte) × NoCall result }
{
    127
}

// Writes the word of a line with this number, as an error shows it, at the front of a lent buffer: of length 0 where there are fewer words.
pub fn show_word(buffer: &mut [u8], line: &[u8], number: usize) -> Result<usize, TooShort>
    ensures { Writes (shown (get_or (Words·words line.now) number [])) buffer.old buffer.new result }
{
    let mut text = [0u8; 42];
    let word = words::word_at(line, number);
    let end = showing::put_shown(&mut text, &line[word.start..word.end]);
    write_text(buffer, &text[..end])
}

// The header or call with this code and these numbers.
#[tactic(auto, using(transactions::proofs::Operating::signed), unfolding(crate::specs::Forms::kinds))]
fn line_of(code: usize, a: u64, b: u64, c: u64) -> Line
    requires { (code < 15) × Ranged (get_or kinds code []) (counted code (a ∷ b ∷ c ∷ [])) }
    ensures { sense_of (Ok result) ≡ Forms·numbers (code ∷ counted code (a ∷ b ∷ c ∷ [])) }
{
    match code {
        0 => Line::Call(Call::Lookup(unturn(a))),
        1 => Line::Call(Call::Insert(unturn(a), unturn(b), c)),
        2 => Line::Call(Call::Remove(unturn(a))),
        3 => Line::Call(Call::HandOver(Node(a as u32))),
        4 => Line::Call(Call::Ceil(unturn(a))),
        5 => Line::Call(Call::Floor(unturn(a))),
        6 => Line::Call(Call::Succ(unturn(a))),
        7 => Line::Call(Call::Pred(unturn(a))),
        8 => Line::Call(Call::Fast(unturn(a), unturn(b))),
        9 => Line::Call(Call::Open(unturn(a), unturn(b))),
        10 => Line::Call(Call::Step(Version(a as u32), b as u32)),
        11 => Line::Call(Call::Close(Version(a as u32))),
        12 => Line::Call(Call::Sweep),
        13 => Line::Call(Call::Tally),
        _ => Line::Header(Header {
            capacity: a as u32,
            start: Version(c as u32),
        }),
    }
}

// Reads a line: words with blanks between them, a line feed being one, up to a word that begins with `#`; numbers in decimal, `-` in front of a negative one, zeros in front allowed.
pub fn read_line(line: &[u8]) -> Result<Line, Misread>
    ensures { sense_of result ≡ sense (Words·words line.now) }
{
    let word = words::next_word(line, 0);
    if word.start == word.end {
        return Ok(Line::Nothing);
    }
    let Some(code) = forms::code_of(&line[word.start..word.end]) else {
        return Err(Misread {
            fault: Fault::UnknownWord,
            word: 0,
        });
    };
    let [a, b, c] = forms::read_operands(line, word.end, code)?;
    Ok(line_of(code, a, b, c))
}

// Writes a text at the front of a lent buffer.
fn write_text(buffer: &mut [u8], text: &[u8]) -> Result<usize, TooShort>
    ensures { Writes text.now buffer.old buffer.new result }
{
    if buffer.len() < text.len() {
        return Err(TooShort);
    }
    Ok(listing::put_bytes(buffer, 0, text))
}

// Writes the text of a call at the front of a lent buffer.
pub fn write_call(buffer: &mut [u8], call: Call) -> Result<usize, TooShort>
    ensures { Writes (text_of call) buffer.old buffer.new result }
{
    let mut text = [0u8; 80];
    let end = putting::put_call(&mut text, call);
    write_text(buffer, &text[..end])
}

// Writes the text of a header at the front of a lent buffer.
pub fn write_header(buffer: &mut [u8], header: Header) -> Result<usize, TooShort>
    ensures { Writes (header_text header) buffer.old buffer.new result }
{
    let mut text = [0u8; 80];
    let end = putting::put_header(&mut text, header);
    write_text(buffer, &text[..end])
}
