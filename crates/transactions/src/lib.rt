// The schedule file: its header and its calls, read from bytes and written to a lent buffer.
#![tactic(auto)]

ghost use Rattle.std.specs.Prelude.{◌≡◌, [], ◌∷◌, ◌≤◌, ◌<◌, length, take, drop, set, replicate};
ghost use Rattle.groups.specs.Buffers.{Writes};
ghost use Rattle.transactions.specs.Sequences.{Within, bytes_of};
ghost use Rattle.transactions.specs.Calls.{numbers_of, header_of, operands_of, call_limit, small};
ghost use Rattle.transactions.specs.Readings.{HeaderRead, CallRead, Halts};
ghost use Rattle.transactions.specs.Inner.{OperandsFor, NumberRead, NumbersRead, CodeRead, NoCode, in_order};

use groups::{TooShort, Unread, length_of, put, turn, unturn};
use sizes::{Node, Version};

// The greatest value of a number: of all 64 bits, and below 2^32.
const ANY: u64 = u64::MAX;

const SMALL: u64 = u32::MAX as u64;

// The capacity and the start version.
#[derive(Clone, Copy, Debug, PartialEq, Eq)]
pub struct Header {
    pub capacity: u32,
    pub start: Version,
}

// The calls, in the order of their codes.
#[derive(Clone, Copy, Debug, PartialEq, Eq)]
pub enum Call {
    Lookup(i64),
    Insert(i64, i64, u64),
    Remove(i64),
    HandOver(Node),
    Ceil(i64),
    Floor(i64),
    Succ(i64),
    Pred(i64),
    Fast(i64, i64),
    Open(i64, i64),
    Step(Version, u32),
    Close(Version),
    Sweep,
    Tally,
}

// Why reading goes no further: the offset at which the bytes stop making sense, or more bytes are needed to tell.
#[derive(Clone, Copy, Debug, PartialEq, Eq)]
pub enum Halt {
    Stop(usize),
    More,
}

// Up to three numbers, 0 where there are fewer. Three fields, and not an array, since they then stay in registers.
#[derive(Clone, Copy)]
struct Three {
    pub first: u64,
    pub second: u64,
    pub third: u64,
}

// The three with n in the place i.
#[inline(always)]
fn with_number(three: Three, i: usize, n: u64) -> Three
    requires { i < 3 }
    ensures { in_order result ≡ set (in_order three) i n }
{
    match i {
        0 => Three { first: n, ..three },
        1 => Three { second: n, ..three },
        _ => Three { third: n, ..three },
    }
}

// Reads the number that begins at this place, which is no greater than the limit, and its length.
#[inline(always)]
fn read_number(bytes: &[u8], at: usize, more: bool, most: u64) -> Result<(u64, usize), Halt>
    ensures { NumberRead most (drop at bytes.now) at more result }
{
    match groups::read(bytes, at) {
        Ok((n, len)) if n <= most => Ok((n, len)),
        Err(Unread::CutOff) if more => Err(Halt::More),
        _ => Err(Halt::Stop(at)),
    }
}

// Reads numbers one after another, each no greater than the same limit, and the place behind them.
fn read_numbers(
    bytes: &[u8],
    at: usize,
    more: bool,
    count: usize,
    most: u64,
) -> Result<(Three, usize), Halt>
    requires { count ≤ 3 }
    ensures { NumbersRead (replicate count most) (drop at bytes.now) at more result }
{
    let mut found = Three {
        first: 0,
        second: 0,
        third: 0,
    };
    let mut place = at;
    for i in 0..count {
        let (n, len) = read_number(bytes, place, more, most)?;
        found = with_number(found, i, n);
        place += len;
    }
    Ok((found, place))
}

// How many numbers follow a code, of which there are fourteen, and the greatest value of each of them.
fn operands_of(code: u8) -> (usize, u64)
    requires { code ≤ 13 }
    ensures { OperandsFor code result }
{
    match code {
        0 | 2 | 4 | 5 | 6 | 7 => (1, ANY),
        1 => (3, ANY),
        3 | 11 => (1, SMALL),
        8 | 9 => (2, ANY),
        10 => (2, SMALL),
        _ => (0, 0),
    }
}

// The call with this code and these numbers.
fn call_of(code: u8, numbers: Three) -> Call
    requires { Within call_limit (code ∷ take (length (operands_of code)) (numbers.first ∷ numbers.second ∷ numbers.third ∷ [])) }
    ensures { numbers_of result ≡ code ∷ take (length (operands_of code)) (numbers.first ∷ numbers.second ∷ numbers.third ∷ []) }
{
    let Three {
        first,
        second,
        third,
    } = numbers;
    match code {
        0 => Call::Lookup(unturn(first)),
        1 => Call::Insert(unturn(first), unturn(second), third),
        2 => Call::Remove(unturn(first)),
        3 => Call::HandOver(Node(first as u32)),
        4 => Call::Ceil(unturn(first)),
        5 => Call::Floor(unturn(first)),
        6 => Call::Succ(unturn(first)),
        7 => Call::Pred(unturn(first)),
        8 => Call::Fast(unturn(first), unturn(second)),
        9 => Call::Open(unturn(first), unturn(second)),
        10 => Call::Step(Version(first as u32), second as u32),
        11 => Call::Close(Version(first as u32)),
        12 => Call::Sweep,
        _ => Call::Tally,
    }
}

// Reads the numbers of the call whose code stands before the place.
fn read_operands(
    bytes: &[u8],
    at: usize,
    more: bool,
    code: u8,
    place: usize,
) -> Result<(Call, usize), Halt>
    requires { CodeRead (drop at bytes.now) at code place }
    ensures { CallRead (drop at bytes.now) at more result }
{
    let (count, most) = operands_of(code);
    let (numbers, end) = read_numbers(bytes, place, more, count, most)?;
    Ok((call_of(code, numbers), end - at))
}

// Why no call is read where no code stands: reading stops, unless a number is only begun and more bytes may follow.
fn refuse_code(bytes: &[u8], at: usize, more: bool) -> Halt
    requires { NoCode bytes.now at }
    ensures { Halts call_limit (drop at bytes.now) at more result }
{
    if more && groups::begun(bytes, at) {
        Halt::More
    } else {
        Halt::Stop(at)
    }
}

// Reads the call that begins at this place, and its length. More bytes may follow those that are lent.
pub fn read_call(bytes: &[u8], at: usize, more: bool) -> Result<(Call, usize), Halt>
    ensures { CallRead (drop at bytes.now) at more result }
{
    match bytes.get(at) {
        Some(&code) if code <= 13 => read_operands(bytes, at, more, code, at + 1),
        _ => Err(refuse_code(bytes, at, more)),
    }
}

// Reads the header, and its length.
pub fn read_header(bytes: &[u8], more: bool) -> Result<(Header, usize), Halt>
    ensures { HeaderRead bytes.now more result }
{
    let (numbers, len) = read_numbers(bytes, 0, more, 2, SMALL)?;
    let header = Header {
        capacity: numbers.first as u32,
        start: Version(numbers.second as u32),
    };
    Ok((header, len))
}

// Writes numbers one after another at the front of a lent buffer.
fn write_numbers(buffer: &mut [u8], numbers: &[u64]) -> Result<usize, TooShort>
    requires { length numbers.now ≤ 4 }
    ensures { Writes (bytes_of numbers.now) buffer.old buffer.new result }
{
    let total: usize = numbers.iter().map(|n| length_of(*n)).sum();
    if buffer.len() < total {
        return Err(TooShort);
    }
    let mut place = 0;
    for n in numbers {
        place = put(buffer, place, *n);
    }
    Ok(total)
}

// Writes a call at the front of a lent buffer.
pub fn write_call(buffer: &mut [u8], call: Call) -> Result<usize, TooShort>
    ensures { Writes (bytes_of (numbers_of call)) buffer.old buffer.new result }
{
    match call {
        Call::Lookup(k) => write_numbers(buffer, &[0, turn(k)]),
        Call::Insert(k, v, coin) => write_numbers(buffer, &[1, turn(k), turn(v), coin]),
        Call::Remove(k) => write_numbers(buffer, &[2, turn(k)]),
        Call::HandOver(node) => write_numbers(buffer, &[3, u64::from(node.0)]),
        Call::Ceil(k) => write_numbers(buffer, &[4, turn(k)]),
        Call::Floor(k) => write_numbers(buffer, &[5, turn(k)]),
        Call::Succ(k) => write_numbers(buffer, &[6, turn(k)]),
        Call::Pred(k) => write_numbers(buffer, &[7, turn(k)]),
        Call::Fast(l, r) => write_numbers(buffer, &[8, turn(l), turn(r)]),
        Call::Open(l, r) => write_numbers(buffer, &[9, turn(l), turn(r)]),
        Call::Step(version, room) => write_numbers(
            buffer,
            &[10, u64::from(version.0), u64::from(room)],
        ),
        Call::Close(version) => write_numbers(buffer, &[11, u64::from(version.0)]),
        Call::Sweep => write_numbers(buffer, &[12]),
        Call::Tally => write_numbers(buffer, &[13]),
    }
}

// Writes a header at the front of a lent buffer.
pub fn write_header(buffer: &mut [u8], header: Header) -> Result<usize, TooShort>
    ensures { Writes (bytes_of (header_of header)) buffer.old buffer.new result }
{
    write_numbers(
        buffer,
        &[u64::from(header.capacity), u64::from(header.start.0)],
    )
}
