// Numbers of the schedule file: groups of seven bits, lowest group first, and signed numbers as unsigned ones.
#![tactic(auto)]

ghost use Rattle.std.specs.Prelude.{◌≡◌, ◌+◌, ◌-◌, ◌*◌, ◌≤◌, ◌<◌, length, drop};
ghost use Rattle.std.proofs.lemmas.List.Edits.{sets};
ghost use Rattle.lists.specs.Tests.{Says};
ghost use Rattle.groups.specs.Groups.{High, Begun, Led, Reads, groups_of};
ghost use Rattle.groups.specs.Buffers.{Writes, short_number};
ghost use Rattle.groups.specs.Signs.{turned, unturned};

// Why no number is read: the bytes left are only the beginning of one, or neither hold nor begin one.
#[derive(Clone, Copy, Debug, PartialEq, Eq)]
pub enum Unread {
    CutOff,
    Malformed,
}

// The lent buffer is too short for what is to be written: refusal 1.
#[derive(Clone, Copy, Debug, PartialEq, Eq)]
pub struct TooShort;

// The number of this refusal.
impl From<TooShort> for u32 {
    ghost from_gives = { λ refusal n. n ≡ short_number refusal };

    fn from(_refusal: TooShort) -> u32 {
        1
    }
}

// The bytes from this place on, none where it lies behind the end.
fn left(bytes: &[u8], at: usize) -> &[u8]
    ensures { result.now ≡ drop at bytes.now }
{
    bytes.get(at..).unwrap_or(&[])
}

// Reads the number that begins at this place. Where ten bytes are left, numbers of one to three bytes and of nine or ten are read without a loop.
#[inline(always)]
pub fn read(bytes: &[u8], at: usize) -> Result<(u64, usize), Unread>
    ensures { Reads (drop at bytes.now) result }
{
    if bytes.len() < 10 || bytes.len() - 10 < at {
        let (n, len) = read_each(bytes, at)?;
        return Ok((n, len));
    }
    let b0 = u64::from(bytes[at]);
    if b0 < 128 {
        return Ok((b0, 1));
    }
    let b1 = u64::from(bytes[at + 1]);
    if b1 < 128 {
        if b1 == 0 {
            return Err(Unread::Malformed);
        }
        return Ok((b0 - 128 + b1 * 128, 2));
    }
    let b2 = u64::from(bytes[at + 2]);
    if b2 < 128 {
        if b2 == 0 {
            return Err(Unread::Malformed);
        }
        return Ok((b0 - 128 + (b1 - 128) * 128 + b2 * 16384, 3));
    }
    read_long(bytes, at, b0 - 128 + (b1 - 128) * 128 + (b2 - 128) * 16384)
}

// Reads on behind three bytes that are worth this: a number of nine or ten bytes at once, with no branch between the two lengths.
#[inline(always)]
fn read_long(bytes: &[u8], at: usize, first: u64) -> Result<(u64, usize), Unread>
    requires { (at + 10 ≤ length bytes.now) × Led (drop at bytes.now) first }
    ensures { Reads (drop at bytes.now) result }
{
    let b3 = u64::from(bytes[at + 3]);
    let b4 = u64::from(bytes[at + 4]);
    let b5 = u64::from(bytes[at + 5]);
    let b6 = u64::from(bytes[at + 6]);
    let b7 = u64::from(bytes[at + 7]);
    let b8 = u64::from(bytes[at + 8]);
    let b9 = u64::from(bytes[at + 9]);
    if b3 >= 128 && b4 >= 128 && b5 >= 128 && b6 >= 128 && b7 >= 128 && b8 > 0 {
        let top = b8 / 128;
        if top * b9 != top {
            return Err(Unread::Malformed);
        }
        let n = join_groups(first, b3, b4, b5, b6, b7, b8);
        return Ok((n, (9 + top) as usize));
    }
    // The pair is taken apart, so that it stays in registers on the way above.
    let (n, len) = read_each(bytes, at)?;
    Ok((n, len))
}

// The first three groups, the next five and a ninth byte as one number. The ninth byte's high bit is the number's highest.
#[inline(always)]
fn join_groups(first: u64, b3: u64, b4: u64, b5: u64, b6: u64, b7: u64, b8: u64) -> u64
    requires { (first < 2097152) × High b3 × High b4 × High b5 × High b6 × High b7 × (b8 < 256) }
    ensures { result ≡ first + (b3 - 128) * 2097152 + (b4 - 128) * 268435456 + (b5 - 128) * 34359738368 + (b6 - 128) * 4398046511104 + (b7 - 128) * 562949953421312 + b8 * 72057594037927936 }
{
    let low = first + (b3 - 128) * 2097152;
    let high = b4 - 128 + (b5 - 128) * 128 + ((b6 - 128) + (b7 - 128) * 128) * 16384;
    low + high * 268435456 + b8 * 72057594037927936
}

// Reads the number that begins at this place, one byte after another.
fn read_each(bytes: &[u8], at: usize) -> Result<(u64, usize), Unread>
    ensures { Reads (drop at bytes.now) result }
{
    let mut sum: u64 = 0;
    let mut power: u64 = 1;
    for (count, byte) in left(bytes, at).iter().enumerate() {
        let byte = u64::from(*byte);
        if byte >= 128 {
            if count == 9 {
                return Err(Unread::Malformed);
            }
            sum += (byte - 128) * power;
            power *= 128;
            continue;
        }
        // A number in its shortest form does not end in 0 behind other bytes.
        if byte == 0 && count > 0 {
            return Err(Unread::Malformed);
        }
        // Only a tenth byte can make a number too great.
        if count == 9 && byte > 1 {
            return Err(Unread::Malformed);
        }
        return Ok((sum + byte * power, count + 1));
    }
    Err(Unread::CutOff)
}

// Whether the bytes left from this place on are only the beginning of a number. It is asked seldom, so `read` keeps its one caller.
pub fn begun(bytes: &[u8], at: usize) -> bool
    ensures { Says result (Begun (drop at bytes.now)) }
{
    matches!(read_each(bytes, at), Err(Unread::CutOff))
}

// How many bytes a number takes.
pub fn length_of(n: u64) -> usize
    ensures { (result ≡ length (groups_of n)) × (result ≤ 10) }
{
    let mut rest = n;
    let mut count = 1;
    while 128 <= rest {
        rest /= 128;
        count += 1;
    }
    count
}

// Puts a number's bytes at a place of the buffer, and answers the place behind them.
pub fn put(buffer: &mut [u8], at: usize, n: u64) -> usize
    requires { at + length (groups_of n) ≤ length buffer.old }
    ensures { (result ≡ at + length (groups_of n)) × (buffer.new ≡ sets buffer.old at (groups_of n)) }
{
    let mut left = n;
    let mut place = at;
    while 128 <= left {
        buffer[place] = (left % 128 + 128) as u8;
        left /= 128;
        place += 1;
    }
    buffer[place] = left as u8;
    place + 1
}

// Writes a number at the front of a lent buffer.
pub fn write(buffer: &mut [u8], n: u64) -> Result<usize, TooShort>
    ensures { Writes (groups_of n) buffer.old buffer.new result }
{
    if buffer.len() < length_of(n) {
        return Err(TooShort);
    }
    Ok(put(buffer, 0, n))
}

// A signed number as an unsigned one: 2 * k, or -2 * k - 1 where k is negative, which is 2 * !k + 1.
pub fn turn(k: i64) -> u64
    ensures { result ≡ turned k }
{
    if k < 0 {
        let m = !k;
        (m as u64) * 2 + 1
    } else {
        (k as u64) * 2
    }
}

// The signed number that is written as n.
pub fn unturn(n: u64) -> i64
    ensures { result ≡ unturned n }
{
    let half = (n / 2) as i64;
    if n % 2 == 0 { half } else { !half }
}
