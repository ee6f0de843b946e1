// Decimal numbers of words, as the schedule file has them.
ghost use Rattle.std.specs.Prelude.{◌≡◌, true};
ghost use Rattle.listing.specs.Decimals.{worth_from};
ghost use Rattle.notation.specs.Numerals.{all_digits, worth_of, integer_of, key_value, plain_value, value_as, digits_value, number};

use crate::{Fault, Kind};

// Whether each byte is a digit.
fn all_digits(bytes: &[u8]) -> bool
    ensures { result ≡ all_digits bytes.now }
{
    bytes.iter().all(|byte| byte.is_ascii_digit())
}

// What digits are worth, where that is below 2^64.
fn worth_of(digits: &[u8]) -> Option<u64>
    requires { all_digits digits.now ≡ true }
    ensures { result ≡ worth_of (worth_from 0 digits.now) }
{
    let mut sum: u64 = 0;
    for digit in digits {
        sum = sum.checked_mul(10)?.checked_add(u64::from(*digit - b'0'))?;
    }
    Some(sum)
}

// A key or value as the schedule file has it.
fn signed(kind: Kind, negative: bool, magnitude: u64) -> Result<u64, Fault>
    ensures { result ≡ key_value kind (integer_of negative magnitude) }
{
    match (negative, magnitude) {
        (true, 1..=0x8000_0000_0000_0000) => Ok((magnitude - 1) * 2 + 1),
        (_, 0..=0x7fff_ffff_ffff_ffff) => Ok(magnitude * 2),
        _ => Err(Fault::OutOfRange(kind)),
    }
}

// A number that is not signed, up to the greatest allowed.
fn unsigned(kind: Kind, negative: bool, magnitude: u64, most: u64) -> Result<u64, Fault>
    ensures { result ≡ plain_value kind most (integer_of negative magnitude) }
{
    if most < magnitude || (negative && 0 < magnitude) {
        return Err(Fault::OutOfRange(kind));
    }
    Ok(magnitude)
}

// A number in the range of its kind.
fn in_range(kind: Kind, negative: bool, magnitude: u64) -> Result<u64, Fault>
    ensures { result ≡ value_as kind (integer_of negative magnitude) }
{
    match kind {
        Kind::Key => signed(kind, negative, magnitude),
        Kind::Coin => unsigned(kind, negative, magnitude, u64::MAX),
        Kind::Small | Kind::Start => unsigned(kind, negative, magnitude, u64::from(u32::MAX)),
    }
}

// The number whose digits these are, behind a sign or none.
fn read_digits(digits: &[u8], kind: Kind, negative: bool) -> Result<u64, Fault>
    ensures { result ≡ digits_value negative kind digits.now }
{
    if digits.is_empty() || !all_digits(digits) {
        return Err(Fault::NotANumber);
    }
    let magnitude = worth_of(digits).ok_or(Fault::OutOfRange(kind))?;
    in_range(kind, negative, magnitude)
}

// The number that a word is.
pub fn read_number(word: &[u8], kind: Kind) -> Result<u64, Fault>
    ensures { result ≡ number kind word.now }
{
    match word.strip_prefix(b"-") {
        Some(digits) => read_digits(digits, kind, true),
        None => read_digits(word, kind, false),
    }
}
