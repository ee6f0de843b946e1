// The lines that the program `schedule` prints, put as text into a lent buffer. Each function answers the place behind its text.
#![tactic(auto)]

ghost use Rattle.std.specs.Prelude.{◌≡◌, [], ◌∷◌, ◌++◌, ◌+◌, ◌*◌, ◌%◌, length, pos};
ghost use Rattle.listing.specs.Decimals.{digit, digits, integer};
ghost use Rattle.listing.specs.Lines.{spaced, line, line_after, paired};
ghost use Rattle.listing.specs.Puts.{Room, longest, Put};

// How many digits the decimal text of n has.
fn digit_count(n: u64) -> usize
    ensures { result ≡ length (digits n) }
{
    let mut rest = n;
    let mut count: usize = 1;
    while 9 < rest {
        rest /= 10;
        count += 1;
    }
    count
}

// The last digit of n, as a byte.
fn last_digit(n: u64) -> u8
    ensures { result ≡ digit (n % 10) }
{
    b'0' + (n % 10) as u8
}

// Puts the decimal text of n, its digits from the last to the first.
pub fn put_natural(out: &mut [u8], at: usize, n: u64) -> usize
    requires { Room out.old at (length (digits n)) }
    ensures { Put out.old at (length (digits n)) (digits n) out.new result }
{
    let end = at + digit_count(n);
    let mut rest = n;
    for i in (at..end).rev() {
        out[i] = last_digit(rest);
        rest /= 10;
    }
    end
}

// Puts one byte.
fn put_byte(out: &mut [u8], at: usize, byte: u8) -> usize
    requires { Room out.old at 1 }
    ensures { Put out.old at 1 (byte ∷ []) out.new result }
{
    out[at] = byte;
    at + 1
}

// Puts the decimal text of an integer, `-` in front of a negative one's magnitude.
pub fn put_integer(out: &mut [u8], at: usize, n: i64) -> usize
    requires { Room out.old at (length (integer n)) }
    ensures { Put out.old at (length (integer n)) (integer n) out.new result }
{
    let start = if n < 0 { put_byte(out, at, b'-') } else { at };
    put_natural(out, start, n.unsigned_abs())
}

// Puts a word as it is.
pub fn put_bytes(out: &mut [u8], at: usize, word: &[u8]) -> usize
    requires { Room out.old at (length word.now) }
    ensures { Put out.old at (length word.now) word.now out.new result }
{
    out[at..at + word.len()].copy_from_slice(word);
    at + word.len()
}

// Puts a space and the decimal text of an integer.
pub fn put_spaced(out: &mut [u8], at: usize, n: i64) -> usize
    requires { Room out.old at (longest 1) }
    ensures { Put out.old at (longest 1) (32 ∷ integer n) out.new result }
{
    let next = put_byte(out, at, b' ');
    put_integer(out, next, n)
}

// Puts numbers, each with a space in front.
fn put_numbers(out: &mut [u8], at: usize, numbers: &[i64]) -> usize
    requires { Room out.old at (longest (length numbers.now)) }
    ensures { Put out.old at (longest (length numbers.now)) (spaced numbers.now) out.new result }
{
    let mut next = at;
    for number in numbers {
        next = put_spaced(out, next, *number);
    }
    next
}

// Puts pairs as key, value, each with a space in front.
fn put_pairs(out: &mut [u8], at: usize, keys: &[i64], values: &[i64]) -> usize
    requires { Room out.old at (longest (2 * length keys.now)) }
    ensures { Put out.old at (longest (2 * length keys.now)) (spaced (paired keys.now values.now)) out.new result }
{
    let mut next = at;
    for (key, value) in keys.iter().zip(values) {
        let middle = put_spaced(out, next, *key);
        next = put_spaced(out, middle, *value);
    }
    next
}

// Puts the line of a transaction: its number, the numbers, then the pairs as key, value.
pub fn put_line(
    out: &mut [u8],
    at: usize,
    number: u64,
    numbers: &[i64],
    keys: &[i64],
    values: &[i64],
) -> usize
    requires { Room out.old at (longest (1 + length numbers.now + 2 * length keys.now)) }
    ensures { Put out.old at (longest (1 + length numbers.now + 2 * length keys.now)) (line (pos number ∷ (numbers.now ++ paired keys.now values.now))) out.new result }
{
    let first = put_natural(out, at, number);
    let second = put_numbers(out, first, numbers);
    let third = put_pairs(out, second, keys, values);
    put_byte(out, third, b'\n')
}

// Puts a line of a word alone, as `end`.
pub fn put_word_line(out: &mut [u8], at: usize, word: &[u8]) -> usize
    requires { Room out.old at (length word.now + 1) }
    ensures { Put out.old at (length word.now + 1) (line_after word.now []) out.new result }
{
    let next = put_bytes(out, at, word);
    put_byte(out, next, b'\n')
}

// Puts a line of a word and a number, as `set-up 0` and `stop 17`.
pub fn put_number_line(out: &mut [u8], at: usize, word: &[u8], number: u64) -> usize
    requires { Room out.old at (length word.now + longest 1 + 1) }
    ensures { Put out.old at (length word.now + longest 1 + 1) (line_after word.now (pos number ∷ [])) out.new result }
{
    let space = put_bytes(out, at, word);
    let start = put_byte(out, space, b' ');
    let end = put_natural(out, start, number);
    put_byte(out, end, b'\n')
}
