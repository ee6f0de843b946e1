// Words as an error shows them.
ghost use Rattle.std.specs.Prelude.{◌≡◌, map, ◌≤◌, length};
ghost use Rattle.listing.specs.Puts.{Room, Put};
ghost use Rattle.notation.specs.Showing.{shown_byte, shown};

use listing::put_bytes;

// The most bytes of a word that are shown.
const SHOWN: usize = 40;

// A byte as it is shown: `?` where it is not printable.
fn shown_byte(byte: u8) -> u8
    ensures { result ≡ shown_byte byte }
{
    if matches!(byte, b' '..=b'~') {
        byte
    } else {
        b'?'
    }
}

// Puts the bytes of a word as they are shown.
fn put_bytes_shown(out: &mut [u8], word: &[u8]) -> usize
    requires { (length word.now ≤ 40) × Room out.old 0 40 }
    ensures { Put out.old 0 40 (map shown_byte word.now) out.new result }
{
    for (i, byte) in word.iter().enumerate() {
        out[i] = shown_byte(*byte);
    }
    word.len()
}

// Puts a word as it is shown.
pub fn put_shown(out: &mut [u8], word: &[u8]) -> usize
    requires { Room out.old 0 42 }
    ensures { Put out.old 0 42 (shown word.now) out.new result }
{
    if word.len() <= SHOWN {
        return put_bytes_shown(out, word);
    }
    let cut = put_bytes_shown(out, &word[..SHOWN]);
    put_bytes(out, cut, b"..")
}
