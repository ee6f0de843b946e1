// The text of a call and of a header, put at the front of a buffer.
ghost use Rattle.std.specs.Prelude.{[], ◌∷◌, ◌<◌, pos};
ghost use Rattle.listing.specs.Lines.{line_after};
ghost use Rattle.listing.specs.Puts.{Room, Put};
ghost use Rattle.notation.specs.Forms.{name_of};
ghost use Rattle.notation.specs.Texts.{text_of, header_text, longest_text};

use crate::forms::put_name;
use listing::{put_bytes, put_natural, put_spaced};
use transactions::{Call, Header};

// Puts a line of a name alone.
fn put_none(out: &mut [u8], code: usize) -> usize
    requires { (code < 16) × Room out.old 0 longest_text }
    ensures { Put out.old 0 longest_text (line_after (name_of code) []) out.new result }
{
    let end = put_name(out, code);
    put_bytes(out, end, b"\n")
}

// Puts a line of a name and one integer.
fn put_one(out: &mut [u8], code: usize, a: i64) -> usize
    requires { (code < 16) × Room out.old 0 longest_text }
    ensures { Put out.old 0 longest_text (line_after (name_of code) (a ∷ [])) out.new result }
{
    let name = put_name(out, code);
    let end = put_spaced(out, name, a);
    put_bytes(out, end, b"\n")
}

// Puts a line of a name and two integers.
fn put_two(out: &mut [u8], code: usize, a: i64, b: i64) -> usize
    requires { (code < 16) × Room out.old 0 longest_text }
    ensures { Put out.old 0 longest_text (line_after (name_of code) (a ∷ b ∷ [])) out.new result }
{
    let name = put_name(out, code);
    let first = put_spaced(out, name, a);
    let end = put_spaced(out, first, b);
    put_bytes(out, end, b"\n")
}

// Puts the line of an insertion.
fn put_insert(out: &mut [u8], key: i64, value: i64, coin: u64) -> usize
    requires { Room out.old 0 longest_text }
    ensures { Put out.old 0 longest_text (line_after (name_of 1) (key ∷ value ∷ pos coin ∷ [])) out.new result }
{
    let name = put_name(out, 1);
    let first = put_spaced(out, name, key);
    let second = put_spaced(out, first, value);
    let space = put_bytes(out, second, b" ");
    let end = put_natural(out, space, coin);
    put_bytes(out, end, b"\n")
}

// Puts the line of a call.
#[tactic(auto, using(crate::proofs::Texting::handed))]
pub fn put_call(out: &mut [u8], call: Call) -> usize
    requires { Room out.old 0 longest_text }
    ensures { Put out.old 0 longest_text (text_of call) out.new result }
{
    match call {
        Call::Lookup(k) => put_one(out, 0, k),
        Call::Insert(k, v, coin) => put_insert(out, k, v, coin),
        Call::Remove(k) => put_one(out, 2, k),
        Call::HandOver(node) => put_one(out, 3, i64::from(node.0)),
        Call::Ceil(k) => put_one(out, 4, k),
        Call::Floor(k) => put_one(out, 5, k),
        Call::Succ(k) => put_one(out, 6, k),
        Call::Pred(k) => put_one(out, 7, k),
        Call::Fast(l, r) => put_two(out, 8, l, r),
        Call::Open(l, r) => put_two(out, 9, l, r),
        Call::Step(version, room) => put_two(out, 10, i64::from(version.0), i64::from(room)),
        Call::Close(version) => put_one(out, 11, i64::from(version.0)),
        Call::Sweep => put_none(out, 12),
        Call::Tally => put_none(out, 13),
    }
}

// Puts the line of a header.
pub fn put_header(out: &mut [u8], header: Header) -> usize
    requires { Room out.old 0 longest_text }
    ensures { Put out.old 0 longest_text (header_text header) out.new result }
{
    let name = put_name(out, 14);
    let start = header.start;
    let first = put_spaced(out, name, i64::from(header.capacity));
    let word = put_bytes(out, first, b" start");
    let end = put_spaced(out, word, i64::from(start.0));
    put_bytes(out, end, b"\n")
}
