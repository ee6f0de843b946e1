// What a program holds of its input: a part of a buffer that it lends, and how far the input was read.
#![tactic(auto)]

ghost use Rattle.std.specs.Prelude.{◌≡◌, ◌+◌, ◌-◌, ◌^◌, ◌≤◌, min, length, take, drop};
ghost use Rattle.lists.specs.Tests.{Says};
ghost use Rattle.windows.specs.declared.FetchError.{FetchError};
ghost use Rattle.windows.specs.Windows.{unread, count_of, place_of, behind, Readable, FetchedBy, CameBy};

use std::error::Error;
use std::fmt;
use std::io::{self, Read};

// The bytes of a buffer from one place up to another, how many bytes were read in all, and whether more may follow.
#[derive(Clone, Copy, Debug, PartialEq, Eq)]
pub struct Window {
    pub from: usize,
    pub to: usize,
    pub read: u64,
    pub more: bool,
}

impl Window {
    // The window of a program that has not read yet.
    pub fn unread() -> Window
        ensures { result ≡ unread }
    {
        Window {
            from: 0,
            to: 0,
            read: 0,
            more: true,
        }
    }

    // How many bytes are held.
    pub fn count(self) -> usize
        ensures { result ≡ count_of self }
    {
        self.to.saturating_sub(self.from)
    }

    // The offset in the input of the first byte held.
    fn place(self) -> u64
        ensures { result ≡ place_of self }
    {
        self.read.saturating_sub(self.count() as u64)
    }

    // The offset in the input of a place behind the first byte held, and the greatest that can be counted where it is greater.
    pub fn offset_of(self, place: usize) -> u64
        ensures { result ≡ min (place_of self + place) (2 ^ 64 - 1) }
    {
        self.place().saturating_add(place as u64)
    }

    // The window behind so many of its bytes, and behind all of them where it has fewer.
    pub fn drop_front(self, count: usize) -> Window
        ensures { result ≡ behind self count }
    {
        Window {
            from: self.from.saturating_add(count).min(self.to),
            ..self
        }
    }

    // Whether it lies in a buffer of so many bytes, with room for another.
    fn readable(self, size: usize) -> bool
        ensures { Says result (Readable self size) }
    {
        self.from <= self.to
            && self.to <= size
            && self.to as u64 <= self.read
            && self.to - self.from < size
    }
}

// Why nothing is held anew: the buffer has no room behind the window, the input is too long to count its bytes, or reading failed.
#[derive(Clone, Copy, Debug)]
pub enum FetchError {
    NoRoom,
    TooLong,
    Read(io::Error),
}

impl fmt::Display for FetchError {
    // What a program tells of it, behind its own name.
    fn fmt<W: fmt::Write>(&self, f: &mut fmt::Formatter<W>) -> fmt::Result {
        f.write_str(match self {
            FetchError::NoRoom => "no room to read standard input",
            FetchError::TooLong => "standard input is too long to count its bytes",
            FetchError::Read(_) => "reading standard input failed",
        })
    }
}

impl Error for FetchError {}

impl From<io::Error> for FetchError {
    ghost from_gives = { λ error fetch_error. fetch_error ≡ FetchError.Read error };

    // Reading is all that fails with an error of the system here.
    fn from(error: io::Error) -> FetchError {
        FetchError::Read(error)
    }
}

// Moves the bytes from one place up to another to the front.
fn move_to_front(buffer: &mut [u8], from: usize, to: usize)
    requires { (from ≤ to) × (to ≤ length buffer.old) }
    ensures { take (to - from) buffer.new ≡ take (to - from) (drop from buffer.old) }
{
    for i in 0..to - from {
        buffer[i] = buffer[from + i];
    }
}

// Moves what is held to the front of the buffer and reads once behind it.
pub fn fetch<R: Read>(
    reader: &mut R,
    input: &mut [u8],
    window: Window,
) -> Result<Window, FetchError>
    ensures fetched { FetchedBy window input.old input.new result }
    ensures came { CameBy window (R.remaining reader.old) (R.remaining reader.new) input.new result }
{
    if !window.readable(input.len()) {
        return Err(FetchError::NoRoom);
    }
    let held = window.count();
    move_to_front(input, window.from, window.to);
    let count = reader.read(&mut input[held..])?;
    let Some(read) = window.read.checked_add(count as u64) else {
        return Err(FetchError::TooLong);
    };
    Ok(Window {
        from: 0,
        to: held + count,
        read,
        more: 0 < count,
    })
}
