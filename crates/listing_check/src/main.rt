// Reads the document's listing, and bytes that stop, and writes a line for the header and for each call, held to the file `stdout`.
// Each header and call is written back, and the line says so where the bytes differ.
#![tactic(auto)]

ghost use Rattle.std.specs.Prelude.{◌+◌, ◌≤◌, length};

use groups::TooShort;
use std::{fmt, io};
use transactions::{Call, Halt, Header};

// A call as its line shows it.
#[derive(Clone, Copy)]
struct Shown(Call);

impl fmt::Display for Shown {
    fn fmt<W: fmt::Write>(&self, f: &mut fmt::Formatter<W>) -> fmt::Result {
        match self.0 {
            Call::Lookup(k) => write!(f, "lookup {k}"),
            Call::Insert(k, v, coin) => write!(f, "insert {k} {v} {coin}"),
            Call::Remove(k) => write!(f, "remove {k}"),
            Call::HandOver(node) => write!(f, "hand over {}", node.0),
            Call::Ceil(k) => write!(f, "ceil {k}"),
            Call::Floor(k) => write!(f, "floor {k}"),
            Call::Succ(k) => write!(f, "succ {k}"),
            Call::Pred(k) => write!(f, "pred {k}"),
            Call::Fast(l, r) => write!(f, "fast {l} {r}"),
            Call::Open(l, r) => write!(f, "open {l} {r}"),
            Call::Step(version, room) => write!(f, "step {} {room}", version.0),
            Call::Close(version) => write!(f, "close {}", version.0),
            Call::Sweep => write!(f, "sweep"),
            Call::Tally => write!(f, "tally"),
        }
    }
}

// How a line ends: what was written at the front of the buffer, if anything was, is to be these bytes.
fn line_end(written: Result<usize, TooShort>, buffer: &[u8], bytes: &[u8]) -> &'static str {
    match written.ok().and_then(|n| buffer.get(..n)) {
        Some(front) if front == bytes => "",
        _ => " differs",
    }
}

// Why reading goes no further, on a line of its own.
fn halt_line(rt: &impl Print, halt: Halt) -> io::Result<()> {
    match halt {
        Halt::Stop(place) => println!(rt; "stop {place}"),
        Halt::More => println!(rt; "more"),
    }
}

// The line of a call that was read from these bytes.
fn call_line(rt: &impl Print, bytes: &[u8], call: Call) -> io::Result<()> {
    let mut buffer = [0u8; 40];
    let written = transactions::write_call(&mut buffer, call);
    println!(rt; "{}{}", Shown(call), line_end(written, &buffer, bytes))
}

// The line of a header that was read from these bytes.
fn header_line(rt: &impl Print, bytes: &[u8], header: Header) -> io::Result<()> {
    let mut buffer = [0u8; 40];
    let written = transactions::write_header(&mut buffer, header);
    println!(rt;
        "header {} {}{}",
        header.capacity,
        header.start.0,
        line_end(written, &buffer, bytes)
    )
}

// The calls from this place on.
fn list_calls(rt: &impl Print, bytes: &[u8], from: usize) -> io::Result<()> {
    let mut at = from;
    while at < bytes.len() {
        match transactions::read_call(bytes, at, false) {
            Ok((call, len)) => {
                call_line(rt, &bytes[at..at + len], call)?;
                at += len;
            }
            Err(halt) => return halt_line(rt, halt),
        }
    }
    println!(rt; "end")
}

// The header and the calls of a whole file.
fn list(rt: &impl Print, bytes: &[u8]) -> io::Result<()> {
    match transactions::read_header(bytes, false) {
        Ok((header, len)) => {
            header_line(rt, &bytes[..len], header)?;
            list_calls(rt, bytes, len)
        }
        Err(halt) => halt_line(rt, halt),
    }
}

// The first call of a part of a file: more bytes may follow.
fn part(rt: &impl Print, bytes: &[u8]) -> io::Result<()> {
    match transactions::read_call(bytes, 0, true) {
        Ok((call, _)) => println!(rt; "{}", Shown(call)),
        Err(halt) => halt_line(rt, halt),
    }
}

// Files whose bytes stop making sense, in the header and in a call, and one whose capacity is just small enough.
const STOPS: [&[u8]; 15] = [
    b"",
    b"\x80\x80\x80\x80\x10\x00",
    b"\xff\xff\xff\xff\x0f\x00",
    b"\x41\x80\x00",
    b"\x41",
    b"\x80\x04",
    b"\x40\x00\x0a\x80\x80\x80\x80\x10",
    b"\x40\x00\x0a\x01\x80\x80\x80\x80\x10",
    b"\x40\x00\x0e",
    b"\x40\x00\x8c\x00",
    b"\x40\x00\x8c\x01",
    b"\x40\x00\x01",
    b"\x40\x00\x00\x80\x80",
    b"\x40\x00\x00\xff\xff\xff\xff\xff\xff\xff\xff\xff\x02",
    b"\x40\x00\x00\xff\xff\xff\xff\xff\xff\xff\xff\xff\x81\x00",
];

// Parts of a file, whose calls may go on in the next part.
const PARTS: [&[u8]; 7] = [
    b"",
    b"\x01\x14\x02",
    b"\x8c",
    b"\x0e",
    b"\x0a\x80\x80\x80\x80\x10",
    b"\x0a\x80\x80\x80\x80\x80",
    b"\x0c\x01",
];

fn main(rt: HostRuntime) -> io::Result<()> {
    list(
        &rt,
        b"\x40\x00\x01\x14\x02\x00\x01\x28\x04\x00\x09\x14\x28\x02\x28\x03\x01\x01\x28\x0d\x00\x0a\x01\x08\x08\x14\x28\x0b\x01\x0c\x00\x2a",
    )?;
    list(
        &rt,
        b"\x80\x01\x05\x00\xff\xff\xff\xff\xff\xff\xff\xff\xff\x01\x04\xfe\xff\xff\xff\xff\xff\xff\xff\xff\x01\x01\x01\x02\xff\xff\xff\xff\xff\xff\xff\xff\xff\x01\x05\x03\x06\x04\x07\x05\x03\xff\xff\xff\xff\x0f\x0d",
    )?;
    for bytes in STOPS {
        list(&rt, bytes)?;
    }
    for bytes in PARTS {
        part(&rt, bytes)?;
    }
    Ok(())
}
