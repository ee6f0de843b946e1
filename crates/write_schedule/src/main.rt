// Reads a schedule as text from standard input and writes it as a schedule file to standard output. A fault is told on standard
// error with its line and its word, and ends the program: behind what was written before it stands a byte at which the file stops.
#![tactic(auto)]

mod refusals;

ghost use Rattle.std.specs.Prelude.{◌≤◌, length, IfOk};

use failures::Stop;
use notation::Line;
use refusals::{Reason, Refusal};
use std::io::{self, Read};
use std::process::ExitCode;
use transactions::{Call, Header};

// The longest line that is taken, and how much is read at once.
const LONGEST: usize = 4096;

const CHUNK: usize = 4096;

// Writes a header.
fn write_header(rt: &HostRuntime, header: Header) -> Result<(), Stop> {
    let mut buffer = [0u8; 40];
    let length = transactions::write_header(&mut buffer, header).ok();
    failures::write_front(rt, &buffer, length)
}

// Writes a call.
fn write_call(rt: &HostRuntime, call: Call) -> Result<(), Stop> {
    let mut buffer = [0u8; 40];
    let length = transactions::write_call(&mut buffer, call).ok();
    failures::write_front(rt, &buffer, length)
}

// How far the text was taken: the number of the next line, and whether the header was written.
#[derive(Drop)]
struct Progress {
    line: u64,
    begun: bool,
}

impl Progress {
    // Stops, with a byte behind what was written at which the schedule file stops; nothing where no header was written.
    fn spoil(&self, rt: &HostRuntime) -> Stop {
        if !self.begun {
            return Stop::Told;
        }
        match failures::write_out(rt, &[notation::fault_byte()]) {
            Ok(()) => Stop::Told,
            Err(stop) => stop,
        }
    }

    // Stops where standard input was not read: it tells why.
    fn unread(&self, rt: &HostRuntime, error: io::Error) -> Stop {
        failures::fail(rt, "standard input", error);
        self.spoil(rt)
    }

    // Stops at the next line: it tells what is wrong with it.
    fn refuse(&self, rt: &HostRuntime, text: &[u8], refusal: Refusal) -> Stop {
        let line = self.line;
        let reason = Reason { text, refusal };
        let _ = eprintln!(rt; "line {line}: {reason}");
        self.spoil(rt)
    }

    // What the next line says, where that may stand there: a header first, then calls.
    fn read_line(&self, text: &[u8]) -> Result<Line, Refusal> {
        match notation::read_line(text) {
            Ok(Line::Header(_)) if self.begun => Err(refusals::CALL_EXPECTED),
            Ok(Line::Call(_)) if !self.begun => Err(refusals::HEADER_EXPECTED),
            Ok(line) => Ok(line),
            Err(misread) => Err(refusals::of_misread(misread, self.begun)),
        }
    }

    // Takes the next line; the first may begin with a byte order mark.
    fn take_line(&mut self, rt: &HostRuntime, line: &[u8]) -> Result<(), Stop> {
        let mark = if self.line == 1 {
            notation::mark_length(line)
        } else {
            0
        };
        let text = &line[mark..];
        match self.read_line(text) {
            Ok(Line::Nothing) => {}
            Ok(Line::Header(header)) => {
                write_header(rt, header)?;
                self.begun = true;
            }
            Ok(Line::Call(call)) => write_call(rt, call)?,
            Err(refusal) => return Err(self.refuse(rt, text, refusal)),
        }
        Ok(())
    }

    // Takes one byte behind those of a line that stand in its buffer, and answers how many stand there then: a line feed ends the line.
    fn take_byte(
        &mut self,
        rt: &HostRuntime,
        line: &mut [u8],
        filled: usize,
        byte: u8,
    ) -> Result<usize, Stop>
        requires { filled ≤ length line.old }
        ensures { IfOk result (λ next. next ≤ length line.new) }
    {
        if byte == b'\n' {
            self.take_line(rt, &line[..filled])?;
            self.line = self.line.wrapping_add(1);
            return Ok(0);
        }
        if filled == line.len() {
            return Err(self.refuse(rt, line, Refusal::TooLong));
        }
        line[filled] = byte;
        Ok(filled + 1)
    }

    // Takes bytes, one after another.
    fn take_bytes(
        &mut self,
        rt: &HostRuntime,
        line: &mut [u8],
        mut filled: usize,
        bytes: &[u8],
    ) -> Result<usize, Stop>
        requires { filled ≤ length line.old }
        ensures { IfOk result (λ next. next ≤ length line.new) }
    {
        for byte in bytes {
            filled = self.take_byte(rt, line, filled, *byte)?;
        }
        Ok(filled)
    }

    // Takes the last line, which has no line feed, and sees that there was a header.
    fn take_rest(&mut self, rt: &HostRuntime, line: &[u8]) -> Result<(), Stop> {
        self.take_line(rt, line)?;
        if !self.begun {
            return Err(self.refuse(rt, &[], Refusal::Headless));
        }
        Ok(())
    }
}

// Writes the schedule file of a whole text.
fn write_file(rt: &HostRuntime) -> Result<(), Stop> {
    let mut line = [0u8; LONGEST];
    let mut chunk = [0u8; CHUNK];
    let mut filled = 0;
    let mut progress = Progress {
        line: 1,
        begun: false,
    };
    for _ in 0..u64::MAX {
        let count = rt
            .stdin()
            .read(&mut chunk)
            .map_err(|error| progress.unread(rt, error))?;
        if count == 0 {
            return progress.take_rest(rt, &line[..filled]);
        }
        filled = progress.take_bytes(rt, &mut line, filled, &chunk[..count])?;
    }
    Ok(())
}

fn main(rt: HostRuntime) -> ExitCode {
    match write_file(&rt) {
        Ok(()) => ExitCode::SUCCESS,
        Err(stop) => ExitCode::from(stop),
    }
}
