// What the programs share where a read or a write fails: what they tell on standard error, why they stop, and their status then.
#![tactic(auto)]

ghost use Rattle.std.specs.Prelude.{◌≡◌, ◌≢◌, IsNone, Err};
ghost use Rattle.std.specs.IoError.{error_kind};
ghost use Rattle.std.specs.Process.{exit_status};
ghost use Rattle.failures.specs.declared.Stop.TheVariants.{Told, ReaderLeft};
ghost use Rattle.failures.specs.Stops.{status_of};

use std::io::{self, ErrorKind};
use std::process::ExitCode;

// The status of a program whose reader left, as a shell tells it of one that the signal PIPE ended.
pub const READER_LEFT: u8 = 141;

// Why a program stops: on standard error it has told what failed, or the reader of its output has left, and is told nothing.
#[derive(Clone, Copy, Debug, PartialEq, Eq)]
pub enum Stop {
    Told,
    ReaderLeft,
}

impl From<Stop> for ExitCode {
    ghost from_gives = { λ stop code. exit_status code ≡ status_of stop };

    // The status says only that the reader left: the shell tools make one of what was told.
    fn from(stop: Stop) -> ExitCode {
        match stop {
            Stop::Told => ExitCode::SUCCESS,
            Stop::ReaderLeft => ExitCode::from(READER_LEFT),
        }
    }
}

// The system's own words in a message of std: behind them stands the error's number.
fn words_of(message: &str) -> &str {
    message
        .split_once(" (os error ")
        .map_or(message, |(words, _)| words)
}

// Tells what failed and why.
pub fn fail(rt: &HostRuntime, what: &str, error: io::Error) -> Stop
    ensures { result ≡ Told }
{
    let _ = match format!(in rt.alloc(); "{error}") {
        Ok(message) => eprintln!(rt; "{what}: {}", words_of(&message)),
        Err(_) => eprintln!(rt; "{what}: {error}"),
    };
    Stop::Told
}

// Tells why standard output was not written; to a reader that has left it says nothing.
pub fn unwritten(rt: &HostRuntime, error: io::Error) -> Stop
    ensures left { error_kind error ≡ ErrorKind.BrokenPipe → result ≡ ReaderLeft }
    ensures told { error_kind error ≢ ErrorKind.BrokenPipe → result ≡ Told }
{
    if error.kind() == ErrorKind::BrokenPipe {
        return Stop::ReaderLeft;
    }
    fail(rt, "standard output", error)
}

// Writes to standard output; where that fails, it tells why, but not to a reader that has left.
pub fn write_out(rt: &HostRuntime, bytes: &[u8]) -> Result<(), Stop> {
    rt.stdout()
        .write_all(bytes)
        .map_err(|error| unwritten(rt, error))
}

// Writes the front of a buffer, as long as what was put there; where nothing was, the error is that of a system where no call failed.
pub fn write_front(rt: &HostRuntime, buffer: &[u8], length: Option<usize>) -> Result<(), Stop>
    ensures { IsNone length → result ≡ Err Told }
{
    match length.and_then(|length| buffer.get(..length)) {
        Some(front) => write_out(rt, front),
        None => Err(unwritten(rt, io::Error::from_raw_os_error(0))),
    }
}
