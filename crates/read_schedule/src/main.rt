// Reads a schedule file from standard input and writes it as text to standard output. Where the bytes stop making sense, that is told
// on standard error with their offset, and ends the program; what stands before them has been written.
#![tactic(auto)]

ghost use Rattle.std.specs.Prelude.{◌≡◌, true, ◌≤◌, length, IfOk, MatchOption};
ghost use Rattle.windows.specs.Windows.{Held, Fetches, left_of};

use failures::Stop;
use std::process::ExitCode;
use transactions::{Call, Halt, Header};
use windows::Window;

// How many bytes of the file are held at a time.
const ROOM: usize = 4096;

// Tells where the bytes stop making sense: at a place behind the first byte held.
fn refuse(rt: &HostRuntime, window: Window, place: usize) -> Stop {
    let offset = window.offset_of(place);
    let _ = eprintln!(rt; "byte {offset}: not a schedule file from here");
    Stop::Told
}

// Writes the text of a header.
fn show_header(rt: &HostRuntime, header: Header) -> Result<(), Stop> {
    let mut text = [0u8; 80];
    let length = notation::write_header(&mut text, header).ok();
    failures::write_front(rt, &text, length)
}

// Writes the text of a call.
fn show_call(rt: &HostRuntime, call: Call) -> Result<(), Stop> {
    let mut text = [0u8; 80];
    let length = notation::write_call(&mut text, call).ok();
    failures::write_front(rt, &text, length)
}

// Reads on behind what is held; where that fails, it tells why.
fn fetch(rt: &HostRuntime, buffer: &mut [u8], window: Window) -> Result<Window, Stop>
    ensures { IfOk result (λ next. Fetches window buffer.old next buffer.new) }
{
    windows::fetch(&mut rt.stdin(), buffer, window).map_err(|error| {
        let _ = eprintln!(rt; "read_schedule: {error}");
        Stop::Told
    })
}

// Takes the header from the bytes held: its length, and nothing where more is to be read first.
fn take_header(rt: &HostRuntime, bytes: &[u8], window: Window) -> Result<Option<usize>, Stop>
    ensures { IfOk result (λ taken. MatchOption taken (window.more ≡ true) (λ at. at ≤ length bytes.now)) }
{
    match transactions::read_header(bytes, window.more) {
        Ok((header, length)) => {
            show_header(rt, header)?;
            Ok(Some(length))
        }
        Err(Halt::Stop(place)) => Err(refuse(rt, window, place)),
        Err(Halt::More) => Ok(None),
    }
}

// Reads until the header is there, and takes it: what is held behind it.
fn begin(rt: &HostRuntime, buffer: &mut [u8]) -> Result<Window, Stop>
    ensures { IfOk result (λ rest. Held rest (length buffer.new)) }
{
    let mut window = Window::unread();
    loop {
        window = fetch(rt, buffer, window)?;
        let bytes = &buffer[window.from..window.to];
        if let Some(length) = take_header(rt, bytes, window)? {
            return Ok(window.drop_front(length));
        }
    }
}

// Takes the calls that are whole in the bytes held: the place behind them.
fn take_calls(rt: &HostRuntime, bytes: &[u8], window: Window) -> Result<usize, Stop>
    ensures { IfOk result (λ at. at ≤ length bytes.now) }
{
    let mut at = 0;
    while at < bytes.len() {
        match transactions::read_call(bytes, at, window.more) {
            Ok((call, length)) => {
                show_call(rt, call)?;
                at += length;
            }
            Err(Halt::Stop(place)) => return Err(refuse(rt, window, place)),
            Err(Halt::More) => break,
        }
    }
    Ok(at)
}

// Takes the calls that are held: what is held behind them.
fn take_held(rt: &HostRuntime, buffer: &[u8], window: Window) -> Result<Window, Stop>
    requires { Held window (length buffer.now) }
    ensures { IfOk result (λ rest. Held rest (length buffer.now) × (left_of rest ≤ left_of window) × (rest.more ≡ window.more)) }
{
    let at = take_calls(rt, &buffer[window.from..window.to], window)?;
    Ok(window.drop_front(at))
}

// Shows a whole schedule file.
fn show_file(rt: &HostRuntime) -> Result<(), Stop> {
    let mut buffer = [0u8; ROOM];
    let mut window = begin(rt, &mut buffer)?;
    loop {
        window = take_held(rt, &buffer, window)?;
        if !window.more {
            return Ok(());
        }
        window = fetch(rt, &mut buffer, window)?;
    }
}

fn main(rt: HostRuntime) -> ExitCode {
    match show_file(&rt) {
        Ok(()) => ExitCode::SUCCESS,
        Err(stop) => ExitCode::from(stop),
    }
}
