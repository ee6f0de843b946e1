// Runs a schedule file of any length from standard input and prints a line for each transaction, as document 01 says.
#![tactic(auto)]

ghost use Rattle.std.specs.Prelude.{◌≡◌, ◌≤◌, length};
ghost use Rattle.sizes.specs.Sizes.{size_of};
ghost use Rattle.listing.specs.Puts.{Room, Put};
ghost use Rattle.schedule.specs.SetUps.{lengths_of, PreparedBy, answer_number};
ghost use Rattle.schedule.specs.Turns.{Starts, Ready, last_most, Within, last_of, next_of, next_after, HeaderBy, PartBy, Begins, Goes, TurnBy, ReadOnBy};

use batch::End;
use failures::Stop;
use model::Refusal;
use sizes::Version;
use std::io::{self, ErrorKind};
use std::process::ExitCode;
use tables::{Coordinator, Ticket};
use transactions::{Halt, Header};
use windows::Window;

// The nodes, cells of rows and buckets that there is memory for: those of capacity 256.
const NODES: usize = 256;

const ROWS: usize = 8256;

const BUCKETS: usize = 367;

// The bytes of standard input that are held at a time.
const INPUT: usize = 65536;

// The cells and the pairs of one batch, of up to 512 calls, and the bytes that their lines and the last line take at most.
const CELLS: usize = 2560;

const PAIRS: usize = 3584;

const OUTPUT: usize = 262144;

// The memory for the tables.
#[derive(Drop)]
struct Memory {
    keys: [u64; NODES],
    values: [i64; NODES],
    rows: [u32; ROWS],
    buckets: [u32; BUCKETS],
}

// The room for the cells and the pairs of a batch, and for the bytes that are to be printed.
#[derive(Drop)]
struct Buffers {
    answers: [i64; CELLS],
    out_keys: [i64; PAIRS],
    out_values: [i64; PAIRS],
    out: [u8; OUTPUT],
}

// How the memory is cut.
#[derive(Clone, Copy)]
struct Lengths {
    nodes: usize,
    rows: usize,
    buckets: usize,
}

// What is carried from turn to turn: whether the header was read, how the memory is cut then, tickets and coordinator, what is held of the input, and how many calls were made.
#[derive(Drop)]
struct Session {
    begun: bool,
    lengths: Lengths,
    tickets: [Ticket; 16],
    coordinator: Coordinator,
    window: Window,
    calls: u64,
}

// What comes behind a turn: another, another once more was read, nothing, or nothing since the tables are not sound.
#[derive(Clone, Copy, Debug, PartialEq, Eq)]
enum Next {
    On,
    Read,
    Over,
    Unsound,
}

// What a turn came to: how many bytes it laid down to be printed, and what comes next.
#[derive(Clone, Copy)]
struct Turned {
    length: usize,
    next: Next,
}

// ---- set-up

// The lengths that a capacity asks for, as far as the memory goes; none where the table has no such capacity.
fn lengths_of(capacity: u32) -> Lengths
    ensures { result ≡ lengths_of (size_of capacity) }
{
    match sizes::size_of(capacity) {
        Some(size) => Lengths {
            nodes: (size.capacity as usize).min(NODES),
            rows: ((size.capacity as usize + 2) * 32).min(ROWS),
            buckets: (size.buckets as usize).min(BUCKETS),
        },
        None => Lengths {
            nodes: 0,
            rows: 0,
            buckets: 0,
        },
    }
}

// Sets up the parts of the memory that a capacity asks for.
fn prepare(
    memory: &mut Memory,
    session: &mut Session,
    capacity: u32,
    start: Version,
) -> Result<(), Refusal>
    ensures { PreparedBy memory.old session.old memory.new session.new capacity start (answer_number result) }
{
    let lengths = lengths_of(capacity);
    session.lengths = lengths;
    let Memory {
        keys,
        values,
        rows,
        buckets,
    } = memory;
    soundness::set_up(
        keys.split_at(lengths.nodes).0,
        values.split_at(lengths.nodes).0,
        rows.split_at_mut(lengths.rows).0,
        buckets.split_at_mut(lengths.buckets).0,
        &mut session.tickets,
        &mut session.coordinator,
        capacity,
        start,
    )
}

// The result of set-up: 0 or the number of the refusal.
fn result_of(answer: Result<(), Refusal>) -> u64
    ensures { result ≡ answer_number answer }
{
    match answer {
        Ok(()) => 0,
        Err(refusal) => u64::from(u32::from(refusal)),
    }
}

// ---- turn by turn

// What is carried to the first turn.
fn waiting() -> Session
    ensures { Starts result }
{
    Session {
        begun: false,
        lengths: Lengths {
            nodes: 0,
            rows: 0,
            buckets: 0,
        },
        tickets: [tables::no_ticket(); 16],
        coordinator: Coordinator {
            counter: Version(0),
            ranges: 0,
            due: 0,
        },
        window: Window::unread(),
        calls: 0,
    }
}

// Behind set-up: the transactions follow where it is done.
fn next_after(res: u64) -> Next
    ensures { result ≡ next_after res }
{
    if res == 0 { Next::On } else { Next::Over }
}

// Sets up as the header says, which takes so many of the bytes held, and lays down the line of that.
fn begin(
    memory: &mut Memory,
    session: &mut Session,
    header: Header,
    length: usize,
    out: &mut [u8],
) -> Turned
    requires { Room out.old 0 64 }
    ensures { Begins memory.old session.old memory.new session.new out.new result header length }
{
    let answer = prepare(memory, session, header.capacity, header.start);
    let result = result_of(answer);
    session.begun = true;
    session.window = session.window.drop_front(length);
    session.calls = 0;
    Turned {
        length: listing::put_number_line(out, 0, b"set-up", result),
        next: next_after(result),
    }
}

// The turn at the header: lays down the line of set-up, or that of a stop, or nothing where more is to be read first.
fn first_turn(
    memory: &mut Memory,
    session: &mut Session,
    input: &[u8; INPUT],
    out: &mut [u8],
) -> Turned
    requires { Ready session.old × Room out.old 0 64 }
    ensures { HeaderBy memory.old session.old input.now memory.new session.new out.new result × Goes session.old session.new result }
{
    let window = session.window;
    match transactions::read_header(&input[window.from..window.to], window.more) {
        Ok((header, length)) => begin(memory, session, header, length, out),
        Err(Halt::Stop(place)) => Turned {
            length: listing::put_number_line(out, 0, b"stop", window.offset_of(place)),
            next: Next::Over,
        },
        Err(Halt::More) => Turned {
            length: 0,
            next: Next::Read,
        },
    }
}

// Lays down the last line of a part that ended so, if it has one.
fn put_last(out: &mut [u8], at: usize, window: Window, end: End) -> usize
    requires { Room out.old at last_most × Within window end }
    ensures { Put out.old at last_most (last_of window end) out.new result }
{
    match end {
        End::Ended => {
            if window.more {
                at
            } else {
                listing::put_word_line(out, at, b"end")
            }
        }
        End::Stop(place) => listing::put_number_line(out, at, b"stop", window.offset_of(place)),
        End::More | End::Full | End::Refused(_) => at,
    }
}

// What comes behind a part that ended so.
fn next_of(window: Window, end: End) -> Next
    ensures { result ≡ next_of window end }
{
    match end {
        End::Ended if window.more => Next::Read,
        End::Ended | End::Stop(_) => Next::Over,
        End::More => Next::Read,
        End::Full => Next::On,
        End::Refused(_) => Next::Unsound,
    }
}

// A turn behind the header: makes the calls that are held, as far as there is room, and lays down their lines, and the last line where the file ends.
fn part_turn(
    memory: &mut Memory,
    session: &mut Session,
    input: &[u8; INPUT],
    buffers: &mut Buffers,
) -> Turned
    requires { Ready session.old }
    ensures { PartBy memory.old session.old input.now buffers.old memory.new session.new buffers.new result × Goes session.old session.new result }
{
    let lengths = session.lengths;
    let window = session.window;
    let Memory {
        keys,
        values,
        rows,
        buckets,
    } = memory;
    let part = lines::run_part(
        keys.split_at_mut(lengths.nodes).0,
        values.split_at_mut(lengths.nodes).0,
        rows.split_at_mut(lengths.rows).0,
        buckets.split_at_mut(lengths.buckets).0,
        &mut session.tickets,
        &mut session.coordinator,
        &input[window.from..window.to],
        window.more,
        session.calls,
        &mut buffers.answers,
        &mut buffers.out_keys,
        &mut buffers.out_values,
        &mut buffers.out,
    );
    let batch = part.batch;
    session.begun = true;
    session.window = window.drop_front(batch.used);
    session.calls += batch.calls as u64;
    Turned {
        length: put_last(&mut buffers.out, part.length, window, batch.end),
        next: next_of(window, batch.end),
    }
}

// A turn: lays the bytes that are to be printed at the front of the buffer for them.
fn turn(
    memory: &mut Memory,
    session: &mut Session,
    input: &[u8; INPUT],
    buffers: &mut Buffers,
) -> Turned
    requires { Ready session.old }
    ensures { TurnBy memory.old session.old input.now buffers.old memory.new session.new buffers.new result }
{
    if session.begun {
        part_turn(memory, session, input, buffers)
    } else {
        first_turn(memory, session, input, &mut buffers.out)
    }
}

// ---- what no contract says: which bytes are read and written

// Why the run stops where a write failed: it says so, but not to a reader that has left.
fn unwritten(rt: &HostRuntime, error: io::Error) -> Stop {
    if error.kind() == ErrorKind::BrokenPipe {
        return Stop::ReaderLeft;
    }
    let _ = eprintln!(rt; "schedule: writing standard output failed");
    Stop::Told
}

// Prints the first bytes of a buffer.
fn print(rt: &HostRuntime, out: &[u8], end: usize) -> Result<(), Stop>
    requires { end ≤ length out.now }
{
    rt.stdout()
        .write_all(&out[..end])
        .map_err(|error| unwritten(rt, error))
}

// What is held at the next turn, once more was read where that comes first; nothing where the run is over.
fn read_on(rt: &HostRuntime, input: &mut [u8], window: Window, next: Next) -> Option<Window>
    ensures { ReadOnBy window input.old next result input.new }
{
    match next {
        Next::On => Some(window),
        Next::Read => match windows::fetch(&mut rt.stdin(), input, window) {
            Ok(held) => Some(held),
            Err(error) => {
                let _ = eprintln!(rt; "schedule: {error}");
                None
            }
        },
        Next::Over => None,
        Next::Unsound => {
            let _ = eprintln!(rt; "schedule: the tables are not sound");
            None
        }
    }
}

// Makes turn after turn, prints what each lays down, and reads on, until the run is over or a write fails.
fn run(
    rt: &HostRuntime,
    memory: &mut Memory,
    input: &mut [u8; INPUT],
    buffers: &mut Buffers,
) -> Result<(), Stop> {
    let mut session = waiting();
    loop {
        let turned = turn(memory, &mut session, input, buffers);
        print(rt, &buffers.out, turned.length)?;
        let Some(window) = read_on(rt, input, session.window, turned.next) else {
            return Ok(());
        };
        session.window = window;
    }
}

// Lends the memory for the tables, which is that of capacity 256, and the room for one batch at a time.
fn main(rt: HostRuntime) -> ExitCode {
    let mut memory = Memory {
        keys: [0; NODES],
        values: [0; NODES],
        rows: [0; ROWS],
        buckets: [0; BUCKETS],
    };
    let mut input = [0; INPUT];
    let mut buffers = Buffers {
        answers: [0; CELLS],
        out_keys: [0; PAIRS],
        out_values: [0; PAIRS],
        out: [0; OUTPUT],
    };
    match run(&rt, &mut memory, &mut input, &mut buffers) {
        Ok(()) => ExitCode::SUCCESS,
        Err(stop) => stop.into(),
    }
}
