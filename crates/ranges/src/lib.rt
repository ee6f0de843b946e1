// Ranges: a range is opened, handed out step by step, and closed.
#![tactic(auto)]

ghost use Rattle.std.specs.Prelude.{◌≡◌, ◌<◌, ◌≤◌, length, take};
ghost use Rattle.lists.specs.Buffers.{written};
ghost use Rattle.levels.specs.Levels.{Row};
ghost use Rattle.finds.specs.Near.{NearReady};
ghost use Rattle.ranges.specs.Tickets.{place_of, slide};
ghost use Rattle.ranges.specs.Close.{CloseReady, closing};
ghost use Rattle.ranges.specs.Walk.{may_rest, walk, WalkReady, WalkedBy};
ghost use Rattle.ranges.specs.Step.{StepReady, SteppedBy};
ghost use Rattle.ranges.specs.Open.{opening};
ghost use Rattle.ranges.specs.Fast.{FastReady, RangedBy};

use model::{Refusal, Stepped};
use rows::{Column, Direction, IS_PRESENT, cell};
use sizes::{Node, Version};
use tables::{Coordinator, Ticket};

// The index of the ticket of that version among these.
pub fn find_ticket(tickets: &[Ticket], version: Version) -> Option<usize>
    ensures { result ≡ place_of version.0 tickets.now }
{
    tickets.iter().position(|ticket| ticket.version == version)
}

// The open tickets behind the index j, one down.
pub fn drop_ticket(tickets: &mut [Ticket], ranges: usize, j: usize)
    requires { (j < ranges) × (ranges ≤ length tickets.old) }
    ensures { tickets.new ≡ slide j ranges tickets.old }
{
    for i in j + 1..ranges {
        tickets[i - 1] = tickets[i];
    }
}

// Closes the open range of that version: its list goes to the next older range, or becomes due where there is none.
pub fn close_range(
    tickets: &mut [Ticket; 16],
    coordinator: &mut Coordinator,
    version: Version,
) -> Result<u32, Refusal>
    requires { CloseReady tickets.old coordinator.old }
    ensures answer { result ≡ (closing tickets.old coordinator.old version.0).answer }
    ensures tickets { tickets.new ≡ (closing tickets.old coordinator.old version.0).tickets }
    ensures coordinator { coordinator.new ≡ (closing tickets.old coordinator.old version.0).coordinator }
{
    let ranges = coordinator.ranges as usize;
    let Some(j) = find_ticket(&tickets[..ranges], version) else {
        return Err(Refusal::NoSuchRange); // nothing is closed
    };
    let held = tickets[j].held;
    let due = if j == 0 {
        held
    } else {
        tickets[j - 1].held += held;
        0
    };
    drop_ticket(tickets, ranges, j);
    coordinator.ranges -= 1;
    coordinator.due += due;
    Ok(due)
}

// Whether a range of that version may rest on the node. A version of 64 bits: that of a range opened now may be one more than the last.
#[tactic(auto, unfolding(crate::specs::Walk::may_rest))]
fn may_rest(rows: &[u32], n: u32, version: u64) -> bool
    requires { Row rows.now n }
    ensures { result ≡ may_rest rows.now version n }
{
    u64::from(tables::inserted(rows, n).0) < version
        && (cell(rows, n, Column::Place) == IS_PRESENT
            || version <= u64::from(tables::removed(rows, n).0))
}

// How a walk ended: how many pairs it handed out, whether none is left, and where the range rests then.
#[derive(Clone, Copy)]
pub struct Walked {
    pub count: usize,
    pub finished: bool,
    pub rest: u32,
}

// Walks the lowest level from where a range rests, and hands out the pairs of the nodes that it needs, at most `room`.
fn walk_range(
    keys: &[u64],
    values: &[i64],
    rows: &[u32],
    version: u64,
    high: u64,
    rest: u32,
    room: usize,
    out_keys: &mut [i64],
    out_values: &mut [i64],
) -> Walked
    requires { WalkReady keys.now values.now rows.now rest × (room ≤ length out_keys.old) × (room ≤ length out_values.old) }
    ensures { WalkedBy keys.now values.now rows.now (walk version high rest) room out_keys.old out_values.old out_keys.new out_values.new result }
{
    let cap = keys.len() as u32;
    let mut m = rest;
    let mut count: usize = 0;
    while m < cap {
        if may_rest(rows, m, version) {
            let at = m as usize;
            let key = keys[at];
            let finished = high < key;
            if finished || room <= count {
                return Walked {
                    count,
                    finished,
                    rest: m,
                };
            }
            out_keys[count] = sizes::unrank(key);
            out_values[count] = values[at];
            count += 1;
        }
        m = levels::link(rows, 0, Direction::After, m);
    }
    Walked {
        count,
        finished: true,
        rest: cap + 1,
    }
}

// Hands out the next pairs of the open range of that version, as many as both buffers have places for, and moves its ticket on.
pub fn step_range(
    keys: &[u64],
    values: &[i64],
    rows: &[u32],
    tickets: &mut [Ticket; 16],
    ranges: u32,
    version: Version,
    out_keys: &mut [i64],
    out_values: &mut [i64],
) -> Result<Stepped, Refusal>
    requires { StepReady keys.now values.now rows.now tickets.old ranges }
    ensures { SteppedBy keys.now values.now rows.now tickets.old tickets.new ranges version.0 out_keys.old out_values.old out_keys.new out_values.new result }
{
    let Some(j) = find_ticket(&tickets[..ranges as usize], version) else {
        return Err(Refusal::NoSuchRange);
    };
    let room = out_keys.len().min(out_values.len());
    if room == 0 {
        return Err(Refusal::TooFewPlaces);
    }
    let ticket = tickets[j];
    let walked = walk_range(
        keys,
        values,
        rows,
        u64::from(ticket.version.0),
        ticket.high,
        ticket.rest.0,
        room,
        out_keys,
        out_values,
    );
    tickets[j].rest = Node(walked.rest);
    Ok(Stepped {
        pairs: walked.count as u32,
        finished: walked.finished,
    })
}

// Opens a range over the keys from `low` to `high`: it sees the nodes that are present now, and rests on the first at or above `low`.
pub fn open_range(
    keys: &[u64],
    rows: &[u32],
    buckets: &[u32],
    tickets: &mut [Ticket; 16],
    coordinator: &mut Coordinator,
    low: i64,
    high: i64,
) -> Result<Version, Refusal>
    requires { NearReady keys.now rows.now buckets.now }
    ensures answer { result ≡ (opening keys.now rows.now tickets.old coordinator.old low high).answer }
    ensures tickets { tickets.new ≡ (opening keys.now rows.now tickets.old coordinator.old low high).tickets }
    ensures coordinator { coordinator.new ≡ (opening keys.now rows.now tickets.old coordinator.old low high).coordinator }
{
    if high < low {
        return Err(Refusal::BoundsReversed);
    }
    if coordinator.ranges >= 16 {
        return Err(Refusal::AllTicketsOpen);
    }
    let Some(counter) = coordinator.counter.0.checked_add(1) else {
        return Err(Refusal::LastVersion);
    };
    let version = Version(counter);
    let bottom = sizes::rank(low);
    tickets[coordinator.ranges as usize] = Ticket {
        version,
        low: bottom,
        high: sizes::rank(high),
        rest: Node(finds::near(keys, rows, buckets, bottom, Direction::After, true)),
        held: 0,
    };
    coordinator.counter = version;
    coordinator.ranges += 1;
    Ok(version)
}

// Lays the first `count` elements of `source` at the front of `target`.
fn lay(source: &[i64], count: usize, target: &mut [i64])
    requires { (count ≤ length source.now) × (count ≤ length target.old) }
    ensures { target.new ≡ written target.old 0 (take count source.now) }
{
    target[..count].copy_from_slice(&source[..count]);
}

// A fast range hands out at most so many pairs.
const FAST: usize = 64;

// Hands out all pairs with keys from `low` to `high`: what a range opened now would hand out. In place also in the loop of a list, where a call costs short and refused ranges up to a third.
#[inline(always)]
pub fn fast_range(
    keys: &[u64],
    values: &[i64],
    rows: &[u32],
    buckets: &[u32],
    counter: Version,
    low: i64,
    high: i64,
    out_keys: &mut [i64],
    out_values: &mut [i64],
) -> Result<u32, Refusal>
    requires { FastReady keys.now values.now rows.now buckets.now }
    ensures { RangedBy keys.now values.now rows.now counter.0 low high out_keys.old out_values.old out_keys.new out_values.new result }
{
    if high < low {
        return Err(Refusal::BoundsReversed);
    }
    let rest = finds::near(
        keys,
        rows,
        buckets,
        sizes::rank(low),
        Direction::After,
        true,
    );
    let mut found_keys = [0i64; FAST];
    let mut found_values = [0i64; FAST];
    let walked = walk_range(
        keys,
        values,
        rows,
        u64::from(counter.0) + 1,
        sizes::rank(high),
        rest,
        FAST,
        &mut found_keys,
        &mut found_values,
    );
    if !walked.finished {
        return Err(Refusal::TooManyPairs);
    }
    let count = walked.count;
    if out_keys.len().min(out_values.len()) < count {
        return Err(Refusal::TooFewPlaces);
    }
    lay(&found_keys, count, out_keys);
    lay(&found_values, count, out_values);
    Ok(count as u32)
}
