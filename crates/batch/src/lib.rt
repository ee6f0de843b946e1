// A list of calls, taken as schedule bytes and made one after another, with soundness tested once.
#![tactic(auto)]

ghost use Rattle.std.specs.Prelude.{◌≡◌, [], ◌∷◌, ◌+◌, ◌*◌, ◌≤◌, min, length, pos};
ghost use Rattle.lists.specs.Tests.{Says};
ghost use Rattle.lists.specs.Buffers.{written};
ghost use Rattle.sizes.specs.declared.Node.{Node};
ghost use Rattle.sizes.specs.declared.Version.{Version};
ghost use Rattle.model.specs.declared.Swept.{Swept};
ghost use Rattle.model.specs.declared.Tallied.{Tallied};
ghost use Rattle.model.specs.Calls.{Answer, found, node, opened, made_due, swept, counts};
ghost use Rattle.model.specs.Answers.{of_result, told_handed, told_stepped};
ghost use Rattle.tables.specs.Tables.{Sound};
ghost use Rattle.soundness.specs.Tested.{lent};
ghost use Rattle.ranges.specs.Fast.{FastReady};
ghost use Rattle.ranges.specs.Step.{StepReady};
ghost use Rattle.batch.specs.Cells.{cells_of};
ghost use Rattle.batch.specs.Turns.{room, Turned, reply_of, FastReply, StepReply};
ghost use Rattle.batch.specs.Lists.{Room, Comes, Laid, Listed, Ran, input_of, output_of, ended_by};

use model::{Handed, Refusal, Stepped, Swept, Tallied};
use rows::Direction::{After, Before};
use sizes::{Node, Version};
use tables::{Coordinator, Ticket};
use transactions::{Call, Halt};

// How many places of the pair buffers a call has.
const ROOM: usize = 64;

// The cells of a call that is not refused, from up to three numbers.
fn accepted(code: u32, first: i64, second: i64, third: i64) -> [i64; 5]
    ensures { result ≡ pos code ∷ pos 0 ∷ first ∷ second ∷ third ∷ [] }
{
    [i64::from(code), 0, first, second, third]
}

// What a call answers, where it is not refused, as cells: its code, 0, and up to three numbers.
pub trait Told: Copy {
    ghost told: { Self → Answer };

    fn cells(self, code: u32) -> [i64; 5]
        ensures { result ≡ cells_of code (told self) };
}

// A value, a key.
impl Told for i64 {
    ghost told = { found };

    fn cells(self, code: u32) -> [i64; 5] {
        accepted(code, self, 0, 0)
    }
}

// How many pairs were handed out, how many nodes became due.
impl Told for u32 {
    ghost told = { made_due };

    fn cells(self, code: u32) -> [i64; 5] {
        accepted(code, i64::from(self), 0, 0)
    }
}

// The node inserted, removed.
impl Told for Node {
    ghost told = { λ (i : Node). node i.0 };

    fn cells(self, code: u32) -> [i64; 5] {
        self.0.cells(code)
    }
}

// The version of the range opened.
impl Told for Version {
    ghost told = { λ (v : Version). opened v.0 };

    fn cells(self, code: u32) -> [i64; 5] {
        self.0.cells(code)
    }
}

// 1 where the node is free.
impl Told for Handed {
    ghost told = { told_handed };

    fn cells(self, code: u32) -> [i64; 5] {
        let freed = self == Handed::Freed;
        accepted(code, i64::from(freed), 0, 0)
    }
}

// How many pairs, which stand in the buffers, and 1 where none is left.
impl Told for Stepped {
    ghost told = { told_stepped };

    fn cells(self, code: u32) -> [i64; 5] {
        accepted(code, i64::from(self.pairs), i64::from(self.finished), 0)
    }
}

// How many nodes were freed, and how many stay due.
impl Told for Swept {
    ghost told = { λ (s : Swept). swept s.freed s.due };

    fn cells(self, code: u32) -> [i64; 5] {
        accepted(code, i64::from(self.freed), i64::from(self.due), 0)
    }
}

// How many nodes are present, held and free.
impl Told for Tallied {
    ghost told = { λ (t : Tallied). counts t.present t.held t.free };

    fn cells(self, code: u32) -> [i64; 5] {
        accepted(
            code,
            i64::from(self.present),
            i64::from(self.held),
            i64::from(self.free),
        )
    }
}

// The cells of an answer: what is told, or the refusal behind the code.
pub fn cells<T: Told>(code: u32, answer: Result<T, Refusal>) -> [i64; 5]
    ensures { result ≡ cells_of code (of_result T.told answer) }
{
    match answer {
        Ok(told) => told.cells(code),
        Err(refusal) => [i64::from(code), i64::from(u32::from(refusal)), 0, 0, 0],
    }
}

// The cells of the answer, and how many pairs were handed out.
#[derive(Clone, Copy)]
pub struct Reply {
    pub cells: [i64; 5],
    pub pairs: usize,
}

// The reply of a call that hands out no pairs.
fn plain<T: Told>(code: u32, answer: Result<T, Refusal>) -> Reply
    ensures { result ≡ reply_of (cells_of code (of_result T.told answer)) 0 }
{
    Reply {
        cells: cells(code, answer),
        pairs: 0,
    }
}

// A step has as many places as it asks for, if there are that many.
fn step_room(n: u32) -> usize
    ensures { result ≡ min n room }
{
    (n as usize).min(ROOM)
}

// Makes a fast range.
fn fast_reply(
    keys: &[u64],
    values: &[i64],
    rows: &[u32],
    buckets: &[u32],
    counter: Version,
    low: i64,
    high: i64,
    out_keys: &mut [i64],
    out_values: &mut [i64],
) -> Reply
    requires { FastReady keys.now values.now rows.now buckets.now }
    ensures { FastReply keys.now values.now rows.now counter.0 low high out_keys.old out_values.old out_keys.new out_values.new result }
{
    let answer = ranges::fast_range(
        keys, values, rows, buckets, counter, low, high, out_keys, out_values,
    );
    Reply {
        cells: cells(8, answer),
        pairs: answer.unwrap_or(0) as usize,
    }
}

// Makes a step, with as many places as it asks for.
fn step_reply(
    keys: &[u64],
    values: &[i64],
    rows: &[u32],
    tickets: &mut [Ticket; 16],
    ranges: u32,
    version: Version,
    n: u32,
    out_keys: &mut [i64],
    out_values: &mut [i64],
) -> Reply
    requires { StepReady keys.now values.now rows.now tickets.old ranges × (length out_keys.old ≡ room) × (length out_values.old ≡ room) }
    ensures { StepReply keys.now values.now rows.now tickets.old tickets.new ranges version.0 (min n room) out_keys.old out_values.old out_keys.new out_values.new result }
{
    let places = step_room(n);
    let answer = ranges::step_range(
        keys,
        values,
        rows,
        tickets,
        ranges,
        version,
        &mut out_keys[..places],
        &mut out_values[..places],
    );
    Reply {
        cells: cells(10, answer),
        pairs: answer.map_or(0, |stepped| stepped.pairs as usize),
    }
}

// Makes a call on sound tables, with the places of one call in both pair buffers.
fn make_call(
    keys: &mut [u64],
    values: &mut [i64],
    rows: &mut [u32],
    buckets: &mut [u32],
    tickets: &mut [Ticket; 16],
    coordinator: &mut Coordinator,
    call: Call,
    out_keys: &mut [i64],
    out_values: &mut [i64],
) -> Reply
    requires { Sound (lent keys.old values.old rows.old buckets.old tickets.old coordinator.old) × (length out_keys.old ≡ room) × (length out_values.old ≡ room) }
    ensures { Turned (lent keys.old values.old rows.old buckets.old tickets.old coordinator.old) (lent keys.new values.new rows.new buckets.new tickets.new coordinator.new) call out_keys.old out_values.old out_keys.new out_values.new result.cells result.pairs }
{
    let cap = keys.len() as u32;
    let Coordinator {
        counter,
        ranges,
        due,
    } = *coordinator;
    match call {
        Call::Lookup(key) => plain(0, finds::lookup(keys, values, rows, buckets, key)),
        Call::Insert(key, value, coin) => plain(
            1,
            changes::insert(keys, values, rows, buckets, counter, key, value, coin),
        ),
        Call::Remove(key) => plain(2, changes::remove(keys, rows, buckets, counter, key)),
        Call::HandOver(node) => plain(3, returns::hand_over(rows, cap, tickets, ranges, node)),
        Call::Ceil(key) => plain(4, finds::nearest(keys, rows, buckets, key, After, true)),
        Call::Floor(key) => plain(5, finds::nearest(keys, rows, buckets, key, Before, true)),
        Call::Succ(key) => plain(6, finds::nearest(keys, rows, buckets, key, After, false)),
        Call::Pred(key) => plain(7, finds::nearest(keys, rows, buckets, key, Before, false)),
        Call::Fast(low, high) => fast_reply(
            keys, values, rows, buckets, counter, low, high, out_keys, out_values,
        ),
        Call::Open(low, high) => plain(
            9,
            ranges::open_range(keys, rows, buckets, tickets, coordinator, low, high),
        ),
        Call::Step(version, n) => step_reply(
            keys, values, rows, tickets, ranges, version, n, out_keys, out_values,
        ),
        Call::Close(version) => plain(11, ranges::close_range(tickets, coordinator, version)),
        Call::Sweep => plain(12, Ok(returns::sweep_one(rows, cap, coordinator))),
        Call::Tally => plain(13, Ok(finds::tally(rows, cap, due))),
    }
}

// Why a list ended: no byte is left; the offset that `stop` prints; more bytes are needed to tell; the room might not suffice for the next call; the tables are refused.
#[derive(Clone, Copy, Debug, PartialEq, Eq)]
pub enum End {
    Ended,
    Stop(usize),
    More,
    Full,
    Refused(Refusal),
}

// Where reading goes no further, the list ends.
impl From<Halt> for End {
    ghost from_gives = { λ halt end. end ≡ ended_by halt };

    fn from(halt: Halt) -> End {
        match halt {
            Halt::Stop(place) => End::Stop(place),
            Halt::More => End::More,
        }
    }
}

// Whether so many cells for answers and places of both pair buffers are room for one more call.
fn has_room(answers: usize, keys: usize, values: usize, calls: usize, pairs: usize) -> bool
    ensures { Says result (Room answers keys values calls pairs) }
{
    calls < answers / 5
        && ROOM <= keys
        && pairs <= keys - ROOM
        && ROOM <= values
        && pairs <= values - ROOM
}

// Reads what comes next, where so many bytes, calls and pairs are used: a call and its length, or why the list ends.
fn next_call(
    bytes: &[u8],
    more: bool,
    answers: usize,
    keys: usize,
    values: usize,
    used: usize,
    calls: usize,
    pairs: usize,
) -> Result<(Call, usize), End>
    ensures { Comes bytes.now more answers keys values used calls pairs result }
{
    if bytes.len() <= used {
        return Err(End::Ended);
    }
    if !has_room(answers, keys, values, calls, pairs) {
        return Err(End::Full);
    }
    Ok(transactions::read_call(bytes, used, more)?)
}

// Puts the cells of an answer to their place, behind those of so many calls.
fn put_cells(answers: &mut [i64], calls: usize, cells: [i64; 5])
    requires { calls * 5 + 5 ≤ length answers.old }
    ensures { answers.new ≡ written answers.old (calls * 5) cells }
{
    let at = calls * 5;
    answers[at..at + 5].copy_from_slice(&cells);
}

// Makes a call of a list, behind so many calls and pairs, and answers how many pairs it hands out: its cells go to their place, and its pairs behind the others.
fn take_call(
    keys: &mut [u64],
    values: &mut [i64],
    rows: &mut [u32],
    buckets: &mut [u32],
    tickets: &mut [Ticket; 16],
    coordinator: &mut Coordinator,
    call: Call,
    calls: usize,
    pairs: usize,
    answers: &mut [i64],
    out_keys: &mut [i64],
    out_values: &mut [i64],
) -> usize
    requires { Sound (lent keys.old values.old rows.old buckets.old tickets.old coordinator.old) × Room (length answers.old) (length out_keys.old) (length out_values.old) calls pairs }
    ensures { Laid (lent keys.old values.old rows.old buckets.old tickets.old coordinator.old) (lent keys.new values.new rows.new buckets.new tickets.new coordinator.new) call calls pairs answers.old out_keys.old out_values.old answers.new out_keys.new out_values.new result }
{
    let end = pairs + ROOM;
    let reply = make_call(
        keys,
        values,
        rows,
        buckets,
        tickets,
        coordinator,
        call,
        &mut out_keys[pairs..end],
        &mut out_values[pairs..end],
    );
    put_cells(answers, calls, reply.cells);
    reply.pairs
}

// What a list came to: why it ended, and how many bytes, calls and pairs were used.
#[derive(Clone, Copy, Debug, PartialEq, Eq)]
pub struct Batch {
    pub end: End,
    pub used: usize,
    pub calls: usize,
    pub pairs: usize,
}

// Makes the calls of a list on sound tables.
fn run_calls(
    keys: &mut [u64],
    values: &mut [i64],
    rows: &mut [u32],
    buckets: &mut [u32],
    tickets: &mut [Ticket; 16],
    coordinator: &mut Coordinator,
    bytes: &[u8],
    more: bool,
    answers: &mut [i64],
    out_keys: &mut [i64],
    out_values: &mut [i64],
) -> Batch
    requires { Sound (lent keys.old values.old rows.old buckets.old tickets.old coordinator.old) }
    ensures { Listed (input_of (lent keys.old values.old rows.old buckets.old tickets.old coordinator.old) bytes.now more answers.old out_keys.old out_values.old) (output_of (lent keys.new values.new rows.new buckets.new tickets.new coordinator.new) answers.new out_keys.new out_values.new result) }
{
    let mut used: usize = 0;
    let mut calls: usize = 0;
    let mut pairs: usize = 0;
    loop {
        match next_call(
            bytes,
            more,
            answers.len(),
            out_keys.len(),
            out_values.len(),
            used,
            calls,
            pairs,
        ) {
            Ok((call, length)) => {
                pairs += take_call(
                    keys,
                    values,
                    rows,
                    buckets,
                    tickets,
                    coordinator,
                    call,
                    calls,
                    pairs,
                    answers,
                    out_keys,
                    out_values,
                );
                used += length;
                calls += 1;
            }
            Err(end) => {
                return Batch {
                    end,
                    used,
                    calls,
                    pairs,
                };
            }
        }
    }
}

// Makes the calls of a list, taken as schedule bytes, one after another, and tests once whether the tables are sound: if not, it is refused with 1.
// `answers` takes five cells a call, the pair buffers the pairs one behind another. More bytes may follow those that are lent.
pub fn run_list(
    keys: &mut [u64],
    values: &mut [i64],
    rows: &mut [u32],
    buckets: &mut [u32],
    tickets: &mut [Ticket; 16],
    coordinator: &mut Coordinator,
    bytes: &[u8],
    more: bool,
    answers: &mut [i64],
    out_keys: &mut [i64],
    out_values: &mut [i64],
) -> Batch
    ensures { Ran (input_of (lent keys.old values.old rows.old buckets.old tickets.old coordinator.old) bytes.now more answers.old out_keys.old out_values.old) (output_of (lent keys.new values.new rows.new buckets.new tickets.new coordinator.new) answers.new out_keys.new out_values.new result) }
{
    if !soundness::sound(keys, values, rows, buckets, tickets, *coordinator) {
        return Batch {
            end: End::Refused(Refusal::NotSound),
            used: 0,
            calls: 0,
            pairs: 0,
        };
    }
    run_calls(
        keys,
        values,
        rows,
        buckets,
        tickets,
        coordinator,
        bytes,
        more,
        answers,
        out_keys,
        out_values,
    )
}
