// The calls as a host makes them: each lends everything on to the lent form of its call, and answers in plain numbers. crates/lopresnik_c exports them to C.
#![tactic(auto)]

mod writing;

ghost use Rattle.std.specs.Prelude.{◌≡◌, true, false, [], length};
ghost use Rattle.model.specs.Answers.{of_result, of_found, of_inserted, of_removed, of_handed, of_nearest, of_ranged, of_opened, of_stepped, of_closed, of_swept, of_tallied};
ghost use Rattle.tables.specs.Tables.{version};
ghost use Rattle.soundness.specs.Tested.{lent};
ghost use Rattle.calls.specs.Entries.{with};
ghost use Rattle.batch.specs.Cells.{cells_of};
ghost use Rattle.lent.specs.Forms.{SetsUp, Looks, Nears, Tallies, Inserts, Removes, HandsOver, Sweeps, Opens, Closes, Steps, Ranges, Runs, rooms};
ghost use Rattle.lopresnik.specs.Exports.{Gives, refusal, ending, ran};
ghost use Rattle.lopresnik.specs.Written.{interface};

use batch::{Batch, End, Told};
use model::Refusal;
use sizes::{Node, Version};
use tables::{Coordinator, Ticket};
pub use writing::{lopresnik_write_call, lopresnik_write_header};

// The version of the interface: it rises when a function, a struct or the layout of the tables changes.
const INTERFACE: u32 = 1;

// An answer as the batch lays it down: the call's code, 0 or the refusal, and up to three numbers.
#[repr(C)]
#[derive(Clone, Copy, Debug, PartialEq, Eq)]
pub struct Answer {
    pub cells: [i64; 5],
}

// What a list came to: why it ended (0 the list ended, 1 `stop`, 2 more bytes are needed, 3 the room might not suffice, 4 refused), the offset of a stop or the number of a refusal, and how many bytes, calls and pairs were used.
#[repr(C)]
#[derive(Clone, Copy, Debug, PartialEq, Eq)]
pub struct Ran {
    pub end: u32,
    pub at: usize,
    pub used: usize,
    pub calls: usize,
    pub pairs: usize,
}

// An answer in cells.
fn in_cells<T: Told>(code: u32, made: Result<T, Refusal>) -> Answer
    ensures { result.cells ≡ cells_of code (of_result T.told made) }
{
    Answer {
        cells: batch::cells(code, made),
    }
}

// Why a list ended, as a number; and the offset of a stop, the number of a refusal, or 0.
fn end_numbers(end: End) -> (u32, usize)
    ensures { result ≡ ending end }
{
    match end {
        End::Ended => (0, 0),
        End::Stop(place) => (1, place),
        End::More => (2, 0),
        End::Full => (3, 0),
        End::Refused(refusal) => (4, u32::from(refusal) as usize),
    }
}

// A run in plain numbers.
fn run_numbers(run: Batch) -> Ran
    ensures { result ≡ ran run }
{
    let (end, at) = end_numbers(run.end);
    Ran {
        end,
        at,
        used: run.used,
        calls: run.calls,
        pairs: run.pairs,
    }
}

// The version of the interface, so that a host can see that its declarations are of the same one.
pub fn lopresnik_version() -> u32
    ensures { result ≡ interface }
{
    INTERFACE
}

// Set-up: an empty map with no open range.
pub fn lopresnik_set_up(
    keys: &[u64],
    values: &[i64],
    rows: &mut [u32],
    buckets: &mut [u32],
    tickets: &mut [Ticket],
    coordinator: &mut Coordinator,
    capacity: u32,
    start: u32,
) -> u32
    ensures { Gives (SetsUp (length tickets.old) capacity (version start) (lent keys.now values.now rows.old buckets.old tickets.old coordinator.old) (lent keys.now values.now rows.new buckets.new tickets.new coordinator.new)) refusal result }
{
    let made = lent::set_up(
        keys,
        values,
        rows,
        buckets,
        tickets,
        coordinator,
        capacity,
        Version(start),
    );
    match made {
        Ok(()) => 0,
        Err(refusal) => u32::from(refusal),
    }
}

// Lookup: the value of the key.
pub fn lopresnik_lookup(
    keys: &[u64],
    values: &[i64],
    rows: &[u32],
    buckets: &[u32],
    tickets: &mut [Ticket],
    coordinator: &mut Coordinator,
    key: i64,
) -> Answer
    ensures { Gives (Looks (length tickets.old) key (lent keys.now values.now rows.now buckets.now tickets.old coordinator.old) (lent keys.now values.now rows.now buckets.now tickets.new coordinator.new)) (λ a. cells_of 0 (of_found a)) result.cells }
{
    let made = lent::lookup(keys, values, rows, buckets, tickets, coordinator, key);
    in_cells(0, made)
}

// Insert: the key with its value; the coin makes its height.
pub fn lopresnik_insert(
    keys: &mut [u64],
    values: &mut [i64],
    rows: &mut [u32],
    buckets: &mut [u32],
    tickets: &mut [Ticket],
    coordinator: &mut Coordinator,
    key: i64,
    value: i64,
    coin: u64,
) -> Answer
    ensures { Gives (Inserts (length tickets.old) key value coin (lent keys.old values.old rows.old buckets.old tickets.old coordinator.old) (lent keys.new values.new rows.new buckets.new tickets.new coordinator.new)) (λ a. cells_of 1 (of_inserted a)) result.cells }
{
    let made = lent::insert(
        keys,
        values,
        rows,
        buckets,
        tickets,
        coordinator,
        key,
        value,
        coin,
    );
    in_cells(1, made)
}

// Remove: the key's node becomes pending.
pub fn lopresnik_remove(
    keys: &[u64],
    values: &[i64],
    rows: &mut [u32],
    buckets: &mut [u32],
    tickets: &mut [Ticket],
    coordinator: &mut Coordinator,
    key: i64,
) -> Answer
    ensures { Gives (Removes (length tickets.old) key (lent keys.now values.now rows.old buckets.old tickets.old coordinator.old) (lent keys.now values.now rows.new buckets.new tickets.new coordinator.new)) (λ a. cells_of 2 (of_removed a)) result.cells }
{
    let made = lent::remove(keys, values, rows, buckets, tickets, coordinator, key);
    in_cells(2, made)
}

// Hand over: a pending node is freed at once, or joins the list of the latest range.
pub fn lopresnik_hand_over(
    keys: &[u64],
    values: &[i64],
    rows: &mut [u32],
    buckets: &[u32],
    tickets: &mut [Ticket],
    coordinator: &mut Coordinator,
    node: u32,
) -> Answer
    ensures { Gives (HandsOver (length tickets.old) node (lent keys.now values.now rows.old buckets.now tickets.old coordinator.old) (lent keys.now values.now rows.new buckets.now tickets.new coordinator.new)) (λ a. cells_of 3 (of_handed a)) result.cells }
{
    let made = lent::hand_over(
        keys,
        values,
        rows,
        buckets,
        tickets,
        coordinator,
        Node(node),
    );
    in_cells(3, made)
}

// Ceil: the nearest present key at or above.
pub fn lopresnik_ceil(
    keys: &[u64],
    values: &[i64],
    rows: &[u32],
    buckets: &[u32],
    tickets: &mut [Ticket],
    coordinator: &mut Coordinator,
    key: i64,
) -> Answer
    ensures { Gives (Nears (length tickets.old) key 0 true (lent keys.now values.now rows.now buckets.now tickets.old coordinator.old) (lent keys.now values.now rows.now buckets.now tickets.new coordinator.new)) (λ a. cells_of 4 (of_nearest a)) result.cells }
{
    let made = lent::ceil(keys, values, rows, buckets, tickets, coordinator, key);
    in_cells(4, made)
}

// Floor: the nearest present key at or below.
pub fn lopresnik_floor(
    keys: &[u64],
    values: &[i64],
    rows: &[u32],
    buckets: &[u32],
    tickets: &mut [Ticket],
    coordinator: &mut Coordinator,
    key: i64,
) -> Answer
    ensures { Gives (Nears (length tickets.old) key 1 true (lent keys.now values.now rows.now buckets.now tickets.old coordinator.old) (lent keys.now values.now rows.now buckets.now tickets.new coordinator.new)) (λ a. cells_of 5 (of_nearest a)) result.cells }
{
    let made = lent::floor(keys, values, rows, buckets, tickets, coordinator, key);
    in_cells(5, made)
}

// Succ: the nearest present key above.
pub fn lopresnik_succ(
    keys: &[u64],
    values: &[i64],
    rows: &[u32],
    buckets: &[u32],
    tickets: &mut [Ticket],
    coordinator: &mut Coordinator,
    key: i64,
) -> Answer
    ensures { Gives (Nears (length tickets.old) key 0 false (lent keys.now values.now rows.now buckets.now tickets.old coordinator.old) (lent keys.now values.now rows.now buckets.now tickets.new coordinator.new)) (λ a. cells_of 6 (of_nearest a)) result.cells }
{
    let made = lent::succ(keys, values, rows, buckets, tickets, coordinator, key);
    in_cells(6, made)
}

// Pred: the nearest present key below.
pub fn lopresnik_pred(
    keys: &[u64],
    values: &[i64],
    rows: &[u32],
    buckets: &[u32],
    tickets: &mut [Ticket],
    coordinator: &mut Coordinator,
    key: i64,
) -> Answer
    ensures { Gives (Nears (length tickets.old) key 1 false (lent keys.now values.now rows.now buckets.now tickets.old coordinator.old) (lent keys.now values.now rows.now buckets.now tickets.new coordinator.new)) (λ a. cells_of 7 (of_nearest a)) result.cells }
{
    let made = lent::pred(keys, values, rows, buckets, tickets, coordinator, key);
    in_cells(7, made)
}

// Fast range: all pairs within the bounds, where they are at most 64 and both buffers have places for them.
pub fn lopresnik_fast_range(
    keys: &[u64],
    values: &[i64],
    rows: &[u32],
    buckets: &[u32],
    tickets: &mut [Ticket],
    coordinator: &mut Coordinator,
    low: i64,
    high: i64,
    out_keys: &mut [i64],
    out_values: &mut [i64],
) -> Answer
    ensures { Gives (Ranges (length tickets.old) low high (with (lent keys.now values.now rows.now buckets.now tickets.old coordinator.old) out_keys.old out_values.old) (with (lent keys.now values.now rows.now buckets.now tickets.new coordinator.new) out_keys.new out_values.new)) (λ a. cells_of 8 (of_ranged [] [] a)) result.cells }
{
    let made = lent::fast_range(
        keys,
        values,
        rows,
        buckets,
        tickets,
        coordinator,
        low,
        high,
        out_keys,
        out_values,
    );
    in_cells(8, made)
}

// Open: a range with these bounds; the answer is its version.
pub fn lopresnik_open_range(
    keys: &[u64],
    values: &[i64],
    rows: &[u32],
    buckets: &[u32],
    tickets: &mut [Ticket],
    coordinator: &mut Coordinator,
    low: i64,
    high: i64,
) -> Answer
    ensures { Gives (Opens (length tickets.old) low high (lent keys.now values.now rows.now buckets.now tickets.old coordinator.old) (lent keys.now values.now rows.now buckets.now tickets.new coordinator.new)) (λ a. cells_of 9 (of_opened a)) result.cells }
{
    let made = lent::open_range(keys, values, rows, buckets, tickets, coordinator, low, high);
    in_cells(9, made)
}

// Step: the next pairs of the open range of that version, as many as both buffers have places for.
pub fn lopresnik_step_range(
    keys: &[u64],
    values: &[i64],
    rows: &[u32],
    buckets: &[u32],
    tickets: &mut [Ticket],
    coordinator: &mut Coordinator,
    version: u32,
    out_keys: &mut [i64],
    out_values: &mut [i64],
) -> Answer
    ensures { Gives (Steps (length tickets.old) version (with (lent keys.now values.now rows.now buckets.now tickets.old coordinator.old) out_keys.old out_values.old) (with (lent keys.now values.now rows.now buckets.now tickets.new coordinator.new) out_keys.new out_values.new)) (λ a. cells_of 10 (of_stepped [] [] a)) result.cells }
{
    let made = lent::step_range(
        keys,
        values,
        rows,
        buckets,
        tickets,
        coordinator,
        Version(version),
        out_keys,
        out_values,
    );
    in_cells(10, made)
}

// Close: the open range of that version, at any moment.
pub fn lopresnik_close_range(
    keys: &[u64],
    values: &[i64],
    rows: &[u32],
    buckets: &[u32],
    tickets: &mut [Ticket],
    coordinator: &mut Coordinator,
    version: u32,
) -> Answer
    ensures { Gives (Closes (length tickets.old) version (lent keys.now values.now rows.now buckets.now tickets.old coordinator.old) (lent keys.now values.now rows.now buckets.now tickets.new coordinator.new)) (λ a. cells_of 11 (of_closed a)) result.cells }
{
    let made = lent::close_range(
        keys,
        values,
        rows,
        buckets,
        tickets,
        coordinator,
        Version(version),
    );
    in_cells(11, made)
}

// Sweep: the first due node is freed.
pub fn lopresnik_sweep(
    keys: &[u64],
    values: &[i64],
    rows: &mut [u32],
    buckets: &[u32],
    tickets: &mut [Ticket],
    coordinator: &mut Coordinator,
) -> Answer
    ensures { Gives (Sweeps (length tickets.old) (lent keys.now values.now rows.old buckets.now tickets.old coordinator.old) (lent keys.now values.now rows.new buckets.now tickets.new coordinator.new)) (λ a. cells_of 12 (of_swept a)) result.cells }
{
    let made = lent::sweep(keys, values, rows, buckets, tickets, coordinator);
    in_cells(12, made)
}

// Tally: present nodes, held nodes, free nodes.
pub fn lopresnik_tally(
    keys: &[u64],
    values: &[i64],
    rows: &[u32],
    buckets: &[u32],
    tickets: &mut [Ticket],
    coordinator: &mut Coordinator,
) -> Answer
    ensures { Gives (Tallies (length tickets.old) (lent keys.now values.now rows.now buckets.now tickets.old coordinator.old) (lent keys.now values.now rows.now buckets.now tickets.new coordinator.new)) (λ a. cells_of 13 (of_tallied a)) result.cells }
{
    let made = lent::tally(keys, values, rows, buckets, tickets, coordinator);
    in_cells(13, made)
}

// Makes the calls of a list, taken as schedule bytes, one after another; soundness is tested once.
pub fn lopresnik_run_list(
    keys: &mut [u64],
    values: &mut [i64],
    rows: &mut [u32],
    buckets: &mut [u32],
    tickets: &mut [Ticket],
    coordinator: &mut Coordinator,
    bytes: &[u8],
    more: bool,
    answers: &mut [i64],
    out_keys: &mut [i64],
    out_values: &mut [i64],
) -> Ran
    ensures { Gives (Runs (length tickets.old) bytes.now more (rooms (lent keys.old values.old rows.old buckets.old tickets.old coordinator.old) answers.old out_keys.old out_values.old) (rooms (lent keys.new values.new rows.new buckets.new tickets.new coordinator.new) answers.new out_keys.new out_values.new)) ran result }
{
    let made = lent::run_list(
        keys,
        values,
        rows,
        buckets,
        tickets,
        coordinator,
        bytes,
        more,
        answers,
        out_keys,
        out_values,
    );
    run_numbers(made)
}
