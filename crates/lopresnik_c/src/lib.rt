// The static library for C: each function exports that of the library lopresnik, with the same clauses. tools/exports.py writes this file.
#![tactic(auto)]

ghost use Rattle.std.specs.Prelude.{◌≡◌, true, false, [], length};
ghost use Rattle.model.specs.Answers.{of_found, of_inserted, of_removed, of_handed, of_nearest, of_ranged, of_opened, of_stepped, of_closed, of_swept, of_tallied};
ghost use Rattle.tables.specs.Tables.{version};
ghost use Rattle.soundness.specs.Tested.{lent};
ghost use Rattle.calls.specs.Entries.{with};
ghost use Rattle.batch.specs.Cells.{cells_of};
ghost use Rattle.lent.specs.Forms.{SetsUp, Looks, Nears, Tallies, Inserts, Removes, HandsOver, Sweeps, Opens, Closes, Steps, Ranges, Runs, rooms};
ghost use Rattle.lopresnik.specs.Exports.{Gives, refusal, ran};
ghost use Rattle.lopresnik.specs.Written.{interface, asked, written, AskedWritten, headed};
ghost use Rattle.groups.specs.Buffers.{Writes};
ghost use Rattle.transactions.specs.Sequences.{bytes_of};
ghost use Rattle.transactions.specs.Calls.{header_of};

use lopresnik::{Answer, Ran};
use tables::{Coordinator, Ticket};

// The version of the interface, so that a host can see that its declarations are of the same one.
#[unsafe(no_mangle)]
pub extern "C" fn lopresnik_version() -> u32
    ensures { result ≡ interface }
{
    lopresnik::lopresnik_version()
}

// Set-up: an empty map with no open range.
#[unsafe(no_mangle)]
pub extern "C" fn lopresnik_set_up(
    keys: &[u64],
    values: &[i64],
    rows: &mut [u32],
    buckets: &mut [u32],
    tickets: &mut [Ticket],
    coordinator: &mut Coordinator,
    capacity: u32,
    start: u32,
) -> u32
    ensures { Gives (SetsUp (length tickets.old) capacity (version start) (lent keys.now values.now rows.old buckets.old tickets.old coordinator.old) (lent keys.now values.now rows.new buckets.new tickets.new coordinator.new)) refusal result }
{
    lopresnik::lopresnik_set_up(
        keys,
        values,
        rows,
        buckets,
        tickets,
        coordinator,
        capacity,
        start,
    )
}

// Lookup: the value of the key.
#[unsafe(no_mangle)]
pub extern "C" fn lopresnik_lookup(
    keys: &[u64],
    values: &[i64],
    rows: &[u32],
    buckets: &[u32],
    tickets: &mut [Ticket],
    coordinator: &mut Coordinator,
    key: i64,
) -> Answer
    ensures { Gives (Looks (length tickets.old) key (lent keys.now values.now rows.now buckets.now tickets.old coordinator.old) (lent keys.now values.now rows.now buckets.now tickets.new coordinator.new)) (λ a. cells_of 0 (of_found a)) result.cells }
{
    lopresnik::lopresnik_lookup(keys, values, rows, buckets, tickets, coordinator, key)
}

// Insert: the key with its value; the coin makes its height.
#[unsafe(no_mangle)]
pub extern "C" fn lopresnik_insert(
    keys: &mut [u64],
    values: &mut [i64],
    rows: &mut [u32],
    buckets: &mut [u32],
    tickets: &mut [Ticket],
    coordinator: &mut Coordinator,
    key: i64,
    value: i64,
    coin: u64,
) -> Answer
    ensures { Gives (Inserts (length tickets.old) key value coin (lent keys.old values.old rows.old buckets.old tickets.old coordinator.old) (lent keys.new values.new rows.new buckets.new tickets.new coordinator.new)) (λ a. cells_of 1 (of_inserted a)) result.cells }
{
    lopresnik::lopresnik_insert(
        keys,
        values,
        rows,
        buckets,
        tickets,
        coordinator,
        key,
        value,
        coin,
    )
}

// Remove: the key's node becomes pending.
#[unsafe(no_mangle)]
pub extern "C" fn lopresnik_remove(
    keys: &[u64],
    values: &[i64],
    rows: &mut [u32],
    buckets: &mut [u32],
    tickets: &mut [Ticket],
    coordinator: &mut Coordinator,
    key: i64,
) -> Answer
    ensures { Gives (Removes (length tickets.old) key (lent keys.now values.now rows.old buckets.old tickets.old coordinator.old) (lent keys.now values.now rows.new buckets.new tickets.new coordinator.new)) (λ a. cells_of 2 (of_removed a)) result.cells }
{
    lopresnik::lopresnik_remove(keys, values, rows, buckets, tickets, coordinator, key)
}

// Hand over: a pending node is freed at once, or joins the list of the latest range.
#[unsafe(no_mangle)]
pub extern "C" fn lopresnik_hand_over(
    keys: &[u64],
    values: &[i64],
    rows: &mut [u32],
    buckets: &[u32],
    tickets: &mut [Ticket],
    coordinator: &mut Coordinator,
    node: u32,
) -> Answer
    ensures { Gives (HandsOver (length tickets.old) node (lent keys.now values.now rows.old buckets.now tickets.old coordinator.old) (lent keys.now values.now rows.new buckets.now tickets.new coordinator.new)) (λ a. cells_of 3 (of_handed a)) result.cells }
{
    lopresnik::lopresnik_hand_over(keys, values, rows, buckets, tickets, coordinator, node)
}

// Ceil: the nearest present key at or above.
#[unsafe(no_mangle)]
pub extern "C" fn lopresnik_ceil(
    keys: &[u64],
    values: &[i64],
    rows: &[u32],
    buckets: &[u32],
    tickets: &mut [Ticket],
    coordinator: &mut Coordinator,
    key: i64,
) -> Answer
    ensures { Gives (Nears (length tickets.old) key 0 true (lent keys.now values.now rows.now buckets.now tickets.old coordinator.old) (lent keys.now values.now rows.now buckets.now tickets.new coordinator.new)) (λ a. cells_of 4 (of_nearest a)) result.cells }
{
    lopresnik::lopresnik_ceil(keys, values, rows, buckets, tickets, coordinator, key)
}

// Floor: the nearest present key at or below.
#[unsafe(no_mangle)]
pub extern "C" fn lopresnik_floor(
    keys: &[u64],
    values: &[i64],
    rows: &[u32],
    buckets: &[u32],
    tickets: &mut [Ticket],
    coordinator: &mut Coordinator,
    key: i64,
) -> Answer
    ensures { Gives (Nears (length tickets.old) key 1 true (lent keys.now values.now rows.now buckets.now tickets.old coordinator.old) (lent keys.now values.now rows.now buckets.now tickets.new coordinator.new)) (λ a. cells_of 5 (of_nearest a)) result.cells }
{
    lopresnik::lopresnik_floor(keys, values, rows, buckets, tickets, coordinator, key)
}

// Succ: the nearest present key above.
#[unsafe(no_mangle)]
pub extern "C" fn lopresnik_succ(
    keys: &[u64],
    values: &[i64],
    rows: &[u32],
    buckets: &[u32],
    tickets: &mut [Ticket],
    coordinator: &mut Coordinator,
    key: i64,
) -> Answer
    ensures { Gives (Nears (length tickets.old) key 0 false (lent keys.now values.now rows.now buckets.now tickets.old coordinator.old) (lent keys.now values.now rows.now buckets.now tickets.new coordinator.new)) (λ a. cells_of 6 (of_nearest a)) result.cells }
{
    lopresnik::lopresnik_succ(keys, values, rows, buckets, tickets, coordinator, key)
}

// Pred: the nearest present key below.
#[unsafe(no_mangle)]
pub extern "C" fn lopresnik_pred(
    keys: &[u64],
    values: &[i64],
    rows: &[u32],
    buckets: &[u32],
    tickets: &mut [Ticket],
    coordinator: &mut Coordinator,
    key: i64,
) -> Answer
    ensures { Gives (Nears (length tickets.old) key 1 false (lent keys.now values.now rows.now buckets.now tickets.old coordinator.old) (lent keys.now values.now rows.now buckets.now tickets.new coordinator.new)) (λ a. cells_of 7 (of_nearest a)) result.cells }
{
    lopresnik::lopresnik_pred(keys, values, rows, buckets, tickets, coordinator, key)
}

// Fast range: all pairs within the bounds, where they are at most 64 and both buffers have places for them.
#[unsafe(no_mangle)]
pub extern "C" fn lopresnik_fast_range(
    keys: &[u64],
    values: &[i64],
    rows: &[u32],
    buckets: &[u32],
    tickets: &mut [Ticket],
    coordinator: &mut Coordinator,
    low: i64,
    high: i64,
    out_keys: &mut [i64],
    out_values: &mut [i64],
) -> Answer
    ensures { Gives (Ranges (length tickets.old) low high (with (lent keys.now values.now rows.now buckets.now tickets.old coordinator.old) out_keys.old out_values.old) (with (lent keys.now values.now rows.now buckets.now tickets.new coordinator.new) out_keys.new out_values.new)) (λ a. cells_of 8 (of_ranged [] [] a)) result.cells }
{
    lopresnik::lopresnik_fast_range(
        keys,
        values,
        rows,
        buckets,
        tickets,
        coordinator,
        low,
        high,
        out_keys,
        out_values,
    )
}

// Open: a range with these bounds; the answer is its version.
#[unsafe(no_mangle)]
pub extern "C" fn lopresnik_open_range(
    keys: &[u64],
    values: &[i64],
    rows: &[u32],
    buckets: &[u32],
    tickets: &mut [Ticket],
    coordinator: &mut Coordinator,
    low: i64,
    high: i64,
) -> Answer
    ensures { Gives (Opens (length tickets.old) low high (lent keys.now values.now rows.now buckets.now tickets.old coordinator.old) (lent keys.now values.now rows.now buckets.now tickets.new coordinator.new)) (λ a. cells_of 9 (of_opened a)) result.cells }
{
    lopresnik::lopresnik_open_range(keys, values, rows, buckets, tickets, coordinator, low, high)
}

// Step: the next pairs of the open range of that version, as many as both buffers have places for.
#[unsafe(no_mangle)]
pub extern "C" fn lopresnik_step_range(
    keys: &[u64],
    values: &[i64],
    rows: &[u32],
    buckets: &[u32],
    tickets: &mut [Ticket],
    coordinator: &mut Coordinator,
    version: u32,
    out_keys: &mut [i64],
    out_values: &mut [i64],
) -> Answer
    ensures { Gives (Steps (length tickets.old) version (with (lent keys.now values.now rows.now buckets.now tickets.old coordinator.old) out_keys.old out_values.old) (with (lent keys.now values.now rows.now buckets.now tickets.new coordinator.new) out_keys.new out_values.new)) (λ a. cells_of 10 (of_stepped [] [] a)) result.cells }
{
    lopresnik::lopresnik_step_range(
        keys,
        values,
        rows,
        buckets,
        tickets,
        coordinator,
        version,
        out_keys,
        out_values,
    )
}

// Close: the open range of that version, at any moment.
#[unsafe(no_mangle)]
pub extern "C" fn lopresnik_close_range(
    keys: &[u64],
    values: &[i64],
    rows: &[u32],
    buckets: &[u32],
    tickets: &mut [Ticket],
    coordinator: &mut Coordinator,
    version: u32,
) -> Answer
    ensures { Gives (Closes (length tickets.old) version (lent keys.now values.now rows.now buckets.now tickets.old coordinator.old) (lent keys.now values.now rows.now buckets.now tickets.new coordinator.new)) (λ a. cells_of 11 (of_closed a)) result.cells }
{
    lopresnik::lopresnik_close_range(keys, values, rows, buckets, tickets, coordinator, version)
}

// Sweep: the first due node is freed.
#[unsafe(no_mangle)]
pub extern "C" fn lopresnik_sweep(
    keys: &[u64],
    values: &[i64],
    rows: &mut [u32],
    buckets: &[u32],
    tickets: &mut [Ticket],
    coordinator: &mut Coordinator,
) -> Answer
    ensures { Gives (Sweeps (length tickets.old) (lent keys.now values.now rows.old buckets.now tickets.old coordinator.old) (lent keys.now values.now rows.new buckets.now tickets.new coordinator.new)) (λ a. cells_of 12 (of_swept a)) result.cells }
{
    lopresnik::lopresnik_sweep(keys, values, rows, buckets, tickets, coordinator)
}

// Tally: present nodes, held nodes, free nodes.
#[unsafe(no_mangle)]
pub extern "C" fn lopresnik_tally(
    keys: &[u64],
    values: &[i64],
    rows: &[u32],
    buckets: &[u32],
    tickets: &mut [Ticket],
    coordinator: &mut Coordinator,
) -> Answer
    ensures { Gives (Tallies (length tickets.old) (lent keys.now values.now rows.now buckets.now tickets.old coordinator.old) (lent keys.now values.now rows.now buckets.now tickets.new coordinator.new)) (λ a. cells_of 13 (of_tallied a)) result.cells }
{
    lopresnik::lopresnik_tally(keys, values, rows, buckets, tickets, coordinator)
}

// Makes the calls of a list, taken as schedule bytes, one after another; soundness is tested once.
#[unsafe(no_mangle)]
pub extern "C" fn lopresnik_run_list(
    keys: &mut [u64],
    values: &mut [i64],
    rows: &mut [u32],
    buckets: &mut [u32],
    tickets: &mut [Ticket],
    coordinator: &mut Coordinator,
    bytes: &[u8],
    more: bool,
    answers: &mut [i64],
    out_keys: &mut [i64],
    out_values: &mut [i64],
) -> Ran
    ensures { Gives (Runs (length tickets.old) bytes.now more (rooms (lent keys.old values.old rows.old buckets.old tickets.old coordinator.old) answers.old out_keys.old out_values.old) (rooms (lent keys.new values.new rows.new buckets.new tickets.new coordinator.new) answers.new out_keys.new out_values.new)) ran result }
{
    lopresnik::lopresnik_run_list(
        keys,
        values,
        rows,
        buckets,
        tickets,
        coordinator,
        bytes,
        more,
        answers,
        out_keys,
        out_values,
    )
}

// Writes the call of this code with these numbers at the front of a lent buffer and answers its length: 0 where there is no such call, or where the buffer is too short.
#[unsafe(no_mangle)]
pub extern "C" fn lopresnik_write_call(
    buffer: &mut [u8],
    code: u32,
    first: i64,
    second: i64,
    third: u64,
) -> usize
    ensures { AskedWritten (asked code first second third) buffer.old buffer.new result }
{
    lopresnik::lopresnik_write_call(buffer, code, first, second, third)
}

// Writes a header at the front of a lent buffer and answers its length: 0 where the buffer is too short.
#[unsafe(no_mangle)]
pub extern "C" fn lopresnik_write_header(buffer: &mut [u8], capacity: u32, start: u32) -> usize
    ensures { Gives (Writes (bytes_of (header_of (headed capacity start))) buffer.old buffer.new) written result }
{
    lopresnik::lopresnik_write_header(buffer, capacity, start)
}
