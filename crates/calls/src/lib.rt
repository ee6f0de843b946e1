// The entry points: each tests the tables, refuses with 1 where they are not sound, and else makes the call. Nothing is asked of the memory that is lent.
#![tactic(auto)]

ghost use Rattle.std.specs.Prelude.{true, false, is_ok, IsOkUnless};
ghost use Rattle.lists.specs.Tests.{Says};
ghost use Rattle.model.specs.declared.Refusal.TheVariants.{NotSound};
ghost use Rattle.tables.specs.Tables.{Sound};
ghost use Rattle.rows.specs.Columns.{way};
ghost use Rattle.soundness.specs.Tested.{lent};
ghost use Rattle.calls.specs.Entries.{Looks, Nears, Tallies, Inserts, Removes, HandsOver, Sweeps, Closes, Opens, Steps, Ranges};

use model::Refusal::NotSound;
use model::{Handed, Refusal, Stepped, Swept, Tallied};
use rows::Direction;
use sizes::{Node, Version};
use soundness::sound;
use tables::{Coordinator, Ticket};

// Refuses tables that are not sound, as the call says.
fn tested(
    keys: &[u64],
    values: &[i64],
    rows: &[u32],
    buckets: &[u32],
    tickets: &[Ticket; 16],
    coordinator: Coordinator,
    refusal: Refusal,
) -> Result<(), Refusal>
    ensures says { Says (is_ok result) (Sound (lent keys.now values.now rows.now buckets.now tickets.now coordinator)) }
    ensures refusal { IsOkUnless result refusal }
{
    sound(keys, values, rows, buckets, tickets, coordinator)
        .then_some(())
        .ok_or(refusal)
}

// Lookup: the value of the key.
pub fn lookup(
    keys: &[u64],
    values: &[i64],
    rows: &[u32],
    buckets: &[u32],
    tickets: &[Ticket; 16],
    coordinator: Coordinator,
    key: i64,
) -> Result<i64, Refusal>
    ensures { Looks (lent keys.now values.now rows.now buckets.now tickets.now coordinator) (lent keys.now values.now rows.now buckets.now tickets.now coordinator) key result }
{
    tested(keys, values, rows, buckets, tickets, coordinator, NotSound)?; // nothing is looked up
    finds::lookup(keys, values, rows, buckets, key)
}

// The nearest present key in the direction d, the key itself included where `at`.
fn nearest(
    keys: &[u64],
    values: &[i64],
    rows: &[u32],
    buckets: &[u32],
    tickets: &[Ticket; 16],
    coordinator: Coordinator,
    key: i64,
    d: Direction,
    at: bool,
) -> Result<i64, Refusal>
    ensures { Nears (lent keys.now values.now rows.now buckets.now tickets.now coordinator) (lent keys.now values.now rows.now buckets.now tickets.now coordinator) key (way d) at result }
{
    tested(keys, values, rows, buckets, tickets, coordinator, NotSound)?; // no key is looked for
    finds::nearest(keys, rows, buckets, key, d, at)
}

// Ceil: the nearest present key at or above.
pub fn ceil(
    keys: &[u64],
    values: &[i64],
    rows: &[u32],
    buckets: &[u32],
    tickets: &[Ticket; 16],
    coordinator: Coordinator,
    key: i64,
) -> Result<i64, Refusal>
    ensures { Nears (lent keys.now values.now rows.now buckets.now tickets.now coordinator) (lent keys.now values.now rows.now buckets.now tickets.now coordinator) key 0 true result }
{
    nearest(
        keys,
        values,
        rows,
        buckets,
        tickets,
        coordinator,
        key,
        Direction::After,
        true,
    )
}

// Floor: the nearest present key at or below.
pub fn floor(
    keys: &[u64],
    values: &[i64],
    rows: &[u32],
    buckets: &[u32],
    tickets: &[Ticket; 16],
    coordinator: Coordinator,
    key: i64,
) -> Result<i64, Refusal>
    ensures { Nears (lent keys.now values.now rows.now buckets.now tickets.now coordinator) (lent keys.now values.now rows.now buckets.now tickets.now coordinator) key 1 true result }
{
    nearest(
        keys,
        values,
        rows,
        buckets,
        tickets,
        coordinator,
        key,
        Direction::Before,
        true,
    )
}

// Succ: the nearest present key above.
pub fn succ(
    keys: &[u64],
    values: &[i64],
    rows: &[u32],
    buckets: &[u32],
    tickets: &[Ticket; 16],
    coordinator: Coordinator,
    key: i64,
) -> Result<i64, Refusal>
    ensures { Nears (lent keys.now values.now rows.now buckets.now tickets.now coordinator) (lent keys.now values.now rows.now buckets.now tickets.now coordinator) key 0 false result }
{
    nearest(
        keys,
        values,
        rows,
        buckets,
        tickets,
        coordinator,
        key,
        Direction::After,
        false,
    )
}

// Pred: the nearest present key below.
pub fn pred(
    keys: &[u64],
    values: &[i64],
    rows: &[u32],
    buckets: &[u32],
    tickets: &[Ticket; 16],
    coordinator: Coordinator,
    key: i64,
) -> Result<i64, Refusal>
    ensures { Nears (lent keys.now values.now rows.now buckets.now tickets.now coordinator) (lent keys.now values.now rows.now buckets.now tickets.now coordinator) key 1 false result }
{
    nearest(
        keys,
        values,
        rows,
        buckets,
        tickets,
        coordinator,
        key,
        Direction::Before,
        false,
    )
}

// Tally: present nodes, held nodes, free nodes.
pub fn tally(
    keys: &[u64],
    values: &[i64],
    rows: &[u32],
    buckets: &[u32],
    tickets: &[Ticket; 16],
    coordinator: Coordinator,
) -> Result<Tallied, Refusal>
    ensures { Tallies (lent keys.now values.now rows.now buckets.now tickets.now coordinator) (lent keys.now values.now rows.now buckets.now tickets.now coordinator) result }
{
    if sound(keys, values, rows, buckets, tickets, coordinator) {
        Ok(finds::tally(rows, keys.len() as u32, coordinator.due))
    } else {
        Err(Refusal::NotSound) // nothing is counted
    }
}

// Insert: the key with its value; the coin makes its height.
pub fn insert(
    keys: &mut [u64],
    values: &mut [i64],
    rows: &mut [u32],
    buckets: &mut [u32],
    tickets: &[Ticket; 16],
    coordinator: Coordinator,
    key: i64,
    value: i64,
    coin: u64,
) -> Result<Node, Refusal>
    ensures { Inserts (lent keys.old values.old rows.old buckets.old tickets.now coordinator) (lent keys.new values.new rows.new buckets.new tickets.now coordinator) key value coin result }
{
    tested(keys, values, rows, buckets, tickets, coordinator, NotSound)?; // nothing is inserted
    let counter = coordinator.counter;
    changes::insert(keys, values, rows, buckets, counter, key, value, coin)
}

// Remove: the key's node becomes pending.
pub fn remove(
    keys: &[u64],
    values: &[i64],
    rows: &mut [u32],
    buckets: &mut [u32],
    tickets: &[Ticket; 16],
    coordinator: Coordinator,
    key: i64,
) -> Result<Node, Refusal>
    ensures { Removes (lent keys.now values.now rows.old buckets.old tickets.now coordinator) (lent keys.now values.now rows.new buckets.new tickets.now coordinator) key result }
{
    tested(keys, values, rows, buckets, tickets, coordinator, NotSound)?; // nothing is removed
    let counter = coordinator.counter;
    changes::remove(keys, rows, buckets, counter, key)
}

// Hand over: a pending node is freed at once, or joins the list of the latest range.
pub fn hand_over(
    keys: &[u64],
    values: &[i64],
    rows: &mut [u32],
    buckets: &[u32],
    tickets: &mut [Ticket; 16],
    coordinator: Coordinator,
    node: Node,
) -> Result<Handed, Refusal>
    ensures { HandsOver (lent keys.now values.now rows.old buckets.now tickets.old coordinator) (lent keys.now values.now rows.new buckets.now tickets.new coordinator) node.0 result }
{
    tested(keys, values, rows, buckets, tickets, coordinator, NotSound)?; // nothing is handed over
    returns::hand_over(rows, keys.len() as u32, tickets, coordinator.ranges, node)
}

// Sweep: the first due node is freed.
pub fn sweep(
    keys: &[u64],
    values: &[i64],
    rows: &mut [u32],
    buckets: &[u32],
    tickets: &[Ticket; 16],
    coordinator: &mut Coordinator,
) -> Result<Swept, Refusal>
    ensures { Sweeps (lent keys.now values.now rows.old buckets.now tickets.now coordinator.old) (lent keys.now values.now rows.new buckets.now tickets.now coordinator.new) result }
{
    if sound(keys, values, rows, buckets, tickets, *coordinator) {
        Ok(returns::sweep_one(rows, keys.len() as u32, coordinator))
    } else {
        Err(Refusal::NotSound) // nothing is freed
    }
}

// Open: a range with these bounds; the answer is its version.
pub fn open_range(
    keys: &[u64],
    values: &[i64],
    rows: &[u32],
    buckets: &[u32],
    tickets: &mut [Ticket; 16],
    coordinator: &mut Coordinator,
    low: i64,
    high: i64,
) -> Result<Version, Refusal>
    ensures { Opens (lent keys.now values.now rows.now buckets.now tickets.old coordinator.old) (lent keys.now values.now rows.now buckets.now tickets.new coordinator.new) low high result }
{
    tested(keys, values, rows, buckets, tickets, *coordinator, NotSound)?; // no range is opened
    ranges::open_range(keys, rows, buckets, tickets, coordinator, low, high)
}

// Close: the open range of that version, at any moment.
pub fn close_range(
    keys: &[u64],
    values: &[i64],
    rows: &[u32],
    buckets: &[u32],
    tickets: &mut [Ticket; 16],
    coordinator: &mut Coordinator,
    version: Version,
) -> Result<u32, Refusal>
    ensures { Closes (lent keys.now values.now rows.now buckets.now tickets.old coordinator.old) (lent keys.now values.now rows.now buckets.now tickets.new coordinator.new) version.0 result }
{
    tested(keys, values, rows, buckets, tickets, *coordinator, NotSound)?; // no range is closed
    ranges::close_range(tickets, coordinator, version)
}

// Step: the next pairs of the open range of that version, as many as both buffers have places for.
pub fn step_range(
    keys: &[u64],
    values: &[i64],
    rows: &[u32],
    buckets: &[u32],
    tickets: &mut [Ticket; 16],
    coordinator: Coordinator,
    version: Version,
    out_keys: &mut [i64],
    out_values: &mut [i64],
) -> Result<Stepped, Refusal>
    ensures { Steps (lent keys.now values.now rows.now buckets.now tickets.old coordinator) out_keys.old out_values.old (lent keys.now values.now rows.now buckets.now tickets.new coordinator) out_keys.new out_values.new version.0 result }
{
    tested(keys, values, rows, buckets, tickets, coordinator, NotSound)?; // no step is made
    ranges::step_range(
        keys,
        values,
        rows,
        tickets,
        coordinator.ranges,
        version,
        out_keys,
        out_values,
    )
}

// Fast range: all pairs within the bounds, where they are at most 64 and both buffers have places for them.
pub fn fast_range(
    keys: &[u64],
    values: &[i64],
    rows: &[u32],
    buckets: &[u32],
    tickets: &[Ticket; 16],
    coordinator: Coordinator,
    low: i64,
    high: i64,
    out_keys: &mut [i64],
    out_values: &mut [i64],
) -> Result<u32, Refusal>
    ensures { Ranges (lent keys.now values.now rows.now buckets.now tickets.now coordinator) out_keys.old out_values.old out_keys.new out_values.new low high result }
{
    tested(keys, values, rows, buckets, tickets, coordinator, NotSound)?; // nothing is handed out
    let counter = coordinator.counter;
    ranges::fast_range(
        keys, values, rows, buckets, counter, low, high, out_keys, out_values,
    )
}
