// The calls over a lent run of tickets and a lent coordinator: each makes the call where there are sixteen tickets.
// A run of any other number of tickets is refused, and nothing changes.
#![tactic(auto)]

ghost use Rattle.std.specs.Prelude.{◌≡◌, true, false, length, Err, IsOkAnd};
ghost use Rattle.model.specs.declared.Refusal.TheVariants.{NotSound};
ghost use Rattle.soundness.specs.Tested.{lent};
ghost use Rattle.calls.specs.Entries.{with};
ghost use Rattle.lent.specs.Forms.{SetsUp, Looks, Nears, Tallies, Inserts, Removes, HandsOver, Sweeps, Opens, Closes, Steps, Ranges, Runs, rooms};

use batch::{Batch, End};
use model::{Handed, Refusal, Stepped, Swept, Tallied};
use sizes::{Node, Version, size_of};
use tables::{Coordinator, Ticket};
use tickets::{all16, all16_mut};

// All sixteen tickets, or the refusal of a run that has another number of them.
fn sixteen_of(tickets: &[Ticket]) -> Result<&[Ticket; 16], Refusal>
    ensures sixteen { length tickets.now ≡ 16 → IsOkAnd result (λ all. all.now ≡ tickets.now) }
    ensures others { (length tickets.now ≡ 16 → ⊥) → result ≡ Err NotSound }
{
    all16(tickets).ok_or(Refusal::NotSound)
}

// Set-up: an empty map with no open range.
pub fn set_up(
    keys: &[u64],
    values: &[i64],
    rows: &mut [u32],
    buckets: &mut [u32],
    tickets: &mut [Ticket],
    coordinator: &mut Coordinator,
    capacity: u32,
    start: Version,
) -> Result<(), Refusal>
    ensures { SetsUp (length tickets.old) capacity start (lent keys.now values.now rows.old buckets.old tickets.old coordinator.old) (lent keys.now values.now rows.new buckets.new tickets.new coordinator.new) result }
{
    let Some(sixteen) = all16_mut(tickets) else {
        size_of(capacity).ok_or(Refusal::NoSuchCapacity)?;
        return Err(Refusal::NotSound);
    };
    soundness::set_up(
        keys,
        values,
        rows,
        buckets,
        sixteen,
        coordinator,
        capacity,
        start,
    )
}

// Lookup: the value of the key.
pub fn lookup(
    keys: &[u64],
    values: &[i64],
    rows: &[u32],
    buckets: &[u32],
    tickets: &[Ticket],
    coordinator: &Coordinator,
    key: i64,
) -> Result<i64, Refusal>
    ensures { Looks (length tickets.now) key (lent keys.now values.now rows.now buckets.now tickets.now coordinator.now) (lent keys.now values.now rows.now buckets.now tickets.now coordinator.now) result }
{
    let sixteen = sixteen_of(tickets)?; // nothing is looked up
    calls::lookup(keys, values, rows, buckets, sixteen, *coordinator, key)
}

// Ceil: the nearest present key at or above.
pub fn ceil(
    keys: &[u64],
    values: &[i64],
    rows: &[u32],
    buckets: &[u32],
    tickets: &[Ticket],
    coordinator: &Coordinator,
    key: i64,
) -> Result<i64, Refusal>
    ensures { Nears (length tickets.now) key 0 true (lent keys.now values.now rows.now buckets.now tickets.now coordinator.now) (lent keys.now values.now rows.now buckets.now tickets.now coordinator.now) result }
{
    let sixteen = sixteen_of(tickets)?;
    calls::ceil(keys, values, rows, buckets, sixteen, *coordinator, key)
}

// Floor: the nearest present key at or below.
pub fn floor(
    keys: &[u64],
    values: &[i64],
    rows: &[u32],
    buckets: &[u32],
    tickets: &[Ticket],
    coordinator: &Coordinator,
    key: i64,
) -> Result<i64, Refusal>
    ensures { Nears (length tickets.now) key 1 true (lent keys.now values.now rows.now buckets.now tickets.now coordinator.now) (lent keys.now values.now rows.now buckets.now tickets.now coordinator.now) result }
{
    let sixteen = sixteen_of(tickets)?;
    calls::floor(keys, values, rows, buckets, sixteen, *coordinator, key)
}

// Succ: the nearest present key above.
pub fn succ(
    keys: &[u64],
    values: &[i64],
    rows: &[u32],
    buckets: &[u32],
    tickets: &[Ticket],
    coordinator: &Coordinator,
    key: i64,
) -> Result<i64, Refusal>
    ensures { Nears (length tickets.now) key 0 false (lent keys.now values.now rows.now buckets.now tickets.now coordinator.now) (lent keys.now values.now rows.now buckets.now tickets.now coordinator.now) result }
{
    let sixteen = sixteen_of(tickets)?;
    calls::succ(keys, values, rows, buckets, sixteen, *coordinator, key)
}

// Pred: the nearest present key below.
pub fn pred(
    keys: &[u64],
    values: &[i64],
    rows: &[u32],
    buckets: &[u32],
    tickets: &[Ticket],
    coordinator: &Coordinator,
    key: i64,
) -> Result<i64, Refusal>
    ensures { Nears (length tickets.now) key 1 false (lent keys.now values.now rows.now buckets.now tickets.now coordinator.now) (lent keys.now values.now rows.now buckets.now tickets.now coordinator.now) result }
{
    let sixteen = sixteen_of(tickets)?;
    calls::pred(keys, values, rows, buckets, sixteen, *coordinator, key)
}

// Tally: present nodes, held nodes, free nodes.
pub fn tally(
    keys: &[u64],
    values: &[i64],
    rows: &[u32],
    buckets: &[u32],
    tickets: &[Ticket],
    coordinator: &Coordinator,
) -> Result<Tallied, Refusal>
    ensures { Tallies (length tickets.now) (lent keys.now values.now rows.now buckets.now tickets.now coordinator.now) (lent keys.now values.now rows.now buckets.now tickets.now coordinator.now) result }
{
    let sixteen = sixteen_of(tickets)?;
    calls::tally(keys, values, rows, buckets, sixteen, *coordinator)
}

// Insert: the key with its value; the coin makes its height.
pub fn insert(
    keys: &mut [u64],
    values: &mut [i64],
    rows: &mut [u32],
    buckets: &mut [u32],
    tickets: &[Ticket],
    coordinator: &Coordinator,
    key: i64,
    value: i64,
    coin: u64,
) -> Result<Node, Refusal>
    ensures { Inserts (length tickets.now) key value coin (lent keys.old values.old rows.old buckets.old tickets.now coordinator.now) (lent keys.new values.new rows.new buckets.new tickets.now coordinator.now) result }
{
    let sixteen = sixteen_of(tickets)?;
    calls::insert(
        keys,
        values,
        rows,
        buckets,
        sixteen,
        *coordinator,
        key,
        value,
        coin,
    )
}

// Remove: the key's node becomes pending.
pub fn remove(
    keys: &[u64],
    values: &[i64],
    rows: &mut [u32],
    buckets: &mut [u32],
    tickets: &[Ticket],
    coordinator: &Coordinator,
    key: i64,
) -> Result<Node, Refusal>
    ensures { Removes (length tickets.now) key (lent keys.now values.now rows.old buckets.old tickets.now coordinator.now) (lent keys.now values.now rows.new buckets.new tickets.now coordinator.now) result }
{
    let sixteen = sixteen_of(tickets)?;
    calls::remove(keys, values, rows, buckets, sixteen, *coordinator, key)
}

// Hand over: a pending node is freed at once, or joins the list of the latest range.
pub fn hand_over(
    keys: &[u64],
    values: &[i64],
    rows: &mut [u32],
    buckets: &[u32],
    tickets: &mut [Ticket],
    coordinator: &Coordinator,
    node: Node,
) -> Result<Handed, Refusal>
    ensures { HandsOver (length tickets.old) node.0 (lent keys.now values.now rows.old buckets.now tickets.old coordinator.now) (lent keys.now values.now rows.new buckets.now tickets.new coordinator.now) result }
{
    let Some(sixteen) = all16_mut(tickets) else {
        return Err(Refusal::NotSound);
    };
    calls::hand_over(keys, values, rows, buckets, sixteen, *coordinator, node)
}

// Sweep: the first due node is freed.
pub fn sweep(
    keys: &[u64],
    values: &[i64],
    rows: &mut [u32],
    buckets: &[u32],
    tickets: &[Ticket],
    coordinator: &mut Coordinator,
) -> Result<Swept, Refusal>
    ensures { Sweeps (length tickets.now) (lent keys.now values.now rows.old buckets.now tickets.now coordinator.old) (lent keys.now values.now rows.new buckets.now tickets.now coordinator.new) result }
{
    let sixteen = sixteen_of(tickets)?;
    calls::sweep(keys, values, rows, buckets, sixteen, coordinator)
}

// Open: a range with these bounds; the answer is its version.
pub fn open_range(
    keys: &[u64],
    values: &[i64],
    rows: &[u32],
    buckets: &[u32],
    tickets: &mut [Ticket],
    coordinator: &mut Coordinator,
    low: i64,
    high: i64,
) -> Result<Version, Refusal>
    ensures { Opens (length tickets.old) low high (lent keys.now values.now rows.now buckets.now tickets.old coordinator.old) (lent keys.now values.now rows.now buckets.now tickets.new coordinator.new) result }
{
    let Some(sixteen) = all16_mut(tickets) else {
        return Err(Refusal::NotSound);
    };
    calls::open_range(keys, values, rows, buckets, sixteen, coordinator, low, high)
}

// Close: the open range of that version, at any moment.
pub fn close_range(
    keys: &[u64],
    values: &[i64],
    rows: &[u32],
    buckets: &[u32],
    tickets: &mut [Ticket],
    coordinator: &mut Coordinator,
    version: Version,
) -> Result<u32, Refusal>
    ensures { Closes (length tickets.old) version.0 (lent keys.now values.now rows.now buckets.now tickets.old coordinator.old) (lent keys.now values.now rows.now buckets.now tickets.new coordinator.new) result }
{
    let Some(sixteen) = all16_mut(tickets) else {
        return Err(Refusal::NotSound);
    };
    calls::close_range(keys, values, rows, buckets, sixteen, coordinator, version)
}

// Step: the next pairs of the open range of that version, as many as both buffers have places for.
pub fn step_range(
    keys: &[u64],
    values: &[i64],
    rows: &[u32],
    buckets: &[u32],
    tickets: &mut [Ticket],
    coordinator: &Coordinator,
    version: Version,
    out_keys: &mut [i64],
    out_values: &mut [i64],
) -> Result<Stepped, Refusal>
    ensures { Steps (length tickets.old) version.0 (with (lent keys.now values.now rows.now buckets.now tickets.old coordinator.now) out_keys.old out_values.old) (with (lent keys.now values.now rows.now buckets.now tickets.new coordinator.now) out_keys.new out_values.new) result }
{
    let Some(sixteen) = all16_mut(tickets) else {
        return Err(Refusal::NotSound);
    };
    calls::step_range(
        keys,
        values,
        rows,
        buckets,
        sixteen,
        *coordinator,
        version,
        out_keys,
        out_values,
    )
}

// Fast range: all pairs within the bounds, where they are at most 64 and both buffers have places for them.
pub fn fast_range(
    keys: &[u64],
    values: &[i64],
    rows: &[u32],
    buckets: &[u32],
    tickets: &[Ticket],
    coordinator: &Coordinator,
    low: i64,
    high: i64,
    out_keys: &mut [i64],
    out_values: &mut [i64],
) -> Result<u32, Refusal>
    ensures { Ranges (length tickets.now) low high (with (lent keys.now values.now rows.now buckets.now tickets.now coordinator.now) out_keys.old out_values.old) (with (lent keys.now values.now rows.now buckets.now tickets.now coordinator.now) out_keys.new out_values.new) result }
{
    let sixteen = sixteen_of(tickets)?;
    calls::fast_range(
        keys,
        values,
        rows,
        buckets,
        sixteen,
        *coordinator,
        low,
        high,
        out_keys,
        out_values,
    )
}

// Makes the calls of a list, taken as schedule bytes, one after another; soundness is tested once.
pub fn run_list(
    keys: &mut [u64],
    values: &mut [i64],
    rows: &mut [u32],
    buckets: &mut [u32],
    tickets: &mut [Ticket],
    coordinator: &mut Coordinator,
    bytes: &[u8],
    more: bool,
    answers: &mut [i64],
    out_keys: &mut [i64],
    out_values: &mut [i64],
) -> Batch
    ensures { Runs (length tickets.old) bytes.now more (rooms (lent keys.old values.old rows.old buckets.old tickets.old coordinator.old) answers.old out_keys.old out_values.old) (rooms (lent keys.new values.new rows.new buckets.new tickets.new coordinator.new) answers.new out_keys.new out_values.new) result }
{
    let Some(sixteen) = all16_mut(tickets) else {
        return Batch {
            end: End::Refused(Refusal::NotSound),
            used: 0,
            calls: 0,
            pairs: 0,
        };
    };
    batch::run_list(
        keys,
        values,
        rows,
        buckets,
        sixteen,
        coordinator,
        bytes,
        more,
        answers,
        out_keys,
        out_values,
    )
}
