// The test whether tables are sound, on any memory, and set-up.
#![tactic(auto)]

ghost use Rattle.std.specs.Prelude.{◌≡◌, ◌+◌, ◌*◌, ◌<◌, ◌≤◌, length, get_or, take, drop};
ghost use Rattle.lists.specs.Holds.{All};
ghost use Rattle.lists.specs.Tests.{Says};
ghost use Rattle.rows.specs.Rows.{removals};
ghost use Rattle.levels.specs.Nearest.{Lowest};
ghost use Rattle.places.specs.Places.{Places, ring_count, ring_of};
ghost use Rattle.tables.specs.Tables.{Sound};
ghost use Rattle.soundness.specs.SetUp.{SetUpBy};
ghost use Rattle.soundness.specs.Tested.{lent, Parts, Measured, Ready, Timed, Ordered, Nodes, Rests, Opened, Ringed, Listed};

use levels::link;
use model::Refusal;
use rows::{Column, Direction, IS_FREE, IS_PRESENT, IS_RETIRED, cell};
use sizes::{Size, Version, size_of};
use tables::{Coordinator, Ticket, inserted, removed};

// The greatest capacity.
const MOST: usize = 4096;

// How many tickets there are.
const TICKETS: u32 = 16;

// Whether each part, by its length, fits the size.
fn parts_ok(size: Size, keys: usize, values: usize, rows: usize, buckets: usize) -> bool
    ensures { Says result (Parts size keys values rows buckets) }
{
    let capacity = size.capacity as usize;
    keys == capacity
        && values == capacity
        && rows == (capacity + 2) * 32
        && buckets == size.buckets as usize
}

// Whether there are as many keys as a capacity of the table, and the other parts, by their lengths, fit it.
fn lengths_ok(keys: usize, values: usize, rows: usize, buckets: usize) -> bool
    ensures { Says result (Measured keys values rows buckets) }
{
    if keys > MOST {
        return false;
    }
    match size_of(keys as u32) {
        Some(size) => parts_ok(size, keys, values, rows, buckets),
        None => false,
    }
}

// Whether the linked node n is in use, with versions up to the counter.
fn node_ok(rows: &[u32], n: u32, counter: Version) -> bool
    requires { n * 32 + 32 ≤ length rows.now }
    ensures { Says result (Timed rows.now counter.0 n) }
{
    let place = cell(rows, n, Column::Place);
    if place == IS_FREE || place > IS_RETIRED || inserted(rows, n) > counter {
        return false;
    }
    place == IS_PRESENT || removed(rows, n) <= counter
}

// Whether the key of n goes before that of the next node, if there is one.
fn order_ok(keys: &[u64], rows: &[u32], cap: u32, n: u32, next: u32) -> bool
    requires { Ready keys.now rows.now cap × (n < cap) }
    ensures { Says result (next < cap → Ordered keys.now rows.now n next) }
{
    if next >= cap {
        return true;
    }
    let key = keys[n as usize];
    let later = keys[next as usize];
    if cell(rows, n, Column::Place) == IS_PRESENT {
        return key < later;
    }
    key <= later
}

// Whether the nodes of the lowest level are in use, in time and in order, are all that are not free, and include as many retired ones as the ring. One walk.
fn nodes_ok(keys: &[u64], rows: &[u32], cap: u32, counter: Version) -> bool
    requires { Ready keys.now rows.now cap × Lowest rows.now cap × Places rows.now cap }
    ensures { Says result (Nodes keys.now rows.now cap counter.0) }
{
    let mut n = link(rows, 0, Direction::After, cap);
    let mut linked: u32 = 0;
    let mut retired: u32 = 0;
    while n < cap {
        if !node_ok(rows, n, counter) {
            return false;
        }
        let next = link(rows, 0, Direction::After, n);
        if !order_ok(keys, rows, cap, n, next) {
            return false;
        }
        retired += u32::from(cell(rows, n, Column::Place) == IS_RETIRED);
        linked += 1;
        n = next;
    }
    linked + cell(rows, cap, Column::Free) == cap && retired == cell(rows, cap + 1, Column::Ring)
}

// Whether the ticket rests on the tail, or on a linked node that its range may rest on and whose key is not below the lower bound.
fn rest_ok(keys: &[u64], rows: &[u32], cap: u32, ticket: Ticket) -> bool
    requires { Ready keys.now rows.now cap }
    ensures { Says result (Rests keys.now rows.now cap ticket) }
{
    let n = ticket.rest.0;
    if n >= cap {
        return n == cap + 1;
    }
    let place = cell(rows, n, Column::Place);
    if place == IS_FREE || ticket.version <= inserted(rows, n) || keys[n as usize] < ticket.low {
        return false;
    }
    place == IS_PRESENT || ticket.version <= removed(rows, n)
}

// Whether the open tickets stand in the order of their versions, none above the counter, and each rests where it may.
fn tickets_ok(keys: &[u64], rows: &[u32], cap: u32, tickets: &[Ticket], counter: Version) -> bool
    requires { Ready keys.now rows.now cap }
    ensures { Says result (Opened keys.now rows.now cap counter.0 tickets.now) }
{
    for (i, ticket) in tickets.iter().enumerate() {
        if ticket.version > counter || !rest_ok(keys, rows, cap, *ticket) {
            return false;
        }
        if i > 0 && ticket.version <= tickets[i - 1].version {
            return false;
        }
    }
    true
}

// The i-th node of the ring.
fn ring_node(rows: &[u32], cap: u32, i: u32) -> u32
    requires { Ringed rows.now cap × (i < ring_count rows.now cap) }
    ensures { (result ≡ get_or (ring_of rows.now cap) i 0) × (result < cap) }
{
    let at = cell(rows, cap, Column::Ring) + i;
    if at < cap {
        cell(rows, at, Column::Ring)
    } else {
        cell(rows, at - cap, Column::Ring)
    }
}

// Whether the nodes of the ring from `start` on, so many, were removed before the version.
fn gone_ok(rows: &[u32], cap: u32, start: u32, size: u32, version: Version) -> bool
    requires { Ringed rows.now cap × (start + size ≤ ring_count rows.now cap) }
    ensures { Says result (All (λ n. removals rows.now n < version.0) (take size (drop start (ring_of rows.now cap)))) }
{
    for i in start..start + size {
        if version <= removed(rows, ring_node(rows, cap, i)) {
            return false;
        }
    }
    true
}

// Whether the nodes due and the lists of the open tickets, laid end to end, are the ring, and each node was removed before the version of the ticket whose list comes next.
fn lists_ok(rows: &[u32], cap: u32, tickets: &[Ticket], due: u32) -> bool
    requires { Ringed rows.now cap }
    ensures { Says result (Listed (removals rows.now) (ring_of rows.now cap) due tickets.now) }
{
    let count = cell(rows, cap + 1, Column::Ring);
    let mut start: u32 = 0;
    let mut size = due;
    for ticket in tickets {
        if size > count - start || !gone_ok(rows, cap, start, size, ticket.version) {
            return false;
        }
        start += size;
        size = ticket.held;
    }
    size == count - start
}

// Whether the tables are sound. Nothing is read before the lengths are known.
pub fn sound(
    keys: &[u64],
    values: &[i64],
    rows: &[u32],
    buckets: &[u32],
    tickets: &[Ticket; 16],
    coordinator: Coordinator,
) -> bool
    ensures { Says result (Sound (lent keys.now values.now rows.now buckets.now tickets.now coordinator)) }
{
    if !lengths_ok(keys.len(), values.len(), rows.len(), buckets.len()) {
        return false;
    }
    let cap = keys.len() as u32;
    if !levels::levels_ok(rows, cap, tables::levels_of(cap)) {
        return false;
    }
    if !places::places_ok(rows, cap) || !places::counted_ok(rows, cap) {
        return false;
    }
    if !buckets::buckets_ok(keys, rows, buckets, cap) {
        return false;
    }
    if !nodes_ok(keys, rows, cap, coordinator.counter) || coordinator.ranges > TICKETS {
        return false;
    }
    let opened = &tickets[..coordinator.ranges as usize];
    tickets_ok(keys, rows, cap, opened, coordinator.counter)
        && lists_ok(rows, cap, opened, coordinator.due)
}

// Makes the tables those of an empty map with no open range, every node free. Keys and values stay.
pub fn set_up(
    keys: &[u64],
    values: &[i64],
    rows: &mut [u32],
    buckets: &mut [u32],
    tickets: &mut [Ticket; 16],
    coordinator: &mut Coordinator,
    capacity: u32,
    start: Version,
) -> Result<(), Refusal>
    ensures { SetUpBy (lent keys.now values.now rows.old buckets.old tickets.old coordinator.old) (lent keys.now values.now rows.new buckets.new tickets.new coordinator.new) capacity start result }
{
    let size = size_of(capacity).ok_or(Refusal::NoSuchCapacity)?;
    if !parts_ok(size, keys.len(), values.len(), rows.len(), buckets.len()) {
        return Err(Refusal::NotSound);
    }
    places::clear_places(rows, capacity);
    levels::clear_levels(rows, capacity, size.levels);
    buckets::clear(buckets, capacity);
    tickets.fill(tables::no_ticket());
    *coordinator = Coordinator {
        counter: start,
        ranges: 0,
        due: 0,
    };
    Ok(())
}
