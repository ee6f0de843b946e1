// The one place of each node: the free stack, the ring of retired nodes, and the count of present ones.
#![tactic(auto)]

ghost use Rattle.std.specs.Prelude.{◌≡◌, ◌*◌, ◌<◌, ◌≤◌, length};
ghost use Rattle.lists.specs.Tests.{Says};
ghost use Rattle.rows.specs.Columns.{number_of};
ghost use Rattle.rows.specs.Rows.{column, places, seats};
ghost use Rattle.places.specs.Places.{Sized, free_count, ring_front, present_count, wrapped, slot, free_of, ring_of, first_free, first_retired, Seated, Seats, Places, nodes_in, Counted};
ghost use Rattle.places.specs.Changes.{drawn, released, retired, taken, made_present, made_pending, cleared};

use rows::{Column, IS_FREE, IS_PENDING, IS_PRESENT, IS_RETIRED, cell, put};

// How many nodes are free.
pub fn free_count(rows: &[u32], cap: u32) -> u32
    requires { Sized rows.now cap }
    ensures { result ≡ length (free_of rows.now cap) }
{
    cell(rows, cap, Column::Free)
}

// The stored count of present nodes.
pub fn present_count(rows: &[u32], cap: u32) -> u32
    requires { Sized rows.now cap }
    ensures { result ≡ present_count rows.now cap }
{
    cell(rows, cap + 1, Column::Free)
}

// Takes the node freed last off the free stack, and answers it.
pub fn draw(rows: &mut [u32], cap: u32) -> u32
    requires { Sized rows.old cap × (free_count rows.old cap ≤ cap) × (0 < length (free_of rows.old cap)) }
    ensures { (rows.new ≡ drawn rows.old cap) × (result ≡ first_free rows.old cap) }
{
    let top = cell(rows, cap, Column::Free) - 1;
    let n = cell(rows, top, Column::Free);
    put(rows, cap, Column::Free, top);
    n
}

// Makes n free: it is the node freed last.
pub fn release(rows: &mut [u32], cap: u32, n: u32)
    requires { Sized rows.old cap × (n < cap) × (length (free_of rows.old cap) < cap) }
    ensures { rows.new ≡ released rows.old cap n }
{
    let seat = cell(rows, cap, Column::Free);
    put(rows, seat, Column::Free, n);
    put(rows, n, Column::Seat, seat);
    put(rows, n, Column::Place, IS_FREE);
    put(rows, cap, Column::Free, seat + 1);
}

// x, less cap where it is not below cap.
fn wrap(x: u32, cap: u32) -> u32
    ensures { result ≡ wrapped cap x }
{
    if x < cap { x } else { x - cap }
}

// Makes n retired: it goes to the back of the ring.
pub fn retire(rows: &mut [u32], cap: u32, n: u32)
    requires { Sized rows.old cap × (n < cap) × (ring_front rows.old cap < cap) × (length (ring_of rows.old cap) < cap) }
    ensures { rows.new ≡ retired rows.old cap n }
{
    let front = cell(rows, cap, Column::Ring);
    let count = cell(rows, cap + 1, Column::Ring);
    let seat = wrap(front + count, cap);
    put(rows, seat, Column::Ring, n);
    put(rows, n, Column::Seat, seat);
    put(rows, n, Column::Place, IS_RETIRED);
    put(rows, cap + 1, Column::Ring, count + 1);
}

// Takes the node at the front of the ring off it, and answers it.
pub fn take_front(rows: &mut [u32], cap: u32) -> u32
    requires { Sized rows.old cap × (ring_front rows.old cap < cap) × (0 < length (ring_of rows.old cap)) }
    ensures { (rows.new ≡ taken rows.old cap) × (result ≡ first_retired rows.old cap) }
{
    let front = cell(rows, cap, Column::Ring);
    let count = cell(rows, cap + 1, Column::Ring);
    let n = cell(rows, front, Column::Ring);
    let next = wrap(front + 1, cap);
    put(rows, cap, Column::Ring, next);
    put(rows, cap + 1, Column::Ring, count - 1);
    n
}

// Makes n, which was not present, present.
pub fn make_present(rows: &mut [u32], cap: u32, n: u32)
    requires { Sized rows.old cap × (n < cap) × (present_count rows.old cap < cap) }
    ensures { rows.new ≡ made_present rows.old cap n }
{
    let count = cell(rows, cap + 1, Column::Free);
    put(rows, n, Column::Place, IS_PRESENT);
    put(rows, cap + 1, Column::Free, count + 1);
}

// Makes n, which was present, pending.
pub fn make_pending(rows: &mut [u32], cap: u32, n: u32)
    requires { Sized rows.old cap × (n < cap) × (0 < present_count rows.old cap) }
    ensures { rows.new ≡ made_pending rows.old cap n }
{
    let count = cell(rows, cap + 1, Column::Free);
    put(rows, n, Column::Place, IS_PENDING);
    put(rows, cap + 1, Column::Free, count - 1);
}

// Makes every node free, the node 0 on top of the stack; the ring is empty, and no node is present.
pub fn clear_places(rows: &mut [u32], cap: u32)
    requires { Sized rows.old cap }
    ensures { rows.new ≡ cleared rows.old cap }
{
    for i in 0..cap {
        let seat = cap - 1 - i;
        put(rows, i, Column::Place, IS_FREE);
        put(rows, i, Column::Seat, seat);
        put(rows, i, Column::Free, seat);
    }
    put(rows, cap, Column::Free, cap);
    put(rows, cap, Column::Ring, 0);
    put(rows, cap + 1, Column::Ring, 0);
    put(rows, cap + 1, Column::Free, 0);
}

// Whether the entry of a column at the seat is a node in the place p that has this seat.
#[inline(always)]
fn seated(rows: &[u32], cap: u32, which: Column, p: u32, seat: u32) -> bool
    requires { Sized rows.now cap × (number_of which < 32) × (seat < cap) }
    ensures { Says result (Seated (column rows.now (number_of which)) (places rows.now) (seats rows.now) cap p seat) }
{
    let n = cell(rows, seat, which);
    n < cap && cell(rows, n, Column::Place) == p && cell(rows, n, Column::Seat) == seat
}

// The same for the k entries of a ring from the front on. A stack is a ring whose front is 0. Inlined, so that the column is known in the loop.
#[inline(always)]
fn all_seated(rows: &[u32], cap: u32, which: Column, p: u32, front: u32, k: u32) -> bool
    requires { Sized rows.now cap × (number_of which < 32) × (front < cap) × (k ≤ cap) }
    ensures { Says result (Seats (column rows.now (number_of which)) (places rows.now) (seats rows.now) cap p k (slot cap front)) }
{
    for i in 0..k {
        if !seated(rows, cap, which, p, wrap(front + i, cap)) {
            return false;
        }
    }
    true
}

// Whether each entry of the free stack and of the ring is a node in that place, and in one entry only.
pub fn places_ok(rows: &[u32], cap: u32) -> bool
    requires { Sized rows.now cap }
    ensures { Says result (Places rows.now cap) }
{
    let spare = cell(rows, cap, Column::Free);
    let front = cell(rows, cap, Column::Ring);
    let count = cell(rows, cap + 1, Column::Ring);
    if spare > cap || front >= cap || count > cap {
        return false;
    }
    all_seated(rows, cap, Column::Free, IS_FREE, 0, spare)
        && all_seated(rows, cap, Column::Ring, IS_RETIRED, front, count)
}

// How many nodes are in the place p.
pub fn count_in(rows: &[u32], cap: u32, p: u32) -> u32
    requires { cap * 32 ≤ length rows.now }
    ensures { result ≡ length (nodes_in (places rows.now) p cap) }
{
    let mut total = 0;
    for n in 0..cap {
        if cell(rows, n, Column::Place) == p {
            total += 1;
        }
    }
    total
}

// Whether the stored count of present nodes agrees with the places.
pub fn counted_ok(rows: &[u32], cap: u32) -> bool
    requires { Sized rows.now cap }
    ensures { Says result (Counted rows.now cap) }
{
    present_count(rows, cap) == count_in(rows, cap, IS_PRESENT)
}
