// The open tickets of a lent run: one found by its version, one moved on, one removed at close.
// They are the first of the run, where it has sixteen tickets; a run of any other number has none, and is left as it is.
#![tactic(auto)]

ghost use Rattle.std.specs.Prelude.{◌≡◌, ◌<◌, ◌≤◌, length, true, false};
ghost use Rattle.tickets_open.specs.Open.{open_in, found, moved, fits_older, taken_over, removed};

use ranges::{drop_ticket, find_ticket};
use sizes::{Node, Version};
use tables::Ticket;

// The most nodes that a ticket can hold.
const MOST: u32 = 4096;

// How many tickets are open, of so many.
fn open_in(count: usize, ranges: u32) -> usize
    ensures { (result ≡ open_in count ranges) × (result ≤ count) }
{
    if count == 16 {
        (ranges as usize).min(16)
    } else {
        0
    }
}

// Finds the first open ticket of that version.
pub fn find_open(tickets: &[Ticket], ranges: u32, version: Version) -> Option<usize>
    ensures { result ≡ found tickets.now ranges version.0 }
{
    find_ticket(&tickets[..open_in(tickets.len(), ranges)], version)
}

// Moves the ticket at the index on: it rests on that node. Answers whether there is such a ticket.
pub fn move_on(tickets: &mut [Ticket], index: usize, rest: Node) -> bool
    ensures { (result ≡ (moved tickets.old index rest).answer) × (tickets.new ≡ (moved tickets.old index rest).tickets) }
{
    if tickets.len() != 16 || index >= 16 {
        return false;
    }
    tickets[index].rest = rest;
    true
}

// The ticket at the index gives what it holds to the next older one, if there is one. Answers whether neither holds more nodes than there are.
fn pass_on(tickets: &mut [Ticket], index: usize) -> bool
    requires { index < length tickets.old }
    ensures { (result ≡ fits_older tickets.old index) × (result ≡ true → tickets.new ≡ taken_over tickets.old index) × (result ≡ false → tickets.new ≡ tickets.old) }
{
    if index == 0 {
        return true;
    }
    let held = tickets[index].held;
    if held > MOST || tickets[index - 1].held > MOST {
        return false;
    }
    tickets[index - 1].held += held;
    true
}

// Removes the open ticket at the index, as at close. Answers whether there is such a ticket; the next older one takes over what it holds, and where either holds more than 4096 nodes nothing changes.
pub fn remove_at_close(tickets: &mut [Ticket], ranges: u32, index: usize) -> bool
    ensures { (result ≡ (removed tickets.old ranges index).answer) × (tickets.new ≡ (removed tickets.old ranges index).tickets) }
{
    let count = open_in(tickets.len(), ranges);
    if index >= count || !pass_on(tickets, index) {
        return false;
    }
    drop_ticket(tickets, count, index);
    true
}
