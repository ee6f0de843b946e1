// The lent run of tickets: all sixteen lent on in place, taken out by value, and stored back.
#![tactic(auto)]

ghost use Rattle.std.specs.Prelude.{◌≡◌, ◌≢◌, length, MatchOption};
ghost use Rattle.std.specs.Borrow.{sem};
ghost use Rattle.tickets.specs.Sixteen.{loaded, stored, StoresIf};

use tables::{Ticket, no_ticket};

// All sixteen tickets, to be read in place; nothing where the slice has another number of them.
pub fn all16(tickets: &[Ticket]) -> Option<&[Ticket; 16]>
    ensures { MatchOption result (length tickets.now ≢ 16) (λ all. (length tickets.now ≡ 16) × (all.now ≡ loaded tickets.now)) }
{
    tickets.as_array::<16>()
}

// All sixteen tickets, to be changed in place: what is left there is what is stored. Nothing where the slice has another number of them.
pub fn all16_mut(tickets: &mut [Ticket]) -> Option<&mut [Ticket; 16]>
    ensures taken { MatchOption result (length tickets.old ≢ 16) (λ all. (length tickets.old ≡ 16) × (all.now ≡ loaded tickets.old)) }
    ensures* stores { sem 𝓛 (StoresIf tickets.entry result) }
{
    tickets.as_mut_array::<16>()
}

// The sixteen tickets by value; where the slice has another number of them, sixteen that are not open.
pub fn load16(tickets: &[Ticket]) -> [Ticket; 16]
    ensures { result ≡ loaded tickets.now }
{
    match all16(tickets) {
        Some(sixteen) => *sixteen,
        None => [no_ticket(); 16],
    }
}

// Stores all sixteen tickets; where the slice has another number of them, it stays.
pub fn store16(tickets: &mut [Ticket], given: [Ticket; 16])
    ensures { tickets.new ≡ stored tickets.old given }
{
    if let Some(sixteen) = all16_mut(tickets) {
        *sixteen = given;
    }
}
