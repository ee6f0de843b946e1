// Nodes that come back: a pending node handed over, and a due node swept.
#![tactic(auto)]

ghost use Rattle.std.specs.Prelude.{◌≡◌, ◌<◌};
ghost use Rattle.returns.specs.Freeing.{Freeable, freed};
ghost use Rattle.returns.specs.HandOver.{HandReady, HandedOver};
ghost use Rattle.returns.specs.Sweep.{SweepReady, SweptBy};

use model::{Handed, Refusal, Swept};
use rows::{Column, IS_PENDING, cell};
use sizes::Node;
use tables::{Coordinator, Ticket};

// Takes the node n out of its levels, and frees it.
fn free_node(rows: &mut [u32], cap: u32, n: u32)
    requires { Freeable rows.old cap n }
    ensures { rows.new ≡ freed rows.old cap n }
{
    let height = cell(rows, n, Column::Height);
    levels::unstitch(rows, n, height);
    places::release(rows, cap, n);
}

// Hands over a pending node: it is freed at once if no open range can need it, and else joins the list of the latest range.
pub fn hand_over(
    rows: &mut [u32],
    cap: u32,
    tickets: &mut [Ticket; 16],
    ranges: u32,
    node: Node,
) -> Result<Handed, Refusal>
    requires { HandReady rows.old cap tickets.old ranges }
    ensures { HandedOver rows.old rows.new cap tickets.old tickets.new ranges node.0 result }
{
    let n = node.0;
    if n >= cap || cell(rows, n, Column::Place) != IS_PENDING {
        return Err(Refusal::NodeNotPending);
    }
    if ranges == 0 {
        free_node(rows, cap, n);
        return Ok(Handed::Freed);
    }
    let latest = ranges as usize - 1;
    if tickets[latest].version <= tables::inserted(rows, n) {
        free_node(rows, cap, n);
        return Ok(Handed::Freed);
    }
    places::retire(rows, cap, n);
    tickets[latest].held += 1;
    Ok(Handed::Held)
}

// Frees the first due node, if any.
pub fn sweep_one(rows: &mut [u32], cap: u32, coordinator: &mut Coordinator) -> Swept
    requires { SweepReady rows.old cap coordinator.old.due }
    ensures { SweptBy rows.old rows.new cap coordinator.old coordinator.new result }
{
    if coordinator.due == 0 {
        return Swept { freed: 0, due: 0 };
    }
    let n = places::take_front(rows, cap);
    free_node(rows, cap, n);
    coordinator.due -= 1;
    Swept {
        freed: 1,
        due: coordinator.due,
    }
}
