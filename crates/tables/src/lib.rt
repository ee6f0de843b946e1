// The lent tables: what a ticket and the coordinator hold, and the readers of a node's row that several calls share.
#![tactic(auto)]

ghost use Rattle.std.specs.Prelude.{◌≡◌, ◌+◌, ◌*◌, ◌≤◌, length};
ghost use Rattle.rows.specs.Rows.{insertions, removals};
ghost use Rattle.tables.specs.Tables.{levels_of, no_ticket, version};

use rows::Column;
use sizes::{Node, Version};

// An open range: its version, its bounds as ranks, the node that it rests on or the tail, and how many nodes are on its list.
#[repr(C)]
#[derive(Clone, Copy, Debug, PartialEq, Eq)]
pub struct Ticket {
    pub version: Version,
    pub low: u64,
    pub high: u64,
    pub rest: Node,
    pub held: u32,
}

// The version counter, how many ranges are open, and how many nodes are due.
#[repr(C)]
#[derive(Clone, Copy, Debug, PartialEq, Eq)]
pub struct Coordinator {
    pub counter: Version,
    pub ranges: u32,
    pub due: u32,
}

// A ticket that is not open.
pub fn no_ticket() -> Ticket
    ensures { result ≡ no_ticket }
{
    Ticket {
        version: Version(0),
        low: 0,
        high: 0,
        rest: Node(0),
        held: 0,
    }
}

// The levels of a capacity; 0 where the table has no such capacity. It is written as a match since the constant table of sizes would be built on the stack at each call.
pub fn levels_of(capacity: u32) -> u32
    ensures { result ≡ levels_of capacity }
{
    match capacity {
        4096 => 12,
        2048 => 11,
        1024 => 10,
        512 => 9,
        256 => 8,
        128 => 7,
        64 => 6,
        _ => 0,
    }
}

// The insertion version of the node n.
pub fn inserted(rows: &[u32], n: u32) -> Version
    requires { n * 32 + 32 ≤ length rows.now }
    ensures { result ≡ version (insertions rows.now n) }
{
    Version(rows::cell(rows, n, Column::Inserted))
}

// The removal version of the node n.
pub fn removed(rows: &[u32], n: u32) -> Version
    requires { n * 32 + 32 ≤ length rows.now }
    ensures { result ≡ version (removals rows.now n) }
{
    Version(rows::cell(rows, n, Column::Removed))
}
