// The rows of the node memory. A node and each sentinel has 32 cells: eight fields, then its links on twelve levels.
#![tactic(auto)]

ghost use Rattle.std.specs.Prelude.{◌≡◌, ◌+◌, ◌*◌, ◌≤◌, ◌<◌, length};
ghost use Rattle.rows.specs.Columns.{number_of};
ghost use Rattle.rows.specs.Rows.{address, column, put};
ghost use Rattle.rows.specs.declared.Column.TheVariants.{Link};

// The two directions along a level.
#[derive(Clone, Copy, Debug, PartialEq, Eq)]
pub enum Direction {
    After,
    Before,
}

// The columns: the eight fields, and the links of a level in a direction.
#[derive(Clone, Copy, Debug, PartialEq, Eq)]
pub enum Column {
    Height,
    Inserted,
    Removed,
    Place,
    Seat,
    Chain,
    Free,
    Ring,
    Link(usize, Direction),
}

// The places of a node: numbers, because a cell of lent memory may hold any number, and a test compares it.
pub const IS_FREE: u32 = 0;

pub const IS_PRESENT: u32 = 1;

pub const IS_PENDING: u32 = 2;

pub const IS_RETIRED: u32 = 3;

// Where the link of the row n on the level l in the direction d stands, of c rows: first the links after on level 0 alone, which a walk of the lowest level reads.
#[inline(always)]
#[tactic(auto, unfolding(crate::specs::Rows::address))]
fn link_address(c: usize, n: usize, l: usize, d: Direction) -> usize
    requires { (n < c) × (l < 12) × (c * 32 ≤ 18446744073709551615) }
    ensures { (result ≡ address c n (number_of (Link l d))) × (result < c * 32) }
{
    let f = l * 2 + d as usize;
    if f == 0 {
        n
    } else if f < 12 {
        c * 4 + n * 16 + (f + 4)
    } else {
        c * 20 + n * 12 + (f - 12)
    }
}

// Where the cell of the row n in a column stands, of c rows: four columns first, then the rows of the other fields and the links up to level 5, then those of the
// levels above. So a walk of the lowest level reads whole cache lines of few columns.
#[inline(always)]
#[tactic(auto, unfolding(crate::specs::Rows::address))]
fn address(c: usize, n: usize, which: Column) -> usize
    requires { (n < c) × (number_of which < 32) × (c * 32 ≤ 18446744073709551615) }
    ensures { (result ≡ address c n (number_of which)) × (result < c * 32) }
{
    match which {
        Column::Height => c * 4 + n * 16,
        Column::Inserted => c * 4 + n * 16 + 1,
        Column::Removed => c * 4 + n * 16 + 2,
        Column::Place => c * 3 + n,
        Column::Seat => c * 4 + n * 16 + 3,
        Column::Chain => c * 4 + n * 16 + 4,
        Column::Free => c * 2 + n,
        Column::Ring => c + n,
        Column::Link(l, d) => link_address(c, n, l, d),
    }
}

// The cell of the row n in a column.
#[inline(always)]
#[tactic(auto, unfolding(crate::specs::Rows::column))]
pub fn cell(rows: &[u32], n: u32, which: Column) -> u32
    requires { (n * 32 + 32 ≤ length rows.now) × (number_of which < 32) }
    ensures { result ≡ column rows.now (number_of which) n }
{
    rows[address(rows.len() / 32, n as usize, which)]
}

// Sets the cell of the row n in a column.
#[inline(always)]
#[tactic(auto, unfolding(crate::specs::Rows::put))]
pub fn put(rows: &mut [u32], n: u32, which: Column, v: u32)
    requires { (n * 32 + 32 ≤ length rows.old) × (number_of which < 32) }
    ensures { rows.new ≡ put rows.old n (number_of which) v }
{
    let at = address(rows.len() / 32, n as usize, which);
    rows[at] = v;
}
