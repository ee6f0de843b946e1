// The levels of the map: doubly linked nodes in the rows of the node memory, on up to twelve levels between two sentinels, the head's row C and the tail's C + 1.
#![tactic(auto)]

ghost use Rattle.std.specs.Prelude.{◌≡◌, ◌+◌, ◌*◌, ◌≤◌, ◌<◌, length};
ghost use Rattle.rows.specs.Columns.{way};
ghost use Rattle.rows.specs.Rows.{links};
ghost use Rattle.lists.specs.Tests.{Says, Each};
ghost use Rattle.levels.specs.Levels.{order_of, Row, Linked};
ghost use Rattle.levels.specs.Stitch.{joined, stitched, unstitched, cleared, Stitchable, Unstitchable};
ghost use Rattle.levels.specs.Search.{searched, Searchable};
ghost use Rattle.levels.specs.Nearest.{nearest_of, Walkable};
ghost use Rattle.levels.specs.Test.{Follows, Followable, RightSize};

use rows::{Column, Direction};

// The node before a place and the node after it.
#[derive(Clone, Copy, Debug, PartialEq, Eq)]
pub struct Pair {
    pub before: u32,
    pub after: u32,
}

// What a search finds: the pair on each level, and its answer, the pair on the lowest.
#[derive(Clone, Copy, Debug, PartialEq, Eq)]
pub struct Found {
    pub pairs: [Pair; 12],
    pub place: Pair,
}

// The neighbour of `n` on the level `l` in the direction `d`.
#[inline(always)]
pub fn link(rows: &[u32], l: usize, d: Direction, n: u32) -> u32
    requires { (l < 12) × Row rows.now n }
    ensures { result ≡ links rows.now l (way d) n }
{
    rows::cell(rows, n, Column::Link(l, d))
}

// Links `a` before `b` on the level `l`.
#[tactic(auto, unfolding(crate::specs::Stitch::joined))]
pub fn join(rows: &mut [u32], l: usize, a: u32, b: u32)
    requires { (l < 12) × Row rows.old a × Row rows.old b }
    ensures { rows.new ≡ joined rows.old l a b }
{
    rows::put(rows, a, Column::Link(l, Direction::After), b);
    rows::put(rows, b, Column::Link(l, Direction::Before), a);
}

// Links `n` between its pair at each level below `height`.
#[tactic(auto, unfolding(crate::specs::Stitch::stitched))]
pub fn stitch(rows: &mut [u32], n: u32, height: u32, pairs: [Pair; 12])
    requires { Stitchable rows.old n pairs height }
    ensures { rows.new ≡ stitched rows.old n pairs height }
{
    for (l, p) in pairs[..height as usize].iter().enumerate() {
        join(rows, l, p.before, n);
        join(rows, l, n, p.after);
    }
}

// Links the neighbours of `n` to each other at each level below `height`.
#[tactic(auto, using(crate::proofs::Joining::unstitched_here), unfolding(crate::specs::Stitch::unstitched))]
pub fn unstitch(rows: &mut [u32], n: u32, height: u32)
    requires { Unstitchable rows.old n height }
    ensures { rows.new ≡ unstitched rows.old n height }
{
    for l in 0..height as usize {
        let before = link(rows, l, Direction::Before, n);
        let after = link(rows, l, Direction::After, n);
        join(rows, l, before, after);
    }
}

// Makes each level empty: the head is linked to the tail.
#[tactic(auto, unfolding(crate::specs::Stitch::cleared))]
pub fn clear_levels(rows: &mut [u32], cap: u32, levels: u32)
    requires { (length rows.old ≡ (cap + 2) * 32) × (cap ≤ 4096) × (levels ≤ 12) }
    ensures { rows.new ≡ cleared rows.old cap levels }
{
    for l in 0..levels as usize {
        join(rows, l, cap, cap + 1);
    }
}

// The place after every node with a key up to the rank: on each level the node before it and the node after it.
pub fn search(keys: &[u64], rows: &[u32], cap: u32, levels: u32, rank: u64) -> Found
    requires { Searchable keys.now rows.now cap levels }
    ensures { result ≡ searched keys.now rows.now cap levels rank }
{
    let mut pairs = [Pair {
        before: 0,
        after: 0,
    }; 12];
    let mut n = cap;
    for l in (0..levels as usize).rev() {
        let mut m = link(rows, l, Direction::After, n);
        while m < cap && keys[m as usize] <= rank {
            n = m;
            m = link(rows, l, Direction::After, m);
        }
        pairs[l] = Pair {
            before: n,
            after: m,
        };
    }
    Found {
        pairs,
        place: pairs[0],
    }
}

// The first present node at `from` or beyond it in the direction `d`, or the sentinel at the end.
pub fn nearest(rows: &[u32], cap: u32, d: Direction, from: u32) -> u32
    requires { Walkable rows.now cap (way d) from }
    ensures { result ≡ nearest_of rows.now cap (way d) from }
{
    let mut m = from;
    while m < cap {
        if rows::cell(rows, m, Column::Place) == rows::IS_PRESENT {
            return m;
        }
        m = link(rows, 0, d, m);
    }
    m
}

// Whether `m` and the last node so far are linked to each other on each level below `h`.
#[inline(always)]
fn follows(rows: &[u32], last: &[u32], m: u32, h: usize) -> bool
    requires { Followable rows.now last.now m h }
    ensures { Says result (Each h (Follows rows.now last.now m)) }
{
    for (l, &before) in last[..h].iter().enumerate() {
        if link(rows, l, Direction::After, before) != m
            || link(rows, l, Direction::Before, m) != before
        {
            return false;
        }
    }
    true
}

// Whether the levels are those of the order that the memory holds: one walk of the lowest level serves all of them.
pub fn levels_ok(rows: &[u32], cap: u32, levels: u32) -> bool
    requires { RightSize rows.now cap levels }
    ensures { Says result (Linked rows.now cap levels) }
{
    let mut last = [cap; 12];
    let mut left = cap;
    let mut m = link(rows, 0, Direction::After, cap);
    while m < cap {
        if left == 0 {
            return false;
        }
        let height = rows::cell(rows, m, Column::Height);
        if height == 0 || height > levels {
            return false;
        }
        let h = height as usize;
        if !follows(rows, &last, m, h) {
            return false;
        }
        last[..h].fill(m);
        m = link(rows, 0, Direction::After, m);
        left -= 1;
    }
    follows(rows, &last, cap + 1, levels as usize)
}
