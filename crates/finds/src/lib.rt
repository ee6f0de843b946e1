// The calls that find and change nothing: lookup; ceil, floor, succ and pred; tally.
#![tactic(auto)]

ghost use Rattle.std.specs.Prelude.{◌≡◌, ◌≤◌, length};
ghost use Rattle.sizes.specs.Rank.{rank_of};
ghost use Rattle.rows.specs.Columns.{way};
ghost use Rattle.buckets.specs.Finding.{found};
ghost use Rattle.finds.specs.Near.{NearReady, near_of};
ghost use Rattle.finds.specs.Nearest.{nearest_key};
ghost use Rattle.finds.specs.Lookup.{LookupReady, value_of};
ghost use Rattle.finds.specs.Tally.{TallyReady, tallied};

use model::{Refusal, Tallied};
use rows::{Column, Direction};

// Lookup: the value of the key, or 4.
pub fn lookup(
    keys: &[u64],
    values: &[i64],
    rows: &[u32],
    buckets: &[u32],
    key: i64,
) -> Result<i64, Refusal>
    requires { LookupReady keys.now values.now rows.now buckets.now }
    ensures { result ≡ value_of values.now (found keys.now rows.now buckets.now (length keys.now) (rank_of key)) }
{
    let cap = keys.len() as u32;
    match buckets::find(keys, rows, buckets, cap, sizes::rank(key)) {
        Some(n) => Ok(values[n as usize]),
        None => Err(Refusal::KeyAbsent),
    }
}

// The nearest present node to the rank in the direction d, one of that very rank included where `at`; or the sentinel at that end.
pub fn near(keys: &[u64], rows: &[u32], buckets: &[u32], rank: u64, d: Direction, at: bool) -> u32
    requires { NearReady keys.now rows.now buckets.now }
    ensures { result ≡ near_of keys.now rows.now (length keys.now) rank (way d) at }
{
    let cap = keys.len() as u32;
    if let Some(n) = buckets::find(keys, rows, buckets, cap, rank) {
        if at {
            return n;
        }
        return levels::nearest(rows, cap, d, levels::link(rows, 0, d, n));
    }
    let found = levels::search(keys, rows, cap, tables::levels_of(cap), rank);
    let place = found.place;
    match d {
        Direction::After => levels::nearest(rows, cap, d, place.after),
        Direction::Before => levels::nearest(rows, cap, d, place.before),
    }
}

// Ceil, floor, succ and pred: the nearest present key in the direction d, the key itself included where `at`, or 13.
pub fn nearest(
    keys: &[u64],
    rows: &[u32],
    buckets: &[u32],
    key: i64,
    d: Direction,
    at: bool,
) -> Result<i64, Refusal>
    requires { NearReady keys.now rows.now buckets.now }
    ensures { result ≡ nearest_key keys.now (near_of keys.now rows.now (length keys.now) (rank_of key) (way d) at) }
{
    let i = near(keys, rows, buckets, sizes::rank(key), d, at) as usize;
    if i < keys.len() {
        return Ok(sizes::unrank(keys[i]));
    }
    Err(Refusal::NoPresentKey)
}

// Tally: the present nodes, the held ones and the free ones, each from a stored count.
pub fn tally(rows: &[u32], cap: u32, due: u32) -> Tallied
    requires { TallyReady rows.now cap due }
    ensures { result ≡ tallied rows.now cap due }
{
    Tallied {
        present: places::present_count(rows, cap),
        held: rows::cell(rows, cap + 1, Column::Ring) - due,
        free: places::free_count(rows, cap),
    }
}
