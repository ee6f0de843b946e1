// The two calls that change the map: insert and remove.
#![tactic(auto)]

ghost use Rattle.std.specs.Prelude.{◌≡◌, ◌<◌, ◌≤◌};
ghost use Rattle.levels.specs.Stitch.{Stitchable};
ghost use Rattle.model.specs.Model.{height_of};
ghost use Rattle.changes.specs.Insert.{InsertReady, Linkable, Inserts, LinksIn, stitched_in};
ghost use Rattle.changes.specs.Remove.{RemoveReady, Removes};

use levels::Pair;
use model::Refusal;
use rows::{Column, put};
use sizes::{Node, Version};

// 1 plus the number of trailing one bits of the coin, at most the levels.
pub fn height_of(coin: u64, levels: u32) -> u32
    requires { (0 < levels) × (levels ≤ 64) }
    ensures { result ≡ height_of levels coin }
{
    let ones = u64::trailing_zeros(!coin);
    if ones < levels { ones + 1 } else { levels }
}

// Stores the height and the insertion version of n, and links it between its pair at each level below its height.
fn stitch_in(rows: &mut [u32], n: u32, height: u32, counter: Version, pairs: [Pair; 12])
    requires { Stitchable rows.old n pairs height }
    ensures { rows.new ≡ stitched_in rows.old n height counter.0 pairs }
{
    put(rows, n, Column::Height, height);
    put(rows, n, Column::Inserted, counter.0);
    levels::stitch(rows, n, height, pairs);
}

// Takes the node freed last, links it in after every node with a key up to the rank, adds it to its bucket and makes it present. Answers it.
fn link_in(
    keys: &[u64],
    rows: &mut [u32],
    buckets: &mut [u32],
    cap: u32,
    levels: u32,
    rank: u64,
    height: u32,
    counter: Version,
) -> u32
    requires { Linkable keys.now rows.old buckets.old cap levels height }
    ensures { LinksIn keys.now rows.old buckets.old rows.new buckets.new cap levels rank height counter.0 result }
{
    let found = levels::search(keys, rows, cap, levels, rank);
    let pairs = found.pairs;
    let n = places::draw(rows, cap);
    stitch_in(rows, n, height, counter, pairs);
    buckets::add(rows, buckets, rank, n);
    places::make_present(rows, cap, n);
    n
}

// Insert: a node for a key that is not present. Refused with 3 where the key is present, then with 5 where no node is free.
pub fn insert(
    keys: &mut [u64],
    values: &mut [i64],
    rows: &mut [u32],
    buckets: &mut [u32],
    counter: Version,
    key: i64,
    value: i64,
    coin: u64,
) -> Result<Node, Refusal>
    requires { InsertReady keys.old values.old rows.old buckets.old }
    ensures { Inserts keys.old values.old rows.old buckets.old keys.new values.new rows.new buckets.new counter.0 key value coin result }
{
    let cap = keys.len() as u32;
    let rank = sizes::rank(key);
    if buckets::find(keys, rows, buckets, cap, rank).is_some() {
        return Err(Refusal::KeyPresent);
    }
    if places::free_count(rows, cap) == 0 {
        return Err(Refusal::NoFreeNode);
    }
    let levels = tables::levels_of(cap);
    let height = height_of(coin, levels);
    let n = link_in(keys, rows, buckets, cap, levels, rank, height, counter);
    let at = n as usize;
    keys[at] = rank;
    values[at] = value;
    Ok(Node(n))
}

// Remove: the node of the key leaves its bucket, takes the counter as its removal version and is pending. Refused with 4 where the key is absent.
pub fn remove(
    keys: &[u64],
    rows: &mut [u32],
    buckets: &mut [u32],
    counter: Version,
    key: i64,
) -> Result<Node, Refusal>
    requires { RemoveReady keys.now rows.old buckets.old }
    ensures { Removes keys.now rows.old buckets.old rows.new buckets.new counter.0 key result }
{
    let cap = keys.len() as u32;
    let rank = sizes::rank(key);
    let Some(node) = buckets::find(keys, rows, buckets, cap, rank) else {
        return Err(Refusal::KeyAbsent);
    };
    buckets::drop(rows, buckets, cap, rank, node);
    put(rows, node, Column::Removed, counter.0);
    places::make_pending(rows, cap, node);
    Ok(Node(node))
}
