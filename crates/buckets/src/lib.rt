// The hash table of the node memory: each bucket has a chain of present nodes. A node is in the bucket of its key.
#![tactic(auto)]

ghost use Rattle.std.specs.Prelude.{◌≡◌, ◌*◌, ◌<◌, ◌≤◌, length, replicate};
ghost use Rattle.lists.specs.Tests.{Says};
ghost use Rattle.rows.specs.Rows.{chains};
ghost use Rattle.buckets.specs.Chains.{chain_from};
ghost use Rattle.buckets.specs.Buckets.{Room, Buckets};
ghost use Rattle.buckets.specs.Finding.{found};
ghost use Rattle.buckets.specs.Changes.{rows_with, buckets_with, rows_without, buckets_without, prior, Joinable, Reaches, OnChain};
ghost use Rattle.buckets.specs.Testing.{Fits, Walks};

use places::count_in;
use rows::{Column, IS_PRESENT, cell, put};
use sizes::bucket_of;

// The present node with this rank.
pub fn find(keys: &[u64], rows: &[u32], buckets: &[u32], cap: u32, rank: u64) -> Option<u32>
    requires { Buckets keys.now rows.now buckets.now cap }
    ensures { result ≡ found keys.now rows.now buckets.now cap rank }
{
    let b = bucket_of(rank, buckets.len());
    let mut n = buckets[b];
    while n < cap {
        if keys[n as usize] == rank {
            return Some(n);
        }
        n = cell(rows, n, Column::Chain);
    }
    None
}

// The node n, with this rank, joins the chain of its bucket at the front.
pub fn add(rows: &mut [u32], buckets: &mut [u32], rank: u64, n: u32)
    requires { Joinable rows.old buckets.old n }
    ensures { (rows.new ≡ rows_with rows.old buckets.old rank n) × (buckets.new ≡ buckets_with buckets.old rank n) }
{
    let b = bucket_of(rank, buckets.len());
    let first = buckets[b];
    put(rows, n, Column::Chain, first);
    buckets[b] = n;
}

// The node before n on the chain from `first` on, which is another node.
fn before(rows: &[u32], cap: u32, first: u32, n: u32) -> u32
    requires { Reaches rows.now cap first n × (first ≡ n → ⊥) }
    ensures { (result ≡ prior n cap (chain_from (chains rows.now) cap first)) × (result < cap) }
{
    let mut p = first;
    loop {
        let next = cell(rows, p, Column::Chain);
        if next == n {
            return p;
        }
        p = next;
    }
}

// The node n, with this rank, leaves the chain of its bucket.
pub fn drop(rows: &mut [u32], buckets: &mut [u32], cap: u32, rank: u64, n: u32)
    requires { OnChain rows.old buckets.old cap rank n }
    ensures { (rows.new ≡ rows_without rows.old buckets.old cap rank n) × (buckets.new ≡ buckets_without rows.old buckets.old rank n) }
{
    let b = bucket_of(rank, buckets.len());
    let first = buckets[b];
    let after = cell(rows, n, Column::Chain);
    if first == n {
        buckets[b] = after;
    } else {
        let p = before(rows, cap, first, n);
        put(rows, p, Column::Chain, after);
    }
}

// Every chain becomes empty.
pub fn clear(buckets: &mut [u32], cap: u32)
    ensures { buckets.new ≡ replicate (length buckets.old) cap }
{
    buckets.fill(cap);
}

// What is left of `left` after a chain from `first` on, each of whose nodes is present and of the bucket b; nothing where there is no such chain within `left`.
fn chain_ok(
    keys: &[u64],
    rows: &[u32],
    cap: u32,
    count: usize,
    b: usize,
    first: u32,
    left: u32,
) -> Option<u32>
    requires { Room keys.now rows.now count cap }
    ensures { Walks cap (chains rows.now) (Fits keys.now rows.now count b) first left result }
{
    let mut node = first;
    let mut rest = left;
    while node != cap {
        if rest == 0
            || node > cap
            || cell(rows, node, Column::Place) != IS_PRESENT
            || bucket_of(keys[node as usize], count) != b
        {
            return None;
        }
        rest -= 1;
        node = cell(rows, node, Column::Chain);
    }
    Some(rest)
}

// Whether the chains are those of the present nodes. One budget serves all chains: each present node is met once.
pub fn buckets_ok(keys: &[u64], rows: &[u32], buckets: &[u32], cap: u32) -> bool
    ensures { Says result (Buckets keys.now rows.now buckets.now cap) }
{
    if keys.len() < cap as usize || rows.len() < cap as usize * 32 || buckets.is_empty() {
        return false;
    }
    let mut left = count_in(rows, cap, IS_PRESENT);
    for (b, first) in buckets.iter().enumerate() {
        let Some(rest) = chain_ok(keys, rows, cap, buckets.len(), b, *first, left) else {
            return false;
        };
        left = rest;
    }
    left == 0
}
