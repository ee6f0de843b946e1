// A caller of the hash table: shows that what its functions require can be met, and that its laws give the answers.
#![tactic(auto)]

ghost use Rattle.std.specs.Prelude.{◌≡◌, true, length, replicate};
ghost use Rattle.buckets_main.specs.Fresh.{Fresh};

use check::expect;
use rows::{Column, IS_PENDING, IS_PRESENT};

// A node joins, is found, leaves, and the chains are sound again.
fn demo(keys: &mut [u64], rows: &mut [u32], buckets: &mut [u32], rank: u64) -> bool
    requires { Fresh keys.old rows.old buckets.old }
    ensures { result ≡ true }
{
    buckets::clear(buckets, 64);
    keys[3] = rank;
    buckets::add(rows, buckets, rank, 3);
    rows::put(rows, 3, Column::Place, IS_PRESENT);
    if buckets::find(keys, rows, buckets, 64, rank) != Some(3) {
        return false;
    }
    buckets::drop(rows, buckets, 64, rank, 3);
    rows::put(rows, 3, Column::Place, IS_PENDING);
    buckets::buckets_ok(keys, rows, buckets, 64)
}

fn main() {
    let mut keys = [0u64; 64];
    let mut rows = [0u32; 2112];
    let mut buckets = [0u32; 97];
    expect(demo(&mut keys, &mut rows, &mut buckets, 10));
}
