// The capacities that a map may have, versions and node numbers, and a signed key as a rank with its bucket.
#![tactic(auto)]

ghost use Rattle.std.specs.Prelude.{◌≡◌, ◌+◌, ◌*◌, ◌%◌, ◌<◌};
ghost use Rattle.sizes.specs.Sizes.{size_of};
ghost use Rattle.sizes.specs.Rank.{rank_of, key_of, pattern_of, bucket_of};

// A version, which is only ever compared with a version.
#[repr(C)]
#[derive(Clone, Copy, Debug, PartialEq, Eq, PartialOrd, Ord)]
pub struct Version(pub u32);

// The number of a node.
#[repr(C)]
#[derive(Clone, Copy, Debug, PartialEq, Eq)]
pub struct Node(pub u32);

// A capacity of the table, with its levels and its buckets.
#[derive(Clone, Copy, Debug, PartialEq, Eq)]
pub struct Size {
    pub capacity: u32,
    pub levels: u32,
    pub buckets: u32,
}

const SIZES: [Size; 7] = [
    Size {
        capacity: 64,
        levels: 6,
        buckets: 97,
    },
    Size {
        capacity: 128,
        levels: 7,
        buckets: 191,
    },
    Size {
        capacity: 256,
        levels: 8,
        buckets: 367,
    },
    Size {
        capacity: 512,
        levels: 9,
        buckets: 733,
    },
    Size {
        capacity: 1024,
        levels: 10,
        buckets: 1471,
    },
    Size {
        capacity: 2048,
        levels: 11,
        buckets: 2927,
    },
    Size {
        capacity: 4096,
        levels: 12,
        buckets: 5857,
    },
];

// The size of this capacity, if the table has it.
pub fn size_of(capacity: u32) -> Option<Size>
    ensures { result ≡ size_of capacity }
{
    SIZES.iter().find(|s| s.capacity == capacity).copied()
}

// The rank of a signed key: unsigned, in the same order.
pub fn rank(k: i64) -> u64
    ensures { result ≡ rank_of k }
{
    if k < 0 {
        let m = !k;
        9223372036854775807 - (m as u64)
    } else {
        (k as u64) + 9223372036854775808
    }
}

// The key of a rank.
pub fn unrank(r: u64) -> i64
    ensures { result ≡ key_of r }
{
    if r < 9223372036854775808 {
        let m = (9223372036854775807 - r) as i64;
        !m
    } else {
        (r - 9223372036854775808) as i64
    }
}

// The 64-bit pattern of the key with this rank: the rank with its top bit turned.
fn pattern(rank: u64) -> u64
    ensures { result ≡ pattern_of (key_of rank) }
{
    if rank < 9223372036854775808 {
        rank + 9223372036854775808
    } else {
        rank - 9223372036854775808
    }
}

// The bucket, of n buckets, of the key with this rank: its pattern modulo n. Each n of the table has a remainder of its own, by a constant; the largest comes first.
pub fn bucket_of(rank: u64, n: usize) -> usize
    requires { 0 < n }
    ensures { (result ≡ bucket_of rank n) × (result < n) }
{
    let p = pattern(rank);
    let m = n as u64;
    if m == 5857 {
        return (p % 5857) as usize;
    }
    remainder(p, m)
}

// p modulo m; where the table has m, by its halves of 32 bits.
fn remainder(p: u64, m: u64) -> usize
    requires { 0 < m }
    ensures { result ≡ p % m }
{
    let high = p / 4294967296;
    let low = p % 4294967296;
    match m {
        2927 => remainder_by::<2927, 1649>(high, low),
        1471 => remainder_by::<1471, 336>(high, low),
        733 => remainder_by::<733, 708>(high, low),
        367 => remainder_by::<367, 60>(high, low),
        191 => remainder_by::<191, 147>(high, low),
        97 => remainder_by::<97, 35>(high, low),
        _ => (p % m) as usize,
    }
}

// high * 2 ^ 32 + low modulo M, a size of the table: FACTOR is what 2 ^ 32 leaves.
fn remainder_by<const M: u64, const FACTOR: u64>(high: u64, low: u64) -> usize
    requires { (high < 4294967296) × (low < 4294967296) × (FACTOR ≡ 4294967296 % M) × (0 < M) × (M < 4294967296) }
    ensures { result ≡ (high * 4294967296 + low) % M }
{
    ((high * FACTOR + low) % M) as usize
}
