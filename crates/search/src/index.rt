// The buckets of the index: how many there are, and in which a run is. The index itself stands in the slots.
ghost use Rattle.std.specs.Prelude.{◌≡◌, ◌≤◌, ◌<◌};
ghost use Rattle.search.specs.Index.{slots_of, hash, bucket_at};

use crate::slots::SLOT;

// The most slots of a workspace, so that the number of a slot has 16 bits.
pub const MOST: usize = 65535;

// How many values a hash has, and by what a hash and the next number are multiplied to be taken together.
const HASHES: usize = 4294967296;

const HASH_FACTOR: usize = 2654435769;

const NUMBER_FACTOR: usize = 1640531521;

// How many slots of a workspace of `n` numbers are used, and how many buckets there are.
pub fn slots_of(n: usize) -> usize
    ensures { result ≡ slots_of n }
{
    (n / SLOT).min(MOST)
}

// The numbers of a run taken together in one.
#[tactic(auto, using(crate::proofs::Hashing::mix_small, crate::proofs::Hashing::hash_next, crate::proofs::Hashing::hash_ends))]
pub fn hash(s: &[u32]) -> u32
    ensures { result ≡ hash s.now 0 }
{
    let mut h = 0;
    for &x in s {
        h = (h * HASH_FACTOR + (x as usize) * NUMBER_FACTOR) % HASHES;
    }
    h as u32
}

// The bucket of a hash: its place among all hashes, scaled to the buckets, so that nothing is divided by their number.
pub fn bucket_at(h: u32, buckets: usize) -> usize
    requires { (0 < buckets) × (buckets ≤ 65535) }
    ensures { (result ≡ bucket_at buckets h) × (result < buckets) }
{
    (h as usize) * buckets / HASHES
}
