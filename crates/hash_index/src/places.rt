//! Where a key's entry stands: its bucket, of as many as there are, by its hash.
ghost use Rattle.std.specs.Prelude.{◌≡◌, ◌<◌, ◌%◌, ◌^◌};
ghost use Rattle.table.specs.Keys.{hash_of, hash_with};
ghost use Rattle.hash_index.specs.Places.{IsPower, bucket_of, place_of, spread, goes};

use table::TreeKey;

// The number by which the hash of a table's keys multiplies (`hash_of` of the specs of `table`).
const SPREAD: u64 = 11_400_714_819_323_198_485;

/// Where an entry of an index stands. A place that `place` gave stays right until an entry comes or goes.
#[derive(Clone, Copy, Debug, PartialEq, Eq, Drop)]
pub enum Place {
    /// In this bucket, at this position.
    Slot(usize, usize),
    /// In the tree of the entries whose bucket was full.
    Tree,
}

// The number by which a key is placed. Its low bits alone decide, and those of a hash are weak: so the upper half is
// folded into the lower one.
#[tactic(auto, unfolding(crate::specs::Places::spread))]
pub(crate) fn spread(key: &TreeKey) -> u64
    ensures { result ≡ spread key.now }
{
    let hash = hash_of(key.bytes());
    hash ^ (hash >> 32)
}

// The hash of these bytes, as a tree key has it. `TreeKey` shows no hash, so it is made again here.
#[tactic(auto, unfolding(table::specs::Keys::hash_of))]
fn hash_of(bytes: &[u8]) -> u64
    ensures { result ≡ hash_of bytes.now }
{
    let mut hash = 0;
    for b in bytes {
        hash = hash_with(hash, *b);
    }
    hash
}

// The hash of some bytes and one more.
fn hash_with(hash: u64, b: u8) -> u64
    ensures { result ≡ hash_with hash b }
{
    hash.wrapping_add(u64::from(b)).wrapping_mul(SPREAD)
}

// The bucket of a number.
pub(crate) fn bucket_of(half: usize, count: usize, number: u64) -> usize
    requires power { IsPower half }
    requires small { half < 2 ^ 62 }
    ensures { result ≡ bucket_of half count number }
{
    let number = number as usize;
    let at = rest_of(number, 2 * half);
    if at < count {
        at
    } else {
        rest_of(number, half)
    }
}

// The rest of a number by a power of two.
fn rest_of(number: usize, power: usize) -> usize
    requires { IsPower power }
    ensures { result ≡ number % power }
{
    number & (power - 1)
}

// The bucket of a key.
pub(crate) fn place_of(half: usize, count: usize, key: &TreeKey) -> usize
    requires power { IsPower half }
    requires small { half < 2 ^ 62 }
    ensures { result ≡ place_of half count key.now }
{
    bucket_of(half, count, spread(key))
}

// Whether a key goes to the new bucket, once there is one more than these.
pub(crate) fn goes(half: usize, count: usize, key: &TreeKey) -> bool
    requires power { IsPower half }
    requires small { half < 2 ^ 62 }
    requires few { count < 2 ^ 62 }
    ensures { result ≡ goes half count key.now }
{
    place_of(half, count + 1, key) == count
}
