//! Keys as trees hold them.
ghost use Rattle.std.specs.Prelude.{◌≡◌, IfOk, Some, refl, nat_eq};
ghost use Rattle.std.specs.Ordering.{nat_cmp};
ghost use Rattle.std.specs.Cmp.{on_per, on_equiv, on_po, on_total, partial_equiv_from_equiv};
ghost use Rattle.std.specs.Cmp.Lexicographic.{slice_cmp, nat_list_cmp_total, nat_list_eq_equiv, texts_po, texts_ties};
ghost use Rattle.std.specs.Cmp.Lexicographic.{pointwise};
ghost use Rattle.table.specs.Keys.{IsKey, hash_of, hash_with, tree_key_of};

use crate::{Key, SharedBytes};
use std::alloc::AllocError;
use std::cmp::Ordering;
use std::marker::Model;

// An odd number whose multiples lie far apart: 2^64 divided by the golden ratio (Knuth, "Sorting and Searching", 6.4).
const SPREAD: u64 = 11_400_714_819_323_198_485;

/// A key as a tree holds it. Tree keys stand in the order of their hashes, and then of their bytes. A hash is a number
/// that the bytes make, kept beside them: a search compares it, and reads the bytes of the key alone that it finds.
/// Hashes of keys that follow one another lie far apart, so a tree's nodes fill up in whatever order keys come.
/// Contracts see a tree key as the key's bytes.
#[derive(Debug, Drop)]
pub struct TreeKey {
    hash: u64,
    bytes: SharedBytes,
}

impl Model for TreeKey {
    ghost use Rattle.std.specs.Prelude.{List, ℕ, ◌≡◌};
    ghost use Rattle.table.specs.Keys.{IsKey, hash_of};

    ghost Value = { List ℕ };

    ghost view = { λ tree_key. tree_key.bytes };

    ghost invariant = { λ tree_key. IsKey tree_key.bytes × (tree_key.hash ≡ hash_of tree_key.bytes) };
}

impl TreeKey {
    pub(crate) fn new(bytes: SharedBytes) -> TreeKey
        requires { IsKey bytes }
        ensures { result ≡ bytes }
    {
        let hash = hash_of(bytes.as_slice());
        TreeKey { hash, bytes }
    }

    /// The bytes of the key.
    pub fn bytes(&self) -> &[u8]
        ensures bytes { result.now ≡ self.now }
        ensures valid { IsKey self.now }
    {
        self.bytes.as_slice()
    }

    /// The key, which shares its bytes.
    pub fn key(&self) -> Result<Key, AllocError>
        ensures { IfOk result (λ key. key ≡ self.now) }
    {
        Ok(Key::at(self.copy()?))
    }

    // How the bytes compare.
    #[inline(never)]
    fn cmp_bytes(&self, other: &TreeKey) -> Ordering
        ensures { result ≡ slice_cmp nat_cmp self.now other.now }
    {
        self.bytes().cmp(other.bytes())
    }

    // A copy, which shares the bytes.
    pub(crate) fn copy(&self) -> Result<TreeKey, AllocError>
        ensures { IfOk result (λ tree_key. tree_key ≡ self.now) }
    {
        Ok(TreeKey {
            hash: self.hash,
            bytes: self.bytes.clone()?,
        })
    }
}

// The hash of these bytes.
#[tactic(auto, unfolding(crate::specs::Keys::hash_of))]
fn hash_of(bytes: &[u8]) -> u64
    ensures { result ≡ hash_of bytes.now }
{
    let mut hash = 0;
    for b in bytes {
        hash = hash_with(hash, *b);
    }
    hash
}

// The hash of some bytes and one more.
fn hash_with(hash: u64, b: u8) -> u64
    ensures { result ≡ hash_with hash b }
{
    hash.wrapping_add(u64::from(b)).wrapping_mul(SPREAD)
}

impl PartialEq for TreeKey {
    ghost eq = { λ a b. pointwise nat_eq (tree_key_of a) (tree_key_of b) };

    ghost laws = { on_per tree_key_of (partial_equiv_from_equiv nat_list_eq_equiv) };

    fn eq(&self, other: &TreeKey) -> bool {
        self.hash == other.hash && self.bytes() == other.bytes()
    }
}

impl Eq for TreeKey {
    ghost laws = { on_equiv tree_key_of nat_list_eq_equiv };
}

impl PartialOrd for TreeKey {
    ghost partial_cmp = { λ a b. Some (slice_cmp nat_cmp (tree_key_of a) (tree_key_of b)) };

    ghost laws = { on_po tree_key_of texts_po };

    fn partial_cmp(&self, other: &TreeKey) -> Option<Ordering> {
        Some(self.cmp(other))
    }
}

impl Ord for TreeKey {
    ghost cmp = { λ a b. slice_cmp nat_cmp (tree_key_of a) (tree_key_of b) };

    ghost total = { on_total tree_key_of nat_list_cmp_total };

    ghost matches_partial_cmp = { λ a b. refl };

    ghost matches_eq = { λ a b. texts_ties (tree_key_of a) (tree_key_of b) };

    // A search calls it some twenty times, and the bytes are compared once: so they are compared elsewhere, and this
    // is compiled into the search.
    #[inline(always)]
    fn cmp(&self, other: &TreeKey) -> Ordering {
        match self.hash.cmp(&other.hash) {
            Ordering::Equal => self.cmp_bytes(other),
            order => order,
        }
    }
}
