//! Keys: the names of items.
ghost use Rattle.std.specs.Prelude.{◌≡◌, ◌↔◌, IfOk, IfSome, IsSome, Some, refl, nat_eq};
ghost use Rattle.std.specs.List.{list_all};
ghost use Rattle.std.specs.Ordering.{nat_cmp};
ghost use Rattle.std.specs.Cmp.Lexicographic.{slice_cmp, nat_list_cmp_total, nat_list_eq_equiv, texts_po, texts_ties};
ghost use Rattle.std.specs.Cmp.Lexicographic.{pointwise};
ghost use Rattle.std.specs.Cmp.{partial_equiv_from_equiv};
ghost use Rattle.table.specs.Keys.{IsKey, is_key, is_key_byte};

use crate::{SharedBytes, TreeKey};
use std::alloc::{AllocError, Global};
use std::cmp::Ordering;
use std::marker::Model;

/// The name of an item: 1 to 250 bytes, none of them a blank or a control character
/// (protocol.txt, "Keys"; that bytes from 128 on are allowed is this project's rule).
/// Contracts see a key as its bytes. A clone shares them.
#[derive(Debug, Drop)]
pub struct Key {
    tree_key: TreeKey,
}

impl Model for Key {
    ghost use Rattle.std.specs.Prelude.{List, ℕ};

    ghost Value = { List ℕ };

    ghost view = { λ key. key.tree_key };
}

impl Key {
    /// The most bytes of a key (protocol.txt, "Keys").
    pub const MAX: usize = 250;

    /// The key of these bytes, or `None` exactly if they are no valid key. It copies them once.
    /// Refused only when out of memory.
    pub fn new(alloc: Global, bytes: &[u8]) -> Result<Option<Key>, AllocError>
        ensures bytes { IfOk result (λ found. IfSome found (λ key. key ≡ bytes.now)) }
        ensures valid { IfOk result (λ found. IsSome found ↔ IsKey bytes.now) }
    {
        if !is_key(bytes) {
            return Ok(None);
        }
        let bytes = SharedBytes::copy_from_slice(alloc, bytes)?;
        Ok(Some(Key {
            tree_key: TreeKey::new(bytes),
        }))
    }

    // The key that stands there.
    pub(crate) fn at(tree_key: TreeKey) -> Key
        ensures { result ≡ tree_key }
    {
        Key { tree_key }
    }

    /// The bytes of the key.
    pub fn bytes(&self) -> &[u8]
        ensures bytes { result.now ≡ self.now }
        ensures valid { IsKey self.now }
    {
        self.tree_key.bytes()
    }

    /// The key as a tree holds it.
    pub fn tree_key(&self) -> &TreeKey
        ensures { result.now ≡ self.now }
    {
        &self.tree_key
    }

    /// A copy of the key as a tree holds it, which shares the bytes. Refused only if memory is out.
    pub fn to_tree_key(&self) -> Result<TreeKey, AllocError>
        ensures { IfOk result (λ tree_key. tree_key ≡ self.now) }
    {
        self.tree_key.copy()
    }
}

/// Whether the bytes make a key. It allocates nothing.
pub fn is_key(bytes: &[u8]) -> bool
    ensures { result ≡ is_key bytes.now }
{
    !bytes.is_empty() && bytes.len() <= Key::MAX && are_key_bytes(bytes)
}

/// Whether a key may hold each of these bytes (protocol.txt, "Keys"). It allocates nothing.
pub fn are_key_bytes(bytes: &[u8]) -> bool
    ensures { result ≡ list_all is_key_byte bytes.now }
{
    bytes.iter().all(|b| is_key_byte(*b))
}

fn is_key_byte(b: u8) -> bool
    ensures { result ≡ is_key_byte b }
{
    matches!(b, 33..=126 | 128..=255)
}

impl Clone for Key {
    ghost is_clone = { λ key copy. copy ≡ key };

    fn clone(&self) -> Result<Key, AllocError> {
        self.tree_key.key()
    }
}

impl PartialEq for Key {
    ghost eq = { pointwise nat_eq };

    ghost laws = { partial_equiv_from_equiv nat_list_eq_equiv };

    fn eq(&self, other: &Key) -> bool {
        self.bytes() == other.bytes()
    }
}

impl Eq for Key {
    ghost laws = { nat_list_eq_equiv };
}

impl PartialOrd for Key {
    ghost partial_cmp = { λ x y. Some (slice_cmp nat_cmp x y) };

    ghost laws = { texts_po };

    fn partial_cmp(&self, other: &Key) -> Option<Ordering> {
        Some(self.cmp(other))
    }
}

impl Ord for Key {
    ghost cmp = { slice_cmp nat_cmp };

    ghost total = { nat_list_cmp_total };

    ghost matches_partial_cmp = { λ x y. refl };

    ghost matches_eq = { texts_ties };

    fn cmp(&self, other: &Key) -> Ordering {
        self.bytes().cmp(other.bytes())
    }
}
