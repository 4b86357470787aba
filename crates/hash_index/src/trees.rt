//! The tree of the entries whose bucket was full.
ghost use Rattle.std.specs.Prelude.{◌≡◌, ◌+◌, length, Some, None, IfErr, IsSome, OnOk, OnErr};
ghost use Rattle.hash_index.specs.Entries.{value_at, AreApart};
ghost use Rattle.hash_index.specs.Tables.{HasNow};
ghost use Rattle.hash_index.specs.Retained.{IsRetained};

use crate::retains::Retain;
use std::alloc::AllocFailed;
use std::collections::BTreeMap;
use std::mem;
use table::TreeKey;

/// Puts a value in the place of a key's own, and gives that one.
pub(crate) fn swap<V: Drop>(tree: &mut BTreeMap<TreeKey, V>, key: &TreeKey, value: V) -> V
    requires { IsSome (value_at tree.old.entries key.now) }
    ensures old { Some result ≡ value_at tree.old.entries key.now }
    ensures updates { HasNow key.now (Some value) tree.old.entries tree.new.entries }
    ensures apart { AreApart tree.new.entries }
{
    match tree.get_mut(key) {
        Some(place) => mem::replace(place, value),
        None => value,
    }
}

/// Adds an entry for a key that has none. Refused if memory is out.
pub(crate) fn add<V: Drop>(
    tree: &mut BTreeMap<TreeKey, V>,
    key: TreeKey,
    value: V,
) -> Result<(), AllocFailed<V>>
    requires { value_at tree.old.entries key ≡ None }
    ensures ok { OnOk result (HasNow key (Some value) tree.old.entries tree.new.entries) }
    ensures err { OnErr result (tree.new.entries ≡ tree.old.entries) }
    ensures value_returned { IfErr result (λ failed. failed.value ≡ value) }
    ensures apart { AreApart tree.new.entries }
{
    match tree.insert(key, value) {
        Ok(_) => Ok(()),
        Err(failed) => {
            let (key, value) = failed.value;
            drop(key);
            Err(AllocFailed { value })
        }
    }
}

/// Takes the entries away whose values aren't to stay. How many those are.
pub(crate) fn retain<V: Drop, R: Retain<V>>(tree: &mut BTreeMap<TreeKey, V>) -> usize
    ensures kept { IsRetained R.outcome tree.old.entries tree.new.entries }
    ensures gone { result + length tree.new.entries ≡ length tree.old.entries }
{
    let before = tree.len();
    tree.retain(|_, value| R::stays(value));
    before - tree.len()
}
