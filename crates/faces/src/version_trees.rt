//! The versions of keys, and how much they weigh.
ghost use Rattle.std.specs.Prelude.{◌≡◌, ◌+◌, ◌≤◌, IfSome, OnOk, OnErr};
ghost use Rattle.std.specs.FinMap as maps;
ghost use Rattle.std.specs.Option.{option_copied};
ghost use Rattle.faces.specs.Weights.{bytes_with, weight_of};

use crate::Weight;
use std::alloc::{AllocError, Global};
use std::collections::BTreeMap;
use std::marker::Model;
use table::{Key, TreeKey, Version};
use versions::DeferredFree;

/// The versions of keys. Contracts see them as a map by key.
#[derive(Drop)]
pub struct VersionTree {
    tree: BTreeMap<TreeKey, Version>,
    // Of all keys and of their versions' data.
    bytes: u64,
    // What clears took away.
    deferred_free: DeferredFree<Version>,
}

impl Model for VersionTree {
    ghost use Rattle.std.specs.Prelude.{◌≡◌};
    ghost use Rattle.std.specs.FinMap as maps;
    ghost use Rattle.node.specs.Faces.{Versions};
    ghost use Rattle.faces.specs.Tombstones.{map_of};
    ghost use Rattle.faces.specs.Versions.{coded_versions};
    ghost use Rattle.faces.specs.Weights.{bytes_in};

    ghost Value = { Versions };

    ghost coded = { coded_versions };

    ghost view = { λ t. map_of t.tree.entries };

    ghost invariant = { λ t. bytes_in (maps.entries (map_of t.tree.entries)) ≡ t.bytes };
}

impl VersionTree {
    /// No versions.
    pub fn new(alloc: Global) -> VersionTree
        ensures { result ≡ maps.empty }
    {
        VersionTree {
            tree: BTreeMap::new(alloc),
            bytes: 0,
            deferred_free: DeferredFree::new(alloc),
        }
    }

    /// The version of a key, if there is one. Time is logarithmic in the number of keys.
    pub fn get(&self, key: &Key) -> Option<&Version>
        ensures { option_copied result ≡ maps.get self.now key.now }
    {
        self.tree.get(key.tree_key())
    }

    /// Sets a key's version. Refused if memory is out, or if keys and data would be 2^64 bytes. Time is logarithmic in
    /// the number of keys.
    pub fn set(&mut self, key: &Key, version: &Version) -> Result<(), AllocError>
        ensures ok { OnOk result (self.new ≡ maps.insert self.old key.now version.now) }
        ensures err { OnErr result (self.new ≡ self.old) }
    {
        let Some(bytes) = more(self.bytes, key, version) else {
            return Err(AllocError);
        };
        let before = self.tree.insert(key.to_tree_key()?, version.clone()?)?;
        self.bytes = match before {
            Some(before) => less(bytes, key, &before),
            None => bytes,
        };
        Ok(())
    }

    /// Takes a key's version away, if there is one. Time is logarithmic in the number of keys.
    pub fn remove(&mut self, key: &Key)
        ensures { self.new ≡ maps.remove self.old key.now }
    {
        if let Some(before) = self.tree.remove(key.tree_key()) {
            self.bytes = less(self.bytes, key, &before);
        }
    }

    /// Takes all versions away, in constant time. Later sweeps free them.
    pub fn clear(&mut self)
        ensures { self.new ≡ maps.empty }
    {
        self.deferred_free.take(&mut self.tree);
        self.bytes = 0;
    }

    /// Frees some of the versions that clears took away.
    pub fn sweep(&mut self)
        ensures { self.new ≡ self.old }
    {
        self.deferred_free.sweep();
    }

    /// How much the versions weigh, in constant time.
    pub fn weight(&self) -> Weight
        ensures { result ≡ weight_of self.now }
    {
        Weight {
            items: self.tree.len() as u64,
            bytes: self.bytes,
        }
    }
}

// These bytes, with those of a key and of its version's data. None if they are 2^64 and more.
fn more(bytes: u64, key: &Key, version: &Version) -> Option<u64>
    ensures { IfSome result (λ sum. sum ≡ bytes + bytes_with key.now version.now) }
{
    bytes
        .checked_add(key.bytes().len() as u64)?
        .checked_add(version.data_len() as u64)
}

// These bytes, without those of a key and of its version's data.
fn less(bytes: u64, key: &Key, version: &Version) -> u64
    requires { bytes_with key.now version.now ≤ bytes }
    ensures { result + bytes_with key.now version.now ≡ bytes }
{
    bytes - key.bytes().len() as u64 - version.data_len() as u64
}
