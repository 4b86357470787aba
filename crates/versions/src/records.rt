//! A record for each key that has an item in the base or entries above the floor.
ghost use Rattle.std.specs.Prelude.{◌≡◌, ℕ, List, [], ◌∷◌, ◌++◌, drop, OnOk, OnErr, IsSome, IsTrue, Some, None, false};
ghost use Rattle.std.specs.Option.{option_copied};
ghost use Rattle.versions.specs.Records.{record_at, base_item, key_numbers, SameItems, SameNumbers, HasItem};
ghost use Rattle.versions.specs.Records.{HasNumbers};

use crate::DeferredFree;
use crate::packed_records::Record;
use std::alloc::{AllocError, Global};
use std::collections::BTreeMap;
use table::{Item, Key, TreeKey};

/// The record of a key, if there is one.
pub(crate) fn record_of<'a>(records: &'a BTreeMap<TreeKey, Record>, key: &Key) -> Option<&'a Record>
    ensures value { option_copied result ≡ record_at records.now.entries key.now }
{
    records.get(key.tree_key())
}

/// Adds the number of an entry that sets the key. A key without a record gets one, so that its item has a place later
/// on.
pub(crate) fn note(
    alloc: Global,
    records: &mut BTreeMap<TreeKey, Record>,
    key: &Key,
    number: u64,
) -> Result<(), AllocError>
    ensures items { SameItems records.old.entries records.new.entries }
    ensures numbers { OnOk result
        (HasNumbers key.now (key_numbers records.old.entries key.now ++ number ∷ []) records.old.entries
        records.new.entries) }
    ensures err { OnErr result (SameNumbers records.old.entries records.new.entries) }
{
    match records.get_mut(key.tree_key()) {
        Some(record) => record.note(number),
        None => {
            records.insert(key.to_tree_key()?, Record::of_number(alloc, number))?;
            Ok(())
        }
    }
}

/// Gives the key this item in the base, or none, and drops its first number. A record that is empty then is taken away.
pub(crate) fn settle(records: &mut BTreeMap<TreeKey, Record>, key: &Key, item: Option<Item>)
    requires noted { IsSome (record_at records.old.entries key.now) }
    ensures items { HasItem key.now item records.old.entries records.new.entries }
    ensures numbers { HasNumbers key.now (drop 1 (key_numbers records.old.entries key.now)) records.old.entries
        records.new.entries }
{
    let Some(record) = records.get_mut(key.tree_key()) else {
        return;
    };
    if !record.settle(item) {
        records.remove(key.tree_key());
    }
}

/// Takes all items out of the base, and with them each record that has no numbers. If none has any, it takes constant
/// time, and the records are freed later on.
pub(crate) fn clear(
    records: &mut BTreeMap<TreeKey, Record>,
    deferred_free: &mut DeferredFree<Record>,
    none: bool,
)
    requires none { IsTrue none → (q : List ℕ) → key_numbers records.old.entries q ≡ [] }
    ensures items { (q : List ℕ) → base_item records.new.entries q ≡ None }
    ensures numbers { SameNumbers records.old.entries records.new.entries }
{
    if none {
        deferred_free.take(records);
        return;
    }
    records.retain(|_, record| record.take_item());
}
