//! How entries come into the index, and how they leave it for the base.
ghost use Rattle.std.specs.Prelude.{◌≡◌, ◌≤◌, ℕ, List, [], ◌∷◌, ◌++◌, drop, take, length, OnOk, OnErr, IsTrue, IsSome};
ghost use Rattle.std.specs.Prelude.{true, if◌then◌else◌};
ghost use Rattle.versions.specs.Entries.{is_clear};
ghost use Rattle.versions.specs.Stores.{items_after, sets};
ghost use Rattle.versions.specs.Numbers.{numbers_of};
ghost use Rattle.versions.specs.Records.{IsIndex, base_of, record_at, base_item, key_numbers, SameItems, SameNumbers};
ghost use Rattle.versions.specs.Records.{item_after, is_set, is_cleared};

use crate::numbers::Numbers;
use crate::packed_records::Record;
use crate::{DeferredFree, Entry, records};
use std::alloc::{AllocError, Global};
use std::collections::{BTreeMap, VecDeque};
use table::{Change, Target, TreeKey};

/// Notes the entry at its key, or among the clears. Refused, it leaves the items and the numbers as they were.
pub(crate) fn note(
    alloc: Global,
    records: &mut BTreeMap<TreeKey, Record>,
    clears: &mut Numbers,
    entry: &Entry,
) -> Result<(), AllocError>
    ensures items { SameItems records.old.entries records.new.entries }
    ensures numbers { OnOk result
        ((q : List ℕ) → key_numbers records.new.entries q ≡ key_numbers records.old.entries q ++ numbers_of (is_set q)
        (entry.now ∷ [])) }
    ensures clears { OnOk result (clears.new ≡ clears.old ++ numbers_of is_cleared (entry.now ∷ [])) }
    ensures numbers_stay { OnErr result (SameNumbers records.old.entries records.new.entries) }
    ensures clears_stay { OnErr result (clears.new ≡ clears.old) }
{
    if let Some(key) = entry.set_key() {
        return records::note(alloc, records, key, entry.number());
    }
    match entry.change() {
        Change::Clear => clears.push(entry.number()),
        Change::Keep | Change::Put(_) | Change::Drop => Ok(()),
    }
}

/// Moves the first n entries to the base.
pub(crate) fn settle_first(
    records: &mut BTreeMap<TreeKey, Record>,
    clears: &mut Numbers,
    entries: &mut VecDeque<Entry>,
    deferred_free: &mut DeferredFree<Record>,
    count: u64,
)
    requires enough { count ≤ length entries.old.items }
    requires index { IsIndex records.old.entries clears.old entries.old.items }
    ensures entries { entries.new.items ≡ drop count entries.old.items }
    ensures index { IsIndex records.new.entries clears.new entries.new.items }
    ensures base { base_of records.new.entries ≡ items_after (base_of records.old.entries)
        (take count entries.old.items) }
{
    for _moved in 0..count {
        settle_next(records, clears, entries, deferred_free);
    }
}

// Moves the first entry to the base, if there is one.
fn settle_next(
    records: &mut BTreeMap<TreeKey, Record>,
    clears: &mut Numbers,
    entries: &mut VecDeque<Entry>,
    deferred_free: &mut DeferredFree<Record>,
)
    requires { IsIndex records.old.entries clears.old entries.old.items }
    ensures entries { entries.new.items ≡ drop 1 entries.old.items }
    ensures index { IsIndex records.new.entries clears.new entries.new.items }
    ensures base { base_of records.new.entries ≡ items_after (base_of records.old.entries) (take 1 entries.old.items) }
{
    let Some(entry) = entries.pop_front() else {
        return;
    };
    let (target, change) = entry.into_change();
    settle(
        records,
        clears,
        deferred_free,
        &target,
        change,
        entries.is_empty(),
    );
}

// Makes the change in the base, and drops its number if one was noted. The last entry leaves no numbers if it
// clears.
fn settle(
    records: &mut BTreeMap<TreeKey, Record>,
    clears: &mut Numbers,
    deferred_free: &mut DeferredFree<Record>,
    target: &Target,
    change: Change,
    is_last: bool,
)
    requires noted { (q : List ℕ) → IsTrue (sets q target.now change) → IsSome (record_at records.old.entries q) }
    requires last { IsTrue is_last → is_clear change ≡ true → (q : List ℕ) → key_numbers records.old.entries q ≡ [] }
    ensures items { (q : List ℕ)
        → base_item records.new.entries q ≡ item_after q target.now change (base_item records.old.entries q) }
    ensures numbers { (q : List ℕ)
        → key_numbers records.new.entries q
        ≡ (if sets q target.now change then drop 1 (key_numbers records.old.entries q) else key_numbers
        records.old.entries q) }
    ensures clears { clears.new ≡ (if is_clear change then drop 1 clears.old else clears.old) }
{
    match (target, change) {
        (Target::One(key), Change::Put(item)) => records::settle(records, key, Some(item)),
        (Target::One(key), Change::Drop) => records::settle(records, key, None),
        (_, Change::Clear) => {
            records::clear(records, deferred_free, is_last);
            clears.drop_first();
        }
        (_, Change::Keep) | (Target::All, _) => {}
    }
}
