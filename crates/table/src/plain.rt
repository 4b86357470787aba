//! The plain table: one map of items, and the count of its operations.
ghost use Rattle.std.specs.Prelude.{◌≡◌, ◌↔◌, ◌-◌, ◌^◌, IfOk, OnOk, OnErr, IsErrOf, IsTrue, not};
ghost use Rattle.std.specs.Option.{option_copied};
ghost use Rattle.table.specs.declared.plain.TableFault.TheVariants.{Memory};
ghost use Rattle.table.specs.Operations.{Fits, Suits, is_update, is_value};
ghost use Rattle.table.specs.Plain.{opening, apply, changed, changed_at, items_of, item_of, item_at};

use crate::{Change, Item, Key, Op, Reply, Target, decide};
use std::alloc::{AllocError, AllocFailed, Global};
use std::collections::BTreeMap;
use std::marker::Model;
use thiserror::Error;

/// Why a table refuses a call.
#[derive(Clone, Copy, Debug, PartialEq, Eq, Error)]
pub enum TableFault {
    /// Out of memory; the table is as it was.
    #[error("out of memory")]
    Memory,
    /// An update, after 2^64 - 1 numbers were taken.
    #[error("all numbers are taken")]
    Exhausted,
}

impl From<AllocError> for TableFault {
    ghost from_gives = { λ _ e. e ≡ Memory };

    fn from(_e: AllocError) -> TableFault {
        TableFault::Memory
    }
}

impl<T: Drop> From<AllocFailed<T>> for TableFault {
    ghost from_gives = { λ _ e. e ≡ Memory };

    fn from(_e: AllocFailed<T>) -> TableFault {
        TableFault::Memory
    }
}

/// One map from keys to items, and a count of the operations so far that take a number.
/// It is the reference: whatever a chain of servers answers is what one such table would.
/// Contracts see a finite map of items and a count (`PlainTable`).
#[derive(Drop)]
pub struct Table {
    alloc: Global,
    items: BTreeMap<Key, Item>,
    count: u64,
}

impl Model for Table {
    ghost use Rattle.table.specs.Plain.{PlainTable, coded_table, items_of};

    ghost Value = { PlainTable };

    ghost coded = { coded_table };

    ghost view = { λ t. record { items = items_of t.items.entries; count = t.count } };
}

impl Table {
    /// The empty table, with count 0. It allocates nothing.
    pub fn new(alloc: Global) -> Table
        ensures { result ≡ opening }
    {
        Table {
            alloc,
            items: BTreeMap::new(alloc),
            count: 0,
        }
    }

    /// Carries out one operation on its target: in time logarithmic in the number of keys on one key, linear on all of
    /// them. Refused with `Memory`, or with `Exhausted` exactly for an update at count 2^64 - 1; the table stays as it
    /// was on both. An append or a prepend copies both pieces.
    pub fn call(&mut self, target: &Target, op: &Op) -> Result<Reply, TableFault>
        requires fits { Fits op.now }
        requires aimed { Suits target.now op.now }
        ensures reply { IfOk result (λ reply. reply ≡ (apply self.old target.now op.now).0) }
        ensures table { OnOk result (self.new ≡ (apply self.old target.now op.now).1) }
        // An item is shown exactly to a read.
        ensures kind { IfOk result (λ reply. is_value reply ≡ not (is_update op.now)) }
        // Only an update takes a number, and only after 2^64 - 1 of them none is left.
        ensures exhausted { IsErrOf result TableFault.Exhausted
            ↔ (IsTrue (is_update op.now) × (self.old.count ≡ 2 ^ 64 - 1)) }
        ensures unchanged { OnErr result (self.new ≡ self.old) }
    {
        if !op.is_update() {
            let (reply, _) = decide(self.alloc, find(&self.items, target), op, 1)?;
            return Ok(reply);
        }
        if self.count == u64::MAX {
            return Err(TableFault::Exhausted);
        }
        let number = self.count + 1;
        let (reply, change) = decide(self.alloc, find(&self.items, target), op, number)?;
        carry_out(&mut self.items, target, change)?;
        self.count = number;
        Ok(reply)
    }
}

fn find<'a>(items: &'a BTreeMap<Key, Item>, target: &Target) -> Option<&'a Item>
    ensures { option_copied result ≡ item_of (items_of items.now.entries) target.now }
{
    match target {
        Target::One(key) => find_at(items, key),
        Target::All => None,
    }
}

fn find_at<'a>(items: &'a BTreeMap<Key, Item>, key: &Key) -> Option<&'a Item>
    ensures { option_copied result ≡ item_at (items_of items.now.entries) key.now }
{
    items.get(key)
}

fn carry_out(
    items: &mut BTreeMap<Key, Item>,
    target: &Target,
    change: Change,
) -> Result<(), AllocError>
    ensures ok { OnOk result (items_of items.new.entries ≡ changed (items_of items.old.entries) target.now change) }
    ensures err { OnErr result (items.new.entries ≡ items.old.entries) }
{
    match (target, change) {
        (Target::One(key), change) => carry_out_at(items, key, change)?,
        (Target::All, Change::Clear) => items.clear(),
        (Target::All, _) => {}
    }
    Ok(())
}

fn carry_out_at(
    items: &mut BTreeMap<Key, Item>,
    key: &Key,
    change: Change,
) -> Result<(), AllocError>
    ensures ok { OnOk result (items_of items.new.entries ≡ changed_at (items_of items.old.entries) key.now change) }
    ensures err { OnErr result (items.new.entries ≡ items.old.entries) }
{
    match change {
        Change::Keep => {}
        Change::Put(item) => {
            items.insert(key.clone()?, item)?;
        }
        Change::Drop => {
            items.remove(key);
        }
        Change::Clear => items.clear(),
    }
    Ok(())
}
