//! A key's record: its item in the base, and the numbers of the entries above the floor that put or drop it.
ghost use Rattle.std.specs.Prelude.{◌≡◌, ◌++◌, [], ◌∷◌, drop, IfOk, OnOk, OnErr, None, true, false};
ghost use Rattle.std.specs.Option.{option_copied};
ghost use Rattle.versions.specs.Numbers.{last_of, last_up_to, IsRising};
ghost use Rattle.versions.specs.PackedRecords.{both_of};

use crate::numbers::Numbers;
use std::alloc::{AllocError, Global};
use std::marker::Model;
use table::Item;

/// The item that a key has in the base, or none, and the numbers of the entries above the floor that put or drop it.
/// Most keys have an item alone, or one number: then it takes 16 bytes and no block. Contracts see the item and the
/// numbers (`Record` of the specs).
#[derive(Drop)]
pub(crate) struct Record {
    alloc: Global,
    packed: Packed,
}

#[derive(Drop)]
enum Packed {
    Item(Item),
    Number(u64),
    Both(Box<Both>),
}

#[derive(Drop)]
struct Both {
    item: Option<Item>,
    numbers: Numbers,
}

impl Model for Record {
    ghost use Rattle.versions.specs.Records as records;
    ghost use Rattle.versions.specs.PackedRecords.{record_of_packed};

    ghost Value = { records.Record };

    ghost coded = { records.coded_record };

    ghost view = { λ r. record_of_packed r.packed };
}

impl Record {
    /// Of this number, without an item.
    pub(crate) fn of_number(alloc: Global, number: u64) -> Record
        ensures { result ≡ record { item = None; numbers = number ∷ [] } }
    {
        let packed = Packed::Number(number);
        Record { alloc, packed }
    }

    /// The item in the base, or none.
    pub(crate) fn item(&self) -> Option<&Item>
        ensures { option_copied result ≡ self.now.item }
    {
        match &self.packed {
            Packed::Item(item) => Some(item),
            Packed::Number(_) => None,
            Packed::Both(both) => both.item.as_ref(),
        }
    }

    /// The last number.
    pub(crate) fn last(&self) -> Option<u64>
        ensures { result ≡ last_of self.now.numbers }
    {
        match &self.packed {
            Packed::Item(_) => None,
            Packed::Number(number) => Some(*number),
            Packed::Both(both) => both.numbers.last(),
        }
    }

    /// The last number that is at most `n`, by a binary search.
    pub(crate) fn last_up_to(&self, n: u64) -> Option<u64>
        requires rising { IsRising 0 self.now.numbers }
        ensures { result ≡ last_up_to n self.now.numbers }
    {
        match &self.packed {
            Packed::Item(_) => None,
            Packed::Number(number) => Some(*number).filter(|number| *number <= n),
            Packed::Both(both) => both.numbers.last_up_to(n),
        }
    }

    /// One number more at the end.
    pub(crate) fn note(&mut self, number: u64) -> Result<(), AllocError>
        ensures item { self.new.item ≡ self.old.item }
        ensures ok { OnOk result (self.new.numbers ≡ self.old.numbers ++ number ∷ []) }
        ensures err { OnErr result (self.new.numbers ≡ self.old.numbers) }
    {
        let alloc = self.alloc;
        match &mut self.packed {
            Packed::Item(item) => {
                let item = Some(item.clone()?);
                self.packed = Packed::Both(Both::new(alloc, item, number)?);
            }
            Packed::Number(first) => {
                let mut both = Both::new(alloc, None, *first)?;
                both.numbers.push(number)?;
                self.packed = Packed::Both(both);
            }
            Packed::Both(both) => both.numbers.push(number)?,
        }
        Ok(())
    }

    /// Gives the key this item in the base, or none, and drops the first number. Whether the record is still needed: it
    /// isn't if it has neither.
    pub(crate) fn settle(&mut self, item: Option<Item>) -> bool
        ensures needed { result ≡ true → self.new ≡ record { item = item; numbers = drop 1 self.old.numbers } }
        ensures none { result ≡ false → item ≡ None }
        ensures no_number { result ≡ false → drop 1 self.old.numbers ≡ [] }
    {
        if let Packed::Both(both) = &mut self.packed {
            both.numbers.drop_first();
            if !both.numbers.is_empty() {
                both.item = item;
                return true;
            }
        }
        match item {
            Some(item) => {
                self.packed = Packed::Item(item);
                true
            }
            None => false,
        }
    }

    /// Takes the item out. Whether the record is still needed: it isn't if it has no number.
    pub(crate) fn take_item(&mut self) -> bool
        ensures item { result ≡ true → self.new.item ≡ None }
        ensures numbers { result ≡ true → self.new.numbers ≡ self.old.numbers }
        ensures needed { result ≡ false → self.old.numbers ≡ [] }
    {
        match &mut self.packed {
            Packed::Item(_) => false,
            Packed::Number(_) => true,
            Packed::Both(both) => {
                both.item = None;
                !both.numbers.is_empty()
            }
        }
    }
}

impl Both {
    // This item, or none, and one number.
    fn new(alloc: Global, item: Option<Item>, number: u64) -> Result<Box<Both>, AllocError>
        ensures { IfOk result (λ both. both_of both.value ≡ record { item = item; numbers = number ∷ [] }) }
    {
        let mut numbers = Numbers::new(alloc);
        numbers.push(number)?;
        Ok(Box::new(alloc, Both { item, numbers })?)
    }
}
