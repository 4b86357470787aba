//! The writer of a snapshot.
ghost use Rattle.std.specs.Prelude.{◌≡◌, ◌≤◌};
ghost use Rattle.snapshots.specs.Snapshots.{counts};

use crate::progress::Passage;
use crate::rows::write_row;
use crate::texts::head;
use crate::{PutFault, TableMark};
use bytes::BytesMut;
use std::alloc::{AllocError, Global};
use std::marker::Model;
use table::{Item, Key, LIMIT};

/// Writes a table's snapshot: the head, then row after row, then the end. What it writes goes behind the bytes of a
/// buffer, which may be emptied in between: the writer keeps nothing of it. Contracts see how far it is (`Progress`).
#[derive(Drop)]
pub struct SnapshotWriter {
    alloc: Global,
    progress: Passage,
}

impl Model for SnapshotWriter {
    ghost use Rattle.snapshots.specs.Progress.{Progress};

    ghost Value = { Progress };

    ghost view = { λ w. w.progress };
}

impl SnapshotWriter {
    ghost use Rattle.std.specs.Prelude.{ℕ, List, ◌↔◌, ◌<◌, ◌++◌, length, OnOk, OnErr, IfOk, IsErrOf};
    ghost use Rattle.table.specs.Items.{limit};
    ghost use Rattle.snapshots.specs.Progress.{opened, with_row};
    ghost use Rattle.snapshots.specs.Rows.{IsRow, row_spelling};
    ghost use Rattle.snapshots.specs.Snapshots.{ending, head};
    ghost use Rattle.snapshots.specs.Sums.{sum_of};

    /// Writes the head. Refused only if memory is out.
    pub fn begin(alloc: Global, out: &mut BytesMut) -> Result<SnapshotWriter, AllocError>
        ensures opened { IfOk result (λ writer. writer ≡ opened) }
        ensures head { OnOk result (out.new.items ≡ out.old.items ++ head) }
        ensures stays { OnErr result (out.new.items ≡ out.old.items) }
    {
        out.extend_from_slice(&head())?;
        Ok(SnapshotWriter {
            alloc,
            progress: Passage::opened(),
        })
    }

    /// Writes a row: what the table has at this key. Rows come in the order of their items' numbers, each once. It
    /// copies the item's data once.
    pub fn put(&mut self, out: &mut BytesMut, key: &Key, item: &Item) -> Result<(), PutFault>
        ensures written { OnOk result (out.new.items ≡ out.old.items ++ row_spelling (key.now, item.now)) }
        ensures put { OnOk result (self.new ≡ with_row self.old (key.now, item.now)) }
        ensures row { OnOk result (IsRow (key.now, item.now)) }
        ensures rises { OnOk result (self.old.last < item.now.unique) }
        ensures not_rising { IsErrOf result PutFault.NotRising ↔ (item.now.unique ≤ self.old.last) }
        ensures too_large { IsErrOf result PutFault.TooLarge
            ↔ ((self.old.last < item.now.unique) × (limit < length item.now.bytes)) }
        ensures not_above { IsErrOf result PutFault.AboveCount → ⊥ }
        ensures kept { OnErr result (out.new.items ≡ out.old.items) }
        ensures stays { OnErr result (self.new ≡ self.old) }
    {
        let number = item.unique();
        if number <= self.progress.last() {
            return Err(PutFault::NotRising);
        }
        if item.bytes().len() > LIMIT {
            return Err(PutFault::TooLarge);
        }
        let before = out.len();
        write_row(self.alloc, out, key, item)?;
        self.progress.add(number, &out.as_slice()[before..]);
        Ok(())
    }

    /// Writes the end: the table's count, the number of rows, and the sum of all bytes that this writer wrote before.
    pub fn end(&self, out: &mut BytesMut, count: u64) -> Result<TableMark, PutFault>
        ensures written { OnOk result (out.new.items ≡ out.old.items ++ ending self.now.bytes count self.now.rows) }
        ensures count { IfOk result (λ mark. mark.count ≡ count) }
        ensures sum { IfOk result (λ mark. mark.sum ≡ sum_of (self.now.bytes ++ counts count self.now.rows)) }
        ensures above { IsErrOf result PutFault.AboveCount ↔ (count < self.now.last) }
        ensures not_rising { IsErrOf result PutFault.NotRising → ⊥ }
        ensures not_large { IsErrOf result PutFault.TooLarge → ⊥ }
        ensures kept { OnErr result (out.new.items ≡ out.old.items) }
    {
        if count < self.progress.last() {
            return Err(PutFault::AboveCount);
        }
        let counts = counts(count, self.progress.rows());
        let sum = self.progress.sum_with(&counts);
        out.reserve(21)?;
        out.extend_reserved(&counts);
        out.extend_reserved(&sum.to_be_bytes());
        Ok(TableMark { count, sum })
    }
}

// The end without its sum.
fn counts(count: u64, rows: u64) -> [u8; 17]
    ensures { result ≡ counts count rows }
{
    let c = count.to_be_bytes();
    let r = rows.to_be_bytes();
    [
        0, c[0], c[1], c[2], c[3], c[4], c[5], c[6], c[7], r[0], r[1], r[2], r[3], r[4], r[5],
        r[6], r[7],
    ]
}
