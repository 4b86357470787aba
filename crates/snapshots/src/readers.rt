//! The reader of a snapshot.
ghost use Rattle.std.specs.Prelude.{◌≡◌, ◌≤◌, ◌<◌, ◌++◌, ◌^◌, ℕ, IfOk, true, length, slice_index};
ghost use Rattle.std.specs.Int.{w32, w64, from_be_bytes};
ghost use Rattle.wire.specs.Spellings.{four_bytes};
ghost use Rattle.snapshots.specs.Readings.{at_end, count_at, rows_at, sum_at};
ghost use Rattle.snapshots.specs.Snapshots.{counts};

use crate::progress::Passage;
use crate::rows::row_in;
use crate::texts::{END_LENGTH, HEAD_LENGTH, agrees, at_end, head, name};
use crate::unread::Unread;
use crate::{Flaw, SnapshotFault, TableMark};
use std::alloc::{AllocError, Global};
use std::marker::Model;
use table::{Item, Key};
use wire::{Frame, WireFault, size};

/// Reads a snapshot that comes in any pieces. It gives each row once, in order, as soon as it is whole. None of them is
/// known to be a table's before `end` has said so. It keeps the bytes that aren't read: a piece, and less than a row.
/// Contracts see what was read, and the bytes that weren't (`Reading`).
#[derive(Drop)]
pub struct SnapshotReader {
    unread: Unread,
    progress: Passage,
    // How many bytes were read.
    place: u64,
}

impl Model for SnapshotReader {
    ghost use Rattle.std.specs.Prelude.{length};
    ghost use Rattle.snapshots.specs.Readings.{Reading};
    ghost use Rattle.snapshots.specs.Fed.{IsPlaced};

    ghost Value = { Reading };

    ghost view = { λ r. record { progress = r.progress; unread = r.unread } };

    ghost invariant = { λ r. IsPlaced r.progress.bytes r.unread r.place };
}

impl SnapshotReader {
    ghost use Rattle.std.specs.Prelude.{ℕ, List, ◌+◌, ◌^◌, ◌<◌, true, false, length, IsTrue};
    ghost use Rattle.std.specs.Prelude.{OnOk, OnErr, IfOk, IfErr, IfSome, IfNone};
    ghost use Rattle.wire.specs.Grammar.{IsFirst};
    ghost use Rattle.wire.specs.Lengths.{longest};
    ghost use Rattle.snapshots.specs.declared.faults.Flaw.{Flaw};
    ghost use Rattle.snapshots.specs.Progress.{is_begun};
    ghost use Rattle.snapshots.specs.Readings.{Ends, HasFlaw, HasEndFlaw, IsEndFault, IsFault, TakesRow, Waits};
    ghost use Rattle.snapshots.specs.Readings.{at_end, fed, past_head, unopened};

    /// A reader of a snapshot of which nothing has come. It allocates nothing.
    pub fn new(alloc: Global) -> SnapshotReader
        ensures { result ≡ unopened }
    {
        SnapshotReader {
            unread: Unread::new(alloc),
            progress: Passage::new(),
            place: 0,
        }
    }

    /// The next bytes have come, cut anywhere. Refused only if memory is, or if that makes 2^63 bytes or more.
    pub fn feed(&mut self, piece: &[u8]) -> Result<(), AllocError>
        ensures ok { OnOk result (self.new ≡ fed self.old piece.now) }
        ensures err { OnErr result (self.new ≡ self.old) }
    {
        if !self.has_room(piece.len()) {
            return Err(AllocError);
        }
        self.unread.push(piece)
    }

    /// The next row, or none if more bytes have to come for one or if the end is reached. If anything is wrong there,
    /// it is told, and stays so at every later call. `Memory` may be tried again.
    pub fn next(&mut self) -> Result<Option<(Key, Item)>, SnapshotFault>
        ensures row { IfOk result (λ found. IfSome found (λ row. TakesRow row (past_head self.old) self.new)) }
        ensures none { IfOk result (λ found. IfNone found (self.new ≡ past_head self.old)) }
        ensures waits { IfOk result (λ found. IfNone found (Waits self.new)) }
        // What is kept is shorter than the longest frame.
        ensures short { IfOk result (λ found. IfNone found (length self.new.unread < longest)) }
        ensures fault { IfErr result (λ fault. IsFault fault (past_head self.old)) }
        ensures flawless { IfOk result (λ found. (flaw : Flaw) → HasFlaw flaw (past_head self.old) → ⊥) }
        ensures stays { OnErr result (self.new ≡ past_head self.old) }
    {
        if !self.pass_head()? {
            return Ok(None);
        }
        self.next_row()
    }

    /// No more bytes come, and `next` has given none: whether all that is left is the end of the rows that were given,
    /// and then it is all of a snapshot, with this count and this sum.
    pub fn end(&self) -> Result<TableMark, SnapshotFault>
        ensures whole { IfOk result (λ mark. Ends mark self.now) }
        ensures fault { IfErr result (λ fault. IsEndFault fault self.now) }
        ensures flawless { IfOk result (λ mark. (flaw : Flaw) → HasEndFlaw flaw self.now → ⊥) }
    {
        let bytes = self.unread.bytes();
        if self.place == 0 || !at_end(bytes) || bytes.len() < END_LENGTH {
            return Err(SnapshotFault::Flawed(Flaw::Cut, self.place + bytes.len() as u64));
        }
        if bytes.len() > END_LENGTH {
            return Err(SnapshotFault::Flawed(Flaw::Trailing, self.place + END_LENGTH as u64));
        }
        let (count, rows, sum) = end_in(bytes);
        if sum != self.progress.sum_with(&bytes[..17]) {
            return Err(self.flawed(Flaw::OtherSum));
        }
        if rows != self.progress.rows() {
            return Err(self.flawed(Flaw::OtherRows));
        }
        if count < self.progress.last() {
            return Err(self.flawed(Flaw::AboveCount));
        }
        Ok(TableMark { count, sum })
    }

    // Whether the head has been read; it is, if it stands at the front.
    fn pass_head(&mut self) -> Result<bool, SnapshotFault>
        ensures passed { self.new ≡ past_head self.old }
        ensures begun { IfOk result (λ begun. begun ≡ is_begun self.new.progress.bytes) }
        ensures waits { IfOk result (λ begun. begun ≡ false → Waits self.new) }
        ensures short { IfOk result (λ begun. begun ≡ false → length self.new.unread < 14) }
        ensures flawless { IfOk result (λ begun. begun ≡ false → (flaw : Flaw) → HasFlaw flaw self.new → ⊥) }
        ensures fault { IfErr result (λ fault. IsFault fault self.new) }
    {
        if self.place > 0 {
            return Ok(true);
        }
        let bytes = self.unread.bytes();
        if !agrees(&head(), bytes) {
            if agrees(&name(), bytes) {
                return Err(self.flawed(Flaw::OtherFormat));
            }
            return Err(self.flawed(Flaw::Foreign));
        }
        if bytes.len() < HEAD_LENGTH {
            return Ok(false);
        }
        self.unread.take_off(HEAD_LENGTH);
        self.progress = Passage::opened();
        self.place = HEAD_LENGTH as u64;
        Ok(true)
    }

    // The next row, if the head has been read.
    fn next_row(&mut self) -> Result<Option<(Key, Item)>, SnapshotFault>
        requires begun { is_begun self.old.progress.bytes ≡ true }
        ensures row { IfOk result (λ found. IfSome found (λ row. TakesRow row self.old self.new)) }
        ensures none { IfOk result (λ found. IfNone found (self.new ≡ self.old)) }
        ensures waits { IfOk result (λ found. IfNone found (Waits self.new)) }
        ensures short { IfOk result (λ found. IfNone found (length self.new.unread < longest)) }
        ensures fault { IfErr result (λ fault. IsFault fault self.old) }
        ensures flawless { IfOk result (λ found. (flaw : Flaw) → HasFlaw flaw self.old → ⊥) }
        ensures stays { OnErr result (self.new ≡ self.old) }
    {
        let bytes = self.unread.bytes();
        if at_end(bytes) {
            if bytes.len() > END_LENGTH {
                return Err(SnapshotFault::Flawed(Flaw::Trailing, self.place + END_LENGTH as u64));
            }
            return Ok(None);
        }
        match self.unread.frame() {
            Ok(Some(frame)) => {
                let row = self.take_row(&frame)?;
                Ok(Some(row))
            }
            Ok(None) => Ok(None),
            Err(WireFault::Memory) => Err(SnapshotFault::Memory),
            Err(WireFault::Malformed | WireFault::OldFormat | WireFault::Closed) => {
                Err(self.flawed(Flaw::BadFrame))
            }
        }
    }

    // Reads the row that this frame at the front is.
    fn take_row(&mut self, frame: &Frame) -> Result<(Key, Item), SnapshotFault>
        requires begun { is_begun self.old.progress.bytes ≡ true }
        requires not_end { at_end self.old.unread ≡ false }
        requires first { (rest : List ℕ) × IsFirst frame.now self.old.unread rest }
        ensures row { IfOk result (λ row. TakesRow row self.old self.new) }
        ensures flawless { IfOk result (λ row. (flaw : Flaw) → HasFlaw flaw self.old → ⊥) }
        ensures fault { IfErr result (λ fault. IsFault fault self.old) }
        ensures stays { OnErr result (self.new ≡ self.old) }
    {
        let Some((key, item)) = row_in(frame) else {
            return Err(self.flawed(Flaw::NotRow));
        };
        let number = item.unique();
        if number <= self.progress.last() {
            return Err(self.flawed(Flaw::NotRising));
        }
        let row = copied(key, item)?;
        let length = size(frame);
        self.progress.add(number, &self.unread.bytes()[..length]);
        self.unread.take_off(length);
        self.place += length as u64;
        Ok(row)
    }

    // This is wrong where reading stands.
    fn flawed(&self, flaw: Flaw) -> SnapshotFault
        ensures { result ≡ SnapshotFault.Flawed flaw (length self.now.progress.bytes) }
    {
        SnapshotFault::Flawed(flaw, self.place)
    }

    // Whether so many bytes more may come.
    fn has_room(&self, more: usize) -> bool
        ensures { IsTrue result → length self.now.progress.bytes + (length self.now.unread + more) < 2 ^ 63 }
    {
        let unread = self.unread.bytes().len() as u64;
        match unread.checked_add(more as u64) {
            Some(unread) => match self.place.checked_add(unread) {
                Some(all) => all < 1 << 63,
                None => false,
            },
            None => false,
        }
    }
}

// What an end says: the count, the number of rows, and the sum.
fn end_in(bytes: &[u8]) -> (u64, u64, u32)
    requires whole { length bytes.now ≡ 21 }
    requires end { at_end bytes.now ≡ true }
    ensures says { bytes.now ≡ counts result.0 result.1 ++ four_bytes result.2 }
    ensures count { result.0 ≡ count_at bytes.now }
    ensures rows { result.1 ≡ rows_at bytes.now }
    ensures sum { result.2 ≡ sum_at bytes.now }
    ensures fits { result.0 < 2 ^ 64 }
{
    are_bytes(bytes);
    numbers_in(bytes)
}

// The three numbers of these bytes.
fn numbers_in(bytes: &[u8]) -> (u64, u64, u32)
    requires { length bytes.now ≡ 21 }
    ensures count { result.0 ≡ count_at bytes.now }
    ensures rows { result.1 ≡ rows_at bytes.now }
    ensures sum { result.2 ≡ sum_at bytes.now }
    ensures fits { result.0 < 2 ^ 64 }
{
    (
        u64_at(&bytes[1..9]),
        u64_at(&bytes[9..17]),
        u32_at(&bytes[17..21]),
    )
}

// What is read are bytes.
fn are_bytes(bytes: &[u8])
    ensures { (i : ℕ) → slice_index bytes.now i < 256 }
{
    let _bytes = bytes;
}

// A number of eight bytes.
fn u64_at(b: &[u8]) -> u64
    requires { length b.now ≡ 8 }
    ensures { result ≡ from_be_bytes w64 b.now }
{
    u64::from_be_bytes([b[0], b[1], b[2], b[3], b[4], b[5], b[6], b[7]])
}

// A number of four bytes.
fn u32_at(b: &[u8]) -> u32
    requires { length b.now ≡ 4 }
    ensures { result ≡ from_be_bytes w32 b.now }
{
    u32::from_be_bytes([b[0], b[1], b[2], b[3]])
}

// Copies, which share the bytes.
fn copied(key: &Key, item: &Item) -> Result<(Key, Item), AllocError>
    ensures { IfOk result (λ row. row ≡ (key.now, item.now)) }
{
    Ok((key.clone()?, item.clone()?))
}
