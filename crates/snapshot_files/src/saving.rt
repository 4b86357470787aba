//! A table's rows to a sink, piece by piece.
ghost use Rattle.std.specs.Prelude.{◌≡◌, ◌+◌, ◌<◌, ◌≤◌, ◌++◌, ℕ, [], length, OnOk, OnErr, IfOk, IfErr};
ghost use Rattle.std.specs.Prelude.{List, ◌∷◌, drop, take};
ghost use Rattle.ends.specs.Ends.{WritesBeginning};
ghost use Rattle.snapshots.specs.Sums.{sum_of};
ghost use Rattle.snapshots.specs.Rows.{IsRow, row_spelling};
ghost use Rattle.snapshots.specs.Snapshots.{IsSnapshot, begun_with, counts, ending, head, spelled_snapshot};
ghost use Rattle.snapshots.specs.Progress.{opened, with_row};
ghost use Rattle.snapshots.specs.Histories.{HasPassed};
ghost use Rattle.snapshot_files.specs.Saving.{IsCountFault, IsOnItsWay, IsOutFault, IsPutFault, IsSaved, IsSaveFault};
ghost use Rattle.snapshot_files.specs.Saving.{failures_after_save, snapshot};

use crate::SaveFault;
use bytes::BytesMut;
use ends::Sink;
use snapshots::{PutFault, SnapshotWriter, TableMark};
use std::alloc::Global;
use std::io::{self, ErrorKind};
use table::{Item, Key};

// What is held back until it goes to the sink: so many bytes, and less than a row more.
const PIECE: usize = 65_536;

/// What was saved.
#[derive(Clone, Copy, Debug, Drop, Eq, PartialEq)]
pub struct Saved {
    /// How many rows.
    pub rows: u64,
    /// How many bytes.
    pub bytes: u64,
    /// The table's count, and the sum of the bytes before it.
    pub mark: TableMark,
}

/// Writes the snapshot of these rows and this count. The rows come in the order of their items' numbers, each once. It
/// goes out in pieces of 64 KiB and a row, so a table of any size takes the memory of these.
#[tactic(auto, using(crate::proofs::Saves::snapshot_written, crate::proofs::Saves::snapshot_bytes, crate::proofs::Saves::snapshot_sum, crate::proofs::Saves::whole_snapshot, crate::proofs::Saves::begun_rows, crate::proofs::Saves::begun_none, crate::proofs::Saves::begun_held, crate::proofs::Saves::begun_end, crate::proofs::Saves::low_count, crate::proofs::Saves::out_fault))]
pub fn write_snapshot<W: Sink>(
    alloc: Global,
    sink: &mut W,
    rows: &[(Key, Item)],
    count: u64,
) -> Result<Saved, SaveFault>
    ensures written { OnOk result
        (W.written sink.new ≡ W.written sink.old ++ spelled_snapshot (snapshot rows.now count)) }
    ensures whole { OnOk result (IsSnapshot (snapshot rows.now count)) }
    ensures saved { IfOk result (λ saved. IsSaved saved (snapshot rows.now count)) }
    ensures none_failed { OnOk result (W.failures sink.new ≡ W.failures sink.old) }
    ensures begun { OnErr result
        (WritesBeginning (W.written sink.old) (W.written sink.new) (spelled_snapshot (snapshot rows.now count))) }
    ensures told { IfErr result (λ fault. IsSaveFault fault (snapshot rows.now count)) }
    ensures counted { IfErr result (λ fault. W.failures sink.new ≡ failures_after_save fault (W.failures sink.old)) }
{
    let mut out = BytesMut::new(alloc);
    let mut writer = SnapshotWriter::begin(alloc, &mut out)?;
    let gone = write_rows(sink, &mut writer, &mut out, rows)?;
    let mark = put_end(&writer, &mut out, count)?;
    let bytes = hand_out(sink, &mut out, gone)?;
    Ok(Saved {
        rows: rows.len() as u64,
        bytes,
        mark,
    })
}

// Writes the rows, and answers how many bytes have gone to the sink. The others are in the buffer.
#[tactic(auto, using(crate::proofs::Saves::way_opened, crate::proofs::Saves::passed_opened, crate::proofs::Saves::all_passed))]
fn write_rows<W: Sink>(
    sink: &mut W,
    writer: &mut SnapshotWriter,
    out: &mut BytesMut,
    rows: &[(Key, Item)],
) -> Result<u64, SaveFault>
    requires opened { writer.old ≡ opened }
    requires head { out.old.items ≡ head }
    ensures way { IfOk result (λ gone.
        IsOnItsWay (W.written sink.old) (W.written sink.new) writer.new.bytes out.new.items gone) }
    ensures passed { OnOk result (HasPassed rows.now writer.new) }
    ensures none_failed { OnOk result (W.failures sink.new ≡ W.failures sink.old) }
    ensures begun { OnErr result (WritesBeginning (W.written sink.old) (W.written sink.new) (begun_with rows.now)) }
    ensures told { IfErr result (λ fault. (count : ℕ) → IsSaveFault fault (snapshot rows.now count)) }
    ensures counted { IfErr result (λ fault. W.failures sink.new ≡ failures_after_save fault (W.failures sink.old)) }
{
    let mut gone = 0;
    let mut place = 0;
    while place < rows.len() {
        gone = write_row(sink, writer, out, rows, place, gone)?;
        place += 1;
    }
    Ok(gone)
}

// Writes the row behind so many, with so many bytes gone before. Answers how many have gone then.
#[tactic(auto, using(crate::proofs::Saves::way_row, crate::proofs::Saves::way_stopped, crate::proofs::Saves::way_broken, crate::proofs::Saves::row_passed, crate::proofs::Saves::no_row))]
fn write_row<W: Sink>(
    sink: &mut W,
    writer: &mut SnapshotWriter,
    out: &mut BytesMut,
    rows: &[(Key, Item)],
    place: usize,
    gone: u64,
) -> Result<u64, SaveFault>
    requires there { place < length rows.now }
    requires passed { HasPassed (take place rows.now) writer.old }
    ensures way { (before : List ℕ)
        → IsOnItsWay before (W.written sink.old) writer.old.bytes out.old.items gone
        → IfOk result (λ all. IsOnItsWay before (W.written sink.new) writer.new.bytes out.new.items all) }
    ensures passed { OnOk result (HasPassed (take (place + 1) rows.now) writer.new) }
    ensures none_failed { OnOk result (W.failures sink.new ≡ W.failures sink.old) }
    ensures begun { (before : List ℕ)
        → IsOnItsWay before (W.written sink.old) writer.old.bytes out.old.items gone
        → OnErr result (WritesBeginning before (W.written sink.new) (begun_with rows.now)) }
    ensures told { IfErr result (λ fault. (count : ℕ) → IsSaveFault fault (snapshot rows.now count)) }
    ensures counted { IfErr result (λ fault. W.failures sink.new ≡ failures_after_save fault (W.failures sink.old)) }
{
    let (key, item) = row_at(rows, place);
    put_row(writer, out, key, item, place as u64)?;
    hand_on(sink, out, gone)
}

// The row behind so many.
#[tactic(auto, using(crate::proofs::Saves::first_rows, crate::proofs::Saves::split_rows))]
fn row_at(rows: &[(Key, Item)], place: usize) -> &(Key, Item)
    requires there { place < length rows.now }
    ensures first { take (place + 1) rows.now ≡ take place rows.now ++ result.now ∷ [] }
    ensures split { rows.now ≡ take place rows.now ++ result.now ∷ drop (place + 1) rows.now }
{
    &rows[place]
}

// Writes a row, behind so many, to the buffer.
fn put_row(
    writer: &mut SnapshotWriter,
    out: &mut BytesMut,
    key: &Key,
    item: &Item,
    place: u64,
) -> Result<(), SaveFault>
    ensures written { OnOk result (out.new.items ≡ out.old.items ++ row_spelling (key.now, item.now)) }
    ensures put { OnOk result (writer.new ≡ with_row writer.old (key.now, item.now)) }
    ensures row { OnOk result (IsRow (key.now, item.now)) }
    ensures rises { OnOk result (writer.old.last < item.now.unique) }
    ensures fault { IfErr result (λ fault. IsPutFault fault place writer.old.last (key.now, item.now)) }
    ensures kept { OnErr result (out.new.items ≡ out.old.items) }
    ensures stays { OnErr result (writer.new ≡ writer.old) }
{
    match writer.put(out, key, item) {
        Ok(()) => Ok(()),
        Err(PutFault::NotRising) => Err(SaveFault::Row(PutFault::NotRising, place)),
        Err(PutFault::TooLarge) => Err(SaveFault::Row(PutFault::TooLarge, place)),
        Err(PutFault::Memory | PutFault::AboveCount) => Err(SaveFault::Memory),
    }
}

// Writes the end to the buffer.
fn put_end(writer: &SnapshotWriter, out: &mut BytesMut, count: u64) -> Result<TableMark, SaveFault>
    ensures written { OnOk result (out.new.items ≡ out.old.items ++ ending writer.now.bytes count writer.now.rows) }
    ensures count { IfOk result (λ mark. mark.count ≡ count) }
    ensures sum { IfOk result (λ mark. mark.sum ≡ sum_of (writer.now.bytes ++ counts count writer.now.rows)) }
    ensures within { OnOk result (writer.now.last ≤ count) }
    ensures fault { IfErr result (λ fault. IsCountFault fault count writer.now.last) }
{
    match writer.end(out, count) {
        Ok(mark) => Ok(mark),
        Err(PutFault::AboveCount) => Err(SaveFault::AboveCount),
        Err(_) => Err(SaveFault::Memory),
    }
}

// Hands what the buffer holds to the sink, if it holds a piece.
#[tactic(auto, using(crate::proofs::Saves::way_gone, crate::proofs::Saves::way_breaks_at))]
fn hand_on<W: Sink>(sink: &mut W, out: &mut BytesMut, gone: u64) -> Result<u64, SaveFault>
    ensures way { (before made : List ℕ)
        → IsOnItsWay before (W.written sink.old) made out.old.items gone
        → IfOk result (λ all. IsOnItsWay before (W.written sink.new) made out.new.items all) }
    ensures none_failed { OnOk result (W.failures sink.new ≡ W.failures sink.old) }
    ensures begun { (before made : List ℕ)
        → IsOnItsWay before (W.written sink.old) made out.old.items gone
        → OnErr result (WritesBeginning before (W.written sink.new) made) }
    ensures told { IfErr result (λ fault. IsOutFault fault) }
    ensures counted { IfErr result (λ fault. W.failures sink.new ≡ failures_after_save fault (W.failures sink.old)) }
{
    if out.len() < PIECE {
        return Ok(gone);
    }
    hand_out(sink, out, gone)
}

// Hands what the buffer holds to the sink, and empties it. Answers how many bytes have gone now, after so many. No file
// has 2^64 of them.
fn hand_out<W: Sink>(sink: &mut W, out: &mut BytesMut, gone: u64) -> Result<u64, SaveFault>
    ensures written { OnOk result (W.written sink.new ≡ W.written sink.old ++ out.old.items) }
    ensures empty { OnOk result (out.new.items ≡ []) }
    ensures gone { IfOk result (λ all. all ≡ gone + length out.old.items) }
    ensures none_failed { OnOk result (W.failures sink.new ≡ W.failures sink.old) }
    ensures begun { OnErr result (WritesBeginning (W.written sink.old) (W.written sink.new) out.old.items) }
    ensures told { IfErr result (λ fault. IsOutFault fault) }
    ensures counted { IfErr result (λ fault. W.failures sink.new ≡ failures_after_save fault (W.failures sink.old)) }
{
    let Some(all) = gone.checked_add(out.len() as u64) else {
        return Err(SaveFault::Memory);
    };
    match write_all(sink, out.as_slice()) {
        Ok(()) => {
            out.clear();
            Ok(all)
        }
        Err(e) => Err(SaveFault::Unwritten(e)),
    }
}

// Writes all of the bytes, and tells what the system says if it can't.
fn write_all<W: Sink>(sink: &mut W, bytes: &[u8]) -> io::Result<()>
    ensures written { OnOk result (W.written sink.new ≡ W.written sink.old ++ bytes.now) }
    ensures none_failed { OnOk result (W.failures sink.new ≡ W.failures sink.old) }
    ensures begun { OnErr result (WritesBeginning (W.written sink.old) (W.written sink.new) bytes.now) }
    ensures failed { OnErr result (W.failures sink.new ≡ W.failures sink.old + 1) }
{
    let mut at = 0;
    while at < bytes.len() {
        match sink.write(&bytes[at..]) {
            Ok(0) => return Err(ErrorKind::WriteZero.into()),
            Ok(n) => at += n,
            Err(e) => return Err(e),
        }
    }
    Ok(())
}
