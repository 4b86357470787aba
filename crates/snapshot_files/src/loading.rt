//! A table's rows from a source, with all of it checked.
ghost use Rattle.std.specs.Prelude.{◌≡◌, ◌++◌, ℕ, List, [], Bool, true, false, length, OnOk, OnErr, IfOk, IfErr};
ghost use Rattle.std.specs.Prelude.{◌∷◌};
ghost use Rattle.snapshots.specs.Snapshots.{IsSnapshot, spelled_snapshot, sum_in};
ghost use Rattle.snapshots.specs.Readings.{Ends, Waits, unopened};
ghost use Rattle.snapshots.specs.Histories.{AreRead};
ghost use Rattle.snapshot_files.specs.Saving.{snapshot};
ghost use Rattle.snapshot_files.specs.Loading.{IsEndFault, IsLoadFault, come, failures_after_load};

use crate::LoadFault;
use ends::Source;
use snapshots::{SnapshotFault, SnapshotReader, TableMark};
use std::alloc::Global;
use table::{Item, Key};

// The most bytes of one read.
const PIECE: usize = 65_536;

/// What was loaded: a table as a new server begins with it.
#[derive(Debug, Drop)]
pub struct Loaded {
    /// What the table has at its keys, in the order of the items' numbers.
    pub rows: Vec<(Key, Item)>,
    /// How many updates the table has taken, and the sum of the bytes before that.
    pub mark: TableMark,
}

/// Reads a snapshot to its end. Nothing is given before all of it was checked.
#[tactic(auto, using(crate::proofs::Loads::loaded_bytes, crate::proofs::Loads::loaded_whole, crate::proofs::Loads::loaded_sum, crate::proofs::Loads::end_told, crate::proofs::Loads::end_counts))]
pub fn read_snapshot<S: Source>(alloc: Global, source: &mut S) -> Result<Loaded, LoadFault>
    ensures bytes { IfOk result (λ loaded. S.given source.new
        ≡ S.given source.old ++ spelled_snapshot (snapshot loaded.rows.items loaded.mark.count)) }
    ensures whole { IfOk result (λ loaded. IsSnapshot (snapshot loaded.rows.items loaded.mark.count)) }
    ensures sum { IfOk result (λ loaded. loaded.mark.sum ≡ sum_in (snapshot loaded.rows.items loaded.mark.count)) }
    ensures ended { OnOk result (S.has_ended source.new ≡ true) }
    ensures none_failed { OnOk result (S.failures source.new ≡ S.failures source.old) }
    ensures told { IfErr result (λ fault. (all : List ℕ) × (S.given source.new ≡ S.given source.old ++ all)
        × IsLoadFault fault all (S.has_ended source.new)) }
    ensures counted { IfErr result (λ fault.
        S.failures source.new ≡ failures_after_load fault (S.failures source.old)) }
{
    let mut reader = SnapshotReader::new(alloc);
    let mut rows = Vec::new(alloc);
    read_all(source, &mut reader, &mut rows)?;
    let mark = read_end(&reader, count(&rows))?;
    Ok(Loaded { rows, mark })
}

// Reads the source to its end, and all rows of what it gives.
#[tactic(auto, using(crate::proofs::Loads::begins_read, crate::proofs::Loads::begins_waits, crate::proofs::Loads::begins_came, crate::proofs::Loads::came_more, crate::proofs::Loads::came_none, crate::proofs::Loads::tells_more))]
fn read_all<S: Source>(
    source: &mut S,
    reader: &mut SnapshotReader,
    rows: &mut Vec<(Key, Item)>,
) -> Result<(), LoadFault>
    requires unopened { reader.old ≡ unopened }
    requires none { rows.old.items ≡ [] }
    ensures come { OnOk result (S.given source.new ≡ S.given source.old ++ come reader.new) }
    ensures read { OnOk result (AreRead rows.new.items reader.new.progress) }
    ensures waits { OnOk result (Waits reader.new) }
    ensures ended { OnOk result (S.has_ended source.new ≡ true) }
    ensures none_failed { OnOk result (S.failures source.new ≡ S.failures source.old) }
    ensures told { IfErr result (λ fault. (all : List ℕ) × (S.given source.new ≡ S.given source.old ++ all)
        × IsLoadFault fault all (S.has_ended source.new)) }
    ensures counted { IfErr result (λ fault.
        S.failures source.new ≡ failures_after_load fault (S.failures source.old)) }
{
    let mut piece = [0; PIECE];
    for _ in 0..u64::MAX {
        match source.read(&mut piece) {
            Ok(0) => return Ok(()),
            Ok(n) => read_piece(reader, &piece[..n], rows)?,
            Err(e) => return Err(LoadFault::Unreadable(e)),
        }
    }
    Err(LoadFault::Memory)
}

// Reads the rows that are whole now that a piece more has come.
#[tactic(auto, using(crate::proofs::Loads::piece_come, crate::proofs::Loads::piece_passed, crate::proofs::Loads::piece_told))]
fn read_piece(
    reader: &mut SnapshotReader,
    piece: &[u8],
    rows: &mut Vec<(Key, Item)>,
) -> Result<(), LoadFault>
    requires read { AreRead rows.old.items reader.old.progress }
    ensures come { OnOk result (come reader.new ≡ come reader.old ++ piece.now) }
    ensures read { OnOk result (AreRead rows.new.items reader.new.progress) }
    ensures waits { OnOk result (Waits reader.new) }
    ensures told { IfErr result (λ fault. (ended : Bool) → IsLoadFault fault (come reader.old ++ piece.now) ended) }
    ensures none_failed { IfErr result (λ fault. (n : ℕ) → failures_after_load fault n ≡ n) }
{
    reader.feed(piece)?;
    read_rows(reader, rows)
}

// Reads the rows that have come whole.
#[tactic(auto, using(crate::proofs::Loads::told_before))]
fn read_rows(reader: &mut SnapshotReader, rows: &mut Vec<(Key, Item)>) -> Result<(), LoadFault>
    requires read { AreRead rows.old.items reader.old.progress }
    ensures come { OnOk result (come reader.new ≡ come reader.old) }
    ensures read { OnOk result (AreRead rows.new.items reader.new.progress) }
    ensures waits { OnOk result (Waits reader.new) }
    ensures told { IfErr result (λ fault. (ended : Bool) → IsLoadFault fault (come reader.old) ended) }
    ensures none_failed { IfErr result (λ fault. (n : ℕ) → failures_after_load fault n ≡ n) }
{
    for _ in 0..u64::MAX {
        if !read_row(reader, rows)? {
            return Ok(());
        }
    }
    Err(LoadFault::Memory)
}

// Reads a row. Answers whether there was one.
#[tactic(auto, using(crate::proofs::Loads::row_come, crate::proofs::Loads::row_passed, crate::proofs::Loads::none_come, crate::proofs::Loads::none_passed, crate::proofs::Loads::row_flawed))]
fn read_row(reader: &mut SnapshotReader, rows: &mut Vec<(Key, Item)>) -> Result<bool, LoadFault>
    requires read { AreRead rows.old.items reader.old.progress }
    ensures come { OnOk result (come reader.new ≡ come reader.old) }
    ensures read { OnOk result (AreRead rows.new.items reader.new.progress) }
    ensures waits { IfOk result (λ more. more ≡ false → Waits reader.new) }
    ensures told { IfErr result (λ fault. (ended : Bool) → IsLoadFault fault (come reader.old) ended) }
    ensures none_failed { IfErr result (λ fault. (n : ℕ) → failures_after_load fault n ≡ n) }
{
    match reader.next() {
        Ok(Some(row)) => {
            push_row(rows, row)?;
            Ok(true)
        }
        Ok(None) => Ok(false),
        Err(SnapshotFault::Memory) => Err(LoadFault::Memory),
        Err(SnapshotFault::Flawed(flaw, byte)) => {
            Err(LoadFault::Flawed(flaw, byte, count(rows)))
        }
    }
}

// How many rows there are.
fn count(rows: &Vec<(Key, Item)>) -> u64
    ensures { result ≡ length rows.now.items }
{
    rows.as_slice().len() as u64
}

// A row more.
fn push_row(rows: &mut Vec<(Key, Item)>, row: (Key, Item)) -> Result<(), LoadFault>
    ensures pushed { OnOk result (rows.new.items ≡ rows.old.items ++ row ∷ []) }
    ensures memory { IfErr result (λ fault. fault ≡ LoadFault.Memory) }
{
    match rows.push(row) {
        Ok(()) => Ok(()),
        Err(_) => Err(LoadFault::Memory),
    }
}

// Reads the end, behind so many rows.
fn read_end(reader: &SnapshotReader, rows: u64) -> Result<TableMark, LoadFault>
    ensures ends { IfOk result (λ mark. Ends mark reader.now) }
    ensures fault { IfErr result (λ fault. IsEndFault fault rows reader.now) }
{
    match reader.end() {
        Ok(mark) => Ok(mark),
        Err(SnapshotFault::Memory) => Err(LoadFault::Memory),
        Err(SnapshotFault::Flawed(flaw, byte)) => Err(LoadFault::Flawed(flaw, byte, rows)),
    }
}
