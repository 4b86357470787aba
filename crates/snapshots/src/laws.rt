//! Laws: what was written is read again, however it is cut; and what was read whole is a snapshot's bytes.
ghost use Rattle.std.specs.Prelude.{◌≡◌, ◌<◌, List, ℕ, [], ◌∷◌, ◌++◌};
ghost use Rattle.table.specs.Plain.{PlainTable};
ghost use Rattle.snapshots.specs.declared.faults.Flaw.{Flaw};
ghost use Rattle.snapshots.specs.declared.marks.TableMark.{TableMark};
ghost use Rattle.snapshots.specs.Rows.{Row, IsRow};
ghost use Rattle.snapshots.specs.Snapshots.{IsSnapshot, Snapshot, ending, spelled_snapshot, sum_in};
ghost use Rattle.snapshots.specs.Progress.{Progress, opened, with_row};
ghost use Rattle.snapshots.specs.Readings.{Ends, HasEndFlaw, HasFlaw, Reading, TakesRow, Waits, fed, past_head};
ghost use Rattle.snapshots.specs.Readings.{unopened};
ghost use Rattle.snapshots.specs.Histories.{HasPassed, HasRead};
ghost use Rattle.snapshots.specs.Tables.{AreRows, IsReachable, table_of};

/// What a writer has written is the head and its rows. With the end it is the snapshot's bytes.
pub fn written_is_a_snapshot()
    ensures opened { HasPassed [] opened }
    ensures row { (rows : List Row) (p : Progress) (row : Row)
        → HasPassed rows p
        → IsRow row
        → p.last < row.1.unique
        → HasPassed (rows ++ row ∷ []) (with_row p row) }
    ensures whole { (s : Snapshot) (p : Progress)
        → HasPassed s.rows p
        → p.bytes ++ ending p.bytes s.count p.rows ≡ spelled_snapshot s }
{}

/// Whatever bytes come, and however they are cut: with an end that is right, all of them are a snapshot's, and its rows
/// are those that were read.
pub fn what_is_read_is_a_snapshot()
    ensures unopened { HasRead [] [] unopened }
    ensures piece { (rows : List Row) (all piece : List ℕ) (r : Reading)
        → HasRead rows all r
        → HasRead rows (all ++ piece) (fed r piece) }
    ensures head { (rows : List Row) (all : List ℕ) (r : Reading)
        → HasRead rows all r
        → HasRead rows all (past_head r) }
    ensures row { (rows : List Row) (all : List ℕ) (row : Row) (before after : Reading)
        → HasRead rows all before
        → TakesRow row before after
        → HasRead (rows ++ row ∷ []) all after }
    ensures whole { (s : Snapshot) (all : List ℕ) (mark : TableMark) (r : Reading)
        → HasRead s.rows all r
        → Ends mark r
        → mark.count ≡ s.count
        → IsSnapshot s × (all ≡ spelled_snapshot s) × (mark.sum ≡ sum_in s) }
{}

/// If the bytes that have come begin a snapshot, its first rows are read, and nothing is wrong. If they are all of it,
/// all its rows are read, and nothing is wrong with the end.
pub fn snapshot_is_read_again()
    ensures rows { (s : Snapshot) (rows : List Row) (all more : List ℕ) (r : Reading)
        → IsSnapshot s
        → all ++ more ≡ spelled_snapshot s
        → HasRead rows all r
        → (later : List Row) × (s.rows ≡ rows ++ later) }
    ensures flawless { (s : Snapshot) (rows : List Row) (all more : List ℕ) (r : Reading) (flaw : Flaw)
        → IsSnapshot s
        → all ++ more ≡ spelled_snapshot s
        → HasRead rows all r
        → HasFlaw flaw (past_head r)
        → ⊥ }
    ensures all { (s : Snapshot) (rows : List Row) (r : Reading)
        → IsSnapshot s
        → HasRead rows (spelled_snapshot s) r
        → Waits r
        → s.rows ≡ rows }
    ensures end { (s : Snapshot) (rows : List Row) (r : Reading) (flaw : Flaw)
        → IsSnapshot s
        → HasRead rows (spelled_snapshot s) r
        → Waits r
        → HasEndFlaw flaw r
        → ⊥ }
{}

/// No bytes are those of two snapshots.
pub fn one_snapshot()
    ensures { (s t : Snapshot) → IsSnapshot s → IsSnapshot t → spelled_snapshot s ≡ spelled_snapshot t → s ≡ t }
{}

/// A snapshot's table, which its rows leave, is one that updates leave. Snapshots of different tables have different
/// bytes; and a table whose rows are the snapshot's is the snapshot's table.
pub fn tables_of_snapshots()
    ensures reachable { (s : Snapshot) → IsSnapshot s → IsReachable (table_of s) }
    ensures apart { (s t : Snapshot)
        → IsSnapshot s
        → IsSnapshot t
        → spelled_snapshot s ≡ spelled_snapshot t
        → table_of s ≡ table_of t }
    ensures again { (s : Snapshot) (t : PlainTable)
        → AreRows s.rows t
        → s.count ≡ t.count
        → table_of s ≡ t }
{}
