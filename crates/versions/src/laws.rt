//! Laws of items, logs and stores, for crates above: facts about the definitions of `specs/`, as contracts of functions
//! that do nothing.
ghost use Rattle.std.specs.Prelude.{◌≡◌, ℕ, ◌+◌, ◌≤◌, List, [], ◌∷◌, ◌++◌, length, take, drop, None, if◌then◌else◌};
ghost use Rattle.table.specs.Plain.{Items, changed, item_at};
ghost use Rattle.table.specs.declared.operations.Change.{Change};
ghost use Rattle.table.specs.declared.operations.Target.{Target};
ghost use Rattle.versions.specs.Entries.{IsEntry, LogEntry, is_clear, item_put};
ghost use Rattle.versions.specs.Stores.{IsLog, IsStore, StoreState, acked_to, dropped_to, items_after, last_number};
ghost use Rattle.versions.specs.Stores.{pushed, sets};

/// The items after entries: a change leaves a key what it puts there, nothing if it clears all keys, and else what was
/// there; and one list of entries after another is both together.
pub fn items_follow_the_log()
    ensures changed { (items : Items) (target : Target) (change : Change) (key : List ℕ)
        → item_at (changed items target change) key
        ≡ (if is_clear change then None else (if sets key target change then item_put change else item_at items key)) }
    ensures after_both { (items : Items) (first : List LogEntry) (more : List LogEntry)
        → items_after items (first ++ more) ≡ items_after (items_after items first) more }
{}

/// A beginning of a log, what follows it, and a log with its next entry are logs.
pub fn parts_are_logs()
    ensures take { (before : ℕ) (n : ℕ) (es : List LogEntry) → IsLog before es → IsLog before (take n es) }
    ensures drop { (before : ℕ) (n : ℕ) (es : List LogEntry) → IsLog before es → IsLog (before + n) (drop n es) }
    ensures push { (before : ℕ) (es : List LogEntry) (e : LogEntry)
        → IsEntry e
        → e.number ≡ before + length es + 1
        → IsLog before es
        → IsLog before (es ++ e ∷ []) }
{}

/// A store stays one: with its next entry, with a greater commit number up to the last, and with a greater floor
/// up to the commit number, which loses no entry's number.
pub fn stores_stay_stores()
    ensures pushed { (s : StoreState) (e : LogEntry)
        → IsEntry e
        → e.number ≡ last_number s + 1
        → IsStore s
        → IsStore (pushed s e) }
    ensures acked { (s : StoreState) (n : ℕ)
        → s.acked ≤ n
        → n ≤ last_number s
        → IsStore s
        → IsStore (acked_to s n) }
    ensures dropped { (s : StoreState) (n : ℕ)
        → s.floor ≤ n
        → n ≤ s.acked
        → IsStore s
        → IsStore (dropped_to s n) }
    ensures last { (s : StoreState) (n : ℕ)
        → s.floor ≤ n
        → n ≤ last_number s
        → last_number (dropped_to s n) ≡ last_number s }
{}
