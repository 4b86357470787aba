//! Laws of texts: what spells a schedule is read as it, a bad line that is named is the first one, and escaped bytes
//! are read back.
ghost use Rattle.std.specs.Prelude.{◌≡◌, ◌⊎◌, ℕ, IsTrue, nat_lt, List, Some, Ok, Err, flat_map};
ghost use Rattle.std.specs.List.{list_all};
ghost use Rattle.schedules.specs.Escapes.{escape, unescape, SpellsBytes};
ghost use Rattle.schedules.specs.Printing.{sent_text};
ghost use Rattle.schedules.specs.Schedules.{ScheduleShown, schedule_of};
ghost use Rattle.schedules.specs.SpelledSchedules.{SpellsSchedule, IsFirstBad};

/// What spells a schedule is read as it, and what is read was spelled so.
pub fn spelled_schedules_are_read()
    ensures read { (text : List ℕ) (schedule : ScheduleShown)
        → SpellsSchedule text schedule
        → schedule_of text ≡ Ok schedule }
    ensures spelled { (text : List ℕ) (schedule : ScheduleShown)
        → schedule_of text ≡ Ok schedule
        → SpellsSchedule text schedule }
{}

/// The bad line that is named is the first that isn't as stated, and that one is named.
pub fn first_bad_line_is_named()
    ensures first { (text : List ℕ) (n : ℕ) → schedule_of text ≡ Err n → IsFirstBad n text }
    ensures named { (text : List ℕ) (n : ℕ) → IsFirstBad n text → schedule_of text ≡ Err n }
{}

/// Each text either spells one schedule or has one first bad line.
pub fn one_meaning_of_a_text()
    ensures some { (text : List ℕ)
        → ((schedule : ScheduleShown) × SpellsSchedule text schedule) ⊎ ((n : ℕ) × IsFirstBad n text) }
    ensures not_both { (text : List ℕ) (schedule : ScheduleShown) (n : ℕ)
        → SpellsSchedule text schedule
        → IsFirstBad n text
        → ⊥ }
    ensures one_schedule { (text : List ℕ) (s t : ScheduleShown)
        → SpellsSchedule text s
        → SpellsSchedule text t
        → s ≡ t }
    ensures one_bad_line { (text : List ℕ) (m n : ℕ) → IsFirstBad m text → IsFirstBad n text → m ≡ n }
{}

/// A text spells bytes exactly if it is read as them.
pub fn spelled_bytes_are_read()
    ensures read { (bytes text : List ℕ) → SpellsBytes bytes text → unescape text ≡ Some bytes }
    ensures spelled { (bytes text : List ℕ) → unescape text ≡ Some bytes → SpellsBytes bytes text }
{}

/// What a transcript shows for bytes is read back as them in a schedule.
pub fn escaped_bytes_are_read_back()
    ensures { (bytes : List ℕ)
        → IsTrue (list_all (λ b. nat_lt b 256) bytes)
        → unescape (flat_map escape bytes) ≡ Some bytes }
{}

/// The lines that a transcript shows of what a connection was sent are shown for no other bytes.
pub fn sent_text_tells_what_was_sent()
    ensures { (x y : List ℕ)
        → IsTrue (list_all (λ b. nat_lt b 256) x)
        → IsTrue (list_all (λ b. nat_lt b 256) y)
        → sent_text x ≡ sent_text y
        → x ≡ y }
{}
