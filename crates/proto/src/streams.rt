//! Laws of streams: a session gives the turns of its bytes, however they were cut.
ghost use Rattle.std.specs.Prelude.{◌≡◌, ◌<◌, ℕ, Some};
ghost use Rattle.table.specs.declared.operations.Reply.{Reply};
ghost use Rattle.proto.specs.declared.requests.Fault.{Fault};
ghost use Rattle.proto.specs.Turns.{Faulty};
ghost use Rattle.proto.specs.Sessions.{Held, answered_by, next_of, refused_by};
ghost use Rattle.proto.specs.Streams.{GivesFirst, KeepsEnd, SameToCome, most_faults};
ghost use Rattle.proto.specs.Runs.{taken_from};

/// Each step of a session gives the first of the turns that are to come, and leaves the others,
/// whatever bytes may follow.
pub fn next_gives_first()
    ensures { (h : Held) → GivesFirst h (next_of h).0 (next_of h).1 }
{}

/// Each step of a session leaves the end of its stream where it is; and a session that gives no turn is closed then
/// exactly if it had come to that end.
pub fn next_keeps_end()
    ensures { (h : Held) → KeepsEnd h (next_of h).0 (next_of h).1 }
{}

/// A fault takes a byte at least, of the unread or of a block that was passed over.
pub fn faults_take_bytes()
    ensures { (h : Held) (fault : Fault) → (next_of h).0 ≡ Some (Faulty fault)
        → most_faults (next_of h).1 < most_faults h }
{}

/// An answer keeps what is to come.
pub fn answer_keeps_turns()
    ensures { (h : Held) (reply : Reply) → SameToCome h (answered_by h.asked h reply) }
{}

/// So does a refusal.
pub fn refusal_keeps_turns()
    ensures { (h : Held) → SameToCome h (refused_by h.asked h) }
{}

/// And so does taking output away.
pub fn taken_keeps_turns()
    ensures { (h : Held) (n : ℕ) → SameToCome h (taken_from h n) }
{}
