//! Worked schedules: what they come to, and wrong orders of theirs that are refused.
ghost use Rattle.std.specs.Prelude.{◌≡◌, ◌<◌, ℕ, List, [], Some, slice_get};
ghost use Rattle.table.specs.Histories.{IsLegal};
ghost use Rattle.table.specs.declared.operations.Reply.{Reply};
ghost use Rattle.world.specs.Calls.{CallId, begun_call, reply_to};
ghost use Rattle.world.specs.Orders.{OrderedCall, StandsAt, Precedes, GivenBefore, IsLinearization};
ghost use Rattle.world.specs.Transcripts.{transcript_of};
ghost use Rattle.world.specs.WorkedSchedules.{name, said};
ghost use Rattle.world.specs.WorkedSchedules.{alone_homes, alone_events, alone_transcript, alone_order};
ghost use Rattle.world.specs.WorkedSchedules.{dirty_homes, dirty_events, dirty_transcript};
ghost use Rattle.world.specs.WorkedSchedules.{resent_homes, resent_events, resent_transcript, resent_twice};
ghost use Rattle.world.specs.WorkedSchedules.{resent_order};
ghost use Rattle.world.specs.WorkedSchedules.{sets_homes, sets_events, sets_transcript, sets_exchanged};
ghost use Rattle.world.specs.WorkedSchedules.{flight_homes, flight_events, flight_transcript};
ghost use Rattle.world.specs.Worlds.{run_of};

/// A get reads a key while the set of it is still on its way down the chain, and finds nothing.
pub fn dirty_read()
    ensures transcript { transcript_of (run_of 3 dirty_homes dirty_events) ≡ dirty_transcript }
    // No order has the unanswered set before the get.
    ensures set_before_get { (h : List OrderedCall)
        → IsLinearization 3 dirty_homes dirty_events h
        → (i j : ℕ)
        → i < j
        → StandsAt h i (name 0 0)
        → StandsAt h j (name 1 0)
        → ⊥ }
{}

/// The head takes an incr and fails before anyone has its entry. The incr is sent again to the next head, and acts
/// once.
pub fn resent_call()
    ensures transcript { transcript_of (run_of 3 resent_homes resent_events) ≡ resent_transcript }
    // A single table may take the incr twice, but no order does.
    ensures legal { IsLegal (said resent_twice) }
    ensures twice { IsLinearization 3 resent_homes resent_events resent_twice → ⊥ }
    // One order is right, and no other.
    ensures only { (h : List OrderedCall) → IsLinearization 3 resent_homes resent_events h → said h ≡ resent_order }
{}

/// Both neighbours of a server fail. It is left as the head and the tail, and its client gets its reply.
pub fn left_alone()
    ensures transcript { transcript_of (run_of 3 alone_homes alone_events) ≡ alone_transcript }
    // The answered set can't be left out.
    ensures left_out { IsLinearization 3 alone_homes alone_events [] → ⊥ }
    // One order is right, and no other.
    ensures only { (h : List OrderedCall) → IsLinearization 3 alone_homes alone_events h → said h ≡ alone_order }
{}

/// Two sets on two keys, the first of which is answered before the second begins. Their exchanged order is refused by
/// time alone: all else that a linearization asks for holds of it.
pub fn exchanged_sets()
    ensures transcript { transcript_of (run_of 2 sets_homes sets_events) ≡ sets_transcript }
    ensures legal { IsLegal (said sets_exchanged) }
    ensures begun { (i : ℕ) (e : OrderedCall)
        → slice_get sets_exchanged i ≡ Some e
        → begun_call (run_of 2 sets_homes sets_events) e.id ≡ Some e.call }
    ensures once { (i j : ℕ) (x : CallId) → StandsAt sets_exchanged i x → StandsAt sets_exchanged j x → i ≡ j }
    ensures answered { (x : CallId) (reply : Reply) → reply_to (run_of 2 sets_homes sets_events) x ≡ Some reply
        → (i : ℕ) × (at : StandsAt sets_exchanged i x) × (at.entry.reply ≡ reply) }
    ensures in_turn { (x y : CallId) (j : ℕ)
        → GivenBefore 2 sets_homes sets_events x y
        → StandsAt sets_exchanged j y
        → (i : ℕ) × (i < j) × StandsAt sets_exchanged i x }
    ensures refused { IsLinearization 2 sets_homes sets_events sets_exchanged → ⊥ }
{}

/// Two sets on two keys, of two clients of one server, each on its way before the other is answered. Their exchanged
/// order is refused by the server's turns alone: all else that a linearization asks for holds of it.
pub fn sets_in_flight()
    ensures transcript { transcript_of (run_of 2 flight_homes flight_events) ≡ flight_transcript }
    ensures legal { IsLegal (said sets_exchanged) }
    ensures begun { (i : ℕ) (e : OrderedCall)
        → slice_get sets_exchanged i ≡ Some e
        → begun_call (run_of 2 flight_homes flight_events) e.id ≡ Some e.call }
    ensures once { (i j : ℕ) (x : CallId) → StandsAt sets_exchanged i x → StandsAt sets_exchanged j x → i ≡ j }
    ensures answered { (x : CallId) (reply : Reply) → reply_to (run_of 2 flight_homes flight_events) x ≡ Some reply
        → (i : ℕ) × (at : StandsAt sets_exchanged i x) × (at.entry.reply ≡ reply) }
    ensures in_time { (x y : CallId) (j : ℕ)
        → Precedes 2 flight_homes flight_events x y
        → StandsAt sets_exchanged j y
        → (i : ℕ) × (i < j) × StandsAt sets_exchanged i x }
    ensures refused { IsLinearization 2 flight_homes flight_events sets_exchanged → ⊥ }
{}
