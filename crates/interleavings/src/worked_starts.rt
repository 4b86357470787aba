//! Worked runs of chains that begin with a table; and starts that lack a rule, by which a call is forgotten.
ghost use Rattle.std.specs.Prelude.{◌≡◌, true, None, Some};
ghost use Rattle.table.specs.declared.operations.Reply.TheVariants.{Stored};
ghost use Rattle.world.specs.WorkedSchedules.{name};
ghost use Rattle.interleavings.specs.Moves.{moved_from};
ghost use Rattle.interleavings.specs.Asked.{AreAsked};
ghost use Rattle.interleavings.specs.Orders.{begun_call, reply_to};
ghost use Rattle.interleavings.specs.Quiet.{goes_on, IsQuiet};
ghost use Rattle.interleavings.specs.Restored.{IsReached, restored_chain};
ghost use Rattle.interleavings.specs.Lives.{reply_in, AreSuccessive};
ghost use Rattle.interleavings.specs.WorkedRuns.{set, set_homes, set_moves, set_is_taken};
ghost use Rattle.interleavings.specs.WorkedStarts.{counted_table, store_with_it, restored_but};
ghost use Rattle.interleavings.specs.WorkedStarts.{with_ids_anew, with_none_seen};
ghost use Rattle.interleavings.specs.WorkedStarts.{two_chains, life_moves, set_of_chain};

/// A chain of two begins with a table of three updates that left no item. A set passes down the chain and back, its
/// client has the reply, and both servers hold its item, whose unique is 4.
pub fn set_after_a_start()
    ensures reached { IsReached counted_table }
    ensures answered { reply_to (moved_from (restored_chain 2 set_homes counted_table) set_moves) (name 0 0)
        ≡ Some Stored }
    ensures first { ((moved_from (restored_chain 2 set_homes counted_table) set_moves).servers 0).node.store
        ≡ store_with_it }
    ensures second { ((moved_from (restored_chain 2 set_homes counted_table) set_moves).servers 1).node.store
        ≡ store_with_it }
    // Clients can ask these calls.
    ensures asked { AreAsked set_moves }
{}

/// If a server that begins with a table deals its ids anew, though it has seen them, a call is forgotten: its set has
/// an old id, so it isn't taken, and nothing is left to do.
pub fn ids_anew_forget_a_call()
    ensures begun { begun_call (moved_from (restored_but with_ids_anew) set_is_taken) (name 0 0) ≡ Some set }
    ensures forgotten { reply_to (moved_from (restored_but with_ids_anew) set_is_taken) (name 0 0) ≡ None }
    ensures quiet { IsQuiet (moved_from (restored_but with_ids_anew) set_is_taken) }
    ensures going { goes_on (moved_from (restored_but with_ids_anew) set_is_taken) 0 ≡ true }
{}

/// If it goes on with its ids, and has seen none, a call is forgotten too: its set isn't the next one.
pub fn unseen_ids_forget_a_call()
    ensures begun { begun_call (moved_from (restored_but with_none_seen) set_is_taken) (name 0 0) ≡ Some set }
    ensures forgotten { reply_to (moved_from (restored_but with_none_seen) set_is_taken) (name 0 0) ≡ None }
    ensures quiet { IsQuiet (moved_from (restored_but with_none_seen) set_is_taken) }
    ensures going { goes_on (moved_from (restored_but with_none_seen) set_is_taken) 0 ≡ true }
{}

/// A chain of one server takes a set, and hands its table over to another chain, of one server too, which takes a set
/// as well. They follow one another, as the law of lives asks, and both sets are answered.
pub fn table_is_handed_over()
    ensures successive { AreSuccessive two_chains life_moves }
    ensures first { reply_in two_chains life_moves (set_of_chain 0) ≡ Some Stored }
    ensures second { reply_in two_chains life_moves (set_of_chain 1) ≡ Some Stored }
{}
