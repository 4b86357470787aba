//! Laws: a chain may begin with a table that updates leave; chains that hand it on have one order of their calls.
ghost use Rattle.std.specs.Prelude.{◌≡◌, ◌^◌, ◌+◌, ◌*◌, ◌≤◌, ◌<◌, ℕ, List, ◌∷◌, true, length};
ghost use Rattle.table.specs.Plain.{PlainTable};
ghost use Rattle.table.specs.declared.operations.Reply.{Reply};
ghost use Rattle.node.specs.Servers.{most};
ghost use Rattle.world.specs.Orders.{OrderedCall};
ghost use Rattle.interleavings.specs.Moves.{Move, moved_from, done};
ghost use Rattle.interleavings.specs.Asked.{AreAsked};
ghost use Rattle.interleavings.specs.Quiet.{IsQuiet, NoneForgotten};
ghost use Rattle.interleavings.specs.Restored.{IsReached, HasOwnUniques, FitsAll, Restores, restored_chain};
ghost use Rattle.interleavings.specs.OrdersFrom.{IsLinearizationFrom, IsInTurnFrom, IsHeld, LeavesWhatIsHeld};
ghost use Rattle.interleavings.specs.Connections.{waits, may_have};
ghost use Rattle.interleavings.specs.ServingMoves.{ServingMove, served_at, served_from};
ghost use Rattle.interleavings.specs.Served.{IsServed, ServedCall, NoneUnanswered, AllHaveAll};
ghost use Rattle.interleavings.specs.ServedFrom.{restored_serving, IsOneOrderFrom, IsServedInTurnFrom};
ghost use Rattle.interleavings.specs.ServedFrom.{LeavesWhatIsServed};
ghost use Rattle.interleavings.specs.Lives.{Generation, LifeMove, LifeCall, AreSuccessive, IsLifeOrder};

/// A table is reached, by updates that clients can ask, exactly if its items fit, and have uniques of their own among
/// the numbers that were taken: so whoever is given a table can see whether a chain may begin with it.
pub fn tables_are_reached()
    ensures reached { (t : PlainTable) → HasOwnUniques t → FitsAll t → IsReached t }
    ensures only { (t : PlainTable) → IsReached t → HasOwnUniques t × FitsAll t }
{}

/// A chain that begins with a reached table is one that moves of an opening chain lead to: for each count of servers
/// and all homes a replay of its updates, which one more seat asks at server 0, leaves exactly the restored chain, in
/// which that seat is answered.
pub fn restored_chains_are_reached()
    ensures { (count : ℕ) (homes : List ℕ) (t : PlainTable) (r : IsReached t)
        → 1 ≤ count
        → t.count < most
        → (replay : List Move) × Restores count homes t r.updates replay }
{}

/// Every run of moves of a chain of up to 16 servers that begins with a reached table, with servers that stop at any
/// move, has an order of its calls in which a single table, which is that one at first, would have answered them. Of
/// two updates at one server the one whose step was published first stands first in it. What a server that goes on
/// holds in the end, if it holds no entry above it, is the table that these calls leave.
pub fn restored_runs_are_linearizable()
    ensures { (count : ℕ) (homes : List ℕ) (t : PlainTable) (moves : List Move)
        → 1 ≤ count
        → count ≤ 16
        → IsReached t
        → t.count < most
        → AreAsked moves
        → (h : List OrderedCall) × IsLinearizationFrom t (restored_chain count homes t) moves h
        × IsInTurnFrom (restored_chain count homes t) moves h
        × LeavesWhatIsHeld t (moved_from (restored_chain count homes t) moves) h }
{}

/// No call of such a chain is forgotten: if nothing is left to do, each call of a seat whose server goes on has its
/// reply. Each number that was taken counts as 128 moves here.
pub fn restored_chains_forget_no_call()
    ensures { (count : ℕ) (homes : List ℕ) (t : PlainTable) (moves : List Move)
        → 1 ≤ count
        → count ≤ 16
        → IsReached t
        → t.count * 128 + length moves < 2 ^ 62
        → AreAsked moves
        → IsQuiet (moved_from (restored_chain count homes t) moves)
        → NoneForgotten (moved_from (restored_chain count homes t) moves) }
{}

/// From bytes of clients to bytes of clients: every run of such a chain that serves connections, with servers that
/// stop, connections that end and stores that are refused at any move.
pub fn clients_see_one_table_from_a_start()
    // Its servers, channels and queues make a run of moves, with calls that clients can ask.
    ensures run { (count : ℕ) (homes : List ℕ) (t : PlainTable) (moves : List ServingMove)
        → (ms : List Move) × AreAsked ms
        × ((served_from done (restored_serving count homes t) moves).chain
        ≡ moved_from (restored_chain count homes t) ms) }
    // There is one order of the calls of all connections, in which a single table, which is that one at first, would
    // have answered them. Of two updates at one server the one whose step was published first stands first in it, and
    // of two calls of a connection the one that was made first. It leaves the table that is held in the end.
    ensures order { (count : ℕ) (homes : List ℕ) (t : PlainTable) (moves : List ServingMove)
        → 1 ≤ count
        → count ≤ 16
        → IsReached t
        → t.count < most
        → (h : List ServedCall) × IsOneOrderFrom t (restored_serving count homes t) moves h
        × IsServedInTurnFrom (restored_serving count homes t) moves h
        × LeavesWhatIsServed t (served_from done (restored_serving count homes t) moves) h }
    // Each connection makes the calls that its bytes spell, in turn, but for stores that are refused, and is written
    // the texts of its turns.
    ensures bytes { (count : ℕ) (homes : List ℕ) (t : PlainTable) (moves : List ServingMove) (c n : ℕ)
        → IsServed ((served_from done (restored_serving count homes t) moves).connections c n) }
    // What stands first in a seat's queue is an item, or none, exactly if the call that its connection waits for is a
    // read: so the connection can take it.
    ensures kinds { (count : ℕ) (homes : List ℕ) (t : PlainTable) (moves : List ServingMove) (c : ℕ) (reply : Reply)
        (more : List Reply)
        → 1 ≤ count
        → count ≤ 16
        → IsReached t
        → t.count < most
        → ((served_from done (restored_serving count homes t) moves).chain.seats c).queued ≡ reply ∷ more
        → waits (served_at (served_from done (restored_serving count homes t) moves) c) ≡ true
        → may_have (served_at (served_from done (restored_serving count homes t) moves) c).session.asked reply ≡ true }
    // If nothing is left to do in the chain, each call that was made at a server that goes on has its reply;
    ensures answered { (count : ℕ) (homes : List ℕ) (t : PlainTable) (moves : List ServingMove)
        → 1 ≤ count
        → count ≤ 16
        → IsReached t
        → t.count * 128 + length moves < 2 ^ 62
        → IsQuiet (served_from done (restored_serving count homes t) moves).chain
        → NoneUnanswered (served_from done (restored_serving count homes t) moves) }
    // and if nothing is left to do at a connection either, all its calls are answered or refused, and all is written.
    ensures all { (count : ℕ) (homes : List ℕ) (t : PlainTable) (moves : List ServingMove)
        → 1 ≤ count
        → count ≤ 16
        → IsReached t
        → t.count * 128 + length moves < 2 ^ 62
        → IsQuiet (served_from done (restored_serving count homes t) moves).chain
        → AllHaveAll (served_from done (restored_serving count homes t) moves) }
{}

/// What is held in the end by a server that goes on is a reached table: so the next chain may begin with it.
pub fn held_tables_are_reached()
    ensures { (count : ℕ) (homes : List ℕ) (t u : PlainTable) (moves : List Move)
        → 1 ≤ count
        → count ≤ 16
        → IsReached t
        → t.count < most
        → AreAsked moves
        → IsHeld (moved_from (restored_chain count homes t) moves) u
        → IsReached u }
{}

/// Chains that follow one another have one order of all their calls: each begins with the table that the one before
/// holds in the end, and once a call of a later one is begun, none of an earlier one is begun any more. A single table
/// would have answered all calls so, over all chains; a call that is answered before another is begun stands before it,
/// whatever chains they are of.
pub fn every_life_has_one_order()
    ensures { (first : Generation) (later : List Generation) (moves : List LifeMove)
        → AreSuccessive (first ∷ later) moves
        → (h : List LifeCall) × IsLifeOrder first.table (first ∷ later) moves h }
{}
