//! Laws of servers with leases: one that was called gone may go on, and is as good as stopped, if what it puts out was
//! made up before.
ghost use Rattle.std.specs.Prelude.{◌≡◌, ℕ, ◌^◌, ◌≤◌, ◌<◌, List, length, take};
ghost use Rattle.interleavings.specs.Asked.{AreAsked};
ghost use Rattle.interleavings.specs.Moves.{moved};
ghost use Rattle.interleavings.specs.LeasedMoves.{LeasedMove, leased, AreAskedLeased};
ghost use Rattle.interleavings.specs.LeasedOrders.{IsLeased, as_stopped, IsSeenAs, IsOrderOfWritten, IsInTurnWritten};
ghost use Rattle.interleavings.specs.LeasedOrders.{NoneForgottenUngone};
ghost use Rattle.interleavings.specs.Quiet.{IsQuiet};
ghost use Rattle.interleavings.specs.LeasedServing.{LeasedServingMove, IsLeasedServing, IsOrderBeforeGone};
ghost use Rattle.interleavings.specs.LeasedServing.{IsWrittenBeforeGone};
ghost use Rattle.interleavings.specs.Served.{ServedCall};
ghost use Rattle.world.specs.Orders.{OrderedCall};

/// A server that was called gone and goes on is as good as one that has stopped: if all that servers put out was made
/// up before they were called gone, then at each moment of the run the others and the clients see the chain in which
/// each server stops when it is called gone.
pub fn leased_servers_are_stopped()
    ensures seen { (count : ℕ) (homes : List ℕ) (moves : List LeasedMove) (k : ℕ)
        → IsLeased count homes moves
        → IsSeenAs (leased count homes (take k moves)) (moved count homes (as_stopped count homes (take k moves))) }
    // Its calls are those of the run, so clients can ask them.
    ensures asked { (count : ℕ) (homes : List ℕ) (moves : List LeasedMove)
        → AreAskedLeased moves
        → AreAsked (as_stopped count homes moves) }
{}

/// Clients of a chain whose servers have leases see one table: if all that servers put out was made up before they were
/// called gone, one order of calls explains all that clients were written, whatever servers that were called gone do
/// besides. Of two updates at one server the one whose step was published first stands first in it, if the server
/// wasn't called gone by then.
pub fn leased_runs_have_one_order()
    ensures { (count : ℕ) (homes : List ℕ) (moves : List LeasedMove)
        → count ≤ 16
        → AreAskedLeased moves
        → IsLeased count homes moves
        → (h : List OrderedCall) × IsOrderOfWritten count homes moves h × IsInTurnWritten count homes moves h }
{}

/// No call at a server that wasn't called gone is forgotten: if nothing is left to do in the run in which each server
/// stops when it is called gone, each call of a seat whose server goes on has its reply, but at those servers.
pub fn leased_runs_forget_no_call()
    ensures { (count : ℕ) (homes : List ℕ) (moves : List LeasedMove)
        → count ≤ 16
        → length moves < 2 ^ 62
        → AreAskedLeased moves
        → IsLeased count homes moves
        → IsQuiet (moved count homes (as_stopped count homes moves))
        → NoneForgottenUngone (leased count homes moves) }
{}

/// From bytes of clients to bytes of clients, if servers have leases.
pub fn clients_of_leased_servers_see_one_table()
    // One order of the calls of all connections explains each reply that a connection got before its server was called
    // gone.
    ensures order { (count : ℕ) (homes : List ℕ) (moves : List LeasedServingMove)
        → count ≤ 16
        → IsLeasedServing count homes moves
        → (h : List ServedCall) × IsOrderBeforeGone count homes moves h }
    // What is written to a connection are the texts of its turns, with such replies.
    ensures bytes { (count : ℕ) (homes : List ℕ) (moves : List LeasedServingMove) (c n : ℕ)
        → IsLeasedServing count homes moves
        → IsWrittenBeforeGone count homes moves c n }
{}
