//! Laws: whatever order the threads' moves come in, there is one order of calls, no call is forgotten, and clients are
//! written what their bytes ask for; and ports are names.
ghost use Rattle.std.specs.Prelude.{◌≡◌, ℕ, ◌^◌, ◌≤◌, ◌<◌, List, ◌∷◌, ◌++◌, length, map, take, Some, slice_get, true};
ghost use Rattle.std.specs.Prelude.{IsSome};
ghost use Rattle.table.specs.declared.operations.Call.{Call};
ghost use Rattle.table.specs.declared.operations.Reply.{Reply};
ghost use Rattle.node.specs.Servers.{ServerState};
ghost use Rattle.node.specs.Steps.{step};
ghost use Rattle.node.specs.declared.messages.Input.{Input};
ghost use Rattle.proto.specs.Turns.{Replied, Turn};
ghost use Rattle.proto.specs.Streams.{outcome_texts, texts, turns};
ghost use Rattle.interleavings.specs.Moves.{Move, moved, done};
ghost use Rattle.interleavings.specs.Asked.{AreAsked, IsAsked, IsSpelled};
ghost use Rattle.interleavings.specs.Orders.{IsLinearization, IsInTurn};
ghost use Rattle.interleavings.specs.Quiet.{IsQuiet, NoneForgotten};
ghost use Rattle.interleavings.specs.OtherMoves.{Doing, moved_by, IsLinearizationBy, IsInTurnBy};
ghost use Rattle.interleavings.specs.OwnPorts.{seats_at, port_at, own_port, with_own_ports};
ghost use Rattle.interleavings.specs.FreePorts.{PortChoice, with_free_ports, IsInTurnAt};
ghost use Rattle.interleavings.specs.Ports.{input_at, renamed, renamed_result};
ghost use Rattle.interleavings.specs.Connections.{waits, may_have};
ghost use Rattle.interleavings.specs.ServingMoves.{ServingMove, served_at, served};
ghost use Rattle.interleavings.specs.Served.{unrefused, NoneRefused, IsServed, ServedCall, IsOneOrder};
ghost use Rattle.interleavings.specs.Served.{IsServedInTurn, NoneUnanswered, AllHaveAll, CallName, reply_got};
ghost use Rattle.interleavings.specs.Served.{is_call_published};
ghost use Rattle.interleavings.specs.Pools.{PooledMove, pooled, IsOneOrderPooled, IsServedInTurnPooled};
ghost use Rattle.interleavings.specs.PortQueues.{queued, IsWithSeatQueues};
ghost use Rattle.interleavings.specs.Pools.{opening_pooled, pooled_from, IsServingQuiet, NoneOpen, ServedHaveAll};
ghost use Rattle.interleavings.specs.Rows.{PartName, AreWhole, IsRow, IsPublishedInTurn};
ghost use Rattle.interleavings.specs.Rows.{IsRowServed, IsRowInTurn};
ghost use Rattle.interleavings.specs.Senders.{Senders, HaveOneSender, AreTakenInOrder, PortSenders, AreOfSenders};
ghost use Rattle.interleavings.specs.Senders.{AreTakenInPortOrder};
ghost use Rattle.world.specs.Orders.{OrderedCall};

/// Every run of moves of a chain of up to 16 servers, with servers that stop at any move, has an order of its calls in
/// which a single table would have answered them; and of two updates at one server the one whose step was published
/// first stands first in it.
pub fn every_run_is_linearizable()
    ensures { (count : ℕ) (homes : List ℕ) (moves : List Move)
        → count ≤ 16
        → AreAsked moves
        → (h : List OrderedCall) × IsLinearization count homes moves h × IsInTurn count homes moves h }
{}

/// No call is forgotten: if nothing is left to do, each call of a seat whose server goes on has its reply. Fewer than
/// 2^62 moves leave each server a number for the next call.
pub fn no_call_is_forgotten()
    ensures { (count : ℕ) (homes : List ℕ) (moves : List Move)
        → count ≤ 16
        → length moves < 2 ^ 62
        → AreAsked moves
        → IsQuiet (moved count homes moves)
        → NoneForgotten (moved count homes moves) }
{}

/// Ports are names: a step of a server whose ports are given other names, at an input whose port is, is the step with
/// its ports renamed, in what the server holds and in what it puts out.
pub fn ports_are_names()
    ensures { (f : ℕ → ℕ) (s : ServerState) (input : Input)
        → step (renamed f s) (input_at f input) ≡ renamed_result f (step s input) }
{}

/// Seats may be numbered by each server for itself: every run of moves in which a seat's calls have the port that it
/// has among the seats of its server, has an order of its calls, in which updates of a server stand in turn.
pub fn seats_may_have_own_ports()
    ensures order { (count : ℕ) (homes : List ℕ) (moves : List Move)
        → count ≤ 16
        → AreAsked moves
        → (h : List OrderedCall) × IsLinearizationBy (with_own_ports homes) count homes moves h
        × IsInTurnBy (with_own_ports homes) (own_port count homes) count homes moves h }
    // A server and a port name one seat.
    ensures apart { (homes : List ℕ) (c d i : ℕ)
        → slice_get homes c ≡ Some i
        → slice_get homes d ≡ Some i
        → port_at homes c i ≡ port_at homes d i
        → c ≡ d }
    // The ports of a server are the numbers below the number of its seats.
    ensures from_zero { (homes : List ℕ) (c i : ℕ)
        → slice_get homes c ≡ Some i
        → port_at homes c i < seats_at homes i }
{}

/// Calls may have any free port: whichever port each call of a seat is sent from, if no call from there awaits its
/// reply at that server.
pub fn calls_may_have_any_free_port()
    // Every run has an order of its calls, in which updates of a server stand in turn.
    ensures order { (count : ℕ) (homes : List ℕ) (ports : PortChoice) (moves : List Move)
        → count ≤ 16
        → AreAsked moves
        → (h : List OrderedCall) × IsLinearizationBy (with_free_ports homes ports) count homes moves h
        × IsInTurnAt ports count homes moves h }
    // If nothing is left to do, each call of a seat whose server goes on has its reply.
    ensures none_forgotten { (count : ℕ) (homes : List ℕ) (ports : PortChoice) (moves : List Move)
        → count ≤ 16
        → length moves < 2 ^ 62
        → AreAsked moves
        → IsQuiet (moved_by (with_free_ports homes ports) count homes moves)
        → NoneForgotten (moved_by (with_free_ports homes ports) count homes moves) }
{}

/// Seats that serve connections may be numbered by each server for itself, as the code does.
pub fn served_seats_may_have_own_ports()
    // There is one order of the calls of all connections, in which updates of a server stand in turn, and so do the
    // calls of a connection.
    ensures order { (count : ℕ) (homes : List ℕ) (moves : List ServingMove)
        → count ≤ 16
        → (h : List ServedCall) × IsOneOrder (with_own_ports homes) count homes moves h
        × IsServedInTurn (with_own_ports homes) (own_port count homes) count homes moves h }
    // Each connection makes the calls that its bytes spell, but for stores that are refused, and is written the texts
    // of its turns.
    ensures bytes { (count : ℕ) (homes : List ℕ) (moves : List ServingMove) (c n : ℕ)
        → IsServed ((served (with_own_ports homes) count homes moves).connections c n) }
{}

/// Seats that serve connections may send each call from any free port, and a port is free again once its reply is
/// taken: by its connection, or for nobody if that has ended.
pub fn served_calls_may_have_any_free_port()
    // There is one order of the calls of all connections, in which updates of a server stand in turn, and so do the
    // calls of a connection.
    ensures order { (count : ℕ) (homes : List ℕ) (ports : PortChoice) (moves : List PooledMove)
        → count ≤ 16
        → (h : List ServedCall) × IsOneOrderPooled ports count homes moves h
        × IsServedInTurnPooled ports count homes moves h }
    // Each connection makes the calls that its bytes spell, but for stores that are refused, and is written the texts
    // of its turns.
    ensures bytes { (count : ℕ) (homes : List ℕ) (ports : PortChoice) (moves : List PooledMove) (c n : ℕ)
        → IsServed ((pooled count homes ports moves).connections c n) }
    // What stands first in a queue is a reply that the connection which waits for it can take.
    ensures kinds { (count : ℕ) (homes : List ℕ) (ports : PortChoice) (moves : List PooledMove) (c : ℕ) (reply : Reply)
        (more : List Reply)
        → count ≤ 16
        → ((pooled count homes ports moves).chain.seats c).queued ≡ reply ∷ more
        → waits (served_at (pooled count homes ports moves) c) ≡ true
        → may_have (served_at (pooled count homes ports moves) c).session.asked reply ≡ true }
    // Some run with the seats' numbers as ports, of as many moves, shows the same connections after each of them: so
    // what is said of connections alone, as that they are a row, holds of both.
    ensures same { (count : ℕ) (homes : List ℕ) (ports : PortChoice) (moves : List PooledMove)
        → (others : List ServingMove) × (length others ≡ length moves)
        × ((k : ℕ) → (served done count homes (take k others)).connections
        ≡ (pooled count homes ports (take k moves)).connections) }
    // If nothing is left to do, each call of a connection that hasn't ended has its reply, if its server goes on;
    ensures answered { (count : ℕ) (homes : List ℕ) (ports : PortChoice) (moves : List PooledMove)
        → count ≤ 16
        → length moves < 2 ^ 62
        → IsServingQuiet (pooled count homes ports moves)
        → NoneOpen (pooled count homes ports moves) }
    // and if nothing is left to do at such a connection either, all its calls are answered or refused, and all is
    // written.
    ensures all { (count : ℕ) (homes : List ℕ) (ports : PortChoice) (moves : List PooledMove)
        → count ≤ 16
        → length moves < 2 ^ 62
        → IsServingQuiet (pooled count homes ports moves)
        → ServedHaveAll (pooled count homes ports moves) }
{}

/// Queues of ports do for those of seats: if a reply stands in the queue of the port for which it was put, as in the
/// code, some run with queues of seats, of as many moves, shows the same after each of them, and the reply that stands
/// first in a port's queue is the one of the seat that holds the port.
pub fn ports_may_have_queues()
    ensures { (count : ℕ) (homes : List ℕ) (ports : PortChoice) (moves : List PooledMove)
        → (others : List PooledMove) × (length others ≡ length moves)
        × ((k : ℕ) → IsWithSeatQueues ports (queued count homes ports (take k moves))
        (pooled_from homes ports (opening_pooled count homes) (take k others))) }
{}

/// Each call that clients can ask is spelled by some bytes, as the one call of a request.
pub fn asked_calls_are_spelled()
    ensures { (call : Call) → IsAsked call → IsSpelled call }
{}

/// In a run in which no call is refused, each call comes to its reply: so `IsServed` says that a connection's calls are
/// the first of those that its bytes spell, and that it is written the texts of its turns, each call's with its reply.
pub fn without_refusals_all_is_replied()
    ensures outcomes { (does : Doing) (count : ℕ) (homes : List ℕ) (moves : List ServingMove) (c n : ℕ)
        → NoneRefused moves
        → ((served does count homes moves).connections c n).outcomes
        ≡ map Replied ((served does count homes moves).connections c n).replies }
    // If all is replied, no call is left out,
    ensures calls { (calls : List Call) (replies : List Reply) → unrefused calls (map Replied replies) ≡ calls }
    // and the texts are those of the replies.
    ensures texts { (ts : List Turn) (replies : List Reply)
        → outcome_texts ts (map Replied replies) ≡ texts ts replies }
{}

/// From bytes of clients to bytes of clients: every run of a chain that serves connections, with servers that stop,
/// connections that end and stores that are refused at any move.
pub fn clients_see_one_table()
    // Its servers, channels and queues make a run of moves, with calls that clients can ask: so all that is proved of
    // these holds.
    ensures run { (count : ℕ) (homes : List ℕ) (moves : List ServingMove)
        → (ms : List Move) × AreAsked ms × ((served done count homes moves).chain ≡ moved count homes ms) }
    // There is one order of the calls of all connections, in which a single table would have answered them. Of two
    // updates at one server the one whose step was published first stands first in it, and of two calls of a connection
    // the one that was made first. (A seat's number is its port here.)
    ensures order { (count : ℕ) (homes : List ℕ) (moves : List ServingMove)
        → count ≤ 16
        → (h : List ServedCall) × IsOneOrder done count homes moves h
        × IsServedInTurn done (λ c. c) count homes moves h }
    // Each connection makes the calls that its bytes spell, in turn, but for stores that are refused. It is written the
    // texts of its turns, each call's with its reply or the line of a refusal: a beginning of them, and all of them
    // once no output is left and no turn can begin.
    ensures bytes { (count : ℕ) (homes : List ℕ) (moves : List ServingMove) (c n : ℕ)
        → IsServed ((served done count homes moves).connections c n) }
    // What stands first in a seat's queue is an item, or none, exactly if the call that its connection waits for is a
    // read: so the connection can take it.
    ensures kinds { (count : ℕ) (homes : List ℕ) (moves : List ServingMove) (c : ℕ) (reply : Reply) (more : List Reply)
        → count ≤ 16
        → ((served done count homes moves).chain.seats c).queued ≡ reply ∷ more
        → waits (served_at (served done count homes moves) c) ≡ true
        → may_have (served_at (served done count homes moves) c).session.asked reply ≡ true }
    // If nothing is left to do in the chain, each call that was made at a server that goes on has its reply;
    ensures answered { (count : ℕ) (homes : List ℕ) (moves : List ServingMove)
        → count ≤ 16
        → length moves < 2 ^ 62
        → IsQuiet (served done count homes moves).chain
        → NoneUnanswered (served done count homes moves) }
    // and if nothing is left to do at a connection either, all its calls are answered or refused, and all is written.
    ensures all { (count : ℕ) (homes : List ℕ) (moves : List ServingMove)
        → count ≤ 16
        → length moves < 2 ^ 62
        → IsQuiet (served done count homes moves).chain
        → AllHaveAll (served done count homes moves) }
{}

/// A call that has its reply is published: so if a law asks that an update is published, an answered one is.
pub fn answered_calls_are_published()
    ensures calls { (count : ℕ) (homes : List ℕ) (moves : List ServingMove) (x : CallName)
        → count ≤ 16
        → IsSome (reply_got (served done count homes moves) x)
        → is_call_published (λ c. c) (served done count homes moves) x ≡ true }
    // So it is if the servers number their own seats.
    ensures own_ports { (count : ℕ) (homes : List ℕ) (moves : List ServingMove) (x : CallName) (i : ℕ)
        → count ≤ 16
        → slice_get homes x.seat ≡ Some i
        → i < count
        → IsSome (reply_got (served (with_own_ports homes) count homes moves) x)
        → is_call_published (own_port count homes) (served (with_own_ports homes) count homes moves) x ≡ true }
{}

/// From bytes of clients to bytes of clients, if a client has several updates in flight: it is a row of connections, of
/// which each has one open call at most. This holds for every row of a run, whatever moves of the running chain do.
pub fn pipelining_clients_see_one_table()
    // What the parts read, joined, spells their calls, one part after another: these are made in turn, but for stores
    // that are refused. What is written to them, joined, is a beginning of the texts of all turns, each call's with its
    // reply or the line of a refusal, and all of them once at each part nothing is left to write.
    ensures bytes { (does : Doing) (count : ℕ) (homes : List ℕ) (moves : List ServingMove) (row : List PartName)
        → IsRow does count homes moves row
        → IsRowServed (served does count homes moves) row }
    // If the updates of a row are published in turn, its calls stand in turn in the one order of all connections' calls
    // that `clients_see_one_table` gives, or `served_seats_may_have_own_ports`.
    ensures order { (does : Doing) (port : ℕ → ℕ) (count : ℕ) (homes : List ℕ) (moves : List ServingMove)
        (row : List PartName) (h : List ServedCall)
        → IsRow does count homes moves row
        → IsPublishedInTurn does port count homes moves row
        → IsOneOrder does count homes moves h
        → IsServedInTurn does port count homes moves h
        → IsRowInTurn port (served does count homes moves) row h }
    // Whole requests leave the turns of what follows them.
    ensures turns { (bytes more : List ℕ)
        → AreWhole bytes
        → turns (bytes ++ more) ≡ turns bytes ++ turns more }
{}

/// A row's updates are published in turn if all its seats send by one sender, and each sender's calls are taken in the
/// order in which they were sent.
pub fn rows_are_published_in_turn()
    ensures published { (senders : Senders) (count : ℕ) (homes : List ℕ) (moves : List ServingMove)
        (row : List PartName)
        → count ≤ 16
        → IsRow done count homes moves row
        → HaveOneSender senders row
        → AreTakenInOrder senders count homes moves
        → IsPublishedInTurn done (λ c. c) count homes moves row }
    // So there is one order of all connections' calls, in which the calls of the row stand in turn.
    ensures order { (senders : Senders) (count : ℕ) (homes : List ℕ) (moves : List ServingMove)
        (row : List PartName)
        → count ≤ 16
        → IsRow done count homes moves row
        → HaveOneSender senders row
        → AreTakenInOrder senders count homes moves
        → (h : List ServedCall) × IsOneOrder done count homes moves h
        × IsServedInTurn done (λ c. c) count homes moves h
        × IsRowInTurn (λ c. c) (served done count homes moves) row h }
{}

/// The same of a chain whose calls take free ports, if each sender's calls are taken in the order in which they were
/// sent, by the ports from which they come. A row of it is one of a run with the seats' numbers as ports, which shows
/// the same connections after each move.
pub fn calls_from_ports_stay_in_order()
    // In that run each sender's calls are taken in order, by their seats.
    ensures in_order { (port_senders : PortSenders) (senders : Senders) (count : ℕ) (homes : List ℕ)
        (ports : PortChoice) (moves : List PooledMove)
        → AreOfSenders port_senders senders ports homes
        → AreTakenInPortOrder port_senders ports count homes moves
        → (others : List ServingMove) × (length others ≡ length moves)
        × ((k : ℕ) → (served done count homes (take k others)).connections
        ≡ (pooled count homes ports (take k moves)).connections)
        × AreTakenInOrder senders count homes others }
    // So there is, for each row whose seats send by one sender, one order of all calls in which the row's stand in
    // turn.
    ensures order { (port_senders : PortSenders) (senders : Senders) (count : ℕ) (homes : List ℕ) (ports : PortChoice)
        (moves : List PooledMove)
        → count ≤ 16
        → AreOfSenders port_senders senders ports homes
        → AreTakenInPortOrder port_senders ports count homes moves
        → (others : List ServingMove) × (length others ≡ length moves)
        × ((k : ℕ) → (served done count homes (take k others)).connections
        ≡ (pooled count homes ports (take k moves)).connections)
        × ((row : List PartName)
        → IsRow done count homes others row
        → HaveOneSender senders row
        → (h : List ServedCall) × IsOneOrderPooled ports count homes moves h
        × IsServedInTurnPooled ports count homes moves h
        × IsRowInTurn (λ c. c) (served done count homes others) row h) }
{}
