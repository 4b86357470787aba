//! Laws of every schedule: one order of calls, none forgotten, what transcripts show of them, the bytes that
//! connections are sent, and the calls that they begin.
ghost use Rattle.std.specs.Prelude.{◌≡◌, ℕ, ◌+◌, ◌^◌, ◌≤◌, ◌<◌, true, not, ◌&&◌, nat_lt, List, [], ◌∷◌, ◌++◌, Some};
ghost use Rattle.std.specs.Prelude.{None, length, take, slice_get};
ghost use Rattle.node.specs.Steps.{step};
ghost use Rattle.node.specs.declared.messages.Input.TheVariants.{Call as Called, From, Gone};
ghost use Rattle.node.specs.declared.messages.Peer.{Peer};
ghost use Rattle.proto.specs.Streams.{turns, ends};
ghost use Rattle.table.specs.declared.operations.Call.{Call};
ghost use Rattle.world.specs.declared.events.Event.{Event};
ghost use Rattle.world.specs.declared.events.Event.TheVariants.{Begin};
ghost use Rattle.world.specs.Awaited.{AreAwaited};
ghost use Rattle.world.specs.Connections.{Connection, open_call, to_work, asked};
ghost use Rattle.world.specs.Worlds.{server, link, lives, has_failed, with_connection, run_of};
ghost use Rattle.world.specs.Calls.{CallId, begun_call, reply_to};
ghost use Rattle.world.specs.Orders.{OrderedCall, IsLinearization};
ghost use Rattle.world.specs.Failures.{is_failed_by};
ghost use Rattle.world.specs.Forgotten.{NoneForgotten};
ghost use Rattle.world.specs.Transcripts.{transcript_of};
ghost use Rattle.world.specs.Shown.{call_shown, reply_shown};
ghost use Rattle.world.specs.Sent.{position_of, sent_bytes, calls_of};
ghost use Rattle.world.specs.Progress.{IsAt};

/// Every schedule over a chain of up to 16 servers, with failures at any event, has an order of its calls in which a
/// single table would have answered them.
pub fn one_order()
    ensures { (count : ℕ) (homes : List ℕ) (events : List Event)
        → count ≤ 16
        → (h : List OrderedCall) × IsLinearization count homes events h }
{}

/// Each connection has been sent the texts of its stream's turns up to its position, however the stream was cut.
pub fn sent_bytes_follow_the_stream()
    ensures { (count : ℕ) (homes : List ℕ) (events : List Event) (c : ℕ) (k : Connection)
        → slice_get (run_of count homes events).connections c ≡ Some k
        → k.session.out ≡ sent_bytes (position_of count homes events c) k.replies }
{
    proto::next_gives_first();
    proto::next_keeps_end();
    proto::answer_keeps_turns();
    proto::faults_take_bytes();
}

/// The calls that a connection has begun are the first among the turns of its stream, and those up to its position are
/// answered.
pub fn calls_follow_the_stream()
    ensures begun { (count : ℕ) (homes : List ℕ) (events : List Event) (c : ℕ) (k : Connection)
        → slice_get (run_of count homes events).connections c ≡ Some k
        → k.calls ≡ take (length k.calls) (calls_of (turns (position_of count homes events c).stream)) }
    ensures answered { (count : ℕ) (homes : List ℕ) (events : List Event) (c : ℕ) (k : Connection)
        → slice_get (run_of count homes events).connections c ≡ Some k
        → length k.replies ≡ length
        (calls_of (take (position_of count homes events c).ordinal (turns (position_of count homes events c).stream))) }
{
    proto::next_gives_first();
    proto::next_keeps_end();
    proto::answer_keeps_turns();
    proto::faults_take_bytes();
}

/// Whatever bytes may follow, the turns of a connection's stream are those that it has passed, the open one, and those
/// that its session has still to give: none is left out, and none stands twice.
pub fn no_turn_is_left_out()
    ensures { (count : ℕ) (homes : List ℕ) (events : List Event) (c : ℕ) (k : Connection)
        → slice_get (run_of count homes events).connections c ≡ Some k
        → IsAt k (position_of count homes events c) }
{
    proto::next_gives_first();
    proto::next_keeps_end();
    proto::answer_keeps_turns();
    proto::faults_take_bytes();
}

/// A `begin` at a living home after which no call is open has passed all turns of the stream: so it leaves no whole
/// request there. And its session is closed exactly if the stream has come to a request after which there is none:
/// `quit`, or a line that is too long.
pub fn begin_leaves_no_request()
    ensures passed { (count : ℕ) (homes : List ℕ) (events : List Event) (c : ℕ) (k : Connection)
        → let after = events ++ Begin c ∷ [] in
        slice_get (run_of count homes after).connections c ≡ Some k
        → lives (run_of count homes after) k.home ≡ true
        → open_call k ≡ None
        → (position_of count homes after c).ordinal ≡ length (turns (position_of count homes after c).stream) }
    ensures closed { (count : ℕ) (homes : List ℕ) (events : List Event) (c : ℕ) (k : Connection)
        → let after = events ++ Begin c ∷ [] in
        slice_get (run_of count homes after).connections c ≡ Some k
        → lives (run_of count homes after) k.home ≡ true
        → open_call k ≡ None
        → k.session.closed ≡ ends (position_of count homes after c).stream }
{
    proto::next_gives_first();
    proto::next_keeps_end();
    proto::answer_keeps_turns();
    proto::faults_take_bytes();
}

/// In a quiet world each begun call of a connection at a living home has a reply. A slice of events is shorter than
/// 2^64, and so few events leave each server a number for the next call.
pub fn none_forgotten()
    ensures { (count : ℕ) (homes : List ℕ) (events : List Event) → count ≤ 16 → length events < 2 ^ 64
        → NoneForgotten (run_of count homes events) }
{}

/// At most one call of a connection is open: the others have their replies.
pub fn one_open()
    ensures { (count : ℕ) (homes : List ℕ) (events : List Event) (c : ℕ) (k : Connection)
        → slice_get (run_of count homes events).connections c ≡ Some k
        → length k.calls ≤ length k.replies + 1 }
{}

/// A transcript shows each begun call, and the reply that it got, under the call's name: those of which `one_order`
/// speaks.
pub fn transcripts_show_the_calls()
    ensures call { (count : ℕ) (homes : List ℕ) (events : List Event) (x : CallId)
        → call_shown (transcript_of (run_of count homes events)) x ≡ begun_call (run_of count homes events) x }
    ensures reply { (count : ℕ) (homes : List ℕ) (events : List Event) (x : CallId)
        → reply_shown (transcript_of (run_of count homes events)) x ≡ reply_to (run_of count homes events) x }
{}

/// A server of the chain lives exactly if no event has failed it.
pub fn failed_servers()
    ensures { (count : ℕ) (homes : List ℕ) (events : List Event) (i : ℕ)
        → lives (run_of count homes events) i ≡ (nat_lt i count && not (is_failed_by events i)) }
{}

/// No reply is dropped: if a server takes an input, each reply that it puts out goes to a connection at this server
/// whose call is with it and may have this reply. So it waits there, and none is passed over by `replied`.
pub fn no_reply_is_dropped()
    // A begun call goes to its server.
    ensures work { (count : ℕ) (homes : List ℕ) (events : List Event)
        → count ≤ 16
        → (c : ℕ) (k : Connection) (call : Call)
        → slice_get (run_of count homes events).connections c ≡ Some k → lives (run_of count homes events) k.home ≡ true
        → to_work k.stage k ≡ Some call
        → AreAwaited (with_connection (run_of count homes events) c asked).connections k.home
        (step (server (with_connection (run_of count homes events) c asked) k.home) (Called c call)).outputs }
    // The first message of a link is delivered.
    ensures deliver { (count : ℕ) (homes : List ℕ) (events : List Event)
        → count ≤ 16
        → (i j : ℕ) (m : Peer) (ms : List Peer)
        → link (run_of count homes events) i j ≡ m ∷ ms → lives (run_of count homes events) j ≡ true
        → AreAwaited (run_of count homes events).connections j
        (step (server (run_of count homes events) j) (From i m)).outputs }
    // A server is told of a failed one.
    ensures tell { (count : ℕ) (homes : List ℕ) (events : List Event) → count ≤ 16 → (i j : ℕ)
        → lives (run_of count homes events) i ≡ true → has_failed (run_of count homes events) j ≡ true
        → AreAwaited (run_of count homes events).connections i
        (step (server (run_of count homes events) i) (Gone j)).outputs }
{}
