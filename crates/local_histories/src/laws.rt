//! Laws: the moves of an event lead from what the events before it have left to what they have left with it.
ghost use Rattle.std.specs.Prelude.{◌≡◌, ◌≤◌, ℕ, List};
ghost use Rattle.node.specs.declared.messages.Input.{Input};
ghost use Rattle.node.specs.declared.messages.Peer.{Peer};
ghost use Rattle.faces.specs.Histories.{History};
ghost use Rattle.rail.specs.declared.inbox_messages.Envelope.{Envelope};
ghost use Rattle.table.specs.declared.operations.Call.{Call};
ghost use Rattle.rail.specs.declared.inbox_messages.InboxMessage.{InboxMessage};
ghost use Rattle.rail.specs.NotedReplies.{NotedReply};
ghost use Rattle.local_histories.specs.Events.{Event, Sent, Brought, Taken, Shown, Put, Answered, HandedBack};
ghost use Rattle.local_histories.specs.Events.{Got, Looked, Halted, Broke};
ghost use Rattle.local_histories.specs.Objects.{OpenedChain};
ghost use Rattle.world.specs.Orders.{OrderedCall};
ghost use Rattle.local_histories.specs.CallOrders.{IsOrderOf, IsInTurn};
ghost use Rattle.local_histories.specs.Following.{MayFollow, EachMayFollow, IsWorkerStep, Leads, AreRun};
ghost use Rattle.local_histories.specs.LocalRules.{IsOpened, IsOf, AreOf, AllBy, KeepRules};
ghost use Rattle.local_histories.specs.LocalRules.{AreLocallyRight};

/// Each event that may follow others is the moves that `moves_of` says: they lead from each chain of the model that
/// stands for the events before it to one that stands for those with it.
pub fn events_are_moves()
    ensures sent { (s : OpenedChain) (es : List Event) (i k port : ℕ) (call : Call)
        → IsOpened s → IsOf s (Sent i k port call) → MayFollow s es (Sent i k port call)
        → Leads s es (Sent i k port call) }
    ensures brought { (s : OpenedChain) (es : List Event) (i k : ℕ) (message : InboxMessage)
        → Leads s es (Brought i k message) }
    ensures taken { (s : OpenedChain) (es : List Event) (i : ℕ) (envelope : Envelope)
        → IsOf s (Taken i envelope) → MayFollow s es (Taken i envelope) → Leads s es (Taken i envelope) }
    ensures shown { (s : OpenedChain) (es : List Event) (i : ℕ) (input : Input)
        → IsOf s (Shown i input) → MayFollow s es (Shown i input) → Leads s es (Shown i input) }
    ensures put { (s : OpenedChain) (es : List Event) (i j : ℕ) (peer : Peer)
        → IsOf s (Put i j peer) → MayFollow s es (Put i j peer) → Leads s es (Put i j peer) }
    ensures answered { (s : OpenedChain) (es : List Event) (i : ℕ) (reply : NotedReply)
        → IsOpened s → IsOf s (Answered i reply) → MayFollow s es (Answered i reply) → Leads s es (Answered i reply) }
    ensures handed_back { (s : OpenedChain) (es : List Event) (i port : ℕ) → Leads s es (HandedBack i port) }
    ensures got { (s : OpenedChain) (es : List Event) (i : ℕ) (reply : NotedReply)
        → IsOpened s → IsOf s (Got i reply) → MayFollow s es (Got i reply) → Leads s es (Got i reply) }
    ensures looked { (s : OpenedChain) (es : List Event) (i q : ℕ) (key : List ℕ) (stood : History)
        → IsOf s (Looked i q key stood) → MayFollow s es (Looked i q key stood)
        → Leads s es (Looked i q key stood) }
    ensures halted { (s : OpenedChain) (es : List Event) (i : ℕ) → IsOf s (Halted i) → Leads s es (Halted i) }
    ensures broke { (s : OpenedChain) (es : List Event) (i to : ℕ) → Leads s es (Broke i to) }
{}

/// Events each of which may follow those before it are a run of moves.
pub fn following_events_are_runs()
    // After each beginning, what stands in the model is what the events have left.
    ensures run { (s : OpenedChain) (es : List Event)
        → IsOpened s → AreOf s es → EachMayFollow s es
        → AreRun s es }
    // So there is one order of all calls, in time by the places of the events, in which updates of one server stand as
    // their faces were shown.
    ensures order { (s : OpenedChain) (es : List Event)
        → s.count ≤ 16 → IsOpened s → AreOf s es → EachMayFollow s es
        → (h : List OrderedCall) × IsOrderOf s es h × IsInTurn s es h }
{}

/// Events that are right object by object, and whose workers take one step after another, may follow one another.
pub fn rules_make_events_follow()
    ensures { (s : OpenedChain) (es : List Event)
        → AreOf s es → KeepRules s es → AllBy (IsWorkerStep s) es
        → EachMayFollow s es }
{}

/// So local histories whose workers take one step after another are runs of moves, and have one order of their calls.
pub fn histories_in_steps_are_runs()
    ensures run { (s : OpenedChain) (es : List Event)
        → IsOpened s → AreOf s es → KeepRules s es → AllBy (IsWorkerStep s) es
        → AreRun s es }
    ensures order { (s : OpenedChain) (es : List Event)
        → s.count ≤ 16 → IsOpened s → AreOf s es → KeepRules s es → AllBy (IsWorkerStep s) es
        → (h : List OrderedCall) × IsOrderOf s es h × IsInTurn s es h }
{}

/// Workers whose events are turns, as the contract of a turn says, take one step after another: each turn is cut into
/// its instants, between which other events may stand.
pub fn turns_are_steps()
    ensures { (s : OpenedChain) (es : List Event)
        → s.count ≤ 16 → IsOpened s → AreOf s es → AreLocallyRight s es
        → AllBy (IsWorkerStep s) es }
{}

/// Local histories are runs: if each server, link, seat and reader did what the contracts of the code say of it, and
/// each table's rule held at each instant, then all of it together is a run of moves of the running chain.
pub fn local_histories_are_runs()
    // After each beginning, what stands in the model is what the events have left.
    ensures run { (s : OpenedChain) (es : List Event)
        → s.count ≤ 16 → IsOpened s → AreOf s es → AreLocallyRight s es
        → AreRun s es }
    // So there is one order of all calls, in time by the places of the events, in which updates of one server stand as
    // their faces were shown.
    ensures order { (s : OpenedChain) (es : List Event)
        → s.count ≤ 16 → IsOpened s → AreOf s es → AreLocallyRight s es
        → (h : List OrderedCall) × IsOrderOf s es h × IsInTurn s es h }
{}
