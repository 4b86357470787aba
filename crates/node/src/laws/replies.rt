//! Laws of replies: each closes one call, and goes to its port.
ghost use Rattle.std.specs.Prelude.{◌≡◌, ℕ, ◌+◌, ◌≤◌, Bool, true, List, [], ◌∷◌, ◌++◌};
ghost use Rattle.node.specs.declared.messages.Input.{Input};
ghost use Rattle.node.specs.Servers.{ServerState, opening};
ghost use Rattle.node.specs.Steps.{step};
ghost use Rattle.node.specs.Lawful.{IsInput, HoldsEntry, IsLawful};
ghost use Rattle.node.specs.Nodes.{NodeState, is_idle};
ghost use Rattle.node.specs.Runs.{after, put_out, AreInputs};
ghost use Rattle.node.specs.Replies.{calls_at, replies_at, open_at, opened_at, AreCallsBelow, AreRepliesBelow};
ghost use Rattle.node.specs.Replies.{AreOpenBelow};

/// Each reply closes one call, of its port and of its kind: the input's own, or one that was open and is open no
/// longer. It shows an item or none exactly if that call is a read. So no call is replied to twice.
pub fn replies_close_calls()
    // with the calls that are open after a step, its replies are the calls that were open before it and the one that it
    // opened
    ensures step { (s : ServerState) (input : Input) (port : ℕ) (reads : Bool)
        → IsLawful s
        → IsInput input
        → HoldsEntry input
        → open_at port reads (step s input).state + replies_at port reads (step s input).outputs
        ≡ open_at port reads s + opened_at port reads s input }
    // along a run no more calls are open or replied to than were open or came
    ensures run { (s : ServerState) (inputs : List Input) (port : ℕ) (reads : Bool)
        → IsLawful s
        → AreInputs inputs
        → open_at port reads (after s inputs) + replies_at port reads (put_out s inputs)
        ≤ open_at port reads s + calls_at port reads inputs }
    // no call is open at first, nor at a node that is idle
    ensures opening { (id : ℕ) (count : ℕ) (port : ℕ) (reads : Bool) → open_at port reads (opening id count) ≡ 0 }
    ensures idle { (n : NodeState) (port : ℕ) (reads : Bool) → is_idle n ≡ true → open_at port reads n.server ≡ 0 }
{}

/// If a server has open calls, and is handed calls, at ports below n alone, it puts out replies at such ports alone.
pub fn own_ports_alone()
    ensures open_after_step { (s : ServerState) (input : Input) (n : ℕ)
        → IsLawful s
        → IsInput input
        → HoldsEntry input
        → AreOpenBelow n s
        → AreCallsBelow n (input ∷ [])
        → AreOpenBelow n (step s input).state }
    ensures replies_of_step { (s : ServerState) (input : Input) (n : ℕ)
        → IsLawful s
        → IsInput input
        → HoldsEntry input
        → AreOpenBelow n s
        → AreCallsBelow n (input ∷ [])
        → AreRepliesBelow n (step s input).outputs }
    ensures open_after_run { (s : ServerState) (inputs : List Input) (n : ℕ)
        → IsLawful s
        → AreInputs inputs
        → AreOpenBelow n s
        → AreCallsBelow n inputs
        → AreOpenBelow n (after s inputs) }
    ensures replies_of_run { (s : ServerState) (inputs : List Input) (n : ℕ)
        → IsLawful s
        → AreInputs inputs
        → AreOpenBelow n s
        → AreCallsBelow n inputs
        → AreRepliesBelow n (put_out s inputs) }
{}
