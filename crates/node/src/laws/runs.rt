//! Laws of lists of inputs: what a server is after them, and what it put out on the way.
ghost use Rattle.std.specs.Prelude.{◌≡◌, ◌++◌, List};
ghost use Rattle.node.specs.declared.messages.Input.{Input};
ghost use Rattle.node.specs.Servers.{ServerState};
ghost use Rattle.node.specs.Lawful.{IsLawful, AreToOthers, AreFit};
ghost use Rattle.node.specs.Runs.{after, put_out, AreInputs};

/// After any inputs that may be given a server is lawful, and the same server of the same chain. Each message on the
/// way goes to another server of the chain, and may be sent, and handed in there.
pub fn runs_are_lawful()
    ensures lawful { (s : ServerState) (inputs : List Input)
        → IsLawful s
        → AreInputs inputs
        → IsLawful (after s inputs) }
    ensures id { (s : ServerState) (inputs : List Input)
        → IsLawful s
        → AreInputs inputs
        → (after s inputs).id ≡ s.id }
    ensures count { (s : ServerState) (inputs : List Input)
        → IsLawful s
        → AreInputs inputs
        → (after s inputs).count ≡ s.count }
    ensures addressed { (s : ServerState) (inputs : List Input)
        → IsLawful s
        → AreInputs inputs
        → AreToOthers s.id s.count (put_out s inputs) }
    ensures fit { (s : ServerState) (inputs : List Input)
        → IsLawful s
        → AreInputs inputs
        → AreFit (put_out s inputs) }
{}

/// A list of inputs and then another are one list.
pub fn runs_go_on()
    ensures state { (s : ServerState) (first : List Input) (more : List Input)
        → after s (first ++ more) ≡ after (after s first) more }
    ensures outputs { (s : ServerState) (first : List Input) (more : List Input)
        → put_out s (first ++ more) ≡ put_out s first ++ put_out (after s first) more }
    ensures inputs { (first : List Input) (more : List Input)
        → AreInputs first
        → AreInputs more
        → AreInputs (first ++ more) }
{}
