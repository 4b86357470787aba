//! Laws of every step, for whoever runs servers.
ghost use Rattle.std.specs.Prelude.{◌≡◌, ℕ, ◌<◌, ◌≤◌};
ghost use Rattle.node.specs.declared.messages.Input.{Input};
ghost use Rattle.node.specs.Servers.{ServerState, opening};
ghost use Rattle.node.specs.Steps.{step};
ghost use Rattle.node.specs.Faces.{face_changed, face_of, steps_by, acked_by};
ghost use Rattle.node.specs.Lawful.{IsInput, HoldsEntry, IsLawful, AreToOthers, AreFit};

/// A server is lawful from the first on, and each step keeps it so. Its messages go to other servers of the chain, and
/// each may be sent, and handed in there.
pub fn steps_are_lawful()
    ensures opening { (id : ℕ) (count : ℕ) → id < count → count ≤ 16 → IsLawful (opening id count) }
    ensures lawful { (s : ServerState) (input : Input)
        → IsLawful s
        → IsInput input
        → HoldsEntry input
        → IsLawful (step s input).state }
    ensures addressed { (s : ServerState) (input : Input)
        → IsLawful s
        → AreToOthers s.id s.count (step s input).outputs }
    ensures fit { (s : ServerState) (input : Input)
        → IsLawful s
        → IsInput input
        → HoldsEntry input
        → AreFit (step s input).outputs }
    ensures face { (s : ServerState) (input : Input)
        → IsLawful s
        → IsInput input
        → HoldsEntry input
        → face_changed (face_of s) (steps_by s input) (acked_by s input) ≡ face_of (step s input).state }
{}
