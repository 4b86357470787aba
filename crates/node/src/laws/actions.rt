//! The law of single actions: what a step is made of.
ghost use Rattle.node.specs.declared.messages.Input.{Input};
ghost use Rattle.node.specs.Servers.{ServerState};
ghost use Rattle.node.specs.Steps.{step};
ghost use Rattle.node.specs.Lawful.{IsInput, HoldsEntry, IsLawful};
ghost use Rattle.node.specs.Actions.{IsWhole};

/// Each step of a lawful server is a list of the actions of `specs/Actions.antt`, one after another. Each is done by a
/// sound server in its turn, and what its guard says is known then. After the last nothing is due any more: the
/// successor was sent every entry, the predecessor was told the commit number, calls and reads were sent where
/// they are to go, and what the input says was taken in.
pub fn steps_are_actions()
    ensures { (s : ServerState) (input : Input)
        → IsLawful s
        → IsInput input
        → HoldsEntry input
        → IsWhole input s (step s input) }
{}
