//! What calls came to, which contracts alone see.
ghost use Rattle.std.specs.Prelude.{◌≡◌, ◌∷◌, ◌++◌, List, []};
ghost use base.Fml.{ftrue};
ghost use Rattle.proto.specs.Turns.{Outcome, Refused, Replied};
ghost use Rattle.serving.specs.Codes.{coded_outcomes};

use std::marker::Model;
use table::Reply;

/// What a connection's calls came to. It takes no memory: `then` and `then_refused` do nothing when the program runs.
#[derive(Drop)]
pub struct Outcomes {
    pub ghost all: { List Outcome } by { coded_outcomes },
}

impl Model for Outcomes {
    ghost also_owns = { λ _. ftrue };
}

impl Outcomes {
    /// No call.
    pub fn new() -> Outcomes
        ensures { result.all ≡ [] }
    {
        Outcomes {}
    }

    /// These, and then a call that got this reply.
    pub fn then(&self, _reply: &Reply) -> Outcomes
        ensures { result.all ≡ self.now.all ++ Replied _reply.now ∷ [] }
    {
        Outcomes {}
    }

    /// These, and then a call that was refused.
    pub fn then_refused(&self) -> Outcomes
        ensures { result.all ≡ self.now.all ++ Refused ∷ [] }
    {
        Outcomes {}
    }
}
