//! Those who answer calls.
ghost use Rattle.std.specs.Prelude.{◌≡◌, ℕ, ◌+◌, not, IfOk, MatchResult};
ghost use Rattle.table.specs.Operations.{Fits, Suits, is_update, is_value};

use crate::calls::CallFault;
use std::sync::Wait;
use table::{Op, Reply, Target};

/// One who answers calls, one after another: a table, a seat at a server, or anything else.
pub trait Caller {
    ghost use Rattle.table.specs.declared.operations.Call.{Call};
    ghost use Rattle.table.specs.declared.operations.Reply.{Reply};

    /// What holds of its value before a call, the call, the reply, and its value after it.
    ghost answers: { Self → Call → Reply → Self → Type 0 };

    /// How many of its calls have failed.
    ghost failures: { Self → ℕ };

    /// Answers a call: by an item, or none, exactly if it is a read. It fails if it answers an error. It may wait.
    fn call<R: Wait>(&mut self, rt: &R, target: &Target, op: &Op) -> Result<Reply, CallFault>
        requires fits { Fits op.now }
        requires suits { Suits target.now op.now }
        ensures answered { IfOk result (λ reply.
            answers self.old (record { target = target.now; op = op.now }) reply self.new) }
        ensures kind { IfOk result (λ reply. is_value reply ≡ not (is_update op.now)) }
        ensures counted { MatchResult result
            (λ _. failures self.new ≡ failures self.old)
            (λ _. failures self.new ≡ failures self.old + 1) };
}
