//! What the threads of a server ask before they put anything out.
ghost use Rattle.std.specs.Prelude.{◌≡◌, ◌<◌, IsTrue, true, ℕ};
ghost use Rattle.leases.specs.Shared.{HasLater};

use ends::Passed;
use leases::{AnyEnd, SharedLease, nanoseconds_of};
use std::alloc::{AllocError, Global};
use std::marker::Model;
use std::sync::Arc;
use std::sync::atomic::Rule;
use std::time::Clock;

/// What may hold back a server's output: its lease, or nothing. Contracts see whether it is held by a lease.
#[derive(Drop)]
pub struct OutputPermit {
    // A lease that may end.
    lease: Option<Arc<SharedLease<AnyEnd>, Global>>,
}

/// Leave to put out what was made up before it was given. Only an output permit gives one, and who writes takes it.
/// Contracts see the bytes.
#[derive(Drop)]
pub struct Permit {
    // What was due when the output permit was asked. It takes no memory.
    due: Passed,
}

impl Model for Permit {
    ghost use Rattle.std.specs.Prelude.{ℕ, List};

    ghost Value = { List ℕ };

    ghost view = { λ p. p.due };
}

impl Permit {
    // For these bytes.
    fn of(due: &[u8]) -> Permit
        ensures { result ≡ due.now }
    {
        let mut permit = Permit { due: Passed::new() };
        permit.due.add(due);
        permit
    }
}

impl Model for OutputPermit {
    ghost use Rattle.std.specs.Prelude.{Bool, is_some};

    ghost Value = { Bool };

    ghost view = { λ l. is_some l.lease };
}

impl OutputPermit {
    ghost use Rattle.std.specs.Prelude.{◌≡◌, IfOk, IfSome, IsSome, true, false};
    ghost use Rattle.std.specs.Arc.{arc_value};

    /// Of a server without a lease: nothing holds it back.
    pub fn without_lease() -> OutputPermit
        ensures { result ≡ false }
    {
        OutputPermit { lease: None }
    }

    /// Of a server with this lease, which holds it back only if it has a term.
    pub fn by_lease(lease: Arc<SharedLease<AnyEnd>, Global>) -> OutputPermit
        ensures { result ≡ (arc_value lease).is_timed }
    {
        if lease.is_timed() {
            OutputPermit { lease: Some(lease) }
        } else {
            drop(lease);
            OutputPermit { lease: None }
        }
    }

    /// The same, for another thread. Refused only when out of memory.
    pub fn share(&self) -> Result<OutputPermit, AllocError>
        ensures { IfOk result (λ output_permit. output_permit ≡ self.now) }
    {
        match &self.lease {
            Some(lease) => Ok(OutputPermit {
                lease: Some(Arc::try_clone(lease)?),
            }),
            None => Ok(OutputPermit { lease: None }),
        }
    }

    /// Leave to put out these bytes, which were made up before this call. If nothing holds the server back it is given,
    /// and no clock is read. Else it is given exactly if the clock can be read now, and the lease holds by that reading.
    /// What may not be put out is to wait, and this to be asked again.
    pub fn lets<C: Clock>(&self, clock: &C, due: &[u8]) -> Option<Permit>
        ensures without_lease { self.now ≡ false → IsSome result }
        ensures due { IfSome result (λ permit. permit ≡ due.now) }
    {
        if self.is_open(clock) {
            Some(Permit::of(due))
        } else {
            None
        }
    }

    // Whether anything may be put out now.
    fn is_open<C: Clock>(&self, clock: &C) -> bool
        ensures { self.now ≡ false → result ≡ true }
    {
        match &self.lease {
            Some(lease) => holds_now(lease, clock),
            None => true,
        }
    }
}

// Whether a reading can be taken now by which the lease holds.
fn holds_now<I: Rule, C: Clock>(lease: &SharedLease<I>, clock: &C) -> bool
    ensures { IsTrue result → lease.now.is_timed ≡ true → (now : ℕ) × HasLater (λ end. I.invariant end) now }
{
    match clock.monotonic() {
        Ok(reading) => lease.is_held(nanoseconds_of(reading)),
        Err(_) => false,
    }
}
