//! A lease that threads share: one renews it, and any may ask whether it holds.
ghost use Rattle.std.specs.Prelude.{◌≡◌, ◌<◌, ◌≤◌, IfOk, IfErr, IsTrue, true, false, ⊤};
ghost use Rattle.leases.specs.Shared.{is_timed, HasLater, HasOver};

use crate::leases::Lease;
use crate::terms::Term;
use std::sync::atomic::{AtomicIn, Ordering, Rule};

/// Ends of which nothing is said.
pub struct AnyEnd;

impl Rule for AnyEnd {
    ghost invariant = { λ end. ⊤ };
}

/// When a lease ends, for those who ask without a lock. Another thread may renew it at any time, so no clause can say
/// when that is. But whatever is true of each end that the lease had is true of the one that is found: this is the rule
/// `I`, which whoever renews it keeps. Who needs none takes `AnyEnd`.
///
/// It may be asked before the renewal or after it, and the clock may be read before that or after: the law
/// `looks_before_tellings` asks only that it is read after the look.
#[derive(Drop)]
pub struct SharedLease<I: Rule> {
    // Whether there is a term. Else it always holds.
    is_timed: bool,
    // When it ends.
    end: AtomicIn<I>,
}

impl<I: Rule> SharedLease<I> {
    /// The lease of a server that has just started.
    pub fn new(term: Option<Term>) -> SharedLease<I>
        requires start { I.invariant 0 }
        ensures timed { result.is_timed ≡ is_timed term }
    {
        SharedLease {
            is_timed: term.is_some(),
            end: AtomicIn::new(0),
        }
    }

    /// The lease has heard an order (`Lease::hear`). Who calls this holds the lock under which the lease is, so that
    /// ends are published in the order in which they were made.
    pub fn renew(&self, lease: &Lease)
        requires end { I.invariant lease.now.end }
    {
        self.end.store(lease.end(), Ordering::SeqCst);
    }

    /// Whether a clock has to be read to ask whether it holds.
    pub fn is_timed(&self) -> bool
        ensures { result ≡ self.now.is_timed }
    {
        self.is_timed
    }

    /// Whether it holds, if the clock shows `now`. Without a term it always does.
    pub fn is_held(&self, now: u64) -> bool
        ensures untimed { self.now.is_timed ≡ false → IsTrue result }
        ensures timed { IsTrue result → self.now.is_timed ≡ true → HasLater (λ end. I.invariant end) now }
        ensures over { result ≡ false → HasOver (λ end. I.invariant end) now }
    {
        if !self.is_timed {
            return true;
        }
        match self.end_after(now) {
            Ok(_) => true,
            Err(_) => false,
        }
    }

    /// When it ends, if that is later than `now`. Otherwise when it ended is the error.
    pub fn end_after(&self, now: u64) -> Result<u64, u64>
        ensures ok { IfOk result (λ end. I.invariant end) }
        ensures later { IfOk result (λ end. now < end) }
        ensures err { IfErr result (λ end. I.invariant end) }
        ensures over { IfErr result (λ end. end ≤ now) }
    {
        let end = self.end.load(Ordering::SeqCst);
        if now < end { Ok(end) } else { Err(end) }
    }
}
