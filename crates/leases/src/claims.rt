//! The master's side: which epoch is its own, and when it takes a new one.
ghost use Rattle.std.specs.Prelude.{◌≡◌, ◌≤◌, ◌<◌, ◌+◌, ◌%◌, ◌^◌, IfSome, IfNone};
ghost use Rattle.leases.specs.Claims.{unclaimed, informed, is_reigning, is_vacant, is_due, claimed};

use crate::epochs::next_epoch;
use crate::orders::Report;
use crate::paces::Paces;
use std::marker::Model;

/// What a master knows of epochs. Times are nanoseconds of the master's own clock.
#[derive(Debug, Drop)]
pub struct Claim {
    name: u32,
    after: u64,
    epoch: u64,
    highest: u64,
    moved: u64,
}

impl Model for Claim {
    ghost use Rattle.leases.specs.Claims.{ClaimState};

    ghost Value = { ClaimState };

    ghost view = { λ c. record {
      name = c.name;
      after = c.after;
      epoch = c.epoch;
      highest = c.highest;
      moved = c.moved;
    } };
}

impl Claim {
    /// A master of this name that has just started, when the clock shows `now`. No two masters have the same name.
    pub fn new(name: u32, paces: Paces, now: u64) -> Claim
        ensures { result ≡ unclaimed name paces.after now }
    {
        Claim {
            name,
            after: paces.after,
            epoch: 0,
            highest: 0,
            moved: now,
        }
    }

    /// A server told how it is, whose lease ended at `last` when it was heard before (0 at first), and then the clock
    /// showed `now`.
    pub fn informed(&mut self, report: &Report, last: u64, now: u64)
        ensures { self.new ≡ informed self.old report.now last now }
    {
        self.highest = self.highest.max(report.epoch);
        if last < report.end {
            self.moved = self.moved.max(now);
        }
    }

    /// Its own epoch; 0 before the first.
    pub fn epoch(&self) -> u64
        ensures { result ≡ self.now.epoch }
    {
        self.epoch
    }

    /// Whether its epoch is the last one, as far as it knows. If not, it sends beats without stamps, so that it hears
    /// how the servers are.
    pub fn is_reigning(&self) -> bool
        ensures { result ≡ is_reigning self.now }
    {
        0 < self.epoch && self.epoch == self.highest
    }

    /// Whether it is to take a new epoch when the clock shows `now`; `met` says whether it has met each server that
    /// isn't gone. A master that starts takes one once it has; so it doesn't end the epoch of another one that waits
    /// for a silent server. One that was followed by another takes one once nobody prolongs leases any more.
    pub fn is_due(&self, met: bool, now: u64) -> bool
        ensures { result ≡ is_due self.now met now }
    {
        if self.is_reigning() {
            return false;
        }
        self.epoch == 0 && met || self.is_vacant(now)
    }

    // Whether no master sends beats.
    fn is_vacant(&self, now: u64) -> bool
        ensures { result ≡ is_vacant self.now now }
    {
        self.after <= now.saturating_sub(self.moved)
    }

    /// Takes a new epoch when the clock shows `now`: the next one that is above all that it has seen, and its own. What
    /// it knew of who has entered begins anew. None if there is no such number below 2^64; then nothing changes.
    pub fn claim(&mut self, now: u64) -> Option<u64>
        ensures above { IfSome result (λ epoch. self.old.highest < epoch) }
        ensures own { IfSome result (λ epoch. epoch % 2 ^ 32 ≡ self.old.name) }
        ensures state { IfSome result (λ epoch. self.new ≡ claimed self.old epoch now) }
        ensures none { IfNone result ((2 ^ 64 ≤ self.old.highest + 2 ^ 32) × (self.new ≡ self.old)) }
    {
        let epoch = next_epoch(self.highest, self.name)?;
        self.epoch = epoch;
        self.highest = epoch;
        self.moved = now;
        Some(epoch)
    }
}
