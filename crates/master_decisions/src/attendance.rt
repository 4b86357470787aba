//! Whom a master that beats hears: since when nobody, and who isn't in its epoch; and whether it stood still itself. A
//! person reads of all three.
ghost use Rattle.std.specs.Prelude.{◌≡◌, ◌&&◌, not, true, false};
ghost use Rattle.master_decisions.specs.Attendance.{
  attended,
  begun,
  has_entered,
  is_absent,
  is_late,
  is_quiet,
  looked_at,
  pause_of,
};
ghost use Rattle.master_decisions.specs.ServerSets.{and_one, is_among};

use crate::server_sets::{and_one, is_among, once};
use node::View;

/// Whom a master hears. Times are nanoseconds of its clock.
#[derive(Drop)]
pub(crate) struct Attendance {
    // The master's epoch, or 0 if it has none, and since when.
    epoch: u64,
    since: u64,
    // The servers that told how they are in it.
    entered: View,
    // Those of which it was told that they aren't.
    missed: View,
    // When a server was heard for the last time, and whether it was told that none is.
    heard: u64,
    is_told: bool,
    // When it looked for the last time.
    looked: u64,
}

impl Attendance {
    /// Of a master that has just started, when its clock shows `now`.
    pub(crate) fn new(now: u64) -> Attendance
        ensures epoch { result.epoch ≡ 0 }
        ensures heard { result.heard ≡ now }
        ensures looked { result.looked ≡ now }
    {
        Attendance {
            epoch: 0,
            since: now,
            entered: View::empty(),
            missed: View::empty(),
            heard: now,
            is_told: false,
            looked: now,
        }
    }

    /// The master has this epoch from now on, or none if it is 0.
    pub(crate) fn begin(&mut self, epoch: u64, now: u64)
        ensures { self.new ≡ begun self.old epoch now }
    {
        self.epoch = epoch;
        self.since = now;
        self.entered = View::empty();
        self.missed = View::empty();
    }

    /// Server `i` told that it is in this epoch, and then the clock showed `now`.
    pub(crate) fn hear(&mut self, i: u8, epoch: u64, now: u64)
        ensures { self.new ≡ attended self.old i epoch now }
    {
        self.heard = self.heard.max(now);
        self.is_told = false;
        if self.epoch == epoch {
            self.entered = and_one(self.entered, i);
        }
    }

    /// Whether server `i` has told before that it is in this epoch, which is the master's.
    pub(crate) fn has_entered(&self, i: u8, epoch: u64) -> bool
        ensures { result ≡ has_entered self.now i epoch }
    {
        0 < epoch && self.epoch == epoch && is_among(self.entered, i)
    }

    /// It looks when its clock shows `now`. For how long it stood still, if it looked for the last time so long ago:
    /// nobody could be heard meanwhile, so the times of silence begin now.
    pub(crate) fn look(&mut self, patience: u64, now: u64) -> Option<u64>
        ensures pause { result ≡ pause_of self.old patience now }
        ensures state { self.new ≡ looked_at self.old patience now }
    {
        let is_late = self.is_late(patience, now);
        let pause = now.saturating_sub(self.looked);
        self.looked = now;
        if !is_late {
            return None;
        }
        self.since = self.since.max(now);
        self.heard = self.heard.max(now);
        Some(pause)
    }

    // Whether it looked for the last time so long ago.
    fn is_late(&self, patience: u64, now: u64) -> bool
        ensures { result ≡ is_late self.now patience now }
    {
        patience <= now.saturating_sub(self.looked)
    }

    /// Whether it is told now that server `i` isn't in the master's epoch, which has stood for this long: once in each
    /// epoch.
    pub(crate) fn misses(&mut self, i: u8, patience: u64, now: u64) -> bool
        ensures told { result ≡ (is_absent self.old i patience now && not (is_among self.old.missed i)) }
        ensures noted { result ≡ true → self.new ≡ record self.old { missed = and_one self.old.missed i } }
        ensures kept { result ≡ false → self.new ≡ self.old }
    {
        if !self.is_absent(i, patience, now) {
            return false;
        }
        once(&mut self.missed, i)
    }

    // Whether the epoch has stood for so long, and this server didn't tell that it is in it.
    fn is_absent(&self, i: u8, patience: u64, now: u64) -> bool
        ensures { result ≡ is_absent self.now i patience now }
    {
        0 < self.epoch && patience <= now.saturating_sub(self.since) && !is_among(self.entered, i)
    }

    /// Whether it is told now that no server was heard for this long: once, until one is.
    pub(crate) fn is_quiet(&mut self, patience: u64, now: u64) -> bool
        ensures told { result ≡ is_quiet self.old patience now }
        ensures state { result ≡ true → self.new ≡ record self.old { is_told = true } }
        ensures kept { result ≡ false → self.new ≡ self.old }
    {
        if !self.is_unheard(patience, now) {
            return false;
        }
        self.is_told = true;
        true
    }

    // Whether no server was heard for so long, and that wasn't told.
    fn is_unheard(&self, patience: u64, now: u64) -> bool
        ensures { result ≡ is_quiet self.now patience now }
    {
        !self.is_told && patience <= now.saturating_sub(self.heard)
    }
}
