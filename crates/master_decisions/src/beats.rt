//! What a master that watches has for leases: the master machine by which it decides, and what was told of them.
ghost use Rattle.std.specs.Prelude.{◌≡◌, ◌<◌, ◌≤◌, ◌+◌, ◌^◌, ◌&&◌, length, min, nat_eq, not, true, false};
ghost use Rattle.std.specs.Prelude.{IfNone, IfOk, IfSome};
ghost use Rattle.leases.specs.MasterMachines.{
  after_asking,
  due_at,
  epoch_taken,
  given_up,
  is_followed_by,
  may_claim,
  patience_of,
  sparing,
  started,
  told as machine_told,
};
ghost use Rattle.master_decisions.specs.Attendance.{has_entered, is_absent, is_quiet, looked_at, pause_of};
ghost use Rattle.master_decisions.specs.Beats.{all_given_up, claimed, is_short, new_lease, reported, to_leave};
ghost use Rattle.master_decisions.specs.ServerSets.{and_one, is_among};

use crate::attendance::Attendance;
use crate::faults::MasterFault;
use crate::server_sets::{and_one, is_among, once};
use leases::{Due, MasterMachine, Paces, Reading, Report};
use node::{SERVERS, View};
use std::alloc::Global;

/// For this many nanoseconds at most a master that beats waits for news: a minute.
pub const LONGEST: u64 = 60_000_000_000;

/// The master machine of a chain, and what a person and the others were told. Times are nanoseconds of the master's own
/// clock, which its caller reads.
#[derive(Drop)]
pub struct Beats {
    master_machine: MasterMachine,
    paces: Paces,
    // The servers that were reached since they are watched.
    met: View,
    // The servers of whose silence the others were told, in this epoch and since a server was met.
    told: View,
    // Those of which it was told that they have leases, and that these are too short.
    leased: View,
    short: View,
    // Whom the master hears.
    attendance: Attendance,
}

impl Beats {
    /// Before the first order of the master of this name. Those that are gone do nothing more. Refused with Run if no
    /// chain has that many servers, and with Memory if memory runs out.
    pub fn new(
        alloc: Global,
        gone: View,
        name: u32,
        servers: u8,
        paces: Paces,
        reading: Reading<()>,
    ) -> Result<Beats, MasterFault>
        ensures chain { IfOk result (λ beats. servers ≤ 16) }
        ensures machine { IfOk result (λ beats. beats.master_machine ≡
            all_given_up gone servers (started name servers paces.beat paces.after reading.shown)) }
        ensures none { IfOk result (λ beats. (beats.met ≡ 0) × (beats.told ≡ 0) × (beats.leased ≡ 0)
            × (beats.short ≡ 0)) }
        ensures paces { IfOk result (λ beats. beats.paces ≡ paces) }
    {
        if servers > SERVERS {
            return Err(MasterFault::Run);
        }
        let now = reading.shown();
        let mut master_machine = MasterMachine::new(alloc, name, servers, paces, reading)?;
        give_up_all(&mut master_machine, gone, servers);
        Ok(Beats {
            master_machine,
            paces,
            met: View::empty(),
            told: View::empty(),
            leased: View::empty(),
            short: View::empty(),
            attendance: Attendance::new(now),
        })
    }

    /// A server told how it is, and then the clock was read. The master machine is told both. It tells whether another
    /// epoch has followed that of the master.
    pub fn told(&mut self, i: u8, reading: Reading<Report>) -> bool
        ensures followed { i < 16 → result ≡
            is_followed_by (sparing self.old.master_machine reading.shown) i reading.known reading.shown }
        ensures machine { i < 16
            → self.new.master_machine ≡ machine_told self.old.master_machine i reading.known reading.shown }
        ensures attendance { i < 16
            → self.new.attendance ≡ reported self.old.attendance i reading.known.epoch reading.shown result }
        ensures again { i < 16 → result ≡ true → self.new.told ≡ 0 }
        ensures beyond { 16 ≤ i → result ≡ false }
        ensures kept { 16 ≤ i → self.new ≡ self.old }
    {
        if i >= SERVERS {
            return false;
        }
        let report = reading.known();
        let now = reading.shown();
        let is_followed = self.master_machine.told(i, reading);
        if is_followed {
            self.told = View::empty();
        }
        self.attend(i, report.epoch, now, is_followed);
        is_followed
    }

    // Server i told that it is in this epoch, by which the master was followed, or not.
    fn attend(&mut self, i: u8, epoch: u64, now: u64, is_followed: bool)
        ensures { self.new ≡
            record self.old { attendance = reported self.old.attendance i epoch now is_followed } }
    {
        if is_followed {
            self.attendance.begin(0, now);
        }
        self.attendance.hear(i, epoch, now);
    }

    /// Whether server `i` has told before that it is in this epoch, which is the master's.
    pub fn has_entered(&self, i: u8, epoch: u64) -> bool
        ensures { result ≡ has_entered self.now.attendance i epoch }
    {
        self.attendance.has_entered(i, epoch)
    }

    /// How long the lease of server `i` runs, in nanoseconds, if it has one and that wasn't told yet. It counts as told
    /// then.
    pub fn new_lease(&mut self, i: u8, report: &Report) -> Option<u64>
        ensures lease { result ≡ new_lease self.old.leased i report.now.term }
        ensures noted { IfSome result (λ term. self.new ≡ record self.old { leased = and_one self.old.leased i }) }
        ensures kept { IfNone result (self.new ≡ self.old) }
    {
        let term = report.term?;
        if once(&mut self.leased, i) {
            Some(term.nanoseconds())
        } else {
            None
        }
    }

    /// Whether server `i` told that it has a lease.
    pub fn has_lease(&self, i: u8) -> bool
        ensures { result ≡ is_among self.now.leased i }
    {
        is_among(self.leased, i)
    }

    /// The server whose answers don't count any more, if this one is to be called gone: it is, if it has a lease and is
    /// one of those that answer. One that doesn't answer is silent anyway.
    pub fn to_leave(&self, to_go: Option<u8>, heard: View) -> Option<u8>
        ensures { result ≡ to_leave self.now.leased heard to_go }
    {
        match to_go {
            Some(j) if self.has_lease(j) && is_among(heard, j) => Some(j),
            _ => None,
        }
    }

    /// Whether the lease of server `i` is too short for these beats, and that wasn't told yet. It counts as told then.
    pub fn is_short(&mut self, i: u8, report: &Report) -> bool
        ensures short { result ≡ is_short self.old.paces.beat self.old.short i report.now.term }
        ensures noted { result ≡ true → self.new ≡ record self.old { short = and_one self.old.short i } }
        ensures kept { result ≡ false → self.new ≡ self.old }
    {
        let Some(term) = report.term else {
            return false;
        };
        if self.paces.keep_up(term) {
            return false;
        }
        once(&mut self.short, i)
    }

    /// Takes a new epoch, if the master is to by this reading of its clock. None if it isn't to, or if there is no such
    /// number below 2^64; then nothing changes.
    pub fn claim(&mut self, reading: Reading<()>) -> Option<u64>
        ensures due { IfSome result (λ epoch. may_claim self.old.master_machine reading.shown ≡ true) }
        ensures state { IfSome result (λ epoch. self.new ≡ claimed self.old epoch reading.shown) }
        ensures none { IfNone result (self.new ≡ self.old) }
        ensures missed { IfNone result (may_claim self.old.master_machine reading.shown ≡ true
            → 2 ^ 64 ≤ self.old.master_machine.claim.highest + 2 ^ 32) }
    {
        let now = reading.shown();
        let epoch = self.master_machine.claim(reading)?;
        self.told = View::empty();
        self.attendance.begin(epoch, now);
        Some(epoch)
    }

    /// The master looks, by this reading of its clock. For how many nanoseconds it stood still, if that made beats late:
    /// then the times of silence begin now, as the master machine has them.
    pub fn look(&mut self, reading: Reading<()>) -> Option<u64>
        ensures pause { result ≡ pause_of self.old.attendance
            (patience_of self.old.paces.beat self.old.paces.after) reading.shown }
        ensures state { self.new ≡ record self.old {
          attendance = looked_at self.old.attendance
              (patience_of self.old.paces.beat self.old.paces.after) reading.shown;
        } }
    {
        self.attendance
            .look(patience_of(self.paces), reading.shown())
    }

    /// For how many nanoseconds at most the master waits for news before it looks again: not longer than a beat, so
    /// that it sees when it stood still.
    pub fn pause(&self) -> u64
        ensures { result ≡ min self.now.paces.beat LONGEST }
    {
        self.paces.beat.min(LONGEST)
    }

    /// Whether it is told now that no server was heard for as long as one may be silent. It counts as told then.
    pub fn is_quiet(&mut self, reading: Reading<()>) -> bool
        ensures quiet { result ≡ is_quiet self.old.attendance self.old.paces.after reading.shown }
        ensures noted { result ≡ true → self.new.attendance ≡ record self.old.attendance { is_told = true } }
        ensures kept { result ≡ false → self.new ≡ self.old }
    {
        self.attendance.is_quiet(self.paces.after, reading.shown())
    }

    /// Whether it is told now that server `i`, which isn't gone, has entered the epoch not within the time for which it
    /// may be silent: then no lease is prolonged, if there are any. It counts as told then.
    pub fn misses(&mut self, i: u8, reading: Reading<()>) -> bool
        ensures told { result ≡ (not (nat_eq self.old.leased 0)
            && (is_absent self.old.attendance i self.old.paces.after reading.shown
            && not (is_among self.old.attendance.missed i))) }
        ensures noted { result ≡ true → self.new.attendance ≡
            record self.old.attendance { missed = and_one self.old.attendance.missed i } }
        ensures kept { result ≡ false → self.new ≡ self.old }
    {
        if self.leased.bits() == 0 {
            return false;
        }
        self.attendance.misses(i, self.paces.after, reading.shown())
    }

    /// What is due for server `i`, by this reading of the clock. It counts as done. For a server that the chain hasn't
    /// nothing ever is.
    pub fn due(&mut self, i: u8, reading: Reading<()>) -> Due
        ensures due { i < length self.old.master_machine.server_records → result ≡
            due_at (sparing self.old.master_machine reading.shown).server_records i reading.shown }
        ensures state { self.new ≡ record self.old {
          master_machine = after_asking self.old.master_machine i reading.shown;
        } }
    {
        self.master_machine.next(i, reading)
    }

    /// For how many nanoseconds nothing is due if the clock can't be read: for a beat.
    pub fn beat(&self) -> u64
        ensures { result ≡ self.now.paces.beat }
    {
        self.paces.beat
    }

    /// Server `j` does nothing more. Nothing changes if no chain has it.
    pub fn lose(&mut self, j: u8)
        ensures lost { j < 16
            → self.new ≡ record self.old { master_machine = given_up self.old.master_machine j } }
        ensures beyond { 16 ≤ j → self.new ≡ self.old }
    {
        if j < SERVERS {
            self.master_machine.lose(j);
        }
    }

    /// Whether server `i` was met.
    pub fn has_met(&self, i: u8) -> bool
        ensures { result ≡ is_among self.now.met i }
    {
        is_among(self.met, i)
    }

    /// Whether the others are to be told now that server `j` was silent: once in an epoch, and once more whenever a
    /// server was met. It counts as told then.
    pub fn tells_silence(&mut self, j: u8) -> bool
        ensures first { result ≡ not (is_among self.old.told j) }
        ensures noted { result ≡ true → self.new ≡ record self.old { told = and_one self.old.told j } }
        ensures kept { result ≡ false → self.new ≡ self.old }
    {
        once(&mut self.told, j)
    }

    /// Server `i` was met by its watch. It may not know who was silent.
    pub fn met(&mut self, i: u8)
        ensures { self.new ≡ record self.old { met = and_one self.old.met i; told = 0 } }
    {
        self.met = and_one(self.met, i);
        self.told = View::empty();
    }

    /// For how many nanoseconds a server may be silent.
    pub fn after(&self) -> u64
        ensures { result ≡ self.now.paces.after }
    {
        self.paces.after
    }
}

// Each of these servers of a chain of that many does nothing more.
fn give_up_all(master_machine: &mut MasterMachine, gone: View, servers: u8)
    requires chain { servers ≤ 16 }
    ensures { master_machine.new ≡ all_given_up gone servers master_machine.old }
{
    for i in 0..servers {
        if is_among(gone, i) {
            master_machine.lose(i);
        }
    }
}

// If the master looked for the last time so long ago, beats go out too late: as its master machine has it.
fn patience_of(paces: Paces) -> u64
    ensures { result ≡ patience_of paces.beat paces.after }
{
    paces.beat + (paces.after - paces.beat) / 2
}
