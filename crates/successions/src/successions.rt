//! The member's side: what it has accepted, and which orders it obeys.
ghost use Rattle.std.specs.Prelude.{◌≡◌};
ghost use Rattle.successions.specs.Lists.{is_same};
ghost use Rattle.successions.specs.Successions.{
  SuccessionState,
  serving,
  started,
  entered,
  is_own,
  is_quiet,
  sealed,
  resumed,
  switched,
  opened,
  obeyed,
  counted,
  report_of,
  begins_updates,
};

use crate::members::{Acceptance, Members};
use crate::orders::{Order, Phase, Report, Standing};
use std::marker::Model;

/// What a member of a generation knows of it, and of the next one. It reads nothing and sends nothing: its caller hands
/// it orders, and sends what it reports.
#[derive(Debug, Drop)]
pub struct Succession {
    epoch: u64,
    generation: u64,
    own: Members,
    phase: Phase,
    resumed: u64,
    given: u64,
}

impl Model for Succession {
    ghost use Rattle.successions.specs.Successions.{SuccessionState};

    ghost Value = { SuccessionState };

    ghost view = { λ m. record {
      epoch = m.epoch;
      generation = m.generation;
      own = m.own;
      phase = m.phase;
      resumed = m.resumed;
      given = m.given;
    } };
}

impl Succession {
    /// A member of this generation, which has these members and is open from the start on.
    pub fn serving(generation: u64, own: Members) -> Succession
        ensures { result ≡ serving generation own }
    {
        Succession {
            epoch: 0,
            generation,
            own,
            phase: Phase::Serving,
            resumed: 0,
            given: 0,
        }
    }

    /// A member of this generation, which has these members and isn't open yet.
    pub fn started(generation: u64, own: Members) -> Succession
        ensures { result ≡ started generation own }
    {
        Succession {
            epoch: 0,
            generation,
            own,
            phase: Phase::Started,
            resumed: 0,
            given: 0,
        }
    }

    /// A master of this epoch greeted it: it is in that epoch, unless it is in a later one.
    pub fn enter(&mut self, epoch: u64)
        ensures { self.new ≡ entered self.old epoch }
    {
        self.epoch = self.epoch.max(epoch);
    }

    /// An order came, while its table is so. It obeys one of the epoch that it is in and of its own generation, and
    /// reports how it is then, whatever the order was.
    ///
    /// - `Seal`: it accepts these as the next members, if it serves or is sealed already, unless this epoch had it go
    ///   on before.
    /// - `Resume`: if it is sealed it goes on, and has accepted nothing.
    /// - `Switch`: if it is sealed, has accepted just these, and its table is quiet with just so many updates, it has
    ///   left its generation for good.
    /// - `Open`: if it is started, and these are its generation's members, it serves.
    /// - `Poll`: nothing.
    pub fn hear(&mut self, order: Order, standing: Standing) -> Report
        ensures state { self.new ≡ counted (obeyed self.old order standing) }
        ensures report { result ≡ report_of (counted (obeyed self.old order standing)) standing }
    {
        self.obey(order, standing);
        self.report(standing)
    }

    /// It reports, while its table is so. Once it has switched its caller hands it how the table was with which it
    /// left: a later master that goes on with the switch takes the count from there.
    pub fn report(&mut self, standing: Standing) -> Report
        ensures state { self.new ≡ counted self.old }
        ensures report { result ≡ report_of (counted self.old) standing }
    {
        self.given = self.given.saturating_add(1);
        Report {
            number: self.given,
            epoch: self.epoch,
            generation: self.generation,
            phase: self.phase,
            standing,
        }
    }

    /// Whether it begins updates. If not, updates of clients wait unbegun; reads go on until it has switched.
    pub fn begins_updates(&self) -> bool
        ensures { result ≡ begins_updates self.now.phase }
    {
        match self.phase {
            Phase::Serving => true,
            Phase::Started | Phase::Sealed(_) | Phase::Switched(_) => false,
        }
    }

    // It does what an order says, if that is to be obeyed.
    fn obey(&mut self, order: Order, standing: Standing)
        ensures { self.new ≡ obeyed self.old order standing }
    {
        match order {
            Order::Seal(epoch, generation, next) => self.seal(epoch, generation, next),
            Order::Resume(epoch, generation) => self.resume(epoch, generation),
            Order::Poll(_) => {}
            Order::Switch(epoch, generation, next, count) => {
                self.switch_to(epoch, generation, next, count, standing);
            }
            Order::Open(epoch, generation, own) => self.open(epoch, generation, own),
        }
    }

    // Whether an order is of its epoch and its generation.
    fn is_own(&self, epoch: u64, generation: u64) -> bool
        ensures { result ≡ is_own self.now epoch generation }
    {
        epoch == self.epoch && generation == self.generation
    }

    // It accepts who is next.
    fn seal(&mut self, epoch: u64, generation: u64, next: Members)
        ensures { self.new ≡ sealed self.old epoch generation next }
    {
        if self.is_own(epoch, generation) && epoch != self.resumed && is_sealable(self.phase) {
            self.phase = Phase::Sealed(Acceptance { epoch, next });
        }
    }

    // It goes on.
    fn resume(&mut self, epoch: u64, generation: u64)
        ensures { self.new ≡ resumed self.old epoch generation }
    {
        if self.is_own(epoch, generation) && is_sealed(self.phase) {
            self.phase = Phase::Serving;
            self.resumed = epoch;
        }
    }

    // It switches to what it has accepted.
    fn switch_to(
        &mut self,
        epoch: u64,
        generation: u64,
        next: Members,
        count: u64,
        standing: Standing,
    )
        ensures { self.new ≡ switched self.old epoch generation next count standing }
    {
        if self.is_own(epoch, generation) {
            self.phase = switched_to(self.phase, next, standing, count);
        }
    }

    // Its generation is open.
    fn open(&mut self, epoch: u64, generation: u64, own: Members)
        ensures { self.new ≡ opened self.old epoch generation own }
    {
        if self.is_own(epoch, generation) && are_same(own, self.own) && is_started(self.phase) {
            self.phase = Phase::Serving;
        }
    }
}

ghost use Rattle.successions.specs.Successions as phases;

// Whether it may accept who is next.
fn is_sealable(phase: Phase) -> bool
    ensures { result ≡ phases.is_sealable phase }
{
    match phase {
        Phase::Serving | Phase::Sealed(_) => true,
        Phase::Started | Phase::Switched(_) => false,
    }
}

// Whether it has accepted who is next, and may still go on.
fn is_sealed(phase: Phase) -> bool
    ensures { result ≡ phases.is_sealed phase }
{
    match phase {
        Phase::Sealed(_) => true,
        Phase::Started | Phase::Serving | Phase::Switched(_) => false,
    }
}

// Whether it isn't open yet.
fn is_started(phase: Phase) -> bool
    ensures { result ≡ phases.is_started phase }
{
    match phase {
        Phase::Started => true,
        Phase::Serving | Phase::Sealed(_) | Phase::Switched(_) => false,
    }
}

// What it is at after an order to switch.
fn switched_to(phase: Phase, next: Members, standing: Standing, count: u64) -> Phase
    ensures { result ≡ phases.switched_to phase next standing count }
{
    match phase {
        Phase::Sealed(acceptance) => {
            if are_same(acceptance.next, next) && is_quiet(standing, count) {
                Phase::Switched(acceptance)
            } else {
                phase
            }
        }
        Phase::Started | Phase::Serving | Phase::Switched(_) => phase,
    }
}

// Whether a table is whole and quiet, of so many updates.
pub(crate) fn is_quiet(standing: Standing, count: u64) -> bool
    ensures { result ≡ is_quiet standing count }
{
    standing.idle && standing.last == count && standing.committed == count
}

// Whether these are the same members.
pub(crate) fn are_same(one: Members, other: Members) -> bool
    ensures { result ≡ is_same one.processes other.processes }
{
    one == other
}
