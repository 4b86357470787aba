//! The server's side: a lease, the epoch whose beats prolong it, and what masters are answered.
ghost use Rattle.std.specs.Prelude.{◌≡◌, ◌≤◌, ◌↔◌, IsTrue};
ghost use Rattle.leases.specs.Holding.{unheld, holds, learned, entered, beaten, end_from, obeyed, noticed, heeded};
ghost use Rattle.leases.specs.Holding.{report_of, answer_to};

use crate::orders::{Answer, Order, Report};
use crate::readings::Reading;
use crate::terms::Term;
use std::marker::Model;

/// A server's lease. Times are nanoseconds of the server's own clock, which never goes back.
#[derive(Debug, Drop)]
pub struct Lease {
    term: Option<Term>,
    epoch: u64,
    end: u64,
    known: u16,
}

impl Model for Lease {
    ghost use Rattle.leases.specs.Holding.{LeaseState};

    ghost Value = { LeaseState };

    ghost view = { λ l. record { term = l.term; epoch = l.epoch; end = l.end; known = l.known } };
}

impl Lease {
    /// The lease of a server that has just started: it holds from the first beat on that brings back a stamp. Without a
    /// term it always holds.
    pub fn new(term: Option<Term>) -> Lease
        ensures { result ≡ unheld term }
    {
        Lease {
            term,
            epoch: 0,
            end: 0,
            known: 0,
        }
    }

    /// What the server does with an order and answers to it, by a reading of its clock after it knew who is gone,
    /// server i being the bit of value 2^i. The reading is taken once the order is here, and all earlier ones were
    /// heard. Who calls takes a notice (`Answer::Notes`) before the next order is heard, so that no answer hides what
    /// the server was told.
    pub fn hear(&mut self, order: Order, reading: Reading<u16>) -> Answer
        ensures state { self.new ≡ heeded self.old order reading.known reading.shown }
        ensures answer { result ≡ answer_to self.old order reading.known reading.shown }
    {
        let gone = reading.known();
        let now = reading.shown();
        let noticed = self.noticed(order);
        self.obey(order, now);
        self.learn(gone, now);
        match noticed {
            None => Answer::Tells(self.report(gone, now)),
            Some(id) => Answer::Notes(id),
        }
    }

    // Enters an epoch, or takes a beat.
    fn obey(&mut self, order: Order, now: u64)
        ensures { self.new ≡ obeyed self.old order now }
    {
        match order {
            Order::Reign(epoch) => {
                self.enter(epoch);
            }
            Order::Beat(epoch, stamp) => {
                if let Some(stamp) = stamp {
                    self.beat(epoch, stamp, now);
                }
            }
            Order::Silent(_, _) => {}
            Order::Gone(_) => {}
        }
    }

    // The server of which an order tells, if this is a notice to be taken.
    fn noticed(&self, order: Order) -> Option<u8>
        ensures { result ≡ noticed self.now order }
    {
        match order {
            Order::Reign(_) => None,
            Order::Beat(_, _) => None,
            Order::Silent(epoch, id) => { if epoch == self.epoch { Some(id) } else { None } }
            Order::Gone(id) => Some(id),
        }
    }

    // How the server is that knows these to be gone, when its clock shows `now`.
    fn report(&self, gone: u16, now: u64) -> Report
        ensures { result ≡ report_of self.now gone now }
    {
        Report {
            epoch: self.epoch,
            stamp: now,
            end: self.end,
            term: self.term,
            gone,
            known: self.known,
        }
    }

    /// A master of this epoch greets. The server enters it, unless it is in a later one, and says whether it is in it
    /// now.
    pub fn enter(&mut self, epoch: u64) -> bool
        ensures state { self.new ≡ entered self.old epoch }
        ensures is_in { IsTrue result ↔ (self.old.epoch ≤ epoch) }
    {
        if self.epoch <= epoch {
            self.epoch = epoch;
            return true;
        }
        false
    }

    /// Whether it takes beats of this epoch, and its notices that others were silent.
    pub fn is_of(&self, epoch: u64) -> bool
        ensures { IsTrue result ↔ (epoch ≡ self.now.epoch) }
    {
        epoch == self.epoch
    }

    // A beat came, of this epoch and with this stamp, and then the clock showed `now`. The lease runs its term from the
    // stamp on, which is what this server answered to an earlier beat: not from `now`, since a beat may have lain
    // somewhere, while its master waited for the lease to run out. A beat of another epoch does nothing, and so does
    // one with a stamp that the clock can't have shown yet.
    fn beat(&mut self, epoch: u64, stamp: u64, now: u64)
        ensures { self.new ≡ beaten self.old epoch stamp now }
    {
        if epoch == self.epoch && stamp <= now {
            self.end = self.end.max(end_from(self.term, stamp));
        }
    }

    /// When it ends. Others may ask for that by a `SharedLease`.
    pub fn end(&self) -> u64
        ensures { result ≡ self.now.end }
    {
        self.end
    }

    /// Whether it holds. The clock is read after a look and before its reply is written, or after a reply or a message
    /// was made up and before it is put out. If the answer is no, nothing is put out: it may wait until the lease holds
    /// again, by a later reading.
    pub fn is_held(&self, now: u64) -> bool
        ensures { result ≡ holds self.now now }
    {
        match self.term {
            None => true,
            Some(_) => now < self.end,
        }
    }

    // The server knew these servers to be gone, server i being the bit of value 2^i, and then the clock showed `now`:
    // if the lease held, none of them was ever told that this server is gone.
    fn learn(&mut self, gone: u16, now: u64)
        ensures { self.new ≡ learned self.old gone now }
    {
        if self.is_held(now) {
            self.known |= gone;
        }
    }

    /// The servers that it knew to be gone while its lease held. A master needn't ask these.
    pub fn known(&self) -> u16
        ensures { result ≡ self.now.known }
    {
        self.known
    }
}

// When a lease ends that runs from this stamp on.
fn end_from(term: Option<Term>, stamp: u64) -> u64
    ensures { result ≡ end_from term stamp }
{
    match term {
        None => stamp,
        Some(term) => stamp.saturating_add(term.nanoseconds()),
    }
}
