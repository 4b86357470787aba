//! The master's side: all that it does about one server of its chain.
ghost use Rattle.std.specs.Prelude.{◌≡◌, ◌<◌, ◌^◌};
ghost use Rattle.leases.specs.Sets.{is_apart};
ghost use Rattle.leases.specs.Watching.{done, is_watched};
ghost use Rattle.leases.specs.ServerRecords.{unmet, begun, lost, spared, named, is_of, entered_watch, reported};
ghost use Rattle.leases.specs.ServerRecords.{heard_it, heard_other, heard_from, watch_due_of, due_for};

use crate::orders::{Order, Report};
use crate::paces::Paces;
use crate::rolls::Roll;
use crate::watches::{Watch, WatchDue};
use std::marker::Model;

/// What is due for a server.
#[derive(Clone, Copy, Debug, PartialEq, Eq)]
pub enum Due {
    /// Nothing, for this many nanoseconds at most.
    Wait(u64),
    /// This is sent to the server.
    Server(Order),
    /// This is sent to the other servers that aren't gone. It is due as long as one of them doesn't know it.
    Others(Order),
}

/// What a master knows of one server. It is told of the reports of all servers, in the order in which they came. Times
/// are nanoseconds of the master's own clock, which never goes back.
#[derive(Debug, Drop)]
pub struct ServerRecord {
    id: u8,
    own: u16,
    others: u16,
    paces: Paces,
    epoch: u64,
    is_in: bool,
    seen: u16,
    end: u64,
    watch: Watch,
    roll: Roll,
}

impl Model for ServerRecord {
    ghost use Rattle.leases.specs.ServerRecords.{ServerRecordState};

    ghost Value = { ServerRecordState };

    ghost view = { λ w. record {
      id = w.id;
      own = w.own;
      others = w.others;
      beat = w.paces.beat;
      after = w.paces.after;
      epoch = w.epoch;
      is_in = w.is_in;
      seen = w.seen;
      end = w.end;
      watch = w.watch;
      roll = w.roll;
    } };
}

impl ServerRecord {
    /// The server of this id, in a chain that has these others, server i being the bit of value 2^i. Nothing is known
    /// of it, and the master has no epoch.
    pub fn new(id: u8, others: u16, paces: Paces) -> ServerRecord
        requires server { id < 16 }
        ensures { result ≡ unmet id others paces.beat paces.after }
    {
        let own = bit_of(id);
        ServerRecord {
            id,
            own,
            others,
            paces,
            epoch: 0,
            is_in: false,
            seen: 0,
            end: 0,
            watch: Watch::idle(paces),
            roll: Roll::new(own, others),
        }
    }

    /// The master has this epoch from now on, or none if it is 0: then the server is greeted with 0, which changes
    /// nothing there, and tells how it is. A server that is gone stays so.
    pub fn begin(&mut self, epoch: u64)
        ensures { self.new ≡ begun self.old epoch }
    {
        self.epoch = epoch;
        self.is_in = false;
        self.seen = 0;
        self.roll = Roll::new(self.own, self.others);
        if !self.watch.is_gone() {
            self.watch = Watch::idle(self.paces);
        }
    }

    /// The server with the id `from` told how it is, and then the clock showed `now`.
    pub fn hear(&mut self, from: u8, report: &Report, now: u64)
        requires server { from < 16 }
        ensures { self.new ≡ heard_from self.old from report.now now }
    {
        if report.gone & self.own != 0 {
            self.lose();
        }
        if from == self.id {
            self.hear_it(report, now);
        } else {
            self.hear_other(from, report);
        }
    }

    // It told how it is.
    fn hear_it(&mut self, report: &Report, now: u64)
        ensures { self.new ≡ heard_it self.old report.now now }
    {
        self.end = self.end.max(report.end);
        if self.is_of(report) {
            self.enter(report, now);
        }
    }

    // It told how it is, in the master's epoch.
    fn enter(&mut self, report: &Report, now: u64)
        ensures { self.new ≡ reported self.old report.now now }
    {
        if self.is_in {
            self.watch.answered(report.stamp, now);
        } else {
            self.begin_watch(report, now);
        }
        self.is_in = true;
        self.roll.knows(report.known);
    }

    // The watch over it begins, unless it is gone.
    fn begin_watch(&mut self, report: &Report, now: u64)
        ensures { self.new ≡ record self.old { watch = entered_watch self.old report.now now } }
    {
        if !self.watch.is_gone() {
            self.watch = Watch::new(report.term, self.paces, report.stamp, now);
        }
    }

    // Another one told how that is. What it knew at its first report in the epoch counts.
    fn hear_other(&mut self, from: u8, report: &Report)
        requires server { from < 16 }
        ensures { self.new ≡ heard_other self.old from report.now }
    {
        let other = bit_of(from);
        let gone = report.gone;
        if self.is_of(report) && self.seen & other == 0 {
            self.seen |= other;
            self.roll.enters(other, gone);
        }
    }

    // Whether who told that is in the master's epoch.
    fn is_of(&self, report: &Report) -> bool
        ensures { result ≡ is_of self.now report.now }
    {
        0 < self.epoch && report.epoch == self.epoch
    }

    /// It does nothing more: its host refused a new connection at once, or a person says so.
    pub fn lose(&mut self)
        ensures { self.new ≡ lost self.old }
    {
        self.watch.refused();
    }

    /// The master was cut off from all servers: this one isn't called silent before it answers once more.
    pub fn spare(&mut self)
        ensures { self.new ≡ spared self.old }
    {
        self.watch.spare();
    }

    /// Whether it wasn't called silent, and isn't gone.
    pub(crate) fn is_watched(&self) -> bool
        ensures { result ≡ is_watched self.now.watch.standing }
    {
        self.watch.is_watched()
    }

    /// When its lease ends, as far as it told; 0 at first.
    pub fn end(&self) -> u64
        ensures { result ≡ self.now.end }
    {
        self.end
    }

    /// What is due when the clock shows `now`. It counts as done.
    pub fn next(&mut self, now: u64) -> Due
        ensures due { result ≡ due_for self.old (watch_due_of self.old now) }
        ensures state { self.new ≡ record self.old { watch = done self.old.watch now (watch_due_of self.old now) } }
    {
        let whole = self.is_in && self.roll.is_whole();
        let watch_due = self.watch.next(whole, now);
        self.due_for(watch_due)
    }

    // What is sent, and to whom.
    fn due_for(&self, watch_due: WatchDue) -> Due
        ensures { result ≡ due_for self.now watch_due }
    {
        match watch_due {
            WatchDue::Wait(span) => Due::Wait(span),
            WatchDue::Beat(stamp) => Due::Server(if self.is_in {
                Order::Beat(self.epoch, stamp)
            } else {
                Order::Reign(self.epoch)
            }),
            WatchDue::TellServer => Due::Server(Order::Silent(self.epoch, self.id)),
            WatchDue::TellSilent => Due::Others(Order::Silent(self.epoch, self.id)),
            WatchDue::TellGone => Due::Others(Order::Gone(self.id)),
        }
    }
}

/// The bit of this server.
pub(crate) fn bit_of(id: u8) -> u16
    requires { id < 16 }
    ensures { result ≡ 2 ^ id }
{
    1 << id
}
