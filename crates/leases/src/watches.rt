//! The master's side: a watch over one server.
ghost use Rattle.std.specs.Prelude.{◌≡◌, ℕ};
ghost use Rattle.leases.specs.Watching.{due, done, answered, watched_due, told_due, is_silent, is_watched, is_gone};
ghost use Rattle.leases.specs.Watching.{begun_watch, idle_watch, spared_watch, gives_up, is_late, since_beat};

use crate::paces::Paces;
use crate::terms::Term;
use std::marker::Model;

/// How a watched server stands with its master.
#[derive(Clone, Copy, Debug, PartialEq, Eq)]
pub enum WatchStanding {
    /// It gets beats.
    Watched,
    /// It was told that it is gone, and gets no beat any more.
    Told,
    /// Its lease is surely over.
    Over,
    /// It does nothing more.
    Gone,
}

/// What is due.
#[derive(Clone, Copy, Debug, PartialEq, Eq)]
pub enum WatchDue {
    /// Nothing, for this many nanoseconds at most.
    Wait(u64),
    /// A beat, which brings back this stamp. A beat without a stamp is answered, and prolongs nothing.
    Beat(Option<u64>),
    /// The server is told that it is gone.
    TellServer,
    /// The others are told that it was silent until its lease was surely over. This is due as long as one of them
    /// doesn't know it.
    TellSilent,
    /// The others are told that it does nothing more. This is due as long as one of them doesn't know it.
    TellGone,
}

/// What a master knows of one server that has entered its epoch. Times are nanoseconds of the master's own clock, which
/// never goes back.
#[derive(Debug, Drop)]
pub struct Watch {
    term: Option<Term>,
    beat: u64,
    after: u64,
    heard: u64,
    // Its silence counts from then on: when it was heard, or when a beat was sent too late.
    since: u64,
    stamp: u64,
    sent: u64,
    standing: WatchStanding,
    // It isn't called silent before it answers once more.
    is_spared: bool,
}

impl Model for Watch {
    ghost use Rattle.leases.specs.Watching.{WatchState};

    ghost Value = { WatchState };

    ghost view = { λ w. record {
      term = w.term;
      beat = w.beat;
      after = w.after;
      heard = w.heard;
      since = w.since;
      stamp = w.stamp;
      sent = w.sent;
      standing = w.standing;
      spared = w.is_spared;
    } };
}

impl Watch {
    ghost use Rattle.leases.specs.declared.watches.WatchStanding.TheVariants.{Gone};

    /// A watch over a server with a lease of this term, or with none, which has entered the master's epoch and answered
    /// that with this stamp. Then the clock showed `now`.
    pub fn new(term: Option<Term>, paces: Paces, stamp: u64, now: u64) -> Watch
        ensures { result ≡ begun_watch term paces.beat paces.after stamp now }
    {
        Watch {
            term,
            beat: paces.beat,
            after: paces.after,
            heard: now,
            since: now,
            stamp,
            sent: now,
            standing: WatchStanding::Watched,
            is_spared: false,
        }
    }

    /// The watch over a server that isn't in the epoch: a beat is due each time that a pace has passed, and nothing
    /// else.
    pub(crate) fn idle(paces: Paces) -> Watch
        ensures { result ≡ idle_watch paces.beat paces.after }
    {
        Watch {
            term: None,
            beat: paces.beat,
            after: paces.after,
            heard: 0,
            since: 0,
            stamp: 0,
            sent: 0,
            standing: WatchStanding::Watched,
            is_spared: false,
        }
    }

    /// The server answered a beat with this stamp, and then the clock showed `now`. Once it was told that it is gone,
    /// that does nothing.
    pub fn answered(&mut self, stamp: u64, now: u64)
        ensures { self.new ≡ answered self.old stamp now }
    {
        if self.standing == WatchStanding::Watched {
            self.heard = self.heard.max(now);
            self.since = self.since.max(now);
            self.stamp = stamp;
            self.is_spared = false;
        }
    }

    /// Its master was cut off from all servers: it isn't called silent before it answers once more.
    pub fn spare(&mut self)
        ensures { self.new ≡ spared_watch self.old }
    {
        self.is_spared = true;
    }

    /// Its host refused a new connection at once: its process has ended. Or a person, or another server, says that it
    /// is gone. So no lease has to run out.
    pub fn refused(&mut self)
        ensures { self.new ≡ record self.old { standing = Gone } }
    {
        self.standing = WatchStanding::Gone;
    }

    /// Whether it gets beats: it wasn't called silent, and isn't gone.
    pub(crate) fn is_watched(&self) -> bool
        ensures { result ≡ is_watched self.now.standing }
    {
        self.standing == WatchStanding::Watched
    }

    /// Whether it does nothing more.
    pub(crate) fn is_gone(&self) -> bool
        ensures { result ≡ is_gone self.now.standing }
    {
        self.standing == WatchStanding::Gone
    }

    /// What is due when the clock shows `now`. It counts as done. `whole` says whether the master's epoch is whole for
    /// this server (`Roll::is_whole`): only then may a beat prolong its lease. Silence is noticed whenever this is
    /// called, but if the master itself is late with a beat, as one that was stopped: then the silence counts from that
    /// beat on, since nobody answers beats that aren't sent. It is not noticed of a server that is spared.
    pub fn next(&mut self, whole: bool, now: u64) -> WatchDue
        ensures watch_due { result ≡ due self.old whole now }
        ensures state { self.new ≡ done self.old now result }
    {
        let watch_due = self.due(whole, now);
        match watch_due {
            WatchDue::Wait(_) => {}
            WatchDue::Beat(_) => {
                self.since = self.since_beat(now);
                self.sent = now;
            }
            WatchDue::TellServer => self.standing = WatchStanding::Told,
            WatchDue::TellSilent => self.standing = WatchStanding::Over,
            WatchDue::TellGone => {}
        }
        watch_due
    }

    // What is due.
    fn due(&self, whole: bool, now: u64) -> WatchDue
        ensures { result ≡ due self.now whole now }
    {
        match self.standing {
            WatchStanding::Watched => self.watched_due(
                whole,
                now.saturating_sub(self.since),
                now.saturating_sub(self.sent),
            ),
            WatchStanding::Told => self.told_due(now.saturating_sub(self.heard)),
            WatchStanding::Over => WatchDue::TellSilent,
            WatchStanding::Gone => WatchDue::TellGone,
        }
    }

    // What is due for a server that is watched, if it was silent for so long, and this much has passed since the last
    // beat.
    fn watched_due(&self, whole: bool, silence: u64, pause: u64) -> WatchDue
        ensures { result ≡ watched_due self.now whole silence pause }
    {
        if self.gives_up(silence, pause) {
            WatchDue::TellServer
        } else if self.beat <= pause {
            WatchDue::Beat(if whole { Some(self.stamp) } else { None })
        } else {
            WatchDue::Wait(self.beat - pause)
        }
    }

    // What is due for a server that was told.
    fn told_due(&self, silence: u64) -> WatchDue
        ensures { result ≡ told_due self.now.term self.now.beat silence }
    {
        match self.term {
            None => WatchDue::Wait(self.beat),
            Some(term) => {
                let wait = term.wait();
                if wait <= silence {
                    WatchDue::TellSilent
                } else {
                    WatchDue::Wait(wait - silence)
                }
            }
        }
    }

    // Whether it is called silent.
    fn gives_up(&self, silence: u64, pause: u64) -> bool
        ensures { result ≡ gives_up self.now silence pause }
    {
        self.is_silent(silence) && !self.is_late(pause) && !self.is_spared
    }

    // Whether the master is late with a beat, if this much has passed since the last one.
    fn is_late(&self, pause: u64) -> bool
        ensures { result ≡ is_late self.now pause }
    {
        self.after.saturating_sub(self.beat) / 2 <= pause.saturating_sub(self.beat)
    }

    // From when on its silence counts once a beat is sent.
    fn since_beat(&self, now: u64) -> u64
        ensures { result ≡ since_beat self.now now }
    {
        if self.is_late(now.saturating_sub(self.sent)) {
            now
        } else {
            self.since
        }
    }

    // Whether it wasn't heard for too long. Without a lease that says nothing.
    fn is_silent(&self, silence: u64) -> bool
        ensures { result ≡ is_silent self.now.term self.now.after silence }
    {
        match self.term {
            None => false,
            Some(_) => self.after <= silence,
        }
    }
}
