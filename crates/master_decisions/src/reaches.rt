//! What the thread of a server has decided about it: which start of it is known, and what its watch makes of what it
//! sees. A machine that reads no clock and sends nothing.
ghost use Rattle.std.specs.Prelude.{◌≡◌, ◌&&◌, true, false};
ghost use Rattle.master_decisions.specs.Standings.{due, is_same_start, standing_after, watches};
ghost use Rattle.master_decisions.specs.Reaches.{
  answered_with,
  entered,
  is_accepted,
  is_met,
  is_watching,
  news_by,
  news_of,
  opening_by,
  unmet,
  watched,
};

use crate::news::{Answered, News};
use crate::notices::Answer;
use crate::openings::Opening;
use crate::standings::{
    Observation, ReachStanding, Reaction, due, is_same_start, standing_after, watches,
};

/// How a server stands with the thread that has the connection to it.
#[derive(Clone, Copy)]
pub struct Reach {
    standing: ReachStanding,
    // Whether the master has said that it is watched.
    is_to_watch: bool,
    // The number of its start, once it was reached, and who is gone as far as it told then.
    start: Option<u64>,
    gone: u16,
    // Whether a connection has ended while it was watched, and none was opened since.
    has_lost: bool,
}

impl Reach {
    /// Of a server that wasn't spoken to.
    pub fn new() -> Reach
        ensures { result ≡ unmet }
    {
        Reach {
            standing: ReachStanding::Unmet,
            is_to_watch: false,
            start: None,
            gone: 0,
            has_lost: false,
        }
    }

    /// It is to be watched from now on. If it was reached before, that counts.
    pub fn begin_watch(&mut self)
        ensures { self.new ≡ watched self.old }
    {
        self.is_to_watch = true;
        if self.start.is_some() {
            self.standing = ReachStanding::Watched;
        }
    }

    /// Whether it is watched: not once it is gone.
    pub fn is_watching(&self) -> bool
        ensures { result ≡ is_watching self.now }
    {
        watches(self.is_to_watch, self.standing)
    }

    /// Whether it was reached, and nothing was told since: then a try to connect that is neither accepted nor refused is
    /// made again soon.
    pub fn is_met(&self) -> bool
        ensures { result ≡ is_met self.now.standing }
    {
        match self.standing {
            ReachStanding::Watched => true,
            ReachStanding::Unmet | ReachStanding::Lost | ReachStanding::Gone => false,
        }
    }

    /// This start of it has accepted a connection, and told who is gone: server i is the bit of value 2^i. Another start
    /// than is known is passed over.
    pub fn enter(&mut self, start: u64, gone: u16) -> Opening
        ensures opening { result ≡ opening_by self.old.start start }
        ensures state { self.new ≡ entered self.old start gone }
    {
        if !is_same_start(self.start, start) {
            return Opening::Anew;
        }
        self.start = Some(start);
        self.gone = gone;
        Opening::Accepted
    }

    /// The connection has ended. It tells whether that is news: not of a server that isn't watched.
    pub fn lose(&mut self) -> bool
        ensures news { result ≡ is_watching self.old }
        ensures noted { result ≡ true → self.new ≡ record self.old { has_lost = true } }
        ensures kept { result ≡ false → self.new ≡ self.old }
    {
        if !self.is_watching() {
            return false;
        }
        self.has_lost = true;
        true
    }

    /// Whether what was ordered before is passed over, now that the server is seen so: once it is reached again after a
    /// connection has ended. What the master orders now that it is has room then.
    pub fn passes_over(&mut self, observation: Observation) -> bool
        ensures first { result ≡ (is_accepted observation && self.old.has_lost) }
        ensures noted { result ≡ true → self.new ≡ record self.old { has_lost = false } }
        ensures kept { result ≡ false → self.new ≡ self.old }
    {
        if !is_accepted(observation) || !self.has_lost {
            return false;
        }
        self.has_lost = false;
        true
    }

    /// The watch sees the server `id` so. What is new then, if something is: it is called gone if it was reached and its
    /// process has ended, and in no other case.
    pub fn see(&mut self, id: u8, observation: Observation) -> Option<News>
        ensures news { result ≡ news_by id self.old observation }
        ensures state { self.new ≡
            record self.old { standing = standing_after self.old.standing (due self.old.standing observation) } }
    {
        let reaction = due(self.standing, observation);
        self.standing = standing_after(self.standing, reaction);
        self.news_of(id, reaction)
    }

    // What is new if this is due.
    fn news_of(&self, id: u8, reaction: Reaction) -> Option<News>
        ensures { result ≡ news_of id self.now reaction }
    {
        match reaction {
            Reaction::Wait => None,
            Reaction::TellMet => Some(News::Met(id, self.start.unwrap_or(0), self.gone)),
            Reaction::TellLost => Some(News::Lost(id)),
            Reaction::CallGone => Some(News::Ended(id)),
        }
    }

    /// An answer in this round, with what is known of the server.
    pub fn answered(&self, round: u32, answer: Answer) -> Answered
        ensures { result ≡ answered_with self.now round answer }
    {
        Answered {
            round,
            answer,
            start: self.start,
            gone: self.gone,
        }
    }
}

// Whether the server has accepted a connection.
fn is_accepted(observation: Observation) -> bool
    ensures { result ≡ is_accepted observation }
{
    match observation {
        Observation::Accepted => true,
        Observation::Stands
        | Observation::Refused
        | Observation::Replaced
        | Observation::Unreached => false,
    }
}
