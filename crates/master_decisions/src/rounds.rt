//! What a master wants of its servers and waits for, round by round: a machine that reads no clock and sends nothing.
ghost use Rattle.std.specs.Prelude.{◌≡◌, ◌↔◌, ◌++◌, ◌∷◌, ◌+◌, ◌%◌, ◌^◌, [], find, not, option_map, position, slice_set};
ghost use Rattle.std.specs.Prelude.{OnOk, true, false};
ghost use Rattle.std.specs.List.{list_any};
ghost use Rattle.node.specs.Servers.{without_first};
ghost use Rattle.master_decisions.specs.Firsts.{with_first};
ghost use Rattle.master_decisions.specs.ServerSets.{and_one, is_among, without};
ghost use Rattle.master_decisions.specs.Rounds.{
  answered,
  begun,
  has_number,
  is_about,
  is_done,
  matter_of,
  names,
  opened,
  waiting_to_tell,
  with_under_way,
};

use crate::decisions::Notice;
use crate::notices::Answer;
use crate::orders::named_in;
use crate::server_sets::{and_one, is_among, without};
use node::{SERVERS, View};
use std::alloc::{AllocError, Global};
use std::marker::Model;

/// What a round is about.
#[derive(Clone, Copy)]
pub enum Matter {
    /// The servers are greeted.
    Greeting,
    /// Whether this server, which a line of the input calls gone, still answers.
    Look(u8),
    /// A notice.
    Notice(Notice),
}

/// One round.
#[derive(Clone, Copy)]
pub struct Round {
    number: u32,
    matter: Matter,
    // Those that haven't answered.
    awaited: View,
    // What the others have answered, by their ids.
    answers: [Answer; SERVERS as usize],
}

impl Round {
    // Nothing was asked.
    fn new(number: u32, matter: Matter) -> Round
        ensures { result ≡ opened number matter }
    {
        Round {
            number,
            matter,
            awaited: View::empty(),
            answers: [Answer::Unasked; SERVERS as usize],
        }
    }

    /// Its number.
    pub fn number(&self) -> u32
        ensures { result ≡ self.now.number }
    {
        self.number
    }

    /// What it is about.
    pub fn matter(&self) -> Matter
        ensures { result ≡ self.now.matter }
    {
        self.matter
    }

    /// What the servers have answered, by their ids.
    pub fn answers(&self) -> &[Answer]
        ensures { result.now ≡ self.now.answers }
    {
        self.answers.as_slice()
    }

    /// Something is wanted of server `i`.
    pub fn asks(&mut self, i: u8)
        ensures { self.new ≡ record self.old { awaited = and_one self.old.awaited i } }
    {
        self.awaited = and_one(self.awaited, i);
    }

    // Whether each that was asked has answered.
    fn is_done(&self) -> bool
        ensures { result ≡ is_done self.now }
    {
        self.awaited.bits() == 0
    }

    // Whether it is about a notice of server j.
    fn names(&self, j: u8) -> bool
        ensures { result ≡ names self.now.matter j }
    {
        match self.matter {
            Matter::Notice(notice) => named_in(notice.order()) == Some(j),
            Matter::Greeting | Matter::Look(_) => false,
        }
    }

    // Server i has answered. The answer of the one that the notice names doesn't count.
    fn answer(&mut self, i: u8, answer: Answer)
        ensures { self.new ≡ answered i answer self.old }
    {
        self.awaited = without(self.awaited, i);
        if !self.names(i) {
            self.put(i, answer);
        }
    }

    // This came of asking server i.
    fn put(&mut self, i: u8, answer: Answer)
        ensures { self.new ≡ record self.old { answers = slice_set self.old.answers i answer } }
    {
        let i = usize::from(i);
        if i < self.answers.len() {
            self.answers[i] = answer;
        }
    }
}

/// The rounds that are under way.
#[derive(Drop)]
pub struct Rounds {
    // The number of the next one.
    next: u32,
    under_way: Vec<Round>,
    // The servers of which the others are to be told once more after a notice that is under way.
    again: View,
}

impl Model for Rounds {
    ghost use Rattle.master_decisions.specs.Rounds.{RoundsState};

    ghost Value = { RoundsState };

    ghost view = { λ r. record { next = r.next; under_way = r.under_way.items; again = r.again } };
}

impl Rounds {
    /// None is under way.
    pub fn new(alloc: Global) -> Rounds
        ensures { result ≡ begun }
    {
        Rounds {
            next: 1,
            under_way: Vec::new(alloc),
            again: View::empty(),
        }
    }

    /// Whether none is under way.
    pub fn is_empty(&self) -> bool
        ensures { (result ≡ true) ↔ (self.now.under_way ≡ []) }
    {
        self.under_way.is_empty()
    }

    /// A new one on this, in which nothing was asked yet. Its number is another one than those of the last 2^32.
    pub fn next(&mut self, matter: Matter) -> Round
        ensures round { result ≡ opened self.old.next matter }
        ensures state { self.new ≡ record self.old { next = (self.old.next + 1) % 2 ^ 32 } }
    {
        let round = Round::new(self.next, matter);
        self.next = self.next.wrapping_add(1);
        round
    }

    /// It is under way. Fails only if memory runs out.
    pub fn begin(&mut self, round: Round) -> Result<(), AllocError>
        ensures { OnOk result (self.new ≡ with_under_way self.old (self.old.under_way ++ round ∷ [])) }
    {
        self.under_way.push(round)?;
        Ok(())
    }

    /// Server `i` has answered in the round of this number. What that is about, if it is under way.
    pub fn answer(&mut self, number: u32, i: u8, answer: Answer) -> Option<Matter>
        ensures matter { result ≡ option_map matter_of (find (has_number number) self.old.under_way) }
        ensures state { self.new ≡ with_under_way self.old
            (with_first (has_number number) (answered i answer) self.old.under_way) }
    {
        let k = self.place_of(number)?;
        let matter = self.under_way[k].matter;
        self.under_way[k].answer(i, answer);
        Some(matter)
    }

    // Where the round of this number stands.
    fn place_of(&self, number: u32) -> Option<usize>
        ensures { result ≡ position (has_number number) self.now.under_way }
    {
        self.under_way
            .iter()
            .position(|round| round.number == number)
    }

    /// The first one that is done, if one is: each that was asked has answered. It is under way no more.
    pub fn take_done(&mut self) -> Option<Round>
        ensures done { result ≡ find is_done self.old.under_way }
        ensures state { self.new ≡ with_under_way self.old (without_first is_done self.old.under_way) }
    {
        let k = self.place_of_done()?;
        Some(self.under_way.remove(k))
    }

    // Where the first one stands that is done.
    fn place_of_done(&self) -> Option<usize>
        ensures { result ≡ position is_done self.now.under_way }
    {
        self.under_way.iter().position(|round| round.is_done())
    }

    /// Whether a notice of server `j` is under way.
    pub fn names(&self, j: u8) -> bool
        ensures { result ≡ list_any (is_about j) self.now.under_way }
    {
        self.under_way.iter().any(|round| round.names(j))
    }

    /// Whether the others may be told now once more that server `j` has failed. If a notice of it is under way they are
    /// told after that, if one of them still doesn't know.
    pub fn lets_again(&mut self, j: u8) -> bool
        ensures free { result ≡ not (list_any (is_about j) self.old.under_way) }
        ensures noted { result ≡ false → self.new ≡ waiting_to_tell self.old j }
        ensures kept { result ≡ true → self.new ≡ self.old }
    {
        if self.names(j) {
            self.again = and_one(self.again, j);
            return false;
        }
        true
    }

    /// A notice of server `j` is done. It tells whether the others are to be told once more.
    pub fn end(&mut self, j: u8) -> bool
        ensures again { result ≡ is_among self.old.again j }
        ensures told { self.new ≡ record self.old { again = without self.old.again j } }
    {
        let is_again = is_among(self.again, j);
        self.again = without(self.again, j);
        is_again
    }
}
