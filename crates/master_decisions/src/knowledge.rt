//! What a master knows of its servers: their starts, and who has failed.
ghost use Rattle.std.specs.Prelude.{◌≡◌, ◌<◌, ℕ, length, nat_eq, not, replicate, true, false, IfOk};
ghost use Rattle.master_decisions.specs.ServerSets.{is_among};
ghost use Rattle.master_decisions.specs.Knowledge.{
  facts_of,
  facts_with,
  has_not_said,
  is_known_start,
  is_living,
  is_untold,
  known_of,
  learned,
  lost,
  met_by,
  noted_by,
  nothing,
  told_by,
  with_noted,
};

use crate::decisions::Facts;
use crate::news::News;
use crate::server_sets::{and_one, is_among};
use crate::standings::is_same_start;
use node::{SERVERS, View};
use std::alloc::{AllocError, Global};
use std::marker::Model;

// What is known of one server.
#[derive(Clone, Copy)]
struct Known {
    // The number of its start, once it has accepted the master.
    start: Option<u64>,
    // The servers that have failed, as far as it told or has noted: server i is the bit of value 2^i.
    gone: u16,
}

impl Known {
    // Nothing.
    fn nothing() -> Known
        ensures { result ≡ nothing }
    {
        Known {
            start: None,
            gone: 0,
        }
    }

    // This start of it has accepted a connection, and told who has failed. Another start than is known is passed over.
    fn met(self, start: u64, gone: u16) -> Known
        ensures { result ≡ met_by self start gone }
    {
        if !is_same_start(self.start, start) {
            return self;
        }
        Known {
            start: Some(start),
            gone: self.gone | gone,
        }
    }

    // It told who has failed as far as it knows.
    fn told(self, gone: u16) -> Known
        ensures { result ≡ told_by self gone }
    {
        Known {
            start: self.start,
            gone: self.gone | gone,
        }
    }

    // It has noted that server j has failed.
    fn noted(self, j: u8) -> Known
        ensures { result ≡ noted_by self j }
    {
        Known {
            start: self.start,
            gone: and_one(View::from_bits(self.gone), j).bits(),
        }
    }

    // Whether it has accepted the master, and neither told that it knows that server j has failed nor noted it.
    fn has_not_said(self, j: u8) -> bool
        ensures { result ≡ has_not_said self j }
    {
        self.start.is_some() && !is_among(View::from_bits(self.gone), j)
    }
}

/// What is known of all servers.
#[derive(Drop)]
pub struct Knowledge {
    // The servers that are known to have failed.
    gone: View,
    // All servers, by their ids.
    servers: Vec<Known>,
}

impl Model for Knowledge {
    ghost use Rattle.master_decisions.specs.Knowledge.{KnowledgeState};

    ghost Value = { KnowledgeState };

    ghost view = { λ k. record { gone = k.gone; servers = k.servers.items } };
}

impl Knowledge {
    /// Nothing is known of the servers of a chain of that many. Fails only if memory runs out.
    pub fn new(alloc: Global, servers: u8) -> Result<Knowledge, AllocError>
        ensures gone { IfOk result (λ knowledge. knowledge.gone ≡ 0) }
        ensures servers { IfOk result (λ knowledge. knowledge.servers ≡ replicate servers nothing) }
    {
        let mut all = Vec::new(alloc);
        for _ in 0..servers {
            all.push(Known::nothing())?;
        }
        Ok(Knowledge {
            gone: View::empty(),
            servers: all,
        })
    }

    /// The servers that are known to have failed.
    pub fn gone(&self) -> View
        ensures { result ≡ self.now.gone }
    {
        self.gone
    }

    /// Whether server `i` is known to have failed.
    pub fn is_gone(&self, i: u8) -> bool
        ensures { result ≡ is_among self.now.gone i }
    {
        is_among(self.gone, i)
    }

    /// Whether a server is left that isn't known to have failed.
    pub fn has_living(&self) -> bool
        ensures some { result ≡ true → (i : ℕ) × (is_living self.now i ≡ true) }
        ensures none { result ≡ false → (i : ℕ) → i < 16 → is_living self.now i ≡ false }
    {
        for i in 0..SERVERS {
            if self.is_living(i) {
                return true;
            }
        }
        false
    }

    /// The servers of the chain that aren't known to have failed.
    pub fn living(&self) -> View
        ensures { (i : ℕ) → i < 16 → is_among result i ≡ is_living self.now i }
    {
        let mut living = View::empty();
        for i in 0..SERVERS {
            if self.is_living(i) {
                living = and_one(living, i);
            }
        }
        living
    }

    // Whether server i is one of the chain, and isn't known to have failed.
    fn is_living(&self, i: u8) -> bool
        ensures { result ≡ is_living self.now i }
    {
        usize::from(i) < self.servers.len() && !self.is_gone(i)
    }

    // What is known of server i.
    fn known(&self, i: u8) -> Known
        ensures { result ≡ known_of self.now.servers i }
    {
        let i = usize::from(i);
        if i < self.servers.len() {
            self.servers[i]
        } else {
            Known::nothing()
        }
    }

    // This is known of server i from now on: so it is known who has failed as far as that one says.
    fn learn(&mut self, i: u8, known: Known)
        ensures { self.new ≡ learned self.old i known }
    {
        let i = usize::from(i);
        if i < self.servers.len() {
            self.servers[i] = known;
            self.gone = self.gone.union(View::from_bits(known.gone));
        }
    }

    /// What is known, of no news, if the master watches, or doesn't.
    pub fn facts(&self, watches: bool) -> Facts
        ensures { result ≡ facts_of self.now watches }
    {
        Facts {
            watches,
            gone: self.gone,
            is_known_start: false,
        }
    }

    /// What is known when there is this news.
    pub fn facts_with(&self, watches: bool, news: &News) -> Facts
        ensures { result ≡ facts_with self.now watches news.now }
    {
        Facts {
            watches,
            gone: self.gone,
            is_known_start: self.is_known_start(news),
        }
    }

    // Whether the news is that the start of a server has accepted a connection which is known.
    fn is_known_start(&self, news: &News) -> bool
        ensures { result ≡ is_known_start self.now.servers news.now }
    {
        match news {
            News::Met(i, start, _) => self.known(*i).start == Some(*start),
            _ => false,
        }
    }

    /// Server `j` has failed.
    pub fn lose(&mut self, j: u8)
        ensures { self.new ≡ lost self.old j }
    {
        self.gone = and_one(self.gone, j);
    }

    /// This start of server `i` has accepted a connection, and told who has failed: server j is the bit of value 2^j.
    /// Another start than is known is passed over.
    pub fn met(&mut self, i: u8, start: u64, gone: u16)
        ensures { self.new ≡ learned self.old i (met_by (known_of self.old.servers i) start gone) }
    {
        let known = self.known(i).met(start, gone);
        self.learn(i, known);
    }

    /// Server `i` told who has failed as far as it knows: server j is the bit of value 2^j. It tells whether that is
    /// news.
    pub fn told(&mut self, i: u8, gone: u16) -> bool
        ensures state { self.new ≡ learned self.old i (told_by (known_of self.old.servers i) gone) }
        ensures news { result ≡ not (nat_eq self.new.gone self.old.gone) }
    {
        let before = self.gone.bits();
        let known = self.known(i).told(gone);
        self.learn(i, known);
        self.gone.bits() != before
    }

    /// Server `i` has noted that server `j` has failed, or was silent: so it is known now.
    pub fn noted(&mut self, i: u8, j: u8)
        ensures { self.new ≡ lost (with_noted self.old i j) j }
    {
        self.note(i, j);
        self.lose(j);
    }

    // Server i has noted that server j has failed.
    fn note(&mut self, i: u8, j: u8)
        ensures { self.new ≡ with_noted self.old i j }
    {
        let known = self.known(i).noted(j);
        let i = usize::from(i);
        if i < self.servers.len() {
            self.servers[i] = known;
        }
    }

    /// Whether server `j` is known to have failed, and a server that was reached and hasn't failed didn't say that it
    /// knows.
    pub fn is_untold(&self, j: u8) -> bool
        ensures gone { result ≡ true → is_among self.now.gone j ≡ true }
        ensures some { result ≡ true → (i : ℕ) × (is_untold self.now j i ≡ true) }
        ensures none { result ≡ false → is_among self.now.gone j ≡ true
            → (i : ℕ) → i < 16 → is_untold self.now j i ≡ false }
    {
        if !self.is_gone(j) {
            return false;
        }
        self.has_untold(j)
    }

    // Whether a server that was reached and hasn't failed didn't say that it knows that server j has.
    fn has_untold(&self, j: u8) -> bool
        ensures some { result ≡ true → (i : ℕ) × (is_untold self.now j i ≡ true) }
        ensures none { result ≡ false → (i : ℕ) → i < 16 → is_untold self.now j i ≡ false }
    {
        for i in 0..SERVERS {
            if self.is_one_untold(j, i) {
                return true;
            }
        }
        false
    }

    // Whether server i is one.
    fn is_one_untold(&self, j: u8, i: u8) -> bool
        ensures { result ≡ is_untold self.now j i }
    {
        !self.is_gone(i) && self.known(i).has_not_said(j)
    }
}
