//! A look at all servers of a chain, and what it says of each.
ghost use Rattle.std.specs.Prelude.{◌≡◌, false, OnOk, OnErr};
ghost use Rattle.chain_status.specs.Answers as answers;
ghost use Rattle.chain_status.specs.Roles as roles;
ghost use Rattle.chain_status.specs.Looks as looks;

use crate::answers::{ServerAnswer, report_in, view_in};
use crate::rates::{Rates, rates_between};
use crate::reports::ServerReport;
use crate::roles::{Role, last_below, role_of};
use std::alloc::{AllocError, Global};
use std::marker::Model;

/// The most servers of a chain.
pub const SERVERS: u8 = 16;

/// A look at a chain: what came of asking each of its servers, by their ids, and when that was, in nanoseconds. A chain
/// has 16 servers at most.
#[derive(Drop)]
pub struct ChainLook {
    answers: Vec<ServerAnswer>,
    time: u64,
}

impl Model for ChainLook {
    ghost use Rattle.std.specs.Prelude.{◌≤◌, length};
    ghost use Rattle.chain_status.specs.Looks.{Look};

    ghost Value = { Look };

    ghost view = { λ l. record { answers = l.answers.items; time = l.time } };

    ghost invariant = { λ l. length l.answers.items ≤ 16 };
}

impl ChainLook {
    /// A look at this time that has found nothing yet. It allocates nothing.
    pub fn new(alloc: Global, time: u64) -> ChainLook
        ensures { result ≡ looks.begun time }
    {
        ChainLook {
            answers: Vec::new(alloc),
            time,
        }
    }

    /// Whether it has the answers of 16 servers.
    pub fn is_full(&self) -> bool
        ensures { result ≡ looks.is_full self.now }
    {
        self.answers.len() >= usize::from(SERVERS)
    }

    /// The answer of the next server, by its id. Refused only if memory is out.
    pub fn add(&mut self, answer: ServerAnswer) -> Result<(), AllocError>
        requires room { looks.is_full self.old ≡ false }
        ensures ok { OnOk result (self.new ≡ looks.with_answer self.old answer) }
        ensures err { OnErr result (self.new ≡ self.old) }
    {
        self.answers.push(answer)?;
        Ok(())
    }

    /// How many servers it is of.
    pub fn servers(&self) -> u8
        ensures { result ≡ looks.servers_of self.now }
    {
        self.answers.len() as u8
    }

    /// What came of asking server i, if it is of that.
    pub fn answer(&self, i: u8) -> Option<ServerAnswer>
        ensures { result ≡ looks.answer_at self.now i }
    {
        self.answers.get(usize::from(i)).copied()
    }

    /// What server i said of itself, if it did.
    pub fn report(&self, i: u8) -> Option<ServerReport>
        ensures { result ≡ answers.report_at self.now.answers i }
    {
        match self.answer(i) {
            Some(answer) => report_in(answer),
            None => None,
        }
    }

    /// Those that any server knows to be gone.
    pub fn gone(&self) -> u16
        ensures { result ≡ answers.gone_by self.now.answers }
    {
        let mut gone = 0;
        for answer in &self.answers {
            gone |= view_in(*answer);
        }
        gone
    }

    /// The place of server i in the chain.
    pub fn role(&self, i: u8) -> Role
        ensures { result ≡ looks.role_at self.now i }
    {
        role_of(self.gone(), self.servers(), i)
    }

    /// How far the commit number of server i is behind that of the tail. None if one of the two said nothing.
    pub fn behind(&self, i: u8) -> Option<u64>
        ensures { result ≡ looks.behind_at self.now i }
    {
        match (self.report(i), self.tail()) {
            (Some(own), Some(tail)) => Some(tail.committed.saturating_sub(own.committed)),
            _ => None,
        }
    }

    // What the tail said of itself, if there is one, and it did.
    fn tail(&self) -> Option<ServerReport>
        ensures { result ≡ looks.tail_report self.now }
    {
        match last_below(self.gone(), self.servers()) {
            Some(tail) => self.report(tail),
            None => None,
        }
    }

    /// How many calls a second server i has answered since an earlier look. None if one of the two looks has no report
    /// of it, if they are of two starts, or if this look isn't later.
    pub fn rates(&self, earlier: &ChainLook, i: u8) -> Option<Rates>
        ensures { result ≡ looks.rates_at earlier.now self.now i }
    {
        if self.time <= earlier.time {
            return None;
        }
        match (earlier.report(i), self.report(i)) {
            (Some(before), Some(after)) => {
                rates_between(&before, &after, self.time - earlier.time)
            }
            _ => None,
        }
    }
}
