//! Whose answers a master that reigns doesn't count, so that the lease of that server ends and it is called gone: a
//! rule that reads no clock and sends nothing.
ghost use Rattle.std.specs.Prelude.{◌≡◌, ◌<◌, ◌&&◌, ℕ};
ghost use Rattle.master_decisions.specs.Attendance.{has_entered};
ghost use Rattle.master_decisions.specs.Leaving.{is_left, left_by, nobody_left, remains};
ghost use Rattle.master_decisions.specs.ServerSets.{and_one, is_among};

use crate::beats::Beats;
use crate::server_sets::{and_one, is_among};
use node::{SERVERS, View};

/// Whose answers don't count. A server that isn't heard is silent, and is called gone as one that is: it is told, and
/// ends; and else once its lease is surely over.
#[derive(Drop)]
pub struct Leaving {
    left: Option<u8>,
    // Those that were told, in this reign, that they are gone.
    told: View,
}

impl Leaving {
    /// Each answer counts.
    pub fn new() -> Leaving
        ensures { result ≡ nobody_left }
    {
        Leaving {
            left: None,
            told: View::empty(),
        }
    }

    /// Another reign begins, or the master has none any more: each answer counts.
    pub fn begin(&mut self)
        ensures { self.new ≡ nobody_left }
    {
        self.left = None;
        self.told = View::empty();
    }

    /// From now on the answers of this server don't count, if it is to go; and no others. As long as one that was told
    /// that it is gone isn't, each answer counts: one server goes at a time.
    pub fn decide(&mut self, to_go: Option<u8>, living: View)
        ensures { self.new ≡ record self.old { left = left_by self.old.told living to_go } }
    {
        self.left = if self.told.bits() & living.bits() == 0 {
            to_go
        } else {
            None
        };
    }

    /// Server `i` was told that it is gone.
    pub fn tell(&mut self, i: u8)
        ensures { self.new ≡ record self.old { told = and_one self.old.told i } }
    {
        self.told = and_one(self.told, i);
    }

    /// Those of these servers that weren't told that they are gone.
    pub fn remaining(&self, living: View) -> View
        ensures { (i : ℕ) → i < 16 → is_among result i ≡ remains self.now.told living i }
    {
        let mut remaining = View::empty();
        for i in 0..SERVERS {
            if self.remains(living, i) {
                remaining = and_one(remaining, i);
            }
        }
        remaining
    }

    // Whether server i is one of these, and wasn't told that it is gone.
    fn remains(&self, living: View, i: u8) -> bool
        ensures { result ≡ remains self.now.told living i }
    {
        is_among(living, i) && !is_among(self.told, i)
    }

    /// Whether the answers of server `i` don't count, if the master reigns and the server has entered its reign.
    pub fn is_left(&self, i: u8) -> bool
        ensures { result ≡ is_left self.now i }
    {
        self.left == Some(i)
    }

    /// Whether this answer of server `i` doesn't count, which is in this epoch. Nobody has to be heard less than that
    /// it has entered the reign: else no lease would be prolonged in it.
    pub fn passes_over(&self, beats: &Beats, i: u8, epoch: u64) -> bool
        ensures { result ≡ (is_left self.now i && has_entered beats.now.attendance i epoch) }
    {
        self.is_left(i) && beats.has_entered(i, epoch)
    }
}
