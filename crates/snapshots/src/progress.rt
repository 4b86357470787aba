//! How far a snapshot was written or read.
ghost use Rattle.std.specs.Prelude.{◌≡◌, ◌++◌, ◌<◌};
ghost use Rattle.snapshots.specs.Progress.{nothing, opened, with_number};
ghost use Rattle.snapshots.specs.Sums.{sum_of};

use crate::sums::Tally;
use crate::texts::head;
use std::marker::Model;

/// The bytes so far, as their sum; the number of the last row; and how many rows there were.
#[derive(Drop)]
pub struct Passage {
    bytes: Tally,
    last: u64,
    rows: u64,
}

impl Model for Passage {
    ghost use Rattle.std.specs.Prelude.{◌≤◌};
    ghost use Rattle.snapshots.specs.Progress.{Progress};

    ghost Value = { Progress };

    ghost view = { λ p. record { bytes = p.bytes; last = p.last; rows = p.rows } };

    ghost invariant = { λ p. p.rows ≤ p.last };
}

impl Passage {
    /// Not even the head.
    pub fn new() -> Passage
        ensures { result ≡ nothing }
    {
        Passage {
            bytes: Tally::new(),
            last: 0,
            rows: 0,
        }
    }

    /// The head alone.
    pub fn opened() -> Passage
        ensures { result ≡ opened }
    {
        let mut bytes = Tally::new();
        bytes.add(&head());
        Passage {
            bytes,
            last: 0,
            rows: 0,
        }
    }

    /// A row more, of this number and these bytes.
    pub fn add(&mut self, number: u64, bytes: &[u8])
        requires rises { self.old.last < number }
        ensures { self.new ≡ with_number self.old number bytes.now }
    {
        self.bytes.add(bytes);
        self.last = number;
        self.rows += 1;
    }

    /// The number of the last row, or 0.
    pub fn last(&self) -> u64
        ensures { result ≡ self.now.last }
    {
        self.last
    }

    /// How many rows there were.
    pub fn rows(&self) -> u64
        ensures { result ≡ self.now.rows }
    {
        self.rows
    }

    /// The sum of the bytes and these behind them.
    pub fn sum_with(&self, bytes: &[u8]) -> u32
        ensures { result ≡ sum_of (self.now.bytes ++ bytes.now) }
    {
        self.bytes.sum_with(bytes)
    }
}
