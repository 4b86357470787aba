//! The master's side: for whom its epoch is whole.
ghost use Rattle.std.specs.Prelude.{◌≡◌};
ghost use Rattle.leases.specs.Rolls.{unentered, enters, knows, is_whole};

use std::marker::Model;

/// The roll of an epoch for one server that has entered it: which other servers have. Sets are bits, server i being
/// that of value 2^i.
#[derive(Debug, Drop)]
pub struct Roll {
    own: u16,
    others: u16,
    entered: u16,
    known: u16,
}

impl Model for Roll {
    ghost use Rattle.leases.specs.Rolls.{RollState};

    ghost Value = { RollState };

    ghost view = { λ r. record { own = r.own; others = r.others; entered = r.entered; known = r.known } };
}

impl Roll {
    /// The roll for a server of a chain which has these others. No other has entered.
    pub fn new(own: u16, others: u16) -> Roll
        ensures { result ≡ unentered own others }
    {
        Roll {
            own,
            others,
            entered: 0,
            known: 0,
        }
    }

    /// Another server has entered the epoch, and knew then that these are gone (`Report::gone`). It must be its answer
    /// to the greeting, or the first one that was in the epoch.
    pub fn enters(&mut self, other: u16, gone: u16)
        ensures { self.new ≡ enters self.old other gone }
    {
        if gone & self.own == 0 {
            self.entered |= other;
        }
    }

    /// The server itself knew these to be gone while its lease held (`Report::known`).
    pub fn knows(&mut self, known: u16)
        ensures { self.new ≡ knows self.old known }
    {
        self.known |= known;
    }

    /// Whether the epoch is whole for this server: each other one has entered it and didn't know then that this one is
    /// gone, or this one knew that one to be gone while its lease held. Only then may a beat prolong its lease.
    pub fn is_whole(&self) -> bool
        ensures { result ≡ is_whole self.now }
    {
        (self.entered | self.known) & self.others == self.others
    }
}
