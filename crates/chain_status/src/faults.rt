//! What may be wrong with a chain.
ghost use Rattle.std.specs.Prelude.{◌≡◌};
ghost use Rattle.chain_status.specs.Faults as faults;

use crate::answers::{NoConnection, Stranger};
use crate::standings::Standing;

/// What is wrong with a chain, or with one server of it, which is told by its id. A set of servers is a number in which
/// server i is the bit of value 2^i.
#[derive(Clone, Copy)]
pub enum Fault {
    /// Each server is gone.
    NoneLeft,
    /// No server said how it is.
    NoneAnswers,
    /// This server is the only one that isn't gone, of a chain that had more.
    LastOne(u8),
    /// This server is gone.
    Gone(u8),
    /// There is no connection to this server, which isn't gone.
    NoConnection(u8, NoConnection),
    /// Who answers for this server isn't it.
    Stranger(u8, Stranger),
    /// This server doesn't answer, and isn't gone.
    NoAnswer(u8),
    /// This server doesn't know of these that they are gone.
    Unaware(u8, u16),
    /// The link of this server to these, which aren't gone, stands still.
    Stalled(u8, u16),
    /// The lease of this server is over.
    LeaseOver(u8),
    /// Inputs wait for the worker of this server, and it took none between two looks.
    Stuck(u8),
    /// The items of this server take as much memory as they may.
    MemoryFull(u8),
    /// They take four fifths of that.
    MemoryHigh(u8),
    /// This server has as many connections as it may.
    ConnectionsFull(u8),
    /// This server has another version than the first one that answers.
    OtherVersion(u8),
    /// This server was started anew between two looks.
    StartedAnew(u8),
}

impl Fault {
    /// What the chain is like, as far as this fault goes: it holds updates up, it is a loss, or it is a warning.
    pub fn standing(&self) -> Standing
        ensures { result ≡ faults.standing_by self.now }
    {
        match self {
            Fault::NoneLeft
            | Fault::NoneAnswers
            | Fault::NoConnection(_, _)
            | Fault::Stranger(_, _)
            | Fault::NoAnswer(_)
            | Fault::Unaware(_, _)
            | Fault::Stalled(_, _)
            | Fault::LeaseOver(_)
            | Fault::Stuck(_)
            | Fault::MemoryFull(_) => Standing::Stopped,
            Fault::LastOne(_) | Fault::Gone(_) => Standing::Fewer,
            Fault::MemoryHigh(_)
            | Fault::ConnectionsFull(_)
            | Fault::OtherVersion(_)
            | Fault::StartedAnew(_) => Standing::Whole,
        }
    }

    /// The server that it is of, or none if it is of the chain.
    pub fn server(&self) -> Option<u8>
        ensures { result ≡ faults.server_in self.now }
    {
        match self {
            Fault::NoneLeft | Fault::NoneAnswers => None,
            Fault::LastOne(i)
            | Fault::Gone(i)
            | Fault::NoConnection(i, _)
            | Fault::Stranger(i, _)
            | Fault::NoAnswer(i)
            | Fault::Unaware(i, _)
            | Fault::Stalled(i, _)
            | Fault::LeaseOver(i)
            | Fault::Stuck(i)
            | Fault::MemoryFull(i)
            | Fault::MemoryHigh(i)
            | Fault::ConnectionsFull(i)
            | Fault::OtherVersion(i)
            | Fault::StartedAnew(i) => Some(*i),
        }
    }
}
