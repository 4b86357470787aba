//! Frames: what servers tell each other on a connection.
ghost use Rattle.std.specs.Prelude.{◌↔◌, IsTrue};
ghost use Rattle.wire.specs.Spellings.{IsInRange};

use crate::{Acceptance, Alive, Beat, Introduction, Reason, Silent};
use node::{Peer, SERVERS};

/// The format's number, which is each frame's first byte.
pub const FORMAT: u8 = 2;

/// The format of servers that took smaller items.
pub const OLD_FORMAT: u8 = 1;

/// The id by which the master greets: the one after the highest that a server has.
pub const MASTER: u8 = SERVERS;

/// What stands on a connection between servers, one after another (docs/FORMATS.md, "Peer messages").
#[derive(Clone, Debug, Drop)]
pub enum Frame {
    /// Who speaks here: a server by its id, below 16, or the master by 16. It stands first.
    Hello(u8),
    /// A message from one server to another.
    Peer(Peer),
    /// The master's notice that the server of this id, below 16, has failed.
    Gone(u8),
    /// What the opener tells of its chain, after its Hello.
    Introduction(Introduction),
    /// The acceptor's answer: it takes the connection.
    Accepted(Acceptance),
    /// The acceptor's answer: it doesn't, and the connection ends.
    Refused(Reason),
    /// The answer to the master's notice of the server of this id, below 16.
    Noted(u8),
    /// A master of this epoch greets; 0 stands for none.
    Reign(u64),
    /// A master's beat.
    Beat(Beat),
    /// How a server is: the answer to a greeting, a beat, or a notice of silence.
    Alive(Alive),
    /// A master's notice that a server was silent.
    Silent(Silent),
    /// The receiver of a link has handed on so many bytes of it, in whole frames: any.
    Confirmed(u64),
    /// The servers to which a server's link stands still: server i is the bit of value 2^i. Any.
    Stalled(u16),
}

impl Frame {
    /// Whether all its fields are in their ranges, so that it has a spelling.
    pub fn is_in_range(&self) -> bool
        ensures { IsTrue result ↔ IsInRange self.now }
    {
        match self {
            Frame::Hello(id) => *id <= MASTER,
            Frame::Peer(peer) => peer.body.is_sendable(),
            Frame::Gone(id) | Frame::Noted(id) => *id < SERVERS,
            Frame::Introduction(opener) => 1 <= opener.servers && opener.servers <= SERVERS,
            Frame::Accepted(_) | Frame::Refused(_) => true,
            Frame::Reign(_) | Frame::Beat(_) | Frame::Alive(_) => true,
            Frame::Silent(silent) => silent.id < SERVERS,
            Frame::Confirmed(_) | Frame::Stalled(_) => true,
        }
    }
}
