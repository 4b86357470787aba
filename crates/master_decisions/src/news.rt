//! What a master hears: of servers, from their threads; and of its input.

use crate::faults::MasterFault;
use crate::notices::Answer;
use leases::{Reading, Report};

/// What is new.
#[derive(Drop)]
pub enum News {
    /// A line of the input names this server as gone.
    Typed(u8),
    /// A line of the input means nothing.
    BadLine,
    /// This start of this server has accepted a connection. It knows these servers to be gone: server i is the bit of
    /// value 2^i.
    Met(u8, u64, u16),
    /// The connection to this server has ended.
    Broken(u8),
    /// This server can't be reached.
    Lost(u8),
    /// The process of this server has ended.
    Ended(u8),
    /// This server told how it is, and then the clock was read.
    Told(u8, Reading<Report>),
    /// This server says that its links to these servers stand still: server i is the bit of value 2^i.
    Stalled(u8, u16),
    /// This came of what was wanted of this server.
    Answered(u8, Answered),
    /// One of the threads goes on no more.
    Fault(MasterFault),
}

/// What came of what was wanted of a server.
#[derive(Clone, Copy)]
pub struct Answered {
    /// The round in which it was wanted.
    pub round: u32,
    /// What the server did.
    pub answer: Answer,
    /// The number of its start, if it was ever reached.
    pub start: Option<u64>,
    /// The servers that had failed as far as it told then: server i is the bit of value 2^i.
    pub gone: u16,
}
