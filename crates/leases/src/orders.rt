//! What masters send to servers, and what servers answer.

use crate::terms::Term;

/// What a master sends to a server.
#[derive(Clone, Copy, Debug, PartialEq, Eq)]
pub enum Order {
    /// A master of this epoch greets.
    Reign(u64),
    /// A beat of this epoch. If it brings back a stamp it prolongs the lease.
    Beat(u64, Option<u64>),
    /// In this epoch that server was silent until its lease was surely over.
    Silent(u64, u8),
    /// That server does nothing more: its process has ended, or a person has seen to it.
    Gone(u8),
}

/// How a server is. Times are nanoseconds of its own clock.
#[derive(Clone, Copy, Debug, PartialEq, Eq)]
pub struct Report {
    /// The epoch that it is in.
    pub epoch: u64,
    /// What its clock shows.
    pub stamp: u64,
    /// When its lease ends. Without a term, the latest stamp that a beat brought back.
    pub end: u64,
    /// The term of its lease, or none.
    pub term: Option<Term>,
    /// The servers that it knows to be gone, server i being the bit of value 2^i.
    pub gone: u16,
    /// Those that it knew to be gone while its lease held.
    pub known: u16,
}

/// What a server does with an order.
#[derive(Clone, Copy, Debug, PartialEq, Eq)]
pub enum Answer {
    /// It tells how it is.
    Tells(Report),
    /// It takes the notice that this server is gone, and then says that it has. If it is this server itself, it ends.
    Notes(u8),
}
