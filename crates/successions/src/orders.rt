//! What masters send to members, and what members report.

use crate::members::{Acceptance, Members};

/// What a master of an epoch sends. A member obeys orders of the epoch that it is in, and of its own generation;
/// whatever it hears, it reports.
#[derive(Clone, Copy, Debug, PartialEq, Eq)]
pub enum Order {
    /// In this epoch, the members of this generation begin no update any more, and accept these as the members of the
    /// next one.
    Seal(u64, u64, Members),
    /// In this epoch, the members of this generation go on: what they accepted counts no more.
    Resume(u64, u64),
    /// In this epoch, each member reports.
    Poll(u64),
    /// In this epoch, the members of this generation leave it to these members of the next one, who begin with a table
    /// of so many updates.
    Switch(u64, u64, Members, u64),
    /// In this epoch, this generation, which has these members, begins updates.
    Open(u64, u64, Members),
}

/// What a member is at, in its generation.
#[derive(Clone, Copy, Debug, PartialEq, Eq)]
pub enum Phase {
    /// It stands with the table of the generation before, and isn't open yet.
    Started,
    /// It begins updates.
    Serving,
    /// It begins no update, and has accepted who the members of the next generation are.
    Sealed(Acceptance),
    /// It has left its generation to the members of the next one that it had accepted.
    Switched(Acceptance),
}

/// How the table of a member is, as its caller found it.
#[derive(Clone, Copy, Debug, PartialEq, Eq)]
pub struct Standing {
    /// The members that it knows to be gone, member i being the bit of value 2^i.
    pub view: u16,
    /// The number of its last entry.
    pub last: u64,
    /// The number up to which its entries are committed.
    pub committed: u64,
    /// Nothing is on its way through it: all that its senders sent before they were held was taken, each call that it
    /// began is answered, and nobody waits for a tail's answer.
    pub idle: bool,
}

/// What a member reports.
#[derive(Clone, Copy, Debug, PartialEq, Eq)]
pub struct Report {
    /// Its number among the reports of this member, from 1 on.
    pub number: u64,
    /// The epoch that it is in.
    pub epoch: u64,
    /// Its generation.
    pub generation: u64,
    /// What it is at, with what it has accepted.
    pub phase: Phase,
    /// How its table is.
    pub standing: Standing,
}
