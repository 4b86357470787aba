//! Greetings: what both ends of a connection tell each other of the chain, before anything else is sent.

use table::Key;

/// What stands after a Hello: the chain that whoever opened the connection belongs to (this project's rule).
#[derive(Clone, Debug, Drop)]
pub struct Introduction {
    /// How many servers the chain was started with, 1 to 16.
    pub servers: u8,
    /// The number of this start of the opener's process: any.
    pub start: u64,
    /// The chain's name.
    pub chain: Key,
}

/// What the acceptor answers, if it takes the connection (this project's rule).
#[derive(Clone, Copy, Debug, PartialEq, Eq)]
pub struct Acceptance {
    /// The number of this start of the acceptor's process: any.
    pub start: u64,
    /// The servers that have failed, as far as the acceptor knows: server i is the bit of value 2^i. Any.
    pub gone: u16,
}

/// Why the acceptor doesn't take the connection, which ends then (this project's rule).
#[derive(Clone, Copy, Debug, PartialEq, Eq)]
pub enum Reason {
    /// The opener's chain has another number of servers.
    Servers,
    /// The opener belongs to another chain.
    Chain,
    /// A server of this id has connected already, or it is the acceptor's own id.
    Taken,
    /// A server of this id has failed.
    Gone,
    /// The opener speaks an older format, or doesn't introduce itself.
    Format,
}
