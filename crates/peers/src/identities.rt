//! What a process tells of itself and of its chain, when it greets.

use table::Key;

/// Who speaks, and for which chain.
#[derive(Debug, Drop)]
pub struct Identity {
    /// A server's id, or the master's.
    pub id: u8,
    /// How many servers its chain has.
    pub servers: u8,
    /// The number of this start of its process.
    pub start: u64,
    /// The chain's name.
    pub chain: Key,
}
