//! What a server says of itself: whole numbers that its threads keep anyhow. Times are in nanoseconds.

use serde::Serialize;

/// A version of the program.
#[derive(Clone, Copy, PartialEq, Eq, Serialize)]
pub struct Version {
    /// The first number.
    pub major: u16,
    /// The second number.
    pub minor: u16,
    /// The third number.
    pub patch: u16,
}

/// How many of something are in use, and how many there may be.
#[derive(Clone, Copy, Serialize)]
pub struct Usage {
    /// In use.
    pub used: u64,
    /// As many as there may be.
    pub limit: u64,
}

/// What a server's items take by its estimate.
#[derive(Clone, Copy, Serialize)]
pub struct Memory {
    /// How many keys have a version.
    pub items: u64,
    /// How many bytes they take by the estimate.
    #[serde(rename = "estimate_bytes")]
    pub estimate: u64,
    /// How many they may take, if there is a limit.
    #[serde(rename = "limit_bytes")]
    pub limit: Option<u64>,
}

/// How many calls of clients a server has answered since its start.
#[derive(Clone, Copy, Serialize)]
pub struct Calls {
    /// Reads that it answered from its own table.
    pub clean_reads: u64,
    /// Reads that were answered after a question to the tail.
    pub dirty_reads: u64,
    /// Updates.
    pub updates: u64,
}

/// What waits for a server's worker.
#[derive(Clone, Copy, Serialize)]
pub struct Inbox {
    /// How many inputs wait.
    pub length: u64,
    /// How many it has taken since its start.
    pub taken: u64,
}

/// How the lease of a server is.
#[derive(Clone, Copy, Serialize)]
pub struct LeaseState {
    /// The reign that it is in, of a master.
    pub reign: u64,
    /// For how long it still holds; 0 if it is over.
    #[serde(rename = "left_nanoseconds")]
    pub left: u64,
}

/// What a server has refused since its start.
#[derive(Clone, Copy, Serialize)]
pub struct Refused {
    /// Connections of clients, since it had as many as it may.
    pub connections: u64,
    /// Commands that store, since its items took as much memory as they may.
    pub stores: u64,
}

/// What a server says of itself. A set of servers is a number in which server i is the bit of value 2^i.
#[derive(Clone, Copy, Serialize)]
pub struct ServerReport {
    /// Its id.
    pub id: u8,
    /// How many servers its chain was started with.
    pub servers: u8,
    /// Its version.
    pub version: Version,
    /// The number of its start, which no other start has.
    pub start: u64,
    /// How long ago it started.
    #[serde(rename = "uptime_nanoseconds")]
    pub uptime: u64,
    /// Those that it knows to be gone.
    pub view: u16,
    /// Those to which its link stands still.
    pub stalled: u16,
    /// The number of its last entry.
    pub last: u64,
    /// Its commit number.
    pub committed: u64,
    /// What its items take.
    pub memory: Memory,
    /// The connections of its clients.
    pub connections: Usage,
    /// Its seats.
    pub seats: Usage,
    /// The calls that it has answered.
    pub calls: Calls,
    /// How many questions it has sent to the tail.
    pub questions: u64,
    /// What waits for its worker.
    pub inbox: Inbox,
    /// How its lease is, if it has one.
    pub lease: Option<LeaseState>,
    /// What it has refused.
    pub refused: Refused,
}
