//! The numbers of a chain in one process.

/// How large a chain is, and where it listens.
#[derive(Clone, Copy, Debug, PartialEq, Eq)]
pub struct ClusterNumbers {
    /// How many servers there are: 1 to 16.
    pub servers: u8,
    /// The port of server 0; server i listens on the i-th after it.
    pub port: u16,
    /// How many calls each server works on at a time: 1 to 64.
    pub seats: u8,
    /// How many threads serve the connections of all servers: 1 to 16; None: as many as processors, at most 4.
    pub threads: Option<u32>,
    /// How many connections each server has at most at a time: 1 to 65,536.
    pub connections: u32,
    /// How many connections for each seat each server serves before it ends, or 0 for no end.
    pub serves: u64,
    /// How many MiB its items may take, by the estimate of each server: 1 to 1,048,576; None: no limit.
    pub memory: Option<u32>,
    /// Whether the line at the start is left out.
    pub quiet: bool,
}
