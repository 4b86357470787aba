//! What the words say of servers in processes of their own.

/// The numbers of one server.
#[derive(Clone, Copy, Debug, PartialEq, Eq)]
pub struct ServerNumbers {
    /// Which server it is: 0 to 15.
    pub id: u8,
    /// How many servers the chain has: 1 to 16.
    pub servers: u8,
    /// The port of server 0 for clients; server i listens on the i-th after it.
    pub port: u16,
    /// The port of server 0 for other servers and the master, likewise.
    pub peer_port: u16,
    /// How many calls it works on at a time: 1 to 64.
    pub seats: u8,
    /// How many threads serve its connections: 1 to 16; None: as many as processors, at most 4.
    pub threads: Option<u32>,
    /// How many connections it has at most at a time: 1 to 65,536.
    pub connections: u32,
    /// How many MiB its items may take, by its own estimate: 1 to 1,048,576; None: no limit.
    pub memory: Option<u32>,
    /// For how many seconds its lease runs: 1 to 3,600; None: it has no lease, and isn't called gone for its silence.
    pub lease: Option<u32>,
    /// For how many milliseconds a link to another server may take nothing, until its connection is opened anew: 10 to
    /// 3,600,000.
    pub link_timeout: u32,
    /// Whether the line at the start is left out.
    pub quiet: bool,
}

/// The numbers of a master.
#[derive(Clone, Copy, Debug, PartialEq, Eq)]
pub struct MasterNumbers {
    /// How many servers the chain has: 1 to 16.
    pub servers: u8,
    /// The port of server 0 for other servers and the master; server i listens on the i-th after it.
    pub peer_port: u16,
    /// Whether it watches the servers, and tells by itself that one is gone: its process has ended, or it was silent
    /// until its lease was over.
    pub watch: bool,
    /// How many milliseconds lie between two beats to a server that it watches: 1 to 3,600,000.
    pub beat: u32,
    /// For how many milliseconds a server that it watches, and that has a lease, may be silent: 2 to 3,600,000.
    pub after: u32,
}

/// Where the servers of a chain are, and its name.
#[derive(Drop)]
pub struct Hosts {
    /// Where a server listens, and where each is if there is no list.
    pub address: String,
    /// The host of each, in the order of their ids, with commas between them.
    pub peers: Option<String>,
    /// The chain's name: servers and masters of another one are refused.
    pub chain: String,
}
