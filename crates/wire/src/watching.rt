//! Watching: what masters that watch servers and these servers tell each other, so that leases are prolonged and a
//! silent server is noticed. Times are nanoseconds of the server's own clock.

/// A master's beat: it asks how a server is, and prolongs its lease if it brings back a stamp (this project's rule).
#[derive(Clone, Copy, Debug, PartialEq, Eq)]
pub struct Beat {
    /// The master's epoch: any.
    pub epoch: u64,
    /// What the server's clock showed as it told how it is; 0 stands for none. Any.
    pub stamp: u64,
}

/// How a server is (this project's rule).
#[derive(Clone, Copy, Debug, PartialEq, Eq)]
pub struct Alive {
    /// The epoch that it is in: any.
    pub epoch: u64,
    /// What its clock shows: any.
    pub stamp: u64,
    /// When its lease ends: any.
    pub end: u64,
    /// The term of its lease; 0 stands for none. Any.
    pub term: u64,
    /// The servers that it knows to be gone: server i is the bit of value 2^i. Any.
    pub gone: u16,
    /// Those of them that it knew to be gone while its lease held. Any.
    pub known: u16,
}

/// A master's notice that a server was silent in its epoch, until its lease was over (this project's rule).
#[derive(Clone, Copy, Debug, PartialEq, Eq)]
pub struct Silent {
    /// The master's epoch: any.
    pub epoch: u64,
    /// The server, below 16.
    pub id: u8,
}
