//! The links of a server that stand still now: what those who answer masters tell.

use std::sync::atomic::{AtomicU64, Ordering};

/// These links, by the servers to which they go: server i is the bit of value 2^i. The thread that looks after the
/// links alone changes it, and others read it without waiting.
#[derive(Drop)]
pub(crate) struct StillLinks {
    servers: AtomicU64,
}

impl StillLinks {
    /// None.
    pub(crate) fn new() -> StillLinks {
        StillLinks {
            servers: AtomicU64::new(0),
        }
    }

    /// The link to server `j` stands still.
    pub(crate) fn add(&self, j: u8) {
        let _ = self.servers.fetch_or(bit_of(j), Ordering::SeqCst);
    }

    /// It goes on, or the server was called gone.
    pub(crate) fn remove(&self, j: u8) {
        let _ = self
            .servers
            .fetch_and(u64::MAX - bit_of(j), Ordering::SeqCst);
    }

    /// The servers to which links stand still.
    pub(crate) fn servers(&self) -> u16 {
        (self.servers.load(Ordering::SeqCst) % 0x1_0000) as u16
    }
}

// The bit of a server, by its id; none of a number that no server has.
fn bit_of(j: u8) -> u64 {
    if j < 16 { 1u64 << j } else { 0 }
}
