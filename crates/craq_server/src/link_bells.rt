//! What wakes the thread that looks after a server's links, which then has the server's turns taken.

use mio::Waker;
use std::alloc::{AllocError, AllocFailed, Global};
use std::sync::Arc;

/// Wakes that thread.
#[derive(Drop)]
pub(crate) struct LinkBell {
    waker: Arc<Waker, Global>,
}

impl LinkBell {
    /// Rung by this waker.
    pub(crate) fn new(alloc: Global, waker: Waker) -> Result<LinkBell, AllocFailed<Waker>> {
        Ok(LinkBell {
            waker: Arc::new(alloc, waker)?,
        })
    }

    /// The same, for another thread. Refused only when out of memory.
    pub(crate) fn share(&self) -> Result<LinkBell, AllocError> {
        Ok(LinkBell {
            waker: Arc::try_clone(&self.waker)?,
        })
    }

    /// Wakes it.
    pub(crate) fn ring(&self) {
        let _ = self.waker.wake();
    }
}
