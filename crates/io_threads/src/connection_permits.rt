//! How many connections a server has, and may have, and which thread serves the next one.
ghost use Rattle.std.specs.Prelude.{IfSome};
ghost use Rattle.io_threads.specs.Dealing.{IsNext};

use crate::dealing::next_thread;
use std::alloc::{AllocError, Global};
use std::sync::Arc;
use std::sync::atomic::{AtomicU64, Ordering};

/// How many connections of one server are open. Threads share it.
#[derive(Drop)]
struct PermitCount {
    taken: AtomicU64,
    // Of each thread.
    by_thread: Vec<AtomicU64>,
}

/// Who lets connections in: one at a time, as long as there is room.
#[derive(Drop)]
pub(crate) struct PermitIssuer {
    count: Arc<PermitCount, Global>,
    // How many may be open.
    most: u64,
    // How many a thread gets before another one gets any.
    dense: u64,
    // How many each thread had when it last looked.
    seen: Vec<u64>,
}

/// The permit of one connection. Dropping it makes room for another.
pub(crate) struct ConnectionPermit {
    count: Arc<PermitCount, Global>,
    /// The thread that serves the connection.
    pub(crate) thread: usize,
}

impl PermitIssuer {
    /// Room for `most` connections, which are dealt out to this many threads: each gets `dense` of them before another
    /// one gets any. Refused only if memory is out.
    pub(crate) fn new(
        alloc: Global,
        threads: usize,
        most: u64,
        dense: u64,
    ) -> Result<PermitIssuer, AllocError> {
        let mut by_thread = Vec::with_capacity(alloc, threads)?;
        for _ in 0..threads {
            by_thread.push(AtomicU64::new(0))?;
        }
        let taken = AtomicU64::new(0);
        Ok(PermitIssuer {
            count: Arc::new(alloc, PermitCount { taken, by_thread })?,
            most,
            dense,
            seen: Vec::from_elem(alloc, 0u64, threads)?,
        })
    }

    /// Lets one in, for the thread whose turn it is. None if there is no room or no thread, or memory is out.
    pub(crate) fn admit(&mut self) -> Option<ConnectionPermit>
        ensures dealt { IfSome result (λ permit. IsNext self.old.dense self.new.seen.items permit.thread) }
    {
        if self.count.taken.load(Ordering::SeqCst) >= self.most {
            return None;
        }
        self.count.look(&mut self.seen);
        let thread = next_thread(self.seen.as_slice(), self.dense)?;
        let Ok(count) = Arc::try_clone(&self.count) else {
            return None;
        };
        count.add(thread);
        Some(ConnectionPermit { count, thread })
    }
}

impl PermitCount {
    // How many each thread has now.
    fn look(&self, seen: &mut Vec<u64>) {
        for (seen, own) in seen.iter_mut().zip(self.by_thread.iter()) {
            *seen = own.load(Ordering::SeqCst);
        }
    }

    // One more, of this thread.
    fn add(&self, thread: usize) {
        self.taken.fetch_add(1, Ordering::SeqCst);
        if let Some(own) = self.by_thread.get(thread) {
            own.fetch_add(1, Ordering::SeqCst);
        }
    }

    // One less.
    fn take_off(&self, thread: usize) {
        if let Some(own) = self.by_thread.get(thread) {
            own.fetch_sub(1, Ordering::SeqCst);
        }
        self.taken.fetch_sub(1, Ordering::SeqCst);
    }
}

impl Drop for ConnectionPermit {
    fn drop(self) {
        let Self { count, thread } = self;
        count.take_off(thread);
    }
}
