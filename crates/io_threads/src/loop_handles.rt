//! The serving threads, as others see them: who hands them connections, and who wakes them.

use crate::permitted_streams::PermittedStream;
use crate::seat_shares::SeatShares;
use mio::{Poll, Token, Waker};
use rail::PortSet;
use std::alloc::{AllocError, Global};
use std::mem;
use std::net::Net;
use std::sync::atomic::{AtomicBool, AtomicU32, Ordering};
use std::sync::{Arc, Mutex};

/// The token of a thread's waker.
pub(crate) const WAKE: usize = usize::MAX;

/// The most ports of a server.
const PORTS: usize = 64;

/// A connection on its way to the thread that serves it.
#[derive(Drop)]
pub(crate) struct Arrival {
    pub(crate) stream: PermittedStream,
    /// The server to which it was made.
    pub(crate) server: u8,
}

// One serving thread.
#[derive(Drop)]
struct LoopHandle {
    alloc: Global,
    // It is only tried: who adds one wakes the thread afterwards, and tries again later if the thread takes them now.
    arrivals: Mutex<Vec<Arrival>>,
    waker: Waker,
    // The servers whose replies it waits for, while it sleeps; else none.
    asleep_at: AtomicU32,
}

/// All serving threads, and which of them each port of a server is for.
///
/// Nobody sleeps on a reply. A thread that is about to sleep says which servers' replies it waits for (`sleeps_at`),
/// then looks once more for turns and replies, and sleeps only if it finds none. Who has taken turns puts the replies
/// first, and then wakes each thread that says so (`wake`). All these steps are in one order (`SeqCst`), so one of the
/// two sees the other.
#[derive(Drop)]
pub struct LoopHandles {
    loop_handles: Vec<LoopHandle>,
    seat_shares: SeatShares,
    // Whether no more connections come.
    finished: AtomicBool,
}

/// The loop handles of the serving threads, for whom seats are as these shares say, and what each of these waits at.
/// Refused if the system or memory refuses.
pub fn open_loop_handles<R: Net>(
    rt: &R,
    alloc: Global,
    seat_shares: SeatShares,
) -> Result<(LoopHandles, Vec<Poll>), AllocError> {
    let mut loop_handles = Vec::new(alloc);
    let mut polls = Vec::new(alloc);
    for _ in 0..seat_shares.threads {
        let Ok(poll) = Poll::new(rt) else {
            return Err(AllocError);
        };
        let Ok(waker) = Waker::new(poll.registry(), Token(WAKE)) else {
            return Err(AllocError);
        };
        loop_handles.push(LoopHandle::new(alloc, waker))?;
        polls.push(poll)?;
    }
    let finished = AtomicBool::new(false);
    Ok((
        LoopHandles {
            loop_handles,
            seat_shares,
            finished,
        },
        polls,
    ))
}

impl LoopHandle {
    fn new(alloc: Global, waker: Waker) -> LoopHandle {
        LoopHandle {
            alloc,
            arrivals: Mutex::new(Vec::new(alloc)),
            waker,
            asleep_at: AtomicU32::new(0),
        }
    }

    // Wakes it, if it sleeps and waits for a reply of this server.
    fn wake_at(&self, id: u8) {
        let at = self.asleep_at.load(Ordering::SeqCst);
        if at & bit(id) == 0 {
            return;
        }
        let woken = self
            .asleep_at
            .compare_exchange(at, 0, Ordering::SeqCst, Ordering::SeqCst);
        if woken.is_ok() {
            let _ = self.waker.wake();
        }
    }
}

/// The servers whose replies a thread waits for.
#[derive(Clone, Copy, PartialEq, Eq)]
pub(crate) struct OpenAt {
    // The bit of each server.
    bits: u32,
}

impl OpenAt {
    /// Nowhere.
    pub(crate) fn nowhere() -> OpenAt {
        OpenAt { bits: 0 }
    }

    /// At this server too.
    pub(crate) fn add(&mut self, id: u8) {
        self.bits |= bit(id);
    }
}

// The bit of a server.
fn bit(id: u8) -> u32 {
    1u32.wrapping_shl(u32::from(id))
}

impl LoopHandles {
    /// Replies were put to these ports of server `id`: wakes the threads that sleep and wait for one.
    pub fn wake(&self, id: u8, ports: PortSet) {
        self.wake_others(usize::MAX, id, ports);
    }

    /// The same, by this thread, which looks for its own replies itself.
    pub(crate) fn wake_others(&self, me: usize, id: u8, ports: PortSet) {
        for port in 0..PORTS {
            if ports.has(port) {
                let thread = self.seat_shares.thread_of(port);
                if thread != me {
                    self.wake_thread(thread, id);
                }
            }
        }
    }

    // Wakes a thread, if it sleeps and waits for a reply of this server.
    fn wake_thread(&self, thread: usize, id: u8) {
        if let Some(loop_handle) = self.loop_handles.get(thread) {
            loop_handle.wake_at(id);
        }
    }

    /// Wakes all threads: a server was marked.
    pub fn wake_all(&self) {
        for loop_handle in self.loop_handles.iter() {
            let _ = loop_handle.waker.wake();
        }
    }

    /// A thread is about to sleep, and waits for replies of these servers.
    pub(crate) fn sleeps_at(&self, me: usize, servers: OpenAt) {
        if let Some(loop_handle) = self.loop_handles.get(me) {
            loop_handle.asleep_at.store(servers.bits, Ordering::SeqCst);
        }
    }

    /// A thread doesn't sleep.
    pub(crate) fn is_awake(&self, me: usize) {
        if let Some(loop_handle) = self.loop_handles.get(me) {
            loop_handle.asleep_at.store(0, Ordering::SeqCst);
        }
    }

    /// Hands a connection to a thread, and wakes it. If memory is out the connection is closed. It is handed back while
    /// that thread takes those that came before.
    pub(crate) fn send(&self, to: usize, arrival: Arrival) -> Option<Arrival> {
        let Some(loop_handle) = self.loop_handles.get(to) else {
            drop(arrival);
            return None;
        };
        let Some(mut arrivals) = loop_handle.arrivals.try_lock() else {
            return Some(arrival);
        };
        drop(arrivals.push(arrival));
        drop(arrivals);
        let _ = loop_handle.waker.wake();
        None
    }

    /// The connections that were handed to a thread. None while it is handed another one: it is woken then.
    pub(crate) fn arrivals(&self, me: usize) -> Option<Vec<Arrival>> {
        let loop_handle = self.loop_handles.get(me)?;
        let mut arrivals = loop_handle.arrivals.try_lock()?;
        Some(mem::replace(&mut *arrivals, Vec::new(loop_handle.alloc)))
    }

    /// Says that no more connections come.
    pub(crate) fn finish(&self) {
        self.finished.store(true, Ordering::SeqCst);
        self.wake_all();
    }

    /// Whether no more connections come.
    pub(crate) fn has_finished(&self) -> bool {
        self.finished.load(Ordering::SeqCst)
    }
}
