//! The links from the other servers, until the server is ready.

use crate::server_faults::ServerFault;
use craq_process::Alarm;
use server_guards::Mark;
use std::alloc::{AllocError, Global};
use std::sync::{Mutex, Wait};
use std::time::{Clock, Instant};

/// For how many seconds a server waits for the links of the others, once its own stand.
const PATIENCE: u64 = 30;

/// Which servers have connected.
#[derive(Drop)]
pub(crate) struct Arrivals {
    arrived: Mutex<Arrived>,
    alarm: Alarm,
}

#[derive(Drop)]
struct Arrived {
    is_ready: bool,
    // By their ids, none for the server itself.
    links: Vec<LinkArrival>,
}

// The link from one server.
#[derive(Clone, Copy)]
enum LinkArrival {
    // It wasn't accepted yet.
    Away,
    // It was, at this start of the other server.
    Here(u64),
    // It doesn't stand any more, for this reason.
    Lost(&'static str),
}

// How far the links are.
#[derive(Clone, Copy)]
enum Readiness {
    // All stand.
    Whole,
    // That from this server doesn't stand yet.
    Waits(u8),
    // Not all will.
    Broken(ServerFault),
}

impl Arrivals {
    /// Before anyone has connected, in a chain of n servers.
    pub(crate) fn new(alloc: Global, servers: u8) -> Result<Arrivals, AllocError> {
        let mut links = Vec::new(alloc);
        for _ in 0..servers {
            links.push(LinkArrival::Away)?;
        }
        let is_ready = false;
        Ok(Arrivals {
            arrived: Mutex::new(Arrived { is_ready, links }),
            alarm: Alarm::new(),
        })
    }

    /// The link from server `j` was accepted, at this start of it.
    pub(crate) fn here<R: Wait>(&self, rt: &R, j: u8, start: u64) {
        self.set(rt, j, LinkArrival::Here(start));
    }

    /// The link from server `j` doesn't stand any more. It tells whether the server wasn't ready before: then that is
    /// told by whoever waits, and by nobody else.
    pub(crate) fn lost<R: Wait>(&self, rt: &R, j: u8, reason: &'static str) -> bool {
        self.set(rt, j, LinkArrival::Lost(reason))
    }

    /// Whether the server is ready.
    pub(crate) fn is_ready<R: Wait>(&self, rt: &R) -> bool {
        let guard = self.arrived.lock(rt);
        guard.is_ready
    }

    // It tells whether the server isn't ready.
    fn set<R: Wait>(&self, rt: &R, j: u8, arrival: LinkArrival) -> bool {
        let mut guard = self.arrived.lock(rt);
        let arrived = &mut *guard;
        if let Some(place) = arrived.links.get_mut(usize::from(j)) {
            *place = arrival;
        }
        let is_early = !arrived.is_ready;
        drop(guard);
        self.alarm.ring();
        is_early
    }

    /// Waits until the link from each other server stands, at the same start as the link to it, which these are. The
    /// server is ready then. Refused if one of them breaks, if a server was started again meanwhile, if one doesn't
    /// come within 30 seconds, or if the mark is set, since this server was called gone.
    pub(crate) fn wait_for_all<R: Wait + Clock>(
        &self,
        rt: &R,
        starts: &[Option<u64>],
        ended: &Mark,
    ) -> Result<(), ServerFault> {
        let Ok(begun) = Instant::now(rt) else {
            return Err(ServerFault::Run);
        };
        for _ in rt.forever() {
            if ended.is_set() {
                return Err(ServerFault::Gone);
            }
            match self.look(rt, starts) {
                Readiness::Whole => return Ok(()),
                Readiness::Broken(fault) => return Err(fault),
                Readiness::Waits(j) => {
                    if is_over(rt, begun) {
                        return Err(ServerFault::NotHere(j));
                    }
                }
            }
            self.alarm.wait_a_little(rt);
        }
        unreachable!()
    }

    // How far the links are. If all stand, the server is ready from now on.
    fn look<R: Wait>(&self, rt: &R, starts: &[Option<u64>]) -> Readiness {
        let mut guard = self.arrived.lock(rt);
        let arrived = &mut *guard;
        let readiness = readiness_of(arrived.links.as_slice(), starts);
        if matches!(readiness, Readiness::Whole) {
            arrived.is_ready = true;
        }
        readiness
    }
}

// Whether a server has waited for long enough.
fn is_over<R: Clock>(rt: &R, begun: Instant) -> bool {
    match begun.elapsed(rt) {
        Ok(passed) => passed.as_secs() >= PATIENCE,
        Err(_) => true,
    }
}

// How far the links are, of which those to the other servers stand at these starts.
fn readiness_of(links: &[LinkArrival], starts: &[Option<u64>]) -> Readiness {
    let mut readiness = Readiness::Whole;
    let mut j = 0u8;
    for start in starts {
        if let Some(start) = start {
            match links.get(usize::from(j)) {
                Some(LinkArrival::Here(other)) if other == start => {}
                Some(LinkArrival::Here(_)) => return Readiness::Broken(ServerFault::Restarted(j)),
                Some(LinkArrival::Lost(reason)) => {
                    return Readiness::Broken(ServerFault::Lost(j, reason));
                }
                Some(LinkArrival::Away) | None => readiness = Readiness::Waits(j),
            }
        }
        j = j.wrapping_add(1);
    }
    readiness
}
