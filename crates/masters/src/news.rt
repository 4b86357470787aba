//! How what is new comes to the thread of a master that decides, and when it was.

use crossbeam_channel::Sender;
use master_decisions::News;
use std::alloc::AllocError;
use std::sync::Wait;
use std::time::{Clock, Duration, Instant};

/// How many milliseconds a second has.
const SECOND: u64 = 1_000;

/// How many nanoseconds a millisecond has.
const NANOSECONDS: u32 = 1_000_000;

/// What is new, and when it was: milliseconds since the master began.
#[derive(Drop)]
pub(crate) struct TimedNews {
    pub(crate) milliseconds: u64,
    pub(crate) news: News,
}

/// Where one of the threads puts what is new.
#[derive(Drop)]
pub(crate) struct NewsSender {
    sender: Sender<TimedNews>,
    begun: Instant,
}

impl NewsSender {
    /// The news goes there; the master began then.
    pub(crate) fn new(sender: Sender<TimedNews>, begun: Instant) -> NewsSender {
        NewsSender { sender, begun }
    }

    /// Another one, for another thread.
    pub(crate) fn another(&self) -> Result<NewsSender, AllocError> {
        Ok(NewsSender {
            sender: self.sender.clone()?,
            begun: self.begun,
        })
    }

    /// How many milliseconds have passed since the master began; 0 if the clock can't be read.
    pub(crate) fn running<R: Clock>(&self, rt: &R) -> u64 {
        milliseconds_since(rt, self.begun)
    }

    /// How many milliseconds have passed since the master began. None if the clock can't be read.
    pub(crate) fn passed<R: Clock>(&self, rt: &R) -> Option<u64> {
        passed_since(rt, self.begun)
    }

    /// Puts what is new, once there is room. It is lost if the master ends.
    pub(crate) fn put<R: Wait + Clock>(&self, rt: &R, news: News) {
        let milliseconds = self.running(rt);
        let _ = self.sender.send(rt, TimedNews { milliseconds, news });
    }
}

/// How many milliseconds have passed since then; 0 if the clock can't be read.
pub(crate) fn milliseconds_since<R: Clock>(rt: &R, begun: Instant) -> u64 {
    passed_since(rt, begun).unwrap_or(0)
}

// How many milliseconds have passed since then. None if the clock can't be read.
fn passed_since<R: Clock>(rt: &R, begun: Instant) -> Option<u64> {
    match begun.elapsed(rt) {
        Ok(passed) => Some(milliseconds_of(passed)),
        Err(_) => None,
    }
}

/// How many milliseconds a time has.
pub(crate) fn milliseconds_of(time: Duration) -> u64 {
    let rest = u64::from(time.subsec_nanos() / NANOSECONDS);
    time.as_secs().saturating_mul(SECOND).saturating_add(rest)
}
