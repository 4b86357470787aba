//! Numbers of starts: a process that was started again is told from the one before it.

use std::io;
use std::time::{Clock, Duration};

/// How many nanoseconds a second has.
const SECOND: u64 = 1_000_000_000;

/// A number that differs between starts: from the time of day, and from how long the machine runs, both in nanoseconds.
pub fn start_number<R: Clock>(rt: &R) -> u64 {
    let day = nanoseconds(rt.since_1970());
    let running = nanoseconds(rt.monotonic());
    day.wrapping_add(running.wrapping_mul(SECOND))
}

fn nanoseconds(time: io::Result<Duration>) -> u64 {
    match time {
        Ok(time) => {
            let seconds = time.as_secs().wrapping_mul(SECOND);
            seconds.wrapping_add(u64::from(time.subsec_nanos()))
        }
        Err(_) => 0,
    }
}
