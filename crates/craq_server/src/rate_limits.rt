//! How often lines of one kind may be written.

use std::time::{Clock, Instant};

/// Lets one line pass in this many seconds.
#[derive(Clone, Copy)]
pub(crate) struct RateLimit {
    seconds: u64,
    last: Option<Instant>,
}

impl RateLimit {
    /// Before the first line.
    pub(crate) fn new(seconds: u64) -> RateLimit {
        RateLimit {
            seconds,
            last: None,
        }
    }

    /// Whether a line may be written now. It counts as written then.
    pub(crate) fn is_time<R: Clock>(&mut self, rt: &R) -> bool {
        let Ok(now) = Instant::now(rt) else {
            return false;
        };
        if let Some(last) = self.last {
            if now.duration_since(last).as_secs() < self.seconds {
                return false;
            }
        }
        self.last = Some(now);
        true
    }
}
