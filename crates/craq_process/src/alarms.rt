//! What wakes the thread that looks after the servers of one process.

use std::sync::Wait;
use std::sync::atomic::{AtomicBool, Ordering};
use std::thread::Parker;
use std::time::Duration;

/// How long the one who waits sleeps at most, if it has something to try again, in milliseconds.
const PAUSE: u64 = 50;

/// An alarm for one thread. Others ring it, and at last say that nothing more comes.
#[derive(Drop)]
pub struct Alarm {
    parker: Parker,
    is_over: AtomicBool,
}

impl Alarm {
    /// An alarm that hasn't been rung.
    pub fn new() -> Alarm {
        Alarm {
            parker: Parker::new(),
            is_over: AtomicBool::new(false),
        }
    }

    /// Wakes the one who waits, or lets it go on at once when it will wait.
    pub fn ring(&self) {
        self.parker.unpark();
    }

    /// Says that nothing more comes.
    pub fn end(&self) {
        self.is_over.store(true, Ordering::SeqCst);
        self.parker.unpark();
    }

    /// Whether nothing more comes.
    pub fn is_over(&self) -> bool {
        self.is_over.load(Ordering::SeqCst)
    }

    /// Waits until it is rung.
    pub fn wait<R: Wait>(&self, rt: &R) {
        self.parker.park(rt);
    }

    /// The same, but for 50 milliseconds at most.
    pub fn wait_a_little<R: Wait>(&self, rt: &R) {
        self.parker.park_timeout(rt, Duration::from_millis(PAUSE));
    }
}
