//! How many threads serve, and how many files a front end may have open.
ghost use Rattle.std.specs.Prelude.{◌≡◌, ◌+◌, ◌*◌, ◌<◌, ◌≤◌};

use libc::types::rlimit;
use std::thread;
use std::thread::Threads;

/// The most threads that serve if none are asked for.
const MOST: usize = 4;

/// Files that a process has open beside its connections and its threads: the standard ones, listeners, links.
const OTHERS: u64 = 64;

/// As many serving threads as the process has processors, but at most 4; 4 if the system doesn't say.
pub fn usual_threads<R: Threads>(rt: &R) -> usize
    ensures { (1 ≤ result) × (result ≤ 4) }
{
    match thread::available_parallelism(rt) {
        Ok(count) => clamp(count.get()),
        Err(_) => MOST,
    }
}

fn clamp(count: usize) -> usize
    ensures { (1 ≤ result) × (result ≤ 4) }
{
    count.max(1).min(MOST)
}

/// How many files the process may have open at once, if the system says.
pub fn open_files() -> Option<u64> {
    let mut limit = rlimit {
        rlim_cur: 0,
        rlim_max: 0,
    };
    if libc::getrlimit(libc::RLIMIT_NOFILE, &mut limit) == 0 {
        Some(limit.rlim_cur)
    } else {
        None
    }
}

/// How many files are open at most in a process with n servers, c connections of each, and this many serving
/// threads: one for each connection and listener, two for each thread, and 64 others.
pub fn most_files(servers: u8, connections: u32, threads: u8) -> u64
    ensures { result ≡ servers * (connections + 1) + 2 * threads + 64 }
{
    u64::from(servers) * (u64::from(connections) + 1) + 2 * u64::from(threads) + OTHERS
}
