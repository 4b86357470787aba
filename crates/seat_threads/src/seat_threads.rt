//! Threads that accept connections, and serve each whole before the next.

use ends::{TrackedReader, TrackedWriter};
use server_guards::Mark;
use serving::{Caller, ServeFault, serve_stream};
use std::alloc::Global;
use std::net::{TcpListener, TcpStream};
use std::sync::Wait;
use std::thread;
use std::thread::{JoinHandle, Parker, Threads};
use std::time::Duration;

/// The pause after a connection that can't be accepted, in milliseconds.
const PAUSE: u64 = 50;

/// Starts one thread for each caller, and waits until all have ended. A thread accepts a connection, serves it whole by
/// its caller, and accepts the next; with `serves` above 0 it ends after that many. A connection that it accepts while
/// the mark is set is closed without a byte, and counts. After one that can't be accepted it pauses. Refused with
/// Memory if memory or the system refuses a thread: those that have begun go on then.
pub fn serve_seats<
    R: Wait + Threads + Copy + Drop + Send + 'static,
    C: Caller + Drop + Send + 'static,
>(
    rt: R,
    alloc: Global,
    listener: &TcpListener,
    callers: Vec<C>,
    serves: u64,
    mark: &Mark,
) -> Result<(), ServeFault> {
    for thread in start_threads(rt, alloc, listener, callers, serves, mark)? {
        thread.join(&rt);
    }
    Ok(())
}

// Starts one thread for each caller.
fn start_threads<
    R: Wait + Threads + Copy + Drop + Send + 'static,
    C: Caller + Drop + Send + 'static,
>(
    rt: R,
    alloc: Global,
    listener: &TcpListener,
    callers: Vec<C>,
    serves: u64,
    mark: &Mark,
) -> Result<Vec<JoinHandle<()>>, ServeFault> {
    let mut threads = Vec::new(alloc);
    for caller in callers {
        let Ok(listener) = listener.try_clone() else {
            return Err(ServeFault::Memory);
        };
        let mark = mark.share()?;
        let Ok(thread) = thread::spawn(
            &rt,
            move || serve_all(&rt, alloc, listener, caller, serves, &mark),
        ) else {
            return Err(ServeFault::Memory);
        };
        if threads.push(thread).is_err() {
            return Err(ServeFault::Memory);
        }
    }
    Ok(threads)
}

// Serves one connection after another.
fn serve_all<R: Wait, C: Caller + Drop>(
    rt: &R,
    alloc: Global,
    listener: TcpListener,
    caller: C,
    serves: u64,
    mark: &Mark,
) {
    let mut caller = caller;
    let mut served = 0u64;
    for stream in listener.incoming() {
        let Ok(stream) = stream else {
            Parker::new().park_timeout(rt, Duration::from_millis(PAUSE));
            continue;
        };
        serve_connection(rt, alloc, stream, &mut caller, mark);
        served = served.wrapping_add(1);
        if served == serves {
            return;
        }
    }
}

// Serves a connection, unless the mark is set, and closes it.
fn serve_connection<R: Wait, C: Caller>(
    rt: &R,
    alloc: Global,
    stream: TcpStream,
    caller: &mut C,
    mark: &Mark,
) {
    if mark.is_set() {
        return;
    }
    let _ = stream.set_nodelay(true);
    let mut source = TrackedReader::new(&stream);
    let mut sink = TrackedWriter::new(&stream);
    let _ = serve_stream(rt, alloc, &mut source, &mut sink, caller);
}
