//! Two threads of which one waits until the other makes room: a worker for a seat, and an inlet for a worker.

use super::is_set_soon;
use super::running::{News, brings, first_of, first_with, submits, turns};
use rail::{Inlet, RailFault, Room, ThreadHandle, Turn, Worker};
use std::alloc::{AllocError, Global};
use std::sync::Wait;
use std::sync::atomic::{AtomicU64, Ordering};
use std::test::Fail;
use std::thread;
use std::thread::Threads;
use std::time::{Clock, Duration};

// More calls than a seat has room for replies.
const CALLS: u64 = 70;

// --- two threads

// The first of two threads begins, unless the other one has given up. If there is no memory for it, this is called
// last, on the thread of the other one.
fn begin(begun: &AtomicU64) -> Result<(), AllocError> {
    if begun.fetch_add(1, Ordering::SeqCst) == 0 {
        Ok(())
    } else {
        Err(AllocError)
    }
}

// The other one waits until the first has begun, for ten seconds at most, and gives up then.
fn meet<R: Clock>(clock: &R, begun: &AtomicU64) -> Result<(), AllocError> {
    if is_set_soon(clock, begun) || begun.fetch_add(1, Ordering::SeqCst) > 0 {
        Ok(())
    } else {
        Err(AllocError)
    }
}

// Waits until a count has risen, and then stays so for a while; for ten seconds at most. How high it is.
fn count_when_still<R: Clock>(clock: &R, count: &AtomicU64) -> u64 {
    let mut before = 0;
    for _ in 0..100 {
        thread::sleep(clock, Duration::from_millis(100));
        let now = count.load(Ordering::SeqCst);
        if now == before && now > 0 {
            return now;
        }
        before = now;
    }
    before
}

// --- turns

// Takes as many turns, and counts those that went. If memory is refused to one, the server is stopped: no later one
// goes, though each takes its message.
fn turns_for_all<R: Wait + Drop>(
    worker: &mut Worker<R>,
    taken: &AtomicU64,
) -> Result<bool, RailFault> {
    let mut went = Ok(true);
    for _ in 0..CALLS {
        went = next_turn(worker, went);
        if went == Ok(true) {
            taken.fetch_add(1, Ordering::SeqCst);
        }
    }
    went
}

// Takes a turn after those that came to this. What they come to with it.
fn next_turn<R: Wait + Drop>(
    worker: &mut Worker<R>,
    went: Result<bool, RailFault>,
) -> Result<bool, RailFault> {
    match went {
        Ok(true) => turns(worker, Turn::Went),
        Ok(false) => {
            let _ = turns(worker, Turn::Went);
            Ok(false)
        }
        Err(fault) => {
            if turns(worker, Turn::Stopped) == Ok(true) {
                Err(fault)
            } else {
                Ok(false)
            }
        }
    }
}

// --- a worker waits for a seat

// Sends as many calls, and takes no reply.
fn submits_all<R: Wait>(
    rt: &R,
    alloc: Global,
    thread_handles: &mut Vec<ThreadHandle>,
) -> Result<bool, RailFault> {
    let mut sent = true;
    for _ in 0..CALLS {
        sent &= submits(rt, alloc, thread_handles)?;
    }
    Ok(sent)
}

// Takes a reply, if one stands at the last thread handle.
fn has_reply<R: Wait>(rt: &R, thread_handles: &mut Vec<ThreadHandle>) -> Result<bool, RailFault> {
    let Some(thread_handle) = thread_handles.last_mut() else {
        return Err(RailFault::NoReader);
    };
    match thread_handle.seat.reply_if_any(rt) {
        Ok(Some((reply, told))) => {
            drop(reply);
            drop(told);
            Ok(true)
        }
        Ok(None) => Ok(false),
        Err(fault) => Err(fault),
    }
}

// Takes a reply, for which it waits ten seconds at most. None comes from a server that is stopped, once the seat has
// taken those that it put before.
fn has_reply_soon<R: Wait + Clock>(rt: &R, thread_handles: &mut Vec<ThreadHandle>) -> bool {
    for _ in 0..10_000 {
        match has_reply(rt, thread_handles) {
            Ok(true) => return true,
            Ok(false) => thread::sleep(rt, Duration::from_millis(1)),
            Err(_) => return false,
        }
    }
    false
}

// Waits until the worker stands still, since the seat has no room for its next reply, and then takes all that come. How
// many these are, if the worker stood still before its last turn.
fn takes_all_late<R: Wait + Clock>(
    rt: &R,
    thread_handles: &mut Vec<ThreadHandle>,
    begun: &AtomicU64,
    taken: &AtomicU64,
) -> Result<Option<u64>, AllocError> {
    meet(rt, begun)?;
    let before = count_when_still(rt, taken);
    let mut replies = 0_u64;
    for _ in 0..CALLS {
        if has_reply_soon(rt, thread_handles) {
            replies = replies.wrapping_add(1);
        }
    }
    Ok((before < CALLS).then_some(replies))
}

fn turns_beside<R: Wait + Drop>(
    worker: &mut Worker<R>,
    begun: &AtomicU64,
    taken: &AtomicU64,
) -> Result<bool, RailFault> {
    begin(begun)?;
    turns_for_all(worker, taken)
}

// Whether a worker waits with a reply for which the seat has no room, and drops none: there are as many as turns that
// went, also if memory was refused to one. If it was refused, or there was none for the worker's thread, so is this.
fn waits_for_room<R: Wait + Threads + Clock + Send + Sync + Drop>(
    rt: &R,
    worker: &mut Worker<R>,
    thread_handles: &mut Vec<ThreadHandle>,
) -> Result<bool, RailFault> {
    let begun = AtomicU64::new(0);
    let taken = AtomicU64::new(0);
    let (went, replies) = thread::join(
        rt,
        || turns_beside(worker, &begun, &taken),
        || takes_all_late(rt, thread_handles, &begun, &taken),
    );
    if replies? == Some(taken.load(Ordering::SeqCst)) {
        went
    } else {
        Ok(false)
    }
}

// Whether that is so of the replies to as many calls.
fn replies_wait<R: Wait + Threads + Clock + Send + Sync + Drop + Copy>(
    rt: R,
    alloc: Global,
) -> Result<bool, RailFault> {
    let mut server = first_of(rt, alloc, 1, 1)?;
    let waited = match submits_all(&rt, alloc, &mut server.thread_handles) {
        Ok(true) => waits_for_room(&rt, &mut server.worker, &mut server.thread_handles),
        refused => refused,
    };
    drop(server);
    waited
}

#[test]
fn replies_without_room_wait(rt: HostRuntime) -> Result<(), Fail> {
    assert!(rt; replies_wait(rt, rt.alloc())?);
    Ok(())
}

// --- an inlet waits for a worker

// Brings as many messages, and counts them.
fn brings_all<R: Wait>(
    rt: &R,
    inlets: &mut Vec<Inlet>,
    begun: &AtomicU64,
    brought: &AtomicU64,
) -> Result<bool, AllocError> {
    begin(begun)?;
    for _ in 0..CALLS {
        if !brings(rt, inlets, News::Ack(0)) {
            return Ok(false);
        }
        brought.fetch_add(1, Ordering::SeqCst);
    }
    Ok(true)
}

// Waits until nothing more is brought, since the inbox has no room, and then takes a turn for each message. Whether one
// message was brought before the first turn.
fn turns_late<R: Wait + Clock + Drop>(
    rt: &R,
    worker: &mut Worker<R>,
    begun: &AtomicU64,
    brought: &AtomicU64,
) -> Result<bool, RailFault> {
    meet(rt, begun)?;
    let before = count_when_still(rt, brought);
    let taken = AtomicU64::new(0);
    let went = turns_for_all(worker, &taken);
    if before == 1 { went } else { Ok(false) }
}

// Whether an inlet waits with a message for which the inbox has no room, and is woken for each that is taken, also by a
// server that memory was refused to. If it was, or there was none for the inlet's thread, this is refused.
fn waits_for_turns<R: Wait + Threads + Clock + Send + Sync + Drop>(
    rt: &R,
    worker: &mut Worker<R>,
    inlets: &mut Vec<Inlet>,
) -> Result<bool, RailFault> {
    let begun = AtomicU64::new(0);
    let brought = AtomicU64::new(0);
    let (sent, went) = thread::join(
        rt,
        || brings_all(rt, inlets, &begun, &brought),
        || turns_late(rt, worker, &begun, &brought),
    );
    if sent? { went } else { Ok(false) }
}

// Whether that is so of an inbox with room for one message.
fn messages_wait<R: Wait + Threads + Clock + Send + Sync + Drop + Copy>(
    rt: R,
    alloc: Global,
) -> Result<bool, RailFault> {
    let mut server = first_with(rt, alloc, 2, 1, Room::least())?;
    let waited = waits_for_turns(&rt, &mut server.worker, &mut server.inlets);
    drop(server);
    waited
}

#[test]
fn messages_without_room_wait(rt: HostRuntime) -> Result<(), Fail> {
    assert!(rt; messages_wait(rt, rt.alloc())?);
    Ok(())
}
