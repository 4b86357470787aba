//! Tests over running servers.
ghost use Rattle.std.specs.Prelude.{◌≡◌};

pub(crate) mod running;
mod waiting;

use self::running::{
    News, Step, all_go, all_go_with, brings, first_of, go_on, is_closed, key, submits, turns,
};
use node::{Look, Peer};
use rail::{
    Links, PortSet, Published, RailFault, Reader, Room, Server, ThreadHandle, Turn, Weight, Worker,
};
use std::alloc::{AllocError, Global};
use std::sync::Wait;
use std::sync::atomic::{AtomicU64, Ordering};
use std::test::Fail;
use std::thread;
use std::thread::Threads;
use std::time::{Clock, Duration};
use table::Key;

#[test]
fn reader_sees_its_own_write(rt: HostRuntime) -> Result<(), Fail> {
    let steps = [
        Step::Submits,
        Step::Turns(Turn::Went),
        Step::SeesItsWrite,
        Step::TurnsIfAny(None),
    ];
    assert!(rt; all_go(rt, rt.alloc(), 1, 2, &steps)?);
    Ok(())
}

#[test]
fn worker_names_whom_it_replied_to(rt: HostRuntime) -> Result<(), Fail> {
    let steps = [
        Step::Replied(false, false),
        Step::Submits,
        Step::Turns(Turn::Went),
        Step::Replied(false, true),
        Step::Weighs(Weight { items: 1, bytes: 2 }),
        Step::Replied(false, false),
    ];
    assert!(rt; all_go(rt, rt.alloc(), 1, 2, &steps)?);
    Ok(())
}

#[test]
fn worker_that_stops_names_all_ports(rt: HostRuntime) -> Result<(), Fail> {
    let steps = [
        Step::Brings(News::Stop),
        Step::Turns(Turn::Stopped),
        Step::Replied(true, true),
        Step::Weighs(Weight { items: 0, bytes: 0 }),
    ];
    assert!(rt; all_go(rt, rt.alloc(), 1, 2, &steps)?);
    Ok(())
}

#[test]
fn stop_ends_open_calls(rt: HostRuntime) -> Result<(), Fail> {
    let steps = [
        Step::Submits,
        Step::Turns(Turn::Went),
        Step::Brings(News::Stop),
        Step::Turns(Turn::Stopped),
        Step::IsClosed,
    ];
    assert!(rt; all_go(rt, rt.alloc(), 2, 1, &steps)?);
    Ok(())
}

// Whether a worker takes these steps, and then a thread handle and an inlet outlive it, which are refused what they
// send.
fn outlive<R: Wait + Drop + Copy>(rt: R, alloc: Global, steps: &[Step]) -> Result<bool, RailFault> {
    let mut server = first_of(rt, alloc, 2, 1)?;
    let went = go_on(&rt, alloc, &mut server, steps);
    let Server {
        worker,
        mut thread_handles,
        seats,
        mut inlets,
    } = server;
    drop(worker);
    drop(seats);
    let sent = submits(&rt, alloc, &mut thread_handles);
    let closed = is_closed(&rt, alloc, &mut thread_handles);
    let brought = brings(&rt, &mut inlets, News::Ack(0));
    drop(thread_handles);
    drop(inlets);
    Ok(went? && !sent? && closed && !brought)
}

#[test]
fn worker_ends(rt: HostRuntime) -> Result<(), Fail> {
    let steps = [
        Step::Brings(News::Gone),
        Step::Brings(News::End),
        Step::Turns(Turn::Went),
        Step::Turns(Turn::End),
    ];
    assert!(rt; outlive(rt, rt.alloc(), &steps)?);
    Ok(())
}

// Whether a worker is told so after all who send to it are gone.
fn is_told_alone<R: Wait + Drop + Copy>(rt: R, alloc: Global) -> Result<bool, RailFault> {
    let Server {
        mut worker,
        thread_handles,
        seats,
        inlets,
    } = first_of(rt, alloc, 2, 1)?;
    drop(thread_handles);
    drop(seats);
    drop(inlets);
    let turned = turns(&mut worker, Turn::Went);
    drop(worker);
    Ok(turned == Err(RailFault::Closed))
}

#[test]
fn senders_go_first(rt: HostRuntime) -> Result<(), Fail> {
    assert!(rt; is_told_alone(rt, rt.alloc())?);
    Ok(())
}

// Whether two sets of ports make one that has the ports of both.
fn merges() -> bool {
    let mut ports = PortSet::new();
    ports.add(0);
    let mut others = PortSet::new();
    others.add(15);
    others.add(63);
    ports.merge(others);
    ports.has(0) && ports.has(15) && ports.has(63) && !ports.has(1) && !ports.has(62)
}

#[test]
fn sets_of_ports(rt: HostRuntime) {
    assert!(rt; merges());
}

// Whether a reader finds that a key has no item.
fn finds_none(reader: &mut Reader, key: &Key) -> bool
    ensures { reader.new.seen.instance ≡ reader.old.seen.instance }
{
    match reader.look(key) {
        Ok(look) => {
            let is_none = matches!(look, Look::Clean(None));
            drop(look);
            is_none
        }
        Err(_) => false,
    }
}

/// Waits until a flag is set, for ten seconds at most.
pub(crate) fn is_set_soon<R: Clock>(clock: &R, flag: &AtomicU64) -> bool {
    for _ in 0..10_000 {
        if flag.load(Ordering::SeqCst) == 1 {
            return true;
        }
        thread::sleep(clock, Duration::from_millis(1));
    }
    false
}

// A link that sets a flag, holds its message until another is set, and then fails.
#[derive(Drop)]
struct Held<'a, R: Clock> {
    clock: &'a R,
    entered: &'a AtomicU64,
    looked: &'a AtomicU64,
    in_time: bool,
    failures: u64,
}

impl<'a, R: Clock> Links for Held<'a, R> {
    ghost use Rattle.std.specs.Prelude.{[]};

    ghost Carried = { Unit {0} };

    ghost state = { λ s. record {
      list = [];
      failures = λ j. s.failures;
      carried = λ j. [];
      spelled = λ peer. [];
    } };

    fn failed(&self, _to: u8) -> bool {
        self.failures > 0
    }

    fn put(&mut self, _published: &Published, _to: u8, peer: Peer) -> Result<(), RailFault> {
        drop(peer);
        self.entered.store(1, Ordering::SeqCst);
        self.in_time = is_set_soon(self.clock, self.looked);
        self.failures = 1;
        Err(RailFault::LinkDown)
    }
}

// Waits until the worker is in the midst of a turn, and looks at a key that has no item. Refused if the worker got no
// thread.
fn looks_beside<R: Clock>(
    clock: &R,
    thread_handle: &mut ThreadHandle,
    b: &Key,
    entered: &AtomicU64,
    looked: &AtomicU64,
) -> Result<bool, AllocError> {
    if !is_set_soon(clock, entered) {
        return Err(AllocError);
    }
    let clean = finds_none(&mut thread_handle.reader, b);
    looked.store(1, Ordering::SeqCst);
    Ok(clean)
}

// Whether a thread handle looks in time at a key without item, while the worker's turn waits at a link.
fn looks_while_held<R: Wait + Threads + Clock + Send + Sync + Drop>(
    rt: &R,
    worker: &mut Worker<R>,
    thread_handle: &mut ThreadHandle,
    b: &Key,
) -> Result<bool, RailFault> {
    let entered = AtomicU64::new(0);
    let looked = AtomicU64::new(0);
    let mut held = Held {
        clock: rt,
        entered: &entered,
        looked: &looked,
        in_time: false,
        failures: 0,
    };
    let (turned, clean) = thread::join(
        rt,
        || {
            let turned = worker.turn(&mut held);
            // A turn that failed lets the other thread go on too.
            entered.store(1, Ordering::SeqCst);
            turned
        },
        || looks_beside(rt, thread_handle, b, &entered, &looked),
    );
    let went = turned? == Turn::Went;
    let clean = clean?;
    Ok(went && held.in_time && clean)
}

// Whether the second thread handle of a server looks so while the call of the first is taken.
fn second_looks<R: Wait + Threads + Clock + Send + Sync + Drop + Copy>(
    rt: R,
    alloc: Global,
) -> Result<bool, RailFault> {
    let b = key(alloc, b"b")?;
    let mut server = first_of(rt, alloc, 2, 2)?;
    let looked = match server.thread_handles.pop() {
        Some(mut second) => {
            let looked = match submits(&rt, alloc, &mut server.thread_handles) {
                Ok(true) => looks_while_held(&rt, &mut server.worker, &mut second, &b),
                refused => refused,
            };
            drop(second);
            looked
        }
        None => Err(RailFault::NoReader),
    };
    drop(server);
    looked
}

#[test]
fn reader_beside_a_waiting_worker(rt: HostRuntime) -> Result<(), Fail> {
    assert!(rt; second_looks(rt, rt.alloc())?);
    Ok(())
}

// An inbox with room for one message takes the next one as soon as the worker has taken it.
#[test]
fn inbox_of_one_message(rt: HostRuntime) -> Result<(), Fail> {
    let steps = [
        Step::TurnsIfAny(None),
        Step::Submits,
        Step::Turns(Turn::Went),
        Step::Brings(News::Ack(0)),
        Step::TurnsIfAny(Some(Turn::Went)),
        Step::SeesItsWrite,
        Step::TurnsIfAny(None),
        Step::Brings(News::Stop),
        Step::Turns(Turn::Stopped),
        Step::IsClosed,
        Step::Brings(News::End),
        Step::Turns(Turn::End),
    ];
    assert!(rt; all_go_with(rt, rt.alloc(), 1, 2, Room::least(), &steps)?);
    Ok(())
}
