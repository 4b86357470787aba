//! A peer port, at which a master greets while another thread learns of a failure.

use crate::rail_tests::running::{first_of, key};
use leases::Lease;
use links::{GreeterInlets, LinkControl, PeerPort, Response, Speaker};
use node::View;
use peers::Identity;
use rail::RailFault;
use server_guards::Mark;
use std::alloc::Global;
use std::sync::{Arc, Wait};
use std::test::Fail;
use std::thread::Threads;
use std::time::{Clock, Duration};
use std::{io, thread};
use wire::{Alive, Frame, Introduction, MASTER};

// How often one waits a millisecond for a mark that is surely set, and for one that isn't set but by a fault.
const SURELY: u64 = 30_000;

const HARDLY: u64 = 200;

// Whether a mark is set within this many milliseconds.
fn is_set_within<C: Clock>(clock: &C, mark: &Mark, milliseconds: u64) -> bool {
    for _ in 0..milliseconds {
        if mark.is_set() {
            return true;
        }
        thread::sleep(clock, Duration::from_millis(1));
    }
    mark.is_set()
}

// A clock that says when it is read, and shows nothing while another thread may learn of a failure.
#[derive(Drop)]
struct SlowClock<R: Clock> {
    clock: R,
    is_read: Mark,
    has_learned: Mark,
}

impl<R: Clock> Clock for SlowClock<R> {
    fn monotonic(&self) -> io::Result<Duration> {
        self.is_read.set();
        let _ = is_set_within(&self.clock, &self.has_learned, HARDLY);
        self.clock.monotonic()
    }

    fn since_1970(&self) -> io::Result<Duration> {
        self.clock.since_1970()
    }
}

impl<R: Clock> LinkControl for SlowClock<R> {
    type ServerClock = SlowClock<R>;

    fn cut<W: Wait>(&self, _rt: &W, _j: u8) {}

    fn end(&self) {}

    fn clock(&self) -> &SlowClock<R> {
        self
    }

    fn renewed(&self, _lease: &Lease) {}
}

// How a server says that it is, as a master of this epoch greets.
fn answer<R: Wait, C: LinkControl>(
    rt: &R,
    port: &PeerPort<C>,
    master: &mut Speaker,
    epoch: u64,
) -> Result<Alive, RailFault> {
    match master.hear(rt, port, Frame::Reign(epoch)) {
        Ok(Response::Alive(alive)) => Ok(alive),
        _ => Err(RailFault::Memory),
    }
}

// Whom a server says to be gone as a master greets, if another thread learns that server 2 is as soon as the clock is
// read for that; and whom as the master greets again. Refused with Memory if any of this doesn't come to pass.
fn gone_before_and_after<R: Wait + Threads + Clock + Copy + Drop + Send + Sync + 'static>(
    rt: R,
    alloc: Global,
) -> Result<(u16, u16), RailFault> {
    let mut server = first_of(rt, alloc, 3, 1)?;
    let (is_read, has_learned) = (Mark::new(alloc)?, Mark::new(alloc)?);
    let clock = SlowClock {
        clock: rt,
        is_read: is_read.share()?,
        has_learned: has_learned.share()?,
    };
    let (id, servers, start) = (0, 3, 1);
    let host = Identity {
        id,
        servers,
        start,
        chain: key(alloc, b"c")?,
    };
    let inlet = server.inlets.pop().ok_or(RailFault::Memory)?;
    let port = PeerPort::new(
        host,
        GreeterInlets::new(alloc, Vec::new(alloc))?,
        inlet,
        None,
        clock,
    );
    let port = Arc::new(alloc, port)?;
    let chain = key(alloc, b"c")?;
    let opener = Introduction {
        servers,
        start,
        chain,
    };
    let greeted = port.greet(&rt, alloc, MASTER, &opener);
    let (mut master, _) = greeted.ok().ok_or(RailFault::Memory)?;
    let other = Arc::try_clone(&port)?;
    let learning = thread::spawn(&rt, move || {
        let is_read = is_set_within(&rt, &is_read, SURELY);
        let _ = other.learn(&rt, View::single(2));
        has_learned.set();
        is_read
    });
    let learning = learning.ok().ok_or(RailFault::Memory)?;
    let before = answer(&rt, &port, &mut master, 1);
    let was_read = learning.join(&rt);
    let after = answer(&rt, &port, &mut master, 2);
    drop(server);
    if was_read {
        Ok((before?.gone, after?.gone))
    } else {
        Err(RailFault::Memory)
    }
}

#[test]
fn clock_is_read_once_it_is_known_who_is_gone(rt: HostRuntime) -> Result<(), Fail> {
    let gone = gone_before_and_after(rt, rt.alloc())?;
    assert!(rt; gone == (0, 4));
    Ok(())
}
