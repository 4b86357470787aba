//! Threads that serve connections, one for each caller, where a caller waits for another.

use crate::ending::holds;
use ends::Failures;
use seat_threads::serve_seats;
use server_guards::Mark;
use serving::{CallFault, Caller};
use std::alloc::{AllocError, Global};
use std::io::{Read, Write};
use std::net::{Ipv4Addr, Net, TcpListener, TcpStream};
use std::sync::Wait;
use std::test::Fail;
use std::thread;
use std::thread::Threads;
use std::time::{Clock, Duration};
use table::{Op, Reply, Target};

// How long a client waits for the next byte, in seconds, before it gives up.
const LIMIT: u64 = 50;

// How often a caller looks for the other's flag, and the pause after each look, in milliseconds.
const TURNS: usize = 10_000;

const PAUSE: u64 = 1;

// One of two callers. The first sets its flag, and answers once it sees the second's, which that one sets once it sees
// the first's.
#[derive(Drop)]
struct Meeting<R: Clock> {
    clock: R,
    comes_first: bool,
    mine: Mark,
    theirs: Mark,
    failures: Failures,
}

impl<R: Clock> Meeting<R> {
    // Whether the other's flag is set soon, and this one's by then.
    fn meets(&self) -> bool {
        if self.comes_first {
            self.mine.set();
        }
        for _ in 0..TURNS {
            if self.theirs.is_set() {
                self.mine.set();
                return true;
            }
            thread::sleep(&self.clock, Duration::from_millis(PAUSE));
        }
        false
    }
}

impl<R: Clock> Caller for Meeting<R> {
    ghost answers = { λ before call reply after. Unit {0} };

    ghost failures = { λ caller. caller.failures };

    fn call<W: Wait>(&mut self, _rt: &W, _target: &Target, op: &Op) -> Result<Reply, CallFault> {
        match op {
            Op::Read if self.meets() => Ok(Reply::Value(None)),
            _ => {
                self.failures.rise();
                Err(CallFault)
            }
        }
    }
}

// Two such callers.
fn two_callers<R: Clock + Copy + Drop>(
    clock: R,
    alloc: Global,
) -> Result<Vec<Meeting<R>>, AllocError> {
    let (here, there) = (Mark::new(alloc)?, Mark::new(alloc)?);
    let mut callers = Vec::with_capacity(alloc, 2)?;
    callers.push_reserved(Meeting {
        clock,
        comes_first: true,
        mine: here.share()?,
        theirs: there.share()?,
        failures: Failures::new(),
    });
    callers.push_reserved(Meeting {
        clock,
        comes_first: false,
        mine: there,
        theirs: here,
        failures: Failures::new(),
    });
    Ok(callers)
}

/// A listener at a port that nobody else has, and the port. Refused if the system refuses it.
pub(crate) fn listen<R: Net<Listener = TcpListener, Stream = TcpStream>>(
    rt: &R,
) -> Result<(TcpListener, u16), AllocError> {
    let listener = TcpListener::bind(rt, (Ipv4Addr::LOCALHOST, 0))
        .ok()
        .ok_or(AllocError)?;
    let address = listener.local_addr().ok().ok_or(AllocError)?;
    Ok((listener, address.port()))
}

/// A connection to this port. Refused if the system refuses it.
pub(crate) fn client<R: Net<Listener = TcpListener, Stream = TcpStream>>(
    rt: &R,
    port: u16,
) -> Result<TcpStream, AllocError> {
    let stream = TcpStream::connect(rt, (Ipv4Addr::LOCALHOST, port))
        .ok()
        .ok_or(AllocError)?;
    let limit = Duration::from_secs(LIMIT);
    match stream.set_read_timeout(Some(limit)) {
        Ok(()) => Ok(stream),
        Err(_) => Err(AllocError),
    }
}

/// Whether these bytes come next. Refused if the connection ends before: memory was refused to whoever serves it.
pub(crate) fn says(stream: &mut TcpStream, text: &[u8]) -> Result<bool, AllocError> {
    for wanted in text {
        let mut byte = [0u8];
        match stream.read(byte.as_mut_slice()) {
            Ok(1) if byte[0] == *wanted => {}
            Ok(1) => return Ok(false),
            _ => return Err(AllocError),
        }
    }
    Ok(true)
}

// Whether two connections are answered, each of which has asked before.
fn both_are_answered<R: Net<Listener = TcpListener, Stream = TcpStream>>(
    rt: &R,
    port: u16,
) -> Result<bool, AllocError> {
    let mut first = client(rt, port)?;
    let mut second = client(rt, port)?;
    let sent = first.write_all(b"get a\r\n").is_ok() && second.write_all(b"get a\r\n").is_ok();
    Ok(sent && says(&mut first, b"END\r\n")? && says(&mut second, b"END\r\n")?)
}

// Whether two connections are served by callers that wait for each other, and both threads end then.
fn threads_meet<
    R: Wait
        + Threads
        + Clock
        + Net<Listener = TcpListener, Stream = TcpStream>
        + Copy
        + Drop
        + Send
        + 'static,
>(rt: R, alloc: Global) -> Result<bool, AllocError> {
    let callers = two_callers(rt, alloc)?;
    let mark = Mark::new(alloc)?;
    let (listener, port) = listen(&rt)?;
    let serving = thread::spawn(
        &rt,
        move || serve_seats(rt, alloc, &listener, callers, 1, &mark).is_ok(),
    )?;
    let answered = both_are_answered(&rt, port);
    let served = serving.join(&rt);
    if served { answered } else { Err(AllocError) }
}

#[test]
fn connections_have_threads(rt: HostRuntime) -> Result<(), Fail> {
    holds(threads_meet(rt, rt.alloc()))
}
