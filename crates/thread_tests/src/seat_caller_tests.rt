//! A seat of a server that answers calls: those of a thread's connections, and single ones.
ghost use Rattle.std.specs.Prelude.{All};
ghost use Rattle.seats.specs.Replies.{HasAllReplies};

use crate::ending::holds;
use crate::rail_tests::running::{first_of, key, turns};
use crate::seat_thread_tests::{client, listen, says};
use rail::{RailFault, Server, ThreadHandle, Turn, Worker};
use seat_threads::serve_seats;
use seats::SeatCaller;
use server_guards::Mark;
use serving::{CallFault, Caller};
use std::alloc::{AllocError, Global};
use std::io::{Read, Write};
use std::net::{Net, TcpListener, TcpStream};
use std::sync::Wait;
use std::test::Fail;
use std::thread;
use std::thread::{JoinHandle, Threads};
use table::{Op, Reply, SharedBytes, Target};

// More turns than there are calls here.
const TURNS: u64 = 100;

// --- a server and one of its seats

// The first of n servers: its worker, and a seat that answers calls until the mark is set. Nobody else sends to it.
fn open_seat<R: Wait + Drop + Copy>(
    rt: R,
    alloc: Global,
    count: u8,
    mark: &Mark,
) -> Result<(Worker<R>, SeatCaller), RailFault> {
    let Server {
        worker,
        thread_handles,
        seats,
        inlets,
    } = first_of(rt, alloc, count, 1)?;
    drop(seats);
    drop(inlets);
    match last_seat(thread_handles, mark) {
        Ok(caller) => Ok((worker, caller)),
        Err(fault) => {
            drop(worker);
            Err(fault)
        }
    }
}

// The seat of the last of these.
fn last_seat(thread_handles: Vec<ThreadHandle>, mark: &Mark) -> Result<SeatCaller, RailFault>
    requires { All (λ thread_handle. HasAllReplies thread_handle.seat) thread_handles.items }
{
    let mark = mark.share()?;
    let mut thread_handles = thread_handles;
    match thread_handles.pop() {
        Some(thread_handle) => Ok(SeatCaller::new(thread_handle, mark)),
        None => {
            drop(mark);
            Err(RailFault::NoReader)
        }
    }
}

// Takes turns until nobody sends any more, as many as this at most, and ends the server.
fn take_turns<R: Wait + Drop>(worker: Worker<R>, most: u64) {
    let mut worker = worker;
    for _ in 0..most {
        if turns(&mut worker, Turn::Went) != Ok(true) {
            return;
        }
    }
}

// Has a thread take them.
fn start_turns<R: Wait + Threads + Copy + Drop + Send + 'static>(
    rt: R,
    worker: Worker<R>,
    most: u64,
) -> Result<JoinHandle<()>, AllocError> {
    let started = thread::spawn(&rt, move || take_turns(worker, most))?;
    Ok(started)
}

// --- connections

// What a client asks, and what it is told.
static EXCHANGES: [(&[u8], &[u8]); 8] = [
    (b"set a 5 0 2\r\n41\r\n", b"STORED\r\n"),
    (b"get a\r\n", b"VALUE a 5 2\r\n41\r\nEND\r\n"),
    (b"incr a 1\r\n", b"42\r\n"),
    (b"get a b\r\n", b"VALUE a 5 2\r\n42\r\nEND\r\n"),
    (b"delete a\r\n", b"DELETED\r\n"),
    (b"get a\r\n", b"END\r\n"),
    (b"delete a\r\n", b"NOT_FOUND\r\n"),
    (b"incr a 1\r\n", b"NOT_FOUND\r\n"),
];

// Whether a client is told all of that, each before it asks the next.
fn is_told_all(stream: &mut TcpStream) -> Result<bool, AllocError> {
    for (asked, told) in EXCHANGES {
        if stream.write_all(asked).is_err() {
            return Err(AllocError);
        }
        if !says(stream, told)? {
            return Ok(false);
        }
    }
    Ok(true)
}

// Whether a connection on which this is asked ends without a byte. Refused if it ends before that was read.
fn is_ended(stream: &mut TcpStream, asked: &[u8]) -> Result<bool, AllocError> {
    if stream.write_all(asked).is_err() {
        return Err(AllocError);
    }
    let mut byte = [0u8];
    match stream.read(byte.as_mut_slice()) {
        Ok(n) => Ok(n == 0),
        Err(_) => Err(AllocError),
    }
}

// Whether a client is told all of that and quits; the next one is told nothing, once the server is marked; and the one
// after that is told nothing though it asks nothing, once those who serve are.
fn clients_are_told<R: Net<Listener = TcpListener, Stream = TcpStream>>(
    rt: &R,
    port: u16,
    server: &Mark,
    serving: &Mark,
) -> Result<bool, AllocError> {
    let mut first = client(rt, port)?;
    let told = is_told_all(&mut first);
    let quits = is_ended(&mut first, b"quit\r\n");
    server.set();
    let mut second = client(rt, port)?;
    let refused = is_ended(&mut second, b"get a\r\n");
    serving.set();
    let mut third = client(rt, port)?;
    let closed = is_ended(&mut third, b"");
    Ok(told? && quits? && refused? && closed?)
}

// Whether a thread serves these three over this seat, one after the other.
fn serves_over<
    R: Wait
        + Threads
        + Net<Listener = TcpListener, Stream = TcpStream>
        + Copy
        + Drop
        + Send
        + 'static,
>(rt: R, alloc: Global, caller: SeatCaller, server: Mark) -> Result<bool, AllocError> {
    let mut callers = Vec::with_capacity(alloc, 1)?;
    callers.push_reserved(caller);
    let mark = Mark::new(alloc)?;
    let serving = mark.share()?;
    let (listener, port) = listen(&rt)?;
    let clients = thread::spawn(&rt, move || clients_are_told(&rt, port, &server, &serving))?;
    let served = serve_seats(rt, alloc, &listener, callers, 3, &mark);
    drop(listener);
    let told = clients.join(&rt);
    if served.is_ok() {
        told
    } else {
        Err(AllocError)
    }
}

// The same of a seat at a server alone, whose worker ends once the seat is gone.
fn seat_serves<
    R: Wait
        + Threads
        + Net<Listener = TcpListener, Stream = TcpStream>
        + Copy
        + Drop
        + Send
        + 'static,
>(rt: R, alloc: Global) -> Result<bool, RailFault> {
    let mark = Mark::new(alloc)?;
    let (worker, caller) = open_seat(rt, alloc, 1, &mark)?;
    let turns = start_turns(rt, worker, TURNS)?;
    let serves = serves_over(rt, alloc, caller, mark);
    turns.join(&rt);
    Ok(serves?)
}

#[test]
fn seat_serves_connections(rt: HostRuntime) -> Result<(), Fail> {
    holds(seat_serves(rt, rt.alloc()))
}

// --- single calls

// What a seat replies to a call. Refused with Memory if the call is: while the server goes on, for nothing else.
fn reply_to<R: Wait>(
    rt: &R,
    caller: &mut SeatCaller,
    target: &Target,
    op: &Op,
) -> Result<Reply, RailFault> {
    if op.fits() && op.suits(target) {
        match caller.call(rt, target, op) {
            Ok(reply) => Ok(reply),
            Err(CallFault) => Err(RailFault::Memory),
        }
    } else {
        Err(RailFault::Closed)
    }
}

// Whether a call is refused.
fn is_refused<R: Wait>(rt: &R, caller: &mut SeatCaller, target: &Target, op: &Op) -> bool {
    reply_to(rt, caller, target, op) == Err(RailFault::Memory)
}

fn key_a(alloc: Global) -> Result<Target, RailFault> {
    Ok(Target::One(key(alloc, b"a")?))
}

// A set to `v`, with flags 5.
fn set_to_v(alloc: Global) -> Result<Op, RailFault> {
    Ok(Op::Set(5, SharedBytes::copy_from_slice(alloc, b"v")?))
}

// Whether this is what a read finds after that, if it was the first update.
fn is_v(reply: &Reply) -> bool {
    match reply {
        Reply::Value(Some(item)) => {
            item.flags() == 5 && item.bytes().as_slice() == b"v".as_slice() && item.unique() == 1
        }
        _ => false,
    }
}

// Whether a set is answered, and then a read finds it; and once the mark is set, neither is answered.
fn answers<R: Wait>(
    rt: &R,
    alloc: Global,
    caller: &mut SeatCaller,
    mark: &Mark,
) -> Result<bool, RailFault> {
    let target = key_a(alloc)?;
    let set = set_to_v(alloc)?;
    let stored = reply_to(rt, caller, &target, &set)? == Reply::Stored;
    let found = is_v(&reply_to(rt, caller, &target, &Op::Read)?);
    mark.set();
    let no_read = is_refused(rt, caller, &target, &Op::Read);
    let no_set = is_refused(rt, caller, &target, &set);
    Ok(stored && found && no_read && no_set)
}

// Whether a seat at a server alone answers so.
fn seat_answers<R: Wait + Threads + Copy + Drop + Send + 'static>(
    rt: R,
    alloc: Global,
) -> Result<bool, RailFault> {
    let mark = Mark::new(alloc)?;
    let (worker, mut caller) = open_seat(rt, alloc, 1, &mark)?;
    let turns = start_turns(rt, worker, TURNS)?;
    let answers = answers(&rt, alloc, &mut caller, &mark);
    drop(caller);
    turns.join(&rt);
    answers
}

#[test]
fn seat_answers_single_calls(rt: HostRuntime) -> Result<(), Fail> {
    holds(seat_answers(rt, rt.alloc()))
}

// Whether a seat answers a read though nobody takes the server's turns, and no call once the server has ended.
fn reads_need_no_turn<R: Wait + Drop + Copy>(rt: R, alloc: Global) -> Result<bool, RailFault> {
    let target = key_a(alloc)?;
    let set = set_to_v(alloc)?;
    let mark = Mark::new(alloc)?;
    let (worker, mut caller) = open_seat(rt, alloc, 1, &mark)?;
    let reply = reply_to(&rt, &mut caller, &target, &Op::Read);
    drop(worker);
    let no_set = is_refused(&rt, &mut caller, &target, &set);
    let no_read = is_refused(&rt, &mut caller, &target, &Op::Read);
    drop(caller);
    Ok(reply? == Reply::Value(None) && no_set && no_read)
}

#[test]
fn seat_reads_beside_its_server(rt: HostRuntime) -> Result<(), Fail> {
    holds(reads_need_no_turn(rt, rt.alloc()))
}

// Whether a set is refused that the first of two servers has taken, and to which it has no reply when it ends.
fn open_call_is_refused<R: Wait + Threads + Copy + Drop + Send + 'static>(
    rt: R,
    alloc: Global,
) -> Result<bool, RailFault> {
    let target = key_a(alloc)?;
    let set = set_to_v(alloc)?;
    let mark = Mark::new(alloc)?;
    let (worker, mut caller) = open_seat(rt, alloc, 2, &mark)?;
    let turns = start_turns(rt, worker, 1)?;
    let refused = is_refused(&rt, &mut caller, &target, &set);
    drop(caller);
    turns.join(&rt);
    Ok(refused)
}

#[test]
fn server_ends_before_it_replies(rt: HostRuntime) -> Result<(), Fail> {
    holds(open_call_is_refused(rt, rt.alloc()))
}
