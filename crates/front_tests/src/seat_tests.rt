//! Calls that are open at once at the seats of one pool, of two connections or of one: the server takes them in the
//! order in which they were sent.
ghost use Rattle.faces.specs.Histories.{IsLater};

use super::servers::pooled_with;
use in_process_links::InProcessLinks;
use io_threads::Pooled;
use rail::{Turn, Worker};
use seats::{ClientConnection, Pause, SeatPool};
use server_guards::Mark;
use std::alloc::Global;
use std::sync::Wait;

// Whether a connection that was fed with these bytes has sent a call, and waits for its reply.
#[tactic(auto, using(crate::proofs::Later::later_then))]
fn sends<R: Wait>(
    rt: &R,
    pool: &mut SeatPool,
    client_connection: &mut ClientConnection,
    bytes: &[u8],
) -> bool
    requires known { IsLater client_connection.old.seen pool.old.seen }
    ensures known { IsLater client_connection.new.seen pool.new.seen }
    ensures later { IsLater pool.old.seen pool.new.seen }
{
    let Ok(Pause::Input) = client_connection.advance(rt, pool) else {
        return false;
    };
    match client_connection.feed(bytes) {
        Ok(()) => matches!(client_connection.advance(rt, pool), Ok(Pause::Reply)),
        Err(_) => false,
    }
}

// Whether the reply to its call has come, and is this.
fn hears<R: Wait>(
    rt: &R,
    pool: &mut SeatPool,
    client_connection: &mut ClientConnection,
    reply: &[u8],
) -> bool
    requires known { IsLater client_connection.old.seen pool.old.seen }
    ensures known { IsLater client_connection.new.seen pool.new.seen }
    ensures later { IsLater pool.old.seen pool.new.seen }
{
    let heard = matches!(client_connection.receive_replies(rt, pool), Ok(true));
    heard && client_connection.output() == reply
}

// Whether a worker finds a call, and takes it.
fn takes<R: Wait + Copy + Drop>(rt: R, alloc: Global, worker: &mut Worker<R>) -> bool {
    let mut links = InProcessLinks::new(rt, 0, Vec::new(alloc));
    worker.turn_if_any(&mut links) == Ok(Some(Turn::Went))
}

// Whether both have sent a call: the first one sets what the second one appends to.
#[tactic(auto, using(crate::proofs::Later::later_then))]
fn both_send<R: Wait>(
    rt: &R,
    pool: &mut SeatPool,
    first: &mut ClientConnection,
    second: &mut ClientConnection,
) -> bool
    requires first { IsLater first.old.seen pool.old.seen }
    requires second { IsLater second.old.seen pool.old.seen }
    ensures first { IsLater first.new.seen pool.new.seen }
    ensures second { IsLater second.new.seen pool.new.seen }
{
    let sets = sends(rt, pool, first, b"set a 0 0 1\r\nx\r\n");
    let appends = sends(rt, pool, second, b"append a 0 0 1\r\ny\r\n");
    sets && appends
}

// Whether both hear that this was done.
#[tactic(auto, using(crate::proofs::Later::later_then))]
fn both_hear<R: Wait>(
    rt: &R,
    pool: &mut SeatPool,
    first: &mut ClientConnection,
    second: &mut ClientConnection,
) -> bool
    requires first { IsLater first.old.seen pool.old.seen }
    requires second { IsLater second.old.seen pool.old.seen }
    ensures first { IsLater first.new.seen pool.new.seen }
    ensures second { IsLater second.new.seen pool.new.seen }
{
    let appended = hears(rt, pool, second, b"STORED\r\n");
    let set = hears(rt, pool, first, b"STORED\r\n");
    appended && set
}

// Whether a pool's second seat sends its call while the first one's is open, and both are taken in this order: what is
// appended finds what was set.
#[tactic(auto, using(crate::proofs::Later::later_same))]
fn are_taken_in_order<R: Wait + Copy + Drop>(
    rt: R,
    alloc: Global,
    worker: &mut Worker<R>,
    pool: &mut SeatPool,
) -> bool {
    let mut first = ClientConnection::new(alloc, pool);
    let mut second = ClientConnection::new(alloc, pool);
    let sent = both_send(&rt, pool, &mut first, &mut second);
    let set_is_taken = takes(rt, alloc, worker);
    let append_is_taken = takes(rt, alloc, worker);
    let heard = both_hear(&rt, pool, &mut first, &mut second);
    first.leave(pool);
    second.leave(pool);
    sent && set_is_taken && append_is_taken && heard
}

// Whether a connection sends the second of two updates before the first has its reply, and hears both in turn.
#[tactic(auto, using(crate::proofs::Later::later_same))]
fn is_sent_ahead<R: Wait + Copy + Drop>(
    rt: R,
    alloc: Global,
    worker: &mut Worker<R>,
    pool: &mut SeatPool,
) -> bool {
    pool.let_ahead(1);
    let mut both = ClientConnection::new(alloc, pool);
    let requests = b"set a 0 0 1 noreply\r\n1\r\nincr a 41\r\n";
    let sent = sends(&rt, pool, &mut both, requests);
    let set_is_taken = takes(rt, alloc, worker);
    let incr_is_taken = takes(rt, alloc, worker);
    let heard = hears(&rt, pool, &mut both, b"42\r\n");
    both.leave(pool);
    sent && set_is_taken && incr_is_taken && heard
}

// The same, of the only server of a chain, with two seats: of two connections, or of one that sends ahead.
fn open_calls_are_taken_in_order<R: Wait + Copy + Drop>(
    rt: R,
    alloc: Global,
    of_one: bool,
) -> Option<bool> {
    let mark = Mark::new(alloc).ok()?;
    let Pooled {
        mut worker,
        mut pools,
        inlets,
    } = pooled_with(rt, alloc, 1, 2, 1, None, &mark)?;
    drop(inlets);
    let in_order = match pools.last_mut() {
        Some(pool) if of_one => is_sent_ahead(rt, alloc, &mut worker, pool),
        Some(pool) => are_taken_in_order(rt, alloc, &mut worker, pool),
        None => false,
    };
    drop(pools);
    drop(worker);
    Some(in_order)
}

#[test]
fn two_seats_of_one_pool(rt: HostRuntime) {
    assert_eq!(rt;
        open_calls_are_taken_in_order(rt, rt.alloc(), false),
        Some(true)
    );
}

#[test]
fn two_updates_of_one_connection(rt: HostRuntime) {
    assert_eq!(rt;
        open_calls_are_taken_in_order(rt, rt.alloc(), true),
        Some(true)
    );
}
