//! A chain of three whose servers are visited by hand, without threads: no message is left lying.
ghost use Rattle.faces.specs.Histories.{IsLater};

use super::helping::{shares_of_one, three_parts};
use craq_cluster::ServerParts;
use craq_process::Scheduler;
use in_process_links::{InProcessLinks, ServerSet};
use io_threads::{TurnScheduler, open_loop_handles};
use seats::{ClientConnection, Pause, SeatPool};
use std::alloc::Global;
use std::net::Net;
use std::sync::{Arc, Wait};
use std::test::Fail;
use std::thread::Threads;

// The most turns that a call may take at all servers, and the most visits.
const TURNS: usize = 16;

const VISITS: usize = 64;

// Visits are made where the last one said that a turn is due, one turn each, until none is due anywhere.
#[test]
fn visits_for_one_turn(rt: HostRuntime) -> Result<(), Fail> {
    assert!(rt; all_pass(rt, rt.alloc(), 1).ok_or("a chain")?);
    Ok(())
}

// The same, with as many turns as there are at each visit.
#[test]
fn visits_for_many_turns(rt: HostRuntime) -> Result<(), Fail> {
    assert!(rt; all_pass(rt, rt.alloc(), 64).ok_or("a chain")?);
    Ok(())
}

// Whether a set at each server is answered within a few turns, once no turn is due any more, and each server's look
// then shows what was set: so each message of the chain was taken.
fn all_pass<R: Wait + Threads + Net + Copy + Drop>(
    rt: R,
    alloc: Global,
    most: usize,
) -> Option<bool> {
    let (loop_handles, polls) = open_loop_handles(&rt, alloc, shares_of_one()).ok()?;
    let loop_handles = Arc::new(alloc, loop_handles).ok()?;
    let (scheduler, mut all_server_parts) = three_parts(rt, alloc, &loop_handles)?;
    let passed = each_passes(&rt, alloc, &scheduler, &mut all_server_parts, most);
    drop(all_server_parts);
    drop(scheduler);
    drop(polls);
    Some(passed)
}

fn each_passes<R: Wait + Drop>(
    rt: &R,
    alloc: Global,
    scheduler: &Scheduler<R, InProcessLinks<R>>,
    all_server_parts: &mut Vec<ServerParts>,
    most: usize,
) -> bool {
    for id in 0..3u8 {
        if !sets_at(rt, alloc, scheduler, all_server_parts, id, most)
            || !all_show(rt, alloc, all_server_parts)
        {
            return false;
        }
    }
    true
}

fn sets_at<R: Wait + Drop>(
    rt: &R,
    alloc: Global,
    scheduler: &Scheduler<R, InProcessLinks<R>>,
    all_server_parts: &mut Vec<ServerParts>,
    id: u8,
    most: usize,
) -> bool {
    match pool_of(all_server_parts, id) {
        Some(pool) => sets(rt, alloc, scheduler, pool, id, most),
        None => false,
    }
}

fn all_show<R: Wait>(rt: &R, alloc: Global, all_server_parts: &mut Vec<ServerParts>) -> bool {
    for id in 0..3u8 {
        if !shows_at(rt, alloc, all_server_parts, id) {
            return false;
        }
    }
    true
}

fn shows_at<R: Wait>(
    rt: &R,
    alloc: Global,
    all_server_parts: &mut Vec<ServerParts>,
    id: u8,
) -> bool {
    match pool_of(all_server_parts, id) {
        Some(pool) => shows(rt, alloc, pool),
        None => false,
    }
}

// The seats of the first thread at a server.
fn pool_of(all_server_parts: &mut Vec<ServerParts>, id: u8) -> Option<&mut SeatPool> {
    all_server_parts.get_mut(usize::from(id))?.pools.get_mut(0)
}

// Whether a set at a server is answered once no turn is due any more.
#[tactic(auto, using(crate::proofs::Later::later_same))]
fn sets<R: Wait + Drop>(
    rt: &R,
    alloc: Global,
    scheduler: &Scheduler<R, InProcessLinks<R>>,
    pool: &mut SeatPool,
    id: u8,
    most: usize,
) -> bool {
    let mut client_connection = ClientConnection::new(alloc, pool);
    let asked = asks(rt, pool, &mut client_connection, b"set a 0 0 1\r\n1\r\n");
    let sent = matches!(client_connection.advance(rt, pool), Ok(Pause::Reply));
    scheduler.expect(id);
    let settled = settles(scheduler, id, most);
    let heard = client_connection.receive_replies(rt, pool) == Ok(true);
    let answered = answers(rt, pool, &mut client_connection, b"STORED\r\n");
    drop(client_connection);
    asked && sent && settled && heard && answered
}

// Whether a look at a server shows what was set, so that no call is sent.
#[tactic(auto, using(crate::proofs::Later::later_same))]
fn shows<R: Wait>(rt: &R, alloc: Global, pool: &mut SeatPool) -> bool {
    let mut client_connection = ClientConnection::new(alloc, pool);
    let asked = asks(rt, pool, &mut client_connection, b"get a\r\n");
    let answered = answers(
        rt,
        pool,
        &mut client_connection,
        b"VALUE a 0 1\r\n1\r\nEND\r\n",
    );
    drop(client_connection);
    asked && answered
}

// Whether a client connection wants input, and takes this request.
fn asks<R: Wait>(
    rt: &R,
    pool: &mut SeatPool,
    client_connection: &mut ClientConnection,
    request: &[u8],
) -> bool
    requires known { IsLater client_connection.old.seen pool.old.seen }
    ensures known { IsLater client_connection.new.seen pool.new.seen }
{
    let wants = matches!(client_connection.advance(rt, pool), Ok(Pause::Input));
    wants && client_connection.wants_input() && client_connection.feed(request).is_ok()
}

// Whether just these bytes are due at a client connection, and wait for nothing but to be written.
fn answers<R: Wait>(
    rt: &R,
    pool: &mut SeatPool,
    client_connection: &mut ClientConnection,
    reply: &[u8],
) -> bool
    requires known { IsLater client_connection.old.seen pool.old.seen }
{
    matches!(client_connection.advance(rt, pool), Ok(Pause::Output))
        && client_connection.output() == reply
}

// Visits a server, and each one at which a turn is due then, until none is due. Whether that is so after few turns, and
// no server knows of one that is due.
fn settles<R: Wait + Drop>(
    scheduler: &Scheduler<R, InProcessLinks<R>>,
    id: u8,
    most: usize,
) -> bool {
    let mut due = ServerSet::new();
    due.add(id);
    let mut turns = 0usize;
    let mut last = id;
    for _ in 0..VISITS {
        let Some(at) = due.take_after(last) else {
            return turns <= TURNS && scheduler.all_due() == ServerSet::new();
        };
        let visit = scheduler.take_turns(at, most);
        turns = turns.wrapping_add(visit.turns);
        due.merge(visit.due);
        last = at;
    }
    false
}
