//! What is done with the clients of one thread at one server. The reader of the thread's seats there knows all that was
//! told to any of them, and so it stays.
ghost use Rattle.io_threads.specs.KnownClients.{KnowsAll};

use crate::clients::{Client, Progress, Ready, ReplyOutcome};
use crate::permitted_streams::PermittedStream;
use seats::{Pause, SeatPool};
use server_guards::OutputPermit;
use slab::Slab;
use std::alloc::Global;
use std::sync::Wait;
use std::time::Clock;

/// Clients, by keys.
pub(crate) type Clients = Slab<Client<PermittedStream>>;

/// One more. If memory is out it is closed.
#[tactic(auto, using(crate::proofs::Knowing::knowing))]
pub(crate) fn add(alloc: Global, pool: &SeatPool, clients: &mut Clients, stream: PermittedStream)
    requires known { KnowsAll pool.now.seen clients.old }
    ensures known { KnowsAll pool.now.seen clients.new }
{
    drop(clients.insert(Client::new(alloc, stream, pool)));
}

/// A client's socket was found ready for this. Why the client went no further before, if there is one.
#[tactic(auto, using(crate::proofs::Knowing::knowing))]
pub(crate) fn note_ready(
    pool: &SeatPool,
    clients: &mut Clients,
    key: usize,
    ready: Ready,
) -> Option<Pause>
    requires known { KnowsAll pool.now.seen clients.old }
    ensures known { KnowsAll pool.now.seen clients.new }
{
    match clients.get_mut(key) {
        Some(client) => {
            client.note_ready(ready);
            Some(client.pause())
        }
        None => None,
    }
}

/// Has a client go on, and says how far it went. The slice is room for what is read, and the output permit is that of
/// the server.
#[tactic(auto, using(crate::proofs::Knowing::knowing))]
pub(crate) fn serve<R: Wait + Clock>(
    rt: &R,
    pool: &mut SeatPool,
    clients: &mut Clients,
    key: usize,
    piece: &mut [u8],
    output_permit: &OutputPermit,
) -> Progress
    requires known { KnowsAll pool.old.seen clients.old }
    ensures known { KnowsAll pool.new.seen clients.new }
{
    match clients.get_mut(key) {
        Some(client) => client.serve(rt, pool, piece, output_permit),
        None => Progress {
            pause: Pause::Over,
            has_sent: false,
        },
    }
}

/// Takes the replies for which nobody waits any more: their seats are free then.
#[tactic(auto, using(crate::proofs::Knowing::knowing))]
pub(crate) fn collect<R: Wait>(rt: &R, pool: &mut SeatPool, clients: &Clients)
    requires known { KnowsAll pool.old.seen clients.now }
    ensures known { KnowsAll pool.new.seen clients.now }
{
    pool.collect(rt);
}

/// Takes the replies to a client's calls, as many as have come, and says what came of them.
#[tactic(auto, using(crate::proofs::Knowing::knowing))]
pub(crate) fn receive_replies<R: Wait>(
    rt: &R,
    pool: &mut SeatPool,
    clients: &mut Clients,
    key: usize,
) -> ReplyOutcome
    requires known { KnowsAll pool.old.seen clients.old }
    ensures known { KnowsAll pool.new.seen clients.new }
{
    match clients.get_mut(key) {
        Some(client) => client.receive_replies(rt, pool),
        None => ReplyOutcome::NotYet,
    }
}

/// Closes a client at once. The seat of its open call, if it has one, is free once the reply to that was taken.
#[tactic(auto, using(crate::proofs::Knowing::knowing))]
pub(crate) fn close(pool: &mut SeatPool, clients: &mut Clients, key: usize)
    requires known { KnowsAll pool.old.seen clients.old }
    ensures known { KnowsAll pool.new.seen clients.new }
{
    if let Some(client) = clients.try_remove(key) {
        client.leave(pool);
    }
}

/// Closes all.
#[tactic(auto, using(crate::proofs::Knowing::none_known))]
pub(crate) fn close_all(pool: &SeatPool, clients: &mut Clients)
    ensures known { KnowsAll pool.now.seen clients.new }
{
    clients.clear();
}
