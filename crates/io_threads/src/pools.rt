//! Opens a server whose seats are dealt out to serving threads.
ghost use Rattle.std.specs.Prelude.{◌≡◌, ◌≤◌, ◌+◌, [], ◌∷◌, ◌++◌, true, vec_len, All, IfOk, OnOk};
ghost use Rattle.node.specs.Nodes.{is_idle};
ghost use Rattle.faces.specs.Histories.{Instance};
ghost use Rattle.rail.specs.Inlets.{LeadTo};
ghost use Rattle.seats.specs.Replies.{HasAllReplies};
ghost use Rattle.seats.specs.SeatPools.{with_free};
ghost use Rattle.seats.specs.Submitters.{unused};
ghost use Rattle.io_threads.specs.Pools.{AreAllAt, AreOf, BeginsAs, handles_senders, pools_senders, senders_from};

use crate::seat_shares::SeatShares;
use node::Node;
use rail::{Inlet, RailFault, Room, Seat, Server, ThreadHandle, Worker, open};
use seats::SeatPool;
use server_guards::{Gauge, Mark};
use std::alloc::{AllocError, Global};
use std::sync::Wait;

/// A server whose seats were dealt out to threads.
#[derive(Drop)]
pub struct Pooled<R: Wait + Drop> {
    /// The worker.
    pub worker: Worker<R>,
    /// The seats of each thread.
    pub pools: Vec<SeatPool>,
    /// Inlets of the worker.
    pub inlets: Vec<Inlet>,
}

/// Opens a server that begins as this node, with this many seats, each for the thread that these shares say of its
/// port. All are seats of the worker's server. Each thread has one reader, and the face has room for no more. Each has
/// one sender for the calls of its seats, to the worker's inbox, where the inlets lead too. This many updates of a
/// connection may be sent ahead of the first one's reply. The mark is set as soon as the server answers no more calls,
/// and the gauge tells whether its items may take more memory. Refused if memory is out, or no reader could be made.
pub fn open_pools<R: Wait + Drop>(
    rt: R,
    alloc: Global,
    node: Node,
    seats: usize,
    shares: SeatShares,
    inlets: usize,
    most_ahead: usize,
    mark: &Mark,
    gauge: &Gauge,
) -> Result<Pooled<R>, RailFault>
    requires threads { (1 ≤ shares.threads) × (shares.threads ≤ seats) }
    requires seats { (shares.threads ≤ 16) × (seats ≤ 64) }
    requires inlets { (1 ≤ inlets) × (inlets ≤ 16) }
    requires idle { is_idle node ≡ true }
    ensures worker { IfOk result (λ pooled. BeginsAs node pooled.worker) }
    ensures pools { IfOk result (λ pooled. AreAllAt pooled.worker.published.instance pooled.pools.items) }
    ensures threads { IfOk result (λ pooled. vec_len pooled.pools ≡ shares.threads) }
    ensures senders { IfOk result (λ pooled. pools_senders pooled.pools.items ≡
        senders_from pooled.worker.published.instance pooled.worker.inbox 0 shares.threads) }
    ensures inlets { IfOk result (λ pooled. LeadTo pooled.worker.inbox pooled.inlets.items) }
{
    let Server {
        worker,
        thread_handles,
        seats: others,
        inlets,
    } = open(
        rt,
        alloc,
        node,
        shares.threads,
        seats - shares.threads,
        inlets,
        Room::of_chain(inlets, seats),
    )?;
    match deal(
        alloc,
        thread_handles,
        others,
        shares,
        most_ahead,
        mark,
        gauge,
    ) {
        Ok(pools) => Ok(Pooled {
            worker,
            pools,
            inlets,
        }),
        Err(error) => {
            drop(inlets);
            drop(worker);
            Err(RailFault::from(error))
        }
    }
}

// Makes a pool of each of these thread handles of one server, and deals its other seats out to them. Whatever server
// that is, the pools are all of it.
fn deal(
    alloc: Global,
    thread_handles: Vec<ThreadHandle>,
    others: Vec<Seat>,
    shares: SeatShares,
    most_ahead: usize,
    mark: &Mark,
    gauge: &Gauge,
) -> Result<Vec<SeatPool>, AllocError>
    requires server { (o : Instance) × AreOf o thread_handles.items others.items [] }
    ensures server { IfOk result
        (λ pools. (o : Instance) → AreOf o thread_handles.items others.items [] → AreAllAt o pools.items) }
    ensures count { IfOk result (λ pools. vec_len pools ≡ vec_len thread_handles) }
    ensures senders { IfOk result (λ pools. pools_senders pools.items ≡ handles_senders thread_handles.items) }
{
    let mut pools = Vec::new(alloc);
    for thread_handle in thread_handles {
        add_pool(alloc, &mut pools, thread_handle, most_ahead, mark, gauge)?;
    }
    let mut port = pools.len();
    for seat in others {
        give(&mut pools, shares.thread_of(port), seat)?;
        port = port.wrapping_add(1);
    }
    Ok(pools)
}

// One more pool, of this thread handle.
#[tactic(auto, using(crate::proofs::Dealt::one_more, crate::proofs::Dealt::one_sender_more))]
fn add_pool(
    alloc: Global,
    pools: &mut Vec<SeatPool>,
    thread_handle: ThreadHandle,
    most_ahead: usize,
    mark: &Mark,
    gauge: &Gauge,
) -> Result<(), AllocError>
    requires server { All (λ pool. pool.seen.instance ≡ thread_handle.seat.instance) pools.old.items }
    requires replied { HasAllReplies thread_handle.seat }
    ensures server { All (λ pool. pool.seen.instance ≡ thread_handle.seat.instance) pools.new.items }
    ensures count { OnOk result (vec_len pools.new ≡ vec_len pools.old + 1) }
    ensures senders { OnOk result
        (pools_senders pools.new.items ≡ pools_senders pools.old.items ++ thread_handle.call_sender ∷ []) }
{
    let pool = pool_of(alloc, thread_handle, most_ahead, mark, gauge)?;
    pools.push(pool)?;
    Ok(())
}

// Gives a seat to the pool at this place, if there is one.
#[tactic(auto, using(crate::proofs::Dealt::one_changed))]
fn give(pools: &mut Vec<SeatPool>, place: usize, seat: Seat) -> Result<(), AllocError>
    requires server { All (λ pool. pool.seen.instance ≡ seat.instance) pools.old.items }
    requires replied { HasAllReplies seat }
    ensures server { All (λ pool. pool.seen.instance ≡ seat.instance) pools.new.items }
    ensures count { vec_len pools.new ≡ vec_len pools.old }
    ensures senders { pools_senders pools.new.items ≡ pools_senders pools.old.items }
{
    match pools.get_mut(place) {
        Some(pool) => pool.add(seat),
        None => {
            drop(seat);
            Ok(())
        }
    }
}

// A pool with this thread handle's reader, sender and seat.
fn pool_of(
    alloc: Global,
    thread_handle: ThreadHandle,
    most_ahead: usize,
    mark: &Mark,
    gauge: &Gauge,
) -> Result<SeatPool, AllocError>
    requires { HasAllReplies thread_handle.seat }
    ensures server { IfOk result (λ pool. pool.seen.instance ≡ thread_handle.seat.instance) }
    ensures sender { IfOk result (λ pool. pool.sender ≡ thread_handle.call_sender) }
{
    let ThreadHandle {
        reader,
        seat,
        call_sender,
    } = thread_handle;
    match share(mark, gauge) {
        Ok((mark, gauge)) => {
            let mut pool = SeatPool::new(alloc, reader, call_sender, mark, gauge);
            pool.let_ahead(most_ahead);
            with_seat(pool, seat)
        }
        Err(error) => {
            drop(call_sender);
            drop(seat);
            drop(reader);
            Err(error)
        }
    }
}

// The same mark and gauge, for a pool.
fn share(mark: &Mark, gauge: &Gauge) -> Result<(Mark, Gauge), AllocError> {
    let mark = mark.share()?;
    match gauge.share() {
        Ok(gauge) => Ok((mark, gauge)),
        Err(error) => {
            drop(mark);
            Err(error)
        }
    }
}

// A pool with one seat more.
fn with_seat(pool: SeatPool, seat: Seat) -> Result<SeatPool, AllocError>
    requires server { seat.instance ≡ pool.seen.instance }
    requires replied { HasAllReplies seat }
    ensures { IfOk result (λ grown. grown ≡ with_free pool (unused seat)) }
{
    let mut pool = pool;
    match pool.add(seat) {
        Ok(()) => Ok(pool),
        Err(error) => {
            drop(pool);
            Err(error)
        }
    }
}
