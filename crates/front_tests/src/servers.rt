//! The parts of a server.

use io_threads::{Pooled, SeatDeal, SeatShares, open_pools};
use node::Node;
use server_guards::{Allowance, Gauge, Mark};
use std::alloc::Global;
use std::sync::Wait;

/// The parts of the first server of a chain, with one seat for each of these threads. Its items may take this much
/// memory.
pub fn pooled<R: Wait + Drop>(
    rt: R,
    alloc: Global,
    servers: u8,
    threads: usize,
    memory: Option<u32>,
    mark: &Mark,
) -> Option<Pooled<R>> {
    pooled_with(rt, alloc, servers, threads, threads, memory, mark)
}

/// The same, with as many seats as this.
pub fn pooled_with<R: Wait + Drop>(
    rt: R,
    alloc: Global,
    servers: u8,
    seats: usize,
    threads: usize,
    memory: Option<u32>,
    mark: &Mark,
) -> Option<Pooled<R>> {
    let gauge = Gauge::new(alloc, Allowance::new(memory, 1)).ok()?;
    let node = Node::new(alloc, 0, servers).ok()?;
    if threads == 0 || threads > seats || seats > 16 || !node.is_idle() {
        drop(node);
        return None;
    }
    let shares = SeatShares {
        threads,
        deal: SeatDeal::InTurn,
    };
    let pooled = open_pools(rt, alloc, node, seats, shares, 1, 0, mark, &gauge).ok()?;
    gauge.note(pooled.worker.weight());
    Some(pooled)
}
