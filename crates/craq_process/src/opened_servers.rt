//! A server of a process, before its links stand.
ghost use Rattle.std.specs.Prelude.{◌≡◌, ◌≤◌, true, IfOk};
ghost use Rattle.node.specs.Nodes.{fresh, is_idle};
ghost use Rattle.io_threads.specs.Pools.{BeginsAs};
ghost use Rattle.craq_process.specs.Wiring.{HasOwnPools, LeadsToOwnInbox, core_of};

use crate::concurrency::Concurrency;
use crate::open_faults::OpenFault;
use io_threads::{Pooled, open_pools};
use node::Node;
use server_guards::{Allowance, Gauge, Mark};
use std::alloc::{AllocError, Global};
use std::sync::Wait;

/// A server of a process, before its links stand.
#[derive(Drop)]
pub struct Opened<R: Wait + Drop> {
    /// Its worker, the seats of each thread, and its inlets.
    pub pooled: Pooled<R>,
    /// The mark that is set as soon as it answers no more calls.
    pub failed: Mark,
    /// Whether its items may take more memory.
    pub gauge: Gauge,
}

/// A server of `count` that begins as this node, with an inlet for each other server and for who fails servers.
pub fn open_server<R: Wait + Copy + Drop>(
    rt: R,
    alloc: Global,
    node: Node,
    count: u8,
    concurrency: Concurrency,
    allowance: Allowance,
) -> Result<Opened<R>, OpenFault>
    requires chain { (1 ≤ count) × (count ≤ 16) }
    requires idle { is_idle node ≡ true }
    ensures worker { IfOk result (λ opened. BeginsAs node opened.pooled.worker) }
    ensures pools { IfOk result (λ opened. HasOwnPools (core_of opened)) }
    ensures inlets { IfOk result (λ opened. LeadsToOwnInbox opened) }
{
    let (failed, gauge) = match mark_and_gauge(alloc, allowance) {
        Ok(both) => both,
        Err(AllocError) => {
            drop(node);
            return Err(OpenFault::Memory);
        }
    };
    let shares = concurrency.shares();
    let inlets = usize::from(count);
    let Ok(pooled) = open_pools(
        rt,
        alloc,
        node,
        concurrency.seats,
        shares,
        inlets,
        AHEAD,
        &failed,
        &gauge,
    ) else {
        return Err(OpenFault::Memory);
    };
    Ok(Opened {
        pooled,
        failed,
        gauge,
    })
}

/// How many updates of a connection are sent ahead of the first one's reply.
const AHEAD: usize = 15;

// The mark of a server, and its gauge.
fn mark_and_gauge(alloc: Global, allowance: Allowance) -> Result<(Mark, Gauge), AllocError> {
    let failed = Mark::new(alloc)?;
    let gauge = Gauge::new(alloc, allowance)?;
    Ok((failed, gauge))
}

/// Server `id` of a chain of `count`, before any input.
pub fn idle_node(alloc: Global, id: u8, count: u8) -> Result<Node, OpenFault>
    ensures which { IfOk result (λ node. node ≡ fresh id count) }
    ensures idle { IfOk result (λ node. is_idle node ≡ true) }
{
    match Node::new(alloc, id, count) {
        Ok(node) => {
            if node.is_idle() {
                Ok(node)
            } else {
                drop(node);
                Err(OpenFault::Run)
            }
        }
        Err(_) => Err(OpenFault::Run),
    }
}
