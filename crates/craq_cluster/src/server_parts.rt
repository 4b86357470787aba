//! The parts of a chain of servers in one process, before their threads are started.
ghost use Rattle.std.specs.Prelude.{◌≡◌, ◌≢◌, ◌≤◌, ◌++◌, ◌∷◌, [], None, vec_len, All, IfOk, IfSome, IsSome};
ghost use Rattle.std.specs.Prelude.{OnOk};
ghost use Rattle.craq_process.specs.Wiring.{HasOwnPools, LeadsToOwnInbox, core_of, listed};
ghost use Rattle.craq_process.specs.Schedulers.{ids};
ghost use Rattle.craq_cluster.specs.Wiring.{AreDealt, ArePartsOf, IsDealt, IsPartsOf, all_inlets_in, cores_of};
ghost use Rattle.craq_cluster.specs.Wiring.{inlets_in, inlets_of, numbers, openings, senders, starts_of};

use crate::cluster_faults::ClusterFault;
use crate::controls::ServerControl;
use craq_process::{Concurrency, Ending, Opened, Scheduler, idle_node, inlet_for, open_server};
use in_process_links::{InProcessLinks, InboxLink};
use io_threads::{LoopHandles, Pooled};
use rail::Worker;
use seats::SeatPool;
use server_guards::{Allowance, Gauge};
use std::alloc::{AllocError, Global};
use std::sync::{Arc, Wait};

/// What a server has beside its worker.
#[derive(Drop)]
pub struct ServerParts {
    /// The seats of each thread.
    pub pools: Vec<SeatPool>,
    /// What the program's own thread sees of it.
    pub control: ServerControl,
}

/// The `count` servers of a chain, each at the place of its id, with an inlet for each other server and for the
/// program's own thread. The items of each may take as much memory.
#[tactic(auto, using(crate::proofs::Wired::leads_none, crate::proofs::Standing::starts_none, crate::proofs::Standing::own_none))]
pub fn all_servers<R: Wait + Copy + Drop>(
    rt: R,
    alloc: Global,
    count: u8,
    concurrency: Concurrency,
    allowance: Allowance,
) -> Result<Vec<Opened<R>>, ClusterFault>
    requires chain { (1 ≤ count) × (count ≤ 16) }
    ensures count { IfOk result (λ servers. vec_len servers ≡ count) }
    ensures workers { IfOk result (λ servers. starts_of servers.items ≡ openings count count) }
    ensures pools { IfOk result (λ servers. All HasOwnPools (cores_of servers.items)) }
    ensures inlets { IfOk result (λ servers. All (λ server. LeadsToOwnInbox server) servers.items) }
{
    let mut servers = Vec::new(alloc);
    for id in 0..count {
        let node = idle_node(alloc, id, count)?;
        let server = open_server(rt, alloc, node, count, concurrency, allowance)?;
        servers.push(server)?;
    }
    Ok(servers)
}

/// The links of all servers, in the order of their ids, for which each takes an inlet of each other one, and nothing
/// else.
#[tactic(auto, using(crate::proofs::Wired::all_none))]
pub fn all_links<R: Wait + Copy + Drop>(
    rt: R,
    alloc: Global,
    count: u8,
    servers: &mut Vec<Opened<R>>,
) -> Result<Vec<InProcessLinks<R>>, ClusterFault>
    ensures count { IfOk result (λ all. vec_len all ≡ count) }
    ensures senders { IfOk result (λ all. senders all.items ≡ numbers count) }
    ensures dealt { IfOk result (λ all.
        AreDealt (inlets_of servers.old.items) (inlets_of servers.new.items) (all_inlets_in all.items)) }
    ensures servers { vec_len servers.new ≡ vec_len servers.old }
    ensures cores { cores_of servers.new.items ≡ cores_of servers.old.items }
{
    let mut all = Vec::new(alloc);
    for id in 0..count {
        let links = links_of(alloc, id, servers)?;
        all.push(InProcessLinks::new(rt, id, links))?;
    }
    Ok(all)
}

// The links of one server.
#[tactic(auto, using(crate::proofs::Wired::links_none))]
fn links_of<R: Wait + Drop>(
    alloc: Global,
    id: u8,
    servers: &mut Vec<Opened<R>>,
) -> Result<Vec<InboxLink>, AllocError>
    ensures count { IfOk result (λ links. vec_len links ≡ vec_len servers.old) }
    ensures dealt { IfOk result (λ links.
        IsDealt id (inlets_of servers.old.items) (inlets_of servers.new.items) (inlets_in links.items)) }
    ensures servers { vec_len servers.new ≡ vec_len servers.old }
    ensures cores { cores_of servers.new.items ≡ cores_of servers.old.items }
{
    let mut links = Vec::new(alloc);
    for j in 0..servers.len() {
        links.push(link_to(id, j, &mut servers[j]))?;
    }
    Ok(links)
}

// The link of server `id` to server `j`.
fn link_to<R: Wait + Drop>(id: u8, j: usize, server: &mut Opened<R>) -> InboxLink
    ensures taken { server.old.pooled.inlets.items ≡ server.new.pooled.inlets.items ++ listed result.inlet }
    ensures own { j ≡ id → result.inlet ≡ None }
    ensures whole { j ≢ id → result.inlet ≡ None → server.new.pooled.inlets.items ≡ [] }
    ensures core { core_of server.new ≡ core_of server.old }
{
    InboxLink::new(inlet_for(usize::from(id), j, &mut server.pooled.inlets))
}

/// The scheduler of all workers, by their servers' ids, and what each server has beside its worker. The worker of
/// each server gets the links of that server: the scheduler takes no others.
pub fn all_parts<R: Wait + Drop>(
    alloc: Global,
    loop_handles: &Arc<LoopHandles, Global>,
    servers: Vec<Opened<R>>,
    links: Vec<InProcessLinks<R>>,
) -> Result<(Scheduler<R, InProcessLinks<R>>, Vec<ServerParts>), ClusterFault>
    requires workers { starts_of servers.items ≡ openings (vec_len servers) (vec_len servers) }
    requires links { senders links.items ≡ numbers (vec_len links) }
    ensures count { IfOk result (λ all. vec_len all.1 ≡ vec_len servers) }
    ensures scheduler { IfOk result (λ all. ids all.0 ≡ numbers (vec_len servers)) }
    ensures all_server_parts { IfOk result (λ all. ArePartsOf servers.items all.1.items) }
{
    let mut scheduler = Scheduler::new(alloc, Arc::try_clone(loop_handles)?, true);
    let mut all_server_parts = Vec::new(alloc);
    let mut left = links.into_iter();
    for server in servers {
        let own = left.next();
        let parts = add_linked(alloc, &mut scheduler, all_server_parts.len(), server, own)?;
        all_server_parts.push(parts)?;
    }
    Ok((scheduler, all_server_parts))
}

// Adds a server with its links to the scheduler, at this place. It gives what the server has beside its worker. Refused
// with Run if there are no links.
fn add_linked<R: Wait + Drop>(
    alloc: Global,
    scheduler: &mut Scheduler<R, InProcessLinks<R>>,
    place: usize,
    server: Opened<R>,
    links: Option<InProcessLinks<R>>,
) -> Result<ServerParts, ClusterFault>
    requires worker { server.pooled.worker.published.instance.start.id ≡ place }
    requires links { IfSome links (λ links. links.id ≡ place) }
    ensures links { OnOk result (IsSome links) }
    ensures scheduler { OnOk result (ids scheduler.new ≡ ids scheduler.old ++ place ∷ []) }
    ensures parts { IfOk result (λ parts. IsPartsOf server parts) }
{
    match links {
        Some(links) => add_server(alloc, scheduler, place, server, links),
        None => {
            drop(server);
            Err(ClusterFault::Run)
        }
    }
}

// The same, with its links. Refused with Run if the server has no inlet left, or no chain has such a place.
fn add_server<R: Wait + Drop>(
    alloc: Global,
    scheduler: &mut Scheduler<R, InProcessLinks<R>>,
    place: usize,
    server: Opened<R>,
    links: InProcessLinks<R>,
) -> Result<ServerParts, ClusterFault>
    requires worker { server.pooled.worker.published.instance.start.id ≡ place }
    requires links { links.id ≡ place }
    ensures scheduler { OnOk result (ids scheduler.new ≡ ids scheduler.old ++ place ∷ []) }
    ensures parts { IfOk result (λ parts. IsPartsOf server parts) }
{
    let Opened {
        pooled,
        failed,
        gauge,
    } = server;
    let Pooled {
        worker,
        pools,
        inlets,
    } = pooled;
    let mut inlets = inlets;
    let Some(inlet) = inlets.pop() else {
        drop(worker);
        drop(links);
        drop(pools);
        return Err(ClusterFault::Run);
    };
    match add_worker(alloc, scheduler, place, worker, links, gauge) {
        Ok(ending) => Ok(ServerParts {
            pools,
            control: ServerControl::new(inlet, failed, ending),
        }),
        Err(fault) => {
            drop(pools);
            drop(inlet);
            drop(failed);
            Err(fault)
        }
    }
}

// Adds a worker with its links to the scheduler, at this place. It gives where the note of its end will be.
fn add_worker<R: Wait + Drop>(
    alloc: Global,
    scheduler: &mut Scheduler<R, InProcessLinks<R>>,
    place: usize,
    worker: Worker<R>,
    links: InProcessLinks<R>,
    gauge: Gauge,
) -> Result<Ending, ClusterFault>
    requires worker { worker.published.instance.start.id ≡ place }
    requires links { links.id ≡ place }
    ensures { OnOk result (ids scheduler.new ≡ ids scheduler.old ++ place ∷ []) }
{
    let Ok(id) = u8::try_from(place) else {
        drop(worker);
        drop(links);
        drop(gauge);
        return Err(ClusterFault::Run);
    };
    match shared_ending(alloc) {
        Ok((ending, shared)) => match scheduler.add(id, worker, links, shared, gauge) {
            Ok(()) => Ok(ending),
            Err(AllocError) => {
                drop(ending);
                Err(ClusterFault::Memory)
            }
        },
        Err(AllocError) => {
            drop(worker);
            drop(links);
            drop(gauge);
            Err(ClusterFault::Memory)
        }
    }
}

// Where the note of a server's end will be, twice.
fn shared_ending(alloc: Global) -> Result<(Ending, Ending), AllocError> {
    let ending = Ending::new(alloc)?;
    let shared = ending.share()?;
    Ok((ending, shared))
}
