//! A chain of servers in one process, which serves clients over TCP.

ghost use Rattle.std.specs.Prelude.{◌≡◌, ◌≤◌, vec_len, IfOk};
ghost use Rattle.std.specs.Arc.{arc_value};
ghost use Rattle.craq_process.specs.Schedulers.{ids};
ghost use Rattle.craq_cluster.specs.Wiring.{AreSeatedFrom, controls_of, numbers, pools_in, pools_of};

use crate::cluster_controls::{ClusterControl, start_watching};
use crate::cluster_faults::ClusterFault;
use crate::controls::{ServerControl, ServerControls, StopFault};
use crate::server_parts::{ServerParts, all_links, all_parts, all_servers};
use command_line::ClusterNumbers;
use craq_process::{Concurrency, ScheduledLinks, Scheduler};
use in_process_links::InProcessLinks;
use io_threads::{
    FrontEnd, FrontEndServer, FrontEndSettings, LoopHandles, NoGuests, open_front_end,
    open_loop_handles,
};
use lines::LineSender;
use mio::Poll;
use node::{Master, SERVERS};
use seats::SeatPool;
use server_guards::{Allowance, Mark, OutputPermit};
use sockets::{keep_alive, listen};
use std::alloc::Global;
use std::net::{Net, TcpListener, TcpStream};
use std::sync::{Arc, Wait};
use std::thread;
use std::thread::{JoinHandle, Threads};
use std::time::Clock;

/// Where all servers listen.
const HOST: &str = "127.0.0.1";

/// A chain of running servers.
#[derive(Drop)]
pub(crate) struct Cluster<R: Wait + Drop>
where
    InProcessLinks<R>: ScheduledLinks,
{
    cluster_control: Arc<ClusterControl<R>, Global>,
    front_end: FrontEnd,
    workers: Vec<JoinHandle<()>>,
    watcher: JoinHandle<()>,
}

// The servers, before their clients are served.
#[derive(Drop)]
struct Chain<R: Wait + Drop>
where
    InProcessLinks<R>: ScheduledLinks,
{
    scheduler: Arc<Scheduler<R, InProcessLinks<R>>, Global>,
    all_server_parts: Vec<ServerParts>,
    loop_handles: Arc<LoopHandles, Global>,
    polls: Vec<Poll>,
}

impl<R: Wait + Copy + Drop + Send + 'static> Cluster<R> {
    /// Opens a chain: all its ports, its servers and their threads. Refused with Port if nobody can listen there, else
    /// with Memory if memory or threads run out, and with Run if no chain has such numbers.
    pub(crate) fn open(
        rt: R,
        alloc: Global,
        numbers: ClusterNumbers,
        concurrency: Concurrency,
        line_sender: &LineSender,
    ) -> Result<Cluster<R>, ClusterFault>
    where
        R: Threads + Clock + Net<Listener = TcpListener, Stream = TcpStream>,
    {
        let count = numbers.servers;
        if count == 0 || count > SERVERS {
            return Err(ClusterFault::Run);
        }
        let listeners = all_listeners(&rt, alloc, numbers)?;
        let Chain {
            scheduler,
            all_server_parts,
            loop_handles,
            polls,
        } = open_chain(
            rt,
            alloc,
            count,
            concurrency,
            Allowance::new(numbers.memory, count),
        )?;
        let workers = start_worker_threads(rt, alloc, &scheduler, count)?;
        let (controls, served_servers) = all_served_servers(alloc, listeners, all_server_parts)?;
        let settings = FrontEndSettings {
            connections: u64::from(numbers.connections),
            serves: numbers.serves.saturating_mul(u64::from(numbers.seats)),
            dense: 1,
        };
        let front_end = open_front_end(
            rt,
            alloc,
            settings,
            &scheduler,
            &loop_handles,
            polls,
            served_servers,
            None::<NoGuests>,
        )?;
        let controls = ServerControls::new(alloc, controls, Master::new(count));
        let line_sender = line_sender.share()?;
        let cluster_control = ClusterControl::new(scheduler, controls, line_sender);
        let cluster_control = Arc::new(alloc, cluster_control)?;
        let watcher = start_watching(rt, &cluster_control)?;
        Ok(Cluster {
            cluster_control,
            front_end,
            workers,
            watcher,
        })
    }

    /// Fails a server (`ClusterControl::fail`).
    pub(crate) fn fail(&self, rt: &R, j: u8) -> Result<(), StopFault>
    where
        R: Clock,
    {
        self.cluster_control.fail(rt, j)
    }

    /// Waits until the threads that serve clients have ended, and then ends the other threads.
    pub(crate) fn end(self, rt: &R)
    where
        R: Threads,
    {
        let Cluster {
            cluster_control,
            front_end,
            workers,
            watcher,
        } = self;
        front_end.end(rt);
        cluster_control.end(rt);
        for worker in workers {
            worker.join(rt);
        }
        watcher.join(rt);
    }
}

// The servers of a chain with their links, and what the threads that will serve their clients wait at. In the scheduler
// each worker stands at the place of its server's id, and at the same place are the seats of that server.
fn open_chain<R: Wait + Copy + Drop + Net>(
    rt: R,
    alloc: Global,
    count: u8,
    concurrency: Concurrency,
    allowance: Allowance,
) -> Result<Chain<R>, ClusterFault>
    requires chain { (1 ≤ count) × (count ≤ 16) }
    ensures scheduler { IfOk result (λ chain. ids (arc_value chain.scheduler) ≡ numbers count) }
    ensures count { IfOk result (λ chain. vec_len chain.all_server_parts ≡ count) }
    ensures all_server_parts { IfOk result (λ chain. AreSeatedFrom 0 chain.all_server_parts.items) }
{
    let mut servers = all_servers(rt, alloc, count, concurrency, allowance)?;
    let links = all_links(rt, alloc, count, &mut servers)?;
    let (loop_handles, polls) = open_loop_handles(&rt, alloc, concurrency.shares())?;
    let loop_handles = Arc::new(alloc, loop_handles)?;
    let (scheduler, all_server_parts) = all_parts(alloc, &loop_handles, servers, links)?;
    Ok(Chain {
        scheduler: Arc::new(alloc, scheduler)?,
        all_server_parts,
        loop_handles,
        polls,
    })
}

// What the program's own thread sees of each server, and where its clients come in, in the order of the servers.
fn all_served_servers(
    alloc: Global,
    listeners: Vec<TcpListener>,
    all_server_parts: Vec<ServerParts>,
) -> Result<(Vec<ServerControl>, Vec<FrontEndServer>), ClusterFault>
    ensures controls { IfOk result (λ all. all.0.items ≡ controls_of all_server_parts.items) }
    ensures pools { IfOk result (λ all. pools_in all.1.items ≡ pools_of all_server_parts.items) }
{
    let mut controls = Vec::new(alloc);
    let mut served_servers = Vec::new(alloc);
    let mut listeners = listeners.into_iter();
    for parts in all_server_parts {
        let Some(listener) = listeners.next() else {
            return Err(ClusterFault::Run);
        };
        let ServerParts { pools, control } = parts;
        let mark = control.failed.share()?;
        controls.push(control)?;
        served_servers.push(loose_served_server(listener, pools, mark))?;
    }
    Ok((controls, served_servers))
}

// Where the clients of a server without a lease come in.
fn loose_served_server(listener: TcpListener, pools: Vec<SeatPool>, mark: Mark) -> FrontEndServer
    ensures { result.pools.items ≡ pools.items }
{
    FrontEndServer {
        listener,
        pools,
        mark,
        output_permit: OutputPermit::without_lease(),
    }
}

// The listeners of all servers.
fn all_listeners<R: Net<Listener = TcpListener, Stream = TcpStream>>(
    rt: &R,
    alloc: Global,
    numbers: ClusterNumbers,
) -> Result<Vec<TcpListener>, ClusterFault> {
    let mut listeners = Vec::new(alloc);
    for i in 0..numbers.servers {
        let port = numbers.port.wrapping_add(u16::from(i));
        match listen(rt, HOST, port) {
            Ok(listener) => {
                keep_alive(&listener);
                listeners.push(listener)?;
            }
            Err(fault) => return Err(ClusterFault::Port(port, fault)),
        }
    }
    Ok(listeners)
}

// Starts the threads of all workers, whom others help.
fn start_worker_threads<R: Wait + Threads + Copy + Drop + Send + 'static>(
    rt: R,
    alloc: Global,
    scheduler: &Arc<Scheduler<R, InProcessLinks<R>>, Global>,
    count: u8,
) -> Result<Vec<JoinHandle<()>>, ClusterFault> {
    let mut workers = Vec::new(alloc);
    for id in 0..count {
        workers.push(start_attendant(rt, scheduler, id)?)?;
    }
    Ok(workers)
}

// Starts the thread of a worker that others help.
fn start_attendant<R: Wait + Threads + Copy + Drop + Send + 'static>(
    rt: R,
    scheduler: &Arc<Scheduler<R, InProcessLinks<R>>, Global>,
    id: u8,
) -> Result<JoinHandle<()>, ClusterFault> {
    let scheduler = Arc::try_clone(scheduler)?;
    match thread::spawn(&rt, move || scheduler.attend(&rt, id)) {
        Ok(thread) => Ok(thread),
        Err(_) => Err(ClusterFault::Memory),
    }
}
