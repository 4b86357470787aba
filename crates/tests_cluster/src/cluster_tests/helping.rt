//! Threads that serve clients, and take the turns of the workers.

use craq_cluster::{ClusterFault, ServerParts, all_links, all_parts, all_servers};
use craq_process::{Concurrency, Scheduler};
use in_process_links::InProcessLinks;
use io_threads::{
    FrontEnd, FrontEndServer, FrontEndSettings, LoopHandles, NoGuests, SeatDeal, SeatShares,
    open_front_end, open_loop_handles,
};
use server_guards::{Allowance, OutputPermit};
use std::alloc::Global;
use std::net::{Net, TcpListener, TcpStream};
use std::sync::{Arc, Wait};
use std::test::Fail;
use std::thread::Threads;
use std::time::Clock;
use tests_support::{answers, client, listen};

// A chain of three whose workers have no threads of their own. One thread serves the clients of all.
#[derive(Drop)]
struct HelpedChain {
    ports: Vec<u16>,
    front_end: FrontEnd,
}

// The thread that serves takes all turns of the chain.
#[test]
fn a_serving_thread_takes_all_turns(rt: HostRuntime) -> Result<(), Fail> {
    let chain = helped_chain(rt, rt.alloc()).ok_or("a chain")?;
    assert!(rt; passes(&rt, &chain));
    chain.front_end.end(&rt);
    Ok(())
}

// Whether updates and reads pass down the chain and back, at each server.
fn passes<R: Net<Listener = TcpListener, Stream = TcpStream>>(rt: &R, chain: &HelpedChain) -> bool {
    chain.ports.iter().all(|port| answers_at(rt, *port))
}

fn answers_at<R: Net<Listener = TcpListener, Stream = TcpStream>>(rt: &R, port: u16) -> bool {
    let Ok(mut stream) = client(rt, port) else {
        return false;
    };
    answers(&mut stream, b"set a 0 0 1\r\n1\r\n", b"STORED\r\n")
        && answers(
            &mut stream,
            b"incr a 1\r\nget a\r\n",
            b"2\r\nVALUE a 0 1\r\n2\r\nEND\r\n",
        )
}

fn helped_chain<
    R: Wait
        + Threads
        + Clock
        + Net<Listener = TcpListener, Stream = TcpStream>
        + Copy
        + Drop
        + Send
        + 'static,
>(rt: R, alloc: Global) -> Option<HelpedChain> {
    let (loop_handles, polls) = open_loop_handles(&rt, alloc, shares_of_one()).ok()?;
    let loop_handles = Arc::new(alloc, loop_handles).ok()?;
    let (scheduler, all_server_parts) = three_parts(rt, alloc, &loop_handles)?;
    let scheduler = Arc::new(alloc, scheduler).ok()?;
    let (ports, served_servers) = all_served_servers(&rt, alloc, all_server_parts)?;
    let settings = FrontEndSettings {
        connections: 1,
        serves: 1,
        dense: 1,
    };
    let front_end = open_front_end(
        rt,
        alloc,
        settings,
        &scheduler,
        &loop_handles,
        polls,
        served_servers,
        None::<NoGuests>,
    )
    .ok()?;
    Some(HelpedChain { ports, front_end })
}

/// The seats of a server with one thread.
pub fn shares_of_one() -> SeatShares {
    SeatShares {
        threads: 1,
        deal: SeatDeal::InTurn,
    }
}

/// The scheduler of the workers of three servers, and what each server has beside its worker.
pub fn three_parts<R: Wait + Threads + Copy + Drop>(
    rt: R,
    alloc: Global,
    loop_handles: &Arc<LoopHandles, Global>,
) -> Option<(Scheduler<R, InProcessLinks<R>>, Vec<ServerParts>)> {
    let concurrency = Concurrency::new(&rt, Some(1), 1, SeatDeal::InTurn);
    scheduler_of_three(rt, alloc, loop_handles, concurrency).ok()
}

// The same for these numbers of threads and seats, or why there is none.
fn scheduler_of_three<R: Wait + Copy + Drop>(
    rt: R,
    alloc: Global,
    loop_handles: &Arc<LoopHandles, Global>,
    concurrency: Concurrency,
) -> Result<(Scheduler<R, InProcessLinks<R>>, Vec<ServerParts>), ClusterFault> {
    let mut servers = all_servers(rt, alloc, 3, concurrency, Allowance::new(None, 3))?;
    let links = all_links(rt, alloc, 3, &mut servers)?;
    all_parts(alloc, loop_handles, servers, links)
}

// A port of each server.
fn all_served_servers<R: Net<Listener = TcpListener, Stream = TcpStream>>(
    rt: &R,
    alloc: Global,
    all_server_parts: Vec<ServerParts>,
) -> Option<(Vec<u16>, Vec<FrontEndServer>)> {
    let mut ports = Vec::new(alloc);
    let mut served_servers = Vec::new(alloc);
    for parts in all_server_parts {
        let (port, served_server) = served_server_of(rt, parts)?;
        ports.push(port).ok()?;
        served_servers.push(served_server).ok()?;
    }
    Some((ports, served_servers))
}

// A port of a server, and the server as it is served.
fn served_server_of<R: Net<Listener = TcpListener, Stream = TcpStream>>(
    rt: &R,
    parts: ServerParts,
) -> Option<(u16, FrontEndServer)> {
    let (port, listener) = listen(rt)?;
    let ServerParts { pools, control } = parts;
    let mark = control.failed.share().ok()?;
    let served_server = FrontEndServer {
        listener,
        pools,
        mark,
        output_permit: OutputPermit::without_lease(),
    };
    Some((port, served_server))
}
