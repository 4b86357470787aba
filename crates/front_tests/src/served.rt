//! A server with a front end over real sockets, at a port that nobody else listens on.

use super::servers::pooled;
use in_process_links::{InProcessLinks, ServerSet};
use io_threads::{
    FrontEnd, FrontEndServer, FrontEndSettings, Guests, LoopHandles, NoGuests, Pooled, SeatDeal,
    SeatShares, TurnScheduler, Visit, open_front_end, open_loop_handles,
};
use mio::Poll;
use rail::{Turn, Worker};
use seats::SeatPool;
use server_guards::{Mark, OutputPermit};
use std::alloc::Global;
use std::net::{Ipv4Addr, Net, TcpListener, TcpStream};
use std::sync::atomic::{AtomicUsize, Ordering};
use std::sync::{Arc, Wait};
use std::thread;
use std::thread::{JoinHandle, Threads};
use std::time::Clock;

/// The first server of a chain with a front end. The others are gone. Its turns are a worker, or the thread that takes
/// them.
#[derive(Drop)]
pub struct Served<T: Drop> {
    /// That of its clients.
    pub port: u16,
    front_end: FrontEnd,
    turns: T,
    mark: Mark,
    loop_handles: Arc<LoopHandles, Global>,
    elsewhere: Arc<Elsewhere, Global>,
}

/// A scheduler that leaves all turns to others, and counts how often it was asked for some of the server.
#[derive(Drop)]
struct Elsewhere {
    asked: AtomicUsize,
}

impl TurnScheduler for Elsewhere {
    fn expect(&self, _id: u8) {}

    fn take_turns(&self, id: u8, _most: usize) -> Visit {
        if id == 0 {
            self.asked.fetch_add(1, Ordering::SeqCst);
        }
        Visit::nothing()
    }

    fn all_due(&self) -> ServerSet {
        ServerSet::new()
    }

    fn answers_soon(&self) -> bool {
        false
    }

    fn leave(&self, _servers: ServerSet) {}
}

/// One whose turns are taken.
pub trait TakesTurns {
    /// Takes turns until the server ends, and wakes who has a reply.
    fn take_turns<R: Wait + Copy + Drop>(
        &mut self,
        rt: R,
        alloc: Global,
        loop_handles: &LoopHandles,
    );
}

impl<W: Wait + Drop> TakesTurns for Worker<W> {
    fn take_turns<R: Wait + Copy + Drop>(
        &mut self,
        rt: R,
        alloc: Global,
        loop_handles: &LoopHandles,
    ) {
        let mut links = InProcessLinks::new(rt, 0, Vec::new(alloc));
        for _ in rt.forever() {
            match self.turn(&mut links) {
                Ok(Turn::Went) => loop_handles.wake(0, self.take_replied()),
                _ => return,
            }
        }
        unreachable!()
    }
}

/// A server whose turns are taken.
pub fn open_served<
    R: Wait
        + Threads
        + Clock
        + Net<Listener = TcpListener, Stream = TcpStream>
        + Copy
        + Drop
        + Send
        + 'static,
>(
    rt: R,
    alloc: Global,
    servers: u8,
    threads: usize,
    settings: FrontEndSettings,
    memory: Option<u32>,
) -> Option<Served<JoinHandle<()>>> {
    open(rt, alloc, servers, threads, settings, memory)?.begin(rt, alloc)
}

/// A server alone whose turns are taken, and whose first thread has guests.
pub fn open_with_guests<
    R: Wait
        + Threads
        + Clock
        + Net<Listener = TcpListener, Stream = TcpStream>
        + Copy
        + Drop
        + Send
        + 'static,
    G: Guests + Drop + Send + 'static,
>(
    rt: R,
    alloc: Global,
    threads: usize,
    settings: FrontEndSettings,
    guests: G,
) -> Option<Served<JoinHandle<()>>> {
    open_hosting(rt, alloc, 1, threads, settings, None, Some(guests))?.begin(rt, alloc)
}

/// A server whose turns nobody takes yet.
pub fn open<
    R: Wait
        + Threads
        + Clock
        + Net<Listener = TcpListener, Stream = TcpStream>
        + Copy
        + Drop
        + Send
        + 'static,
>(
    rt: R,
    alloc: Global,
    servers: u8,
    threads: usize,
    settings: FrontEndSettings,
    memory: Option<u32>,
) -> Option<Served<Worker<R>>> {
    open_hosting(
        rt,
        alloc,
        servers,
        threads,
        settings,
        memory,
        None::<NoGuests>,
    )
}

fn open_hosting<
    R: Wait
        + Threads
        + Clock
        + Net<Listener = TcpListener, Stream = TcpStream>
        + Copy
        + Drop
        + Send
        + 'static,
    G: Guests + Drop + Send + 'static,
>(
    rt: R,
    alloc: Global,
    servers: u8,
    threads: usize,
    settings: FrontEndSettings,
    memory: Option<u32>,
    guests: Option<G>,
) -> Option<Served<Worker<R>>> {
    let place = find_place(&rt, alloc, threads)?;
    let Pooled {
        worker,
        pools,
        inlets,
    } = pooled(rt, alloc, servers, threads, memory, &place.mark)?;
    drop(inlets);
    serve(rt, alloc, settings, place, pools, worker, guests)
}

// Where a server's clients come in: its port, its mark, and the loop handles of its threads, with what these poll.
#[derive(Drop)]
struct Place {
    port: u16,
    listener: TcpListener,
    mark: Mark,
    loop_handles: Arc<LoopHandles, Global>,
    polls: Vec<Poll>,
}

fn find_place<R: Net<Listener = TcpListener, Stream = TcpStream>>(
    rt: &R,
    alloc: Global,
    threads: usize,
) -> Option<Place> {
    let listener = TcpListener::bind(rt, (Ipv4Addr::LOCALHOST, 0)).ok()?;
    let port = listener.local_addr().ok()?.port();
    let mark = Mark::new(alloc).ok()?;
    let shares = SeatShares {
        threads,
        deal: SeatDeal::InTurn,
    };
    let (loop_handles, polls) = open_loop_handles(rt, alloc, shares).ok()?;
    Some(Place {
        port,
        listener,
        mark,
        loop_handles: Arc::new(alloc, loop_handles).ok()?,
        polls,
    })
}

// Serves the clients who come in there.
fn serve<
    R: Wait + Threads + Clock + Net + Copy + Drop + Send + 'static,
    T: Drop,
    G: Guests + Drop + Send + 'static,
>(
    rt: R,
    alloc: Global,
    settings: FrontEndSettings,
    place: Place,
    pools: Vec<SeatPool>,
    turns: T,
    guests: Option<G>,
) -> Option<Served<T>> {
    let Place {
        port,
        listener,
        mark,
        loop_handles,
        polls,
    } = place;
    let served_servers = only_served_server(alloc, listener, pools, &mark)?;
    let asked = AtomicUsize::new(0);
    let elsewhere = Arc::new(alloc, Elsewhere { asked }).ok()?;
    let front_end = open_front_end(
        rt,
        alloc,
        settings,
        &elsewhere,
        &loop_handles,
        polls,
        served_servers,
        guests,
    )
    .ok()?;
    Some(Served {
        port,
        front_end,
        turns,
        mark,
        loop_handles,
        elsewhere,
    })
}

// The only server that a front end serves.
fn only_served_server(
    alloc: Global,
    listener: TcpListener,
    pools: Vec<SeatPool>,
    mark: &Mark,
) -> Option<Vec<FrontEndServer>> {
    let mut served_servers = Vec::new(alloc);
    let mark = mark.share().ok()?;
    let served_server = FrontEndServer {
        listener,
        pools,
        mark,
        output_permit: OutputPermit::without_lease(),
    };
    served_servers.push(served_server).ok()?;
    Some(served_servers)
}

impl<T: TakesTurns + Drop + Send + 'static> Served<T> {
    /// Has its turns taken from now on.
    pub fn begin<R: Wait + Threads + Copy + Drop + Send + 'static>(
        self,
        rt: R,
        alloc: Global,
    ) -> Option<Served<JoinHandle<()>>> {
        let Served {
            port,
            front_end,
            turns,
            mark,
            loop_handles,
            elsewhere,
        } = self;
        let turns = start(rt, alloc, turns, &loop_handles)?;
        Some(Served {
            port,
            front_end,
            turns,
            mark,
            loop_handles,
            elsewhere,
        })
    }
}

// Starts a thread that takes these turns.
fn start<R: Wait + Threads + Copy + Drop + Send + 'static, T: TakesTurns + Drop + Send + 'static>(
    rt: R,
    alloc: Global,
    turns: T,
    loop_handles: &Arc<LoopHandles, Global>,
) -> Option<JoinHandle<()>> {
    let Ok(loop_handles) = Arc::try_clone(loop_handles) else {
        drop(turns);
        return None;
    };
    let started = thread::spawn(&rt, move || {
        let mut turns = turns;
        turns.take_turns(rt, alloc, &loop_handles);
    });
    started.ok()
}

/// A server that clients can call.
pub trait Serves {
    /// The port of its clients.
    fn port(&self) -> u16;

    /// Marks that no more calls are answered.
    fn fall_silent(&self);

    /// Wakes its threads.
    fn wake(&self);

    /// Whether its threads asked for turns.
    fn was_asked(&self) -> bool;

    /// Waits until all connections are closed. The worker ends then, as nobody has a seat any more.
    fn end<R: Threads>(self, rt: &R);
}

impl Serves for Served<JoinHandle<()>> {
    fn port(&self) -> u16 {
        self.port
    }

    fn fall_silent(&self) {
        self.mark.set();
        self.loop_handles.wake_all();
    }

    fn wake(&self) {
        self.loop_handles.wake_all();
    }

    fn was_asked(&self) -> bool {
        self.elsewhere.asked.load(Ordering::SeqCst) != 0
    }

    fn end<R: Threads>(self, rt: &R) {
        let Served {
            front_end,
            turns,
            ..
        } = self;
        front_end.end(rt);
        turns.join(rt);
    }
}
