//! Starts the threads that accept and serve connections.

use crate::accepting::{Acceptor, ServerListener};
use crate::connection_permits::PermitIssuer;
use crate::connection_tables::{ConnectionTableParts, SERVERS};
use crate::guests::Guests;
use crate::loop_handles::LoopHandles;
use crate::loops::ThreadParts;
use crate::turn_schedulers::TurnScheduler;
use libc::net;
use mio::Poll;
use mio::net::TcpListener as Listener;
use seats::SeatPool;
use server_guards::{Mark, OutputPermit};
use std::alloc::{AllocError, AllocFailed, Global};
use std::net::{Net, TcpListener};
use std::os::fd::AsRawFd;
use std::sync::{Arc, Wait};
use std::thread;
use std::thread::{JoinHandle, Threads};
use std::time::Clock;
use thiserror::Error;

/// Why no front end is opened.
#[derive(Clone, Copy, Debug, PartialEq, Eq, Error)]
pub enum FrontEndFault {
    /// No memory, thread or file was left.
    #[error("out of memory, threads or files")]
    Memory,
    /// The numbers are of no front end: some thread would have no seat, or there are too many servers.
    #[error("no such front end")]
    Numbers,
}

impl From<AllocError> for FrontEndFault {
    ghost use Rattle.std.specs.Prelude.{◌≡◌};
    ghost use Rattle.io_threads.specs.declared.front_ends.FrontEndFault.TheVariants.{Memory};

    ghost from_gives = { λ _ e. e ≡ Memory };

    fn from(_e: AllocError) -> FrontEndFault {
        FrontEndFault::Memory
    }
}

impl<T: Drop> From<AllocFailed<T>> for FrontEndFault {
    ghost use Rattle.std.specs.Prelude.{◌≡◌};
    ghost use Rattle.io_threads.specs.declared.front_ends.FrontEndFault.TheVariants.{Memory};

    ghost from_gives = { λ _ e. e ≡ Memory };

    fn from(_e: AllocFailed<T>) -> FrontEndFault {
        FrontEndFault::Memory
    }
}

/// How many connections a front end serves, and which thread serves them.
#[derive(Clone, Copy, Debug)]
pub struct FrontEndSettings {
    /// How many may be open at once, of each server.
    pub connections: u64,
    /// How many are accepted of each server before the front end closes; with 0 it never does.
    pub serves: u64,
    /// How many connections of a server a thread gets before another one gets any; with 1 they are dealt out as evenly
    /// as can be.
    pub dense: u64,
}

/// One server of a front end: where its clients connect, the seats of each thread, the mark that is set as soon as it
/// answers no more calls, and what may hold back its output.
#[derive(Drop)]
pub struct FrontEndServer {
    pub listener: TcpListener,
    pub pools: Vec<SeatPool>,
    pub mark: Mark,
    pub output_permit: OutputPermit,
}

/// The threads of a front end.
#[derive(Drop)]
pub struct FrontEnd {
    acceptor: JoinHandle<()>,
    threads: Vec<JoinHandle<()>>,
}

/// Starts the threads that serve the clients of these servers, one for each poll of the loop handles, and the one that
/// accepts connections. The servers stand in the order of their ids. Refused with Numbers if some thread has no seat at
/// some server, or there are more than 16 servers, else with Memory; threads that were started then end. The first
/// thread reads the guests, if there are any.
pub fn open_front_end<
    R: Wait + Threads + Clock + Net + Copy + Drop + Send + 'static,
    T: TurnScheduler + Send + Sync + Drop + 'static,
    G: Guests + Drop + Send + 'static,
>(
    rt: R,
    alloc: Global,
    settings: FrontEndSettings,
    turn_scheduler: &Arc<T, Global>,
    loop_handles: &Arc<LoopHandles, Global>,
    polls: Vec<Poll>,
    served_servers: Vec<FrontEndServer>,
    guests: Option<G>,
) -> Result<FrontEnd, FrontEndFault> {
    if served_servers.len() > SERVERS {
        drop(guests);
        return Err(FrontEndFault::Numbers);
    }
    let front_end = start(
        rt,
        alloc,
        settings,
        turn_scheduler,
        loop_handles,
        polls,
        served_servers,
        guests,
    );
    if front_end.is_err() {
        loop_handles.finish();
    }
    front_end
}

// Starts the threads.
fn start<
    R: Wait + Threads + Clock + Net + Copy + Drop + Send + 'static,
    T: TurnScheduler + Send + Sync + Drop + 'static,
    G: Guests + Drop + Send + 'static,
>(
    rt: R,
    alloc: Global,
    settings: FrontEndSettings,
    turn_scheduler: &Arc<T, Global>,
    loop_handles: &Arc<LoopHandles, Global>,
    polls: Vec<Poll>,
    served_servers: Vec<FrontEndServer>,
    guests: Option<G>,
) -> Result<FrontEnd, FrontEndFault> {
    let threads = polls.len();
    let (server_listeners, table_parts) = make_tables(alloc, settings, threads, served_servers)?;
    let handles = start_serving(
        rt,
        alloc,
        turn_scheduler,
        loop_handles,
        polls,
        table_parts,
        guests,
    )?;
    let acceptor = Acceptor::new(rt, alloc, server_listeners, Arc::try_clone(loop_handles)?)?;
    let Ok(acceptor) = thread::spawn(&rt, move || run_acceptor(acceptor)) else {
        return Err(FrontEndFault::Memory);
    };
    Ok(FrontEnd {
        acceptor,
        threads: handles,
    })
}

impl FrontEnd {
    /// Waits until every thread has ended: each server has been connected to as often as it serves, and all of these
    /// connections are closed.
    pub fn end<R: Threads>(self, rt: &R) {
        let FrontEnd { acceptor, threads } = self;
        acceptor.join(rt);
        for thread in threads {
            thread.join(rt);
        }
    }
}

fn run_acceptor<R: Wait + Copy + Drop>(acceptor: Acceptor<R>) {
    let mut acceptor = acceptor;
    acceptor.run();
}

// What a thread does, as who starts it sees it. What a serving thread begins with holds a lease that threads share.
// That it may go to another thread isn't found by itself, and is shown once, where `start_thread` is called.
trait Task {
    fn run(self);
}

impl<R: Wait + Clock + Copy + Drop, T: TurnScheduler + Drop, G: Guests + Drop> Task
    for ThreadParts<R, T, G> {
    fn run(self) {
        let mut serving = self.begin();
        serving.run();
    }
}

// Starts a thread.
fn start_thread<R: Threads, K: Task + Drop + Send + 'static>(
    rt: &R,
    task: K,
) -> Result<JoinHandle<()>, FrontEndFault> {
    match thread::spawn(rt, move || task.run()) {
        Ok(thread) => Ok(thread),
        Err(_) => Err(FrontEndFault::Memory),
    }
}

// The server_listener of each server, and each thread's parts of tables, by the servers' ids.
fn make_tables(
    alloc: Global,
    settings: FrontEndSettings,
    threads: usize,
    served_servers: Vec<FrontEndServer>,
) -> Result<(Vec<ServerListener>, Vec<Vec<ConnectionTableParts>>), FrontEndFault> {
    let mut server_listeners = Vec::new(alloc);
    let mut table_parts = no_table_parts(alloc, threads)?;
    let mut id = 0u8;
    for served_server in served_servers {
        let FrontEndServer {
            listener,
            pools,
            mark,
            output_permit,
        } = served_server;
        add_table_parts(&mut table_parts, id, pools, &mark, &output_permit)?;
        server_listeners.push(server_listener(alloc, settings, threads, listener, mark)?)?;
        id = id.wrapping_add(1);
    }
    Ok((server_listeners, table_parts))
}

// None yet for each of the threads.
fn no_table_parts(
    alloc: Global,
    threads: usize,
) -> Result<Vec<Vec<ConnectionTableParts>>, AllocError> {
    let mut table_parts = Vec::new(alloc);
    for _ in 0..threads {
        table_parts.push(Vec::new(alloc))?;
    }
    Ok(table_parts)
}

// The parts of a table at this server for each thread.
fn add_table_parts(
    table_parts: &mut Vec<Vec<ConnectionTableParts>>,
    id: u8,
    pools: Vec<SeatPool>,
    mark: &Mark,
    output_permit: &OutputPermit,
) -> Result<(), FrontEndFault> {
    let mut pools = pools.into_iter();
    for own in table_parts.iter_mut() {
        let Some(pool) = pools.next() else {
            return Err(FrontEndFault::Numbers);
        };
        let mark = mark.share()?;
        let output_permit = output_permit.share()?;
        own.push(ConnectionTableParts {
            id,
            pool,
            mark,
            output_permit,
        })?;
    }
    Ok(())
}

// Where connections to a server are accepted, for this many threads.
fn server_listener(
    alloc: Global,
    settings: FrontEndSettings,
    threads: usize,
    listener: TcpListener,
    mark: Mark,
) -> Result<ServerListener, FrontEndFault> {
    if listener.set_nonblocking(true).is_err() {
        return Err(FrontEndFault::Memory);
    }
    keep_waiting(&listener);
    let listener = Listener::from_std(listener);
    let permit_issuer = PermitIssuer::new(alloc, threads, settings.connections, settings.dense)?;
    Ok(ServerListener::new(listener, permit_issuer, mark, settings.serves))
}

// Has the system keep as many connections as it may that weren't accepted yet.
fn keep_waiting(listener: &TcpListener) {
    net::listen(listener.as_raw_fd(), i32::MAX);
}

// Starts the serving threads.
fn start_serving<
    R: Wait + Threads + Clock + Copy + Drop + Send + 'static,
    T: TurnScheduler + Send + Sync + Drop + 'static,
    G: Guests + Drop + Send + 'static,
>(
    rt: R,
    alloc: Global,
    turn_scheduler: &Arc<T, Global>,
    loop_handles: &Arc<LoopHandles, Global>,
    polls: Vec<Poll>,
    table_parts: Vec<Vec<ConnectionTableParts>>,
    guests: Option<G>,
) -> Result<Vec<JoinHandle<()>>, FrontEndFault> {
    let mut handles = Vec::new(alloc);
    let mut guests = guests;
    let mut me = 0usize;
    let mut polls = polls.into_iter();
    for own in table_parts {
        let Some(poll) = polls.next() else {
            return Err(FrontEndFault::Numbers);
        };
        let turn_scheduler = Arc::try_clone(turn_scheduler)?;
        let loop_handles = Arc::try_clone(loop_handles)?;
        let thread_parts = ThreadParts::new(
            rt,
            alloc,
            me,
            turn_scheduler,
            loop_handles,
            poll,
            own,
            guests.take(),
        )?;
        handles.push(start_thread(&rt, thread_parts)?)?;
        me = me.wrapping_add(1);
    }
    Ok(handles)
}
