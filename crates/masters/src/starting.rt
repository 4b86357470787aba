//! How a master starts: a thread for each server, and the one that decides.

use crate::deciding::Decider;
use crate::news::NewsSender;
use crate::platforms::Platform;
use crate::printers::Printer;
use crate::server_threads::{Inputs, Place, ServerThread};
use craq_settings::{MasterSettings, host_of, port_of};
use crossbeam_channel::{Sender, bounded};
use ends::Sink;
use leases::Order;
use master_decisions::{MasterFault, Task};
use node::SERVERS;
use peers::Identity;
use std::alloc::{AllocError, Global};
use std::thread;
use std::time::{Duration, Instant};
use wire::MASTER;
use wire_connections::start_number;

/// How much news may wait.
const MOST_NEWS: usize = 64;

/// How many tasks for a server may wait: more than are ever under way.
const TASKS: usize = 128;

/// How many orders for a server may wait.
const ORDERS: usize = 4;

/// Where what a master wants of a server goes.
#[derive(Drop)]
pub(crate) struct ServerSender {
    tasks: Sender<Task>,
    orders: Sender<Order>,
}

impl ServerSender {
    /// Has the server's thread do this. There is room for it: of each failed server few notices are under way. Refused
    /// only if that thread has ended, as it does without memory.
    pub(crate) fn ask<R: Platform>(&self, rt: &R, task: Task) -> Result<(), MasterFault> {
        match self.tasks.send(rt, task) {
            Ok(()) => Ok(()),
            Err(_) => Err(MasterFault::Memory),
        }
    }

    /// Has an order sent to the server if it is watched, and never waits. It is lost if several wait there already: then
    /// the server isn't reached.
    pub(crate) fn hand<R: Platform>(&self, rt: &R, order: Order) {
        let _ = self.orders.try_send(rt, order);
    }
}

/// A master that has begun.
#[derive(Drop)]
pub(crate) struct Beginning<'a, W, X> {
    /// The thread that decides, before it was spoken to a server.
    pub(crate) decider: Decider<'a, W, X>,
    /// The number of the master's start.
    pub(crate) start: u64,
    /// Where another thread puts its news.
    pub(crate) news_sender: NewsSender,
}

/// A master that hasn't spoken to its servers. Refused with Run if no chain has that many, or the clock can't be read.
pub(crate) fn begin<'a, R: Platform, W: Sink, X: Sink>(
    rt: R,
    alloc: Global,
    settings: &'a MasterSettings,
    output: &'a mut W,
    errors: &'a mut X,
) -> Result<Beginning<'a, W, X>, MasterFault> {
    let begun = begun_now(&rt, settings.numbers.servers)?;
    let start = start_number(&rt);
    let (sender, all_news) = bounded(alloc, MOST_NEWS)?;
    let news_sender = NewsSender::new(sender, begun);
    let server_senders = start_threads(rt, alloc, settings, start, &news_sender)?;
    let printer = Printer::new(alloc, settings, output, errors)?;
    Ok(Beginning {
        decider: Decider::new(alloc, printer, server_senders, all_news, begun)?,
        start,
        news_sender,
    })
}

// When a master begins: now, if a chain has that many servers, and the clock can be read.
fn begun_now<R: Platform>(rt: &R, servers: u8) -> Result<Instant, MasterFault> {
    match Instant::now(rt) {
        Ok(begun) if 0 < servers && servers <= SERVERS => Ok(begun),
        _ => Err(MasterFault::Run),
    }
}

// Starts a thread for each server of the chain, by their ids: they put their news there. Fails only if memory or
// threads run out.
fn start_threads<R: Platform>(
    rt: R,
    alloc: Global,
    settings: &MasterSettings,
    start: u64,
    news_sender: &NewsSender,
) -> Result<Vec<ServerSender>, AllocError> {
    let mut server_senders = Vec::new(alloc);
    for i in 0..settings.numbers.servers {
        let place = place_of(alloc, settings, start, i)?;
        let beat = Duration::from_millis(u64::from(settings.numbers.beat));
        server_senders.push(start_thread(rt, alloc, place, beat, news_sender.another()?)?)?;
    }
    Ok(server_senders)
}

// Where server i is.
fn place_of(
    alloc: Global,
    settings: &MasterSettings,
    start: u64,
    i: u8,
) -> Result<Place, AllocError> {
    Ok(Place {
        id: i,
        host: host_of(alloc, settings, i)?,
        port: port_of(settings.numbers.peer_port, i),
        identity: Identity {
            id: MASTER,
            servers: settings.numbers.servers,
            start,
            chain: settings.chain.clone()?,
        },
    })
}

// Starts the thread of the server there.
fn start_thread<R: Platform>(
    rt: R,
    alloc: Global,
    place: Place,
    beat: Duration,
    news_sender: NewsSender,
) -> Result<ServerSender, AllocError> {
    let (task_sender, tasks) = bounded(alloc, TASKS)?;
    let (order_sender, orders) = bounded(alloc, ORDERS)?;
    let inputs = Inputs { tasks, orders };
    let server_thread = ServerThread::new(alloc, place, inputs, news_sender, beat);
    match thread::spawn(&rt, move || run(&rt, server_thread)) {
        Ok(thread) => {
            drop(thread);
            Ok(ServerSender {
                tasks: task_sender,
                orders: order_sender,
            })
        }
        Err(refused) => {
            drop(refused);
            Err(AllocError)
        }
    }
}

fn run<R: Platform>(rt: &R, server_thread: ServerThread) {
    let mut server_thread = server_thread;
    server_thread.run(rt);
}
