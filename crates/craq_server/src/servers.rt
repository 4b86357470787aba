//! The command `server`: one server of a chain in a process of its own.
ghost use Rattle.std.specs.Prelude.{◌≡◌, ◌⊎◌, IfOk};
ghost use Rattle.node.specs.Nodes.{fresh};
ghost use Rattle.leases.specs.Shared.{is_timed};
ghost use Rattle.io_threads.specs.Pools.{AreAllAt, BeginsAs};
ghost use Rattle.craq_process.specs.Wiring.{HasOwnPools, LeadsToOwnInbox, core_of};

use crate::banners::tell_server;
use crate::guests::{GuestRoom, PeerGuests};
use crate::link_bells::LinkBell;
use crate::link_keepers::LinkKeeper;
use crate::link_sockets::LinkSocket;
use crate::link_threads::{LinkThread, WAKE};
use crate::peer_setup::{connected, new_peer_port};
use crate::peer_streams::PeerStreams;
use crate::server_faults::{ServerFault, tell};
use crate::server_links::ServerLinks;
use command_line::{FAILED, GONE, MEMORY};
use craq_process::{Concurrency, Ending, Opened, Scheduler, idle_node, open_server, warn_of_files};
use craq_settings::{ServerSettings, port_of};
use ends::{Sink, write_all};
use io_threads::{
    FrontEndServer, FrontEndSettings, Guests, LoopHandles, Pooled, SeatDeal, TurnScheduler,
    open_front_end, open_loop_handles,
};
use lines::{LineSender, LineSink};
use links::{PeerLinks, PeerPort};
use mio::{Poll, Token, Waker};
use node::SERVERS;
use rail::Worker;
use seats::SeatPool;
use server_guards::{Allowance, Gauge, Mark, OutputPermit};
use sockets::{keep_alive, listen};
use std::alloc::Global;
use std::net::{Net, SocketAddr, TcpListener, TcpStream};
use std::sync::{Arc, Wait};
use std::thread;
use std::thread::Threads;
use std::time::Clock;

/// The place of the server among those of its process, which has one.
const HERE: u8 = 0;

/// Runs one server of a chain, until a fault ends it, or it is called gone. It connects to each other server, waits
/// until each has connected to it, says `ready`, and serves clients from then on. It answers the exit status, after a
/// line: 1 if a port is taken, a peer can't be reached or refuses it, a link breaks before it is ready, or the output
/// can't be written; 3 if memory is out; 4 if it was called gone. Its other threads go on until the process ends. All
/// lines go to `line_sender`, and nothing but the start waits for one, for half a second at most. `machine` is how many
/// MiB of memory the machine has, which the line at the start tells.
///
/// If the settings give it a term, it puts nothing out while its lease doesn't hold, neither to clients nor to other
/// servers, and goes on when it holds again. It answers masters and who greets it all the same.
pub fn server<
    R: Wait
        + Threads
        + Clock
        + Net<Listener = TcpListener, Stream = TcpStream>
        + Copy
        + Drop
        + Send
        + Sync
        + 'static,
    W: Sink,
>(
    rt: R,
    alloc: Global,
    settings: &ServerSettings,
    machine: Option<u64>,
    output: &mut W,
    line_sender: &LineSender,
) -> u8
    ensures { (result ≡ FAILED) ⊎ ((result ≡ MEMORY) ⊎ (result ≡ GONE)) }
{
    let fault = match Running::open(rt, alloc, settings, machine, line_sender) {
        Ok(running) => running.work(rt, alloc, output),
        Err(fault) => fault,
    };
    tell(rt, fault, settings, line_sender);
    fault.status()
}

// A server whose links stand.
struct Running<R: Wait + Clock + Drop> {
    worker: Worker<R>,
    links: PeerLinks<LinkSocket<R>>,
    keepers: Vec<LinkKeeper>,
    link_poll: Poll,
    guest_room: Arc<GuestRoom<R>, Global>,
    loop_handles: Arc<LoopHandles, Global>,
    polls: Vec<Poll>,
    shared_port: Arc<PeerPort<PeerStreams<R>>, Global>,
    line_sender: LineSender,
    // How long a connection of a link may take nothing, in nanoseconds.
    link_timeout: u64,
    serving: ServingParts,
    id: u8,
    servers: u8,
    failed: Mark,
    // Set if the server is called gone.
    ended: Mark,
    gauge: Gauge,
}

// What will serve the clients of a server.
#[derive(Drop)]
struct ServingParts {
    listener: TcpListener,
    pools: Vec<SeatPool>,
    concurrency: Concurrency,
    connections: u32,
    output_permit: OutputPermit,
}

// The ports of a server.
#[derive(Drop)]
struct Ports {
    clients: TcpListener,
    peers: TcpListener,
}

impl<R: Wait + Clock + Copy + Drop + Send + 'static> Running<R> {
    // Opens the ports, starts the threads that serve peers, connects to the other servers, and waits until they have
    // connected too. The worker is that of the server that the settings name, and the seats are that server's. Its
    // clients are held back if its lease has a term.
    fn open(
        rt: R,
        alloc: Global,
        settings: &ServerSettings,
        machine: Option<u64>,
        line_sender: &LineSender,
    ) -> Result<Running<R>, ServerFault>
    where
        R: Threads + Net<Listener = TcpListener, Stream = TcpStream> + Sync,
        ensures server { IfOk result
            (λ running. running.worker.published.instance.start.id ≡ settings.now.numbers.id) }
        ensures id { IfOk result (λ running. running.id ≡ settings.now.numbers.id) }
        ensures pools { IfOk result
            (λ running. AreAllAt running.worker.published.instance running.serving.pools.items) }
        ensures lease { IfOk result (λ running. running.serving.output_permit ≡ is_timed settings.now.term) }
    {
        let Ports { clients, peers } = Ports::open(&rt, settings)?;
        let concurrency = Concurrency::new(
            &rt,
            settings.numbers.threads,
            settings.numbers.seats,
            SeatDeal::HalfToFirst,
        );
        let connections = settings.numbers.connections;
        let mut errors = LineSink::new(rt, line_sender);
        warn(&peers, &mut errors);
        tell_server(settings, concurrency, machine, &mut errors);
        warn_of_files(1, connections, concurrency, &mut errors);
        drop(errors);
        line_sender.settle(&rt);
        let Opened {
            pooled,
            failed,
            gauge,
        } = idle_server(rt, alloc, settings, concurrency)?;
        let Pooled {
            worker,
            pools,
            inlets,
        } = pooled;
        let Ok(link_poll) = Poll::new(&rt) else {
            return Err(ServerFault::Memory);
        };
        let Ok(waker) = Waker::new(link_poll.registry(), Token(WAKE)) else {
            return Err(ServerFault::Memory);
        };
        let shared_port = new_peer_port(
            rt,
            alloc,
            settings,
            inlets,
            &failed,
            LinkBell::new(alloc, waker)?,
        )?;
        let (loop_handles, polls) = open_loop_handles(&rt, alloc, concurrency.shares())?;
        let loop_handles = Arc::new(alloc, loop_handles)?;
        let guest_room = GuestRoom::new(alloc, Arc::try_clone(&loop_handles)?);
        let guest_room = Arc::new(alloc, guest_room)?;
        let link_timeout = settings.link_timeout();
        let (links, keepers) = connected(
            rt,
            alloc,
            settings,
            &shared_port,
            peers,
            link_timeout,
            &guest_room,
            line_sender,
        )?;
        let output_permit = shared_port.link_control().output_permit()?;
        let ended = shared_port.link_control().ended().share()?;
        Ok(Running {
            worker,
            links,
            keepers,
            link_poll,
            guest_room,
            loop_handles,
            polls,
            shared_port,
            line_sender: line_sender.share()?,
            link_timeout,
            id: settings.numbers.id,
            servers: settings.numbers.servers,
            ended,
            serving: ServingParts {
                listener: clients,
                pools,
                concurrency,
                connections,
                output_permit,
            },
            failed,
            gauge,
        })
    }

    // Says that it is ready, serves clients, and takes the worker's turns until it stops. It answers why.
    fn work<W: Sink>(self, rt: R, alloc: Global, output: &mut W) -> ServerFault
    where
        R: Threads + Net<Listener = TcpListener, Stream = TcpStream> + Sync,
        requires server { self.worker.published.instance.start.id ≡ self.id }
    {
        match self.serve(rt, alloc, output) {
            Ok(fault) => fault,
            Err(fault) => fault,
        }
    }

    fn serve<W: Sink>(
        self,
        rt: R,
        alloc: Global,
        output: &mut W,
    ) -> Result<ServerFault, ServerFault>
    where
        R: Threads + Net<Listener = TcpListener, Stream = TcpStream> + Sync,
        requires server { self.worker.published.instance.start.id ≡ self.id }
    {
        let Running {
            worker,
            links,
            keepers,
            link_poll,
            guest_room,
            loop_handles,
            polls,
            shared_port,
            line_sender,
            link_timeout,
            serving,
            id,
            servers,
            failed,
            ended,
            gauge,
        } = self;
        let mailboxes = shared_port.link_control().share_mailboxes()?;
        let links = ServerLinks::new(servers, links, mailboxes);
        let ending = Ending::new(alloc)?;
        let mut scheduler = Scheduler::new(alloc, Arc::try_clone(&loop_handles)?, false);
        scheduler.add(id, worker, links, ending.share()?, gauge)?;
        let scheduler = Arc::new(alloc, scheduler)?;
        let link_thread = LinkThread::new(
            rt,
            alloc,
            link_poll,
            keepers,
            Arc::try_clone(&shared_port)?,
            Arc::try_clone(&scheduler)?,
            line_sender.share()?,
            link_timeout,
        )?;
        start_link_thread(&rt, link_thread)?;
        let guests = PeerGuests::new(alloc, servers, guest_room, shared_port, line_sender)?;
        serve_clients(
            rt,
            alloc,
            serving,
            &scheduler,
            &loop_handles,
            polls,
            guests,
            &failed,
            output,
        )?;
        scheduler.attend_until_stopped(&rt, HERE);
        failed.set();
        loop_handles.wake_all();
        let has_stopped = ending.get().is_some();
        let fault = if ended.is_set() {
            ServerFault::Gone
        } else if has_stopped {
            ServerFault::Memory
        } else {
            ServerFault::Run
        };
        Ok(fault)
    }
}

// What looks after the links, as who starts it sees it.
trait LinkTask {
    fn look_after(self);
}

impl<R: Wait + Clock + Net + Copy + Drop> LinkTask for LinkThread<R> {
    fn look_after(self) {
        let mut thread = self;
        thread.run();
    }
}

// Starts the thread that looks after the links.
fn start_link_thread<R: Threads, K: LinkTask + Drop + Send + 'static>(
    rt: &R,
    task: K,
) -> Result<(), ServerFault> {
    match thread::spawn(rt, move || task.look_after()) {
        Ok(thread) => {
            drop(thread);
            Ok(())
        }
        Err(refused) => {
            drop(refused);
            Err(ServerFault::Memory)
        }
    }
}

// Says that the server is ready, and starts the threads that serve clients.
fn serve_clients<
    R: Wait + Threads + Clock + Net + Copy + Drop + Send + 'static,
    T: TurnScheduler + Send + Sync + Drop + 'static,
    G: Guests + Drop + Send + 'static,
    W: Sink,
>(
    rt: R,
    alloc: Global,
    serving: ServingParts,
    turn_scheduler: &Arc<T, Global>,
    loop_handles: &Arc<LoopHandles, Global>,
    polls: Vec<Poll>,
    guests: G,
    failed: &Mark,
    output: &mut W,
) -> Result<(), ServerFault> {
    let ServingParts {
        listener,
        pools,
        concurrency: _,
        connections,
        output_permit,
    } = serving;
    let mark = failed.share()?;
    let mut served_servers = Vec::new(alloc);
    served_servers.push(FrontEndServer {
        listener,
        pools,
        mark,
        output_permit,
    })?;
    if write_all(output, b"ready\n").is_err() {
        return Err(ServerFault::Run);
    }
    let settings = FrontEndSettings {
        connections: u64::from(connections),
        serves: 0,
        dense: 8,
    };
    let _ = open_front_end(
        rt,
        alloc,
        settings,
        turn_scheduler,
        loop_handles,
        polls,
        served_servers,
        Some(guests),
    )?;
    Ok(())
}

impl Ports {
    fn open<R: Net<Listener = TcpListener, Stream = TcpStream>>(
        rt: &R,
        settings: &ServerSettings,
    ) -> Result<Ports, ServerFault> {
        let address = settings.address.as_str();
        Ok(Ports {
            clients: listener(
                rt,
                address,
                port_of(settings.numbers.port, settings.numbers.id),
            )?,
            peers: listener(
                rt,
                address,
                port_of(settings.numbers.peer_port, settings.numbers.id),
            )?,
        })
    }
}

fn listener<R: Net<Listener = TcpListener, Stream = TcpStream>>(
    rt: &R,
    address: &str,
    port: u16,
) -> Result<TcpListener, ServerFault> {
    match listen(rt, address, port) {
        Ok(listener) => {
            keep_alive(&listener);
            Ok(listener)
        }
        Err(fault) => Err(ServerFault::Port(port, fault)),
    }
}

// Warns if who is on other machines may reach it.
fn warn<X: Sink>(listener: &TcpListener, errors: &mut X) {
    if let Ok(address) = listener.local_addr() {
        warn_of(address, errors);
    }
}

/// A line of warning, unless the address is one that this machine alone reaches.
pub fn warn_of<X: Sink>(address: SocketAddr, errors: &mut X) {
    if !address.ip().is_loopback() {
        let _ = write_all(
            errors,
            b"craq: warning: others may connect, and the ports have no authentication\n",
        );
    }
}

// The server that the settings name, before any input, with an inlet for each other server and for the master.
#[tactic(auto, using(crate::proofs::Standing::begins_too))]
fn idle_server<R: Wait + Copy + Drop>(
    rt: R,
    alloc: Global,
    settings: &ServerSettings,
    concurrency: Concurrency,
) -> Result<Opened<R>, ServerFault>
    ensures worker { IfOk result (λ opened. let numbers = settings.now.numbers in
        BeginsAs (fresh numbers.id numbers.servers) opened.pooled.worker) }
    ensures pools { IfOk result (λ opened. HasOwnPools (core_of opened)) }
    ensures inlets { IfOk result (λ opened. LeadsToOwnInbox opened) }
{
    let servers = settings.numbers.servers;
    if servers == 0 || servers > SERVERS {
        return Err(ServerFault::Run);
    }
    let node = idle_node(alloc, settings.numbers.id, servers)?;
    let allowance = Allowance::new(settings.numbers.memory, 1);
    match open_server(rt, alloc, node, servers, concurrency, allowance) {
        Ok(opened) => Ok(opened),
        Err(fault) => Err(ServerFault::from(fault)),
    }
}
