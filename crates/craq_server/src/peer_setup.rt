//! How a server meets the others of its chain.
ghost use Rattle.std.specs.Prelude.{◌≡◌, IfOk};
ghost use Rattle.std.specs.Arc.{arc_value};
ghost use Rattle.leases.specs.Shared.{is_timed};
ghost use Rattle.links.specs.PeerPorts.{link_control_of, host_of};
ghost use Rattle.links.specs.GreeterInlets.{waiting};
ghost use Rattle.craq_server.specs.Held.{may_end};
ghost use Rattle.craq_server.specs.Wiring.{IsPlaced};

use crate::arrivals::Arrivals;
use crate::dealing::inlets_for_all;
use crate::guests::GuestRoom;
use crate::link_bells::LinkBell;
use crate::link_keepers::LinkKeeper;
use crate::link_sockets::LinkSocket;
use crate::outgoing::Outgoing;
use crate::peer_listeners::open_peer_listener;
use crate::peer_streams::PeerStreams;
use crate::server_faults::ServerFault;
use command_line::ServerNumbers;
use craq_settings::ServerSettings;
use lines::LineSender;
use links::{GreeterInlets, PeerLinks, PeerPort};
use peers::Identity;
use rail::Inlet;
use server_guards::Mark;
use std::alloc::Global;
use std::net::{Net, TcpListener, TcpStream};
use std::sync::{Arc, Wait};
use std::thread::Threads;
use std::time::Clock;
use wire_connections::start_number;

/// The peer port of the server that the settings name, at which other servers and masters greet, and the server's
/// lease, which has the term of the settings. The mark is set if the server is called gone.
pub(crate) fn new_peer_port<R: Clock + Copy + Drop>(
    rt: R,
    alloc: Global,
    settings: &ServerSettings,
    inlets: Vec<Inlet>,
    failed: &Mark,
    bell: LinkBell,
) -> Result<Arc<PeerPort<PeerStreams<R>>, Global>, ServerFault>
    ensures host { IfOk result (λ port. (host_of (arc_value port)).id ≡ settings.now.numbers.id) }
    ensures lease { IfOk result (λ port. may_end (link_control_of (arc_value port)) ≡ is_timed settings.now.term) }
{
    let ServerNumbers { id, servers, .. } = settings.numbers;
    let host = Identity {
        id,
        servers,
        start: start_number(&rt),
        chain: settings.chain.clone()?,
    };
    let (greeter_inlets, notices) = all_greeter_inlets(alloc, settings, inlets)?;
    let term = settings.term;
    let connections = PeerStreams::new(rt, alloc, id, servers, failed.share()?, term, bell)?;
    let shared_port = PeerPort::new(host, greeter_inlets, notices, term, connections);
    Ok(Arc::new(alloc, shared_port)?)
}

/// Starts the threads that serve peers, and connects to the other servers. It gives the links once these have connected
/// too.
pub(crate) fn connected<
    R: Wait
        + Threads
        + Clock
        + Net<Listener = TcpListener, Stream = TcpStream>
        + Copy
        + Drop
        + Send
        + Sync
        + 'static,
>(
    rt: R,
    alloc: Global,
    settings: &ServerSettings,
    shared_port: &Arc<PeerPort<PeerStreams<R>>, Global>,
    peers: TcpListener,
    timeout: u64,
    guest_room: &Arc<GuestRoom<R>, Global>,
    line_sender: &LineSender,
) -> Result<(PeerLinks<LinkSocket<R>>, Vec<LinkKeeper>), ServerFault> {
    let arrivals = Arc::new(alloc, Arrivals::new(alloc, settings.numbers.servers)?)?;
    let _ = open_peer_listener(
        rt,
        alloc,
        peers,
        shared_port,
        &arrivals,
        guest_room,
        line_sender,
    )?;
    let Outgoing {
        links,
        keepers,
        starts,
    } = Outgoing::open(rt, alloc, settings, timeout, shared_port)?;
    arrivals.wait_for_all(&rt, starts.as_slice(), shared_port.link_control().ended())?;
    Ok((PeerLinks::new(alloc, links), keepers))
}

// The inlets of the other servers, and the inlet of all masters.
fn all_greeter_inlets(
    alloc: Global,
    settings: &ServerSettings,
    inlets: Vec<Inlet>,
) -> Result<(GreeterInlets, Inlet), ServerFault>
    ensures { IfOk result (λ all. let numbers = settings.now.numbers in
        IsPlaced numbers.id numbers.servers inlets.items (waiting all.0) all.1) }
{
    let mut inlets = inlets;
    let ServerNumbers { id, servers, .. } = settings.numbers;
    let greeter_inlets = inlets_for_all(alloc, usize::from(id), usize::from(servers), &mut inlets)?;
    match inlets.pop() {
        Some(notices) => {
            let links = GreeterInlets::new(alloc, greeter_inlets)?;
            Ok((links, notices))
        }
        None => Err(ServerFault::Run),
    }
}
