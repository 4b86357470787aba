//! The connections that a server opens to the others of its chain.
ghost use Rattle.std.specs.Prelude.{◌≡◌, IfOk};
ghost use Rattle.links.specs.PeerPorts.{link_control_of};
ghost use Rattle.craq_server.specs.Held.{may_end};

use crate::link_connections::LinkConnection;
use crate::link_keepers::LinkKeeper;
use crate::link_sockets::LinkSocket;
use crate::link_threads::now_of;
use crate::peer_streams::PeerStreams;
use crate::server_faults::ServerFault;
use craq_settings::{ServerSettings, port_of};
use link_streams::LinkWatch;
use links::{PeerLink, PeerPort};
use mio::net::TcpStream as LinkStream;
use peers::Identity;
use std::alloc::{AllocError, Global};
use std::net::{Net, TcpListener, TcpStream};
use std::sync::{Arc, Wait};
use std::time::Clock;
use wire::Frame;
use wire_connections::{Channel, Greeted, next_small_frame, reach};

/// How many bytes a link may keep: 1 GiB.
const MOST: u64 = 1_073_741_824;

/// How many seconds the other server may take to say where a link goes on.
const ANSWER: u64 = 10;

/// The links to the other servers, each of which has accepted.
#[derive(Drop)]
pub(crate) struct Outgoing<R> {
    /// The links by the servers' ids, none to the server itself.
    pub(crate) links: Vec<PeerLink<LinkSocket<R>>>,
    /// At which start of each server its link was accepted, likewise.
    pub(crate) starts: Vec<Option<u64>>,
    /// What looks after the links to the others.
    pub(crate) keepers: Vec<LinkKeeper>,
}

impl<R: Wait + Clock + Net<Listener = TcpListener, Stream = TcpStream> + Copy + Drop> Outgoing<R> {
    /// Connects to each other server, one after another.
    pub(crate) fn open(
        rt: R,
        alloc: Global,
        settings: &ServerSettings,
        timeout: u64,
        shared_port: &PeerPort<PeerStreams<R>>,
    ) -> Result<Outgoing<R>, ServerFault> {
        let mut links = Vec::new(alloc);
        let mut keepers = Vec::new(alloc);
        let mut starts = Vec::new(alloc);
        for j in 0..settings.numbers.servers {
            if j == settings.numbers.id {
                links.push(PeerLink::absent(alloc))?;
                starts.push(None)?;
            } else {
                let channel = channel_to(&rt, alloc, settings, shared_port.host(), j)?;
                let (link, keeper) = stands(rt, alloc, timeout, shared_port, j, channel)?;
                starts.push(Some(keeper.start))?;
                links.push(link)?;
                keepers.push(keeper)?;
            }
        }
        Ok(Outgoing {
            links,
            starts,
            keepers,
        })
    }
}

// The connection to another server.
fn channel_to<R: Clock + Net<Listener = TcpListener, Stream = TcpStream>>(
    rt: &R,
    alloc: Global,
    settings: &ServerSettings,
    host: &Identity,
    j: u8,
) -> Result<Channel, ServerFault> {
    let Some(other) = settings.hosts.get(usize::from(j)) else {
        return Err(ServerFault::Run);
    };
    let port = port_of(settings.numbers.peer_port, j);
    match reach(rt, alloc, other.as_str(), port, host)? {
        Greeted::Accepted(channel) => Ok(channel),
        Greeted::Refused(reason) => Err(ServerFault::Refused(j, reason)),
        Greeted::NoAnswer | Greeted::NoListener => Err(ServerFault::Away(j)),
        Greeted::NoHost => Err(ServerFault::NoHost(j)),
    }
}

// The link over a connection that was accepted, and who looks after it.
fn stands<R: Wait + Clock + Copy + Drop>(
    rt: R,
    alloc: Global,
    timeout: u64,
    shared_port: &PeerPort<PeerStreams<R>>,
    j: u8,
    channel: Channel,
) -> Result<(PeerLink<LinkSocket<R>>, LinkKeeper), ServerFault> {
    let Channel { sink, start, .. } = channel;
    let stream = sink.inner;
    let count = match next_small_frame(&rt, alloc, &stream, ANSWER)? {
        Some(frame) => {
            let count = match &frame {
                Frame::Confirmed(count) => Some(*count),
                _ => None,
            };
            drop(frame);
            count
        }
        None => None,
    };
    let Some(count) = count else {
        drop(stream);
        return Err(ServerFault::Away(j));
    };
    let Ok(address) = stream.peer_addr() else {
        drop(stream);
        return Err(ServerFault::Away(j));
    };
    if stream.set_read_timeout(None).is_err() || stream.set_nonblocking(true).is_err() {
        drop(stream);
        return Err(ServerFault::Run);
    }
    let stream = Arc::new(alloc, LinkStream::from_std(stream))?;
    let shared = Arc::try_clone(&stream)?;
    let socket = shared_port.link_control().socket(j, shared)?;
    let mut link = PeerLink::new(alloc, start);
    if link.connect(socket, start, count).is_err() {
        drop(link);
        drop(stream);
        return Err(ServerFault::Run);
    }
    let watch = LinkWatch::new(timeout, MOST, now_of(&rt));
    let connection = LinkConnection::accepted(alloc, stream);
    let keeper = LinkKeeper::new(j, address, start, connection, watch);
    Ok((link, keeper))
}
