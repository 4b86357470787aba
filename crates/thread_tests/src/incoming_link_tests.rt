//! A server's link over connections that end within a frame.

use crate::rail_tests::running::{Step, first_with_two_inlets, go_on, key};
use ends::{TrackedReader, TrackedWriter};
use leases::Lease;
use links::{GreeterInlets, LinkControl, PeerConnection, PeerPort, Speaker};
use peers::{Identity, serve_peer};
use rail::{Inlet, RailFault, Turn};
use std::alloc::Global;
use std::sync::{Arc, Wait};
use std::test::Fail;
use std::time::Clock;
use wire::{Introduction, Reason};

// A forward of 36 bytes, and two acknowledgements of 12 bytes each.
const STREAM: &[u8] =
    b"\x02\x02\x00\x00\x00\x00\x00\x00\x00\x00\x00\x01\x00\x00\x00\x00\x00\x00\x00\x00\x01\x01a\x01\x01\x00\x00\x00\x05\x00\x00\x00\x03xyz\x02\x03\x00\x00\x00\x00\x00\x00\x00\x00\x00\x00\x02\x03\x00\x00\x00\x00\x00\x00\x00\x00\x00\x00";

// A connection of a start of server 1.
#[derive(Clone, Copy)]
enum Connection {
    // It carries so many bytes of the stream, from where it goes on, and ends. So many of all were handed on then.
    Carries(u64, usize, u64),
    // It is refused: the link is another start's.
    IsRefused(u64),
}

// The connections of a link: they end within a frame, twice within the next one, and at the end. Another start is
// always refused.
static CONNECTIONS: [Connection; 8] = [
    Connection::Carries(5, 40, 36),
    Connection::IsRefused(6),
    Connection::Carries(5, 5, 36),
    Connection::Carries(5, 13, 48),
    Connection::IsRefused(4),
    Connection::Carries(5, 60, 60),
    Connection::Carries(5, 60, 60),
    Connection::IsRefused(6),
];

// What has the clock of a server, and ends nothing.
#[derive(Drop)]
struct Quiet<R: Clock> {
    clock: R,
}

impl<R: Clock> LinkControl for Quiet<R> {
    type ServerClock = R;

    fn cut<W: Wait>(&self, _rt: &W, _j: u8) {}

    fn end(&self) {}

    fn clock(&self) -> &R {
        &self.clock
    }

    fn renewed(&self, _lease: &Lease) {}
}

// The peer port of server 0 of two, with the last of these inlets for masters, and the one before it for server 1.
fn new_port<R: Clock + Drop>(
    rt: R,
    alloc: Global,
    inlets: &mut Vec<Inlet>,
) -> Result<Arc<PeerPort<Quiet<R>>, Global>, RailFault> {
    let notices = inlets.pop().ok_or(RailFault::Memory)?;
    let mut servers = Vec::with_capacity(alloc, 2)?;
    servers.push(None)?;
    servers.push(inlets.pop())?;
    let host = Identity {
        id: 0,
        servers: 2,
        start: 1,
        chain: key(alloc, b"c")?,
    };
    let greeter_inlets = GreeterInlets::new(alloc, servers)?;
    let port = PeerPort::new(host, greeter_inlets, notices, None, Quiet { clock: rt });
    Ok(Arc::new(alloc, port)?)
}

// A greeting of this start of server 1.
fn greet<R: Wait, C: LinkControl>(
    rt: &R,
    alloc: Global,
    port: &PeerPort<C>,
    start: u64,
) -> Result<Result<Speaker, Reason>, RailFault> {
    let opener = Introduction {
        servers: 2,
        start,
        chain: key(alloc, b"c")?,
    };
    match port.greet(rt, alloc, 1, &opener) {
        Ok((speaker, _)) => Ok(Ok(speaker)),
        Err(reason) => Ok(Err(reason)),
    }
}

// Whether this start of server 1 is refused.
fn is_refused<R: Wait, C: LinkControl>(
    rt: &R,
    alloc: Global,
    port: &PeerPort<C>,
    start: u64,
) -> Result<bool, RailFault> {
    match greet(rt, alloc, port, start)? {
        Ok(speaker) => {
            drop(speaker);
            Ok(false)
        }
        Err(reason) => Ok(reason == Reason::Taken),
    }
}

// So many bytes of the stream, from one of them on.
fn part(from: Option<u64>, count: usize) -> &'static [u8] {
    let from = usize::try_from(from.unwrap_or_default()).unwrap_or(STREAM.len());
    let left = STREAM.get(from..).unwrap_or_default();
    left.get(..count.min(left.len())).unwrap_or_default()
}

// A connection of this speaker brings these bytes and ends. It tells how many of the link were handed on then. What it
// brings is lawful, so that it is cut short only by memory.
fn serve<R: Wait, C: LinkControl + Drop>(
    rt: &R,
    alloc: Global,
    port: &Arc<PeerPort<C>, Global>,
    speaker: Speaker,
    count: usize,
) -> Result<Option<u64>, RailFault> {
    let shared_port = Arc::try_clone(port)?;
    let mut source = TrackedReader::new(part(speaker.handed(), count));
    let sink = TrackedWriter::new(Vec::new(alloc));
    let mut peer_connection = PeerConnection::new(alloc, shared_port, speaker, sink);
    let served = serve_peer(rt, alloc, &mut source, &mut peer_connection);
    let speaker = peer_connection.into_speaker();
    let handed = speaker.handed();
    port.give_back(rt, speaker);
    match served {
        Ok(_) => Ok(handed),
        Err(_) => Err(RailFault::Memory),
    }
}

// Whether a connection goes as it says. While it stands, no other one is accepted.
fn goes<R: Wait, C: LinkControl + Drop>(
    rt: &R,
    alloc: Global,
    port: &Arc<PeerPort<C>, Global>,
    connection: Connection,
) -> Result<bool, RailFault> {
    match connection {
        Connection::IsRefused(start) => is_refused(rt, alloc, port, start),
        Connection::Carries(start, count, handed) => {
            let Ok(speaker) = greet(rt, alloc, port, start)? else {
                return Ok(false);
            };
            let is_alone = is_refused(rt, alloc, port, start);
            Ok(serve(rt, alloc, port, speaker, count)? == Some(handed) && is_alone?)
        }
    }
}

// The first connection that doesn't go as it says.
fn first_otherwise<R: Wait, C: LinkControl + Drop>(
    rt: &R,
    alloc: Global,
    port: &Arc<PeerPort<C>, Global>,
) -> Result<Option<usize>, RailFault> {
    let mut place = 0_usize;
    for connection in &CONNECTIONS {
        if !goes(rt, alloc, port, *connection)? {
            return Ok(Some(place));
        }
        place = place.wrapping_add(1);
    }
    Ok(None)
}

// Whether all connections go as they say, and each message of the stream is brought once.
fn goes_on_after_whole_frames<R: Wait + Clock + Copy + Drop>(
    rt: R,
    alloc: Global,
) -> Result<bool, RailFault> {
    let mut server = first_with_two_inlets(rt, alloc, 2)?;
    let port = new_port(rt, alloc, &mut server.inlets)?;
    let otherwise = first_otherwise(&rt, alloc, &port);
    let brought = [
        Step::TurnsIfAny(Some(Turn::Went)),
        Step::TurnsIfAny(Some(Turn::Went)),
        Step::TurnsIfAny(Some(Turn::Went)),
        Step::TurnsIfAny(None),
    ];
    let went = go_on(&rt, alloc, &mut server, &brought);
    drop(port);
    drop(server);
    Ok(otherwise?.is_none() && went?)
}

#[test]
fn link_goes_on_after_whole_frames(rt: HostRuntime) -> Result<(), Fail> {
    assert!(rt; goes_on_after_whole_frames(rt, rt.alloc())?);
    Ok(())
}
