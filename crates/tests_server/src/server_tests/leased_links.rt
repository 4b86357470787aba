//! A server with a lease. The test is the other one of its chain, and its master.

use super::started_servers::{linked, met, start};
use leases::Term;
use std::alloc::Global;
use std::io::{Read, Write};
use std::net::{Ipv4Addr, Net, TcpListener, TcpStream};
use std::rt::Files;
use std::sync::Wait;
use std::test::Fail;
use std::thread;
use std::thread::Threads;
use std::time::{Clock, Duration};
use tests_support::{client, says, some_port};

// How many seconds the lease runs.
const HOUR: u64 = 3_600;

// For how many milliseconds the link is to be quiet, and how many seconds the test waits for what has to come.
const QUIET: u64 = 300;

const LIMIT: u64 = 50;

// How server 1, and a master, of a chain `craq` of two servers greet (docs/FORMATS.md, "Peer messages").
const GREETING: &[u8] = b"\x02\x00\x01\x02\x07\x02\x00\x00\x00\x00\x00\x00\x00\x01\x04craq";

const MASTERS: &[u8] = b"\x02\x00\x10\x02\x07\x02\x00\x00\x00\x00\x00\x00\x00\x01\x04craq";

// A master of epoch 1 greets so; its beats begin so, and so do the answers to both.
const REIGN: &[u8] = b"\x02\x0b\x00\x00\x00\x00\x00\x00\x00\x01";

const BEAT: &[u8] = b"\x02\x0c\x00\x00\x00\x00\x00\x00\x00\x01";

const ALIVE: &[u8] = b"\x02\x0d\x00\x00\x00\x00\x00\x00\x00\x01";

// How a message begins that forwards an update.
const FORWARD: &[u8] = b"\x02\x02";

// Server 0 of two, which has a lease, the connection from it, and the one to it.
#[derive(Drop)]
struct Leased {
    port: u16,
    peer_port: u16,
    links: (TcpStream, TcpStream),
}

// A message for another server waits until a beat has prolonged the lease, and goes out then. The server goes on when
// the test ends.
#[test]
fn a_link_waits_for_the_lease(rt: HostRuntime) -> Result<(), Fail> {
    let mut leased = ready(rt, rt.alloc()).ok_or("a server with a lease")?;
    assert!(rt; waits_for_it(&rt, &mut leased));
    drop(leased);
    Ok(())
}

// Whether the update of a client is forwarded once the lease holds, and not before.
fn waits_for_it<R: Net<Listener = TcpListener, Stream = TcpStream>>(
    rt: &R,
    leased: &mut Leased,
) -> bool {
    let Ok(mut first) = client(rt, leased.port) else {
        return false;
    };
    let link = &mut leased.links.0;
    first.write_all(b"set a 0 0 1\r\n1\r\n").is_ok()
        && is_quiet(link)
        && is_prolonged(rt, leased.peer_port)
        && says(link, FORWARD)
}

// Whether nothing comes for a while.
fn is_quiet(stream: &mut TcpStream) -> bool {
    let short = Some(Duration::from_millis(QUIET));
    let long = Some(Duration::from_secs(LIMIT));
    stream.set_read_timeout(short).is_ok()
        && stream.read([0u8].as_mut_slice()).is_err()
        && stream.set_read_timeout(long).is_ok()
}

// Whether the server at this port answers a master that greets, and a beat that brings back its stamp.
fn is_prolonged<R: Net<Listener = TcpListener, Stream = TcpStream>>(rt: &R, port: u16) -> bool {
    match linked(rt, port, MASTERS) {
        Some(mut master) => prolongs(&mut master).is_some(),
        None => false,
    }
}

// The second stamp, which answers the beat.
fn prolongs(master: &mut TcpStream) -> Option<[u8; 8]> {
    let mut rest = [0u8; 10];
    master.read_exact(rest.as_mut_slice()).ok()?;
    master.write_all(REIGN).ok()?;
    let stamp = next_stamp(master)?;
    master.write_all(BEAT).ok()?;
    master.write_all(stamp.as_slice()).ok()?;
    next_stamp(master)
}

// The stamp of the answer that comes next.
fn next_stamp(master: &mut TcpStream) -> Option<[u8; 8]> {
    if !says(master, ALIVE) {
        return None;
    }
    let mut stamp = [0u8; 8];
    master.read_exact(stamp.as_mut_slice()).ok()?;
    let mut rest = [0u8; 20];
    master.read_exact(rest.as_mut_slice()).ok()?;
    Some(stamp)
}

// A server with a lease that is ready. If a port is taken others are tried.
fn ready<
    R: Wait
        + Threads
        + Clock
        + Eprint
        + Files
        + Net<Listener = TcpListener, Stream = TcpStream>
        + Copy
        + Drop
        + Send
        + Sync
        + 'static,
>(rt: R, alloc: Global) -> Option<Leased> {
    for _ in 0..50 {
        let port = some_port(&rt)?;
        let peer_port = port.wrapping_add(2);
        if let Some(links) = begin(rt, alloc, port, peer_port) {
            return Some(Leased {
                port,
                peer_port,
                links,
            });
        }
    }
    None
}

// Starts the server at these ports, and is the other one. None if a port is taken.
fn begin<
    R: Wait
        + Threads
        + Clock
        + Eprint
        + Files
        + Net<Listener = TcpListener, Stream = TcpStream>
        + Copy
        + Drop
        + Send
        + Sync
        + 'static,
>(rt: R, alloc: Global, port: u16, peer_port: u16) -> Option<(TcpStream, TcpStream)> {
    let here = (Ipv4Addr::LOCALHOST, peer_port.wrapping_add(1));
    let listener = TcpListener::bind(&rt, here).ok()?;
    let term = Term::of_seconds(HOUR);
    let mut output = start(rt, alloc, 2, 0, port, peer_port, term)?;
    let played = thread::spawn(&rt, move || play(&rt, &listener, peer_port)).ok()?;
    if says(&mut output, b"ready\n") {
        played.join(&rt)
    } else {
        drop(played);
        None
    }
}

// Accepts the server, and is accepted by it.
fn play<R: Net<Listener = TcpListener, Stream = TcpStream>>(
    rt: &R,
    listener: &TcpListener,
    peer_port: u16,
) -> Option<(TcpStream, TcpStream)> {
    let from = met(listener)?;
    Some((from, linked(rt, peer_port, GREETING)?))
}
