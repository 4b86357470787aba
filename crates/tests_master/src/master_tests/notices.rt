//! Servers of a chain that speak over sockets, and a master that tells them of a failure.

use super::started_servers::{here, linked, met, start};
use command_line::MasterNumbers;
use craq_settings::MasterSettings;
use ends::{TrackedReader, TrackedWriter};
use masters::master;
use std::alloc::Global;
use std::io::{PipeReader, Write, pipe};
use std::net::{Ipv4Addr, Net, TcpListener, TcpStream};
use std::rt::Files;
use std::sync::Wait;
use std::test::Fail;
use std::thread::Threads;
use std::time::Clock;
use std::{io, thread};
use tests_support::{answers, client, says, some_port};

// How many servers the chain has.
const SERVERS: u8 = 3;

// How server 1 greets: a Hello, and an introduction to the chain `craq` of three servers (docs/FORMATS.md, "Peer
// messages").
const GREETING: &[u8] = b"\x02\x00\x01\x02\x07\x03\x00\x00\x00\x00\x00\x00\x00\x01\x04craq";

// Servers 0 and 2 of three, and the connections of server 1, which the test is.
#[derive(Drop)]
struct Broken {
    port: u16,
    peer_port: u16,
    middle: Middle,
}

// The connections from two others, and those to them.
#[derive(Drop)]
struct Middle {
    inlets: (TcpStream, TcpStream),
    outlets: (TcpStream, TcpStream),
}

// A set that waits for a silent server is committed once the others were told that it has failed. Servers 0 and 2 go on
// when the test ends.
#[test]
fn set_waits_for_the_master(rt: HostRuntime) -> Result<(), Fail> {
    let alloc = rt.alloc();
    let broken = ready(rt, alloc).ok_or("two servers")?;
    assert!(rt; waits_for_the_master(&rt, alloc, &broken)?);
    drop(broken);
    Ok(())
}

fn waits_for_the_master<
    R: Wait
        + Threads
        + Clock
        + Files
        + Net<Listener = TcpListener, Stream = TcpStream>
        + Copy
        + Drop
        + Send
        + Sync
        + 'static,
>(rt: &R, alloc: Global, broken: &Broken) -> Result<bool, Fail> {
    let mut first = client(rt, broken.port)?;
    first.write_all(b"set a 0 0 1\r\n1\r\n")?;
    let waits = finds_none(rt, broken.port.wrapping_add(2));
    let told = tells(rt, alloc, broken.peer_port)?;
    Ok(waits && told && says(&mut first, b"STORED\r\n"))
}

// Whether a client of the server at this port finds no item.
fn finds_none<R: Net<Listener = TcpListener, Stream = TcpStream>>(rt: &R, port: u16) -> bool {
    match client(rt, port) {
        Ok(mut stream) => answers(&mut stream, b"get a\r\n", b"END\r\n"),
        Err(_) => false,
    }
}

// Whether a master that reads `gone 1` tells both others.
fn tells<
    R: Wait
        + Threads
        + Clock
        + Files
        + Net<Listener = TcpListener, Stream = TcpStream>
        + Copy
        + Drop
        + Send
        + Sync
        + 'static,
>(rt: &R, alloc: Global, peer_port: u16) -> Result<bool, Fail> {
    let numbers = MasterNumbers {
        servers: SERVERS,
        peer_port,
        watch: false,
        beat: 300,
        after: 3_000,
    };
    let input = notice(rt)?;
    let settings = MasterSettings::new(alloc, numbers, here(alloc)?)?;
    let mut input = TrackedReader::new(input);
    let mut output = TrackedWriter::new(Vec::new(alloc));
    let mut errors = TrackedWriter::new(Vec::new(alloc));
    let status = master(rt, alloc, &settings, &mut input, &mut output, &mut errors);
    drop(settings);
    Ok(status == 0 && output.inner.as_slice() == b"gone 1 told 2\n".as_slice())
}

// An input that says that server 1 is gone, and ends.
fn notice<R: Files>(rt: &R) -> io::Result<PipeReader> {
    let (input, mut lines) = pipe(rt)?;
    lines.write_all(b"gone 1\n")?;
    Ok(input)
}

// Two servers that are ready. If a port is taken others are tried.
fn ready<
    R: Wait
        + Threads
        + Clock
        + Eprint
        + Files
        + Net<Listener = TcpListener, Stream = TcpStream>
        + Copy
        + Drop
        + Send
        + Sync
        + 'static,
>(rt: R, alloc: Global) -> Option<Broken> {
    for _ in 0..50 {
        let port = some_port(&rt)?;
        let peer_port = port.wrapping_add(u16::from(SERVERS));
        if let Some(middle) = begin(rt, alloc, port, peer_port) {
            return Some(Broken {
                port,
                peer_port,
                middle,
            });
        }
    }
    None
}

// Starts both servers at these ports, and is the one between them. None if a port is taken.
fn begin<
    R: Wait
        + Threads
        + Clock
        + Eprint
        + Files
        + Net<Listener = TcpListener, Stream = TcpStream>
        + Copy
        + Drop
        + Send
        + Sync
        + 'static,
>(rt: R, alloc: Global, port: u16, peer_port: u16) -> Option<Middle> {
    let here = (Ipv4Addr::LOCALHOST, peer_port.wrapping_add(1));
    let listener = TcpListener::bind(&rt, here).ok()?;
    let mut head = start(rt, alloc, SERVERS, 0, port, peer_port)?;
    let mut tail = start(rt, alloc, SERVERS, 2, port, peer_port)?;
    let played = thread::spawn(&rt, move || play(&rt, &listener, peer_port)).ok()?;
    if says(&mut head, b"ready\n") && says(&mut tail, b"ready\n") {
        played.join(&rt)
    } else {
        drop(played);
        None
    }
}

// Accepts both others, and is accepted by them.
fn play<R: Net<Listener = TcpListener, Stream = TcpStream>>(
    rt: &R,
    listener: &TcpListener,
    peer_port: u16,
) -> Option<Middle> {
    let inlets = (met(listener)?, met(listener)?);
    let outlets = (
        linked(rt, peer_port, GREETING)?,
        linked(rt, peer_port.wrapping_add(2), GREETING)?,
    );
    Some(Middle { inlets, outlets })
}
