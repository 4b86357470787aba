//! Servers that the test starts, and connections to and from them.

use command_line::{Hosts, MEMORY, ServerNumbers};
use craq_server::server;
use craq_settings::ServerSettings;
use ends::TrackedWriter;
use leases::Term;
use lines::open_lines;
use std::alloc::{AllocError, Global};
use std::io::{PipeReader, Read, Write, pipe};
use std::net::{Net, TcpListener, TcpStream};
use std::rt::Files;
use std::sync::Wait;
use std::thread;
use std::thread::Threads;
use std::time::Clock;
use tests_support::{client, says};

// How a server accepts a link, of which it has nothing.
const ACCEPTED: &[u8] =
    b"\x02\x08\x00\x00\x00\x00\x00\x00\x00\x01\x00\x00\x02\x0f\x00\x00\x00\x00\x00\x00\x00\x00";

// This machine alone.
fn here(alloc: Global) -> Result<Hosts, AllocError> {
    let address = String::from_str(alloc, "127.0.0.1")?;
    let chain = String::from_str(alloc, "craq")?;
    Ok(Hosts {
        address,
        peers: None,
        chain,
    })
}

/// The next connection, whose greeting is accepted.
pub fn met(listener: &TcpListener) -> Option<TcpStream> {
    let (mut stream, _) = listener.accept().ok()?;
    let mut greeting = [0u8; 19];
    stream.read_exact(greeting.as_mut_slice()).ok()?;
    stream.write_all(ACCEPTED).ok()?;
    Some(stream)
}

/// A connection to a server that accepts this greeting.
pub fn linked<R: Net<Listener = TcpListener, Stream = TcpStream>>(
    rt: &R,
    port: u16,
    greeting: &[u8],
) -> Option<TcpStream> {
    let mut stream = client(rt, port).ok()?;
    stream.write_all(greeting).ok()?;
    says(&mut stream, b"\x02\x08").then_some(stream)
}

/// Starts a server on a thread of its own, and gives the other end of its output. Its lease has this term.
pub fn start<
    R: Wait
        + Threads
        + Clock
        + Eprint
        + Files
        + Net<Listener = TcpListener, Stream = TcpStream>
        + Copy
        + Drop
        + Send
        + Sync
        + 'static,
>(
    rt: R,
    alloc: Global,
    servers: u8,
    id: u8,
    port: u16,
    peer_port: u16,
    term: Option<Term>,
) -> Option<PipeReader> {
    let numbers = ServerNumbers {
        id,
        servers,
        port,
        peer_port,
        seats: 1,
        threads: Some(1),
        connections: 16,
        memory: None,
        lease: None,
        link_timeout: 1_000,
        quiet: true,
    };
    let (output, ours) = pipe(&rt).ok()?;
    let mut settings = ServerSettings::new(alloc, numbers, here(alloc).ok()?).ok()?;
    settings.term = term;
    let started = thread::spawn(&rt, move || {
        let mut output = TrackedWriter::new(ours);
        match open_lines(rt, alloc, Vec::new(alloc)) {
            Ok(line_sender) => server(rt, alloc, &settings, None, &mut output, &line_sender),
            Err(AllocError) => MEMORY,
        }
    });
    drop(started.ok()?);
    Some(output)
}
