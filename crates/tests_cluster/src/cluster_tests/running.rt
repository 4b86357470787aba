//! A program that runs a chain, with the other ends of its input and its output.

use command_line::{ClusterNumbers, MEMORY};
use craq_cluster::cluster;
use ends::{TrackedReader, TrackedWriter};
use lines::open_lines;
use std::alloc::Global;
use std::io::{Error, ErrorKind, PipeReader, PipeWriter, pipe};
use std::net::{Net, TcpListener, TcpStream};
use std::rt::Files;
use std::sync::Wait;
use std::thread::{JoinHandle, Threads};
use std::time::Clock;
use std::{io, thread};
use tests_support::{says, some_port};

/// A program that runs a chain in a thread of its own, with the other ends of its input and its output.
#[derive(Drop)]
pub struct Running {
    pub input: PipeWriter,
    pub output: PipeReader,
    program: JoinHandle<u8>,
}

/// A chain of `servers` servers that is ready, and the port of server 0. If a port is taken others are tried.
pub fn ready<
    R: Wait
        + Threads
        + Clock
        + Eprint
        + Files
        + Net<Listener = TcpListener, Stream = TcpStream>
        + Copy
        + Drop
        + Send
        + 'static,
>(rt: R, alloc: Global, servers: u8, seats: u8) -> Option<(Running, u16)> {
    for _ in 0..50 {
        let port = some_port(&rt)?;
        let numbers = ClusterNumbers {
            servers,
            port,
            seats,
            threads: Some(2),
            connections: 16,
            serves: 1,
            memory: None,
            quiet: true,
        };
        let mut running = start(rt, alloc, numbers).ok()?;
        if says(&mut running.output, b"ready\n") {
            return Some((running, port));
        }
        status(&rt, running);
    }
    None
}

fn start<
    R: Wait
        + Threads
        + Clock
        + Eprint
        + Files
        + Net<Listener = TcpListener, Stream = TcpStream>
        + Copy
        + Drop
        + Send
        + 'static,
>(rt: R, alloc: Global, numbers: ClusterNumbers) -> io::Result<Running> {
    let (theirs, input) = pipe(&rt)?;
    let (output, ours) = pipe(&rt)?;
    let started = thread::spawn(&rt, move || program(rt, alloc, numbers, theirs, ours));
    match started.ok() {
        Some(program) => Ok(Running {
            input,
            output,
            program,
        }),
        None => Err(Error::from(ErrorKind::OutOfMemory)),
    }
}

fn program<
    R: Wait
        + Threads
        + Clock
        + Eprint
        + Net<Listener = TcpListener, Stream = TcpStream>
        + Copy
        + Drop
        + Send
        + 'static,
>(rt: R, alloc: Global, numbers: ClusterNumbers, input: PipeReader, output: PipeWriter) -> u8 {
    let mut input = TrackedReader::new(input);
    let mut output = TrackedWriter::new(output);
    let Ok(line_sender) = open_lines(rt, alloc, Vec::new(alloc)) else {
        return MEMORY;
    };
    cluster(
        rt,
        alloc,
        numbers,
        None,
        &mut input,
        &mut output,
        &line_sender,
    )
}

/// Ends the program's input, and gives its exit status.
pub fn status<R: Threads>(rt: &R, running: Running) -> u8 {
    let Running {
        input,
        output: _,
        program,
    } = running;
    drop(input);
    program.join(rt)
}
