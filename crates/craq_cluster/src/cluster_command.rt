//! The command `cluster`: runs a chain, and fails the servers that its input names.
ghost use Rattle.std.specs.Prelude.{◌≡◌, ◌⊎◌};

use crate::banners::tell_cluster;
use crate::cluster_faults::ClusterFault;
use crate::clusters::Cluster;
use crate::controls::StopFault;
use command_line::{ClusterNumbers, DONE, FAILED, MEMORY};
use craq_process::{Concurrency, warn_of_files};
use ends::{Sink, Source, write_all};
use io_threads::SeatDeal;
use lines::{Answers, LineSender, LineSink, empty_line, next_line, server_named};
use std::alloc::Global;
use std::net::{Net, TcpListener, TcpStream};
use std::sync::Wait;
use std::thread::Threads;
use std::time::Clock;

/// Who goes on if standard output can't be written.
const WHO: &str = "the cluster";

/// Runs a chain of servers that serve clients over TCP, until the input and the threads that serve have ended. It says
/// `ready` when all listen. For each line `fail J` of the input server J is failed, and `gone J` printed, or
/// `not gone J` if it can't be stopped; any other line prints `bad line`. Of a server that is refused memory the others
/// are told at once, and so is the user, by a line. It answers the exit status: 0, or, after a line, 1 if a port is
/// taken or `ready` can't be written, or 3 if memory is out at the start. An answer that can't be written is told once.
/// All lines go to `line_sender`, and nothing but the start waits for one, for half a second at most. `machine` is how
/// many MiB of memory the machine has, which the line at the start tells.
pub fn cluster<
    R: Wait
        + Threads
        + Clock
        + Net<Listener = TcpListener, Stream = TcpStream>
        + Copy
        + Drop
        + Send
        + 'static,
    S: Source,
    W: Sink,
>(
    rt: R,
    alloc: Global,
    numbers: ClusterNumbers,
    machine: Option<u64>,
    input: &mut S,
    output: &mut W,
    line_sender: &LineSender,
) -> u8
    ensures { (result ≡ DONE) ⊎ ((result ≡ FAILED) ⊎ (result ≡ MEMORY)) }
{
    match run_commands(rt, alloc, numbers, machine, input, output, line_sender) {
        Ok(()) => DONE,
        Err(fault) => {
            fault.tell(&mut LineSink::new(rt, line_sender));
            fault.status()
        }
    }
}

// Runs a chain, and fails the servers that the input names.
fn run_commands<
    R: Wait
        + Threads
        + Clock
        + Net<Listener = TcpListener, Stream = TcpStream>
        + Copy
        + Drop
        + Send
        + 'static,
    S: Source,
    W: Sink,
>(
    rt: R,
    alloc: Global,
    numbers: ClusterNumbers,
    machine: Option<u64>,
    input: &mut S,
    output: &mut W,
    line_sender: &LineSender,
) -> Result<(), ClusterFault> {
    let mut line = empty_line(alloc)?;
    let mut answers = Answers::new(alloc)?;
    let concurrency = Concurrency::new(&rt, numbers.threads, numbers.seats, SeatDeal::InTurn);
    let cluster = Cluster::open(rt, alloc, numbers, concurrency, line_sender)?;
    let mut errors = LineSink::new(rt, line_sender);
    tell_cluster(numbers, concurrency, machine, &mut errors);
    warn_of_files(
        numbers.servers,
        numbers.connections,
        concurrency,
        &mut errors,
    );
    line_sender.settle(&rt);
    match fail_named(
        &rt,
        numbers,
        &cluster,
        &mut line,
        &mut answers,
        input,
        output,
        &mut errors,
    ) {
        Ok(()) => {
            cluster.end(&rt);
            Ok(())
        }
        Err(fault) => {
            drop(cluster);
            Err(fault)
        }
    }
}

// Says `ready`, and fails the servers that the input names, until it ends.
fn fail_named<R: Wait + Clock + Copy + Drop + Send + 'static, S: Source, W: Sink, X: Sink>(
    rt: &R,
    numbers: ClusterNumbers,
    cluster: &Cluster<R>,
    line: &mut Vec<u8>,
    answers: &mut Answers,
    input: &mut S,
    output: &mut W,
    errors: &mut X,
) -> Result<(), ClusterFault> {
    if write_all(output, b"ready\n").is_err() {
        return Err(ClusterFault::Run);
    }
    for _ in rt.forever() {
        if !next_line(input, line)? {
            return Ok(());
        }
        match server_named(line.as_slice(), b"fail", numbers.servers) {
            Some(j) => match cluster.fail(rt, j) {
                Ok(()) => answers.gone(output, errors, WHO, j),
                Err(StopFault) => answers.not_gone(output, errors, WHO, j),
            },
            None => answers.bad_line(output, errors, WHO, "fail", numbers.servers),
        }
    }
    unreachable!()
}
