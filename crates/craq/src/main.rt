//! The program `craq`: it reads its arguments, and does what they ask for.
#![tactic(auto)]

use command_line::{Command, Serve, UsageFault};
use commands::{read_arguments, run, tell_file};
use craq_cluster::cluster;
use craq_process::machine_memory;
use craq_server::{refuse_overlap, server};
use craq_settings::{MasterSettings, ServerSettings};
use ends::{Sink, Source, TrackedReader, TrackedWriter};
use lines::{LineSender, LineSink, open_lines};
use masters::{master, watch};
use std::alloc::{AllocError, Global};
use std::io::Stdin;
use std::net::{Net, TcpListener, TcpStream};
use std::process::ExitCode;
use std::rt::Files;
use std::sync::Wait;
use std::thread::Threads;
use std::time::Clock;

fn main(rt: HostRuntime) -> ExitCode {
    let mut output = TrackedWriter::new(rt.stdout());
    let mut errors = TrackedWriter::new(rt.stderr());
    let status = match read_arguments(&rt) {
        Ok(Command::Print(print)) => run(&rt, Ok(print), &mut output, &mut errors),
        Ok(Command::Tell { telling, file }) => {
            tell_file(&rt, telling, file, &mut output, &mut errors)
        }
        Ok(Command::Serve(command)) => match open_lines(rt, rt.alloc(), rt.stderr()) {
            Ok(line_sender) => {
                let mut input = TrackedReader::new(rt.reader());
                let mut lines = LineSink::new(rt, &line_sender);
                let status = match serve(
                    rt,
                    rt.alloc(),
                    command,
                    rt.stdin(),
                    &mut input,
                    &mut output,
                    &mut lines,
                    &line_sender,
                ) {
                    Ok(status) => status,
                    Err(fault) => run(&rt, Err(fault), &mut output, &mut lines),
                };
                line_sender.settle(&rt);
                status
            }
            Err(AllocError) => run(&rt, Err(UsageFault::Memory), &mut output, &mut errors),
        },
        Err(fault) => run(&rt, Err(fault), &mut output, &mut errors),
    };
    ExitCode::from(status)
}

// Serves until it ends, and answers the exit status. A thread of its own writes the lines that it tells. Refused if the
// words don't fit one another.
fn serve<
    R: Wait
        + Threads
        + Clock
        + Files
        + Net<Listener = TcpListener, Stream = TcpStream>
        + Copy
        + Drop
        + Send
        + Sync
        + 'static,
    S: Source,
    W: Sink,
    X: Sink,
>(
    rt: R,
    alloc: Global,
    command: Serve,
    stdin: Stdin,
    input: &mut S,
    output: &mut W,
    lines: &mut X,
    line_sender: &LineSender,
) -> Result<u8, UsageFault> {
    match command {
        Serve::Cluster(numbers) => {
            let machine = machine_memory(&rt);
            Ok(cluster(rt, alloc, numbers, machine, input, output, line_sender))
        }
        Serve::Server(numbers, hosts) => {
            let settings = ServerSettings::new(alloc, numbers, hosts)?;
            refuse_overlap(alloc, &settings)?;
            let machine = machine_memory(&rt);
            Ok(server(rt, alloc, &settings, machine, output, line_sender))
        }
        Serve::Master(numbers, hosts) => {
            let settings = MasterSettings::new(alloc, numbers, hosts)?;
            if settings.numbers.watch {
                return Ok(watch(rt, alloc, &settings, stdin, output, lines));
            }
            Ok(master(&rt, alloc, &settings, input, output, lines))
        }
    }
}
