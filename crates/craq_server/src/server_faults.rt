//! Why one server of a chain ends.
ghost use Rattle.std.specs.Prelude.{◌≡◌, ◌⊎◌, ◌↔◌};

use crate::link_lines::words_of;
use command_line::{FAILED, GONE, MEMORY};
use craq_process::OpenFault;
use craq_settings::{ServerSettings, port_of};
use io_threads::FrontEndFault;
use lines::{LineSender, LineSink, text};
use sockets::ListenFault;
use std::alloc::{AllocError, AllocFailed};
use std::sync::Wait;
use wire::Reason;

/// When a server or a link was lost, if its chain doesn't come to stand.
const TOO_EARLY: &str = "before all servers were connected";

/// What to do if a chain doesn't come to stand.
const ANEW: &str = "end all servers of the chain, and start them anew";

/// Why a server ends.
#[derive(Clone, Copy)]
pub(crate) enum ServerFault {
    /// No memory was left, or no thread.
    Memory,
    /// It can't listen on this port, for this reason.
    Port(u16, ListenFault),
    /// This server can't be reached.
    Away(u8),
    /// The host of this server has no address.
    NoHost(u8),
    /// This server has refused this one.
    Refused(u8, Reason),
    /// This server hasn't connected to this one in time.
    NotHere(u8),
    /// The link from this server doesn't stand any more, before all were ready; in words that go on from "the link".
    Lost(u8, &'static str),
    /// This server was started again before all were ready.
    Restarted(u8),
    /// This server itself was called gone.
    Gone,
    /// The numbers are none of a chain, or the output can't be written.
    Run,
}

impl ServerFault {
    /// The exit status: 3 if memory is out, 4 if the server was called gone, else 1.
    pub(crate) fn status(self) -> u8
        ensures some { (result ≡ FAILED) ⊎ ((result ≡ MEMORY) ⊎ (result ≡ GONE)) }
        ensures memory { (result ≡ MEMORY) ↔ (self ≡ ServerFault.Memory) }
        ensures gone { (result ≡ GONE) ↔ (self ≡ ServerFault.Gone) }
    {
        match self {
            ServerFault::Memory => MEMORY,
            ServerFault::Gone => GONE,
            _ => FAILED,
        }
    }
}

impl From<AllocError> for ServerFault {
    fn from(_e: AllocError) -> ServerFault {
        ServerFault::Memory
    }
}

impl<T: Drop> From<AllocFailed<T>> for ServerFault {
    fn from(_e: AllocFailed<T>) -> ServerFault {
        ServerFault::Memory
    }
}

impl From<FrontEndFault> for ServerFault {
    fn from(e: FrontEndFault) -> ServerFault {
        match e {
            FrontEndFault::Memory => ServerFault::Memory,
            FrontEndFault::Numbers => ServerFault::Run,
        }
    }
}

impl From<OpenFault> for ServerFault {
    fn from(e: OpenFault) -> ServerFault {
        match e {
            OpenFault::Memory => ServerFault::Memory,
            OpenFault::Run => ServerFault::Run,
        }
    }
}

/// Tells in one line why the server ends.
pub(crate) fn tell<R: Wait + Drop>(
    rt: R,
    fault: ServerFault,
    settings: &ServerSettings,
    line_sender: &LineSender,
) {
    let id = settings.numbers.id;
    let mut line_sink = LineSink::new(rt, line_sender);
    let mut line = text(&mut line_sink);
    let _ = match fault {
        ServerFault::Memory => writeln!(line, "craq: out of memory"),
        ServerFault::Port(port, fault) => {
            let (address, words) = (settings.address.as_str(), fault.words());
            writeln!(line, "craq: cannot listen on {address} port {port}{words}")
        }
        ServerFault::Away(j) => {
            let (host, port) = place_of(settings, j);
            writeln!(
                line,
                "craq: cannot connect to server {j} at {host} port {port}"
            )
        }
        ServerFault::NoHost(j) => {
            let (host, _) = place_of(settings, j);
            writeln!(line, "craq: unknown host {host} of server {j}")
        }
        ServerFault::Refused(j, reason) => {
            let words = words_of(reason);
            writeln!(line, "craq: server {id} was refused by server {j}: {words}")
        }
        ServerFault::NotHere(j) => writeln!(
            line,
            "craq: server {id}: server {j} hasn't connected to it within 30 seconds; {ANEW}"
        ),
        ServerFault::Lost(j, reason) => writeln!(
            line,
            "craq: server {id}: the link from server {j} {reason} {TOO_EARLY}; {ANEW}"
        ),
        ServerFault::Restarted(j) => writeln!(
            line,
            "craq: server {id}: server {j} was started again {TOO_EARLY}; {ANEW}"
        ),
        ServerFault::Gone => writeln!(
            line,
            "craq: server {id} was called gone, and stops; don't start it again beside the others"
        ),
        ServerFault::Run => writeln!(line, "craq: run failed"),
    };
}

// The host and the port at which server j listens for its peers.
fn place_of(settings: &ServerSettings, j: u8) -> (&str, u16) {
    let port = port_of(settings.numbers.peer_port, j);
    match settings.hosts.get(usize::from(j)) {
        Some(host) => (host.as_str(), port),
        None => ("", port),
    }
}
