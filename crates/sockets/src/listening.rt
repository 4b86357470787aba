//! Why nobody can listen on a port.
ghost use Rattle.std.specs.Prelude.{◌≡◌, Some};

use std::io::Error;
use std::net::{Net, TcpListener, TcpStream, ToSocketAddrs};

/// What the system answers if another program listens there, if the program has no right to listen there, and if no
/// such address is this machine's.
const TAKEN: u32 = 98;

const NO_RIGHT: u32 = 13;

const NO_ADDRESS: u32 = 99;

/// Why a program can't listen.
#[derive(Clone, Copy, Debug, PartialEq, Eq)]
pub enum ListenFault {
    /// Another program listens on the port.
    Taken,
    /// The program may not listen on this port.
    NoRight,
    /// The address isn't one of this machine.
    NoAddress,
    /// The host has no address.
    NoHost,
    /// For another reason.
    Other,
}

impl ListenFault {
    /// The fault by the number that the system answered, if it did.
    pub(crate) fn of_number(number: Option<u32>) -> ListenFault
        ensures taken { number ≡ Some 98 → result ≡ ListenFault.Taken }
        ensures no_right { number ≡ Some 13 → result ≡ ListenFault.NoRight }
        ensures no_address { number ≡ Some 99 → result ≡ ListenFault.NoAddress }
    {
        match number {
            Some(TAKEN) => ListenFault::Taken,
            Some(NO_RIGHT) => ListenFault::NoRight,
            Some(NO_ADDRESS) => ListenFault::NoAddress,
            _ => ListenFault::Other,
        }
    }

    /// The words that tell it. They go on from "cannot listen on A port P".
    pub fn words(self) -> &'static str {
        match self {
            ListenFault::Taken => ": the port is taken",
            ListenFault::NoRight => ": no right to it",
            ListenFault::NoAddress => ": no such address here",
            ListenFault::NoHost => ": unknown host",
            ListenFault::Other => "",
        }
    }
}

/// Listens on a port of a host.
pub fn listen<R: Net<Listener = TcpListener, Stream = TcpStream>>(
    rt: &R,
    host: &str,
    port: u16,
) -> Result<TcpListener, ListenFault> {
    match TcpListener::bind(rt, (host, port)) {
        Ok(listener) => Ok(listener),
        Err(fault) => Err(fault_of(rt, host, port, &fault)),
    }
}

// Why one can't listen there, which the system has refused.
fn fault_of<R: Net<Listener = TcpListener, Stream = TcpStream>>(
    rt: &R,
    host: &str,
    port: u16,
    fault: &Error,
) -> ListenFault {
    match fault.raw_os_error() {
        Some(number) => ListenFault::of_number(u32::try_from(number).ok()),
        None if (host, port).to_socket_addrs(rt).is_err() => ListenFault::NoHost,
        None => ListenFault::Other,
    }
}
