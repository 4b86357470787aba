//! Clients of a chain, and ports for its servers.

use std::io;
use std::io::{ErrorKind, Read, Write};
use std::net::{Ipv4Addr, Net, TcpListener, TcpStream};
use std::time::Duration;

// How long a client waits for the next byte before it gives up. Slowness is no fault, a reply that never comes is.
const LIMIT: u64 = 50;

/// A listener at a port of the system's choice.
pub fn listen<R: Net<Listener = TcpListener, Stream = TcpStream>>(
    rt: &R,
) -> Option<(u16, TcpListener)> {
    let listener = TcpListener::bind(rt, (Ipv4Addr::LOCALHOST, 0)).ok()?;
    let port = listener.local_addr().ok()?.port();
    Some((port, listener))
}

/// A port below those that the system gives out. Which one differs from call to call, so that tests that run at the
/// same time seldom meet.
pub fn some_port<R: Net<Listener = TcpListener, Stream = TcpStream>>(rt: &R) -> Option<u16> {
    let (given, listener) = listen(rt)?;
    drop(listener);
    Some((given % 700).wrapping_mul(16).wrapping_add(12_000))
}

/// A connection to the server at this port.
pub fn client<R: Net<Listener = TcpListener, Stream = TcpStream>>(
    rt: &R,
    port: u16,
) -> io::Result<TcpStream> {
    let stream = TcpStream::connect(rt, (Ipv4Addr::LOCALHOST, port))?;
    stream.set_nodelay(true)?;
    stream.set_read_timeout(Some(Duration::from_secs(LIMIT)))?;
    Ok(stream)
}

/// Whether these bytes come next.
pub fn says<S: Read>(source: &mut S, text: &[u8]) -> bool {
    for wanted in text {
        let mut byte = [0u8];
        match source.read(byte.as_mut_slice()) {
            Ok(1) if byte[0] == *wanted => {}
            _ => return false,
        }
    }
    true
}

/// Whether the request is taken, and these bytes come next.
pub fn answers(stream: &mut TcpStream, request: &[u8], reply: &[u8]) -> bool {
    stream.write_all(request).is_ok() && says(stream, reply)
}

/// Whether a line comes next.
pub fn has_line(stream: &mut TcpStream) -> bool {
    for _ in 0..16 {
        let mut byte = [0u8];
        match stream.read(byte.as_mut_slice()) {
            Ok(1) if byte[0] == b'\n' => return true,
            Ok(1) => {}
            _ => return false,
        }
    }
    false
}

/// Whether the connection is closed without a further byte.
pub fn is_closed(stream: &mut TcpStream) -> bool {
    match stream.read([0u8].as_mut_slice()) {
        Ok(n) => n == 0,
        Err(e) => e.kind() == ErrorKind::ConnectionReset,
    }
}
