//! A client's stream, with the permit of its connection.

use crate::connection_permits::ConnectionPermit;
use mio::net::TcpStream;
use std::io;
use std::io::{Read, Write};

/// A stream that was accepted while there was room. It makes room for another before it closes: who sees its connection
/// end may come back at once.
#[derive(Drop)]
pub(crate) struct PermittedStream {
    // Before the stream, as it is dropped first.
    permit: ConnectionPermit,
    pub(crate) stream: TcpStream,
}

impl PermittedStream {
    /// This stream, which was let in by this permit.
    pub(crate) fn new(permit: ConnectionPermit, stream: TcpStream) -> PermittedStream {
        PermittedStream { permit, stream }
    }
}

impl Read for PermittedStream {
    fn read(&mut self, buf: &mut [u8]) -> io::Result<usize> {
        self.stream.read(buf)
    }
}

impl Write for PermittedStream {
    fn write(&mut self, buf: &[u8]) -> io::Result<usize> {
        self.stream.write(buf)
    }

    fn flush(&mut self) -> io::Result<()> {
        self.stream.flush()
    }
}
