//! The socket of a link, which is written only while the server may put anything out, and never waits.
ghost use Rattle.std.specs.Prelude.{◌≡◌, ◌≤◌, IfSome, [], length};

use ends::Passed;
use link_streams::LinkSink;
use mio::net::TcpStream;
use server_guards::{Mark, OutputPermit, Permit};
use std::alloc::Global;
use std::io::{ErrorKind, Write};
use std::sync::Arc;
use std::time::Clock;

/// Where the frames for another server go over one connection.
#[derive(Drop)]
pub(crate) struct LinkSocket<R> {
    rt: R,
    stream: Arc<TcpStream, Global>,
    output_permit: OutputPermit,
    // Set as soon as the other server is called gone.
    gone: Mark,
    // The bytes that it took, for contracts.
    taken: Passed,
}

impl<R: Clock + Drop> LinkSocket<R> {
    /// This connection, of a server with this output permit, to one whose mark is set when it is called gone.
    pub(crate) fn new(
        rt: R,
        stream: Arc<TcpStream, Global>,
        output_permit: OutputPermit,
        gone: Mark,
    ) -> LinkSocket<R>
        ensures output_permit { result.output_permit ≡ output_permit }
        ensures fresh { result.taken ≡ [] }
    {
        LinkSocket {
            rt,
            stream,
            output_permit,
            gone,
            taken: Passed::new(),
        }
    }
}

impl<R: Clock + Drop> LinkSink for LinkSocket<R> {
    ghost taken = { λ s. s.taken };

    fn take_some(&mut self, bytes: &[u8]) -> Option<usize> {
        if self.gone.is_set() {
            return None;
        }
        let Some(permit) = self.output_permit.lets(&self.rt, bytes) else {
            return Some(0);
        };
        let taken = put_out(&self.stream, bytes, permit);
        if let Some(n) = taken {
            self.taken.add(&bytes[..n]);
        }
        taken
    }
}

// Writes a beginning of what this permit was given for.
fn put_out(stream: &TcpStream, bytes: &[u8], permit: Permit) -> Option<usize>
    requires permitted { permit ≡ bytes.now }
    ensures bound { IfSome result (λ n. n ≤ length bytes.now) }
{
    drop(permit);
    let mut stream = stream;
    match stream.write(bytes) {
        Ok(0) => None,
        Ok(n) => Some(n),
        Err(fault) if fault.kind() == ErrorKind::WouldBlock => Some(0),
        Err(_) => None,
    }
}
