//! The connection to a server: orders on the way there, and on the way back what the server answers.
ghost use Rattle.std.specs.Prelude.{◌≡◌};

use ends::TrackedWriter;
use leases::Order;
use master_decisions::{Incoming, frame_of, incoming_of};
use peers::{LinkFault, put_frame};
use std::alloc::{AllocError, Global};
use std::io::{ErrorKind, Read};
use std::net::TcpStream;
use std::time::Duration;
use wire::{Frame, Frames, WireFault};

/// For this many milliseconds it waits for a frame before it looks for an order again. An order goes out later than it
/// could by as much.
const TICK: u64 = 10;

/// How many bytes it reads at once, at most.
const PIECE: usize = 256;

/// For how many seconds a write may wait for the server to read: more than any notice is waited for.
const WRITE: u64 = 5;

/// A connection that the server has accepted.
#[derive(Drop)]
pub(crate) struct Conversation {
    alloc: Global,
    stream: TcpStream,
    // What came and is no whole frame yet.
    frames: Frames,
    // Whether the start of the server that has accepted it is the one that is known.
    is_known: bool,
}

impl Conversation {
    /// On this stream, which the start of the server has accepted that is known, or another one.
    pub(crate) fn new(alloc: Global, stream: TcpStream, is_known: bool) -> Conversation {
        let _ = stream.set_write_timeout(Some(Duration::from_secs(WRITE)));
        Conversation {
            alloc,
            stream,
            frames: Frames::new(alloc),
            is_known,
        }
    }

    /// Whether the start of the server is the one that is known.
    pub(crate) fn is_known(&self) -> bool
        ensures { result ≡ self.now.is_known }
    {
        self.is_known
    }

    /// Writes an order. It tells whether it was written: no chain has a server beyond 15.
    pub(crate) fn put(&self, order: Order) -> Result<bool, AllocError> {
        let frame = frame_of(order);
        let is_put = self.put_if_in_range(&frame);
        drop(frame);
        is_put
    }

    // Writes a frame, if it is in its range.
    fn put_if_in_range(&self, frame: &Frame) -> Result<bool, AllocError> {
        if !frame.is_in_range() {
            return Ok(false);
        }
        let mut sink = TrackedWriter::new(&self.stream);
        let put = put_frame(self.alloc, &mut sink, frame);
        drop(sink);
        match put {
            Ok(()) => Ok(true),
            Err(LinkFault::Memory) => Err(AllocError),
            Err(_) => Ok(false),
        }
    }

    /// Reads what is there, or comes within a moment. It tells whether the connection stands.
    pub(crate) fn read(&mut self) -> Result<bool, AllocError> {
        let tick = Duration::from_millis(TICK);
        if self.stream.set_read_timeout(Some(tick)).is_err() {
            return Ok(false);
        }
        let mut piece = [0u8; PIECE];
        let mut source = &self.stream;
        match source.read(piece.as_mut_slice()) {
            Ok(0) => Ok(false),
            Ok(count) => match piece.get(..count) {
                Some(bytes) => fed(&mut self.frames, bytes),
                None => Ok(false),
            },
            Err(fault) => Ok(matches!(
                fault.kind(),
                ErrorKind::WouldBlock | ErrorKind::TimedOut | ErrorKind::Interrupted
            )),
        }
    }

    /// The next frame of those that were read.
    pub(crate) fn next(&mut self) -> Result<Incoming, AllocError> {
        match self.frames.next() {
            Ok(Some(frame)) => {
                let incoming = incoming_of(&frame);
                drop(frame);
                Ok(incoming)
            }
            Ok(None) => Ok(Incoming::Nothing),
            Err(WireFault::Memory) => Err(AllocError),
            Err(_) => Ok(Incoming::End),
        }
    }
}

// Takes bytes that were read. It tells whether more may come.
fn fed(frames: &mut Frames, bytes: &[u8]) -> Result<bool, AllocError> {
    match frames.feed(bytes) {
        Ok(()) => Ok(true),
        Err(WireFault::Memory) => Err(AllocError),
        Err(_) => Ok(false),
    }
}
