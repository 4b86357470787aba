//! The connection of a link: it greets, and then brings the other server's confirmations.

use bytes::BytesMut;
use mio::net::TcpStream;
use std::alloc::{AllocError, Global};
use std::io::{ErrorKind, Read, Write};
use std::sync::Arc;
use wire::{Frame, Frames};

/// The most bytes of one read. What the other server says is short.
const PIECE: usize = 256;

/// The most frames of one piece: a confirmation has 10 bytes.
const FRAMES: usize = 64;

/// How often a connection is read before others have their turn.
const READS: usize = 16;

/// What has come over a connection.
#[derive(Clone, Copy, Debug, PartialEq, Eq)]
pub(crate) enum Came {
    /// Nothing yet.
    Nothing,
    /// The other server has handed on so many bytes of the link.
    Confirmed(u64),
    /// It is broken, or the other end doesn't keep the rules.
    Broken,
    /// The other server was started anew.
    OtherStart,
}

/// A connection that may greet still. Nothing here waits.
#[derive(Drop)]
pub(crate) struct LinkConnection {
    stream: Arc<TcpStream, Global>,
    frames: Frames,
    // What is still to be written of its greeting.
    greeting: BytesMut,
    is_accepted: bool,
}

impl LinkConnection {
    /// One that is accepted.
    pub(crate) fn accepted(alloc: Global, stream: Arc<TcpStream, Global>) -> LinkConnection {
        LinkConnection {
            stream,
            frames: Frames::new(alloc),
            greeting: BytesMut::new(alloc),
            is_accepted: true,
        }
    }

    /// One that is to greet so. It may not be connected yet.
    pub(crate) fn greeting(
        alloc: Global,
        stream: TcpStream,
        greeting: BytesMut,
    ) -> Result<LinkConnection, AllocError> {
        let _ = stream.set_nodelay(true);
        Ok(LinkConnection {
            stream: Arc::new(alloc, stream)?,
            frames: Frames::new(alloc),
            greeting,
            is_accepted: false,
        })
    }

    /// Its socket.
    pub(crate) fn stream(&self) -> &TcpStream {
        &self.stream
    }

    /// The same, for who writes the link.
    pub(crate) fn share(&self) -> Result<Arc<TcpStream, Global>, AllocError> {
        Ok(Arc::try_clone(&self.stream)?)
    }

    /// Goes on: writes what is left of the greeting, and takes what has come from this start of the other server. Of
    /// several confirmations the last one counts.
    pub(crate) fn go_on(&mut self, start: u64) -> Came {
        match self.greet() {
            Came::Nothing if self.greeting.is_empty() => self.read(start),
            came => came,
        }
    }

    // Writes what is left of the greeting.
    fn greet(&mut self) -> Came {
        if self.greeting.is_empty() {
            return Came::Nothing;
        }
        let mut stream = &*self.stream;
        match stream.write(self.greeting.as_slice()) {
            Ok(n) => {
                self.greeting.advance(n);
                Came::Nothing
            }
            Err(fault) if is_early(fault.kind()) => Came::Nothing,
            Err(_) => Came::Broken,
        }
    }

    // Reads as long as there is something, for a while.
    fn read(&mut self, start: u64) -> Came {
        let mut piece = [0u8; PIECE];
        let mut last = Came::Nothing;
        for _ in 0..READS {
            let mut stream = &*self.stream;
            let n = match stream.read(&mut piece) {
                Ok(0) => return Came::Broken,
                Ok(n) => n,
                Err(fault) if is_early(fault.kind()) => return last,
                Err(_) => return Came::Broken,
            };
            if self.frames.feed(&piece[..n]).is_err() {
                return Came::Broken;
            }
            match self.take_frames(start) {
                Came::Nothing => {}
                Came::Confirmed(count) => last = Came::Confirmed(count),
                came => return came,
            }
        }
        last
    }

    // Takes the frames that stand whole.
    fn take_frames(&mut self, start: u64) -> Came {
        let mut last = Came::Nothing;
        for _ in 0..FRAMES {
            match self.frames.next() {
                Ok(Some(frame)) => {
                    let came = said(&frame, self.is_accepted, start);
                    drop(frame);
                    match came {
                        Came::Nothing => self.is_accepted = true,
                        Came::Confirmed(count) => last = Came::Confirmed(count),
                        came => return came,
                    }
                }
                Ok(None) => return last,
                Err(_) => return Came::Broken,
            }
        }
        last
    }
}

// Whether a socket has nothing yet, or isn't connected yet.
fn is_early(kind: ErrorKind) -> bool {
    kind == ErrorKind::WouldBlock || kind == ErrorKind::NotConnected
}

// What a frame says, before the greeting is accepted or after it, if this start of the other server is meant.
fn said(frame: &Frame, is_accepted: bool, start: u64) -> Came {
    match frame {
        Frame::Accepted(acceptance) if !is_accepted => {
            if acceptance.start == start {
                Came::Nothing
            } else {
                Came::OtherStart
            }
        }
        Frame::Confirmed(count) if is_accepted => Came::Confirmed(*count),
        _ => Came::Broken,
    }
}
