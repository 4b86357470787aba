//! Connections to the peer port that haven't greeted: how long they may take, and how many there are.

use std::alloc::{AllocError, Global};
use std::net::{Shutdown, TcpStream};
use std::sync::{Arc, Mutex, Wait};
use std::time::Clock;
use wire::{Frame, Introduction};
use wire_connections::{Deadline, ReceivedFrame, next_frame};

/// How many there are at a time. If one more comes, the oldest is closed.
const MOST: usize = 64;

/// How many seconds one may take for its greeting.
const PATIENCE: u64 = 5;

/// The most bytes of a Hello, and of an introduction.
const HELLO: usize = 3;

const INTRODUCTION: usize = 262;

/// How a connection begins.
#[derive(Drop)]
pub(crate) enum Greeting {
    /// Who greets, and how it introduces itself.
    Whole(u8, Introduction),
    /// Who greets, without an introduction, or not in time.
    Short(u8),
    /// Something older speaks there.
    Old,
    /// It has no Hello, or not in time.
    Nothing,
}

/// How a connection begins. It reads no more than a greeting, and waits at most five seconds for it.
pub(crate) fn read_greeting<R: Clock>(rt: &R, alloc: Global, stream: &TcpStream) -> Greeting {
    let Some(deadline) = Deadline::after(rt, PATIENCE) else {
        return Greeting::Nothing;
    };
    match read_hello(rt, alloc, stream, deadline) {
        Opening::Hello(id) => read_introduction(rt, alloc, stream, deadline, id),
        Opening::Old => Greeting::Old,
        Opening::Nothing => Greeting::Nothing,
    }
}

// What follows the Hello of who greets with this id.
fn read_introduction<R: Clock>(
    rt: &R,
    alloc: Global,
    stream: &TcpStream,
    deadline: Deadline,
    id: u8,
) -> Greeting {
    match next_frame(rt, alloc, stream, deadline, INTRODUCTION) {
        Ok(ReceivedFrame::Frame(frame)) => greeting_of(id, frame),
        Ok(ReceivedFrame::Old | ReceivedFrame::Nothing) => Greeting::Short(id),
        Err(AllocError) => Greeting::Nothing,
    }
}

// What stands first.
#[derive(Clone, Copy)]
enum Opening {
    // A Hello with this id.
    Hello(u8),
    // A byte of an older format.
    Old,
    // Anything else.
    Nothing,
}

fn read_hello<R: Clock>(rt: &R, alloc: Global, stream: &TcpStream, deadline: Deadline) -> Opening {
    match next_frame(rt, alloc, stream, deadline, HELLO) {
        Ok(ReceivedFrame::Frame(frame)) => {
            let opening = opening_of(&frame);
            drop(frame);
            opening
        }
        Ok(ReceivedFrame::Old) => Opening::Old,
        Ok(ReceivedFrame::Nothing) => Opening::Nothing,
        Err(AllocError) => Opening::Nothing,
    }
}

fn opening_of(frame: &Frame) -> Opening {
    match frame {
        Frame::Hello(id) => Opening::Hello(*id),
        _ => Opening::Nothing,
    }
}

// The greeting of who has said Hello with this id, and then this.
fn greeting_of(id: u8, frame: Frame) -> Greeting {
    match frame {
        Frame::Introduction(opener) => Greeting::Whole(id, opener),
        other => {
            drop(other);
            Greeting::Short(id)
        }
    }
}

/// Connections of one kind: those that haven't greeted, or those of masters.
#[derive(Drop)]
pub(crate) struct PendingConnections {
    // The oldest first.
    waiting: Mutex<Vec<UngreetedConnection>>,
}

#[derive(Drop)]
struct UngreetedConnection {
    number: u64,
    stream: Arc<TcpStream, Global>,
}

impl PendingConnections {
    /// None yet.
    pub(crate) fn new(alloc: Global) -> PendingConnections {
        PendingConnections {
            waiting: Mutex::new(Vec::new(alloc)),
        }
    }

    /// Takes one in, which has a number of its own. If there are 64 the oldest is closed.
    pub(crate) fn admit<R: Wait>(
        &self,
        rt: &R,
        number: u64,
        stream: &Arc<TcpStream, Global>,
    ) -> Result<(), AllocError> {
        let stream = Arc::try_clone(stream)?;
        let mut guard = self.waiting.lock(rt);
        let waiting = &mut *guard;
        if waiting.len() >= MOST && !waiting.is_empty() {
            let oldest = waiting.remove(0);
            let _ = oldest.stream.shutdown(Shutdown::Both);
            drop(oldest);
        }
        match waiting.push(UngreetedConnection { number, stream }) {
            Ok(()) => Ok(()),
            Err(failed) => {
                drop(failed);
                Err(AllocError)
            }
        }
    }

    /// Lets one go, since it has greeted or ends. It tells whether it was there still: it isn't if it was closed.
    pub(crate) fn release<R: Wait>(&self, rt: &R, number: u64) -> bool {
        let mut guard = self.waiting.lock(rt);
        let waiting = &mut *guard;
        let before = waiting.len();
        waiting.retain(|pending_connection| pending_connection.number != number);
        waiting.len() < before
    }
}
