//! Events: what may happen next in a world.
ghost use Rattle.std.specs.Prelude.{◌≡◌};

use bytes::Bytes;
use std::alloc::AllocError;

/// What may happen next. An event that doesn't apply has no effect.
#[derive(PartialEq, Eq, Drop)]
pub enum Event {
    /// Piece(c, bytes): the bytes come to connection c.
    Piece(usize, Bytes),
    /// Begin(c): the next call of connection c begins.
    Begin(usize),
    /// Work(c): the begun call of connection c goes to its server.
    Work(usize),
    /// Deliver(i, j): the first message of the link from server i to server j comes to j.
    Deliver(usize, usize),
    /// Fail(i): server i fails.
    Fail(usize),
    /// Tell(i, j): server i is told that server j has failed.
    Tell(usize, usize),
    /// Hand(c): the reply that waits reaches connection c.
    Hand(usize),
}

impl Clone for Event {
    ghost is_clone = { λ event copy. copy ≡ event };

    fn clone(&self) -> Result<Event, AllocError> {
        match self {
            Event::Piece(c, bytes) => Ok(Event::Piece(*c, bytes.clone()?)),
            Event::Begin(c) => Ok(Event::Begin(*c)),
            Event::Work(c) => Ok(Event::Work(*c)),
            Event::Deliver(i, j) => Ok(Event::Deliver(*i, *j)),
            Event::Fail(i) => Ok(Event::Fail(*i)),
            Event::Tell(i, j) => Ok(Event::Tell(*i, *j)),
            Event::Hand(c) => Ok(Event::Hand(*c)),
        }
    }
}
