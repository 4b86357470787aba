//! Guests: those whose sockets the first serving thread reads beside those of its clients.

use mio::Registry;
use std::sync::Wait;

/// The guests of a serving thread, by places. What is read of them goes to server 0, where a turn is due then.
///
/// The thread waits for their sockets as for those of its clients. It asks whether some have come when it is woken
/// (`LoopHandles::wake_all`), and has them read between two rounds of its clients. Its clients wait meanwhile: so a
/// guest that sends without end is read only so far, and then again in the next round.
pub trait Guests {
    /// Takes in those that have come, and registers their sockets: that of place k by the token `first` and k.
    fn take_in(&mut self, registry: &Registry, first: usize);

    /// The socket of this place was found ready. It isn't told again before all was read that stands there.
    fn note_ready(&mut self, place: usize);

    /// Whether there may be more to read. Then the thread doesn't sleep.
    fn is_busy(&self) -> bool;

    /// Reads those that may have more to read, each up to some pieces. Whether something may have been brought to the
    /// server.
    fn serve<W: Wait>(&mut self, rt: &W, piece: &mut [u8]) -> bool;
}

/// No guests.
#[derive(Clone, Copy, Debug, Drop)]
pub struct NoGuests;

impl Guests for NoGuests {
    fn take_in(&mut self, _registry: &Registry, _first: usize) {}

    fn note_ready(&mut self, _place: usize) {}

    fn is_busy(&self) -> bool {
        false
    }

    fn serve<W: Wait>(&mut self, _rt: &W, _piece: &mut [u8]) -> bool {
        false
    }
}
