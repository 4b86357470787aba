//! What comes from a server on a connection that it has accepted.
ghost use Rattle.std.specs.Prelude.{◌≡◌};
ghost use Rattle.master_decisions.specs.Incoming.{incoming_of};

use wire::{Alive, Frame};

/// What came next.
#[derive(Clone, Copy)]
pub enum Incoming {
    /// The server tells how it is.
    Alive(Alive),
    /// It has noted that this server is gone, or was silent.
    Noted(u8),
    /// Its links to these servers stand still: server i is the bit of value 2^i.
    Stalled(u16),
    /// Nothing whole.
    Nothing,
    /// What belongs to no such connection; or nothing, and nothing more will come.
    End,
}

/// What a frame says.
pub fn incoming_of(frame: &Frame) -> Incoming
    ensures { result ≡ incoming_of frame.now }
{
    match frame {
        Frame::Alive(alive) => Incoming::Alive(*alive),
        Frame::Noted(id) => Incoming::Noted(*id),
        Frame::Stalled(servers) => Incoming::Stalled(*servers),
        _ => Incoming::End,
    }
}
