//! The reader of one peer, who is read piece by piece by others.
ghost use Rattle.std.specs.Prelude.{◌≡◌, true, false};

use crate::receiving::{feed, hand_on_some};
use crate::{LinkFault, Taker};
use std::alloc::Global;
use std::marker::Model;
use std::sync::Wait;
use wire::{Frames, PeerEnd};

/// How far a peer's frames were handed on.
#[derive(Clone, Copy, Debug, PartialEq, Eq)]
pub enum HandedOn {
    /// All that stand whole.
    All,
    /// As many as might be: there may be more.
    Part,
    /// All before a front that is none of a frame: the peer ends so.
    End(PeerEnd),
}

/// What has come of a peer and isn't handed on. Contracts see these bytes, and whether it goes on (`Reading`).
#[derive(Drop)]
pub struct PeerReader {
    frames: Frames,
    goes_on: bool,
}

impl Model for PeerReader {
    ghost use Rattle.std.specs.Prelude.{◌≡◌, true, false};
    ghost use Rattle.peers.specs.Reading.{Reading};

    ghost Value = { Reading };

    ghost view = { λ r. record { unread = r.frames.unread; goes_on = r.goes_on } };

    ghost invariant = { λ r. r.goes_on ≡ true → r.frames.closed ≡ false };
}

impl PeerReader {
    ghost use Rattle.std.specs.Prelude.{◌≡◌, ◌+◌, ◌++◌, true, false, OnOk, OnErr, IfOk, IfErr};
    ghost use Rattle.peers.specs.Links.{HasHeard, TakesFirst, failed_takes};
    ghost use Rattle.peers.specs.Reading.{StopsAt, goes_on, unread};

    /// Of a peer of which nothing has come. It allocates nothing.
    pub fn new(alloc: Global) -> PeerReader
        ensures { result ≡ unread }
    {
        PeerReader {
            frames: Frames::new(alloc),
            goes_on: true,
        }
    }

    /// Adds a piece that was read. Nothing is handed on yet. Refused only if memory is.
    pub fn feed(&mut self, piece: &[u8]) -> Result<(), LinkFault>
        ensures fed { OnOk result (self.old.goes_on ≡ true
            → self.new ≡ record self.old { unread = self.old.unread ++ piece.now }) }
        ensures over { self.old.goes_on ≡ false → self.new ≡ self.old }
        ensures refused { OnErr result (self.new ≡ self.old) }
        ensures memory { IfErr result (λ fault. fault ≡ LinkFault.Memory) }
    {
        if !self.goes_on {
            return Ok(());
        }
        feed(&mut self.frames, piece)
    }

    /// Hands on the frames that stand whole, one after another, each once, up to this many. It is over once it has
    /// answered an end or a fault, and hands on nothing more. It may wait for the taker.
    pub fn hand_on<R: Wait, T: Taker>(
        &mut self,
        rt: &R,
        taker: &mut T,
        most: usize,
    ) -> Result<HandedOn, LinkFault>
        // The first frames of what hadn't been handed on.
        ensures first { self.old.goes_on ≡ true → OnOk result
            (TakesFirst self.old.unread self.new.unread (T.taken taker.old) (T.taken taker.new)) }
        ensures stops { self.old.goes_on ≡ true → IfOk result (λ handed_on. StopsAt handed_on self.new.unread) }
        ensures goes { self.old.goes_on ≡ true
            → IfOk result (λ handed_on. self.new.goes_on ≡ goes_on handed_on) }
        ensures over { self.old.goes_on ≡ false → self.new ≡ self.old }
        // What was taken was heard, frame by frame, and nothing else.
        ensures heard { HasHeard T.hears T.misses T.taken (failed_takes result) taker.old taker.new }
        ensures takes { T.failures taker.new ≡ T.failures taker.old + failed_takes result }
    {
        if !self.goes_on {
            return Ok(HandedOn::End(PeerEnd::Malformed));
        }
        self.goes_on = false;
        let handed_on = hand_on_some(rt, &mut self.frames, taker, most)?;
        self.goes_on = !matches!(handed_on, HandedOn::End(_));
        Ok(handed_on)
    }
}
