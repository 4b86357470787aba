//! Streams of frames: bytes that come in any pieces, and the frames that they spell.
ghost use Rattle.std.specs.Prelude.{◌≡◌};

use crate::fields::Stop;
use crate::reading::{ReadFault, front};
use crate::{Frame, PeerEnd, WireFault};
use bytes::BytesMut;
use std::alloc::Global;
use std::marker::Model;

/// The reader's end of a connection: it is fed with bytes in any pieces, and gives the frames that they spell.
/// Fed with n bytes it does O(n) work in all, however they are cut: a frame's data is counted until all of it has come,
/// and then copied once into a block of its own.
#[derive(Drop)]
pub struct Frames {
    alloc: Global,
    unread: BytesMut,
    missing: usize,
    closed: bool,
}

impl Model for Frames {
    ghost use Rattle.wire.specs.Streams.{Held, IsMissing};

    ghost Value = { Held };

    ghost view = { λ f. record { unread = f.unread.items; closed = f.closed } };

    ghost invariant = { λ f. IsMissing f.missing f.unread.items };
}

impl Frames {
    ghost use Rattle.std.specs.Prelude.{◌≡◌, ◌↔◌, ◌<◌, length, true, OnOk, OnErr, IfOk, IfSome, IfNone, IsErrOf};
    ghost use Rattle.wire.specs.Grammar.{HasFrame, IsFirst, IsMalformed, IsOld, IsPartial};
    ghost use Rattle.wire.specs.Lengths.{longest};
    ghost use Rattle.wire.specs.Streams.{fed, fresh, next_of};
    ghost use Rattle.wire.specs.Ends.{IsEnd};

    /// A reader that was fed with nothing. It allocates nothing.
    pub fn new(alloc: Global) -> Frames
        ensures { result ≡ fresh }
    {
        Frames {
            alloc,
            unread: BytesMut::new(alloc),
            missing: 0,
            closed: false,
        }
    }

    /// Adds a piece at the end of the unread bytes. Once `next` has met a bad front or an older server it is refused:
    /// `Closed` comes exactly then. `Memory` changes nothing.
    pub fn feed(&mut self, piece: &[u8]) -> Result<(), WireFault>
        ensures ok { OnOk result (self.new ≡ fed self.old piece.now) }
        ensures closed { IsErrOf result WireFault.Closed ↔ (self.old.closed ≡ true) }
        ensures not_malformed { IsErrOf result WireFault.Malformed → ⊥ }
        ensures not_old { IsErrOf result WireFault.OldFormat → ⊥ }
        ensures err { OnErr result (self.new ≡ self.old) }
    {
        if self.closed {
            return Err(WireFault::Closed);
        }
        self.unread.extend_from_slice(piece)?;
        self.missing = self.missing.saturating_sub(piece.len());
        Ok(())
    }

    /// The frame at the front, which is taken off, or none if it isn't complete yet.
    /// `Memory` comes only if a frame stands there, and changes nothing. A bad front stays, so that every later call
    /// meets it again; so does an older server's.
    pub fn next(&mut self) -> Result<Option<Frame>, WireFault>
        ensures frame { IfOk result (λ found. IfSome found (λ frame. IsFirst frame self.old.unread self.new.unread)) }
        ensures none { IfOk result (λ found. IfNone found (IsPartial self.old.unread)) }
        // With none, all stays as it was, and that is shorter than the longest frame; if no more bytes come, no frame
        // is left there.
        ensures kept { IfOk result (λ found. IfNone found (self.new ≡ self.old)) }
        ensures short { IfOk result (λ found. IfNone found (length self.new.unread < longest)) }
        ensures end { IfOk result (λ found. IfNone found (IsEnd self.old.unread PeerEnd.Input)) }
        ensures malformed { IsErrOf result WireFault.Malformed ↔ IsMalformed self.old.unread }
        ensures old_format { IsErrOf result WireFault.OldFormat ↔ IsOld self.old.unread }
        ensures not_closed { IsErrOf result WireFault.Closed → ⊥ }
        ensures stays { OnErr result (self.new.unread ≡ self.old.unread) }
        ensures memory { IsErrOf result WireFault.Memory → self.new ≡ self.old }
        ensures wanted { IsErrOf result WireFault.Memory → HasFrame self.old.unread }
        // The same by one function of what is held, for runs of many calls.
        ensures given { IfOk result (λ found. found ≡ (next_of self.old).0) }
        ensures left { (IsErrOf result WireFault.Memory → ⊥) → self.new ≡ (next_of self.old).1 }
    {
        if self.missing > 0 {
            return Ok(None);
        }
        match front(self.alloc, self.unread.as_slice()) {
            Ok((frame, rest)) => {
                let taken = self.unread.len() - rest.len();
                self.unread.advance(taken);
                Ok(Some(frame))
            }
            Err(ReadFault::Memory) => Err(WireFault::Memory),
            Err(ReadFault::Stopped(Stop::Short(missing))) => {
                self.missing = missing;
                Ok(None)
            }
            Err(ReadFault::Stopped(Stop::Malformed)) => {
                self.closed = true;
                Err(WireFault::Malformed)
            }
            Err(ReadFault::Stopped(Stop::Old)) => {
                self.closed = true;
                Err(WireFault::OldFormat)
            }
        }
    }
}
