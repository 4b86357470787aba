//! Bytes that have come and weren't read.
ghost use Rattle.std.specs.Prelude.{◌≡◌, ◌≤◌, ◌++◌, List, ℕ, [], length, drop, OnOk, OnErr, IfOk, IfSome, IfNone};
ghost use Rattle.std.specs.Prelude.{◌≢◌, ◌<◌, IfErr, false};
ghost use Rattle.wire.specs.declared.faults.WireFault.TheVariants.{Memory};
ghost use Rattle.wire.specs.Grammar.{IsFirst, IsPartial};
ghost use Rattle.wire.specs.Lengths.{longest};
ghost use Rattle.snapshots.specs.Fed.{IsBad, IsFed};

use bytes::BytesMut;
use std::alloc::{AllocError, Global};
use std::marker::Model;
use wire::{Frame, Frames, WireFault, size};

/// Bytes that have come and weren't read. Contracts see them as a list.
#[derive(Drop)]
pub struct Unread {
    alloc: Global,
    bytes: BytesMut,
    // The reader of frames was fed with the first `fed` of them, and has given a frame of the first `given`.
    frames: Frames,
    fed: usize,
    given: usize,
}

impl Model for Unread {
    ghost use Rattle.std.specs.Prelude.{ℕ, List};
    ghost use Rattle.snapshots.specs.Fed.{IsFed};

    ghost Value = { List ℕ };

    ghost view = { λ u. u.bytes.items };

    ghost invariant = { λ u. IsFed u.frames u.bytes.items u.fed u.given };
}

impl Unread {
    ghost use Rattle.std.specs.Prelude.{◌^◌};

    /// None. It allocates nothing.
    pub fn new(alloc: Global) -> Unread
        ensures { result ≡ [] }
    {
        Unread {
            alloc,
            bytes: BytesMut::new(alloc),
            frames: Frames::new(alloc),
            fed: 0,
            given: 0,
        }
    }

    /// A piece more has come.
    pub fn push(&mut self, piece: &[u8]) -> Result<(), AllocError>
        ensures ok { OnOk result (self.new ≡ self.old ++ piece.now) }
        ensures err { OnErr result (self.new ≡ self.old) }
    {
        self.bytes.extend_from_slice(piece)
    }

    /// The bytes.
    pub fn bytes(&self) -> &[u8]
        ensures bytes { result.now ≡ self.now }
        ensures bound { length self.now < 2 ^ 63 }
    {
        let _bound = self.bytes.len();
        self.bytes.as_slice()
    }

    /// The first n were read. It costs nothing if they are those of the frame that was given last.
    pub fn take_off(&mut self, n: usize)
        requires { n ≤ length self.old }
        ensures { self.new ≡ drop n self.old }
    {
        if n != self.given {
            self.bytes.advance(n);
            self.frames = Frames::new(self.alloc);
            self.fed = 0;
            self.given = 0;
            return;
        }
        self.bytes.advance(n);
        self.fed -= n;
        self.given = 0;
    }

    /// The frame at the front, which stays there, or none if it isn't whole.
    pub fn frame(&mut self) -> Result<Option<Frame>, WireFault>
        ensures stays { self.new ≡ self.old }
        ensures frame { IfOk result (λ found. IfSome found (λ f. (rest : List ℕ) × IsFirst f self.old rest)) }
        ensures none { IfOk result (λ found. IfNone found (IsPartial self.old)) }
        ensures short { IfOk result (λ found. IfNone found (length self.old < longest)) }
        ensures not_bad { IfOk result (λ found. IsBad self.old → ⊥) }
        ensures fault { IfErr result (λ fault. fault ≢ Memory → IsBad self.old) }
    {
        let bytes = self.bytes.as_slice();
        let length = bytes.len();
        match next_frame(self.alloc, &mut self.frames, bytes, self.fed, self.given) {
            Ok(Some(frame)) => {
                self.fed = length;
                self.given = size(&frame);
                Ok(Some(frame))
            }
            Ok(None) => {
                self.fed = length;
                self.given = 0;
                Ok(None)
            }
            Err(fault) => {
                self.frames = Frames::new(self.alloc);
                self.fed = 0;
                self.given = 0;
                Err(fault)
            }
        }
    }
}

// The frame at the front, which the reader of frames has given then.
fn next_frame(
    alloc: Global,
    frames: &mut Frames,
    bytes: &[u8],
    fed: usize,
    given: usize,
) -> Result<Option<Frame>, WireFault>
    requires fed { IsFed frames.old bytes.now fed given }
    ensures frame { IfOk result (λ found. IfSome found (λ f. IsFirst f bytes.now frames.new.unread)) }
    ensures none { IfOk result (λ found. IfNone found (IsPartial bytes.now)) }
    ensures short { IfOk result (λ found. IfNone found (length bytes.now < longest)) }
    ensures kept { IfOk result (λ found. IfNone found (frames.new.unread ≡ bytes.now)) }
    ensures open { IfOk result (λ found. frames.new.closed ≡ false) }
    ensures not_bad { IfOk result (λ found. IsBad bytes.now → ⊥) }
    ensures fault { IfErr result (λ fault. fault ≢ Memory → IsBad bytes.now) }
{
    feed_rest(alloc, frames, bytes, fed, given)?;
    frames.next()
}

// Feeds a reader of frames with those bytes that it hasn't. If it has given a frame of them, it begins anew.
fn feed_rest(
    alloc: Global,
    frames: &mut Frames,
    bytes: &[u8],
    fed: usize,
    given: usize,
) -> Result<(), AllocError>
    requires fed { IsFed frames.old bytes.now fed given }
    ensures { OnOk result (frames.new ≡ record { unread = bytes.now; closed = false }) }
{
    if given > 0 {
        *frames = Frames::new(alloc);
        return feed(frames, bytes);
    }
    feed(frames, &bytes[fed..])
}

// Feeds a reader of frames that takes more bytes: it is refused only if memory is out.
fn feed(frames: &mut Frames, piece: &[u8]) -> Result<(), AllocError>
    requires open { frames.old.closed ≡ false }
    ensures { OnOk result (frames.new ≡ record { unread = frames.old.unread ++ piece.now; closed = false }) }
{
    match frames.feed(piece) {
        Ok(()) => Ok(()),
        Err(_) => Err(AllocError),
    }
}
