//! The sender's end of a stream: what was put, and what isn't confirmed.
ghost use Rattle.std.specs.Prelude.{◌≡◌, ◌≤◌, [], length};

use crate::StreamFault;
use bytes::BytesMut;
use ends::Passed;
use std::alloc::{AllocError, Global};
use std::marker::Model;
use std::mem;
use wire::{Frame, encode_onto, size};

/// If nothing is kept, no block above this size is: 128 KiB.
const LARGE: usize = 131_072;

/// A stream of bytes to one start of a server, over one connection after another. It keeps what was put until the
/// receiver confirms it. Contracts see all bytes that were put, and how far the receiver and connections are
/// (`Sending`).
#[derive(Drop)]
pub struct SentStream {
    alloc: Global,
    start: u64,
    // All bytes that were put; contracts alone see them.
    put: Passed,
    // Those that aren't confirmed.
    kept: BytesMut,
    // How many are confirmed.
    confirmed: u64,
    // How many of those that are kept the connection took, or needn't take.
    taken: usize,
    // Up to here some connection took them.
    sent: u64,
}

impl Model for SentStream {
    ghost use Rattle.std.specs.Prelude.{◌+◌};
    ghost use Rattle.link_streams.specs.Streams.{Sending};
    ghost use Rattle.link_streams.specs.Kept.{IsKept};

    ghost Value = { Sending };

    ghost view = { λ s. record {
      start = s.start;
      put = s.put;
      confirmed = s.confirmed;
      reached = s.confirmed + s.taken;
      sent = s.sent;
    } };

    ghost invariant = { λ s. IsKept s.put s.kept.items s.confirmed s.taken s.sent };
}

impl SentStream {
    ghost use Rattle.std.specs.Prelude.{◌≡◌, ◌≢◌, ◌≤◌, ◌+◌, ◌^◌, ◌<◌, ◌↔◌, length, false};
    ghost use Rattle.std.specs.Prelude.{IsTrue, OnOk, OnErr, IsErrOf, IfErr};
    ghost use Rattle.wire.specs.Spellings.{IsInRange, spelling};
    ghost use Rattle.link_streams.specs.Streams.{
      confirmed_to,
      may_confirm,
      may_resume,
      resumed_at,
      unsent_to,
      unwritten,
      with_bytes,
      written,
    };

    /// A stream to this start of a server's process, to which nothing was put. It allocates nothing.
    pub fn new(alloc: Global, start: u64) -> SentStream
        ensures { result ≡ unsent_to start }
    {
        SentStream {
            alloc,
            start,
            put: Passed::new(),
            kept: BytesMut::new(alloc),
            confirmed: 0,
            taken: 0,
            sent: 0,
        }
    }

    /// Puts the bytes of a frame after all others. Refused only if memory is, or if that makes 2^64 bytes or more.
    pub fn put(&mut self, bytes: &[u8]) -> Result<(), AllocError>
        ensures put { OnOk result (self.new ≡ with_bytes self.old bytes.now) }
        ensures stays { OnErr result (self.new ≡ self.old) }
    {
        if !self.has_room(bytes.len()) {
            return Err(AllocError);
        }
        self.kept.extend_from_slice(bytes)?;
        self.put.add(bytes);
        Ok(())
    }

    /// Puts a frame after all others: it has its one spelling (`wire::encode_onto`), of which no copy is made. Refused
    /// only if memory is, or if that makes 2^64 bytes or more.
    pub fn put_frame(&mut self, frame: &Frame) -> Result<(), AllocError>
        requires range { IsInRange frame.now }
        ensures put { OnOk result (self.new ≡ with_bytes self.old (spelling frame.now)) }
        ensures stays { OnErr result (self.new ≡ self.old) }
    {
        if !self.has_room(size(frame)) {
            return Err(AllocError);
        }
        let before = self.kept.len();
        if encode_onto(&mut self.kept, frame).is_err() {
            return Err(AllocError);
        }
        self.put.add(&self.kept.as_slice()[before..]);
        Ok(())
    }

    /// The bytes that the connection has still to take.
    pub fn unwritten(&self) -> &[u8]
        ensures bytes { result.now ≡ unwritten self.now }
        ensures sent { self.now.reached ≤ self.now.sent }
    {
        &self.kept.as_slice()[self.taken..]
    }

    /// The connection took the first n of these.
    pub fn written(&mut self, n: usize)
        requires { n ≤ length (unwritten self.old) }
        ensures { self.new ≡ written self.old n }
    {
        self.taken += n;
        let reached = self.confirmed + self.taken as u64;
        if self.sent < reached {
            self.sent = reached;
        }
    }

    /// The receiver says over the connection that it has handed on so many bytes. It may be no more than the connection
    /// took, or needn't take. These bytes are no longer kept.
    pub fn confirm(&mut self, count: u64) -> Result<(), StreamFault>
        ensures confirmed { OnOk result (self.new ≡ confirmed_to self.old count) }
        ensures stays { OnErr result (self.new ≡ self.old) }
        ensures unsent { IsErrOf result StreamFault.Unsent ↔ (may_confirm self.old count ≡ false) }
        ensures fault { IfErr result (λ fault. fault ≡ StreamFault.Unsent) }
    {
        if count <= self.confirmed {
            return Ok(());
        }
        let more = count - self.confirmed;
        if more > self.taken as u64 {
            return Err(StreamFault::Unsent);
        }
        self.forget(more as usize);
        Ok(())
    }

    /// A new connection stands. Its receiver is this start of the server, and goes on after so many bytes, all of which
    /// it has handed on.
    pub fn resume(&mut self, start: u64, count: u64) -> Result<(), StreamFault>
        ensures resumed { OnOk result (self.new ≡ resumed_at self.old count) }
        ensures stays { OnErr result (self.new ≡ self.old) }
        ensures other { IsErrOf result StreamFault.OtherStart ↔ (start ≢ self.old.start) }
        ensures confirmed { IsErrOf result StreamFault.Confirmed
            ↔ ((start ≡ self.old.start) × (count < self.old.confirmed)) }
        ensures unsent { IsErrOf result StreamFault.Unsent
            ↔ ((start ≡ self.old.start) × ((self.old.confirmed ≤ count) × (self.old.sent < count))) }
    {
        if start != self.start {
            return Err(StreamFault::OtherStart);
        }
        if count < self.confirmed {
            return Err(StreamFault::Confirmed);
        }
        if count > self.sent {
            return Err(StreamFault::Unsent);
        }
        let more = (count - self.confirmed) as usize;
        self.taken = more;
        self.forget(more);
        Ok(())
    }

    /// How many bytes are kept, since they aren't confirmed.
    pub fn kept(&self) -> usize
        ensures { self.now.confirmed + result ≡ length self.now.put }
    {
        self.kept.len()
    }

    /// Forgets all that was put, as if nothing had been: nobody will ask for it.
    pub fn clear(&mut self)
        ensures { self.new ≡ unsent_to self.old.start }
    {
        let start = self.start;
        *self = SentStream::new(self.alloc, start);
    }

    // Whether so many bytes more may be put.
    fn has_room(&self, more: usize) -> bool
        ensures { IsTrue result → length self.now.put + more < 2 ^ 64 }
    {
        let kept = self.kept.len() as u64;
        match kept.checked_add(more as u64) {
            Some(kept) => self.confirmed.checked_add(kept).is_some(),
            None => false,
        }
    }

    // So many bytes more are confirmed, all of which the connection took, or needn't take.
    fn forget(&mut self, more: usize)
        requires { self.old.confirmed + more ≤ self.old.reached }
        ensures { self.new ≡ record self.old { confirmed = self.old.confirmed + more } }
    {
        self.kept.advance(more);
        self.confirmed += more as u64;
        self.taken -= more;
        if self.kept.is_empty() && self.kept.capacity() > LARGE {
            drop(mem::replace(&mut self.kept, BytesMut::new(self.alloc)));
        }
    }
}
