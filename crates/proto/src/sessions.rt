//! Sessions: the requests of one connection, from bytes that come in pieces, and the bytes that answer them.
ghost use Rattle.std.specs.Prelude.{◌≡◌};

use crate::front::Pending;
use crate::skipped_blocks::{SkippedBlock, kept, passed};
use crate::texts::{write_refusal, write_reply};
use crate::{Form, Keys, ProtoFault};
use bytes::BytesMut;
use std::alloc::{AllocError, Global};
use std::marker::Model;
use std::mem;
use table::{Op, Reply, Target};

/// What stands next in a session.
#[derive(Debug, Drop)]
pub enum Step {
    /// This operation on this target is open now, until it is answered.
    Call(Target, Op),
    /// A fault's line was added to the output.
    Emit,
    /// No whole request stands at the front.
    Wait,
    /// The session is closed: it has met `quit`, or a fault after which no request is read.
    Close,
}

/// One connection's side of the protocol: it is fed with bytes in any pieces, gives their requests as steps, one call
/// at a time, and keeps the output until it is taken. Fed with n bytes, it moves O(n) bytes in all, however they are
/// cut. Of a block that is refused for its size or its expiry time it keeps no byte once `next` has met its line. An
/// empty buffer keeps no block above 128 KiB.
#[derive(Drop)]
pub struct Session {
    pub(crate) alloc: Global,
    pub(crate) unread: BytesMut,
    pub(crate) pending: Option<Pending>,
    pub(crate) skipped_block: Option<SkippedBlock>,
    pub(crate) later: Keys,
    pub(crate) unique: bool,
    pub(crate) asked: Option<Form>,
    pub(crate) out: BytesMut,
    pub(crate) closed: bool,
}

impl Model for Session {
    ghost use Rattle.proto.specs.Sessions.{Held};
    ghost use Rattle.proto.specs.Fronts.{IsKnown};

    ghost Value = { Held };

    ghost view = { λ s. record {
      unread = s.unread.items;
      skipped_block = s.skipped_block;
      later = s.later;
      unique = s.unique;
      asked = s.asked;
      out = s.out.items;
      closed = s.closed;
    } };

    ghost invariant = { λ s. IsKnown s.pending s.unread.items };
}

impl Session {
    ghost use Rattle.std.specs.Prelude.{◌≡◌, ◌↔◌, ◌≤◌, drop, length, true, None, IsOk, IfOk, OnOk, OnErr, IsErrOf};
    ghost use Rattle.std.specs.Prelude.{IsOkUnless};
    ghost use Rattle.proto.specs.Sessions.{fresh, fed, next_of, step_of, answered_by, CanAnswer, IsInside, IsOpen};
    ghost use Rattle.proto.specs.Sessions.{Tells, refused_by, CanRefuse};
    ghost use Rattle.proto.specs.Streams.{LeavesFewer, most_turns};

    /// A session that was fed with nothing. It allocates nothing.
    pub fn new(alloc: Global) -> Session
        ensures { result ≡ fresh }
    {
        Session {
            alloc,
            unread: BytesMut::new(alloc),
            pending: None,
            skipped_block: None,
            later: Keys::new(),
            unique: false,
            asked: None,
            out: BytesMut::new(alloc),
            closed: false,
        }
    }

    /// Adds a piece at the end of the unread bytes, copied once; what lies inside a refused block is only counted.
    /// `Closed` exactly once `next` has met `quit` or a line that is too long; `Memory` if the piece finds no room,
    /// never if it lies wholly inside a refused block. A refusal changes nothing.
    pub fn feed(&mut self, piece: &[u8]) -> Result<(), ProtoFault>
        ensures ok { OnOk result (self.new ≡ fed self.old piece.now) }
        ensures closed { IsErrOf result ProtoFault.Closed ↔ (self.old.closed ≡ true) }
        // What lies wholly inside a refused block takes no memory.
        ensures inside { IsInside self.old piece.now → IsOk result }
        ensures err { OnErr result (self.new ≡ self.old) }
    {
        if self.closed {
            return Err(ProtoFault::Closed);
        }
        self.unread
            .extend_from_slice(kept(self.skipped_block, piece))?;
        self.skipped_block = passed(self.skipped_block, piece);
        Ok(())
    }

    /// The next turn, if no call is open: a call, which is open from now on, or a fault, whose line is written at once.
    /// `Memory` is its only refusal, and changes nothing. A line that isn't whole is searched again at each call, at
    /// most 2,048 bytes; a block that hasn't all come costs a comparison.
    pub fn next(&mut self) -> Result<Step, ProtoFault>
        requires idle { self.old.asked ≡ None }
        ensures step { IfOk result (λ step. step ≡ step_of (next_of self.old)) }
        ensures left { OnOk result (self.new ≡ (next_of self.old).1) }
        // A call that is handed out fits and suits its target, and is answered in its operation's form.
        ensures opens { IfOk result (λ step. IsOpen step self.new.asked) }
        // Which turn it was, or that there is none.
        ensures tells { IfOk result (λ step. Tells step (next_of self.old)) }
        // A loop over turns comes to an end: each leaves fewer.
        ensures fewer { IfOk result (λ step. LeavesFewer step self.old self.new) }
        // A closed session says so at once.
        ensures closed { self.old.closed ≡ true → IsOk result }
        ensures only_memory { IsOkUnless result ProtoFault.Memory }
        ensures err { OnErr result (self.new ≡ self.old) }
    {
        if self.closed {
            return Ok(Step::Close);
        }
        if let Some((key, shown)) = self.later.pop(self.alloc)? {
            return Ok(self.look(key, shown));
        }
        match self.skipped_block {
            Some(skipped_block) => self.pass(skipped_block),
            None => self.begin_front(),
        }
    }

    /// Answers the open call, with a value exactly if it is a read. The text is written directly to the output.
    /// `Memory` is its only refusal; the call then stays open.
    pub fn answer(&mut self, reply: &Reply) -> Result<(), ProtoFault>
        requires { CanAnswer self.old.asked reply.now }
        ensures ok { OnOk result (self.new ≡ answered_by self.old.asked self.old reply.now) }
        ensures idle { OnOk result (self.new.asked ≡ None) }
        ensures as_many { OnOk result (most_turns self.new ≡ most_turns self.old) }
        ensures only_memory { IsOkUnless result ProtoFault.Memory }
        ensures err { OnErr result (self.new ≡ self.old) }
    {
        if let Some(form) = &self.asked {
            write_reply(&mut self.out, form, reply)?;
            drop(self.asked.take());
        }
        Ok(())
    }

    /// Refuses the open call, an update, which is not to be made: the line that says so is written, or nothing if the
    /// call is silent. It fails only if there is no memory for the line; the call then stays open.
    pub fn refuse(&mut self) -> Result<(), AllocError>
        requires { CanRefuse self.old.asked }
        ensures ok { OnOk result (self.new ≡ refused_by self.old.asked self.old) }
        ensures idle { OnOk result (self.new.asked ≡ None) }
        ensures as_many { OnOk result (most_turns self.new ≡ most_turns self.old) }
        ensures err { OnErr result (self.new ≡ self.old) }
    {
        if let Some(form) = &self.asked {
            write_refusal(&mut self.out, form)?;
            drop(self.asked.take());
        }
        Ok(())
    }

    /// The output that was not yet taken.
    pub fn out(&self) -> &[u8]
        ensures { result.now ≡ self.now.out }
    {
        self.out.as_slice()
    }

    /// Whether it is closed: it takes no further bytes.
    pub fn is_closed(&self) -> bool
        ensures { result ≡ self.now.closed }
    {
        self.closed
    }

    /// Takes the first n bytes of the output away, n at most the output's length, in constant time.
    pub fn taken(&mut self, n: usize)
        requires { n ≤ length self.old.out }
        ensures { self.new ≡ record self.old { out = drop n self.old.out } }
    {
        self.out.advance(n);
        rest(self.alloc, &mut self.out);
    }
}

/// A block above this size isn't kept by a connection that may be idle for long.
const LARGE: usize = 131_072;

/// Gives the block of an empty buffer back, if it is large.
pub(crate) fn rest(alloc: Global, buffer: &mut BytesMut)
    ensures { buffer.new.items ≡ buffer.old.items }
{
    if buffer.is_empty() {
        buffer.clear();
        if buffer.capacity() > LARGE {
            drop(mem::replace(buffer, BytesMut::new(alloc)));
        }
    }
}
