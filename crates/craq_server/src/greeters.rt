//! The answers to those who greet at a server's peer port.
ghost use Rattle.std.specs.Prelude.{◌≡◌, ◌++◌, true, false};
ghost use Rattle.ends.specs.Ends.{WritesBeginning};
ghost use Rattle.wire.specs.Spellings.{IsInRange, spelling};
ghost use Rattle.wire.specs.declared.frames.Frame.TheVariants as frames;

use crate::link_lines::tell_refused;
use crate::rate_limits::RateLimit;
use ends::{Sink, TrackedWriter};
use lines::LineSender;
use peers::put_frame;
use std::alloc::Global;
use std::net::TcpStream;
use std::sync::{Mutex, Wait};
use std::time::Clock;
use wire::{Acceptance, Frame, Reason};

/// How many seconds pass at least between two lines on refusals for one reason.
const QUIET: u64 = 1;

/// Answers those who greet server `id`.
#[derive(Drop)]
pub(crate) struct Greeter {
    id: u8,
    lines: Mutex<Lines>,
}

// The lines on refusals, by their reasons.
#[derive(Drop)]
struct Lines {
    servers: RateLimit,
    chain: RateLimit,
    taken: RateLimit,
    gone: RateLimit,
    format: RateLimit,
}

impl Greeter {
    /// Before the first greeting.
    pub(crate) fn new(id: u8) -> Greeter {
        let rate_limit = RateLimit::new(QUIET);
        Greeter {
            id,
            lines: Mutex::new(Lines {
                servers: rate_limit,
                chain: rate_limit,
                taken: rate_limit,
                gone: rate_limit,
                format: rate_limit,
            }),
        }
    }

    /// Accepts a connection, which may be quiet from then on. That of a link goes on after so many bytes. It tells
    /// whether the answer was written.
    pub(crate) fn accept(
        &self,
        alloc: Global,
        acceptance: Acceptance,
        handed: Option<u64>,
        stream: &TcpStream,
    ) -> bool {
        let mut sink = TrackedWriter::new(stream);
        stream.set_read_timeout(None).is_ok()
            && put_acceptance(alloc, acceptance, &mut sink)
            && put_handed(alloc, handed, &mut sink)
    }

    /// Refuses a connection of who greets with this id, and tells so.
    pub(crate) fn refuse<R: Wait + Clock>(
        &self,
        rt: &R,
        line_sender: &LineSender,
        alloc: Global,
        id: u8,
        reason: Reason,
        stream: &TcpStream,
    ) {
        let mut sink = TrackedWriter::new(stream);
        put_refusal(alloc, reason, &mut sink);
        if self.is_time(rt, reason) {
            tell_refused(rt, line_sender, self.id, id, reason);
        }
    }

    // Whether a line on this reason may be written now.
    fn is_time<R: Wait + Clock>(&self, rt: &R, reason: Reason) -> bool {
        let mut guard = self.lines.lock(rt);
        let lines = &mut *guard;
        match reason {
            Reason::Servers => lines.servers.is_time(rt),
            Reason::Chain => lines.chain.is_time(rt),
            Reason::Taken => lines.taken.is_time(rt),
            Reason::Gone => lines.gone.is_time(rt),
            Reason::Format => lines.format.is_time(rt),
        }
    }
}

// Writes that a connection is accepted. It tells whether that was written.
fn put_acceptance<W: Sink>(alloc: Global, acceptance: Acceptance, sink: &mut W) -> bool
    ensures whole { result ≡ true
        → W.written sink.new ≡ W.written sink.old ++ spelling (frames.Accepted acceptance) }
    ensures begun { result ≡ false
        → WritesBeginning (W.written sink.old) (W.written sink.new) (spelling (frames.Accepted acceptance)) }
{
    let frame = Frame::Accepted(acceptance);
    let is_put = put(alloc, &frame, sink);
    drop(frame);
    is_put
}

// Writes how far the link is that goes on, if it is one. It tells whether that was written.
fn put_handed<W: Sink>(alloc: Global, handed: Option<u64>, sink: &mut W) -> bool {
    let Some(handed) = handed else {
        return true;
    };
    let frame = Frame::Confirmed(handed);
    let is_put = put(alloc, &frame, sink);
    drop(frame);
    is_put
}

// Writes why a connection is refused. It tells whether that was written.
fn put_refusal<W: Sink>(alloc: Global, reason: Reason, sink: &mut W) -> bool
    ensures whole { result ≡ true
        → W.written sink.new ≡ W.written sink.old ++ spelling (frames.Refused reason) }
    ensures begun { result ≡ false
        → WritesBeginning (W.written sink.old) (W.written sink.new) (spelling (frames.Refused reason)) }
{
    let frame = Frame::Refused(reason);
    let is_put = put(alloc, &frame, sink);
    drop(frame);
    is_put
}

// Writes a frame. It tells whether all of it was written: else a beginning of it was.
fn put<W: Sink>(alloc: Global, frame: &Frame, sink: &mut W) -> bool
    ensures whole { result ≡ true → W.written sink.new ≡ W.written sink.old ++ spelling frame.now }
    ensures begun { result ≡ false
        → WritesBeginning (W.written sink.old) (W.written sink.new) (spelling frame.now) }
{
    if frame.is_in_range() {
        put_fit(alloc, frame, sink)
    } else {
        false
    }
}

fn put_fit<W: Sink>(alloc: Global, frame: &Frame, sink: &mut W) -> bool
    requires { IsInRange frame.now }
    ensures whole { result ≡ true → W.written sink.new ≡ W.written sink.old ++ spelling frame.now }
    ensures begun { result ≡ false
        → WritesBeginning (W.written sink.old) (W.written sink.new) (spelling frame.now) }
{
    match put_frame(alloc, sink, frame) {
        Ok(()) => true,
        Err(_) => false,
    }
}
