//! A client's stream, served over a source, a sink and a caller.
ghost use Rattle.std.specs.Prelude.{◌≡◌, ◌+◌, ◌++◌, ◌<◌, ℕ, List, length, true, IfOk, IfErr, vec_len};
ghost use Rattle.serving.specs.Connections.{unused};
ghost use Rattle.serving.specs.declared.endings.End.{End};
ghost use Rattle.serving.specs.Streams.{IsServed, IsCut, failed_reads, failed_writes, failed_calls};

use crate::callers::Caller;
use crate::connections::{Connection, Wants};
use crate::endings::{End, ServeFault};
use crate::turns::{ask, read, write};
use ends::{Sink, Source};
use std::alloc::{AllocError, Global};
use std::sync::Wait;

/// The most bytes of one read.
const PIECE: usize = 65_536;

/// Serves a client's stream until its input ends, or it closes: reads, has the caller answer the calls of what was
/// read, one after another, and writes what is due. Each read of up to 64 KiB is answered by one write, or by one for
/// each 64 KiB of output. It never waits for input while output is due. It may wait: for input, for its output to be
/// taken, and in a call.
pub fn serve_stream<R: Wait, S: Source, W: Sink, C: Caller>(
    rt: &R,
    alloc: Global,
    source: &mut S,
    sink: &mut W,
    caller: &mut C,
) -> Result<End, ServeFault>
    // All that was read is answered, however it was cut, and the end is that of these bytes.
    ensures served { IfOk result (λ end. (read : List ℕ) × (S.given source.new ≡ S.given source.old ++ read) ×
        IsServed C.answers end read (W.written sink.old) (W.written sink.new) caller.old caller.new) }
    // The input has ended, if that is the answer.
    ensures ended { IfOk result (λ end. end ≡ End.Input → S.has_ended source.new ≡ true) }
    // After a fault: a beginning of the text of what was read and answered.
    ensures cut { IfErr result (λ fault. (read : List ℕ) × (S.given source.new ≡ S.given source.old ++ read) ×
        IsCut C.answers fault read (W.written sink.old) (W.written sink.new) caller.old caller.new) }
    // Each side's fault comes exactly if that side failed in this call.
    ensures reads { S.failures source.new ≡ S.failures source.old + failed_reads result }
    ensures writes { W.failures sink.new ≡ W.failures sink.old + failed_writes result }
    ensures calls { C.failures caller.new ≡ C.failures caller.old + failed_calls result }
{
    let mut piece = blank(alloc, PIECE)?;
    let mut connection = Connection::new(alloc);
    let room = piece.as_mut_slice();
    serve(rt, room, &mut connection, source, sink, caller)
}

// Serves by a connection of which nothing was read, and reads into this slice.
fn serve<R: Wait, S: Source, W: Sink, C: Caller>(
    rt: &R,
    piece: &mut [u8],
    connection: &mut Connection,
    source: &mut S,
    sink: &mut W,
    caller: &mut C,
) -> Result<End, ServeFault>
    requires some_room { 0 < length piece.old }
    requires unused { connection.old ≡ unused }
    ensures served { IfOk result (λ end. (read : List ℕ) × (S.given source.new ≡ S.given source.old ++ read) ×
        IsServed C.answers end read (W.written sink.old) (W.written sink.new) caller.old caller.new) }
    ensures ended { IfOk result (λ end. end ≡ End.Input → S.has_ended source.new ≡ true) }
    ensures cut { IfErr result (λ fault. (read : List ℕ) × (S.given source.new ≡ S.given source.old ++ read) ×
        IsCut C.answers fault read (W.written sink.old) (W.written sink.new) caller.old caller.new) }
    ensures reads { S.failures source.new ≡ S.failures source.old + failed_reads result }
    ensures writes { W.failures sink.new ≡ W.failures sink.old + failed_writes result }
    ensures calls { C.failures caller.new ≡ C.failures caller.old + failed_calls result }
{
    for _ in rt.forever() {
        connection.so_far();
        let wants = connection.next()?;
        connection.so_far();
        match wants {
            Wants::Call(target, op) => {
                let asked = ask(rt, connection, caller, &target, &op);
                drop(target);
                drop(op);
                if let Err(fault) = asked {
                    return Err(fault);
                }
            }
            Wants::Write => write(connection, sink)?,
            Wants::Read => read(connection, piece, source)?,
            Wants::End(end) => return Ok(end),
        }
    }
    unreachable!()
}

// A buffer of this many bytes.
fn blank(alloc: Global, length: usize) -> Result<Vec<u8>, AllocError>
    ensures { IfOk result (λ bytes. vec_len bytes ≡ length) }
{
    Vec::from_elem(alloc, 0u8, length)
}
