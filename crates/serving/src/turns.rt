//! What a connection wants, done over a source, a sink and a caller.
ghost use Rattle.std.specs.Prelude.{◌≡◌, ◌+◌, ◌++◌, ◌<◌, ◌∷◌, List, ℕ, [], false, true, length};
ghost use Rattle.std.specs.Prelude.{OnOk, OnErr, IfErr};
ghost use Rattle.table.specs.declared.operations.Reply.{Reply};
ghost use Rattle.proto.specs.Turns.{Replied};
ghost use Rattle.ends.specs.Ends.{WritesBeginning};
ghost use Rattle.serving.specs.Connections.{HasOutcome};
ghost use Rattle.serving.specs.Wanted.{IsAsking};
ghost use Rattle.serving.specs.Streams.{IsLeft, failed_reads, failed_writes, failed_calls};

use crate::callers::Caller;
use crate::connections::Connection;
use crate::endings::ServeFault;
use ends::{Sink, Source, write_all};
use std::sync::Wait;
use table::{Op, Target};

/// Has the call that waits answered.
pub(crate) fn ask<R: Wait, C: Caller>(
    rt: &R,
    connection: &mut Connection,
    caller: &mut C,
    target: &Target,
    op: &Op,
) -> Result<(), ServeFault>
    requires asking { IsAsking target.now op.now connection.old }
    ensures answered { OnOk result ((reply : Reply) ×
        C.answers caller.old (record { target = target.now; op = op.now }) reply caller.new ×
        HasOutcome (Replied reply) connection.old connection.new) }
    ensures left { IfErr result (λ fault.
        IsLeft C.answers fault caller.old (record { target = target.now; op = op.now } ∷ []) caller.new) }
    ensures reads { failed_reads result ≡ 0 }
    ensures writes { failed_writes result ≡ 0 }
    ensures calls { C.failures caller.new ≡ C.failures caller.old + failed_calls result }
{
    match caller.call(rt, target, op) {
        Ok(reply) => {
            let answered = connection.answer(&reply);
            drop(reply);
            answered?;
            Ok(())
        }
        Err(_) => Err(ServeFault::Call),
    }
}

/// Writes the output.
pub(crate) fn write<W: Sink>(connection: &mut Connection, sink: &mut W) -> Result<(), ServeFault>
    ensures taken { OnOk result (connection.new ≡
        record connection.old { due = []; written = connection.old.written ++ connection.old.due }) }
    ensures written { OnOk result (W.written sink.new ≡ W.written sink.old ++ connection.old.due) }
    ensures begun { OnErr result (WritesBeginning (W.written sink.old) (W.written sink.new) connection.old.due) }
    ensures fault { IfErr result (λ fault. fault ≡ ServeFault.Write) }
    ensures writes { W.failures sink.new ≡ W.failures sink.old + failed_writes result }
{
    let n = connection.output().len();
    match write_all(sink, connection.output()) {
        Ok(()) => {
            connection.written(n);
            Ok(())
        }
        Err(_) => Err(ServeFault::Write),
    }
}

/// Reads a piece, or the input's end.
pub(crate) fn read<S: Source>(
    connection: &mut Connection,
    piece: &mut [u8],
    source: &mut S,
) -> Result<(), ServeFault>
    requires some_room { 0 < length piece.old }
    requires idle { connection.old.waiting ≡ [] }
    requires written { connection.old.due ≡ [] }
    requires open { connection.old.closed ≡ false }
    requires goes_on { connection.old.ended ≡ false }
    ensures given { (bytes : List ℕ) × (S.given source.new ≡ S.given source.old ++ bytes) ×
        OnOk result ((connection.new.read ≡ connection.old.read ++ bytes) ×
        (connection.new.calls ≡ connection.old.calls) ×
        (connection.new.outcomes ≡ connection.old.outcomes) ×
        (connection.new.waiting ≡ []) ×
        (connection.new.written ≡ connection.old.written)) }
    ensures ended { OnOk result (connection.new.ended ≡ true → S.has_ended source.new ≡ true) }
    ensures reads { S.failures source.new ≡ S.failures source.old + failed_reads result }
    ensures writes { failed_writes result ≡ 0 }
    ensures calls { failed_calls result ≡ 0 }
{
    match source.read(piece) {
        Ok(0) => {
            connection.input_ended();
            Ok(())
        }
        Ok(n) => {
            connection.feed(&piece[..n])?;
            Ok(())
        }
        Err(_) => Err(ServeFault::Read),
    }
}
