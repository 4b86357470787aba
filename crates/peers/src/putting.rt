//! Frames are put to a peer.
ghost use Rattle.std.specs.Prelude.{◌≡◌, ◌⊎◌, ◌+◌, ◌++◌, [], OnOk, OnErr, IfErr, IsErrOf};
ghost use Rattle.wire.specs.Spellings.{IsFrame, IsInRange, spelling};
ghost use Rattle.ends.specs.Ends.{WritesBeginning};
ghost use Rattle.peers.specs.Links.{failed_writes};

use crate::LinkFault;
use bytes::BytesMut;
use ends::{Sink, write_all};
use std::alloc::Global;
use wire::{Frame, encode_onto};

/// Puts a frame to a peer, by one write if the sink takes all of it at once. `Memory` comes before the first write;
/// after `Write` a beginning of the frame was written. It may wait for the sink. An item's data is copied once.
pub fn put_frame<W: Sink>(alloc: Global, sink: &mut W, frame: &Frame) -> Result<(), LinkFault>
    requires range { IsInRange frame.now }
    ensures written { OnOk result (W.written sink.new ≡ W.written sink.old ++ spelling frame.now) }
    ensures memory { IsErrOf result LinkFault.Memory → W.written sink.new ≡ W.written sink.old }
    ensures begun { OnErr result
        (WritesBeginning (W.written sink.old) (W.written sink.new) (spelling frame.now)) }
    // `Write` comes exactly if the writer failed in this call.
    ensures writes { W.failures sink.new ≡ W.failures sink.old + failed_writes result }
    ensures fault { IfErr result (λ fault. (fault ≡ LinkFault.Memory) ⊎ (fault ≡ LinkFault.Write)) }
    ensures frame { IsFrame frame.now }
{
    let mut out = BytesMut::new(alloc);
    if encode_onto(&mut out, frame).is_err() {
        return Err(LinkFault::Memory);
    }
    put_all(sink, &mut out)
}

/// Puts all frames that `wire::encode_onto` wrote into a buffer, by one write if the sink takes all of it at once, and
/// empties the buffer, which keeps its room. After a fault, which is always `Write`, a beginning of them was written,
/// and the buffer is as it was. It may wait for the sink.
pub fn put_all<W: Sink>(sink: &mut W, out: &mut BytesMut) -> Result<(), LinkFault>
    ensures written { OnOk result (W.written sink.new ≡ W.written sink.old ++ out.old.items) }
    ensures emptied { OnOk result (out.new.items ≡ []) }
    ensures begun { OnErr result (WritesBeginning (W.written sink.old) (W.written sink.new) out.old.items) }
    ensures kept { OnErr result (out.new ≡ out.old) }
    ensures writes { W.failures sink.new ≡ W.failures sink.old + failed_writes result }
    ensures fault { IfErr result (λ fault. fault ≡ LinkFault.Write) }
{
    write_all(sink, out.as_slice())?;
    out.clear();
    Ok(())
}
