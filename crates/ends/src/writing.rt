//! Writing all of a text to a sink.
ghost use Rattle.std.specs.Prelude.{◌≡◌, ◌+◌, ◌++◌, OnOk, OnErr};
ghost use Rattle.ends.specs.Ends.{WritesBeginning};

use crate::sinks::Sink;
use thiserror::Error;

/// A sink that failed.
#[derive(Clone, Copy, Debug, PartialEq, Eq, Error)]
#[error("the output can't be written")]
pub struct WriteFault;

/// Writes all of the bytes. After a fault a beginning of them was written.
/// A write that a signal interrupts is a failed one: it isn't tried again.
pub fn write_all<W: Sink>(sink: &mut W, bytes: &[u8]) -> Result<(), WriteFault>
    ensures written { OnOk result (W.written sink.new ≡ W.written sink.old ++ bytes.now) }
    ensures none_failed { OnOk result (W.failures sink.new ≡ W.failures sink.old) }
    ensures begun { OnErr result (WritesBeginning (W.written sink.old) (W.written sink.new) bytes.now) }
    ensures failed { OnErr result (W.failures sink.new ≡ W.failures sink.old + 1) }
{
    let mut at = 0;
    while at < bytes.len() {
        match sink.write(&bytes[at..]) {
            Ok(0) => return Err(WriteFault),
            Ok(n) => at += n,
            Err(_) => return Err(WriteFault),
        }
    }
    Ok(())
}
