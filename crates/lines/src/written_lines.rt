//! What is written of a line that has waited.
ghost use Rattle.std.specs.Prelude.{◌≡◌, ◌++◌, codes, decimal, OnOk, OnErr};
ghost use Rattle.ends.specs.Ends.{WritesBeginning};
ghost use Rattle.lines.specs.Written.{note_of};

use crate::line_queues::WaitingLine;
use ends::{Sink, WriteFault, write_all};
use itoa::Buffer;

/// Writes how many lines were dropped before it, in a line of its own, if some were; and then the line.
pub fn write_line<W: Sink>(sink: &mut W, waiting: &WaitingLine) -> Result<(), WriteFault>
    ensures written { OnOk result
        (W.written sink.new ≡ W.written sink.old ++ (note_of waiting.now.dropped ++ waiting.now.line.items)) }
    ensures begun { OnErr result (WritesBeginning (W.written sink.old) (W.written sink.new)
        (note_of waiting.now.dropped ++ waiting.now.line.items)) }
{
    write_note(sink, waiting.dropped)?;
    write_all(sink, waiting.line.as_slice())
}

// Writes how many lines were dropped, if some were.
fn write_note<W: Sink>(sink: &mut W, dropped: u64) -> Result<(), WriteFault>
    ensures written { OnOk result (W.written sink.new ≡ W.written sink.old ++ note_of dropped) }
    ensures begun { OnErr result (WritesBeginning (W.written sink.old) (W.written sink.new) (note_of dropped)) }
{
    match dropped {
        0 => Ok(()),
        1 => write_all(sink, b"craq: 1 line was dropped\n"),
        _ => write_count(sink, dropped),
    }
}

fn write_count<W: Sink>(sink: &mut W, dropped: u64) -> Result<(), WriteFault>
    ensures written { OnOk result (W.written sink.new ≡ W.written sink.old
        ++ (codes "craq: " ++ decimal dropped ++ codes " lines were dropped\n")) }
    ensures begun { OnErr result (WritesBeginning (W.written sink.old) (W.written sink.new)
        (codes "craq: " ++ decimal dropped ++ codes " lines were dropped\n")) }
{
    write_all(sink, b"craq: ")?;
    write_number(sink, dropped)?;
    write_all(sink, b" lines were dropped\n")
}

fn write_number<W: Sink>(sink: &mut W, number: u64) -> Result<(), WriteFault>
    ensures written { OnOk result (W.written sink.new ≡ W.written sink.old ++ decimal number) }
    ensures begun { OnErr result (WritesBeginning (W.written sink.old) (W.written sink.new) (decimal number)) }
{
    let mut digits = Buffer::new();
    write_all(sink, digits.format(number).as_bytes())
}
