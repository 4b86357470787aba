//! Texts for people, on their way to a sink.
ghost use Rattle.std.specs.Prelude.{◌≡◌, OnOk};
ghost use Rattle.std.specs.Str.{IsUtf8};
ghost use Rattle.std.specs.Fmt.{AppendsText};

use ends::{Sink, WriteFault, write_all};
use std::fmt::{Display, Write};
use std::{fmt, str};

/// A sink to which `write!` and `writeln!` write. It takes no memory.
#[derive(Drop)]
pub struct TextWriter<'a, W> {
    /// Where the texts go.
    pub sink: &'a mut W,
}

/// Writes a text to this sink, as in `writeln!(text(errors), "craq: server {id} has stopped")`.
pub fn text<'a, W: Sink>(sink: &'a mut W) -> TextWriter<'a, W>
    ensures same { result.sink.ghost_name ≡ sink.entry.ghost_name }
    ensures nothing { result.sink.now ≡ sink.old }
{
    TextWriter { sink }
}

/// The text that these bytes are, or an empty one if they are none.
pub fn text_of(bytes: &[u8]) -> &str
    ensures { IsUtf8 bytes.now → result.now ≡ bytes.now }
{
    str::from_utf8(bytes).unwrap_or_default()
}

impl<'a, W: Sink> TextWriter<'a, W> {
    /// Writes a text: `write!` and `writeln!` call it. After a fault a beginning of it was written.
    pub fn write_fmt<D: Display + Drop>(&mut self, value: D) -> Result<(), WriteFault>
        ensures { OnOk result
            (AppendsText (W.written self.old.sink.now) (W.written self.new.sink.now) (D.output value)) }
    {
        match self.write(value) {
            Ok(()) => Ok(()),
            Err(fmt::Error) => Err(WriteFault),
        }
    }
}

impl<'a, W: Sink> Write for TextWriter<'a, W> {
    ghost use Rattle.std.specs.Prelude.{◌≡◌, ◌++◌};

    ghost write_str_gives = { λ before bytes after. W.written after.sink.now ≡ W.written before.sink.now ++ bytes };

    fn write_str(&mut self, s: &str) -> fmt::Result {
        match write_all(self.sink, s.as_bytes()) {
            Ok(()) => Ok(()),
            Err(WriteFault) => Err(fmt::Error),
        }
    }
}
