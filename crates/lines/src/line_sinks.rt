//! A sink whose lines are told.
ghost use Rattle.std.specs.Prelude.{◌≡◌};

use crate::line_senders::LineSender;
use crate::unfinished_lines::UnfinishedLine;
use ends::{Passed, Sink};
use std::io;
use std::sync::Wait;

/// Takes all that is written to it, and tells it line by line. A write to it neither waits nor fails.
#[derive(Drop)]
pub struct LineSink<'a, R> {
    rt: R,
    line_sender: &'a LineSender,
    // The line whose end hasn't come.
    unfinished_line: UnfinishedLine,
    // The bytes that its writes took.
    written: Passed,
}

impl<'a, R: Wait + Drop> LineSink<'a, R> {
    /// A sink to which nothing has been written yet.
    pub fn new(rt: R, line_sender: &'a LineSender) -> LineSink<'a, R> {
        let unfinished_line = line_sender.begin(&rt);
        LineSink {
            rt,
            line_sender,
            unfinished_line,
            written: Passed::new(),
        }
    }
}

// More bytes of a line. Each line that ends in them is told.
fn tell_ended<R: Wait>(
    rt: &R,
    line_sender: &LineSender,
    unfinished_line: &mut UnfinishedLine,
    bytes: &[u8],
) {
    for byte in bytes {
        if let Some(line) = unfinished_line.add(*byte) {
            line_sender.put(rt, line);
            *unfinished_line = line_sender.begin(rt);
        }
    }
}

impl<'a, R: Wait + Drop> Sink for LineSink<'a, R> {
    ghost written = { λ s. s.written };

    ghost failures = { λ s. 0 };

    fn write(&mut self, bytes: &[u8]) -> io::Result<usize> {
        tell_ended(&self.rt, self.line_sender, &mut self.unfinished_line, bytes);
        self.written.add(bytes);
        Ok(bytes.len())
    }
}
