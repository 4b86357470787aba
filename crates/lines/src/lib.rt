//! Lines that a running program reads and writes: lines of its input and their answers on standard output, and lines of
//! faults, which one thread writes, so that whoever tells one waits for no reader.
#![tactic(auto)]

mod answers;
mod input_lines;
mod line_queues;
mod line_senders;
mod line_sinks;
mod texts;
mod unfinished_lines;
mod written_lines;

pub use answers::Answers;
pub use input_lines::{empty_line, next_line, server_named};
pub use line_queues::{LineQueue, MOST, WaitingLine};
pub use line_senders::{LineSender, open_lines};
pub use line_sinks::LineSink;
pub use texts::{TextWriter, text, text_of};
pub use unfinished_lines::UnfinishedLine;
pub use written_lines::write_line;
