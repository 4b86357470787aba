//! The texts of the world: schedules are read, and transcripts printed (docs/FORMATS.md).
#![tactic(auto)]

mod escapes;
mod event_lines;
mod head_lines;
mod lines;
mod numbers;
mod printing;
mod schedules;
mod settling;
mod splits;
mod text_laws;

pub use escapes::push_escaped;
pub use printing::print_transcript;
pub use schedules::{Schedule, ScheduleFault, read_schedule};
pub use text_laws::{
    escaped_bytes_are_read_back, first_bad_line_is_named, one_meaning_of_a_text,
    sent_text_tells_what_was_sent, spelled_bytes_are_read, spelled_schedules_are_read,
};
