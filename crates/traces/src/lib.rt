//! What a schedule does, event by event: as text that a person reads, and as a picture.
#![tactic(auto)]

mod arrows;
mod crossings;
mod drawings;
mod ends;
mod event_effects;
mod event_lines;
mod glyphs;
mod lanes;
mod laws;
mod pictures;
mod points;
mod printing;
mod texts;
mod words;

pub use drawings::draw;
pub use laws::{each_put_has_its_arrow, each_put_of_a_run_has_one_arrow, each_way_is_drawn_once};
pub use printing::print_trace;
