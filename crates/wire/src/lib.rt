//! Messages between servers as bytes, both ways: one spelling a frame, in whatever pieces the bytes come.
#![tactic(auto)]

mod blocks;
mod ends;
mod entries;
mod faults;
mod fields;
mod frames;
mod greeting_fronts;
mod greetings;
mod laws;
mod link_fronts;
mod operations;
mod ranges;
mod reading;
mod sizes;
mod spelling;
mod stream_laws;
mod streams;
mod targets;
mod watching;
mod watching_fronts;

pub use ends::PeerEnd;
pub use faults::WireFault;
pub use frames::{Frame, MASTER};
pub use greetings::{Acceptance, Introduction, Reason};
pub use laws::{
    any_cutting, bad_front_is_final, bad_front_stays, beginning_waits, format_is_spelling,
    longest_frame, one_frame_at_a_front, partial_front_is_short, written_is_read,
};
pub use sizes::size;
pub use spelling::{encode, encode_onto};
pub use stream_laws::{
    bad_front_ends, frame_takes_bytes, frames_behind_frames, link_is_read_in_order, one_frame_more,
    stream_is_its_frames,
};
pub use streams::Frames;
pub use watching::{Alive, Beat, Silent};
