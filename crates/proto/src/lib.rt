//! Requests from bytes, and replies to bytes: the subset of memcached's text protocol that a cache speaks.
#![tactic(auto)]

mod ahead;
mod commands;
mod faults;
mod fields;
mod front;
mod laws;
mod lines;
mod lone_sets;
mod requests;
mod runs;
mod sessions;
mod skipped_blocks;
mod storage;
mod streams;
mod texts;
mod turns;
mod words;
mod writes;

pub use ahead::Update;
pub use faults::ProtoFault;
pub use laws::{found_is_spelled, one_request_at_a_front, spelled_is_found, whole_stays_whole};
pub use requests::{Fault, Keys, Request};
pub use runs::{any_cutting, calls_have_outcomes, closes_at_last, holds_little, output_is_texts};
pub use sessions::{Session, Step};
pub use streams::{
    answer_keeps_turns, faults_take_bytes, next_gives_first, next_keeps_end, refusal_keeps_turns,
    taken_keeps_turns,
};
use texts::{Form, Look};
pub use writes::{
    answer_writes, fewer_outcomes_begin, next_writes, refusal_writes, replies_are_outcomes,
    silent_writes_nothing,
};
