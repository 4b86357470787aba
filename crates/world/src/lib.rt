//! The world: schedules of events over a chain of servers, what they do, and what a run of them shows.
#![tactic(auto)]

mod connections;
mod event_effects;
mod events;
mod faults;
pub mod forgetting;
mod laws;
mod links;
mod quiet;
mod refusals;
mod scenes;
mod servers;
mod steps;
mod tracing;
mod transcripts;
pub mod worked;
mod worlds;

pub use event_effects::{EventEffect, ServerStep};
pub use events::Event;
pub use faults::SceneFault;
pub use laws::{
    begin_leaves_no_request, calls_follow_the_stream, failed_servers, no_reply_is_dropped,
    no_turn_is_left_out, none_forgotten, one_open, one_order, sent_bytes_follow_the_stream,
    transcripts_show_the_calls,
};
pub use refusals::run_failing;
pub use scenes::{MOST_HOMES, MOST_SERVERS, Scene, run};
pub use tracing::{Trace, traced_run};
pub use transcripts::{CallTranscript, ConnectionTranscript, Transcript};
