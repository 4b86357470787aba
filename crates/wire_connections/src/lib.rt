//! TCP connections to the servers of a chain, from each other and from masters: the greeting with which each begins,
//! which has to be answered in time, frames that are read no further than their end, and the number of a start.
#![tactic(auto)]

mod greetings;
mod short_frames;
mod starts;

pub use greetings::{
    Channel, Greeted, PeerSink, add_greeting_of, greet, next_small_frame, next_small_frame_until,
    reach,
};
pub use short_frames::{Deadline, ReceivedFrame, next_frame};
pub use starts::start_number;
