//! What a server's threads ask before they go on: the mark of a server that is stopped, the gauge of its memory, and the
//! output permit that may hold back what it puts out. Each is shared by all of them, and asked without waiting.
#![tactic(auto)]

mod gauges;
mod marks;
mod output_permits;

pub use gauges::{Allowance, Gauge};
pub use marks::Mark;
pub use output_permits::{OutputPermit, Permit};
