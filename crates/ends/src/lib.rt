//! Where bytes come from and where they go: any reader and writer of std, with histories that contracts see.
#![tactic(auto)]

mod failures;
mod passages;
mod reading;
mod sinks;
mod sources;
mod writing;

pub use failures::Failures;
pub use passages::Passed;
pub use reading::{ReadFault, read_to_end};
pub use sinks::{Sink, TrackedWriter};
pub use sources::{Source, TrackedReader};
pub use writing::{WriteFault, write_all};
