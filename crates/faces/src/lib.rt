//! What readers beside a server see: its face after each input that it took, shown to threads that wait for nobody.
#![tactic(auto)]

mod acts;
mod boards;
mod faces;
mod faults;
mod laws;
mod log_positions;
mod logs;
mod published;
mod publishers;
mod readers;
mod tombstones;
mod version_trees;
mod weights;

pub use boards::HistoryInstance;
pub use faults::FaceFault;
pub use laws::seen_begins_published;
pub use log_positions::LogPosition;
pub use published::{Published, Told};
pub use publishers::Publisher;
pub use readers::Reader;
pub use weights::Weight;
