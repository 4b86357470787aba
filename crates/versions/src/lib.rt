//! What a server holds of the items and of its log, so that a key can be read at each number that is still open.
#![tactic(auto)]

mod changes;
mod deferred_free;
mod entries;
mod items;
mod laws;
mod lookups;
mod numbers;
mod packed_records;
mod queues;
mod records;
mod stores;

pub use deferred_free::DeferredFree;
pub use entries::Entry;
pub use laws::{items_follow_the_log, parts_are_logs, stores_stay_stores};
pub use stores::{Store, StoreFault};
