//! Keys, items, versions and operations of a cache, and the plain table that gives every operation its meaning.
#![tactic(auto)]

mod decisions;
mod items;
mod keys;
mod numbers;
mod operations;
mod plain;
mod shared_bytes;
mod tree_keys;
mod versions;

pub use decisions::decide;
pub use items::{Item, LIMIT};
pub use keys::{Key, are_key_bytes, is_key};
pub use numbers::number;
pub use operations::{Call, Change, Op, Reply, Target};
pub use plain::{Table, TableFault};
pub use shared_bytes::SharedBytes;
pub use tree_keys::TreeKey;
pub use versions::Version;
