//! How much a server holds.

/// How much a server holds of what it shows (this project's rule). What the trees and blocks around it take isn't
/// counted.
#[derive(Clone, Copy, Debug, PartialEq, Eq)]
pub struct Weight {
    /// How many keys have a version. One without item counts until it is acknowledged.
    pub items: u64,
    /// The bytes of these keys and of their versions' data.
    pub bytes: u64,
}
