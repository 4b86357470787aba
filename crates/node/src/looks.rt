//! What a look at a key shows.

/// What a look at a key shows (this project's rule).
#[derive(Clone, Debug, PartialEq, Eq, Drop)]
pub enum Look<T> {
    /// The key is clean, and has this item or none.
    Clean(Option<T>),
    /// The key's newest version isn't acknowledged.
    Dirty,
}
