//! Whether a member begins updates.

/// Whether a member begins updates.
#[derive(Clone, Copy, Debug, PartialEq, Eq)]
pub enum Hold {
    /// It does.
    Open,
    /// It doesn't, and no marker counts.
    Held,
    /// It doesn't, and the markers of its seal count.
    Fenced,
}
