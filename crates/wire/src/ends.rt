//! How a peer's stream of frames ends.

/// How a peer's stream of frames ends, after the last frame that stands in it.
#[derive(Clone, Copy, Debug, PartialEq, Eq)]
pub enum PeerEnd {
    /// The input ends, between two frames or in mid-frame.
    Input,
    /// A field is out of its range there.
    Malformed,
    /// An older server speaks there.
    Old,
}
