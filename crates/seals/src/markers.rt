//! How far a member is, and the markers that say so.

/// How far a member is. None of the three ever goes back.
#[derive(Clone, Copy, Debug, PartialEq, Eq)]
pub struct Numbers {
    /// The members that it knows to be gone, member i being the bit of value 2^i.
    pub view: u16,
    /// The number of its last entry.
    pub last: u64,
    /// The number up to which its entries are committed.
    pub committed: u64,
}

/// How the table of a member is, as its caller finds it between two inputs of its server.
#[derive(Clone, Copy, Debug, PartialEq, Eq)]
pub struct Table {
    /// How far it is.
    pub numbers: Numbers,
    /// Something of its own is unfinished: a call that its server took isn't answered (an update, or a read that waits
    /// for the tail), or a message that its server put out isn't on its link yet.
    pub busy: bool,
}

/// What a member puts on its link to a peer, behind all that it sent before: so far it had come, and had nothing
/// unfinished.
#[derive(Clone, Copy, Debug, PartialEq, Eq)]
pub struct Marker {
    /// Its generation.
    pub generation: u64,
    /// The epoch of its seal.
    pub epoch: u64,
    /// How far it was.
    pub numbers: Numbers,
}
