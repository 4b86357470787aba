//! The members of a generation, and what a member of the one before has accepted.

/// How many members a generation may have.
pub const MOST: u8 = 16;

/// The members of a generation: which process is which server of its chain. Place i has the number of the process that
/// is server i, or 0 if there is no such server. No two processes ever have the same number; so one that is started
/// anew has another.
#[derive(Clone, Copy, Debug, PartialEq, Eq)]
pub struct Members {
    /// The processes, by the servers' ids.
    pub processes: [u64; 16],
}

/// What a member has accepted: in this epoch, these as the members of the next generation.
#[derive(Clone, Copy, Debug, PartialEq, Eq)]
pub struct Acceptance {
    /// The epoch of the order to seal that it obeyed last.
    pub epoch: u64,
    /// The members of the next generation.
    pub next: Members,
}
