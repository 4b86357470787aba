//! What is wrong with a snapshot, or with what is put into one.
ghost use Rattle.std.specs.Prelude.{◌≡◌};

use std::alloc::{AllocError, AllocFailed};
use thiserror::Error;

/// What is wrong with bytes that should be a snapshot.
#[derive(Clone, Copy, Debug, Drop, Eq, Error, PartialEq)]
pub enum Flaw {
    /// They don't begin as a snapshot does.
    #[error("this is no snapshot")]
    Foreign,
    /// They are a snapshot of another format.
    #[error("a snapshot of another format")]
    OtherFormat,
    /// Neither a frame nor the end stands where one should.
    #[error("neither an item nor the end")]
    BadFrame,
    /// A frame stands there that isn't an item's: it isn't the entry of a put, stored, of server 0, whose id is its
    /// number, with an empty view.
    #[error("a message that isn't an item")]
    NotRow,
    /// The item's number isn't above the one before.
    #[error("an item's number isn't above the one before")]
    NotRising,
    /// The bytes end before the end.
    #[error("the snapshot is cut off")]
    Cut,
    /// Bytes stand behind the end.
    #[error("bytes behind the end")]
    Trailing,
    /// The end says another sum than the bytes before it have.
    #[error("the sum is another")]
    OtherSum,
    /// The end says another number of items than there were.
    #[error("the number of items is another")]
    OtherRows,
    /// An item's number is above the count that the end says.
    #[error("an item's number is above the count")]
    AboveCount,
}

/// Why a snapshot isn't read on.
#[derive(Clone, Copy, Debug, Drop, Eq, Error, PartialEq)]
pub enum SnapshotFault {
    /// There is no memory for it.
    #[error("out of memory")]
    Memory,
    /// This is wrong, behind so many bytes.
    #[error("byte {1}: {0}")]
    Flawed(Flaw, u64),
}

/// Why an item or the end isn't written.
#[derive(Clone, Copy, Debug, Drop, Eq, Error, PartialEq)]
pub enum PutFault {
    /// There is no memory for it.
    #[error("out of memory")]
    Memory,
    /// The item's number isn't above the one before, or 0.
    #[error("an item's number isn't above the one before")]
    NotRising,
    /// The item's data is larger than an item's may be.
    #[error("an item is too large")]
    TooLarge,
    /// An item's number is above the count.
    #[error("an item's number is above the count")]
    AboveCount,
}

impl From<AllocError> for SnapshotFault {
    ghost use Rattle.snapshots.specs.declared.faults.SnapshotFault.TheVariants.{Memory};

    ghost from_gives = { λ _ fault. fault ≡ Memory };

    fn from(_e: AllocError) -> SnapshotFault {
        SnapshotFault::Memory
    }
}

impl From<AllocError> for PutFault {
    ghost use Rattle.snapshots.specs.declared.faults.PutFault.TheVariants.{Memory};

    ghost from_gives = { λ _ fault. fault ≡ Memory };

    fn from(_e: AllocError) -> PutFault {
        PutFault::Memory
    }
}
