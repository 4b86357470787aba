//! Why a table isn't saved or loaded. Each says it in a line for an operator.
ghost use Rattle.std.specs.Prelude.{◌≡◌};

use snapshots::{Flaw, PutFault};
use std::alloc::AllocError;
use std::io;
use thiserror::Error;

/// Why a table isn't saved.
#[derive(Clone, Copy, Debug, Drop, Error)]
pub enum SaveFault {
    /// There is no memory for it.
    #[error("out of memory")]
    Memory,
    /// The row behind so many isn't one of a snapshot.
    #[error("behind {1} items: {0}")]
    Row(PutFault, u64),
    /// The last row's number is above the count.
    #[error("an item's number is above the count")]
    AboveCount,
    /// Something that is no file stands at the path.
    #[error("what stands there isn't a file, and is left as it is")]
    NotFile,
    /// Something stands at the path of the new file.
    #[error("what is saved is first written beside the file, with `.new` behind its name, and something stands there: \
             another save is at work, or one was cut off. If none is at work, remove it")]
    Taken,
    /// The new file can't be made, written or synced.
    #[error("the new file can't be written: {0}")]
    Unwritten(io::Error),
    /// The new file can't take the path.
    #[error("the new file is written, and can't take the place of the one that is to be replaced: {0}")]
    NotMoved(io::Error),
    /// The file is saved. Whether it stays so if the power is cut isn't known.
    #[error("the file is saved, but its folder can't be synced, so a cut of the power may undo it: {0}")]
    NotKept(io::Error),
}

/// Why a table isn't loaded.
#[derive(Clone, Copy, Debug, Drop, Error)]
pub enum LoadFault {
    /// There is no memory for it.
    #[error("out of memory")]
    Memory,
    /// The file can't be opened, or a read of it failed.
    #[error("the file can't be read: {0}")]
    Unreadable(io::Error),
    /// This is wrong, behind so many bytes and so many rows.
    #[error("byte {1}, behind {2} items: {0}")]
    Flawed(Flaw, u64, u64),
}

impl From<AllocError> for SaveFault {
    ghost use Rattle.snapshot_files.specs.declared.faults.SaveFault.TheVariants.{Memory};

    ghost from_gives = { λ _ fault. fault ≡ Memory };

    fn from(_e: AllocError) -> SaveFault {
        SaveFault::Memory
    }
}

impl From<AllocError> for LoadFault {
    ghost use Rattle.snapshot_files.specs.declared.faults.LoadFault.TheVariants.{Memory};

    ghost from_gives = { λ _ fault. fault ≡ Memory };

    fn from(_e: AllocError) -> LoadFault {
        LoadFault::Memory
    }
}
