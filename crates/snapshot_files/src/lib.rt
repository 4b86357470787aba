//! A table saved to a file, and loaded again. Nothing uses this crate yet: it is made for a command that saves a
//! chain's table at a planned stop, and for servers that begin with it.
//!
//! The file has the bytes of a snapshot (`snapshots`; docs/FORMATS.md) and nothing else.
//!
//! - **`save`** writes a table's rows to `PATH.new`, syncs that, and renames it to `PATH`: so at each moment `PATH` is
//!   the old file or the whole new one, also if the power is cut. On each fault but one the file at `PATH` is what it
//!   was, and the half-written one is removed. The one is a folder that can't be synced once the file is renamed: then
//!   the new file is there, and only a cut of the power may undo it (`NotKept`). Memory stays flat: the bytes go out in
//!   pieces of 64 KiB and a row.
//! - **`load`** reads all of a file and checks it before anything of it is given: a file that is cut, broken or of
//!   another kind is refused with what is wrong, behind how many bytes and rows. It gives the rows in a vector, in the
//!   order of their numbers.
//! - **`write_snapshot`** and **`read_snapshot`** do the same over any sink and source: a pipe, a socket, memory.
//!
//! The rows come in the order of their items' numbers, each once; sorting them is the caller's.
//!
//! **`PATH.new` is refused if something stands there**, and never written over. Two saves at once would mix in it, and
//! it may be somebody's file. After a power cut in the middle of a save it is left, and the fault says what to do.
//! **`PATH` is refused if what stands there isn't a file**: a rename would put a file in place of a device or a link.
//! That is looked up before the work, so who puts a link there meanwhile loses it.
//!
//! **What is proved** (`specs/Saving.antt`, `specs/Loading.antt`):
//!
//! - What is written is the snapshot of exactly these rows and this count; what is said of it is true. After a fault a
//!   beginning of it was written, and nothing else. Rows are refused only where they aren't a snapshot's, and it is
//!   told where.
//! - What is loaded are the rows and the count of a snapshot whose bytes are all that the source gave, to its end. A
//!   flaw that is told is there, and then no snapshot has, or begins with, what came. So a snapshot is loaded unless
//!   memory is out or a read fails.
//!
//! **What isn't.** What the system makes of calls on files is outside of any contract: that `PATH` is left or replaced,
//! that a sync keeps it, and that what is read is what was written, is tested (but for the sync). The sum finds files
//! that broke by chance, and proves nothing more. A read or write that a signal interrupts counts as failed. Out of
//! memory may be said anywhere. A saved file has the permissions of a new one, by the process's umask.
#![tactic(auto)]

mod faults;
mod files;
mod loading;
mod saving;
#[cfg(test)]
mod tests;

pub use faults::{LoadFault, SaveFault};
pub use files::{load, save};
pub use loading::{Loaded, read_snapshot};
pub use saving::{Saved, write_snapshot};
