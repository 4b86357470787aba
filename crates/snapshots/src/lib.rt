//! A table written as bytes, and read back with everything checked. Nothing uses this crate yet: it is made for a chain
//! that stops and goes on, and for a server that joins one.
//!
//! A **snapshot** is a log with gaps. It has a head, then for each item the message between servers (`wire`) that
//! forwards the entry that put it, then an end. The items are in the order of their numbers (their uniques), as they
//! were put. Each entry says server 0 and an id that is its number, as if server 0 had asked for each update of the
//! log. The end says the table's count, how many items there were, and a sum of all bytes before it. docs/FORMATS.md
//! has the bytes.
//!
//! - **A `SnapshotWriter`** is given items in the order of their numbers, and writes behind the bytes of a buffer. It
//!   keeps nothing, so the buffer may be emptied whenever it is written out, and a table of any size takes the memory
//!   of one item. It refuses an item out of order. Sorting them is the caller's.
//! - **A `SnapshotReader`** is fed with bytes, cut anywhere. It gives each item once, in order. It keeps the bytes that
//!   aren't read: what was fed and, once it has none to give, less than the longest message.
//! - **A `TableMark`** is the end's count and sum: two servers that are to start from one table compare these first.
//!
//! What is wrong is told with the byte at which it stands (`Flaw`): no snapshot, another format, no message, no item's
//! message, a number that doesn't rise (so 0 too), bytes behind the end; and of the end, once no more bytes come: cut
//! off, another sum, another number of items, a number above the count. Nothing is to be called whole before `end` has
//! said so: a caller puts the items into a table that nobody sees until then.
//!
//! **What is proved** (`specs/Snapshots.antt` says what a snapshot and its bytes are, `specs/Tables.antt` its table):
//!
//! - The writer writes exactly the bytes of a snapshot (`written_is_a_snapshot`).
//! - Whatever bytes come, and however they are cut: if `end` says that all is right, they are exactly the bytes of a
//!   snapshot, whose items are those that were given and whose mark is the one that is said
//!   (`what_is_read_is_a_snapshot`). So its numbers are distinct ones from 1 to the count, its keys and items are such
//!   as a table may have, and updates leave this table (`tables_of_snapshots`).
//! - A snapshot that comes, in whatever pieces, is read: nothing is wrong on the way, its items are given in order, all
//!   of them once all of it has come, and nothing is wrong with the end (`snapshot_is_read_again`).
//! - No bytes are those of two snapshots (`one_snapshot`), nor of two tables.
//! - Each call does and says exactly that; an error is true and, but that the head is passed, changes nothing;
//!   what isn't told isn't wrong.
//!
//! **What isn't.** The sum is Adler-32: it finds a file that was broken by chance, and proves nothing more. That two
//! tables with one mark are one isn't proved. A key may stand in a snapshot twice: then the later item is the table's,
//! as in any log; a table's own rows have it once. That a snapshot is of the table that its writer had is up to who
//! gives the writer its items (`AreRows` says which these are). Out of memory may be said anywhere, and tried again.
#![tactic(auto)]

mod faults;
mod laws;
mod marks;
mod progress;
mod readers;
mod rows;
mod sums;
#[cfg(test)]
mod tests;
mod texts;
mod unread;
mod writers;

pub use faults::{Flaw, PutFault, SnapshotFault};
pub use laws::{
    one_snapshot, snapshot_is_read_again, tables_of_snapshots, what_is_read_is_a_snapshot,
    written_is_a_snapshot,
};
pub use marks::TableMark;
pub use readers::SnapshotReader;
pub use writers::SnapshotWriter;
