//! The status of a chain: what its servers say of themselves, what is wrong, and how it stands; as a table, as JSON,
//! and as text for Prometheus. Nothing uses this crate yet: it is made for a command `craq status`, and for servers
//! that show their metrics. It asks nobody, reads no clock, and has no thread and no socket: its caller hands it what
//! came.
//!
//! - **A server says of itself** what its threads keep anyhow: a `ServerReport`, all of whose members are whole numbers
//!   and flags.
//! - **A look** (`ChainLook`) is what came of asking each server of a chain, by its id: its report, or why there is
//!   none (`ServerAnswer`); and when that was. A report counts only if it is of the server that was asked
//!   (`answer_by`).
//! - **Who is gone** is whom any server knows to be gone: such a notice is never taken back, and reaches all. The
//!   others are the chain, in the order of their ids: each has a place in it (`Role`), whether it answers or not.
//! - **What is wrong** (`Fault`) follows from a look, and from an earlier one if there is one (`faults_of`): all are
//!   gone, none answers, or one alone is left; a server is gone; one that isn't gone doesn't answer, or somebody else
//!   does in its place. And by the report of one that isn't gone: it wasn't told of a server that is gone; its link to
//!   one that isn't gone stands still; its lease is over; inputs wait for its worker, which took none between the
//!   looks; its items take four fifths of the memory that they may, or all of it; it has as many connections as it may;
//!   it is another version than the first server that answers; it was started anew between the looks.
//! - **How the chain stands** (`Standing`) is what the worst fault means, and the exit status of a command that tells
//!   it: 0, it is whole and serves; 1, it serves with fewer servers; 2, updates can't go on, or not at each server. A
//!   chain of which a server refuses to store, since its memory is used up, stands at 2.
//! - **Rates** are taken between two looks at one start of a server, and rounded down.
//! - **A `Histogram`** has the times of calls in 16 buckets with fixed bounds.
//!
//! `ChainStatus` puts this together. `to_table` is for people: a line for each server, of at most 120 characters, and
//! then a line for each fault, with what to do. Large numbers are cut there (`12k`). `to_json` is for programs, and has
//! all numbers in full. `Metrics` is a server's own, in Prometheus' text format. docs/FORMATS.md has the members of the
//! JSON and the names of the metrics.
//!
//! **What is proved.** Which answer a report is, who is gone, each server's place, how far its commit number is behind
//! the tail's, its rates, the faults, all of them in their order, and the standing (`specs/`); and what each call makes
//! of a histogram. **What is only tested**: the texts. That a JSON text reads as what was written is the kit's to say
//! (`serde_json`).
//!
//! **Odd numbers.** A set of servers is a number in which server i is the bit of value 2^i, and bits above the chain's
//! servers name nobody. A chain of no server has none left. Counts of a histogram stay at 2^64 - 1 once they are there.
#![tactic(auto)]

mod answers;
mod checks;
mod documents;
#[cfg(test)]
mod expected;
mod fault_lines;
mod faults;
mod histograms;
mod looks;
mod metrics;
mod rates;
mod reports;
mod roles;
mod standings;
mod status;
mod tables;
#[cfg(test)]
mod tests;
mod texts;

pub use answers::{NoConnection, ServerAnswer, Stranger, answer_by};
pub use checks::faults_of;
pub use faults::Fault;
pub use histograms::{BUCKETS, Histogram, bounds, bucket_of};
pub use looks::{ChainLook, SERVERS};
pub use metrics::{CallTimes, Metrics};
pub use rates::{Rates, per_second, rates_between};
pub use reports::{Calls, Inbox, LeaseState, Memory, Refused, ServerReport, Usage, Version};
pub use roles::{Role, role_of};
pub use standings::{Standing, standing_of};
pub use status::ChainStatus;
