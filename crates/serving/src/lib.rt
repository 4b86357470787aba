//! The connection engine: a client's connection without a thread, driven by what it wants next; and a loop that drives
//! one over a source, a sink and a caller. The loop alone serves anything that answers calls, such as a plain table:
//!
//! ```ignore
//! struct TableCaller {
//!     table: Table,
//!     failures: Failures,
//! }
//!
//! impl Caller for TableCaller {
//!     ghost answers = { λ before call reply after. (reply ≡ (apply before.table call.target call.op).0) ×
//!         (after.table ≡ (apply before.table call.target call.op).1) };
//!
//!     ghost failures = { λ caller. caller.failures };
//!
//!     fn call<R: Wait>(&mut self, _rt: &R, target: &Target, op: &Op) -> Result<Reply, CallFault> {
//!         match self.table.call(target, op) {
//!             Ok(reply) => Ok(reply),
//!             Err(_) => {
//!                 self.failures.rise();
//!                 Err(CallFault)
//!             }
//!         }
//!     }
//! }
//!
//! let mut source = TrackedReader::new(&stream);
//! let mut sink = TrackedWriter::new(&stream);
//! let mut caller = TableCaller { table: Table::new(alloc), failures: Failures::new() };
//! let end = serve_stream(rt, alloc, &mut source, &mut sink, &mut caller)?;
//! ```
#![tactic(auto)]

mod callers;
mod calls;
mod connections;
mod endings;
mod outcomes;
mod streams;
mod turns;

pub use callers::Caller;
pub use calls::{CallFault, stores};
pub use connections::{Connection, OUTPUT, Wants};
pub use endings::{End, ServeFault};
pub use streams::serve_stream;
