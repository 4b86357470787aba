//! Whether the process may have as many files open as its connections may need.

use crate::concurrency::Concurrency;
use ends::Sink;
use io_threads::{most_files, open_files};
use lines::text;

/// What happens meanwhile, and what to do.
const RAISE: &str = "more connections wait; raise the limit (ulimit -n) or lower --connections";

/// Warns if fewer files may be open at once than n servers with c connections each need.
pub fn warn_of_files<X: Sink>(
    servers: u8,
    connections: u32,
    concurrency: Concurrency,
    errors: &mut X,
) {
    let threads = u8::try_from(concurrency.threads).unwrap_or(16);
    let wanted = most_files(servers, connections, threads);
    match open_files() {
        Some(limit) if limit < wanted => tell(limit, wanted, connections, errors),
        _ => {}
    }
}

fn tell<X: Sink>(limit: u64, wanted: u64, connections: u32, errors: &mut X) {
    let mut line = text(errors);
    let _ = write!(
        line,
        "craq: warning: {limit} files may be open at once, and "
    );
    let _ = writeln!(
        line,
        "{connections} connections at each server need {wanted}: {RAISE}"
    );
}
