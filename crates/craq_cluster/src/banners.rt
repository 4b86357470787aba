//! What a cluster says of itself at the start.

use command_line::{ClusterNumbers, VERSION};
use craq_process::{Concurrency, Limits};
use craq_settings::port_of;
use ends::Sink;
use lines::text;

/// How many servers run in one process, where they listen, and their limits, in one line.
pub(crate) fn tell_cluster<X: Sink>(
    numbers: ClusterNumbers,
    concurrency: Concurrency,
    machine: Option<u64>,
    errors: &mut X,
) {
    if numbers.quiet {
        return;
    }
    let (servers, first) = (numbers.servers, numbers.port);
    let last = port_of(first, servers.saturating_sub(1));
    let limits = Limits {
        connections: numbers.connections,
        concurrency,
        memory: numbers.memory,
        machine,
    };
    let _ = writeln!(
        text(errors),
        "craq {VERSION}: a cluster of {servers} servers; clients at 127.0.0.1 ports {first} to {last}{limits}"
    );
}
