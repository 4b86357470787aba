//! What a server says of itself at the start.

use command_line::VERSION;
use craq_process::{Concurrency, Limits};
use craq_settings::{ServerSettings, port_of};
use ends::Sink;
use lines::{text, text_of};

/// Which server of which chain runs, where it listens, and its limits, in one line.
pub(crate) fn tell_server<X: Sink>(
    settings: &ServerSettings,
    concurrency: Concurrency,
    machine: Option<u64>,
    errors: &mut X,
) {
    let numbers = settings.numbers;
    if numbers.quiet {
        return;
    }
    let (id, servers, chain) = (numbers.id, numbers.servers, text_of(settings.chain.bytes()));
    let address = settings.address.as_str();
    let (port, peer_port) = (port_of(numbers.port, id), port_of(numbers.peer_port, id));
    let limits = Limits {
        connections: numbers.connections,
        concurrency,
        memory: numbers.memory,
        machine,
    };
    let mut line = text(errors);
    let _ = write!(
        line,
        "craq {VERSION}: server {id} of {servers} of the chain {chain}; "
    );
    let _ = writeln!(
        line,
        "clients at {address} port {port}, servers and masters at {address} port {peer_port}{limits}"
    );
}
