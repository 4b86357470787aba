//! Ports on which two would listen: one for its clients, and one for its peers.
ghost use Rattle.std.specs.Prelude.{◌≡◌, ◌≢◌, ◌<◌, ◌+◌, ℕ, IfSome, None};

use command_line::{ServerNumbers, UsageFault};
use craq_settings::{ServerSettings, port_of};
use std::alloc::{AllocError, Global};

/// Refuses settings by which one would listen on a port for clients, and a server at the same host, maybe itself, on
/// the same one for peers. The fault says which ports overlap, and for whom.
pub fn refuse_overlap(alloc: Global, settings: &ServerSettings) -> Result<(), UsageFault> {
    for i in 0..settings.numbers.servers {
        if let Some(j) = peer_with_port_of(settings.numbers, i) {
            if is_same_host(settings, i, j) {
                return Err(overlap(alloc, settings.numbers, i, j));
            }
        }
    }
    Ok(())
}

/// The server whose port for peers has the number of the port of server `i` for clients.
pub fn peer_with_port_of(numbers: ServerNumbers, i: u8) -> Option<u8>
    ensures some { IfSome result
        (λ j. (j < numbers.servers) × (numbers.port + i ≡ numbers.peer_port + j)) }
    ensures none { result ≡ None → (j : ℕ) → j < numbers.servers → numbers.port + i ≢ numbers.peer_port + j }
{
    let port = u32::from(numbers.port) + u32::from(i);
    let first = u32::from(numbers.peer_port);
    if port < first {
        return None;
    }
    match u8::try_from(port - first) {
        Ok(j) if j < numbers.servers => Some(j),
        _ => None,
    }
}

fn is_same_host(settings: &ServerSettings, i: u8, j: u8) -> bool {
    match (
        settings.hosts.get(usize::from(i)),
        settings.hosts.get(usize::from(j)),
    ) {
        (Some(one), Some(other)) => one.as_str() == other.as_str(),
        _ => false,
    }
}

fn overlap(alloc: Global, numbers: ServerNumbers, i: u8, j: u8) -> UsageFault {
    match text_of(alloc, numbers, i, j) {
        Ok(text) => UsageFault::Usage(text),
        Err(AllocError) => UsageFault::Memory,
    }
}

// What is printed if the port of server `i` for clients is that of server `j` for peers.
fn text_of(alloc: Global, numbers: ServerNumbers, i: u8, j: u8) -> Result<String, AllocError> {
    let most = numbers.servers.saturating_sub(1);
    let (first, last) = (numbers.port, port_of(numbers.port, most));
    let (first_peer, last_peer) = (numbers.peer_port, port_of(numbers.peer_port, most));
    let port = port_of(first, i);
    let mut text = String::new(alloc);
    write!(
        text,
        "error: the ports of clients, {first} to {last}, and those of peers, {first_peer} to {last_peer}, overlap: "
    )?;
    writeln!(
        text,
        "{port} is that of clients of server {i} and that of peers of server {j}"
    )?;
    Ok(text)
}
