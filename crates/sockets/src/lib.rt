//! TCP sockets, whoever is at their other side: listening on a port, and TCP's own watch over quiet connections.
#![tactic(auto)]

mod keepalive;
mod listening;

pub use keepalive::keep_alive;
pub use listening::{ListenFault, listen};
