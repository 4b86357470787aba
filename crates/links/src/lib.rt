//! Links between server processes: what a worker puts is written to the other servers, and what they send is brought to
//! it. The ends are of any kind: this crate opens no socket and starts no thread.
#![tactic(auto)]

mod admissions;
mod ghost_lists;
mod greeter_inlets;
mod incoming_links;
mod notices;
mod orders;
mod peer_connections;
mod peer_links;
mod peer_ports;
mod speakers;

pub use admissions::{Heard, Noted, PeerAdmission};
pub use ghost_lists::GhostList;
pub use greeter_inlets::GreeterInlets;
pub use orders::{Response, alive_of, order_of};
pub use peer_connections::PeerConnection;
pub use peer_links::{PeerLink, PeerLinks};
pub use peer_ports::{LinkControl, PeerPort};
pub use speakers::Speaker;
