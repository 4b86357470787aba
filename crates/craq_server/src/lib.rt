//! One server of a chain in a process of its own: it listens for its peers and for masters, connects to its peers, and
//! serves clients once all links stand.
#![tactic(auto)]

mod answered_masters;
mod arrivals;
mod banners;
mod confirmations;
mod dealing;
mod greeters;
mod guests;
mod link_bells;
mod link_connections;
mod link_keepers;
mod link_lines;
mod link_mailboxes;
mod link_sockets;
mod link_threads;
mod outgoing;
mod peer_listeners;
mod peer_setup;
mod peer_streams;
mod pending_connections;
mod port_ranges;
mod rate_limits;
mod received_links;
mod refusals;
mod reported_connections;
mod server_faults;
mod server_links;
mod servers;
mod still_links;

pub use port_ranges::{peer_with_port_of, refuse_overlap};
pub use servers::{server, warn_of};
