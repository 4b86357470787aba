//! The cluster: all servers of a chain in one process, over links that are their inboxes. Whichever thread puts a
//! message takes the turn that it asks for.
#![tactic(auto)]

mod banners;
mod cluster_command;
mod cluster_controls;
mod cluster_faults;
mod clusters;
mod controls;
mod server_parts;

pub use cluster_command::cluster;
pub use cluster_faults::ClusterFault;
pub use controls::ServerControl;
pub use server_parts::{ServerParts, all_links, all_parts, all_servers};
