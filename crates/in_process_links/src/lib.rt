//! Links between the servers of one process: what a server puts for another is brought into that one's inbox. And sets
//! of servers, as that of those which were sent something.
#![tactic(auto)]

mod inbox_links;
mod server_sets;

pub use inbox_links::{InProcessLinks, InboxLink};
pub use server_sets::ServerSet;
