//! One server of the chain as a pure machine: what it does with each input, and what it puts out.
#![tactic(auto)]

mod faces;
mod forwarding;
mod joining;
mod laws;
mod looks;
mod masters;
mod messages;
mod nodes;
mod numbering;
mod queues;
mod reading;
mod servers;
mod standings;
mod steps;
mod views;

pub use faces::{FaceChange, FaceStep, Tombstone};
pub use laws::{
    joins_keep_servers_sound, looks_show_the_newest, neighbors_are_nearest, open_calls_are_ordered,
    own_ports_alone, replies_close_calls, rules_keep_servers_sound, runs_are_lawful, runs_go_on,
    steps_are_actions, steps_are_lawful, views_are_sets, views_stay_below,
};
pub use looks::Look;
pub use masters::{Master, MasterFault};
pub use messages::{Body, Input, Output, Peer};
pub use nodes::{Node, NodeFault};
pub use servers::{OpenRead, OpenUpdate};
pub use standings::Standing;
pub use views::{SERVERS, View};
