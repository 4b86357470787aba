//! One server that runs: a worker that owns the node, and those who ask it, read beside it and carry its messages.
#![tactic(auto)]

mod call_notes;
mod call_senders;
mod faults;
mod inbox;
mod inbox_messages;
mod inlets;
mod inputs;
mod laws;
mod limits;
mod links;
mod outputs;
mod port_sets;
mod reply_channels;
mod reply_messages;
mod rooms;
mod seats;
mod servers;
mod thread_handles;
mod workers;

pub use call_senders::CallSender;
pub use faces::{Published, Reader, Told, Weight};
pub use faults::RailFault;
pub use inbox_messages::{Envelope, FitInput, InboxMessage};
pub use inlets::Inlet;
pub use laws::{calls_keep_step, replies_begin_those_put, taken_begins_sent};
pub use links::Links;
pub use port_sets::PortSet;
pub use rooms::Room;
pub use seats::Seat;
pub use servers::{Server, open};
pub use thread_handles::ThreadHandle;
pub use workers::{Turn, Worker};
