//! What stands between a server's threads and its clients' connections: seats that answer their calls, and the pools of
//! them that threads have.
#![tactic(auto)]

mod ahead;
mod client_connections;
mod heard_seats;
mod outcomes;
mod peeks;
mod seat_callers;
mod seat_pools;
mod submitters;

pub use client_connections::{ClientConnection, Pause};
pub use peeks::peek;
pub use seat_callers::SeatCaller;
pub use seat_pools::SeatPool;
pub use submitters::Submitter;
