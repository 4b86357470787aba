//! Few threads that serve many client connections of the servers of one process. One more accepts them. Each serving
//! thread waits for its sockets, has seats of its own at each server, and takes the workers' turns itself if it may.
//! The first one may have guests too: others than clients, whose sockets it reads.
#![tactic(auto)]

mod accepting;
mod client_sockets;
mod clients;
mod connection_permits;
mod connection_tables;
mod dealing;
mod front_ends;
mod guests;
mod known_clients;
mod limits;
mod loop_handles;
mod loops;
mod permitted_streams;
mod pools;
mod seat_shares;
mod turn_schedulers;
mod wait_queues;

pub use clients::{Client, Progress, Ready, ReplyOutcome};
pub use front_ends::{FrontEnd, FrontEndFault, FrontEndServer, FrontEndSettings, open_front_end};
pub use guests::{Guests, NoGuests};
pub use limits::{most_files, open_files, usual_threads};
pub use loop_handles::{LoopHandles, open_loop_handles};
pub use pools::{Pooled, open_pools};
pub use seat_shares::{SeatDeal, SeatShares};
pub use turn_schedulers::{TurnScheduler, Visit};
pub use wait_queues::WaitQueue;
