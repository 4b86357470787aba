//! Frames to and from a peer: who greets whom, frames that are put, and frames that come, which are handed on.
#![tactic(auto)]

mod faults;
mod identities;
mod peer_readers;
mod putting;
mod receiving;
mod taken_frames;
mod takers;

pub use faults::LinkFault;
pub use identities::Identity;
pub use peer_readers::{HandedOn, PeerReader};
pub use putting::{put_all, put_frame};
pub use receiving::serve_peer;
pub use taken_frames::TakenFrames;
pub use takers::{TakeFault, Taker};
pub use wire::PeerEnd;
