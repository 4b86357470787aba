//! The stream of a link, which outlives the connections that carry it.
//!
//! A link goes from one start of a server to one start of another. All bytes that the first puts are its stream. A
//! connection carries a part of the stream, and may break at any byte, in both directions. The next one goes on where
//! the receiver's last whole frame ended. So what was lost comes again, and what came already doesn't come twice.
//!
//! Counts are counts of bytes, from the first byte of the stream on. They stand in the greetings and confirmations that
//! the two ends exchange.
//!
//! - **The sender's end** is a `SentStream`. It keeps the bytes that were put until the receiver confirms them. It says
//!   which bytes the connection has still to take (`unwritten`), and is told how many it took (`written`). A new
//!   connection begins where its receiver goes on (`resume`).
//! - **The receiver's end** is a `ReceivedStream`. It counts the bytes of the frames that were handed on (`hand_on`).
//!   This count is what it confirms, and where a new connection goes on (`resumes`). A part of a frame that has come
//!   over a connection is forgotten as that one breaks.
//! - **A connection** is a `LinkSink` to the sender: it takes bytes, as many as it can without waiting.
//! - **Starts.** A server that was started anew has nothing of the stream. So each end knows the other's start, and
//!   refuses any other.
//!
//! Both ends are machines: they read and write nothing, and read no clock.
//!
//! **What is proved.** Each call's contract is what the call makes of its end (`specs/Streams.antt`). The law
//! `links_lose_nothing` is about both ends together, with connections that may break at any byte
//! (`specs/Links.antt`): the bytes that were handed on are the first ones that were put, in order, each once; and all
//! of them, once the two ends talk. An honest end never refuses the other. Whatever a dishonest one says, the stream
//! stays as it is, and all is kept that it doesn't say it has handed on (`confirm`, `resume`).
//!
//! **What isn't.** That a connection gives the bytes that it took, in order, is TCP's. When a connection is given up,
//! and whether there is a new one, is up to who calls.
#![tactic(auto)]

mod faults;
mod laws;
mod received_streams;
mod sent_streams;
mod sinks;
mod watches;

pub use faults::StreamFault;
pub use laws::links_lose_nothing;
pub use received_streams::ReceivedStream;
pub use sent_streams::SentStream;
pub use sinks::LinkSink;
pub use watches::{LinkDue, LinkWatch, Standing};
