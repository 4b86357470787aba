//! The master of a chain, which tells its servers of failures: of those that a line of its input names, and, if it
//! watches, of those that it finds. It opens connections to the servers. What is decided is decided in
//! `master_decisions`: here are the threads that hand it what comes and what a clock shows, and do what it answers, and
//! what a person reads of it.
#![tactic(auto)]

mod command;
mod conversations;
mod deciding;
mod giving;
mod input_threads;
mod lease_duties;
mod link_duties;
mod master_lines;
mod news;
mod platforms;
mod printers;
mod server_threads;
mod server_watches;
mod starting;
mod step_lines;
mod watching;

pub use command::master;
pub use platforms::Platform;
pub use watching::watch;
