//! The words of a command line of `craq`, read by one parser, and what they ask for; the program's exit statuses.
#![tactic(auto)]

mod cluster_numbers;
mod cluster_words;
mod commands;
mod file_words;
mod given;
mod options;
mod process_words;
mod processes;
mod statuses;
mod version;
mod words;

pub use cluster_numbers::ClusterNumbers;
pub use commands::{Command, Print, Serve, Telling, UsageFault};
pub use processes::{Hosts, MasterNumbers, ServerNumbers};
pub use statuses::{DONE, FAILED, GONE, MEMORY, USAGE};
pub use version::VERSION;
pub use words::read_command;
