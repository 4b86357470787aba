//! What the program `craq` does without threads and sockets: it reads its arguments, replays schedules, and prints.
#![tactic(auto)]

mod faults;
mod program;
mod scenarios;
mod tellings;
mod unused_options;

pub use command_line::{DONE, FAILED, MEMORY, USAGE};
pub use faults::ScenarioFault;
pub use program::{read_arguments, run};
pub use scenarios::scenario;
pub use tellings::tell_file;
