//! Settings of a server, and of a master, of a chain in several processes: made from the words of the command line, and
//! refused if these don't fit one another.
#![tactic(auto)]

mod settings;

pub use settings::{MasterSettings, ServerSettings, host_of, port_of};
