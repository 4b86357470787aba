//! What every process that runs servers has, whether it runs one or all of a chain: a server before its links stand,
//! how many threads serve, what is said of limits at the start, an alarm for a thread, and the scheduler of the
//! servers' workers, over links of any kind: whichever thread puts a message takes the turn that it asks for.
#![tactic(auto)]

mod alarms;
mod banners;
mod concurrency;
mod dealing;
mod endings;
mod file_limits;
mod machines;
mod open_faults;
mod opened_servers;
mod scheduled_links;
mod schedulers;
mod workers_with_links;

pub use alarms::Alarm;
pub use banners::Limits;
pub use concurrency::Concurrency;
pub use dealing::inlet_for;
pub use endings::{Ended, EndedSet, Ending};
pub use file_limits::warn_of_files;
pub use machines::machine_memory;
pub use open_faults::OpenFault;
pub use opened_servers::{Opened, idle_node, open_server};
pub use scheduled_links::ScheduledLinks;
pub use schedulers::Scheduler;
