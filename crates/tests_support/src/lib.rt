//! What the tests of running chains share: ports of this machine, and clients that say whether what they read is right.
#![tactic(auto)]

mod clients;

pub use clients::{answers, client, has_line, is_closed, listen, says, some_port};
