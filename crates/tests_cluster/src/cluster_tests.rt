//! Chains in one process that serve clients over sockets. Each port is one that nobody listens on.

mod chains;
mod helping;
mod running;
mod visits;
