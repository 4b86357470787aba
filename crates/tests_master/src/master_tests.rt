//! Masters of servers that serve clients over sockets. Each port is one that nobody listens on.

mod notices;
mod started_servers;
