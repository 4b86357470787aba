//! Servers that speak over sockets, with clients and with each other. Each port is one that nobody listens on.

mod held_links;
mod leased_links;
mod started_servers;
mod warnings;
