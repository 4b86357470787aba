//! Tests of what the threads of a server stand on, by public functions. A crate with tests is proved twice, so they
//! stand here, and each library is proved once. Those of front ends are `front_tests`.
#![tactic(auto)]

#[cfg(test)]
mod asking_tests;
#[cfg(test)]
mod connection_tests;
#[cfg(test)]
mod ending;
#[cfg(test)]
mod faces_tests;
#[cfg(test)]
mod incoming_link_tests;
#[cfg(test)]
mod link_stream_tests;
#[cfg(test)]
mod peer_link_tests;
#[cfg(test)]
mod peer_port_tests;
#[cfg(test)]
mod peers_tests;
#[cfg(test)]
mod rail_tests;
#[cfg(test)]
mod seat_caller_tests;
#[cfg(test)]
mod seat_thread_tests;
#[cfg(test)]
mod serving_tests;
#[cfg(test)]
mod stream_tests;
