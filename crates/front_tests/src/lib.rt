//! Tests of the front end that serves clients (`io_threads`), by public functions. A crate with tests is proved twice,
//! so they stand here, and the library is proved once.
#![tactic(auto)]

#[cfg(test)]
mod client_tests;
#[cfg(test)]
mod front_tests;
#[cfg(test)]
mod guest_tests;
#[cfg(test)]
mod seat_tests;
#[cfg(test)]
mod served;
#[cfg(test)]
mod servers;
