//! Tests of the libraries by their public functions. A crate with tests is proved twice, so they stand here, and each
//! library is proved once.
#![tactic(auto)]

#[cfg(test)]
mod leases_tests;
#[cfg(test)]
mod making;
#[cfg(test)]
mod node_tests;
#[cfg(test)]
mod proto_tests;
#[cfg(test)]
mod table_tests;
#[cfg(test)]
mod versions_tests;
#[cfg(test)]
mod wire_tests;
#[cfg(test)]
mod world_tests;
