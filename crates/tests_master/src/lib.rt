//! Tests of a master by the public functions of `masters`, with servers that it tells. A crate with tests is proved
//! twice, so they stand here.
#![tactic(auto)]

#[cfg(test)]
mod link_tests;
#[cfg(test)]
mod master_tests;
