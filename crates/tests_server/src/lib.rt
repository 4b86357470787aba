//! Tests of a server and of the scheduler of its turns, by the public functions of `craq_server` and `craq_process`. A
//! crate with tests is proved twice, so they stand here.
#![tactic(auto)]

#[cfg(test)]
mod server_tests;
