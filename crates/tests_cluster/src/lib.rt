//! Tests of a cluster by the public functions of `craq_cluster`. A crate with tests is proved twice, so they stand
//! here.
#![tactic(auto)]

#[cfg(test)]
mod cluster_tests;
