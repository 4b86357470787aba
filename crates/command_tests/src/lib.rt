//! Tests of the words of a command line (`command_line`), and of the commands that run a schedule (`commands`), by
//! public functions. A crate with tests is proved twice, so they stand here, and each library is proved once.
#![tactic(auto)]

#[cfg(test)]
mod command_line_tests;
#[cfg(test)]
mod commands_tests;
