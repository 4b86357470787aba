//! The exit statuses of the program.

/// All was done.
pub const DONE: u8 = 0;

/// What was asked for failed, or its output.
pub const FAILED: u8 = 1;

/// The arguments are no command.
pub const USAGE: u8 = 2;

/// No memory was left.
pub const MEMORY: u8 = 3;

/// A server that was called gone.
pub const GONE: u8 = 4;
