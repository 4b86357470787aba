//! The program's version.

/// The version, as the parser prints it.
pub const VERSION: &str = "0.1.0";
