//! Why a server can't be opened.

use thiserror::Error;

/// Why a server can't be opened.
#[derive(Clone, Copy, Debug, PartialEq, Eq, Error)]
pub enum OpenFault {
    /// No memory was left.
    #[error("out of memory")]
    Memory,
    /// The chain has no such server.
    #[error("run failed")]
    Run,
}
