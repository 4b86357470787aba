//! What is refused of the other end of a link.

use thiserror::Error;

/// Why a receiver's word is refused. Nothing has changed then.
#[derive(Clone, Copy, Debug, Drop, Eq, Error, PartialEq)]
pub enum StreamFault {
    /// It is another start of the server.
    #[error("the server was started anew")]
    OtherStart,
    /// It goes on before what it has confirmed: these bytes are no longer kept.
    #[error("bytes that were confirmed")]
    Confirmed,
    /// It counts bytes that no connection took, or that this one didn't take.
    #[error("bytes that were not sent")]
    Unsent,
}
