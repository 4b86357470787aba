//! What a master asks of each member in turn.

use crate::members::Members;

/// What a master asks of a member that counts, by its newest report.
#[derive(Clone, Copy)]
pub(crate) enum Question {
    /// Whether it is there at all.
    IsThere,
    /// Whether it hasn't told how it is.
    IsSilent,
    /// Whether it has switched.
    HasSwitched,
    /// Whether it told that it has accepted nothing.
    HasAcceptedNothing,
    /// Whether it hasn't told that it is ready to switch to these, with a table of so many updates.
    IsNotReady(Members, u64),
    /// Whether it hasn't told that it has switched to these.
    IsElsewhere(Members),
}
