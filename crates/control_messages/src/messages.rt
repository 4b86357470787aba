//! What masters, members and an operator's `status` tell each other.

use chain_status::ServerReport;
use seals::Marker;
use successions::{Order, Report};

/// What is told beside the chain's own messages.
#[derive(Clone, Copy)]
pub enum ControlMessage {
    /// A master tells members of a generation what to do.
    Order(Order),
    /// A member reports to a master how it is.
    Report(Report),
    /// A member tells a peer how far it had come, behind all that it sent before.
    Marker(Marker),
    /// A server is asked how it is.
    StatusQuestion,
    /// A server says how it is.
    Status(ServerReport),
}
