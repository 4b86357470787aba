//! Frames of links, read from the front: how far a link has come, and which links stand still.
ghost use Rattle.wire.specs.Fronts.{Gives, link_at};

use crate::Frame;
use crate::fields::{Stop, u16_at, u64_at};

/// What is read after a kind from 15 on.
#[tactic(auto, unfolding(crate::specs::Fronts::link_at))]
pub fn link_at(kind: u8, bytes: &[u8]) -> Result<(Frame, &[u8]), Stop>
    ensures { Gives (λ x. (x.0, x.1.now)) result (link_at kind bytes.now) }
{
    match kind {
        15 => {
            let (count, rest) = u64_at(bytes)?;
            Ok((Frame::Confirmed(count), rest))
        }
        16 => {
            let (servers, rest) = u16_at(bytes)?;
            Ok((Frame::Stalled(servers), rest))
        }
        _ => Err(Stop::Malformed),
    }
}
