//! Frames of watching, read from the front: what masters and the servers that they watch tell each other.
ghost use Rattle.wire.specs.Fronts.{Gives, alive_at, beat_at, silence_at, watching_at};

use crate::fields::{Stop, server_at, u16_at, u64_at};
use crate::link_fronts::link_at;
use crate::{Alive, Beat, Frame, Silent};

/// What is read after a kind from 11 on.
#[tactic(auto, unfolding(crate::specs::Fronts::watching_at))]
pub fn watching_at(kind: u8, bytes: &[u8]) -> Result<(Frame, &[u8]), Stop>
    ensures { Gives (λ x. (x.0, x.1.now)) result (watching_at kind bytes.now) }
{
    match kind {
        11 => {
            let (epoch, rest) = u64_at(bytes)?;
            Ok((Frame::Reign(epoch), rest))
        }
        12 => beat_at(bytes),
        13 => alive_at(bytes),
        14 => silence_at(bytes),
        _ => link_at(kind, bytes),
    }
}

// A beat.
#[tactic(auto, unfolding(crate::specs::Fronts::beat_at))]
fn beat_at(bytes: &[u8]) -> Result<(Frame, &[u8]), Stop>
    ensures { Gives (λ x. (x.0, x.1.now)) result (beat_at bytes.now) }
{
    let (epoch, rest) = u64_at(bytes)?;
    let (stamp, rest) = u64_at(rest)?;
    Ok((Frame::Beat(Beat { epoch, stamp }), rest))
}

// How a server is.
#[tactic(auto, unfolding(crate::specs::Fronts::alive_at))]
fn alive_at(bytes: &[u8]) -> Result<(Frame, &[u8]), Stop>
    ensures { Gives (λ x. (x.0, x.1.now)) result (alive_at bytes.now) }
{
    let (epoch, rest) = u64_at(bytes)?;
    let (stamp, rest) = u64_at(rest)?;
    let (end, rest) = u64_at(rest)?;
    let (term, rest) = u64_at(rest)?;
    let (gone, rest) = u16_at(rest)?;
    let (known, rest) = u16_at(rest)?;
    let alive = Alive {
        epoch,
        stamp,
        end,
        term,
        gone,
        known,
    };
    Ok((Frame::Alive(alive), rest))
}

// A notice of silence.
#[tactic(auto, unfolding(crate::specs::Fronts::silence_at))]
fn silence_at(bytes: &[u8]) -> Result<(Frame, &[u8]), Stop>
    ensures { Gives (λ x. (x.0, x.1.now)) result (silence_at bytes.now) }
{
    let (epoch, rest) = u64_at(bytes)?;
    let (id, rest) = server_at(rest)?;
    Ok((Frame::Silent(Silent { epoch, id }), rest))
}
