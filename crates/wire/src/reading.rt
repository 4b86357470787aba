//! Frames read from the front. All of a frame is there and judged before any memory is asked for.
ghost use Rattle.std.specs.Prelude.{◌≡◌, ℕ, ◌<◌, slice_index};
ghost use Rattle.wire.specs.Fronts.{Gives, GivesOwned, ack_body_at, answer_body_at, body_at, format_at, front};
ghost use Rattle.wire.specs.Fronts.{message_at, of_kind_at, op_body_at, query_body_at};
ghost use Rattle.wire.specs.declared.reading.ReadFault.TheVariants.{Memory, Stopped};

use crate::Frame;
use crate::entries::forward_body_at;
use crate::fields::{Stop, byte_at, key_at, positive_at, server_at, u16_at, u64_at};
use crate::frames::{FORMAT, MASTER, OLD_FORMAT};
use crate::greeting_fronts::greeting_at;
use crate::operations::op_at;
use crate::targets::{owned, owned_key, target_at};
use node::{Body, Peer, View};
use std::alloc::{AllocError, Global};
use table::Call;

/// Why no frame is read from the front.
#[derive(Clone, Copy)]
pub enum ReadFault {
    /// A frame stands there, and there is no memory for it.
    Memory,
    /// None stands there.
    Stopped(Stop),
}

impl From<AllocError> for ReadFault {
    ghost from_gives = { λ _ e. e ≡ Memory };

    fn from(_e: AllocError) -> ReadFault {
        ReadFault::Memory
    }
}

impl From<Stop> for ReadFault {
    ghost from_gives = { λ stop e. e ≡ Stopped stop };

    fn from(stop: Stop) -> ReadFault {
        ReadFault::Stopped(stop)
    }
}

/// The frame at the front, and the bytes after it.
#[tactic(auto, unfolding(crate::specs::Fronts::front))]
pub fn front(alloc: Global, bytes: &[u8]) -> Result<(Frame, &[u8]), ReadFault>
    ensures gives { GivesOwned (λ x. (x.0, x.1.now)) result (front bytes.now) }
    // What is read are bytes.
    ensures bytes { (i : ℕ) → slice_index bytes.now i < 256 }
{
    let (_, rest) = format_at(bytes)?;
    let (kind, rest) = byte_at(rest)?;
    of_kind_at(alloc, kind, rest)
}

// The format's byte.
fn format_at(bytes: &[u8]) -> Result<(u8, &[u8]), Stop>
    ensures { Gives (λ x. (x.0, x.1.now)) result (format_at bytes.now) }
{
    let (format, rest) = byte_at(bytes)?;
    match format {
        OLD_FORMAT => Err(Stop::Old),
        FORMAT => Ok((format, rest)),
        _ => Err(Stop::Malformed),
    }
}

#[tactic(auto, unfolding(crate::specs::Fronts::of_kind_at))]
fn of_kind_at(alloc: Global, kind: u8, bytes: &[u8]) -> Result<(Frame, &[u8]), ReadFault>
    ensures { GivesOwned (λ x. (x.0, x.1.now)) result (of_kind_at kind bytes.now) }
{
    match kind {
        0 => {
            let (id, rest) = byte_at(bytes)?;
            if id > MASTER {
                return Err(ReadFault::Stopped(Stop::Malformed));
            }
            Ok((Frame::Hello(id), rest))
        }
        6 => {
            let (id, rest) = server_at(bytes)?;
            Ok((Frame::Gone(id), rest))
        }
        7.. => greeting_at(alloc, kind, bytes),
        _ => message_at(alloc, kind, bytes),
    }
}

// A message: the sender's view, and the body of a kind from 1 to 5.
#[tactic(auto, unfolding(crate::specs::Fronts::message_at))]
fn message_at(alloc: Global, kind: u8, bytes: &[u8]) -> Result<(Frame, &[u8]), ReadFault>
    ensures { GivesOwned (λ x. (x.0, x.1.now)) result (message_at kind bytes.now) }
{
    let (view, rest) = u16_at(bytes)?;
    let (body, rest) = body_at(alloc, kind, rest)?;
    let view = View::from_bits(view);
    Ok((Frame::Peer(Peer { view, body }), rest))
}

#[tactic(auto, unfolding(crate::specs::Fronts::body_at))]
fn body_at(alloc: Global, kind: u8, bytes: &[u8]) -> Result<(Body, &[u8]), ReadFault>
    ensures { GivesOwned (λ x. (x.0, x.1.now)) result (body_at kind bytes.now) }
{
    match kind {
        1 => op_body_at(alloc, bytes),
        2 => forward_body_at(alloc, bytes),
        3 => Ok(ack_body_at(bytes)?),
        4 => query_body_at(alloc, bytes),
        _ => Ok(answer_body_at(bytes)?),
    }
}

#[tactic(auto, unfolding(crate::specs::Fronts::op_body_at))]
fn op_body_at(alloc: Global, bytes: &[u8]) -> Result<(Body, &[u8]), ReadFault>
    ensures { GivesOwned (λ x. (x.0, x.1.now)) result (op_body_at bytes.now) }
{
    let (id, rest) = positive_at(bytes)?;
    let (target, rest) = target_at(rest)?;
    let (op, rest) = op_at(alloc, target.is_none(), rest)?;
    match owned(alloc, target) {
        Ok(target) => Ok((Body::Op(id, Call { target, op }), rest)),
        Err(_) => {
            drop(op);
            Err(ReadFault::Memory)
        }
    }
}

#[tactic(auto, unfolding(crate::specs::Fronts::ack_body_at))]
fn ack_body_at(bytes: &[u8]) -> Result<(Body, &[u8]), Stop>
    ensures { Gives (λ x. (x.0, x.1.now)) result (ack_body_at bytes.now) }
{
    let (n, rest) = u64_at(bytes)?;
    Ok((Body::Ack(n), rest))
}

#[tactic(auto, unfolding(crate::specs::Fronts::query_body_at))]
fn query_body_at(alloc: Global, bytes: &[u8]) -> Result<(Body, &[u8]), ReadFault>
    ensures { GivesOwned (λ x. (x.0, x.1.now)) result (query_body_at bytes.now) }
{
    let (ask, rest) = positive_at(bytes)?;
    let (key, rest) = key_at(rest)?;
    let key = owned_key(alloc, key)?;
    Ok((Body::Query(ask, key), rest))
}

#[tactic(auto, unfolding(crate::specs::Fronts::answer_body_at))]
fn answer_body_at(bytes: &[u8]) -> Result<(Body, &[u8]), Stop>
    ensures { Gives (λ x. (x.0, x.1.now)) result (answer_body_at bytes.now) }
{
    let (ask, rest) = positive_at(bytes)?;
    let (n, rest) = u64_at(rest)?;
    Ok((Body::Answer(ask, n), rest))
}
