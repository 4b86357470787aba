//! Frames of greetings, read from the front: what the opener tells of its chain, and what is answered.
ghost use Rattle.wire.specs.Fronts.{Gives, GivesOwned, acceptance_at, byte_at, greeting_at, introduction_at};
ghost use Rattle.wire.specs.Fronts.{refusal_at, refusal_of_at};
ghost use Rattle.wire.specs.Grammar.{is_server_count};

use crate::fields::{Stop, byte_at, key_at, server_at, u16_at, u64_at};
use crate::reading::ReadFault;
use crate::targets::owned_key;
use crate::watching_fronts::watching_at;
use crate::{Acceptance, Frame, Introduction, Reason};
use node::SERVERS;
use std::alloc::Global;

/// What is read after a kind from 7 on.
#[tactic(auto, unfolding(crate::specs::Fronts::greeting_at))]
pub fn greeting_at(alloc: Global, kind: u8, bytes: &[u8]) -> Result<(Frame, &[u8]), ReadFault>
    ensures { GivesOwned (λ x. (x.0, x.1.now)) result (greeting_at kind bytes.now) }
{
    match kind {
        7 => introduction_at(alloc, bytes),
        8 => Ok(acceptance_at(bytes)?),
        9 => Ok(refusal_at(bytes)?),
        10 => {
            let (id, rest) = server_at(bytes)?;
            Ok((Frame::Noted(id), rest))
        }
        _ => Ok(watching_at(kind, bytes)?),
    }
}

// What the opener tells of its chain.
#[tactic(auto, unfolding(crate::specs::Fronts::introduction_at))]
fn introduction_at(alloc: Global, bytes: &[u8]) -> Result<(Frame, &[u8]), ReadFault>
    ensures { GivesOwned (λ x. (x.0, x.1.now)) result (introduction_at bytes.now) }
{
    let (servers, rest) = servers_at(bytes)?;
    let (start, rest) = u64_at(rest)?;
    let (chain, rest) = key_at(rest)?;
    let chain = owned_key(alloc, chain)?;
    let opener = Introduction {
        servers,
        start,
        chain,
    };
    Ok((Frame::Introduction(opener), rest))
}

// How many servers a chain has.
fn servers_at(bytes: &[u8]) -> Result<(u8, &[u8]), Stop>
    ensures { Gives (λ x. (x.0, x.1.now)) result (byte_at is_server_count bytes.now) }
{
    let (servers, rest) = byte_at(bytes)?;
    if servers < 1 || servers > SERVERS {
        return Err(Stop::Malformed);
    }
    Ok((servers, rest))
}

// What the acceptor tells of itself.
#[tactic(auto, unfolding(crate::specs::Fronts::acceptance_at))]
fn acceptance_at(bytes: &[u8]) -> Result<(Frame, &[u8]), Stop>
    ensures { Gives (λ x. (x.0, x.1.now)) result (acceptance_at bytes.now) }
{
    let (start, rest) = u64_at(bytes)?;
    let (gone, rest) = u16_at(rest)?;
    Ok((Frame::Accepted(Acceptance { start, gone }), rest))
}

// Why the acceptor doesn't take a connection.
#[tactic(auto, unfolding(crate::specs::Fronts::refusal_at))]
fn refusal_at(bytes: &[u8]) -> Result<(Frame, &[u8]), Stop>
    ensures { Gives (λ x. (x.0, x.1.now)) result (refusal_at bytes.now) }
{
    let (code, rest) = byte_at(bytes)?;
    refusal_of_at(code, rest)
}

// The reason of a code.
#[tactic(auto, unfolding(crate::specs::Fronts::refusal_of_at))]
fn refusal_of_at(code: u8, bytes: &[u8]) -> Result<(Frame, &[u8]), Stop>
    ensures { Gives (λ x. (x.0, x.1.now)) result (refusal_of_at code bytes.now) }
{
    let reason = match code {
        1 => Reason::Servers,
        2 => Reason::Chain,
        3 => Reason::Taken,
        4 => Reason::Gone,
        5 => Reason::Format,
        _ => return Err(Stop::Malformed),
    };
    Ok((Frame::Refused(reason), bytes))
}
