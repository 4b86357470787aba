//! Entries of the log: the body of a forward, with its reply and its change.
ghost use Rattle.std.specs.Prelude.{◌≡◌, false, IfOk};
ghost use Rattle.table.specs.Operations.{is_value};
ghost use Rattle.versions.specs.Entries.{PutsOwn, is_clear, is_flushed};
ghost use Rattle.wire.specs.Fronts.{Gives, GivesOwned, change_at, key_change_at, forward_body_at};
ghost use Rattle.wire.specs.Fronts.{key_reply_at, reply_at};

use crate::blocks::owned_flagged_at;
use crate::fields::{Stop, byte_at, positive_at, server_at, u64_at};
use crate::reading::ReadFault;
use crate::targets::{owned, target_at};
use node::Body;
use std::alloc::Global;
use table::{Change, Item, Reply};
use versions::Entry;

/// The body of a forward: an entry.
#[tactic(auto, unfolding(crate::specs::Fronts::forward_body_at))]
pub fn forward_body_at(alloc: Global, bytes: &[u8]) -> Result<(Body, &[u8]), ReadFault>
    ensures { GivesOwned (λ x. (x.0, x.1.now)) result (forward_body_at bytes.now) }
{
    let (number, rest) = positive_at(bytes)?;
    let (origin, rest) = server_at(rest)?;
    let (id, rest) = positive_at(rest)?;
    let (target, rest) = target_at(rest)?;
    let (reply, rest) = reply_at(target.is_none(), rest)?;
    let (change, rest) = match change_at(alloc, target.is_none(), number, rest) {
        Ok(read) => read,
        Err(fault) => {
            drop(reply);
            return Err(fault);
        }
    };
    match owned(alloc, target) {
        Ok(target) => {
            let entry = Entry::new(alloc, number, origin, id, target, reply, change)?;
            Ok((Body::Forward(entry), rest))
        }
        Err(_) => {
            drop(reply);
            drop(change);
            Err(ReadFault::Memory)
        }
    }
}

#[tactic(auto, unfolding(crate::specs::Fronts::reply_at))]
fn reply_at(all: bool, bytes: &[u8]) -> Result<(Reply, &[u8]), Stop>
    ensures gives { Gives (λ x. (x.0, x.1.now)) result (reply_at all bytes.now) }
    ensures no_item { IfOk result (λ x. is_value x.0 ≡ false) }
    ensures flushed { IfOk result (λ x. is_flushed x.0 ≡ all) }
{
    let (code, rest) = byte_at(bytes)?;
    if !all {
        return key_reply_at(code, rest);
    }
    if code != 10 {
        return Err(Stop::Malformed);
    }
    Ok((Reply::Flushed, rest))
}

// What stands after the code of a reply to an operation on a key.
#[tactic(auto, unfolding(crate::specs::Fronts::key_reply_at))]
fn key_reply_at(code: u8, bytes: &[u8]) -> Result<(Reply, &[u8]), Stop>
    ensures gives { Gives (λ x. (x.0, x.1.now)) result (key_reply_at code bytes.now) }
    ensures no_item { IfOk result (λ x. is_value x.0 ≡ false) }
    ensures not_flushed { IfOk result (λ x. is_flushed x.0 ≡ false) }
{
    match code {
        1 => Ok((Reply::Stored, bytes)),
        2 => Ok((Reply::NotStored, bytes)),
        3 => Ok((Reply::Exists, bytes)),
        4 => Ok((Reply::NotFound, bytes)),
        5 => Ok((Reply::Deleted, bytes)),
        6 => {
            let (number, rest) = u64_at(bytes)?;
            Ok((Reply::Number(number), rest))
        }
        8 => Ok((Reply::TooLarge, bytes)),
        9 => Ok((Reply::NotNumber, bytes)),
        _ => Err(Stop::Malformed),
    }
}

// The change of the entry of this number.
#[tactic(auto, unfolding(crate::specs::Fronts::change_at))]
fn change_at(
    alloc: Global,
    all: bool,
    number: u64,
    bytes: &[u8],
) -> Result<(Change, &[u8]), ReadFault>
    ensures gives { GivesOwned (λ x. (x.0, x.1.now)) result (change_at all number bytes.now) }
    ensures put { IfOk result (λ x. PutsOwn number x.0) }
    ensures cleared { IfOk result (λ x. is_clear x.0 ≡ all) }
{
    let (code, rest) = byte_at(bytes)?;
    if !all {
        return key_change_at(alloc, number, code, rest);
    }
    if code != 3 {
        return Err(ReadFault::Stopped(Stop::Malformed));
    }
    Ok((Change::Clear, rest))
}

// What stands after the code of a change at a key. A put item's unique is its entry's number.
#[tactic(auto, unfolding(crate::specs::Fronts::key_change_at))]
fn key_change_at(
    alloc: Global,
    number: u64,
    code: u8,
    bytes: &[u8],
) -> Result<(Change, &[u8]), ReadFault>
    ensures gives { GivesOwned (λ x. (x.0, x.1.now)) result (key_change_at number code bytes.now) }
    ensures put { IfOk result (λ x. PutsOwn number x.0) }
    ensures not_cleared { IfOk result (λ x. is_clear x.0 ≡ false) }
{
    match code {
        0 => Ok((Change::Keep, bytes)),
        1 => {
            let (flags, bytes, rest) = owned_flagged_at(alloc, bytes)?;
            let item = Item::new(alloc, flags, bytes, number)?;
            Ok((Change::Put(item), rest))
        }
        2 => Ok((Change::Drop, bytes)),
        _ => Err(ReadFault::Stopped(Stop::Malformed)),
    }
}
