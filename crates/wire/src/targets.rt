//! Targets of operations: a key's bytes where they lie, and a target of its own.
ghost use Rattle.std.specs.Prelude.{◌≡◌, IfOk, IfSome};
ghost use Rattle.std.specs.Option.{option_copied};
ghost use Rattle.table.specs.Keys.{IsKey};
ghost use Rattle.wire.specs.Fronts.{Gives, named, target_at};

use crate::fields::{Stop, byte_at, text_at};
use std::alloc::{AllocError, Global};
use table::{Key, Target};

/// A target: a key's bytes where they lie, or none for all keys.
#[tactic(auto, unfolding(crate::specs::Fronts::target_at))]
pub fn target_at(bytes: &[u8]) -> Result<(Option<&[u8]>, &[u8]), Stop>
    ensures gives { Gives (λ x. (named (option_copied x.0), x.1.now)) result (target_at bytes.now) }
    ensures key { IfOk result (λ x. IfSome x.0 (λ key. IsKey key.now)) }
{
    let (count, rest) = byte_at(bytes)?;
    let count = usize::from(count);
    if count > Key::MAX {
        return Err(Stop::Malformed);
    }
    if count == 0 {
        return Ok((None, rest));
    }
    let (key, rest) = text_at(count, rest)?;
    Ok((Some(key), rest))
}

/// A target of its own.
pub fn owned(alloc: Global, target: Option<&[u8]>) -> Result<Target, AllocError>
    requires { IfSome target (λ key. IsKey key.now) }
    ensures { IfOk result (λ owned. owned ≡ named (option_copied target.entry)) }
{
    match target {
        None => Ok(Target::All),
        Some(key) => Ok(Target::One(owned_key(alloc, key)?)),
    }
}

/// A key of its own.
pub fn owned_key(alloc: Global, bytes: &[u8]) -> Result<Key, AllocError>
    requires { IsKey bytes.now }
    ensures { IfOk result (λ key. key ≡ bytes.now) }
{
    match Key::new(alloc, bytes)? {
        Some(key) => Ok(key),
        None => unreachable!(),
    }
}
