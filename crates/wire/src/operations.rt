//! Operations: what an update call does.
ghost use Rattle.std.specs.Prelude.{◌≡◌, ◌==◌, if◌then◌else◌};
ghost use Rattle.table.specs.declared.operations.Op.TheVariants.{Add, Append, Decr, Incr, Prepend, Replace, Set};
ghost use Rattle.wire.specs.Fronts.{GivesOwned, op_at, key_operation_at};

use crate::blocks::{owned_block_at, owned_flagged_at};
use crate::fields::{Stop, byte_at, u32_at, u64_at};
use crate::reading::ReadFault;
use std::alloc::Global;
use table::{Op, SharedBytes};

/// An operation on all keys, or on one.
#[tactic(auto, unfolding(crate::specs::Fronts::op_at))]
pub fn op_at(alloc: Global, all: bool, bytes: &[u8]) -> Result<(Op, &[u8]), ReadFault>
    ensures { GivesOwned (λ x. (x.0, x.1.now)) result (op_at all bytes.now) }
{
    let (code, rest) = byte_at(bytes)?;
    if !all {
        return key_operation_at(alloc, code, rest);
    }
    if code != 10 {
        return Err(ReadFault::Stopped(Stop::Malformed));
    }
    Ok((Op::Flush, rest))
}

// What stands after the code of an operation on a key.
#[tactic(auto, unfolding(crate::specs::Fronts::key_operation_at))]
fn key_operation_at(alloc: Global, code: u8, bytes: &[u8]) -> Result<(Op, &[u8]), ReadFault>
    ensures { GivesOwned (λ x. (x.0, x.1.now)) result (key_operation_at code bytes.now) }
{
    match code {
        1..=3 => {
            let (flags, data, rest) = owned_flagged_at(alloc, bytes)?;
            Ok((flagged_operation(code, flags, data), rest))
        }
        4..=5 => {
            let (data, rest) = owned_block_at(alloc, bytes)?;
            Ok((joining_operation(code, data), rest))
        }
        6 => {
            let (flags, rest) = u32_at(bytes)?;
            let (unique, rest) = u64_at(rest)?;
            let (data, rest) = owned_block_at(alloc, rest)?;
            Ok((Op::Cas(flags, data, unique), rest))
        }
        7..=8 => {
            let (amount, rest) = u64_at(bytes)?;
            Ok((counter_operation(code, amount), rest))
        }
        9 => Ok((Op::Delete, bytes)),
        _ => Err(ReadFault::Stopped(Stop::Malformed)),
    }
}

// The operation of a code with flags and data, 1 to 3.
fn flagged_operation(code: u8, flags: u32, block: SharedBytes) -> Op
    ensures { result
        ≡ (if code == 1 then Set flags block else if code == 2 then Add flags block else Replace flags block) }
{
    match code {
        1 => Op::Set(flags, block),
        2 => Op::Add(flags, block),
        _ => Op::Replace(flags, block),
    }
}

// The operation of a code with data alone, 4 or 5.
fn joining_operation(code: u8, block: SharedBytes) -> Op
    ensures { result ≡ (if code == 4 then Append block else Prepend block) }
{
    match code {
        4 => Op::Append(block),
        _ => Op::Prepend(block),
    }
}

// The operation of a code with an amount, 7 or 8.
fn counter_operation(code: u8, amount: u64) -> Op
    ensures { result ≡ (if code == 7 then Incr amount else Decr amount) }
{
    match code {
        7 => Op::Incr(amount),
        _ => Op::Decr(amount),
    }
}
