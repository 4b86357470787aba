//! Data of items: read where it lies, and copied once into a block of its own.
ghost use Rattle.std.specs.Prelude.{◌≤◌, length, IfOk};
ghost use Rattle.table.specs.Items.{limit};
ghost use Rattle.wire.specs.Fronts.{GivesOwned, block_at, flagged_at};

use crate::fields::{block_at, u32_at};
use crate::reading::ReadFault;
use std::alloc::Global;
use table::SharedBytes;

/// An item's data.
pub fn owned_block_at(alloc: Global, bytes: &[u8]) -> Result<(SharedBytes, &[u8]), ReadFault>
    ensures gives { GivesOwned (λ x. (x.0, x.1.now)) result (block_at bytes.now) }
    ensures within_limit { IfOk result (λ x. length x.0 ≤ limit) }
{
    let (data, rest) = block_at(bytes)?;
    let data = SharedBytes::copy_from_slice(alloc, data)?;
    Ok((data, rest))
}

/// An item's flags, and its data.
#[tactic(auto, unfolding(crate::specs::Fronts::flagged_at))]
pub fn owned_flagged_at(alloc: Global, bytes: &[u8]) -> Result<(u32, SharedBytes, &[u8]), ReadFault>
    ensures gives { GivesOwned (λ x. ((x.0, x.1), x.2.now)) result (flagged_at bytes.now) }
    ensures within_limit { IfOk result (λ x. length x.1 ≤ limit) }
{
    let (flags, rest) = u32_at(bytes)?;
    let (data, rest) = owned_block_at(alloc, rest)?;
    Ok((flags, data, rest))
}
