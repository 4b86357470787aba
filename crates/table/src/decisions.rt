//! What one operation answers, and what it does with the item at its key.
ghost use Rattle.std.specs.Prelude.{◌≡◌, ◌≤◌, ◌++◌, ◌+◌, ◌<◌, length, IfOk};
ghost use Rattle.std.specs.Option.{option_copied};
ghost use Rattle.table.specs.Items.{limit};
ghost use Rattle.table.specs.declared.operations.Reply.TheVariants.{Stored};
ghost use Rattle.table.specs.Operations.{Fits};
ghost use Rattle.table.specs.Decisions.{decision, put, grown, raised, lowered, counted};
ghost use Rattle.table.specs.Numbers.{counter_of};

use crate::numbers::counter;
use crate::{Change, Item, LIMIT, Op, Reply, SharedBytes};
use itoa::Buffer;
use std::alloc::{AllocError, Global};

/// The reply to an operation at a key that has this item or none, and the change that it makes.
/// An item that is put has the number as its unique. The operation's data is not copied, save if it is joined with
/// the item's. Refused only when out of memory.
pub fn decide(
    alloc: Global,
    item: Option<&Item>,
    op: &Op,
    number: u64,
) -> Result<(Reply, Change), AllocError>
    requires fits { Fits op.now }
    requires numbered { 1 ≤ number }
    ensures decided { IfOk result (λ d. (d.0, d.1) ≡ decision (option_copied item.entry) op.now number) }
{
    match (op, item) {
        (Op::Read, item) => Ok((Reply::Value(copy_of(item)?), Change::Keep)),
        (Op::Set(flags, data), _)
        | (Op::Add(flags, data), None)
        | (Op::Replace(flags, data), Some(_)) => { stored(alloc, *flags, data.clone()?, number) }
        (Op::Add(..), Some(_)) | (Op::Replace(..) | Op::Append(_) | Op::Prepend(_), None) => {
            Ok((Reply::NotStored, Change::Keep))
        }
        (Op::Append(data), Some(old)) => grown(alloc, old.flags(), old.bytes(), data, number),
        (Op::Prepend(data), Some(old)) => grown(alloc, old.flags(), data, old.bytes(), number),
        (Op::Cas(flags, data, unique), Some(old)) => {
            if old.unique() == *unique {
                stored(alloc, *flags, data.clone()?, number)
            } else {
                Ok((Reply::Exists, Change::Keep))
            }
        }
        (Op::Incr(amount), Some(old)) => raised(alloc, old, *amount, number),
        (Op::Decr(amount), Some(old)) => lowered(alloc, old, *amount, number),
        (Op::Delete, Some(_)) => Ok((Reply::Deleted, Change::Drop)),
        (Op::Cas(..) | Op::Incr(_) | Op::Decr(_) | Op::Delete, None) => {
            Ok((Reply::NotFound, Change::Keep))
        }
        (Op::Flush, _) => Ok((Reply::Flushed, Change::Clear)),
    }
}

fn copy_of(item: Option<&Item>) -> Result<Option<Item>, AllocError>
    ensures { IfOk result (λ copy. copy ≡ option_copied item.entry) }
{
    match item {
        Some(item) => Ok(Some(item.clone()?)),
        None => Ok(None),
    }
}

// An item is put.
fn stored(
    alloc: Global,
    flags: u32,
    bytes: SharedBytes,
    number: u64,
) -> Result<(Reply, Change), AllocError>
    ensures reply { IfOk result (λ d. d.0 ≡ Stored) }
    ensures change { IfOk result (λ d. d.1 ≡ put flags bytes number) }
{
    Ok((Reply::Stored, put(alloc, flags, bytes, number)?))
}

fn put(alloc: Global, flags: u32, bytes: SharedBytes, number: u64) -> Result<Change, AllocError>
    ensures { IfOk result (λ change. change ≡ put flags bytes number) }
{
    Ok(Change::Put(Item::new(alloc, flags, bytes, number)?))
}

// An item of these two pieces of data, one after the other, if it isn't too large.
fn grown(
    alloc: Global,
    flags: u32,
    front: &SharedBytes,
    back: &SharedBytes,
    number: u64,
) -> Result<(Reply, Change), AllocError>
    ensures { IfOk result (λ d. (d.0, d.1) ≡ grown flags (front.now ++ back.now) number) }
{
    let room = front.len() <= LIMIT && back.len() <= LIMIT - front.len();
    if !room {
        return Ok((Reply::TooLarge, Change::Keep));
    }
    let data = joined(alloc, front.as_slice(), back.as_slice())?;
    stored(alloc, flags, data, number)
}

// One block of both pieces, each copied once.
fn joined(alloc: Global, front: &[u8], back: &[u8]) -> Result<SharedBytes, AllocError>
    requires within_limit { length front.now + length back.now ≤ limit }
    ensures { IfOk result (λ bytes. bytes ≡ front.now ++ back.now) }
{
    let mut data = Vec::with_capacity(alloc, front.len() + back.len())?;
    data.extend_from_slice(front)?;
    data.extend_from_slice(back)?;
    SharedBytes::from_vec(data)
}

fn raised(
    alloc: Global,
    old: &Item,
    amount: u64,
    number: u64,
) -> Result<(Reply, Change), AllocError>
    ensures { IfOk result (λ d. (d.0, d.1) ≡ raised old.now.flags (counter_of old.now.bytes) amount number) }
{
    match counter(old.bytes().as_slice()) {
        Some(value) => counted(alloc, old.flags(), value.wrapping_add(amount), number),
        None => Ok((Reply::NotNumber, Change::Keep)),
    }
}

fn lowered(
    alloc: Global,
    old: &Item,
    amount: u64,
    number: u64,
) -> Result<(Reply, Change), AllocError>
    ensures { IfOk result (λ d. (d.0, d.1) ≡ lowered old.now.flags (counter_of old.now.bytes) amount number) }
{
    match counter(old.bytes().as_slice()) {
        Some(value) => counted(alloc, old.flags(), value.saturating_sub(amount), number),
        None => Ok((Reply::NotNumber, Change::Keep)),
    }
}

fn counted(
    alloc: Global,
    flags: u32,
    value: u64,
    number: u64,
) -> Result<(Reply, Change), AllocError>
    ensures { IfOk result (λ d. (d.0, d.1) ≡ counted flags value number) }
{
    let digits = SharedBytes::copy_from_slice(alloc, Buffer::new().format(value).as_bytes())?;
    Ok((Reply::Number(value), put(alloc, flags, digits, number)?))
}
