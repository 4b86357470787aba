//! Rows as messages between servers: the entry that put an item.
ghost use Rattle.std.specs.Prelude.{◌≡◌, ◌≤◌, ◌++◌, OnOk, OnErr, IfOk, IfSome, IfNone, length};
ghost use Rattle.table.specs.Items.{limit};
ghost use Rattle.wire.specs.Spellings.{IsFrame, IsInRange, spelling};
ghost use Rattle.snapshots.specs.Rows.{IsRow, Row, entry_of, frame_of, row_spelling};

use bytes::BytesMut;
use node::{Body, Peer, View};
use std::alloc::{AllocError, Global};
use table::{Change, Item, Key, Reply, Target};
use versions::Entry;
use wire::{Frame, encode_onto};

// The message of a row.
fn frame_of(alloc: Global, key: &Key, item: &Item) -> Result<Frame, AllocError>
    requires numbered { 1 ≤ item.now.unique }
    requires fits { length item.now.bytes ≤ limit }
    ensures { IfOk result (λ frame. frame ≡ frame_of (key.now, item.now)) }
{
    let number = item.unique();
    let target = Target::One(key.clone()?);
    let change = Change::Put(item.clone()?);
    let entry = Entry::new(alloc, number, 0, number, target, Reply::Stored, change)?;
    Ok(Frame::Peer(Peer {
        view: View::empty(),
        body: Body::Forward(entry),
    }))
}

/// Writes the bytes of a row behind those of a buffer. Refused only if memory is out, and then they stay as they were.
#[tactic(auto, unfolding(crate::specs::Rows::row_spelling), using(crate::proofs::RowLaws::frame_row))]
pub fn write_row(
    alloc: Global,
    out: &mut BytesMut,
    key: &Key,
    item: &Item,
) -> Result<(), AllocError>
    requires numbered { 1 ≤ item.now.unique }
    requires fits { length item.now.bytes ≤ limit }
    ensures written { OnOk result (out.new.items ≡ out.old.items ++ row_spelling (key.now, item.now)) }
    ensures row { OnOk result (IsRow (key.now, item.now)) }
    ensures kept { OnErr result (out.new.items ≡ out.old.items) }
{
    let frame = frame_of(alloc, key, item)?;
    let written = write_frame(out, &frame);
    drop(frame);
    written
}

// Writes a frame, as its type keeps it.
fn write_frame(out: &mut BytesMut, frame: &Frame) -> Result<(), AllocError>
    requires range { IsInRange frame.now }
    ensures written { OnOk result (out.new.items ≡ out.old.items ++ spelling frame.now) }
    ensures frame { IsFrame frame.now }
    ensures kept { OnErr result (out.new.items ≡ out.old.items) }
{
    match encode_onto(out, frame) {
        Ok(()) => Ok(()),
        Err(_) => Err(AllocError),
    }
}

/// The row of a message, or none if it isn't one's.
pub fn row_in(frame: &Frame) -> Option<(&Key, &Item)>
    ensures row { IfSome result (λ row. frame.now ≡ frame_of (row.0.now, row.1.now)) }
    ensures none { IfNone result ((row : Row) → frame.now ≡ frame_of row → ⊥) }
{
    let Frame::Peer(peer) = frame else {
        return None;
    };
    if peer.view.bits() != 0 {
        return None;
    }
    let Body::Forward(entry) = &peer.body else {
        return None;
    };
    row_of(entry)
}

// The row that an entry put, or none if it isn't a row's.
fn row_of(entry: &Entry) -> Option<(&Key, &Item)>
    ensures row { IfSome result (λ row. entry.now ≡ entry_of (row.0.now, row.1.now)) }
    ensures none { IfNone result ((row : Row) → entry.now ≡ entry_of row → ⊥) }
{
    if entry.origin() != 0 || entry.id() != entry.number() {
        return None;
    }
    match (entry.target(), entry.reply(), entry.change()) {
        (Target::One(key), Reply::Stored, Change::Put(item)) => Some((key, item)),
        _ => None,
    }
}
