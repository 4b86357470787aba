//! The nineteen vectors, both ways.

use crate::making::{Fault, all_hold, holds, key, on};
use bytes::BytesMut;
use node::{Body, Peer, View};
use std::alloc::Global;
use std::test::Fail;
use table::{Call, Change, Item, Op, Reply, SharedBytes, Target};
use versions::Entry;
use wire::{
    Acceptance, Alive, Beat, Frame, Frames, Introduction, Reason, Silent, encode, encode_onto,
};

/// A message of this view.
pub(super) fn says(view: u16, body: Body) -> Frame {
    Frame::Peer(Peer {
        view: View::from_bits(view),
        body,
    })
}

/// The frame's spelling, of a frame in its ranges.
pub(super) fn spelled(alloc: Global, frame: &Frame) -> Result<Vec<u8>, Fault> {
    if !frame.is_in_range() {
        return Err(Fault::Refused);
    }
    Ok(encode(alloc, frame)?)
}

/// The vectors.
pub(super) static VECTORS: [&[u8]; 19] = [
    b"\x02\x00\x03",
    b"\x02\x03\x00\x00\x00\x00\x00\x00\x00\x00\x00\x01",
    b"\x02\x04\x00\x00\x00\x00\x00\x00\x00\x00\x00\x01\x01a",
    b"\x02\x05\x00\x00\x00\x00\x00\x00\x00\x00\x00\x01\x00\x00\x00\x00\x00\x00\x00\x00",
    b"\x02\x01\x00\x01\x00\x00\x00\x00\x00\x00\x00\x02\x01n\x07\x00\x00\x00\x00\x00\x00\x00\x01",
    b"\x02\x02\x00\x00\x00\x00\x00\x00\x00\x00\x00\x01\x00\x00\x00\x00\x00\x00\x00\x00\x01\x01a\x01\x01\x00\x00\x00\x05\x00\x00\x00\x03xyz",
    b"\x02\x06\x05",
    b"\x02\x01\x00\x00\x00\x00\x00\x00\x00\x00\x00\x03\x00\x0a",
    b"\x02\x02\x00\x00\x00\x00\x00\x00\x00\x00\x00\x04\x01\x00\x00\x00\x00\x00\x00\x00\x02\x00\x0a\x03",
    b"\x02\x07\x03\x00\x00\x00\x00\x00\x00\x01\x02\x05cache",
    b"\x02\x08\x00\x00\x00\x00\x00\x00\x01\x02\x02\x01",
    b"\x02\x09\x03",
    b"\x02\x0a\x05",
    b"\x02\x0b\x00\x00\x00\x00\x00\x00\x01\x02",
    b"\x02\x0c\x00\x00\x00\x00\x00\x00\x01\x02\x00\x00\x00\x00\x00\x00\x02\x03",
    b"\x02\x0d\x00\x00\x00\x00\x00\x00\x01\x02\x00\x00\x00\x00\x00\x00\x02\x03\x00\x00\x00\x00\x00\x00\x03\x04\x00\x00\x00\x00\x00\x00\x04\x05\x02\x01\x02\x00",
    b"\x02\x0e\x00\x00\x00\x00\x00\x00\x01\x02\x05",
    b"\x02\x0f\x00\x00\x00\x00\x00\x00\x00\x07",
    b"\x02\x10\x00\x05",
];

/// The bytes of the vector at this place.
pub(super) fn vector(place: usize) -> &'static [u8] {
    match VECTORS.get(place) {
        Some(text) => text,
        None => b"",
    }
}

// The frame of the vector at this place.
fn frame_at(alloc: Global, place: usize) -> Result<Frame, Fault> {
    match place {
        0 => Ok(Frame::Hello(3)),
        1 => Ok(says(0, Body::Ack(1))),
        2 => Ok(says(0, Body::Query(1, key(alloc, b"a")?))),
        3 => Ok(says(0, Body::Answer(1, 0))),
        4 => Ok(says(1, Body::Op(2, on(key(alloc, b"n")?, Op::Incr(1))))),
        5 => Ok(says(0, Body::Forward(three_bytes_put(alloc)?))),
        6 => Ok(Frame::Gone(5)),
        7 => Ok(says(0, Body::Op(3, flush()))),
        8 => Ok(says(0, Body::Forward(clear(alloc)?))),
        9 => introduced(alloc),
        10 => Ok(accepted()),
        11 => Ok(Frame::Refused(Reason::Taken)),
        12 => Ok(Frame::Noted(5)),
        17 => Ok(Frame::Confirmed(7)),
        18 => Ok(Frame::Stalled(5)),
        _ => Ok(watching_at(place)),
    }
}

// Of epoch 258 and server 5, and of a server whose clock shows 515, and whose lease of 1,029 ends at 772, when servers
// 0 and 9 have failed: of server 9 it knew that while its lease held.
fn watching_at(place: usize) -> Frame {
    match place {
        13 => Frame::Reign(258),
        14 => Frame::Beat(Beat {
            epoch: 258,
            stamp: 515,
        }),
        15 => Frame::Alive(Alive {
            epoch: 258,
            stamp: 515,
            end: 772,
            term: 1029,
            gone: 513,
            known: 512,
        }),
        _ => Frame::Silent(Silent { epoch: 258, id: 5 }),
    }
}

// Of the chain `cache` of 3 servers, and the opener's start 258.
fn introduced(alloc: Global) -> Result<Frame, Fault> {
    Ok(Frame::Introduction(Introduction {
        servers: 3,
        start: 258,
        chain: key(alloc, b"cache")?,
    }))
}

// At the acceptor's start 258, when the servers 0 and 9 have failed.
fn accepted() -> Frame {
    Frame::Accepted(Acceptance {
        start: 258,
        gone: 513,
    })
}

fn flush() -> Call {
    Call {
        target: Target::All,
        op: Op::Flush,
    }
}

// Entry 4, of server 1 and its call 2.
fn clear(alloc: Global) -> Result<Entry, Fault> {
    Ok(Entry::new(alloc, 4, 1, 2, Target::All, Reply::Flushed, Change::Clear)?)
}

// Entry 1, of server 0 and its call 1.
fn three_bytes_put(alloc: Global) -> Result<Entry, Fault> {
    let bytes = SharedBytes::copy_from_slice(alloc, b"xyz")?;
    let target = Target::One(key(alloc, b"a")?);
    let item = Item::new(alloc, 5, bytes, 1)?;
    Ok(Entry::new(alloc, 1, 0, 1, target, Reply::Stored, Change::Put(item))?)
}

// Whether the frame is written as these bytes, alone and after itself.
fn is_written(alloc: Global, frame: &Frame, wanted: &[u8]) -> Result<bool, Fault> {
    let alone = spelled(alloc, frame)?;
    Ok(alone.as_slice() == wanted && is_written_behind(alloc, frame, wanted)?)
}

fn is_written_behind(alloc: Global, frame: &Frame, wanted: &[u8]) -> Result<bool, Fault> {
    let out = put_twice(alloc, frame)?;
    let behind = out.as_slice().get(wanted.len()..).unwrap_or_default();
    Ok(behind == wanted)
}

fn put_twice(alloc: Global, frame: &Frame) -> Result<BytesMut, Fault> {
    let mut out = BytesMut::new(alloc);
    put_behind(&mut out, frame)?;
    put_behind(&mut out, frame)?;
    Ok(out)
}

// Whether this is what the frame of the vector at this place is written as.
fn is_vector_written(alloc: Global, place: usize, wanted: &[u8]) -> Result<bool, Fault> {
    let frame = frame_at(alloc, place)?;
    let written = is_written(alloc, &frame, wanted);
    drop(frame);
    written
}

fn other_vector(alloc: Global, vectors: &[&[u8]]) -> Result<Option<usize>, Fault> {
    let mut place = 0_usize;
    for text in vectors {
        if !is_vector_written(alloc, place, text)? {
            return Ok(Some(place));
        }
        place = place.wrapping_add(1);
    }
    Ok(None)
}

#[test]
fn vectors_are_written(rt: HostRuntime) -> Result<(), Fail> {
    all_hold(other_vector(rt.alloc(), &VECTORS))
}

fn put_behind(out: &mut BytesMut, frame: &Frame) -> Result<(), Fault> {
    if !frame.is_in_range() {
        return Err(Fault::Refused);
    }
    Ok(encode_onto(out, frame)?)
}

fn is_three_bytes_put(entry: &Entry) -> bool {
    let Change::Put(item) = entry.change() else {
        return false;
    };
    entry.number() == 1
        && entry.origin() == 0
        && entry.id() == 1
        && matches!(entry.reply(), Reply::Stored)
        && is_xyz(item)
}

fn is_xyz(item: &Item) -> bool {
    item.flags() == 5 && item.unique() == 1 && item.bytes().as_slice() == b"xyz".as_slice()
}

fn is_clear(entry: &Entry) -> bool {
    entry.number() == 4
        && entry.origin() == 1
        && entry.id() == 2
        && matches!(entry.target(), Target::All)
        && matches!(entry.reply(), Reply::Flushed)
        && matches!(entry.change(), Change::Clear)
}

// Whether a frame forwards the entry of the vector at this place.
fn holds_entry(next: &Option<Frame>, place: usize) -> bool {
    match next {
        Some(
            Frame::Peer(
                Peer {
                    body: Body::Forward(entry),
                    ..
                },
            ),
        ) => match place {
            5 => is_three_bytes_put(entry),
            8 => is_clear(entry),
            _ => false,
        },
        _ => false,
    }
}

fn reads_entry(frames: &mut Frames, place: usize) -> Result<bool, Fault> {
    frames.feed(vector(place))?;
    let next = frames.next()?;
    let held = holds_entry(&next, place);
    drop(next);
    Ok(held)
}

// Whether the entry of the vector at this place is read.
fn is_entry_read(alloc: Global, place: usize) -> Result<bool, Fault> {
    let mut frames = Frames::new(alloc);
    let read = reads_entry(&mut frames, place);
    drop(frames);
    read
}

fn are_entries_read(alloc: Global) -> Result<bool, Fault> {
    Ok(is_entry_read(alloc, 5)? && is_entry_read(alloc, 8)?)
}

// What is read is the frame of the vector, field by field.
#[test]
fn fields_are_read(rt: HostRuntime) -> Result<(), Fail> {
    holds(are_entries_read(rt.alloc()))
}
