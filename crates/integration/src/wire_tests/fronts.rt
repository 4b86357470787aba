//! What stands at the front of some bytes.

use super::ranges::{Row, other_front};
use super::vectors::{VECTORS, spelled, vector};
use crate::making::{Fault, all_hold};
use std::alloc::Global;
use std::test::Fail;
use wire::{Frame, Frames, WireFault};

/// What stands at the front of some bytes.
#[derive(Clone, Copy, PartialEq)]
pub(super) enum Found {
    Frame,
    Nothing,
    Malformed,
    Old,
}

/// The next of a reader: whether it is a frame, and its spelling.
pub(super) fn next_found(
    alloc: Global,
    frames: &mut Frames,
    text: &mut Vec<u8>,
) -> Result<Found, Fault> {
    match frames.next() {
        Ok(next) => {
            let found = found_in(alloc, &next, text);
            drop(next);
            found
        }
        Err(WireFault::Malformed) => Ok(Found::Malformed),
        Err(WireFault::OldFormat) => Ok(Found::Old),
        Err(fault) => Err(fault.into()),
    }
}

fn found_in(alloc: Global, next: &Option<Frame>, text: &mut Vec<u8>) -> Result<Found, Fault> {
    match next {
        Some(frame) => {
            *text = spelled(alloc, frame)?;
            Ok(Found::Frame)
        }
        None => Ok(Found::Nothing),
    }
}

/// Whether the next of a reader is a frame of this spelling.
pub(super) fn is_next(alloc: Global, frames: &mut Frames, wanted: &[u8]) -> Result<bool, Fault> {
    let mut text = Vec::new(alloc);
    Ok(next_found(alloc, frames, &mut text)? == Found::Frame && text.as_slice() == wanted)
}

// What stands next, whatever its spelling.
fn kind_found(alloc: Global, frames: &mut Frames) -> Result<Found, Fault> {
    next_found(alloc, frames, &mut Vec::new(alloc))
}

pub(super) fn first_found(alloc: Global, bytes: &[u8]) -> Result<Found, Fault> {
    let mut frames = Frames::new(alloc);
    let found = found_after(alloc, &mut frames, bytes);
    drop(frames);
    found
}

fn found_after(alloc: Global, frames: &mut Frames, bytes: &[u8]) -> Result<Found, Fault> {
    frames.feed(bytes)?;
    kind_found(alloc, frames)
}

// Whether a stream that ends in any of a frame's fields holds no frame yet, and nothing bad.
fn is_nothing_if_cut(alloc: Global, frame: &[u8]) -> Result<bool, Fault> {
    for end in 0..frame.len() {
        let front = frame.get(..end).unwrap_or_default();
        if first_found(alloc, front)? != Found::Nothing {
            return Ok(false);
        }
    }
    Ok(true)
}

fn other_if_cut(alloc: Global, frames: &[&[u8]]) -> Result<Option<usize>, Fault> {
    let mut place = 0_usize;
    for frame in frames {
        if !is_nothing_if_cut(alloc, frame)? {
            return Ok(Some(place));
        }
        place = place.wrapping_add(1);
    }
    Ok(None)
}

#[test]
fn cut_vectors_are_nothing(rt: HostRuntime) -> Result<(), Fail> {
    all_hold(other_if_cut(rt.alloc(), &VECTORS))
}

// What stands there if this byte of the put's vector is 255, by the format.
fn with_255(place: usize) -> Found {
    match place {
        0 | 1 | 12 | 21 | 23 | 24 | 29 | 30 => Found::Malformed,
        31 | 32 => Found::Nothing,
        _ => Found::Frame,
    }
}

fn found_with_255(alloc: Global, text: &[u8], place: usize) -> Result<Found, Fault> {
    let mut text = Vec::from_slice(alloc, text)?;
    if let Some(byte) = text.get_mut(place) {
        *byte = 255;
    }
    first_found(alloc, text.as_slice())
}

// The first byte of the put's vector that makes another front if it is 255.
fn other_with_255(alloc: Global, text: &[u8]) -> Result<Option<usize>, Fault> {
    for place in 0..text.len() {
        if found_with_255(alloc, text, place)? != with_255(place) {
            return Ok(Some(place));
        }
    }
    Ok(None)
}

#[test]
fn each_byte_set_to_255(rt: HostRuntime) -> Result<(), Fail> {
    all_hold(other_with_255(rt.alloc(), vector(5)))
}

static FRONTS: [Row; 16] = [
    (None, b"", Found::Nothing),
    (None, b"\x02", Found::Nothing),
    (None, b"\x02\x03\x00\x00\x00", Found::Nothing),
    (None, b"\x01", Found::Old),
    (None, b"\x01\x07", Found::Old),
    (None, b"\x00", Found::Malformed),
    (None, b"\x03", Found::Malformed),
    (None, b"\xff", Found::Malformed),
    (None, b"\x02\x11", Found::Malformed),
    (None, b"\x02\x00\x10", Found::Frame),
    (None, b"\x02\x00\x11", Found::Malformed),
    (None, b"\x02\x06\x0f", Found::Frame),
    (None, b"\x02\x06\x10", Found::Malformed),
    (
        None,
        b"\x02\x04\x00\x00\x00\x00\x00\x00\x00\x00\x00",
        Found::Nothing,
    ),
    (
        None,
        b"\x02\x04\x00\x00\x00\x00\x00\x00\x00\x00\x00\x00",
        Found::Malformed,
    ),
    (
        None,
        b"\x02\x03\x00\x00\x00\x00\x00\x00\x00\x00\x00\x01",
        Found::Frame,
    ),
];

#[test]
fn fronts(rt: HostRuntime) -> Result<(), Fail> {
    all_hold(other_front(rt.alloc(), &FRONTS))
}

// Whether a stream takes no more bytes.
fn is_closed(frames: &mut Frames, bytes: &[u8]) -> bool {
    matches!(frames.feed(bytes), Err(WireFault::Closed))
}

// Whether a bad front is met at every call, and the stream takes no more bytes.
fn stays_ended(
    alloc: Global,
    frames: &mut Frames,
    bytes: &[u8],
    wanted: Found,
) -> Result<bool, Fault> {
    let mut ended = true;
    for _ in 0..3 {
        ended &= kind_found(alloc, frames)? == wanted;
        ended &= is_closed(frames, bytes);
    }
    Ok(ended)
}

// A frame, a byte after it, and what bad front that is.
type End = (&'static [u8], u8, Found);

static ENDS: [End; 2] = [
    (b"\x02\x00\x03", 1, Found::Old),
    (
        b"\x02\x03\x00\x00\x00\x00\x00\x00\x00\x00\x00\x01",
        3,
        Found::Malformed,
    ),
];

// Whether the frame is read, and then the bad front after it ends the stream.
fn ends(alloc: Global, frames: &mut Frames, end: End) -> Result<bool, Fault> {
    let (front, last, wanted) = end;
    frames.feed(front)?;
    frames.feed(&[last])?;
    Ok(is_next(alloc, frames, front)? && stays_ended(alloc, frames, front, wanted)?)
}

fn stream_ends(alloc: Global, end: End) -> Result<bool, Fault> {
    let mut frames = Frames::new(alloc);
    let ended = ends(alloc, &mut frames, end);
    drop(frames);
    ended
}

fn other_end(alloc: Global, rows: &[End]) -> Result<Option<usize>, Fault> {
    let mut place = 0_usize;
    for row in rows {
        if !stream_ends(alloc, *row)? {
            return Ok(Some(place));
        }
        place = place.wrapping_add(1);
    }
    Ok(None)
}

#[test]
fn streams_end(rt: HostRuntime) -> Result<(), Fail> {
    all_hold(other_end(rt.alloc(), &ENDS))
}
