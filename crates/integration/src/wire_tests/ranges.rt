//! Fields out of their ranges.

use super::fronts::{Found, first_found};
use crate::making::{Fault, all_hold};
use std::alloc::Global;
use std::test::Fail;

/// A message of this kind, with an empty view and number 1, and these bytes after it.
pub(super) fn message(alloc: Global, kind: u8, behind: &[u8]) -> Result<Vec<u8>, Fault> {
    let mut text = Vec::new(alloc);
    text.extend_from_slice(&[2, kind, 0, 0, 0, 0, 0, 0, 0, 0, 0, 1])?;
    text.extend_from_slice(behind)?;
    Ok(text)
}

/// Bytes, after the first number of a message of some kind or after nothing, and what stands at the front then.
pub(super) type Row = (Option<u8>, &'static [u8], Found);

fn found_of(alloc: Global, kind: Option<u8>, bytes: &[u8]) -> Result<Found, Fault> {
    match kind {
        Some(kind) => {
            let text = message(alloc, kind, bytes)?;
            first_found(alloc, text.as_slice())
        }
        None => first_found(alloc, bytes),
    }
}

/// The first row with another front.
pub(super) fn other_front(alloc: Global, rows: &[Row]) -> Result<Option<usize>, Fault> {
    let mut place = 0_usize;
    for row in rows {
        let (kind, bytes, wanted) = *row;
        if found_of(alloc, kind, bytes)? != wanted {
            return Ok(Some(place));
        }
        place = place.wrapping_add(1);
    }
    Ok(None)
}

// After the number of a query.
static KEYS: [Row; 7] = [
    (Some(4), b"\x00", Found::Malformed),
    (Some(4), b"\x01\x20", Found::Malformed),
    (Some(4), b"\x01\x7f", Found::Malformed),
    (Some(4), b"\x01\x80", Found::Frame),
    (Some(4), b"\xfb", Found::Malformed),
    (Some(4), b"\xfaa", Found::Nothing),
    (Some(4), b"\xfaa ", Found::Malformed),
];

#[test]
fn keys_out_of_range(rt: HostRuntime) -> Result<(), Fail> {
    all_hold(other_front(rt.alloc(), &KEYS))
}

// After the id of an operation.
static OPERATIONS: [Row; 6] = [
    (Some(1), b"\x00\x07", Found::Malformed),
    (Some(1), b"\x00\x0a", Found::Frame),
    (Some(1), b"\x01a\x0a", Found::Malformed),
    (Some(1), b"\x01a\x00", Found::Malformed),
    (Some(1), b"\x01a\x09", Found::Frame),
    (Some(1), b"\x01a\x0b", Found::Malformed),
];

#[test]
fn operations_out_of_range(rt: HostRuntime) -> Result<(), Fail> {
    all_hold(other_front(rt.alloc(), &OPERATIONS))
}

// After the number of an entry.
static ENTRIES: [Row; 6] = [
    (Some(2), b"\x10", Found::Malformed),
    (
        Some(2),
        b"\x0f\x00\x00\x00\x00\x00\x00\x00\x01\x01a\x07",
        Found::Malformed,
    ),
    (
        Some(2),
        b"\x0f\x00\x00\x00\x00\x00\x00\x00\x01\x01a\x09\x00",
        Found::Frame,
    ),
    (
        Some(2),
        b"\x0f\x00\x00\x00\x00\x00\x00\x00\x01\x01a\x01\x03",
        Found::Malformed,
    ),
    (
        Some(2),
        b"\x0f\x00\x00\x00\x00\x00\x00\x00\x01\x00\x01",
        Found::Malformed,
    ),
    (
        Some(2),
        b"\x0f\x00\x00\x00\x00\x00\x00\x00\x01\x00\x0a\x00",
        Found::Malformed,
    ),
];

#[test]
fn entries_out_of_range(rt: HostRuntime) -> Result<(), Fail> {
    all_hold(other_front(rt.alloc(), &ENTRIES))
}

// A greeting, what masters send and are sent, or what is told of links.
static GREETINGS: [Row; 18] = [
    (None, b"\x02\x07\x00", Found::Malformed),
    (None, b"\x02\x07\x11", Found::Malformed),
    (
        None,
        b"\x02\x07\x10\xff\xff\xff\xff\xff\xff\xff\xff",
        Found::Nothing,
    ),
    (
        None,
        b"\x02\x07\x10\xff\xff\xff\xff\xff\xff\xff\xff\x00",
        Found::Malformed,
    ),
    (
        None,
        b"\x02\x07\x01\x00\x00\x00\x00\x00\x00\x00\x00\x01a",
        Found::Frame,
    ),
    (
        None,
        b"\x02\x08\xff\xff\xff\xff\xff\xff\xff\xff\xff\xff",
        Found::Frame,
    ),
    (None, b"\x02\x09\x00", Found::Malformed),
    (None, b"\x02\x09\x05", Found::Frame),
    (None, b"\x02\x09\x06", Found::Malformed),
    (None, b"\x02\x0a\x0f", Found::Frame),
    (None, b"\x02\x0a\x10", Found::Malformed),
    (
        None,
        b"\x02\x0e\xff\xff\xff\xff\xff\xff\xff\xff\x0f",
        Found::Frame,
    ),
    (
        None,
        b"\x02\x0e\xff\xff\xff\xff\xff\xff\xff\xff\x10",
        Found::Malformed,
    ),
    (
        None,
        b"\x02\x0b\xff\xff\xff\xff\xff\xff\xff\xff",
        Found::Frame,
    ),
    (
        None,
        b"\x02\x0f\xff\xff\xff\xff\xff\xff\xff\xff",
        Found::Frame,
    ),
    (
        None,
        b"\x02\x0f\x00\x00\x00\x00\x00\x00\x00\x00",
        Found::Frame,
    ),
    (None, b"\x02\x10\xff", Found::Nothing),
    (None, b"\x02\x10\xff\xff", Found::Frame),
];

#[test]
fn greetings_out_of_range(rt: HostRuntime) -> Result<(), Fail> {
    all_hold(other_front(rt.alloc(), &GREETINGS))
}

// A length above 1,048,576 is bad as soon as its four bytes are there, up to 2^32 - 1: no data is waited for.
static LENGTHS: [Row; 8] = [
    (Some(1), b"\x01a\x04\x00\x10\x00\x00", Found::Nothing),
    (Some(1), b"\x01a\x04\x00\x10\x00\x01", Found::Malformed),
    (Some(1), b"\x01a\x04\xff\xff\xff", Found::Nothing),
    (Some(1), b"\x01a\x04\xff\xff\xff\xff", Found::Malformed),
    (
        Some(2),
        b"\x0f\x00\x00\x00\x00\x00\x00\x00\x01\x01a\x01\x01\x00\x00\x00\x05\x00\x10\x00\x00",
        Found::Nothing,
    ),
    (
        Some(2),
        b"\x0f\x00\x00\x00\x00\x00\x00\x00\x01\x01a\x01\x01\x00\x00\x00\x05\x00\x10\x00\x01",
        Found::Malformed,
    ),
    (
        Some(2),
        b"\x0f\x00\x00\x00\x00\x00\x00\x00\x01\x01a\x01\x01\x00\x00\x00\x05\xff\xff\xff",
        Found::Nothing,
    ),
    (
        Some(2),
        b"\x0f\x00\x00\x00\x00\x00\x00\x00\x01\x01a\x01\x01\x00\x00\x00\x05\xff\xff\xff\xff",
        Found::Malformed,
    ),
];

#[test]
fn lengths_out_of_range(rt: HostRuntime) -> Result<(), Fail> {
    all_hold(other_front(rt.alloc(), &LENGTHS))
}
