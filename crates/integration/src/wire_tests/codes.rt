//! Each operation, reply and change.

use super::fronts::is_next;
use super::ranges::message;
use crate::making::{Fault, all_hold};
use std::alloc::Global;
use std::test::Fail;
use wire::Frames;

// A kind of message, and what stands after its first number: after the id of each operation on a key, and after the
// number of entries with each reply and change.
type Row = (u8, &'static [u8]);

static CODES: [Row; 17] = [
    (1, b"\x01a\x01\x00\x00\x00\x07\x00\x00\x00\x01x"),
    (1, b"\x01a\x02\x00\x00\x00\x07\x00\x00\x00\x01x"),
    (1, b"\x01a\x03\xff\xff\xff\xff\x00\x00\x00\x00"),
    (1, b"\x01a\x04\x00\x00\x00\x02xy"),
    (1, b"\x01a\x05\x00\x00\x00\x02xy"),
    (
        1,
        b"\x01a\x06\x00\x00\x00\x07\xff\xff\xff\xff\xff\xff\xff\xff\x00\x00\x00\x01x",
    ),
    (1, b"\x01a\x07\x00\x00\x00\x00\x00\x00\x00\x09"),
    (1, b"\x01a\x08\x00\x00\x00\x00\x00\x00\x00\x09"),
    (1, b"\x01a\x09"),
    (2, b"\x03\x00\x00\x00\x00\x00\x00\x00\x09\x01k\x01\x00"),
    (2, b"\x03\x00\x00\x00\x00\x00\x00\x00\x09\x01k\x02\x00"),
    (2, b"\x03\x00\x00\x00\x00\x00\x00\x00\x09\x01k\x03\x00"),
    (2, b"\x03\x00\x00\x00\x00\x00\x00\x00\x09\x01k\x04\x02"),
    (2, b"\x03\x00\x00\x00\x00\x00\x00\x00\x09\x01k\x05\x02"),
    (
        2,
        b"\x03\x00\x00\x00\x00\x00\x00\x00\x09\x01k\x06\x00\x00\x00\x00\x00\x00\x01\x00\x00",
    ),
    (2, b"\x03\x00\x00\x00\x00\x00\x00\x00\x09\x01k\x08\x00"),
    (2, b"\x03\x00\x00\x00\x00\x00\x00\x00\x09\x01k\x09\x00"),
];

fn is_next_after(alloc: Global, frames: &mut Frames, text: &[u8]) -> Result<bool, Fault> {
    frames.feed(text)?;
    is_next(alloc, frames, text)
}

// Whether a message of this kind is read as it was written.
fn is_read_again(alloc: Global, kind: u8, behind: &[u8]) -> Result<bool, Fault> {
    let wanted = message(alloc, kind, behind)?;
    let mut frames = Frames::new(alloc);
    let read = is_next_after(alloc, &mut frames, wanted.as_slice());
    drop(frames);
    read
}

fn other_code(alloc: Global, rows: &[Row]) -> Result<Option<usize>, Fault> {
    let mut place = 0_usize;
    for row in rows {
        let (kind, behind) = *row;
        if !is_read_again(alloc, kind, behind)? {
            return Ok(Some(place));
        }
        place = place.wrapping_add(1);
    }
    Ok(None)
}

// Each operation, reply and change is read as it was written.
#[test]
fn all_codes(rt: HostRuntime) -> Result<(), Fail> {
    all_hold(other_code(rt.alloc(), &CODES))
}
