//! Frames one after another, read in pieces of any size.
ghost use Rattle.std.specs.Prelude.{◌<◌};

use super::fronts::{Found, next_found};
use super::vectors::{VECTORS, says, spelled};
use crate::making::{Fault, all_hold, set};
use node::Body;
use std::alloc::Global;
use std::test::Fail;
use wire::Frames;

// Writes the spelling of the next frame, if there is one: whether there was.
fn has_read(alloc: Global, frames: &mut Frames, read: &mut Vec<u8>) -> Result<bool, Fault> {
    let mut text = Vec::new(alloc);
    if next_found(alloc, frames, &mut text)? == Found::Frame {
        read.extend_from_slice(text.as_slice())?;
        Ok(true)
    } else {
        Ok(false)
    }
}

// Writes the spellings of the frames that are read once a piece more has come: no more than it has bytes.
fn read_after(
    alloc: Global,
    frames: &mut Frames,
    piece: &[u8],
    read: &mut Vec<u8>,
) -> Result<(), Fault> {
    frames.feed(piece)?;
    for _ in 0..piece.len() {
        if !has_read(alloc, frames, read)? {
            break;
        }
    }
    Ok(())
}

fn read_all(
    alloc: Global,
    frames: &mut Frames,
    stream: &[u8],
    size: usize,
) -> Result<Vec<u8>, Fault>
    requires { 0 < size }
{
    let mut read = Vec::new(alloc);
    for piece in stream.chunks(size) {
        read_after(alloc, frames, piece, &mut read)?;
    }
    Ok(read)
}

// Whether the frames that are read in pieces of n bytes have the stream as their spellings.
fn is_read(alloc: Global, stream: &[u8], size: usize) -> Result<bool, Fault>
    requires { 0 < size }
{
    let mut frames = Frames::new(alloc);
    let read = read_all(alloc, &mut frames, stream, size);
    drop(frames);
    Ok(read?.as_slice() == stream)
}

// The first of these sizes of pieces at which something else is read.
fn other_size(alloc: Global, stream: &[u8], sizes: &[usize]) -> Result<Option<usize>, Fault> {
    let mut place = 0_usize;
    for size in sizes {
        if *size == 0 || !is_read(alloc, stream, *size)? {
            return Ok(Some(place));
        }
        place = place.wrapping_add(1);
    }
    Ok(None)
}

fn other_of_vectors(alloc: Global, vectors: &[&[u8]]) -> Result<Option<usize>, Fault> {
    let mut stream = Vec::new(alloc);
    for text in vectors {
        stream.extend_from_slice(text)?;
    }
    other_size(alloc, stream.as_slice(), &[1, 2, 7, 23, 200])
}

#[test]
fn vectors_are_read_in_any_pieces(rt: HostRuntime) -> Result<(), Fail> {
    all_hold(other_of_vectors(rt.alloc(), &VECTORS))
}

// The spelling of a set with data of this length.
fn text_of(alloc: Global, size: usize) -> Result<Vec<u8>, Fault> {
    let data = vec![in alloc; b'x'; size]?;
    let call = set(alloc, b"key", data.as_slice())?;
    let frame = says(0, Body::Op(1, call));
    let text = spelled(alloc, &frame);
    drop(frame);
    text
}

// The same of frames one after another.
fn other_of_many(alloc: Global, size: usize, count: usize) -> Result<Option<usize>, Fault> {
    let text = text_of(alloc, size)?;
    let mut stream = Vec::new(alloc);
    for _ in 0..count {
        stream.extend_from_slice(text.as_slice())?;
    }
    other_size(alloc, stream.as_slice(), &[1, 4096, 65_536])
}

// 100 KB of one frame after another. `bench/frames` reads 10 MB so, and fails if a frame is missed.
#[test]
fn many_frames(rt: HostRuntime) -> Result<(), Fail> {
    all_hold(other_of_many(rt.alloc(), 100, 800))
}
