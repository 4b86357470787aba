//! Rounds of frames, written, read or copied.
ghost use Rattle.std.specs.Prelude.{◌<◌};
ghost use Rattle.wire.specs.Spellings.{IsInRange};

use crate::loads::{Done, Load, LoadFault, ROUND, Work, data_of, message};
use bytes::BytesMut;
use std::alloc::Global;
use wire::{Frame, Frames, encode_onto};

/// Carries out a load, and tells how many bytes and frames came out. Reading other frames than were written is a fault.
pub fn run(alloc: Global, load: &Load) -> Result<Done, LoadFault> {
    let frame = message(alloc, load.size)?;
    run_with(alloc, load, &frame)
}

// The same with the frame that is written. (Who owns a frame has few exits: each costs a proof for each kind of frame.)
fn run_with(alloc: Global, load: &Load, frame: &Frame) -> Result<Done, LoadFault> {
    if !frame.is_in_range() || load.piece == 0 {
        return Err(LoadFault::Frame);
    }
    let mut stream = BytesMut::new(alloc);
    write_round(&mut stream, frame)?;
    match load.work {
        Work::Write => write(&mut stream, frame, load.rounds),
        Work::Read => {
            let done = read(alloc, stream.as_slice(), load.rounds, load.piece as usize)?;
            if is_whole(&done, load) {
                Ok(done)
            } else {
                Err(LoadFault::Missed)
            }
        }
        Work::Copy => copy(alloc, stream.as_slice(), load.rounds),
    }
}

// A round of the frame.
fn write_round(out: &mut BytesMut, frame: &Frame) -> Result<(), LoadFault>
    requires { IsInRange frame.now }
{
    out.clear();
    for _ in 0..ROUND {
        encode_onto(out, frame)?;
    }
    Ok(())
}

fn write(out: &mut BytesMut, frame: &Frame, rounds: u32) -> Result<Done, LoadFault>
    requires { IsInRange frame.now }
{
    let mut done = Done {
        bytes: 0,
        frames: 0,
        data: 0,
    };
    for _ in 0..rounds {
        write_round(out, frame)?;
        done.bytes = done.bytes.wrapping_add(out.len() as u64);
        done.frames = done.frames.wrapping_add(u64::from(ROUND));
    }
    Ok(done)
}

fn copy(alloc: Global, stream: &[u8], rounds: u32) -> Result<Done, LoadFault> {
    let mut out = BytesMut::new(alloc);
    let mut done = Done {
        bytes: 0,
        frames: 0,
        data: 0,
    };
    for _ in 0..rounds {
        out.clear();
        out.extend_from_slice(stream)?;
        done.bytes = done.bytes.wrapping_add(out.len() as u64);
        done.frames = done.frames.wrapping_add(u64::from(ROUND));
    }
    Ok(done)
}

fn read(alloc: Global, stream: &[u8], rounds: u32, piece: usize) -> Result<Done, LoadFault>
    requires { 0 < piece }
{
    let mut frames = Frames::new(alloc);
    let mut done = Done {
        bytes: 0,
        frames: 0,
        data: 0,
    };
    for _ in 0..rounds {
        for part in stream.chunks(piece) {
            frames.feed(part)?;
            done.bytes = done.bytes.wrapping_add(part.len() as u64);
            take_whole(&mut frames, part.len(), &mut done)?;
        }
    }
    Ok(done)
}

// Takes off the frames that are whole now. Each of them ends in the piece of that length that came last.
fn take_whole(frames: &mut Frames, piece: usize, done: &mut Done) -> Result<(), LoadFault> {
    for _ in 0..piece {
        let Some(frame) = frames.next()? else {
            break;
        };
        done.frames = done.frames.wrapping_add(1);
        done.data = done.data.wrapping_add(data_of(&frame) as u64);
    }
    Ok(())
}

// Whether all frames of the load were read, with all their data.
fn is_whole(done: &Done, load: &Load) -> bool {
    let frames = u64::from(load.rounds).wrapping_mul(u64::from(ROUND));
    done.frames == frames && done.data == frames.wrapping_mul(u64::from(load.size))
}
