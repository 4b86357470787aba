//! Loads: what is done with which frames, and how often.

use node::{Body, Peer, View};
use std::alloc::{AllocError, Global};
use table::{Call, Key, Op, SharedBytes, Target};
use thiserror::Error;
use wire::{Frame, WireFault};

/// How many frames a round has.
pub const ROUND: u8 = 64;

/// What is done with the frames.
#[derive(Clone, Copy, Debug)]
pub enum Work {
    /// They are written at the end of one buffer, which is emptied after each round.
    Write,
    /// They are read, in pieces.
    Read,
    /// Their bytes are copied, as a measure of the other two.
    Copy,
}

/// This many rounds of frames with data of `bytes` bytes, read in pieces of `piece`.
#[derive(Clone, Copy, Debug)]
pub struct Load {
    pub work: Work,
    pub size: u32,
    pub rounds: u32,
    pub piece: u32,
}

/// What was done: how many bytes and frames came out, and how many bytes of data stood in the frames that were read.
#[derive(Clone, Copy, Debug)]
pub struct Done {
    pub bytes: u64,
    pub frames: u64,
    pub data: u64,
}

/// Why a load isn't carried out to its end.
#[derive(Debug, Error, Drop)]
pub enum LoadFault {
    /// There is no memory for the frames or their bytes.
    #[error("out of memory")]
    Memory(#[from] AllocError),
    /// A frame can't be written or read.
    #[error("wire: {0}")]
    Wire(#[from] WireFault),
    /// The load's frame has no spelling, or its pieces have no bytes.
    #[error("the frame is out of range, or a piece has no bytes")]
    Frame,
    /// Other frames were read than were written.
    #[error("not all frames were read")]
    Missed,
}

/// A set of this many bytes on its way to the head.
pub fn message(alloc: Global, size: u32) -> Result<Frame, LoadFault> {
    let data = vec![in alloc; b'x'; size as usize]?;
    let Some(key) = Key::new(alloc, b"key0000001")? else {
        return Err(LoadFault::Frame);
    };
    let op = Op::Set(7, SharedBytes::copy_from_slice(alloc, data.as_slice())?);
    let call = Call {
        target: Target::One(key),
        op,
    };
    Ok(Frame::Peer(Peer {
        view: View::empty(),
        body: Body::Op(1, call),
    }))
}

/// How many bytes of data a set holds. No other frame holds any here.
pub fn data_of(frame: &Frame) -> usize {
    match frame {
        Frame::Peer(
            Peer {
                body: Body::Op(
                    _,
                    Call {
                        op: Op::Set(_, data),
                        ..
                    },
                ),
                ..
            },
        ) => data.len(),
        _ => 0,
    }
}
