//! Frames of greetings, read byte by byte: nothing beyond one is read, and it has to come in time.

use std::alloc::{AllocError, Global};
use std::io::Read;
use std::net::TcpStream;
use std::time::{Clock, Duration, Instant};
use wire::{Frame, Frames, WireFault};

/// Until when a frame may come.
#[derive(Clone, Copy, Debug, PartialEq, Eq)]
pub struct Deadline {
    begun: Instant,
    patience: Duration,
}

impl Deadline {
    /// This many seconds from now on. None if the clock can't be read.
    pub fn after<R: Clock>(rt: &R, seconds: u64) -> Option<Deadline> {
        Deadline::after_time(rt, Duration::from_secs(seconds))
    }

    /// So long from now on. None if the clock can't be read.
    pub fn after_time<R: Clock>(rt: &R, patience: Duration) -> Option<Deadline> {
        let begun = Instant::now(rt).ok()?;
        Some(Deadline { begun, patience })
    }

    // How long it is until then, if it is a millisecond or more.
    fn left<R: Clock>(self, rt: &R) -> Option<Duration> {
        let passed = self.begun.elapsed(rt).ok()?;
        let left = self.patience.checked_sub(passed)?;
        (left >= Duration::from_millis(1)).then_some(left)
    }
}

/// What came on a connection.
#[derive(Drop)]
pub enum ReceivedFrame {
    /// A frame.
    Frame(Frame),
    /// A byte as an older format begins with.
    Old,
    /// No frame: not in time, not within the bytes that it may have, or a malformed one.
    Nothing,
}

/// The next frame on a connection, if it has at most `most` bytes and comes until the deadline. It reads nothing
/// beyond it. Fails only if memory runs out.
pub fn next_frame<R: Clock>(
    rt: &R,
    alloc: Global,
    stream: &TcpStream,
    deadline: Deadline,
    most: usize,
) -> Result<ReceivedFrame, AllocError> {
    let mut frames = Frames::new(alloc);
    for _ in 0..most {
        let Some(byte) = next_byte(rt, stream, deadline) else {
            return Ok(ReceivedFrame::Nothing);
        };
        if frames.feed(&[byte]).is_err() {
            return Err(AllocError);
        }
        match frames.next() {
            Ok(Some(frame)) => return Ok(ReceivedFrame::Frame(frame)),
            Ok(None) => {}
            Err(WireFault::Memory) => return Err(AllocError),
            Err(WireFault::OldFormat) => return Ok(ReceivedFrame::Old),
            Err(WireFault::Malformed | WireFault::Closed) => return Ok(ReceivedFrame::Nothing),
        }
    }
    Ok(ReceivedFrame::Nothing)
}

// The next byte, if it comes until the deadline.
fn next_byte<R: Clock>(rt: &R, stream: &TcpStream, deadline: Deadline) -> Option<u8> {
    let left = deadline.left(rt)?;
    if stream.set_read_timeout(Some(left)).is_err() {
        return None;
    }
    let mut byte = [0u8];
    let mut source = stream;
    match source.read(byte.as_mut_slice()) {
        Ok(1) => Some(byte[0]),
        _ => None,
    }
}
