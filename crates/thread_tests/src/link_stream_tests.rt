//! A link's stream over connections that break: three frames of four bytes each, put at once.

use crate::ending::{all_hold, holds};
use link_streams::{ReceivedStream, SentStream, StreamFault};
use std::alloc::{AllocError, Global};
use std::test::Fail;

// What is put, and the length of each of its frames.
const STREAM: &[u8] = b"one.two.ten.";

const FRAME: usize = 4;

// The starts of the sender's process and of the receiver's.
const SENDER: u64 = 11;

const RECEIVER: u64 = 7;

// The sender's end, to which all was put.
fn sender(alloc: Global) -> Result<SentStream, AllocError> {
    let mut sent = SentStream::new(alloc, RECEIVER);
    for frame in STREAM.chunks(FRAME) {
        sent.put(frame)?;
    }
    Ok(sent)
}

// A connection takes so many bytes at most, and the receiver hands on the frames that are whole.
fn carry(
    sent: &mut SentStream,
    received: &mut ReceivedStream,
    handed: &mut Vec<u8>,
    most: usize,
) -> Result<(), AllocError> {
    let n = sent.unwritten().len().min(most);
    let whole = n / FRAME * FRAME;
    handed.extend_from_slice(&sent.unwritten()[..whole])?;
    received.hand_on(whole);
    sent.written(n);
    Ok(())
}

// A new connection, over which the receiver says where it goes on.
fn connect(sent: &mut SentStream, received: &ReceivedStream) -> bool {
    match received.resumes(SENDER) {
        Some(count) => sent.resume(RECEIVER, count).is_ok(),
        None => false,
    }
}

// Whether all is handed on, in order and once, if the first connection breaks after so many bytes.
fn heals(alloc: Global, breaks_at: usize) -> Result<bool, AllocError> {
    let mut sent = sender(alloc)?;
    let mut received = ReceivedStream::new(SENDER);
    let mut handed = Vec::new(alloc);
    carry(&mut sent, &mut received, &mut handed, breaks_at)?;
    if !connect(&mut sent, &received) {
        return Ok(false);
    }
    carry(&mut sent, &mut received, &mut handed, STREAM.len())?;
    Ok(
        handed.as_slice() == STREAM
            && sent.unwritten().is_empty()
            && sent.confirm(received.handed()).is_ok()
            && sent.kept() == 0,
    )
}

// The first byte after which a break loses something, or has it come twice.
fn first_that_does_not_heal(alloc: Global) -> Result<Option<usize>, AllocError> {
    for breaks_at in 0..=STREAM.len() {
        if !heals(alloc, breaks_at)? {
            return Ok(Some(breaks_at));
        }
    }
    Ok(None)
}

// What is refused of a receiver that has confirmed a frame, once two and a half were taken.
fn refuses(alloc: Global) -> Result<bool, AllocError> {
    let mut sent = sender(alloc)?;
    sent.written(sent.unwritten().len().min(10));
    let is_confirmed = sent.confirm(4).is_ok() && sent.kept() == 8;
    let is_early = sent.confirm(11) == Err(StreamFault::Unsent);
    let is_late = sent.resume(RECEIVER, 3) == Err(StreamFault::Confirmed);
    let is_beyond = sent.resume(RECEIVER, 11) == Err(StreamFault::Unsent);
    let is_another = sent.resume(SENDER, 4) == Err(StreamFault::OtherStart);
    let is_as_it_was = sent.kept() == 8 && sent.unwritten() == b"n.".as_slice();
    Ok(is_confirmed && is_early && is_late && is_beyond && is_another && is_as_it_was)
}

// Another start of the sender's process has a stream of its own.
fn knows_its_sender() -> bool {
    let mut received = ReceivedStream::new(SENDER);
    received.hand_on(FRAME)
        && received.resumes(SENDER) == Some(4)
        && received.resumes(RECEIVER).is_none()
}

#[test]
fn link_heals_wherever_it_breaks(rt: HostRuntime) -> Result<(), Fail> {
    all_hold(first_that_does_not_heal(rt.alloc()))
}

#[test]
fn wrong_words_of_a_receiver_change_nothing(rt: HostRuntime) -> Result<(), Fail> {
    holds(refuses(rt.alloc()))
}

#[test]
fn another_start_goes_on_nowhere() -> Result<(), Fail> {
    holds::<AllocError>(Ok(knows_its_sender()))
}
