//! A link over memory: what is put, and what is handed on.
ghost use Rattle.wire.specs.Spellings.{IsInRange};

use crate::ending::all_hold;
use bytes::BytesMut;
use ends::{Failures, TrackedReader, TrackedWriter};
use peers::{LinkFault, PeerEnd, TakeFault, Taker, put_all, put_frame, serve_peer};
use std::alloc::{AllocError, Global};
use std::io;
use std::io::{Error, ErrorKind};
use std::sync::Wait;
use std::test::Fail;
use wire::{Frame, WireFault, encode_onto};

// Entry 1, of server 0 and its call 1: a put of three bytes.
const FORWARD: &[u8] =
    b"\x02\x02\x00\x00\x00\x00\x00\x00\x00\x00\x00\x01\x00\x00\x00\x00\x00\x00\x00\x00\x01\x01a\x01\x01\x00\x00\x00\x05\x00\x00\x00\x03xyz";

// The same, and an acknowledgement of that entry.
const BOTH: &[u8] =
    b"\x02\x02\x00\x00\x00\x00\x00\x00\x00\x00\x00\x01\x00\x00\x00\x00\x00\x00\x00\x00\x01\x01a\x01\x01\x00\x00\x00\x05\x00\x00\x00\x03xyz\x02\x03\x00\x00\x00\x00\x00\x00\x00\x00\x00\x01";

// Both, and a byte that begins a frame.
const BOTH_AND_2: &[u8] =
    b"\x02\x02\x00\x00\x00\x00\x00\x00\x00\x00\x00\x01\x00\x00\x00\x00\x00\x00\x00\x00\x01\x01a\x01\x01\x00\x00\x00\x05\x00\x00\x00\x03xyz\x02\x03\x00\x00\x00\x00\x00\x00\x00\x00\x00\x01\x02";

// A reader that gives this many bytes in all, a few at a time, and then fails.
#[derive(Drop)]
struct FailingReader<'a> {
    bytes: &'a [u8],
    left: usize,
}

impl io::Read for FailingReader<'_> {
    fn read(&mut self, buf: &mut [u8]) -> io::Result<usize> {
        if self.left == 0 {
            return Err(Error::from(ErrorKind::Other));
        }
        let n = self.bytes.len().min(buf.len()).min(self.left).min(7);
        buf[..n].copy_from_slice(&self.bytes[..n]);
        self.bytes = &self.bytes[n..];
        self.left -= n;
        Ok(n)
    }
}

// A writer that takes this many bytes in all, and then fails.
#[derive(Drop)]
struct FailingWriter {
    held: Vec<u8>,
    left: usize,
    writes: usize,
}

impl io::Write for FailingWriter {
    fn write(&mut self, buf: &[u8]) -> io::Result<usize> {
        if self.left == 0 {
            return Err(Error::from(ErrorKind::Other));
        }
        let n = buf.len().min(self.left);
        self.held.extend_from_slice(&buf[..n])?;
        self.left -= n;
        self.writes = self.writes.wrapping_add(1);
        Ok(n)
    }

    fn flush(&mut self) -> io::Result<()> {
        Ok(())
    }
}

// One who keeps this many frames, and takes no more.
#[derive(Drop)]
struct Keeper {
    frames: Vec<Frame>,
    left: usize,
    failures: Failures,
}

impl Taker for Keeper {
    ghost use Rattle.std.specs.Prelude.{◌≡◌, ◌++◌, ◌∷◌, []};

    ghost taken = { λ keeper. keeper.frames.items };

    ghost failures = { λ keeper. keeper.failures };

    ghost hears = { λ before frame now. now.frames.items ≡ before.frames.items ++ frame ∷ [] };

    ghost misses = { λ before frame now. now.frames.items ≡ before.frames.items };

    fn take<R: Wait>(&mut self, _rt: &R, frame: Frame) -> Result<(), TakeFault> {
        if self.left == 0 {
            drop(frame);
            self.failures.rise();
            return Err(TakeFault);
        }
        self.left -= 1;
        match self.frames.push(frame) {
            Ok(()) => Ok(()),
            Err(refused) => {
                drop(refused);
                self.failures.rise();
                Err(TakeFault)
            }
        }
    }
}

// A link over a reader of these bytes that fails after n of them, with a taker that fails after m frames; how it ends,
// and the text of the frames that it hands on.
#[derive(Clone, Copy)]
struct Link<'a> {
    bytes: &'a [u8],
    reads: usize,
    takes: usize,
    end: Result<PeerEnd, LinkFault>,
    text: &'a [u8],
}

// One whose reader and taker don't fail.
fn going<'a>(bytes: &'a [u8], end: PeerEnd, text: &'a [u8]) -> Link<'a> {
    Link {
        bytes,
        reads: 4096,
        takes: 4096,
        end: Ok(end),
        text,
    }
}

// One who has room for all frames, and takes this many.
fn new_keeper(alloc: Global, takes: usize) -> Result<Keeper, AllocError> {
    Ok(Keeper {
        frames: Vec::with_capacity(alloc, 4)?,
        left: takes,
        failures: Failures::new(),
    })
}

fn end_of(
    rt: &impl Wait,
    alloc: Global,
    link: Link<'_>,
    keeper: &mut Keeper,
) -> Result<PeerEnd, LinkFault> {
    let mut source = TrackedReader::new(FailingReader {
        bytes: link.bytes,
        left: link.reads,
    });
    serve_peer(rt, alloc, &mut source, keeper)
}

// Whether a link ends so, and hands on these frames. Refused if memory is out: the taker has room for all frames.
fn comes_to(rt: &impl Wait, alloc: Global, link: Link<'_>) -> Result<bool, LinkFault> {
    let mut keeper = new_keeper(alloc, link.takes)?;
    let end = end_of(rt, alloc, link, &mut keeper);
    let is_kept = are_spelled(alloc, keeper.frames.as_slice(), link.text);
    drop(keeper);
    if end == Err(LinkFault::Memory) {
        return Err(LinkFault::Memory);
    }
    Ok(end == link.end && is_kept?)
}

// Puts the frames one after another. Each has to be in its ranges.
fn put_each(
    alloc: Global,
    sink: &mut TrackedWriter<Vec<u8>>,
    frames: &[Frame],
) -> Result<(), LinkFault> {
    for frame in frames {
        if !frame.is_in_range() {
            return Err(LinkFault::Write);
        }
        put_frame(alloc, sink, frame)?;
    }
    Ok(())
}

// Whether the frames, put one after another, are this text.
fn are_spelled(alloc: Global, frames: &[Frame], text: &[u8]) -> Result<bool, LinkFault> {
    let held = Vec::with_capacity(alloc, BOTH.len())?;
    let mut sink = TrackedWriter::new(held);
    put_each(alloc, &mut sink, frames)?;
    Ok(sink.inner.as_slice() == text)
}

// Whether a beginning of the forward gives no frame.
fn has_no_frame(rt: &impl Wait, alloc: Global, length: usize) -> Result<bool, LinkFault> {
    let front = FORWARD.get(..length).unwrap_or_default();
    comes_to(rt, alloc, going(front, PeerEnd::Input, b""))
}

// How the forward ends with this byte set to 255, by the format, and whether it is a frame then.
fn with_255(place: usize) -> (PeerEnd, bool) {
    match place {
        0 | 1 | 12 | 21 | 23 | 24 | 29 | 30 => (PeerEnd::Malformed, false),
        31 | 32 => (PeerEnd::Input, false),
        _ => (PeerEnd::Input, true),
    }
}

// The forward with this byte set to 255.
fn changed(alloc: Global, place: usize) -> Result<Vec<u8>, AllocError> {
    let mut bytes = Vec::from_slice(alloc, FORWARD)?;
    if let Some(byte) = bytes.get_mut(place) {
        *byte = 255;
    }
    Ok(bytes)
}

// Whether that ends by the format, and is handed on if it is a frame.
fn ends_by_the_format(rt: &impl Wait, alloc: Global, place: usize) -> Result<bool, LinkFault> {
    let bytes = changed(alloc, place)?;
    let (end, is_frame) = with_255(place);
    let text = if is_frame {
        bytes.as_slice()
    } else {
        b"".as_slice()
    };
    comes_to(rt, alloc, going(bytes.as_slice(), end, text))
}

// The first place at which the forward is cut, or has its byte set to 255, and isn't as the format says.
fn other_place(rt: &impl Wait, alloc: Global) -> Result<Option<usize>, LinkFault> {
    for place in 0..FORWARD.len() {
        if !has_no_frame(rt, alloc, place)? || !ends_by_the_format(rt, alloc, place)? {
            return Ok(Some(place));
        }
    }
    Ok(None)
}

#[test]
fn beginnings_and_each_byte_set_to_255(rt: HostRuntime) -> Result<(), Fail> {
    all_hold(other_place(&rt, rt.alloc()))
}

// The first link that ends otherwise than it says.
fn other_link(
    rt: &impl Wait,
    alloc: Global,
    links: &[Link<'_>],
) -> Result<Option<usize>, LinkFault> {
    let mut place = 0_usize;
    for link in links {
        if !comes_to(rt, alloc, *link)? {
            return Ok(Some(place));
        }
        place = place.wrapping_add(1);
    }
    Ok(None)
}

// Both frames are handed on, and the byte after them brings this end.
static ENDS: [Link; 3] = [
    Link {
        bytes: b"\x02\x02\x00\x00\x00\x00\x00\x00\x00\x00\x00\x01\x00\x00\x00\x00\x00\x00\x00\x00\x01\x01a\x01\x01\x00\x00\x00\x05\x00\x00\x00\x03xyz\x02\x03\x00\x00\x00\x00\x00\x00\x00\x00\x00\x01\x01",
        reads: 4096,
        takes: 4096,
        end: Ok(PeerEnd::Old),
        text: BOTH,
    },
    Link {
        bytes: BOTH_AND_2,
        reads: 4096,
        takes: 4096,
        end: Ok(PeerEnd::Input),
        text: BOTH,
    },
    Link {
        bytes: b"\x02\x02\x00\x00\x00\x00\x00\x00\x00\x00\x00\x01\x00\x00\x00\x00\x00\x00\x00\x00\x01\x01a\x01\x01\x00\x00\x00\x05\x00\x00\x00\x03xyz\x02\x03\x00\x00\x00\x00\x00\x00\x00\x00\x00\x01\x03",
        reads: 4096,
        takes: 4096,
        end: Ok(PeerEnd::Malformed),
        text: BOTH,
    },
];

#[test]
fn ends_after_two_frames(rt: HostRuntime) -> Result<(), Fail> {
    all_hold(other_link(&rt, rt.alloc(), &ENDS))
}

// How many bytes the whole frames have among the first n bytes of the forward and the acknowledgement.
fn whole_among(bytes: usize) -> usize {
    if bytes < FORWARD.len() {
        0
    } else if bytes < BOTH.len() {
        FORWARD.len()
    } else {
        BOTH.len()
    }
}

// The first n such that a link whose reads fail after n bytes doesn't hand on what is whole among them.
fn other_reads(rt: &impl Wait, alloc: Global, bytes: &[u8]) -> Result<Option<usize>, LinkFault> {
    for reads in 0..bytes.len() {
        let link = Link {
            bytes,
            reads,
            takes: 4096,
            end: Err(LinkFault::Read),
            text: bytes.get(..whole_among(reads)).unwrap_or_default(),
        };
        if !comes_to(rt, alloc, link)? {
            return Ok(Some(reads));
        }
    }
    Ok(None)
}

// A taker that takes one frame: the forward alone is handed on.
static TAKES: [Link; 1] = [Link {
    bytes: BOTH_AND_2,
    reads: 4096,
    takes: 1,
    end: Err(LinkFault::Take),
    text: FORWARD,
}];

#[test]
fn reads_and_takes_fail(rt: HostRuntime) -> Result<(), Fail> {
    all_hold(other_reads(&rt, rt.alloc(), BOTH_AND_2))?;
    all_hold(other_link(&rt, rt.alloc(), &TAKES))
}

// Writes a frame after a buffer's bytes.
fn append(out: &mut BytesMut, frame: Frame) -> Result<(), WireFault>
    requires { IsInRange frame }
{
    let put = encode_onto(out, &frame);
    drop(frame);
    put
}

// A buffer of two frames.
fn both(alloc: Global) -> Result<BytesMut, WireFault> {
    let mut out = BytesMut::new(alloc);
    append(&mut out, Frame::Hello(3))?;
    append(&mut out, Frame::Gone(5))?;
    Ok(out)
}

// In how many writes both frames are put into a writer that fails after this many bytes, if that ends so, and has
// written these bytes.
fn writes_of(
    alloc: Global,
    left: usize,
    end: Result<(), LinkFault>,
    text: &[u8],
) -> Result<Option<usize>, WireFault> {
    let mut out = both(alloc)?;
    let held = Vec::with_capacity(alloc, 16)?;
    let mut sink = TrackedWriter::new(FailingWriter {
        held,
        left,
        writes: 0,
    });
    let has_put = put_all(&mut sink, &mut out) == end && sink.inner.held.as_slice() == text;
    Ok(has_put.then_some(sink.inner.writes))
}

// The first n such that a writer that fails after n bytes of both frames hasn't written these. One that doesn't fail
// writes them at once.
fn other_writes(alloc: Global, both: &[u8]) -> Result<Option<usize>, WireFault> {
    for left in 0..both.len() {
        let front = both.get(..left).unwrap_or_default();
        if writes_of(alloc, left, Err(LinkFault::Write), front)?.is_none() {
            return Ok(Some(left));
        }
    }
    let is_one = writes_of(alloc, both.len(), Ok(()), both)? == Some(1);
    Ok((!is_one).then_some(both.len()))
}

#[test]
fn two_frames_are_one_write(rt: HostRuntime) -> Result<(), Fail> {
    all_hold(other_writes(rt.alloc(), b"\x02\x00\x03\x02\x06\x05"))
}
