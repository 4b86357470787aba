//! The engine of a link: reads a peer's bytes, and hands on the frames that they spell.
ghost use Rattle.std.specs.Prelude.{◌≡◌, ◌+◌, ◌++◌, ◌<◌, List, ℕ, length, true, false};
ghost use Rattle.std.specs.Prelude.{IfOk, IfErr, OnOk, OnErr, vec_len};
ghost use Rattle.wire.specs.declared.ends.PeerEnd.{PeerEnd};
ghost use Rattle.wire.specs.Ends.{IsEnd};
ghost use Rattle.wire.specs.Streams.{fed, fresh};
ghost use Rattle.peers.specs.Links.{HasHeard, TakesAll, TakesBeginning, TakesFirst};
ghost use Rattle.peers.specs.Links.{failed_reads, failed_takes, failed_writes};
ghost use Rattle.peers.specs.Reading.{StopsAt, goes_on};

use crate::{HandedOn, LinkFault, Taker};
use ends::Source;
use std::alloc::{AllocError, Global};
use std::sync::Wait;
use wire::{Frames, PeerEnd, WireFault};

/// The most bytes of one read.
const PIECE: usize = 65_536;

/// Serves a peer until its input ends, or a bad front or an older server's is met: reads, and hands on the frames of
/// what was read, one after another, each as soon as it is whole. Whatever the peer sends, it holds one piece of 64 KiB
/// to read into and fewer than 1,048,866 + 65,536 unread bytes, and does O(n) work for n bytes. It may wait: for input,
/// and for the taker.
pub fn serve_peer<R: Wait, S: Source, T: Taker>(
    rt: &R,
    alloc: Global,
    source: &mut S,
    taker: &mut T,
) -> Result<PeerEnd, LinkFault>
    // All frames of what was read are taken, in order, however it was cut, and the end is that of these bytes.
    ensures served { IfOk result (λ end. (read : List ℕ) × (S.given source.new ≡ S.given source.old ++ read) ×
        TakesAll end read (T.taken taker.old) (T.taken taker.new)) }
    // The input has ended, if that is the answer.
    ensures ended { IfOk result (λ end. end ≡ PeerEnd.Input → S.has_ended source.new ≡ true) }
    // After a fault: the first frames of what was read.
    ensures cut { OnErr result ((read : List ℕ) × (S.given source.new ≡ S.given source.old ++ read) ×
        TakesBeginning read (T.taken taker.old) (T.taken taker.new)) }
    // What was taken was heard, frame by frame, and nothing else.
    ensures heard { HasHeard T.hears T.misses T.taken (failed_takes result) taker.old taker.new }
    // Each side's fault comes exactly if that side failed.
    ensures reads { S.failures source.new ≡ S.failures source.old + failed_reads result }
    ensures takes { T.failures taker.new ≡ T.failures taker.old + failed_takes result }
    ensures writes { failed_writes result ≡ 0 }
{
    let mut piece = blank(alloc, PIECE)?;
    let mut frames = Frames::new(alloc);
    serve(rt, piece.as_mut_slice(), &mut frames, source, taker)
}

// Serves by a reader of frames that was fed with nothing, and reads into this slice.
fn serve<R: Wait, S: Source, T: Taker>(
    rt: &R,
    piece: &mut [u8],
    frames: &mut Frames,
    source: &mut S,
    taker: &mut T,
) -> Result<PeerEnd, LinkFault>
    requires some_room { 0 < length piece.old }
    requires fresh { frames.old ≡ fresh }
    ensures served { IfOk result (λ end. (read : List ℕ) × (S.given source.new ≡ S.given source.old ++ read) ×
        TakesAll end read (T.taken taker.old) (T.taken taker.new)) }
    ensures ended { IfOk result (λ end. end ≡ PeerEnd.Input → S.has_ended source.new ≡ true) }
    ensures cut { OnErr result ((read : List ℕ) × (S.given source.new ≡ S.given source.old ++ read) ×
        TakesBeginning read (T.taken taker.old) (T.taken taker.new)) }
    ensures heard { HasHeard T.hears T.misses T.taken (failed_takes result) taker.old taker.new }
    ensures reads { S.failures source.new ≡ S.failures source.old + failed_reads result }
    ensures takes { T.failures taker.new ≡ T.failures taker.old + failed_takes result }
    ensures writes { failed_writes result ≡ 0 }
{
    for _ in rt.forever() {
        let n = match source.read(piece) {
            Ok(0) => return Ok(PeerEnd::Input),
            Ok(n) => n,
            Err(_) => return Err(LinkFault::Read),
        };
        feed(frames, &piece[..n])?;
        match hand_on(rt, frames, taker)? {
            PeerEnd::Input => {}
            end => return Ok(end),
        }
    }
    unreachable!()
}

/// Hands on up to this many frames that stand whole at the front of the unread bytes. It may wait for the taker.
pub(crate) fn hand_on_some<R: Wait, T: Taker>(
    rt: &R,
    frames: &mut Frames,
    taker: &mut T,
    most: usize,
) -> Result<HandedOn, LinkFault>
    requires open { frames.old.closed ≡ false }
    ensures first { OnOk result
        (TakesFirst frames.old.unread frames.new.unread (T.taken taker.old) (T.taken taker.new)) }
    ensures stops { IfOk result (λ handed_on. StopsAt handed_on frames.new.unread) }
    ensures open { IfOk result (λ handed_on. goes_on handed_on ≡ true → frames.new.closed ≡ false) }
    ensures heard { HasHeard T.hears T.misses T.taken (failed_takes result) taker.old taker.new }
    ensures takes { T.failures taker.new ≡ T.failures taker.old + failed_takes result }
{
    'frames: for _ in 0..most {
        match frames.next() {
            Ok(Some(whole)) => taker.take(rt, whole)?,
            Ok(None) => return Ok(HandedOn::All),
            Err(WireFault::Malformed) => return Ok(HandedOn::End(PeerEnd::Malformed)),
            Err(WireFault::OldFormat) => return Ok(HandedOn::End(PeerEnd::Old)),
            Err(WireFault::Memory) => return Err(LinkFault::Memory),
            Err(WireFault::Closed) => unreachable!(),
        }
    }
    Ok(HandedOn::Part)
}

// A buffer of this many bytes.
fn blank(alloc: Global, length: usize) -> Result<Vec<u8>, AllocError>
    ensures { IfOk result (λ bytes. vec_len bytes ≡ length) }
{
    Vec::from_elem(alloc, 0u8, length)
}

/// Adds a piece to an open reader. Refused only if no memory is left, which changes nothing.
pub(crate) fn feed(frames: &mut Frames, piece: &[u8]) -> Result<(), LinkFault>
    requires open { frames.old.closed ≡ false }
    ensures fed { OnOk result (frames.new ≡ fed frames.old piece.now) }
    ensures err { OnErr result (frames.new ≡ frames.old) }
    ensures memory { IfErr result (λ fault. fault ≡ LinkFault.Memory) }
{
    match frames.feed(piece) {
        Ok(()) => Ok(()),
        Err(WireFault::Memory) => Err(LinkFault::Memory),
        Err(WireFault::Closed | WireFault::Malformed | WireFault::OldFormat) => unreachable!(),
    }
}

// Hands on the frames that stand whole at the front of the unread bytes. It tells how the stream ends if no more bytes
// come.
fn hand_on<R: Wait, T: Taker>(
    rt: &R,
    frames: &mut Frames,
    taker: &mut T,
) -> Result<PeerEnd, LinkFault>
    requires open { frames.old.closed ≡ false }
    ensures first { OnOk result
        (TakesFirst frames.old.unread frames.new.unread (T.taken taker.old) (T.taken taker.new)) }
    ensures stops { IfOk result (λ end. IsEnd frames.new.unread end) }
    ensures open { IfOk result (λ end. end ≡ PeerEnd.Input → frames.new.closed ≡ false) }
    ensures cut { OnErr result ((rest : List ℕ) ×
        TakesFirst frames.old.unread rest (T.taken taker.old) (T.taken taker.new)) }
    ensures heard { HasHeard T.hears T.misses T.taken (failed_takes result) taker.old taker.new }
    ensures reads { failed_reads result ≡ 0 }
    ensures takes { T.failures taker.new ≡ T.failures taker.old + failed_takes result }
    ensures writes { failed_writes result ≡ 0 }
{
    'frames: loop {
        match frames.next() {
            Ok(Some(frame)) => taker.take(rt, frame)?,
            Ok(None) => return Ok(PeerEnd::Input),
            Err(WireFault::Malformed) => return Ok(PeerEnd::Malformed),
            Err(WireFault::OldFormat) => return Ok(PeerEnd::Old),
            Err(WireFault::Memory) => return Err(LinkFault::Memory),
            Err(WireFault::Closed) => unreachable!(),
        }
    }
}
