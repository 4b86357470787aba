//! Links to other servers over connections that break: three frames of three bytes each, put at once.

use crate::ending::{all_hold, holds};
use link_streams::{LinkSink, StreamFault};
use links::{PeerLink, PeerLinks};
use rail::{Links, RailFault};
use std::alloc::{AllocError, Global};
use std::test::Fail;
use wire::Frame;

// The frames that are put, as bytes.
const FRAMES: &[u8] = b"\x02\x00\x01\x02\x00\x02\x02\x00\x03";

const FRAME: usize = 3;

// The start of the receiver's process.
const START: u64 = 7;

// The most bytes that a connection of these tests takes.
const MOST: usize = 100;

// A connection that takes so many bytes in all, a few at a time, and then none; or it fails then. It has memory for all
// of them, so that a refusal is one of the link's.
#[derive(Drop)]
struct Connection {
    held: Vec<u8>,
    left: usize,
    fails: bool,
}

impl LinkSink for Connection {
    ghost taken = { λ connection. connection.held.items };

    fn take_some(&mut self, bytes: &[u8]) -> Option<usize> {
        let n = bytes.len().min(self.left).min(2);
        if n == 0 && self.fails {
            return None;
        }
        if self.held.extend_from_slice(&bytes[..n]).is_err() {
            return None;
        }
        self.left -= n;
        Some(n)
    }
}

type Link = PeerLink<Connection>;

// A connection that takes so many bytes, and then none. None if memory is out.
fn taking(alloc: Global, left: usize) -> Option<Connection> {
    Some(Connection {
        held: Vec::with_capacity(alloc, MOST).ok()?,
        left,
        fails: false,
    })
}

// One that takes so many bytes, and then fails.
fn failing(alloc: Global, left: usize) -> Option<Connection> {
    Some(Connection {
        fails: true,
        ..taking(alloc, left)?
    })
}

// Puts a frame of three bytes: 2, 0, and this number.
fn put(link: &mut Link, number: u8) -> Result<(), RailFault> {
    let frame = Frame::Hello(number);
    let put = if frame.is_in_range() {
        link.put(&frame)
    } else {
        Err(RailFault::LinkDown)
    };
    drop(frame);
    put
}

// A link on which the three frames were put. None if memory is out.
fn link(alloc: Global) -> Option<Link> {
    let mut link = PeerLink::new(alloc, START);
    for number in 1..=3u8 {
        put(&mut link, number).ok()?;
    }
    Some(link)
}

// What the connection took; nothing if none stands.
fn taken(link: &Link) -> &[u8] {
    match &link.sink {
        Some(connection) => connection.held.as_slice(),
        None => b"",
    }
}

// Whether a link that loses its connection after so many bytes goes on over a new one where its receiver stands, which
// has handed on the frames that were whole: all bytes come once, in order.
fn goes_on(alloc: Global, breaks_at: usize) -> Option<bool> {
    let mut link = link(alloc)?;
    link.connect(taking(alloc, breaks_at)?, START, 0).ok()?;
    let is_waiting = link.write_out();
    let is_cut = taken(&link) == &FRAMES[..breaks_at.min(FRAMES.len())];
    link.disconnect();
    let whole = breaks_at / FRAME * FRAME;
    link.connect(taking(alloc, MOST)?, START, whole as u64)
        .ok()?;
    let is_done = !link.write_out();
    let is_rest = taken(&link) == &FRAMES[whole.min(FRAMES.len())..];
    Some(is_waiting == (breaks_at < FRAMES.len()) && is_cut && is_done && is_rest)
}

// The first byte after which a break loses something, or has it come twice.
fn first_that_does_not_go_on(alloc: Global) -> Result<Option<usize>, AllocError> {
    for breaks_at in 0..=FRAMES.len() {
        match goes_on(alloc, breaks_at) {
            Some(true) => {}
            Some(false) => return Ok(Some(breaks_at)),
            None => return Err(AllocError),
        }
    }
    Ok(None)
}

// Whether a connection that fails is gone, while the link keeps what was put and takes more.
fn outlives(alloc: Global) -> Option<bool> {
    let mut link = link(alloc)?;
    link.connect(failing(alloc, 5)?, START, 0).ok()?;
    let is_told = !link.write_out() && link.sink.is_none();
    let is_kept = !link.has_failed && link.kept() == 9 && link.unwritten() == 4;
    put(&mut link, 4).ok()?;
    link.connect(taking(alloc, MOST)?, START, 3).ok()?;
    let is_written = !link.write_out()
        && taken(&link) == b"\x02\x00\x02\x02\x00\x03\x02\x00\x04".as_slice();
    Some(is_told && is_kept && is_written && link.kept() == 9 && link.unwritten() == 0)
}

// Whether a put that memory refuses changes nothing, and the next one is taken. A test alone is refused nothing:
// `tools/fail_alloc` refuses each allocation in turn.
fn bears_refusals(alloc: Global) -> bool {
    let mut link: Link = PeerLink::new(alloc, START);
    let first = put(&mut link, 1);
    if first == Err(RailFault::Memory) && (link.kept() != 0 || link.has_failed) {
        return false;
    }
    let second = put(&mut link, 2);
    let many = usize::from(first.is_ok()) + usize::from(second.is_ok());
    (first.is_ok() || second.is_ok())
        && link.kept() == FRAME * many
        && link.unwritten() == FRAME * many
}

// Whether bytes that are confirmed aren't kept, and only bytes that were written can be.
fn gives_back(alloc: Global) -> Option<bool> {
    let mut link = link(alloc)?;
    link.connect(taking(alloc, 7)?, START, 0).ok()?;
    let is_early = link.confirm(3) == Err(StreamFault::Unsent) && link.write_out();
    let is_confirmed = link.confirm(6).is_ok() && link.kept() == 3 && link.unwritten() == 2;
    let is_late = link.confirm(9) == Err(StreamFault::Unsent) && link.kept() == 3;
    link.connect(taking(alloc, MOST)?, START, 6).ok()?;
    let is_whole = !link.write_out() && link.confirm(9).is_ok() && link.kept() == 0;
    Some(is_early && is_confirmed && is_late && is_whole)
}

// Whether a link that has failed keeps nothing, takes nothing, and has no connection.
fn fails_for_good(alloc: Global) -> Option<bool> {
    let mut link = link(alloc)?;
    let is_another = link.connect(taking(alloc, MOST)?, 8, 0) == Err(StreamFault::OtherStart);
    let is_up = link.sink.is_none() && !link.has_failed && link.kept() == 9;
    link.connect(taking(alloc, MOST)?, START, 0).ok()?;
    link.fail();
    let is_down = link.sink.is_none() && link.has_failed && link.kept() == 0;
    let is_refused = put(&mut link, 4) == Err(RailFault::LinkDown)
        && link.connect(taking(alloc, MOST)?, START, 0) == Err(StreamFault::OtherStart)
        && link.sink.is_none();
    Some(is_another && is_up && is_down && is_refused && !link.write_out())
}

// The links of server 0 of two, of which the other one has the three frames. None if memory is out.
fn pair(alloc: Global) -> Option<PeerLinks<Connection>> {
    let mut links = Vec::new(alloc);
    links.push(PeerLink::absent(alloc)).ok()?;
    links.push(link(alloc)?).ok()?;
    Some(PeerLinks::new(alloc, links))
}

// Whether calls by a server's id reach its link, and no other.
fn are_by_server(alloc: Global) -> Option<bool> {
    let mut links = pair(alloc)?;
    let is_none = links.connect_at(2, taking(alloc, MOST)?, START, 0).is_err()
        && links.confirm_at(2, 0).is_err()
        && links.kept_at(2) == 0;
    let is_kept = links.kept_at(0) == 0 && links.kept_at(1) == 9 && !links.write_out();
    links.connect_at(1, taking(alloc, 4)?, START, 0).ok()?;
    let is_waiting = links.write_out() && links.confirm_at(1, 3).is_ok() && links.kept_at(1) == 6;
    links.disconnect_at(1);
    let is_quiet = !links.write_out() && links.failed(0) && !links.failed(1) && links.failed(2);
    links.fail_at(1);
    Some(is_none && is_kept && is_waiting && is_quiet && links.failed(1) && links.kept_at(1) == 0)
}

// The same as a test's outcome: None is that memory is out.
fn told(found: Option<bool>) -> Result<(), Fail> {
    holds(found.ok_or(AllocError))
}

#[test]
fn link_goes_on_wherever_its_connection_breaks(rt: HostRuntime) -> Result<(), Fail> {
    all_hold(first_that_does_not_go_on(rt.alloc()))
}

#[test]
fn link_outlives_a_connection_that_fails(rt: HostRuntime) -> Result<(), Fail> {
    told(outlives(rt.alloc()))
}

#[test]
fn put_that_is_refused_changes_nothing(rt: HostRuntime) -> Result<(), Fail> {
    holds::<AllocError>(Ok(bears_refusals(rt.alloc())))
}

#[test]
fn confirmed_bytes_are_given_back(rt: HostRuntime) -> Result<(), Fail> {
    told(gives_back(rt.alloc()))
}

#[test]
fn failed_link_is_down_for_good(rt: HostRuntime) -> Result<(), Fail> {
    told(fails_for_good(rt.alloc()))
}

#[test]
fn links_are_reached_by_their_servers(rt: HostRuntime) -> Result<(), Fail> {
    told(are_by_server(rt.alloc()))
}
