//! Connections to the servers of a chain, each of which begins with a greeting and its answer.
ghost use Rattle.std.specs.Prelude.{◌≡◌, ◌≢◌, ◌↔◌, ◌++◌, true, IfOk, OnErr, IsTrue};
ghost use Rattle.wire.specs.declared.frames.Frame.TheVariants as frames;
ghost use Rattle.wire.specs.Spellings.{IsInRange, spelling};
ghost use Rattle.wire_connections.specs.Greetings.{added_if, greeting, introduction_of};

use crate::short_frames::{Deadline, ReceivedFrame, next_frame};
use bytes::BytesMut;
use ends::TrackedWriter;
use peers::{Identity, put_all};
use sockets::keep_alive;
use std::alloc::{AllocError, Global};
use std::io::ErrorKind;
use std::net::{Net, TcpListener, TcpStream, ToSocketAddrs};
use std::thread;
use std::time::{Clock, Duration, Instant};
use wire::{Acceptance, Frame, Introduction, Reason, encode_onto};

/// How often a server tries to connect to a peer, if that doesn't take longer.
const TRIES: u32 = 200;

/// How many milliseconds it pauses between two tries.
const PAUSE: u64 = 50;

/// After how many seconds it doesn't try again.
const ENOUGH: u64 = 30;

/// How many seconds one address may take to answer.
const PATIENCE: u64 = 5;

/// How many seconds the answer to a greeting may take.
const ANSWER: u64 = 10;

/// The most bytes of an answer: those of a frame that tells how a server is.
const SMALL: usize = 38;

/// Where frames for a peer go.
pub type PeerSink = TrackedWriter<TcpStream>;

/// A connection that a server has accepted.
#[derive(Drop)]
pub struct Channel {
    /// Where frames for it go.
    pub sink: PeerSink,
    /// The number of this start of the server's process.
    pub start: u64,
    /// The servers that have failed, as far as it knows: server i is the bit of value 2^i.
    pub gone: u16,
}

/// What came of trying to connect.
#[derive(Drop)]
pub enum Greeted {
    /// The server takes the connection.
    Accepted(Channel),
    /// It doesn't, for this reason.
    Refused(Reason),
    /// The host has no address.
    NoHost,
    /// Each address of the host refuses a connection: nothing listens at the port.
    NoListener,
    /// Nobody answered there.
    NoAnswer,
}

// What came of trying the addresses of a host.
#[derive(Drop)]
enum Connected {
    // One of them answers.
    Stream(TcpStream),
    // There are none.
    NoHost,
    // Each refuses.
    NoListener,
    // None answers, and not each refuses.
    NoAnswer,
}

/// Connects to a port of a host and greets: up to 200 tries, with pauses of 50 milliseconds, and none after 30 seconds.
/// A greeting that is refused is the last one. It answers `NoHost` if no try found an address, and else `NoAnswer`. It
/// fails only if memory runs out.
pub fn reach<R: Clock + Net<Listener = TcpListener, Stream = TcpStream>>(
    rt: &R,
    alloc: Global,
    host: &str,
    port: u16,
    identity: &Identity,
) -> Result<Greeted, AllocError>
    ensures { IfOk result (λ greeted. greeted ≢ Greeted.NoListener) }
{
    let begun = Instant::now(rt).ok();
    let mut is_known = false;
    for tried in 0..TRIES {
        if tried > 0 {
            thread::sleep(rt, Duration::from_millis(PAUSE));
        }
        match greet(rt, alloc, host, port, identity)? {
            Greeted::Accepted(channel) => return Ok(Greeted::Accepted(channel)),
            Greeted::Refused(reason) => return Ok(Greeted::Refused(reason)),
            Greeted::NoAnswer | Greeted::NoListener => is_known = true,
            Greeted::NoHost => {}
        }
        if is_over(rt, begun) {
            break;
        }
    }
    if is_known {
        Ok(Greeted::NoAnswer)
    } else {
        Ok(Greeted::NoHost)
    }
}

// Whether 30 seconds have passed since then.
fn is_over<R: Clock>(rt: &R, begun: Option<Instant>) -> bool {
    match begun {
        Some(begun) => match begun.elapsed(rt) {
            Ok(passed) => passed.as_secs() >= ENOUGH,
            Err(_) => true,
        },
        None => true,
    }
}

/// The same with one try, of which it tells too that nothing listens at the port. It waits at most ten seconds for the
/// answer.
pub fn greet<R: Clock + Net<Listener = TcpListener, Stream = TcpStream>>(
    rt: &R,
    alloc: Global,
    host: &str,
    port: u16,
    identity: &Identity,
) -> Result<Greeted, AllocError> {
    match connect(rt, host, port) {
        Connected::Stream(stream) => greet_on(rt, alloc, TrackedWriter::new(stream), identity),
        Connected::NoHost => Ok(Greeted::NoHost),
        Connected::NoListener => Ok(Greeted::NoListener),
        Connected::NoAnswer => Ok(Greeted::NoAnswer),
    }
}

// Greets on a connection.
fn greet_on<R: Clock>(
    rt: &R,
    alloc: Global,
    sink: PeerSink,
    identity: &Identity,
) -> Result<Greeted, AllocError> {
    let mut sink = sink;
    match answered(rt, alloc, &mut sink, identity) {
        Ok(Some(Ok(Acceptance { start, gone }))) => {
            Ok(Greeted::Accepted(Channel { sink, start, gone }))
        }
        Ok(Some(Err(reason))) => {
            drop(sink);
            Ok(Greeted::Refused(reason))
        }
        Ok(None) => {
            drop(sink);
            Ok(Greeted::NoAnswer)
        }
        Err(AllocError) => {
            drop(sink);
            Err(AllocError)
        }
    }
}

// What the other side answers to the greeting, which is written first. None if it can't be, or nobody answers.
fn answered<R: Clock>(
    rt: &R,
    alloc: Global,
    sink: &mut PeerSink,
    identity: &Identity,
) -> Result<Option<Result<Acceptance, Reason>>, AllocError> {
    if introduce(alloc, sink, identity)? {
        answer(rt, alloc, &sink.inner)
    } else {
        Ok(None)
    }
}

/// Adds the Hello and the introduction of this identity to a buffer, if their fields are in their ranges. It tells
/// whether they are.
pub fn add_greeting_of(out: &mut BytesMut, identity: &Identity) -> Result<bool, AllocError>
    ensures added { IfOk result (λ is_added. is_added ≡ true → out.new.items ≡
        (out.old.items ++ spelling (frames.Hello identity.now.id)) ++ spelling (introduction_of identity.now)) }
{
    let introduction = introduction_of(identity)?;
    let is_added = add_greeting(out, identity.id, &introduction);
    drop(introduction);
    is_added
}

// Writes the Hello and the introduction. It answers whether they were written.
fn introduce(alloc: Global, sink: &mut PeerSink, identity: &Identity) -> Result<bool, AllocError>
    ensures written { IfOk result
        (λ is_put. is_put ≡ true → sink.new.written ≡ sink.old.written ++ greeting identity.now) }
{
    let introduction = introduction_of(identity)?;
    let is_put = put_greeting(alloc, sink, identity.id, &introduction);
    drop(introduction);
    is_put
}

// What it says of itself.
fn introduction_of(identity: &Identity) -> Result<Frame, AllocError>
    ensures { IfOk result (λ frame. frame ≡ introduction_of identity.now) }
{
    Ok(Frame::Introduction(Introduction {
        servers: identity.servers,
        start: identity.start,
        chain: identity.chain.clone()?,
    }))
}

// Writes both.
fn put_greeting(
    alloc: Global,
    sink: &mut PeerSink,
    id: u8,
    introduction: &Frame,
) -> Result<bool, AllocError>
    ensures { IfOk result (λ is_put. is_put ≡ true
        → sink.new.written ≡ sink.old.written ++ (spelling (frames.Hello id) ++ spelling introduction.now)) }
{
    let mut out = BytesMut::new(alloc);
    if !add_greeting(&mut out, id, introduction)? {
        return Ok(false);
    }
    match put_all(sink, &mut out) {
        Ok(()) => Ok(true),
        Err(_) => Ok(false),
    }
}

// Adds the Hello and the introduction to a buffer, if their fields are in their ranges. It tells whether they are.
fn add_greeting(out: &mut BytesMut, id: u8, introduction: &Frame) -> Result<bool, AllocError>
    ensures added { IfOk result (λ is_added. is_added ≡ true
        → out.new.items ≡ (out.old.items ++ spelling (frames.Hello id)) ++ spelling introduction.now) }
{
    let hello = Frame::Hello(id);
    let is_added = add(out, &hello);
    drop(hello);
    Ok(is_added? && add(out, introduction)?)
}

// Adds a frame to a buffer, if its fields are in their ranges. It tells whether they are.
fn add(out: &mut BytesMut, frame: &Frame) -> Result<bool, AllocError>
    ensures fit { IfOk result (λ is_added. IsTrue is_added ↔ IsInRange frame.now) }
    ensures added { IfOk result (λ is_added. out.new.items ≡ added_if is_added out.old.items frame.now) }
    ensures kept { OnErr result (out.new.items ≡ out.old.items) }
{
    if frame.is_in_range() {
        add_fit(out, frame)
    } else {
        Ok(false)
    }
}

fn add_fit(out: &mut BytesMut, frame: &Frame) -> Result<bool, AllocError>
    requires { IsInRange frame.now }
    ensures added { IfOk result
        (λ is_added. (is_added ≡ true) × (out.new.items ≡ out.old.items ++ spelling frame.now)) }
    ensures kept { OnErr result (out.new.items ≡ out.old.items) }
{
    match encode_onto(out, frame) {
        Ok(()) => Ok(true),
        Err(_) => Err(AllocError),
    }
}

// What the other side answers: that it takes the connection, or why it doesn't. None if it doesn't answer.
fn answer<R: Clock>(
    rt: &R,
    alloc: Global,
    stream: &TcpStream,
) -> Result<Option<Result<Acceptance, Reason>>, AllocError> {
    match next_small_frame(rt, alloc, stream, ANSWER) {
        Ok(Some(frame)) => {
            let answer = answer_of(&frame);
            drop(frame);
            Ok(answer)
        }
        Ok(None) => Ok(None),
        Err(AllocError) => Err(AllocError),
    }
}

fn answer_of(frame: &Frame) -> Option<Result<Acceptance, Reason>> {
    match frame {
        Frame::Accepted(acceptance) => Some(Ok(*acceptance)),
        Frame::Refused(reason) => Some(Err(*reason)),
        _ => None,
    }
}

// Connects to the first address of the host that answers, if one does.
fn connect<R: Net<Listener = TcpListener, Stream = TcpStream>>(
    rt: &R,
    host: &str,
    port: u16,
) -> Connected {
    let Ok(addresses) = (host, port).to_socket_addrs(rt) else {
        return Connected::NoHost;
    };
    let mut refuse = false;
    let mut others = false;
    for address in addresses {
        let patience = Duration::from_secs(PATIENCE);
        match TcpStream::connect_timeout(rt, &address, patience) {
            Ok(stream) => {
                if !is_to_itself(&stream) {
                    let _ = stream.set_nodelay(true);
                    keep_alive(&stream);
                    return Connected::Stream(stream);
                }
                others = true;
            }
            Err(fault) if fault.kind() == ErrorKind::ConnectionRefused => refuse = true,
            Err(_) => others = true,
        }
    }
    if refuse && !others {
        Connected::NoListener
    } else {
        Connected::NoAnswer
    }
}

// A socket that tries a free port of its own machine may be given that very port, and is then connected to itself.
fn is_to_itself(stream: &TcpStream) -> bool {
    match (stream.local_addr(), stream.peer_addr()) {
        (Ok(local), Ok(peer)) => local == peer,
        _ => false,
    }
}

/// The next frame on a connection, if it has at most 38 bytes, as an answer to a greeting or to a notice has, and
/// comes within this many seconds; none otherwise. It reads nothing beyond it. Fails only if memory runs out.
pub fn next_small_frame<R: Clock>(
    rt: &R,
    alloc: Global,
    stream: &TcpStream,
    seconds: u64,
) -> Result<Option<Frame>, AllocError> {
    match Deadline::after(rt, seconds) {
        Some(deadline) => next_small_frame_until(rt, alloc, stream, deadline),
        None => Ok(None),
    }
}

/// The same, if it comes until the deadline.
pub fn next_small_frame_until<R: Clock>(
    rt: &R,
    alloc: Global,
    stream: &TcpStream,
    deadline: Deadline,
) -> Result<Option<Frame>, AllocError> {
    match next_frame(rt, alloc, stream, deadline, SMALL)? {
        ReceivedFrame::Frame(frame) => Ok(Some(frame)),
        ReceivedFrame::Old | ReceivedFrame::Nothing => Ok(None),
    }
}
