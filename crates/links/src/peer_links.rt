//! Links to the other servers of a chain, over connections of any kind.
ghost use Rattle.std.specs.Prelude.{◌≡◌, ◌≢◌, ◌≤◌, ◌<◌, ◌⊎◌, ◌++◌, ◌∷◌, [], ℕ, true, false, length, nat_lt};
ghost use Rattle.std.specs.Prelude.{◌||◌, IfErr, IfSome, OnErr, OnOk};
ghost use Rattle.wire.specs.Spellings.{IsInRange, spelling};
ghost use Rattle.wire.specs.declared.frames.Frame.TheVariants as frames;
ghost use Rattle.node.specs.declared.messages.Output.TheVariants.{To};
ghost use Rattle.node.specs.Lawful.{IsFit};
ghost use Rattle.link_streams.specs.Streams.{may_confirm, unwritten};
ghost use Rattle.rail.specs.declared.faults.RailFault.TheVariants.{Memory, LinkDown};
ghost use Rattle.links.specs.PeerLinks.{HaveWritten, WritesSome, changed_at, confirmed, connected, disconnected, ended};
ghost use Rattle.links.specs.PeerLinks.{failures_at, given_at, kept_at, may_connect, meets_at, some_waits};
ghost use Rattle.links.specs.PeerLinks.{unwritten_at};

use crate::ghost_lists::GhostList;
use link_streams::{LinkSink, SentStream, StreamFault};
use node::Peer;
use rail::{Links, Published, RailFault};
use std::alloc::Global;
use std::snapshot::Snapshot;
use wire::Frame;

/// The link to one server, which outlives its connections. It keeps what is put on it until the other server confirms
/// it. It never waits.
#[derive(Drop)]
pub struct PeerLink<W> {
    /// What was put, and how far the other server is.
    pub stream: SentStream,
    /// The connection, if one stands.
    pub sink: Option<W>,
    /// Whether it has failed for good, as a link to the server itself has from the start.
    pub has_failed: bool,
}

/// The links of one server to all servers of its chain, by their ids.
#[derive(Drop)]
pub struct PeerLinks<W> {
    links: Vec<PeerLink<W>>,
    puts: GhostList<(u8, Peer)>,
}

impl<W: LinkSink + Drop> PeerLink<W> {
    ghost use Rattle.std.specs.Prelude.{◌≡◌, ◌≢◌, ◌⊎◌, ◌↔◌, None, true, false, length, IfErr, IsErrOf, OnErr, OnOk};
    ghost use Rattle.wire.specs.Spellings.{IsInRange, spelling};
    ghost use Rattle.link_streams.specs.Streams.{may_confirm, unsent_to, unwritten, with_bytes};
    ghost use Rattle.links.specs.PeerLinks.{HasWritten, confirmed, connected, disconnected, ended, kept_by};
    ghost use Rattle.links.specs.PeerLinks.{may_connect, waits};

    /// A link to this start of a server: nothing was put, and no connection stands. It allocates nothing.
    pub fn new(alloc: Global, start: u64) -> PeerLink<W>
        ensures stream { result.stream ≡ unsent_to start }
        ensures sink { result.sink ≡ None }
        ensures failed { result.has_failed ≡ false }
    {
        PeerLink {
            stream: SentStream::new(alloc, start),
            sink: None,
            has_failed: false,
        }
    }

    /// No link, as to the server itself: it has failed. It allocates nothing.
    pub fn absent(alloc: Global) -> PeerLink<W>
        ensures stream { result.stream ≡ unsent_to 0 }
        ensures sink { result.sink ≡ None }
        ensures failed { result.has_failed ≡ true }
    {
        PeerLink {
            stream: SentStream::new(alloc, 0),
            sink: None,
            has_failed: true,
        }
    }

    /// Puts a frame after all others, of which nothing is written yet. Refused if the link has failed, or memory is
    /// out; nothing has changed then.
    pub fn put(&mut self, frame: &Frame) -> Result<(), RailFault>
        requires range { IsInRange frame.now }
        ensures put { OnOk result (self.new.stream ≡ with_bytes self.old.stream (spelling frame.now)) }
        ensures stays { OnErr result (self.new.stream ≡ self.old.stream) }
        ensures sink { self.new.sink ≡ self.old.sink }
        ensures failed { self.new.has_failed ≡ self.old.has_failed }
        ensures down { IsErrOf result RailFault.LinkDown ↔ (self.old.has_failed ≡ true) }
        ensures fault { IfErr result (λ fault. (fault ≡ RailFault.Memory) ⊎
            ((fault ≡ RailFault.LinkDown) × (self.new.has_failed ≡ true))) }
    {
        if self.has_failed {
            return Err(RailFault::LinkDown);
        }
        if self.stream.put_frame(frame).is_err() {
            return Err(RailFault::Memory);
        }
        Ok(())
    }

    /// A new connection stands. Its receiver is this start of the server, and goes on after so many bytes. An earlier
    /// connection is dropped. If it is refused, no connection stands. A link that has failed refuses each, as if the
    /// server were another start.
    pub fn connect(&mut self, sink: W, start: u64, count: u64) -> Result<(), StreamFault>
        ensures connected { OnOk result (self.new ≡ connected sink count self.old) }
        ensures refused { OnErr result (self.new ≡ disconnected self.old) }
        ensures may { OnOk result (may_connect start count self.old ≡ true) }
        ensures may_not { OnErr result (may_connect start count self.old ≡ false) }
        ensures other { IsErrOf result StreamFault.OtherStart
            ↔ ((self.old.has_failed ≡ true) ⊎ (start ≢ self.old.stream.start)) }
    {
        self.disconnect();
        if self.has_failed {
            drop(sink);
            return Err(StreamFault::OtherStart);
        }
        if let Err(fault) = self.stream.resume(start, count) {
            drop(sink);
            return Err(fault);
        }
        self.sink = Some(sink);
        Ok(())
    }

    /// No connection stands any more.
    pub fn disconnect(&mut self)
        ensures { self.new ≡ disconnected self.old }
    {
        self.sink = None;
    }

    /// The other server says over the connection that it has handed on so many bytes. They are no longer kept. It may
    /// be no more than were written; nothing has changed then.
    pub fn confirm(&mut self, count: u64) -> Result<(), StreamFault>
        ensures confirmed { OnOk result (self.new ≡ confirmed count self.old) }
        ensures stays { OnErr result (self.new ≡ self.old) }
        ensures unsent { IsErrOf result StreamFault.Unsent ↔ (may_confirm self.old.stream count ≡ false) }
        ensures fault { IfErr result (λ fault. fault ≡ StreamFault.Unsent) }
    {
        self.stream.confirm(count)
    }

    /// Writes what is unwritten over the connection, until all is written or it takes none now. If it fails, no
    /// connection stands any more. Whether something waits for a connection that stands: who calls has to come again
    /// when that one takes more.
    pub fn write_out(&mut self) -> bool
        ensures written { HasWritten W.taken self.old self.new }
        ensures waits { result ≡ waits self.new }
    {
        if self.stream.unwritten().is_empty() {
            return false;
        }
        let Some(sink) = &mut self.sink else {
            return false;
        };
        match write_some(&mut self.stream, sink) {
            Some(waits) => waits,
            None => {
                self.disconnect();
                false
            }
        }
    }

    /// It has failed for good: its connection is dropped, and what it kept.
    pub fn fail(&mut self)
        ensures { self.new ≡ ended self.old }
    {
        self.disconnect();
        self.stream.clear();
        self.has_failed = true;
    }

    /// How many bytes are kept, since the other server hasn't confirmed them.
    pub fn kept(&self) -> usize
        ensures { result ≡ length (kept_by self.now) }
    {
        self.stream.kept()
    }

    /// How many of these the connection has still to take.
    pub fn unwritten(&self) -> usize
        ensures { result ≡ length (unwritten self.now.stream) }
    {
        self.stream.unwritten().len()
    }
}

// Writes what is unwritten, until all is written or the connection takes none now. Whether something is left. None if
// the connection has failed.
fn write_some<W: LinkSink>(stream: &mut SentStream, sink: &mut W) -> Option<bool>
    ensures written { WritesSome W.taken stream.old stream.new sink.old sink.new }
    ensures left { IfSome result (λ left. left ≡ nat_lt 0 (length (unwritten stream.new))) }
{
    let mut left = stream.unwritten().len();
    while left > 0 {
        match sink.take_some(stream.unwritten()) {
            Some(0) => return Some(true),
            Some(n) => {
                stream.written(n);
                left -= n;
            }
            None => return None,
        }
    }
    Some(false)
}

impl<W: LinkSink + Drop> PeerLinks<W> {
    ghost use Rattle.std.specs.Prelude.{◌≡◌, ◌≢◌, ◌<◌, ℕ, [], true, false, length, OnErr, OnOk};
    ghost use Rattle.link_streams.specs.Streams.{may_confirm};
    ghost use Rattle.links.specs.PeerLinks.{HaveWritten, changed_at, confirmed, connected, disconnected, ended};
    ghost use Rattle.links.specs.PeerLinks.{failures_at, given_at, kept_at, may_connect, meets_at, some_waits};
    ghost use Rattle.links.specs.PeerLinks.{unwritten_at};

    /// The links to these servers, each at the place of its server's id, over which nothing was put.
    pub fn new(alloc: Global, links: Vec<PeerLink<W>>) -> PeerLinks<W>
        ensures list { result.puts ≡ [] }
        ensures links { result.links.items ≡ links.items }
    {
        PeerLinks {
            links,
            puts: GhostList::new(alloc),
        }
    }

    /// Writes what is unwritten, over each link whose connection stands. Whether something waits for one of these: who
    /// calls has to come again when that one takes more.
    pub fn write_out(&mut self) -> bool
        // Nothing is put meanwhile.
        ensures list { self.new.puts ≡ self.old.puts }
        ensures written { HaveWritten W.taken (length self.old.links.items) self.old.links.items self.new.links.items }
        ensures waits { result ≡ some_waits self.new.links.items }
        // Each link carries what it carried, and none fails.
        ensures given { (j : ℕ) → given_at self.new.links.items j ≡ given_at self.old.links.items j }
        ensures failures { (j : ℕ) → failures_at self.new.links.items j ≡ failures_at self.old.links.items j }
    {
        write_each(&mut self.links)
    }

    /// A new connection to a server stands (`PeerLink::connect`). To a server outside the chain it is refused.
    pub fn connect_at(&mut self, j: u8, sink: W, start: u64, count: u64) -> Result<(), StreamFault>
        ensures list { self.new.puts ≡ self.old.puts }
        ensures connected { OnOk result
            (self.new.links.items ≡ changed_at (connected sink count) self.old.links.items j) }
        ensures refused { OnErr result (self.new.links.items ≡ changed_at disconnected self.old.links.items j) }
        ensures may { OnOk result (meets_at (may_connect start count) self.old.links.items j ≡ true) }
        ensures may_not { OnErr result (meets_at (may_connect start count) self.old.links.items j ≡ false) }
        // Each link carries what it carried, and none fails.
        ensures given { (k : ℕ) → given_at self.new.links.items k ≡ given_at self.old.links.items k }
        ensures failures { (k : ℕ) → failures_at self.new.links.items k ≡ failures_at self.old.links.items k }
    {
        connect_to(&mut self.links, j, sink, start, count)
    }

    /// No connection to a server stands any more.
    pub fn disconnect_at(&mut self, j: u8)
        ensures list { self.new.puts ≡ self.old.puts }
        ensures disconnected { self.new.links.items ≡ changed_at disconnected self.old.links.items j }
        // Each link carries what it carried, and none fails.
        ensures given { (k : ℕ) → given_at self.new.links.items k ≡ given_at self.old.links.items k }
        ensures failures { (k : ℕ) → failures_at self.new.links.items k ≡ failures_at self.old.links.items k }
    {
        disconnect_from(&mut self.links, j);
    }

    /// A server says over its connection that it has handed on so many bytes (`PeerLink::confirm`). It is refused of a
    /// server outside the chain.
    pub fn confirm_at(&mut self, j: u8, count: u64) -> Result<(), StreamFault>
        ensures list { self.new.puts ≡ self.old.puts }
        ensures confirmed { OnOk result
            (self.new.links.items ≡ changed_at (confirmed count) self.old.links.items j) }
        ensures stays { OnErr result (self.new.links.items ≡ self.old.links.items) }
        ensures may { OnOk result
            (meets_at (λ link. may_confirm link.stream count) self.old.links.items j ≡ true) }
        ensures may_not { OnErr result
            (meets_at (λ link. may_confirm link.stream count) self.old.links.items j ≡ false) }
        // Each link carries what it carried, and none fails.
        ensures given { (k : ℕ) → given_at self.new.links.items k ≡ given_at self.old.links.items k }
        ensures failures { (k : ℕ) → failures_at self.new.links.items k ≡ failures_at self.old.links.items k }
    {
        confirm_of(&mut self.links, j, count)
    }

    /// The link to a server has failed for good (`PeerLink::fail`).
    pub fn fail_at(&mut self, j: u8)
        ensures list { self.new.puts ≡ self.old.puts }
        ensures failed { self.new.links.items ≡ changed_at ended self.old.links.items j }
        ensures down { 0 < failures_at self.new.links.items j }
        // Each other link carries what it carried, and doesn't fail.
        ensures given { (k : ℕ) → k ≢ j → given_at self.new.links.items k ≡ given_at self.old.links.items k }
        ensures failures { (k : ℕ) → k ≢ j →
            failures_at self.new.links.items k ≡ failures_at self.old.links.items k }
    {
        give_up(&mut self.links, j);
    }

    /// How many bytes the link to a server keeps, since they aren't confirmed; none outside the chain.
    pub fn kept_at(&self, j: u8) -> usize
        ensures { result ≡ kept_at self.now.links.items j }
    {
        kept_of(self.links.as_slice(), j)
    }

    /// How many of these bytes no connection has taken yet; none outside the chain.
    pub fn unwritten_at(&self, j: u8) -> usize
        ensures { result ≡ unwritten_at self.now.links.items j }
    {
        unwritten_of(self.links.as_slice(), j)
    }
}

impl<W: LinkSink + Drop> Links for PeerLinks<W> {
    ghost use Rattle.std.specs.Prelude.{ℕ};
    ghost use Rattle.wire.specs.Spellings.{spelling};
    ghost use Rattle.wire.specs.declared.frames.Frame.TheVariants as frames;
    ghost use Rattle.links.specs.PeerLinks.{failures_at, failures_of, given_at};

    ghost Carried = { ℕ };

    ghost state = { λ s. record {
      list = s.puts;
      failures = failures_at s.links.items;
      carried = given_at s.links.items;
      spelled = λ peer. spelling (frames.Peer peer);
    } };

    fn failed(&self, to: u8) -> bool {
        has_failed(self.links.as_slice(), to)
    }

    fn put(&mut self, _published: &Published, to: u8, peer: Peer) -> Result<(), RailFault>
        requires fit { IsFit (To to peer) }
        ensures ok { OnOk result (self.new.puts ≡ self.old.puts ++ (to, peer) ∷ []) }
        ensures err { OnErr result (self.new.puts ≡ self.old.puts) }
        ensures failures { (j : ℕ) → failures_at self.old.links.items j ≤ failures_at self.new.links.items j }
        ensures fault { IfErr result (λ f. (f ≡ Memory) ⊎
            ((f ≡ LinkDown) × (0 < failures_at self.new.links.items to))) }
        // The link to that server was given what was put, and no other was given anything.
        ensures given { OnOk result (given_at self.new.links.items to ≡
            given_at self.old.links.items to ++ spelling (frames.Peer peer)) }
        // If it was given that, and it couldn't be noted, the link has failed.
        ensures unput { OnErr result ((0 < failures_at self.new.links.items to) ⊎
            (given_at self.new.links.items to ≡ given_at self.old.links.items to)) }
        ensures elsewhere { (j : ℕ) → j ≢ to →
            given_at self.new.links.items j ≡ given_at self.old.links.items j }
        ensures up { (j : ℕ) → OnOk result (failures_of self.new j ≡ failures_of self.old j) }
        ensures others { (j : ℕ) → j ≢ to → failures_of self.new j ≡ failures_of self.old j }
    {
        let (snapshot, frame) = framed(to, peer);
        let given = put_to(&mut self.links, to, &frame);
        drop(frame);
        given?;
        match self.puts.add(snapshot) {
            Ok(()) => Ok(()),
            Err(_) => {
                give_up(&mut self.links, to);
                Err(RailFault::Memory)
            }
        }
    }
}

// The frame of a message, and what contracts see of it.
fn framed(to: u8, peer: Peer) -> (Snapshot<(u8, Peer)>, Frame)
    ensures snapshot { result.0.value ≡ (to, peer) }
    ensures frame { result.1 ≡ Frame.Peer peer }
{
    let message = (to, peer);
    let snapshot = Snapshot::of(&message);
    let (_, peer) = message;
    (snapshot, Frame::Peer(peer))
}

// Whether the link to a server has failed.
#[tactic(auto, using(crate::proofs::PeerLinked::tells_failed, crate::proofs::PeerLinked::tells_beyond))]
fn has_failed<W: LinkSink + Drop>(links: &[PeerLink<W>], to: u8) -> bool
    ensures { result ≡ nat_lt 0 (failures_at links.now to) }
{
    let place = usize::from(to);
    if place < links.len() {
        links[place].has_failed
    } else {
        true
    }
}

// How many bytes the link to a server keeps.
fn kept_of<W: LinkSink + Drop>(links: &[PeerLink<W>], to: u8) -> usize
    ensures { result ≡ kept_at links.now to }
{
    let place = usize::from(to);
    if place < links.len() {
        links[place].kept()
    } else {
        0
    }
}

// How many bytes of the link to a server no connection has taken yet.
fn unwritten_of<W: LinkSink + Drop>(links: &[PeerLink<W>], to: u8) -> usize
    ensures { result ≡ unwritten_at links.now to }
{
    let place = usize::from(to);
    if place < links.len() {
        links[place].unwritten()
    } else {
        0
    }
}

// Puts a frame to a server whose link hasn't failed.
#[tactic(auto, using(crate::proofs::PeerLinked::failed_at, crate::proofs::PeerLinked::same_failures, crate::proofs::PeerLinked::beyond, crate::proofs::PeerLinked::given_there, crate::proofs::PeerLinked::given_now, crate::proofs::PeerLinked::given_elsewhere))]
fn put_to<W: LinkSink + Drop>(
    links: &mut Vec<PeerLink<W>>,
    to: u8,
    frame: &Frame,
) -> Result<(), RailFault>
    requires range { IsInRange frame.now }
    ensures given { OnOk result
        (given_at links.new.items to ≡ given_at links.old.items to ++ spelling frame.now) }
    ensures unput { OnErr result (given_at links.new.items to ≡ given_at links.old.items to) }
    ensures elsewhere { (j : ℕ) → j ≢ to → given_at links.new.items j ≡ given_at links.old.items j }
    ensures failures { (j : ℕ) → failures_at links.new.items j ≡ failures_at links.old.items j }
    ensures fault { IfErr result (λ fault. (fault ≡ RailFault.Memory) ⊎
        ((fault ≡ RailFault.LinkDown) × (0 < failures_at links.new.items to))) }
{
    let place = usize::from(to);
    if place < links.len() {
        links[place].put(frame)
    } else {
        Err(RailFault::LinkDown)
    }
}

// Writes what is unwritten on each of these links. Whether something waits on one of them.
fn write_each<W: LinkSink + Drop>(links: &mut Vec<PeerLink<W>>) -> bool
    ensures written { HaveWritten W.taken (length links.old.items) links.old.items links.new.items }
    ensures waits { result ≡ some_waits links.new.items }
{
    let mut waits = false;
    for place in 0..links.len() {
        waits = either(links[place].write_out(), waits);
    }
    waits
}

// Whether one of these holds.
fn either(one: bool, other: bool) -> bool
    ensures { result ≡ (one || other) }
{
    one || other
}

// A new connection to a server stands.
fn connect_to<W: LinkSink + Drop>(
    links: &mut Vec<PeerLink<W>>,
    to: u8,
    sink: W,
    start: u64,
    count: u64,
) -> Result<(), StreamFault>
    ensures connected { OnOk result (links.new.items ≡ changed_at (connected sink count) links.old.items to) }
    ensures refused { OnErr result (links.new.items ≡ changed_at disconnected links.old.items to) }
    ensures may { OnOk result (meets_at (may_connect start count) links.old.items to ≡ true) }
    ensures may_not { OnErr result (meets_at (may_connect start count) links.old.items to ≡ false) }
{
    let place = usize::from(to);
    if place < links.len() {
        links[place].connect(sink, start, count)
    } else {
        drop(sink);
        Err(StreamFault::OtherStart)
    }
}

// No connection to a server stands any more.
fn disconnect_from<W: LinkSink + Drop>(links: &mut Vec<PeerLink<W>>, to: u8)
    ensures { links.new.items ≡ changed_at disconnected links.old.items to }
{
    let place = usize::from(to);
    if place < links.len() {
        links[place].disconnect();
    }
}

// A server has confirmed so many bytes.
fn confirm_of<W: LinkSink + Drop>(
    links: &mut Vec<PeerLink<W>>,
    to: u8,
    count: u64,
) -> Result<(), StreamFault>
    ensures confirmed { OnOk result (links.new.items ≡ changed_at (confirmed count) links.old.items to) }
    ensures stays { OnErr result (links.new.items ≡ links.old.items) }
    ensures may { OnOk result (meets_at (λ link. may_confirm link.stream count) links.old.items to ≡ true) }
    ensures may_not { OnErr result (meets_at (λ link. may_confirm link.stream count) links.old.items to ≡ false) }
{
    let place = usize::from(to);
    if place < links.len() {
        links[place].confirm(count)
    } else {
        Err(StreamFault::Unsent)
    }
}

// The link to a server has failed from now on.
fn give_up<W: LinkSink + Drop>(links: &mut Vec<PeerLink<W>>, to: u8)
    ensures { links.new.items ≡ changed_at ended links.old.items to }
{
    let place = usize::from(to);
    if place < links.len() {
        links[place].fail();
    }
}
