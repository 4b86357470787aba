//! One who speaks at a server's peer port.
ghost use Rattle.std.specs.Prelude.{◌≡◌, ◌⊎◌, ◌+◌, ◌++◌, ◌∷◌, [], false, IfOk, OnOk, OnErr, MatchResult};
ghost use Rattle.ends.specs.Ends.{WritesBeginning};
ghost use Rattle.node.specs.Views.{union};
ghost use Rattle.peers.specs.Links.{MayCome};
ghost use Rattle.links.specs.PeerConnections.{named_in};
ghost use Rattle.links.specs.PeerPorts.{IsCalledGone, host_of};
ghost use Rattle.links.specs.Orders.{Answers, bytes_of};
ghost use Rattle.links.specs.Speakers.{Hears, IsAnswerBegun, IsAnswered, Notes};
ghost use Rattle.wire.specs.Spellings.{spelling};

use crate::ghost_lists::GhostList;
use crate::orders::Response;
use crate::peer_ports::{LinkControl, PeerPort};
use crate::speakers::Speaker;
use ends::{Failures, Sink};
use node::View;
use peers::{TakeFault, Taker, put_frame};
use std::alloc::Global;
use std::marker::Model;
use std::snapshot::Snapshot;
use std::sync::{Arc, Wait};
use wire::Frame;

/// One who was accepted there. Its frames are brought to the server as long as it keeps the rules (`Speaker::hear`),
/// and each notice is answered as soon as it was brought, each order as soon as the lease has heard it. If a notice or
/// a message calls the server itself gone, the server is ended. Contracts see who speaks, the sink, whom its messages
/// have called gone, and what was taken.
#[derive(Drop)]
pub struct PeerConnection<C, W> {
    alloc: Global,
    shared_port: Arc<PeerPort<C>, Global>,
    speaker: Speaker,
    // Where it is answered.
    sink: W,
    // Whom its messages have called gone.
    view: View,
    taken: GhostList<Frame>,
    failures: Failures,
}

impl<C, W> Model for PeerConnection<C, W> {
    ghost use Rattle.links.specs.PeerConnections.{PeerConnectionState};

    ghost Value = { PeerConnectionState W };

    ghost view = { λ g. record {
      speaker = g.speaker;
      sink = g.sink;
      named = g.view;
      taken = g.taken;
      failures = g.failures;
    } };
}

impl<C: LinkControl + Drop, W: Sink + Drop> PeerConnection<C, W> {
    /// One who was accepted as this speaker, and is answered there.
    pub fn new(
        alloc: Global,
        shared_port: Arc<PeerPort<C>, Global>,
        speaker: Speaker,
        sink: W,
    ) -> PeerConnection<C, W>
        ensures speaker { result.speaker ≡ speaker }
        ensures sink { result.sink ≡ sink }
        ensures named { result.named ≡ 0 }
        ensures taken { result.taken ≡ [] }
        ensures failures { result.failures ≡ 0 }
    {
        PeerConnection {
            alloc,
            shared_port,
            speaker,
            sink,
            view: View::empty(),
            taken: GhostList::new(alloc),
            failures: Failures::new(),
        }
    }

    /// How many bytes of a server's link were handed on. None of a master.
    pub fn handed(&self) -> Option<u64> {
        self.speaker.handed()
    }

    /// Who spoke, once the connection has ended. It is answered no more.
    pub fn into_speaker(self) -> Speaker
        ensures { result ≡ self.speaker }
    {
        let PeerConnection {
            shared_port,
            speaker,
            sink,
            taken,
            ..
        } = self;
        drop(shared_port);
        drop(sink);
        drop(taken);
        speaker
    }
}

impl<C: LinkControl + Drop, W: Sink + Drop> Taker for PeerConnection<C, W> {
    ghost use Rattle.std.specs.Prelude.{◌≡◌, ◌⊎◌};
    ghost use Rattle.links.specs.Speakers.{Hears, IsAnswerBegun, IsAnswered};

    ghost taken = { λ g. g.taken };

    ghost failures = { λ g. g.failures };

    // The server was brought it, and it was answered as its kind is; nothing else was.
    ghost hears = { λ before frame now.
        Hears before.speaker frame now.speaker
        × IsAnswered before.speaker frame now.speaker (W.written before.sink) (W.written now.sink) };

    // The server was brought nothing, and nothing was written; or it was brought it, and a beginning of the answer was
    // written: then the rest couldn't be, or memory ran out.
    ghost misses = { λ before frame now.
        ((now.speaker ≡ before.speaker) × (W.written now.sink ≡ W.written before.sink))
        ⊎ (Hears before.speaker frame now.speaker
        × IsAnswerBegun before.speaker frame now.speaker (W.written before.sink) (W.written now.sink)) };

    fn take<R: Wait>(&mut self, rt: &R, frame: Frame) -> Result<(), TakeFault>
        requires { MayCome frame }
        ensures taken { OnOk result (self.new.taken ≡ self.old.taken ++ frame ∷ []) }
        ensures refused { OnErr result (self.new.taken ≡ self.old.taken) }
        ensures counted { MatchResult result
            (λ _. self.new.failures ≡ self.old.failures)
            (λ _. self.new.failures ≡ self.old.failures + 1) }
        // What it has taken was heard.
        ensures heard { OnOk result (Hears self.old.speaker frame self.new.speaker) }
        // It was answered as its kind is, and nothing else was.
        ensures answered { OnOk result (IsAnswered
            self.old.speaker frame self.new.speaker (W.written self.old.sink) (W.written self.new.sink)) }
        // What it hasn't taken was neither heard nor answered, or was heard and a beginning of its answer was written.
        ensures missed { OnErr result
            (((self.new.speaker ≡ self.old.speaker) × (W.written self.new.sink ≡ W.written self.old.sink))
            ⊎ (Hears self.old.speaker frame self.new.speaker × IsAnswerBegun
            self.old.speaker frame self.new.speaker (W.written self.old.sink) (W.written self.new.sink))) }
        ensures named { self.new.named ≡ union self.old.named (named_in frame) }
    {
        let snapshot = Snapshot::of(&frame);
        let shared_port = &*self.shared_port;
        let view = &mut self.view;
        let attended = attend(
            rt,
            self.alloc,
            shared_port,
            view,
            &mut self.speaker,
            &mut self.sink,
            frame,
        );
        if attended.is_ok() && self.taken.add(snapshot).is_ok() {
            return Ok(());
        }
        self.failures.rise();
        Err(TakeFault)
    }
}

// Does what a frame asks for, and answers it. If a notice names the server itself, the server is ended after the
// answer.
fn attend<R: Wait, C: LinkControl, W: Sink>(
    rt: &R,
    alloc: Global,
    shared_port: &PeerPort<C>,
    view: &mut View,
    speaker: &mut Speaker,
    sink: &mut W,
    frame: Frame,
) -> Result<(), TakeFault>
    requires { MayCome frame }
    ensures heard { OnOk result (Hears speaker.old frame speaker.new) }
    ensures answered { OnOk result
        (IsAnswered speaker.old frame speaker.new (W.written sink.old) (W.written sink.new)) }
    ensures begun { ((speaker.new ≡ speaker.old) × (W.written sink.new ≡ W.written sink.old))
        ⊎ (Hears speaker.old frame speaker.new
        × IsAnswerBegun speaker.old frame speaker.new (W.written sink.old) (W.written sink.new)) }
    ensures named { view.new ≡ union view.old (named_in frame) }
{
    let response = hear(rt, shared_port, view, speaker, frame)?;
    let answered = answer(alloc, sink, response);
    end_if_named(rt, shared_port, response);
    answered
}

// Whom a message's sender calls gone.
fn view_in(frame: &Frame) -> View
    ensures { result ≡ named_in frame.now }
{
    match frame {
        Frame::Peer(peer) => peer.view,
        _ => View::empty(),
    }
}

// Does what a frame asks for (`Speaker::hear`), unless it calls the server itself gone, which ends the server then.
fn hear<R: Wait, C: LinkControl>(
    rt: &R,
    shared_port: &PeerPort<C>,
    view: &mut View,
    speaker: &mut Speaker,
    frame: Frame,
) -> Result<Response, TakeFault>
    requires { MayCome frame }
    ensures heard { OnOk result (Hears speaker.old frame speaker.new) }
    ensures answered { IfOk result (λ response. Answers frame (bytes_of response)) }
    ensures noted { IfOk result (λ response. Notes speaker.old response speaker.new) }
    ensures refused { OnErr result (speaker.new ≡ speaker.old) }
    ensures named { view.new ≡ union view.old (named_in frame) }
{
    if learn(rt, shared_port, view, view_in(&frame)) {
        speaker.hear(rt, shared_port, frame)
    } else {
        drop(frame);
        Err(TakeFault)
    }
}

// Learns whom a message calls gone, beside those of earlier messages. If the server itself is among them it is ended.
// It tells whether it isn't.
fn learn<R: Wait, C: LinkControl>(
    rt: &R,
    shared_port: &PeerPort<C>,
    before: &mut View,
    view: View,
) -> bool
    ensures ended { result ≡ false → IsCalledGone (host_of shared_port.now) view }
    ensures named { before.new ≡ union before.old view }
{
    let is_news = before.adds(view);
    *before = before.union(view);
    if !is_news || shared_port.learn(rt, view) {
        return true;
    }
    shared_port.end(rt);
    false
}

// Ends the server if a notice that was brought names it.
fn end_if_named<R: Wait, C: LinkControl>(rt: &R, shared_port: &PeerPort<C>, response: Response) {
    if let Response::Noted(j) = response {
        if j == shared_port.host().id {
            shared_port.end(rt);
        }
    }
}

// Answers, if anything is answered.
#[tactic(auto, using(crate::proofs::Answering::nothing_begun))]
fn answer<W: Sink>(alloc: Global, sink: &mut W, response: Response) -> Result<(), TakeFault>
    ensures written { OnOk result (W.written sink.new ≡ W.written sink.old ++ bytes_of response) }
    ensures begun { WritesBeginning (W.written sink.old) (W.written sink.new) (bytes_of response) }
{
    match response {
        Response::Nothing => Ok(()),
        Response::Noted(j) => put(alloc, sink, Frame::Noted(j)),
        Response::Alive(alive) => put(alloc, sink, Frame::Alive(alive)),
    }
}

// Puts a frame of its own, if its numbers are in range.
fn put<W: Sink>(alloc: Global, sink: &mut W, frame: Frame) -> Result<(), TakeFault>
    ensures written { OnOk result (W.written sink.new ≡ W.written sink.old ++ spelling frame) }
    ensures begun { WritesBeginning (W.written sink.old) (W.written sink.new) (spelling frame) }
{
    let answered = put_in_range(alloc, sink, &frame);
    drop(frame);
    answered
}

// Puts a frame, if its numbers are in range.
#[tactic(auto, using(crate::proofs::Answering::nothing_begun, crate::proofs::Answering::whole_begun))]
fn put_in_range<W: Sink>(alloc: Global, sink: &mut W, frame: &Frame) -> Result<(), TakeFault>
    ensures written { OnOk result (W.written sink.new ≡ W.written sink.old ++ spelling frame.now) }
    ensures begun { WritesBeginning (W.written sink.old) (W.written sink.new) (spelling frame.now) }
{
    if !frame.is_in_range() {
        return Err(TakeFault);
    }
    match put_frame(alloc, sink, frame) {
        Ok(()) => Ok(()),
        Err(_) => Err(TakeFault),
    }
}
