//! Who speaks at a server's peer port, and what the server hears of it.
ghost use Rattle.std.specs.Prelude.{◌≡◌, ◌++◌, ◌∷◌, ◌⊎◌, ◌<◌, [], ℕ, List, OnOk, OnErr, IfOk, IfSome, length};
ghost use Rattle.peers.specs.Links.{MayCome};
ghost use Rattle.node.specs.Lawful.{IsBody};
ghost use Rattle.links.specs.declared.speakers.Who.TheVariants.{Server, Master};
ghost use Rattle.leases.specs.declared.orders.Order.TheVariants as orders;
ghost use Rattle.links.specs.PeerPorts.{host_of};
ghost use Rattle.links.specs.Orders.{Answers, IsAnswer, NamesServer, TellsHow, bytes_of, stamp_in};
ghost use Rattle.links.specs.GreeterInlets.{places, waiting_link};
ghost use Rattle.links.specs.Speakers.{Hears, NamesOneOf, Notes, SpeaksFor, WaitsAgain, handed_of};
ghost use Rattle.wire.specs.Spellings.{spelling};

use crate::admissions::Heard;
use crate::greeter_inlets::GreeterInlets;
use crate::incoming_links::IncomingLink;
use crate::notices::Notices;
use crate::orders::{Response, alive_of, order_of};
use crate::peer_ports::{LinkControl, PeerPort};
use leases::{Answer, Order};
use node::{Peer, SERVERS, View};
use peers::TakeFault;
use std::alloc::Global;
use std::marker::Model;
use std::sync::Wait;
use wire::{Beat, Frame, Silent, size};

/// Who speaks on an accepted connection. Only `PeerAdmission::admit` makes one: that of a server has the link that
/// waited for it, of which there is one (`GreeterInlets::take`). So at an admission each server has one speaker at a
/// time at most: who greets with the id of one that speaks gets none until that one is given back
/// (`PeerAdmission::give_back`). And all of them are of the start that greeted first, for ever. This holds too of an
/// admission that stands under a lock, as that of a `PeerPort`, where no contract can say who greeted before. Contracts
/// see who it is, and what it has brought (`Who`).
#[derive(Drop)]
pub struct Speaker {
    who: Who,
}

/// A server, or a master. No other crate can name it.
#[derive(Drop)]
pub enum Who {
    /// The server of this id, with the link by which the server hears it.
    Server(u8, IncomingLink),
    /// A master, with the servers of which it has brought a notice, by the inlet that all masters share.
    Master(Notices),
}

impl Model for Speaker {
    ghost use Rattle.links.specs.declared.speakers.Who.{Who};

    ghost Value = { Who };

    ghost view = { λ s. s.who };
}

impl Speaker {
    /// The server of this id, which is heard by this link.
    pub(crate) fn server(id: u8, link: IncomingLink) -> Speaker
        ensures { result ≡ Server id link }
    {
        Speaker {
            who: Who::Server(id, link),
        }
    }

    /// A master that has brought no notice.
    pub(crate) fn master(alloc: Global) -> Speaker
        ensures { result ≡ Master [] }
    {
        Speaker {
            who: Who::Master(Notices::new(alloc)),
        }
    }

    /// How many bytes of a server's link were handed on, in whole frames: where its connection goes on. None of a
    /// master.
    pub fn handed(&self) -> Option<u64>
        ensures { result ≡ handed_of self.now }
    {
        match &self.who {
            Who::Server(_, link) => Some(link.handed()),
            Who::Master(_) => None,
        }
    }

    /// The link of a server waits again. If the chain hasn't this server, it is dropped.
    pub(crate) fn give_back(self, greeter_inlets: &mut GreeterInlets)
        ensures waits { WaitsAgain self greeter_inlets.old greeter_inlets.new }
        ensures others { (j : ℕ)
            → (SpeaksFor self j → ⊥) → waiting_link greeter_inlets.new j ≡ waiting_link greeter_inlets.old j }
        ensures places { places greeter_inlets.new ≡ places greeter_inlets.old }
    {
        let Speaker { who } = self;
        match who {
            Who::Server(id, link) => greeter_inlets.put_back(id, link.wait()),
            Who::Master(told) => drop(told),
        }
    }

    /// Does what a frame asks for, if the frame keeps the rules, and says what answers it: a server sends messages, a
    /// master sends notices of failures, and each is brought to the server as it is. A message's bytes count as handed
    /// on once it was brought. A master's orders are heard by the server's lease; one that is a notice of silence, and
    /// is taken, is brought as another notice is. Any other frame is refused, and so is one that can't be brought, or
    /// with which the link has 2^64 bytes or more, and an order if the clock can't be read; then nothing was brought.
    /// Before a notice is brought, the connection to the server that has failed is ended. It may wait, also for other
    /// masters.
    pub fn hear<R: Wait, C: LinkControl>(
        &mut self,
        rt: &R,
        shared_port: &PeerPort<C>,
        frame: Frame,
    ) -> Result<Response, TakeFault>
        requires { MayCome frame }
        ensures heard { OnOk result (Hears self.old frame self.new) }
        ensures answered { IfOk result (λ response. Answers frame (bytes_of response)) }
        ensures noted { IfOk result (λ response. Notes self.old response self.new) }
        ensures chain { OnOk result (NamesOneOf (host_of shared_port.now) frame) }
        ensures refused { OnErr result (self.new ≡ self.old) }
    {
        let count = count_of(&frame);
        hear(rt, shared_port, &mut self.who, frame, count)
    }
}

// Does what a frame of so many bytes asks for.
#[tactic(auto, using(crate::proofs::Telling::any_frame))]
fn hear<R: Wait, C: LinkControl>(
    rt: &R,
    shared_port: &PeerPort<C>,
    who: &mut Who,
    frame: Frame,
    count: Option<usize>,
) -> Result<Response, TakeFault>
    requires may_come { MayCome frame }
    requires count { IfSome count (λ n. n ≡ length (spelling frame)) }
    ensures heard { OnOk result (Hears who.old frame who.new) }
    ensures answered { IfOk result (λ response. Answers frame (bytes_of response)) }
    ensures noted { IfOk result (λ response. Notes who.old response who.new) }
    ensures chain { OnOk result (NamesOneOf (host_of shared_port.now) frame) }
    ensures refused { OnErr result (who.new ≡ who.old) }
{
    match frame {
        Frame::Peer(peer) => bring(rt, who, peer, count),
        Frame::Gone(j) => tell(rt, shared_port, who, j),
        Frame::Reign(epoch) => greet(rt, shared_port, who, epoch),
        Frame::Beat(beat) => prolong(rt, shared_port, who, beat),
        Frame::Silent(silent) => silence(rt, shared_port, who, silent),
        Frame::Hello(_)
        | Frame::Introduction(_)
        | Frame::Accepted(_)
        | Frame::Refused(_)
        | Frame::Alive(_)
        | Frame::Confirmed(_)
        | Frame::Stalled(_)
        | Frame::Noted(_) => Err(TakeFault),
    }
}

// How many bytes a frame has, if its numbers are in range.
fn count_of(frame: &Frame) -> Option<usize>
    ensures { IfSome result (λ n. n ≡ length (spelling frame.now)) }
{
    if frame.is_in_range() {
        Some(size(frame))
    } else {
        None
    }
}

// Brings a message, whose frame has so many bytes, if a server speaks. Refused if there is no such count.
fn bring<R: Wait>(
    rt: &R,
    who: &mut Who,
    peer: Peer,
    count: Option<usize>,
) -> Result<Response, TakeFault>
    requires body { IsBody peer.body }
    requires count { IfSome count (λ n. n ≡ length (spelling (Frame.Peer peer))) }
    ensures heard { OnOk result (Hears who.old (Frame.Peer peer) who.new) }
    ensures answered { IfOk result (λ response. Answers (Frame.Peer peer) (bytes_of response)) }
    ensures noted { IfOk result (λ response. Notes who.old response who.new) }
    ensures refused { OnErr result (who.new ≡ who.old) }
{
    match count {
        Some(count) => bring_counted(rt, who, peer, count),
        None => {
            drop(peer);
            Err(TakeFault)
        }
    }
}

// The same of a frame of n bytes.
fn bring_counted<R: Wait>(
    rt: &R,
    who: &mut Who,
    peer: Peer,
    n: usize,
) -> Result<Response, TakeFault>
    requires body { IsBody peer.body }
    requires count { n ≡ length (spelling (Frame.Peer peer)) }
    ensures heard { OnOk result (Hears who.old (Frame.Peer peer) who.new) }
    ensures answered { IfOk result (λ response. Answers (Frame.Peer peer) (bytes_of response)) }
    ensures noted { IfOk result (λ response. Notes who.old response who.new) }
    ensures refused { OnErr result (who.new ≡ who.old) }
{
    match who {
        Who::Server(id, link) => match link.bring(rt, *id, peer, n) {
            Ok(()) => Ok(Response::Nothing),
            Err(_) => Err(TakeFault),
        },
        Who::Master(_) => {
            drop(peer);
            Err(TakeFault)
        }
    }
}

// Brings a notice that server `j` has failed, if a master speaks. The link to that server is cut first.
fn tell<R: Wait, C: LinkControl>(
    rt: &R,
    shared_port: &PeerPort<C>,
    who: &mut Who,
    j: u8,
) -> Result<Response, TakeFault>
    ensures heard { OnOk result (Hears who.old (Frame.Gone j) who.new) }
    ensures answered { IfOk result (λ response. Answers (Frame.Gone j) (bytes_of response)) }
    ensures noted { IfOk result (λ response. Notes who.old response who.new) }
    ensures refused { OnErr result (who.new ≡ who.old) }
{
    match who {
        Who::Master(told) => {
            if j < SERVERS {
                shared_port.learn(rt, View::single(j));
            }
            let mut inlet = shared_port.notices().lock(rt);
            told.bring_notice(rt, &mut inlet, j)?;
            Ok(Response::Noted(j))
        }
        Who::Server(..) => Err(TakeFault),
    }
}

// A master of this epoch greets, if a master speaks.
fn greet<R: Wait, C: LinkControl>(
    rt: &R,
    shared_port: &PeerPort<C>,
    who: &Who,
    epoch: u64,
) -> Result<Response, TakeFault>
    ensures heard { OnOk result (Hears who.now (Frame.Reign epoch) who.now) }
    ensures answered { IfOk result (λ response. TellsHow (orders.Reign epoch) (bytes_of response)) }
    ensures noted { IfOk result (λ response. Notes who.now response who.now) }
{
    match who {
        Who::Master(_) => report(rt, shared_port, Order::Reign(epoch)),
        Who::Server(..) => Err(TakeFault),
    }
}

// A beat came, if a master speaks.
fn prolong<R: Wait, C: LinkControl>(
    rt: &R,
    shared_port: &PeerPort<C>,
    who: &Who,
    beat: Beat,
) -> Result<Response, TakeFault>
    ensures heard { OnOk result (Hears who.now (Frame.Beat beat) who.now) }
    ensures answered { IfOk result
        (λ response. TellsHow (orders.Beat beat.epoch (stamp_in beat.stamp)) (bytes_of response)) }
    ensures noted { IfOk result (λ response. Notes who.now response who.now) }
{
    match who {
        Who::Master(_) => report(rt, shared_port, order_of(beat)),
        Who::Server(..) => Err(TakeFault),
    }
}

// A notice of silence came, if a master speaks.
fn silence<R: Wait, C: LinkControl>(
    rt: &R,
    shared_port: &PeerPort<C>,
    who: &mut Who,
    silent: Silent,
) -> Result<Response, TakeFault>
    ensures heard { OnOk result (Hears who.old (Frame.Silent silent) who.new) }
    ensures answered { IfOk result (λ response. Answers (Frame.Silent silent) (bytes_of response)) }
    ensures noted { IfOk result (λ response. Notes who.old response who.new) }
    ensures chain { OnOk result (silent.id < (host_of shared_port.now).servers) }
    ensures refused { OnErr result (who.new ≡ who.old) }
{
    match who {
        Who::Master(told) => silence_by(rt, shared_port, told, silent),
        Who::Server(..) => Err(TakeFault),
    }
}

// The same of a master that has told of these. If the notice is taken, it is brought; else the server tells how it is.
#[tactic(auto, using(crate::proofs::Telling::tells_how))]
fn silence_by<R: Wait, C: LinkControl>(
    rt: &R,
    shared_port: &PeerPort<C>,
    told: &mut Notices,
    silent: Silent,
) -> Result<Response, TakeFault>
    ensures told { OnOk result ((told.new ≡ told.old ++ silent.id ∷ []) ⊎ (told.new ≡ told.old)) }
    ensures answered { IfOk result (λ response. Answers (Frame.Silent silent) (bytes_of response)) }
    ensures noted { IfOk result (λ response. Notes (Master told.old) response (Master told.new)) }
    ensures chain { OnOk result (silent.id < (host_of shared_port.now).servers) }
    ensures refused { OnErr result (told.new ≡ told.old) }
{
    let Silent { epoch, id } = silent;
    if id >= SERVERS || id >= shared_port.host().servers {
        return Err(TakeFault);
    }
    match heed(rt, shared_port, Order::Silent(epoch, id))?.answer() {
        Answer::Tells(report) => Ok(Response::Alive(alive_of(report))),
        Answer::Notes(named) => {
            let mut inlet = shared_port.notices().lock(rt);
            told.bring_notice(rt, &mut inlet, named)?;
            Ok(Response::Noted(named))
        }
    }
}

// How the server is, once its lease has heard an order that is no notice.
#[tactic(auto, using(crate::proofs::Telling::tells_how))]
fn report<R: Wait, C: LinkControl>(
    rt: &R,
    shared_port: &PeerPort<C>,
    order: Order,
) -> Result<Response, TakeFault>
    requires server { NamesServer order }
    ensures answered { IfOk result (λ response. TellsHow order (bytes_of response)) }
    ensures noted { (told : List ℕ) → IfOk result (λ response. Notes (Master told) response (Master told)) }
{
    match heed(rt, shared_port, order)?.answer() {
        Answer::Tells(report) => Ok(Response::Alive(alive_of(report))),
        Answer::Notes(_) => Err(TakeFault),
    }
}

// What the server does with an order. Refused if the clock can't be read.
fn heed<R: Wait, C: LinkControl>(
    rt: &R,
    shared_port: &PeerPort<C>,
    order: Order,
) -> Result<Heard, TakeFault>
    requires server { NamesServer order }
    ensures { IfOk result (λ heard. IsAnswer order heard.answer) }
{
    match shared_port.hear(rt, order) {
        Some(heard) => Ok(heard),
        None => Err(TakeFault),
    }
}
