//! What all who speak at a server's peer port share.
ghost use Rattle.std.specs.Prelude.{◌≡◌, ◌&&◌, nat_le, None, Some, true, false, OnOk, IfErr, IfOk, IfSome, IfNone};
ghost use Rattle.node.specs.Views.{is_below};
ghost use Rattle.links.specs.Greetings.{HasLink, IsAdmitted, IsRefused, refusal};
ghost use Rattle.links.specs.PeerPorts.{IsCalledGone, link_control_of, host_of};
ghost use Rattle.links.specs.Orders.{IsAnswer, NamesServer};
ghost use Rattle.links.specs.Speakers.{Greets};

use crate::admissions::{Heard, Noted, PeerAdmission};
use crate::greeter_inlets::GreeterInlets;
use crate::speakers::Speaker;
use leases::{Answer, Lease, Order, Term};
use node::{SERVERS, View};
use peers::Identity;
use rail::Inlet;
use std::alloc::Global;
use std::sync::{Mutex, Wait};
use std::time::Clock;
use wire::{Acceptance, Introduction, Reason};

/// What ends connections, has the clock, and publishes when the lease ends.
pub trait LinkControl {
    /// The kind of the server's clock.
    type ServerClock: Clock;

    /// Server `j` was called gone. The connection to it is ended: a write that waits there fails, and so do all later
    /// ones. So a machine that is silent and takes no bytes can't hold up a server that was told of its failure. If it
    /// is this server itself, it answers no call any more, and all its connections to other servers are ended. It may
    /// wait for others who do this.
    fn cut<R: Wait>(&self, rt: &R, j: u8);

    /// This server itself was called gone, and who said so has its answer: the server is to end.
    fn end(&self);

    /// The server's clock, by which its lease runs. It is read under the admission's lock.
    fn clock(&self) -> &Self::ServerClock;

    /// The server's lease has heard an order. This is called under the admission's lock, so that ends are published in
    /// the order in which they are made, for those who ask without that lock.
    fn renewed(&self, lease: &Lease);
}

/// What all who speak at a server's peer port share.
#[derive(Drop)]
pub struct PeerPort<C> {
    host: Identity,
    admission: Mutex<PeerAdmission>,
    // Brings what masters tell.
    notices: Mutex<Inlet>,
    link_control: C,
}

impl<C: LinkControl> PeerPort<C> {
    /// The peer port of a server, before anyone has greeted: with the inlets of the other servers, the inlet of all
    /// masters, and a lease of this term, or one that always holds.
    pub fn new(
        host: Identity,
        greeter_inlets: GreeterInlets,
        notices: Inlet,
        term: Option<Term>,
        link_control: C,
    ) -> PeerPort<C>
        ensures host { host_of result ≡ host }
        ensures link_control { link_control_of result ≡ link_control }
    {
        PeerPort {
            host,
            admission: Mutex::new(PeerAdmission::new(greeter_inlets, term)),
            notices: Mutex::new(notices),
            link_control,
        }
    }

    /// What ends connections, and has the clock.
    pub fn link_control(&self) -> &C
        ensures { result.now ≡ link_control_of self.now }
    {
        &self.link_control
    }

    /// What the server tells of itself.
    pub fn host(&self) -> &Identity
        ensures { result.now ≡ host_of self.now }
    {
        &self.host
    }

    /// The inlet that all masters share.
    pub(crate) fn notices(&self) -> &Mutex<Inlet> {
        &self.notices
    }

    /// The speaker who greets so, and what it is answered; or why it isn't accepted (`PeerAdmission::admit`). Of each
    /// server one speaks at a time at most, since a speaker of its id has the one link that waited for it, and all that
    /// do are of one start (`Speaker`). It may wait for others who greet.
    pub fn greet<R: Wait>(
        &self,
        rt: &R,
        alloc: Global,
        id: u8,
        opener: &Introduction,
    ) -> Result<(Speaker, Acceptance), Reason>
        // It is judged by the admission as others have left it, whom no clause can name.
        ensures accepted { IfOk result (λ accepted. IsAdmitted (host_of self.now) id opener.now accepted.0 accepted.1) }
        ensures refused { IfErr result (λ reason. IsRefused (host_of self.now) id opener.now reason) }
        ensures greets { IfOk result (λ accepted. Greets id accepted.0) }
        ensures start { IfOk result (λ accepted. accepted.1.start ≡ (host_of self.now).start) }
    {
        let mut admission = self.admission.lock(rt);
        greet_at(&mut admission, alloc, &self.host, id, opener)
    }

    /// A speaker whose connection has ended is given back: the link of a server waits again, for the same start of it
    /// (`PeerAdmission::give_back`). It may wait for others who greet. What waits stands under a lock, so no clause can
    /// say it.
    pub fn give_back<R: Wait>(&self, rt: &R, speaker: Speaker) {
        let mut admission = self.admission.lock(rt);
        admission.give_back(speaker);
    }

    /// These servers were called gone: each is cut of which this is news. Of a server that the chain hasn't nothing is
    /// noted. It tells whether this server itself isn't among them, or was known to be. It may wait.
    pub fn learn<R: Wait>(&self, rt: &R, view: View) -> bool
        // What was known stands under a lock, so no clause can say when this is news.
        ensures { result ≡ false → IsCalledGone (host_of self.now) view }
    {
        let Some(noted) = self.note(rt, view) else {
            return true;
        };
        if !noted.is_news() {
            return true;
        }
        for j in 0..SERVERS {
            if view.has(j) {
                self.link_control.cut(rt, j);
            }
        }
        if self.host.id < SERVERS && view.has(self.host.id) {
            false
        } else {
            true
        }
    }

    /// What the server does with an order of a master and answers to it. If it is a notice that is taken, the server
    /// that it names is cut, if that is news. Who calls brings the notice then. None if the clock can't be read. It may
    /// wait.
    pub(crate) fn hear<R: Wait>(&self, rt: &R, order: Order) -> Option<Heard>
        requires server { NamesServer order }
        // It is answered by the admission as others have left it, whom no clause can name.
        ensures { IfSome result (λ heard. IsAnswer order heard.answer) }
    {
        let heard = self.heed(rt, order)?;
        if let Answer::Notes(j) = heard.answer() {
            if heard.is_news() {
                self.link_control.cut(rt, j);
            }
        }
        Some(heard)
    }

    /// Stops the server. It may wait, also for masters.
    pub fn stop<R: Wait>(&self, rt: &R) {
        let mut inlet = self.notices.lock(rt);
        let _ = inlet.stop(rt);
    }

    /// Ends the server, since it was called gone.
    pub(crate) fn end<R: Wait>(&self, rt: &R) {
        self.link_control.end();
        self.stop(rt);
    }

    // What the admission does with an order. The clock is read under its lock, and so is the lease published, so that
    // ends are published in the order in which they are made.
    #[tactic(auto, using(crate::proofs::Noting::heard_is_answered))]
    fn heed<R: Wait>(&self, rt: &R, order: Order) -> Option<Heard>
        requires server { NamesServer order }
        ensures { IfSome result (λ heard. IsAnswer order heard.answer) }
    {
        let mut admission = self.admission.lock(rt);
        let heard = admission.hear(self.link_control.clock(), order)?;
        self.link_control.renewed(admission.lease());
        Some(heard)
    }

    // Notes that these have failed, unless the chain hasn't one of them.
    fn note<R: Wait>(&self, rt: &R, view: View) -> Option<Noted>
        ensures noted { IfSome result (λ noted. noted.view ≡ view) }
        ensures chain { IfSome result (λ _. is_below view self.now.host.servers ≡ true) }
        ensures beyond { IfNone result
            ((nat_le self.now.host.servers 16 && is_below view self.now.host.servers) ≡ false) }
    {
        if self.host.servers <= SERVERS && view.is_below(self.host.servers) {
            let mut admission = self.admission.lock(rt);
            Some(admission.note(view))
        } else {
            None
        }
    }
}

// The speaker who greets so at this admission, and what it is answered; or why it isn't accepted.
fn greet_at(
    admission: &mut PeerAdmission,
    alloc: Global,
    host: &Identity,
    id: u8,
    opener: &Introduction,
) -> Result<(Speaker, Acceptance), Reason>
    ensures accepted { OnOk result (refusal host.now admission.old id opener.now ≡ None) }
    ensures link { IfOk result (λ accepted. HasLink admission.old id opener.now.start accepted.0) }
    ensures greets { IfOk result (λ accepted. Greets id accepted.0) }
    ensures start { IfOk result (λ accepted. accepted.1.start ≡ host.now.start) }
    ensures gone { IfOk result (λ accepted. accepted.1.gone ≡ admission.old.gone) }
    ensures refused { IfErr result (λ reason. refusal host.now admission.old id opener.now ≡ Some reason) }
{
    let gone = admission.gone().bits();
    match admission.admit(alloc, host, id, opener) {
        Ok(speaker) => {
            let start = host.start;
            Ok((speaker, Acceptance { start, gone }))
        }
        Err(reason) => Err(reason),
    }
}
