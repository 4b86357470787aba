//! What a server knows of those who greet it, and whom it accepts.
ghost use Rattle.std.specs.Prelude.{◌≡◌, ◌≢◌, ◌&&◌, ◌||◌, ◌<◌, ℕ, None, Some, OnOk, OnErr, IfOk, IfErr, IfSome, IfNone};
ghost use Rattle.node.specs.Views.{adds, union};
ghost use Rattle.leases.specs.Holding.{answer_to, heeded, unheld};
ghost use Rattle.links.specs.Admissions.{HasHeard};
ghost use Rattle.links.specs.Greetings.{HasLink, IsOfStart, is_same_size, refusal};
ghost use Rattle.links.specs.Orders.{NamesServer, gone_after};
ghost use Rattle.links.specs.GreeterInlets.{places, waiting_link};
ghost use Rattle.links.specs.Speakers.{Greets, SpeaksFor, WaitsAgain};

use crate::greeter_inlets::GreeterInlets;
use crate::speakers::Speaker;
use leases::{Answer, Lease, Order, Reading, Term};
use node::{SERVERS, View};
use peers::Identity;
use std::alloc::Global;
use std::marker::Model;
use std::time::Clock;
use wire::{Introduction, MASTER, Reason};

/// Who may still greet, which servers have failed, and the server's lease. Contracts see these three.
#[derive(Drop)]
pub struct PeerAdmission {
    greeter_inlets: GreeterInlets,
    gone: View,
    lease: Lease,
}

impl Model for PeerAdmission {
    ghost use Rattle.links.specs.Admissions.{PeerAdmissionState};

    ghost Value = { PeerAdmissionState };

    ghost view = { λ d. record { greeter_inlets = d.greeter_inlets; gone = d.gone; lease = d.lease } };
}

/// That an admission has noted these servers as gone. Only `PeerAdmission::note` makes one.
#[derive(Drop)]
pub struct Noted {
    view: View,
    is_news: bool,
}

impl Noted {
    /// Whether it was news that one of them is gone.
    pub fn is_news(&self) -> bool
        ensures { result ≡ self.now.is_news }
    {
        self.is_news
    }
}

/// What an admission did with an order. Only `PeerAdmission::hear` makes one.
#[derive(Drop)]
pub struct Heard {
    answer: Answer,
    news: bool,
}

impl Heard {
    /// What answers the order.
    pub fn answer(&self) -> Answer
        ensures { result ≡ self.now.answer }
    {
        self.answer
    }

    /// Whether it brought news that a server is gone.
    pub fn is_news(&self) -> bool
        ensures { result ≡ self.now.news }
    {
        self.news
    }
}

impl PeerAdmission {
    /// With these inlets, before anyone has greeted or failed, and with a lease of this term, or one that always holds.
    pub fn new(greeter_inlets: GreeterInlets, term: Option<Term>) -> PeerAdmission
        ensures greeter_inlets { result.greeter_inlets ≡ greeter_inlets }
        ensures gone { result.gone ≡ 0 }
        ensures lease { result.lease ≡ unheld term }
    {
        PeerAdmission {
            greeter_inlets,
            gone: View::empty(),
            lease: Lease::new(term),
        }
    }

    /// The servers that have failed, as far as is known here.
    pub fn gone(&self) -> View
        ensures { result ≡ self.now.gone }
    {
        self.gone
    }

    /// These have failed too. It tells whether that is news of one of them.
    pub fn note(&mut self, view: View) -> Noted
        ensures noted { result.view ≡ view }
        ensures news { result.is_news ≡ adds self.old.gone view }
        ensures gone { self.new.gone ≡ union self.old.gone view }
        ensures greeter_inlets { self.new.greeter_inlets ≡ self.old.greeter_inlets }
        ensures lease { self.new.lease ≡ self.old.lease }
    {
        let is_news = self.gone.adds(view);
        self.gone = self.gone.union(view);
        Noted { view, is_news }
    }

    /// The server's lease.
    pub fn lease(&self) -> &Lease
        ensures { result.now ≡ self.now.lease }
    {
        &self.lease
    }

    /// What the server does with an order of a master and answers to it. The clock is read here, once the order has
    /// come and it is known who is gone: nothing is learned in between, as the admission is held. A notice is noted
    /// here before any other order is heard, so that no answer hides what the server was told. None if the clock can't
    /// be read; then nothing changes.
    pub fn hear<C: Clock>(&mut self, clock: &C, order: Order) -> Option<Heard>
        requires server { NamesServer order }
        ensures heard { IfSome result (λ heard. HasHeard self.old order heard.answer self.new) }
        ensures news { IfSome result (λ heard. heard.news ≡ adds self.old.gone self.new.gone) }
        ensures unread { IfNone result (self.new ≡ self.old) }
    {
        let gone = self.gone;
        let reading = Reading::after(clock, gone.bits())?;
        let answer = self.hear_by(order, reading);
        let news = gone.adds(self.gone);
        Some(Heard { answer, news })
    }

    // The same by a reading of the clock, which was taken once it was known who is gone.
    #[tactic(auto, using(crate::proofs::Noting::noted_fits_set))]
    fn hear_by(&mut self, order: Order, reading: Reading<u16>) -> Answer
        requires server { NamesServer order }
        requires known { reading.known ≡ self.old.gone }
        ensures answer { result ≡ answer_to self.old.lease order self.old.gone reading.shown }
        ensures lease { self.new.lease ≡ heeded self.old.lease order self.old.gone reading.shown }
        ensures gone { self.new.gone ≡ gone_after self.old.gone result }
        ensures greeter_inlets { self.new.greeter_inlets ≡ self.old.greeter_inlets }
    {
        let answer = self.lease.hear(order, reading);
        if let Answer::Notes(id) = answer {
            self.gone = self.gone.union(View::single(id));
        }
        answer
    }

    /// Why who greets a host with this id and this introduction isn't accepted, if it isn't: the chain has another
    /// name, or another number of servers, or not this server; it is the host's own id; this server has failed; or one
    /// of this id speaks already, or another start of it has greeted before. The first of these that holds is the
    /// reason. A master of the same chain is accepted, whoever greeted before.
    pub fn refusal(&self, host: &Identity, id: u8, opener: &Introduction) -> Option<Reason>
        ensures { result ≡ refusal host.now self.now id opener.now }
    {
        let is_same_chain = host.chain == opener.chain;
        if !is_same_chain {
            return Some(Reason::Chain);
        }
        if !is_same_size(host.servers, id, opener.servers) {
            return Some(Reason::Servers);
        }
        if id == MASTER {
            return None;
        }
        if id == host.id {
            return Some(Reason::Taken);
        }
        if self.gone.has(id) {
            return Some(Reason::Gone);
        }
        if self.greeter_inlets.goes_on(id, opener.start) {
            None
        } else {
            Some(Reason::Taken)
        }
    }

    /// The speaker who greets so, if it is accepted. A server has its link, which goes on where it stood, or begins
    /// with this start of it. Nobody else is accepted with its id until the link is given back (`give_back`), and no
    /// other start of it then. Who is refused changes nothing, and a master neither.
    pub fn admit(
        &mut self,
        alloc: Global,
        host: &Identity,
        id: u8,
        opener: &Introduction,
    ) -> Result<Speaker, Reason>
        ensures accepted { OnOk result (refusal host.now self.old id opener.now ≡ None) }
        ensures refused { IfErr result (λ reason. refusal host.now self.old id opener.now ≡ Some reason) }
        ensures greets { IfOk result (Greets id) }
        ensures link { IfOk result (HasLink self.old id opener.now.start) }
        ensures start { IfOk result (IsOfStart opener.now.start) }
        ensures placed { OnOk result (id ≢ 16 → id < places self.old.greeter_inlets) }
        ensures once { OnOk result (id ≢ 16 → waiting_link self.new.greeter_inlets id ≡ None) }
        ensures others { (j : ℕ)
            → j ≢ id → waiting_link self.new.greeter_inlets j ≡ waiting_link self.old.greeter_inlets j }
        ensures places { places self.new.greeter_inlets ≡ places self.old.greeter_inlets }
        ensures gone { self.new.gone ≡ self.old.gone }
        ensures lease { self.new.lease ≡ self.old.lease }
        ensures master { OnOk result (id ≡ 16 → self.new ≡ self.old) }
        ensures stays { OnErr result (self.new ≡ self.old) }
    {
        if let Some(reason) = self.refusal(host, id, opener) {
            return Err(reason);
        }
        if id == MASTER {
            return Ok(Speaker::master(alloc));
        }
        match self.greeter_inlets.take(id) {
            Some(link) => Ok(Speaker::server(id, link.resume(opener.start))),
            None => unreachable!(),
        }
    }

    /// A speaker whose connection has ended is given back. The link of a server waits again, for the same start of it,
    /// and goes on after the last frame that was handed on. Of a master nothing changes.
    pub fn give_back(&mut self, speaker: Speaker)
        ensures waits { WaitsAgain speaker self.old.greeter_inlets self.new.greeter_inlets }
        ensures others { (j : ℕ) → (SpeaksFor speaker j → ⊥)
            → waiting_link self.new.greeter_inlets j ≡ waiting_link self.old.greeter_inlets j }
        ensures places { places self.new.greeter_inlets ≡ places self.old.greeter_inlets }
        ensures gone { self.new.gone ≡ self.old.gone }
        ensures lease { self.new.lease ≡ self.old.lease }
    {
        speaker.give_back(&mut self.greeter_inlets);
    }
}

// Whether a chain of n servers has the other's number, and this is the id of one of them or the master's.
fn is_same_size(servers: u8, id: u8, others: u8) -> bool
    ensures { result ≡ is_same_size servers id others }
{
    others == servers && (id == MASTER || (id < servers && id < SERVERS))
}
