//! The inbox of a worker: several senders, one receiver. What was taken of a sender, and then what stands of it in the
//! queue, is what it sent.
ghost use Rattle.std.specs.Prelude.{◌≡◌, [], ◌∷◌, ◌++◌, IfOk, IfErr, ◌+◌, ◌<◌, ◌^◌};
ghost use Rattle.crossbeam_channel.specs.Claims.{view, IsSeatAt};
ghost use Rattle.crossbeam_channel.specs.Ends.{sends_on, receives_on, ruled_capacity};
ghost use Rattle.rail.specs.InboxMessages.{IsBelow};
ghost use Rattle.rail.specs.Inbox.{Delivers, HasGot, HasSent, nobody, sender, taker};
ghost use Rattle.rail.specs.Takes.{IsTake, IsTry};

use crate::RailFault;
use crate::inbox_messages::{Envelope, InboxMessage};
use crate::limits::TRIES;
use crate::rooms::Room;
use atomic_table::Split;
use crossbeam_channel::protocol::{Lesson, Outcome, Protocol};
use crossbeam_channel::{Pass, RuledReceiver, RuledSender, TryRecvError, bounded_with};
use std::alloc::{AllocError, Global};
use std::collections::LinkedList;
use std::sync::Wait;
use std::thread;

/// What a pass knows. No value of it is made. A sender has a number, a bound of its calls' ports and what it sent; the
/// receiver the number of senders, a bound of all calls' ports and what it took.
pub struct InboxKnowledge {
    pub sends: bool,
    pub from: u64,
    pub ports: u64,
    pub put: LinkedList<InboxMessage>,
    pub gets: bool,
    pub made: u64,
    pub got: LinkedList<Envelope>,
}

/// The rule of the inbox.
pub struct InboxRule;

impl Protocol<Envelope, InboxKnowledge> for InboxRule {
    ghost holds = { Delivers };

    ghost first = { taker 0 0 [] };
}

/// One more port, from which no call was sent yet. The other pass is nobody's.
pub struct AddsPort;

impl Split<InboxKnowledge> for AddsPort {
    ghost left = { λ v. taker v.made (v.ports + 1) v.got };

    ghost right = { λ v. nobody };
}

/// One more sender of calls, from each port so far.
pub struct AddsCaller;

impl Split<InboxKnowledge> for AddsCaller {
    ghost left = { λ v. taker (v.made + 1) v.ports v.got };

    ghost right = { λ v. sender v.made v.ports [] };
}

/// One more sender, of no calls.
pub struct AddsInlet;

impl Split<InboxKnowledge> for AddsInlet {
    ghost left = { λ v. taker (v.made + 1) v.ports v.got };

    ghost right = { λ v. sender v.made 0 [] };
}

/// A message is sent.
pub struct SendsOne;

impl Outcome<Envelope, InboxKnowledge> for SendsOne {
    ghost then = { λ v x w. w ≡ sender v.from v.ports (v.put ++ x.inbox_message ∷ []) };
}

impl Lesson<Envelope, InboxKnowledge> for SendsOne {
    ghost fact = { λ v items. Unit {0} };
}

/// A message is taken.
pub struct TakesOne;

impl Outcome<Envelope, InboxKnowledge> for TakesOne {
    ghost then = { λ v x w. (w ≡ taker v.made v.ports (v.got ++ x ∷ [])) × IsBelow v.ports x.inbox_message };
}

impl Lesson<Envelope, InboxKnowledge> for TakesOne {
    ghost fact = { λ v items. Unit {0} };
}

pub type InboxSender = RuledSender<Envelope, InboxKnowledge, InboxRule>;

pub type InboxReceiver = RuledReceiver<Envelope, InboxKnowledge, InboxRule>;

/// One sender of the inbox, with its pass.
#[derive(Drop)]
pub struct SenderWithPass {
    from: u64,
    ports: usize,
    to: InboxSender,
    pub pass: Pass<Envelope, InboxKnowledge>,
    ghost seated: { IsSeatAt (sends_on to) pass },
    ghost sends: { view pass ≡ sender from ports (view pass).put },
}

/// The receiver of the inbox, with its pass.
#[derive(Drop)]
pub struct Inbox {
    inbox: InboxReceiver,
    pub pass: Pass<Envelope, InboxKnowledge>,
    ghost seated: { IsSeatAt (receives_on inbox) pass },
    ghost gets: { view pass ≡ taker (view pass).made (view pass).ports (view pass).got },
}

/// The inbox that still makes senders.
#[derive(Drop)]
pub struct InboxBuilder {
    to: InboxSender,
    inbox: InboxReceiver,
    made: u64,
    ports: usize,
    pub pass: Pass<Envelope, InboxKnowledge>,
    ghost same: { receives_on inbox ≡ sends_on to },
    ghost seated: { IsSeatAt (sends_on to) pass },
    ghost gets: { view pass ≡ taker made ports [] },
}

impl InboxBuilder {
    /// An empty inbox with room for this many messages.
    pub fn new(alloc: Global, room: Room) -> Result<InboxBuilder, AllocError>
        ensures pass { IfOk result (λ g. view g.pass ≡ taker 0 0 []) }
        ensures room { IfOk result (λ g. ruled_capacity (sends_on g.to) ≡ room.messages) }
    {
        let (to, inbox, pass) = bounded_with::<Envelope, InboxKnowledge, InboxRule, Global>(
            alloc,
            room.messages,
        )?;
        Ok(InboxBuilder {
            to,
            inbox,
            made: 0,
            ports: 0,
            pass,
        })
    }

    /// One more port. The senders so far may not use it.
    pub fn add_port(&mut self)
        requires { (view self.old.pass).ports < 2 ^ 63 }
        ensures made { view self.new.pass ≡ taker (view self.old.pass).made ((view self.old.pass).ports + 1) [] }
        ensures same { self.new.pass.table_id ≡ self.old.pass.table_id }
    {
        let pass = self.to.another::<AddsPort>(&mut self.pass);
        drop(pass);
        self.ports += 1;
    }

    /// One more sender of calls, from each port so far.
    pub fn caller(&mut self) -> Result<SenderWithPass, AllocError>
        requires { (view self.old.pass).made < 2 ^ 63 }
        ensures inbox_sender { IfOk result
            (λ s. view s.pass ≡ sender (view self.old.pass).made (view self.old.pass).ports []) }
        ensures made { IfOk result
            (λ _. view self.new.pass ≡ taker ((view self.old.pass).made + 1) (view self.old.pass).ports []) }
        ensures inbox { IfOk result (λ s. s.pass.table_id ≡ self.old.pass.table_id) }
        ensures same { self.new.pass.table_id ≡ self.old.pass.table_id }
    {
        let to = self.to.try_clone()?;
        let from = self.made;
        let pass = self.to.another::<AddsCaller>(&mut self.pass);
        self.made = from + 1;
        Ok(SenderWithPass {
            from,
            ports: self.ports,
            to,
            pass,
        })
    }

    /// One more sender, which sends no calls.
    pub fn inlet(&mut self) -> Result<SenderWithPass, AllocError>
        requires { (view self.old.pass).made < 2 ^ 63 }
        ensures inbox_sender { IfOk result (λ s. view s.pass ≡ sender (view self.old.pass).made 0 []) }
        ensures made { IfOk result
            (λ _. view self.new.pass ≡ taker ((view self.old.pass).made + 1) (view self.old.pass).ports []) }
        ensures inbox { IfOk result (λ s. s.pass.table_id ≡ self.old.pass.table_id) }
        ensures same { self.new.pass.table_id ≡ self.old.pass.table_id }
    {
        let to = self.to.try_clone()?;
        let from = self.made;
        let pass = self.to.another::<AddsInlet>(&mut self.pass);
        self.made = from + 1;
        Ok(SenderWithPass {
            from,
            ports: 0,
            to,
            pass,
        })
    }

    /// The receiver. No more senders are made.
    pub fn close(self) -> Inbox
        ensures pass { view result.pass ≡ view self.pass }
        ensures inbox { result.pass.table_id ≡ self.pass.table_id }
    {
        let InboxBuilder { inbox, pass, .. } = self;
        Inbox { inbox, pass }
    }
}

impl SenderWithPass {
    /// The ports of its calls are below this number.
    pub fn ports(&self) -> usize
        ensures { result ≡ (view self.now.pass).ports }
    {
        self.ports
    }

    /// At `Ok` the inbox message is added to what this sender sent. At `Err` it is handed back. It may wait.
    pub fn send<R: Wait>(&mut self, rt: &R, inbox_message: InboxMessage) -> Result<(), InboxMessage>
        requires { IsBelow (view self.old.pass).ports inbox_message }
        ensures sent { HasSent (view self.old.pass) (view self.new.pass) inbox_message result }
        ensures ports { (view self.new.pass).ports ≡ (view self.old.pass).ports }
        ensures number { (view self.new.pass).from ≡ (view self.old.pass).from }
        ensures inbox { self.new.pass.table_id ≡ self.old.pass.table_id }
    {
        let message = Envelope {
            from: self.from,
            inbox_message,
        };
        match self.to.send_as::<SendsOne, R>(rt, &mut self.pass, message) {
            Ok(()) => Ok(()),
            Err(failed) => Err(failed.into_inner().inbox_message),
        }
    }
}

impl Inbox {
    /// The next message, if one stands there, which is added to what was taken. While others are inside a call it may
    /// find none although one stands there. Refused with Closed if every sender is gone.
    pub fn try_take<R: Wait>(&mut self, rt: &R) -> Result<Option<Envelope>, RailFault>
        ensures taken { IsTry HasGot (view self.old.pass) (view self.new.pass) result }
        ensures inbox { self.new.pass.table_id ≡ self.old.pass.table_id }
        ensures fault { IfErr result (λ fault. fault ≡ RailFault.Closed) }
    {
        match self.inbox.try_recv_as::<TakesOne, R>(rt, &mut self.pass) {
            Ok(message) => Ok(Some(message)),
            Err(TryRecvError::Empty) => Ok(None),
            Err(TryRecvError::Disconnected) => Err(RailFault::Closed),
        }
    }

    /// The next message, which is added to what was taken. It tries a few times, and then sleeps until one comes.
    /// Refused with Closed if every sender is gone.
    pub fn take<R: Wait>(&mut self, rt: &R) -> Result<Envelope, RailFault>
        ensures taken { IsTake HasGot (view self.old.pass) (view self.new.pass) result }
        ensures inbox { self.new.pass.table_id ≡ self.old.pass.table_id }
        ensures fault { IfErr result (λ fault. fault ≡ RailFault.Closed) }
    {
        for _ in 0..TRIES {
            if let Some(message) = self.try_take(rt)? {
                return Ok(message);
            }
            thread::yield_now();
        }
        match self.inbox.recv_as::<TakesOne, R>(rt, &mut self.pass) {
            Ok(message) => Ok(message),
            Err(_) => Err(RailFault::Closed),
        }
    }
}
