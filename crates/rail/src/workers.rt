//! The worker of a server: it takes one input after another.
ghost use Rattle.std.specs.Prelude.{◌≡◌, ◌⊎◌, ◌↔◌, [], ◌∷◌, true, false, length, IfErr, OnErr, IsErrOf};
ghost use Rattle.crossbeam_channel.specs.Claims.{view};
ghost use Rattle.node.specs.Lawful.{IsLawful};
ghost use Rattle.node.specs.Replies.{AreCallsBelow, AreOpenBelow};
ghost use Rattle.faces.specs.Histories.{server_after, shown_after};
ghost use Rattle.faces.specs.Weights.{weight_of};
ghost use Rattle.rail.specs.InboxMessages.{IsBelow};
ghost use Rattle.rail.specs.Links.{HaveCarried};
ghost use Rattle.rail.specs.Turns.{AreReplySenders};
ghost use Rattle.rail.specs.Workers.{Advanced, Did, IsStopped, IsTurn, MayBeTurn};

use crate::RailFault;
use crate::inbox::Inbox;
use crate::inbox_messages::{Envelope, FitInput, InboxMessage};
use crate::inputs::advance;
use crate::links::Links;
use crate::outputs::close_all;
use crate::port_sets::PortSet;
use crate::reply_channels::ReplySender;
use faces::{Publisher, Told, Weight};
use std::marker::Model;
use std::sync::Wait;

/// What a turn did.
#[derive(Clone, Copy, Debug, PartialEq, Eq)]
pub enum Turn {
    /// An input was taken, and all that it does was done.
    Went,
    /// The server is stopped, and nothing was put out.
    Stopped,
    /// The loop is to end, and nothing was done.
    End,
}

/// The one that owns a server's node. Contracts see its inbox, what it took, what it has published, whether it goes on,
/// and what it put for each seat (`WorkerState`).
pub struct Worker<R: Wait + Drop> {
    rt: R,
    inbox: Inbox,
    // None once the server has stopped.
    publisher: Option<Publisher>,
    // What it has published.
    told: Told,
    reply_senders: Vec<ReplySender>,
    // The ports whose seats have something new since it was last asked.
    replied: PortSet,
}

impl<R: Wait + Drop> Model for Worker<R> {
    ghost use Rattle.std.specs.Prelude.{is_some};
    ghost use Rattle.std.specs.Coded.{codes};
    ghost use Rattle.atomic_table.specs.Seated.{table_id_coded};
    ghost use Rattle.logbook.specs.Pages.{book_coded};
    ghost use Rattle.table.specs.Items.{coded_item};
    ghost use Rattle.versions.specs.Stores.{coded_items};
    ghost use Rattle.crossbeam_channel.specs.Claims as claims;
    ghost use Rattle.rail.specs.Workers.{WorkerState, IsWorker};

    ghost Value = { WorkerState };

    ghost coded = { Prim.hlevel (codes, coded_item, coded_items, book_coded, table_id_coded) };

    ghost view = { λ w. record {
      inbox = w.inbox.pass.table_id;
      taken = (claims.view w.inbox.pass).got;
      published = w.told;
      goes = is_some w.publisher;
      reply_senders = w.reply_senders.items;
    } };

    ghost invariant = { λ w. IsWorker w.publisher w.told w.reply_senders.items (claims.view w.inbox.pass).ports };
}

impl<R: Wait + Drop> Drop for Worker<R> {
    fn drop(self) {
        let Self {
            rt,
            inbox: _inbox,
            publisher,
            told: _told,
            reply_senders: _reply_senders,
            replied: _replied,
        } = self;
        if let Some(publisher) = publisher {
            publisher.end(&rt);
        }
    }
}

impl<R: Wait + Drop> Worker<R> {
    /// A worker of a server that goes on.
    pub(crate) fn new(
        rt: R,
        inbox: Inbox,
        publisher: Publisher,
        reply_senders: Vec<ReplySender>,
    ) -> Worker<R>
        requires first { (view inbox.pass).got ≡ [] }
        requires ports { (view inbox.pass).ports ≡ length reply_senders.items }
        requires going { publisher.goes ≡ true }
        requires reply_senders { AreReplySenders publisher.published.instance 0 reply_senders.items }
        requires lawful { IsLawful (server_after publisher.published) }
        requires open { AreOpenBelow (length reply_senders.items) (server_after publisher.published) }
        ensures { result ≡ record {
          inbox = inbox.pass.table_id;
          taken = [];
          published = publisher.published;
          goes = true;
          reply_senders = reply_senders.items;
        } }
    {
        let told = publisher.published().tell();
        Worker {
            rt,
            inbox,
            publisher: Some(publisher),
            told,
            reply_senders,
            replied: PortSet::new(),
        }
    }

    /// How much the face weighs that it published last: how many keys have a version there, and the bytes of these keys
    /// and of their data. Nothing once the server is stopped, since its face is taken away. In constant time.
    pub fn weight(&self) -> Weight
        ensures going { self.now.goes ≡ true → result ≡ weight_of (shown_after self.now.published).versions }
        ensures stopped { self.now.goes ≡ false → result ≡ record { items = 0; bytes = 0 } }
    {
        match &self.publisher {
            Some(publisher) => publisher.weight(),
            None => Weight { items: 0, bytes: 0 },
        }
    }

    /// The ports whose seats may have something new since this was last asked: a reply was put for them, or they were
    /// told that none comes any more. Which ones they are no clause says.
    pub fn take_replied(&mut self) -> PortSet
        ensures { self.new ≡ self.old }
    {
        let replied = self.replied;
        self.replied = PortSet::new();
        replied
    }

    /// Takes the first message of the inbox that wasn't taken, and waits until there is one. An input is given to the
    /// node, the face after it is published, and only then its messages are put, and its replies. Refused with Closed
    /// if every sender is gone: nothing was taken then; and with Memory after it took an input. Both stop the
    /// server.
    pub fn turn<L: Links>(&mut self, links: &mut L) -> Result<Turn, RailFault>
        ensures turn { IsTurn self.old self.new (L.state links.old) (L.state links.new) result }
        // It stays the worker of its server, and takes from one inbox.
        ensures server { self.new.published.instance ≡ self.old.published.instance }
        ensures inbox { self.new.inbox ≡ self.old.inbox }
        // What was put is what the links carried.
        ensures carried { HaveCarried (L.state links.old) (L.state links.new) }
        ensures fault { IfErr result (λ fault. (fault ≡ RailFault.Memory) ⊎ (fault ≡ RailFault.Closed)) }
        ensures closed { IsErrOf result RailFault.Closed ↔ (self.new.taken ≡ self.old.taken) }
        ensures memory { IsErrOf result RailFault.Memory → self.old.goes ≡ true }
        ensures stops { OnErr result (self.new.goes ≡ false) }
    {
        self.take_turn(links)
    }

    /// The same, if a message stands there; none otherwise. It doesn't wait for a message. It may answer none although
    /// one stands there, while another thread is sending.
    pub fn turn_if_any<L: Links>(&mut self, links: &mut L) -> Result<Option<Turn>, RailFault>
        ensures turn { MayBeTurn self.old self.new (L.state links.old) (L.state links.new) result }
        // It stays the worker of its server, and takes from one inbox.
        ensures server { self.new.published.instance ≡ self.old.published.instance }
        ensures inbox { self.new.inbox ≡ self.old.inbox }
        // What was put is what the links carried.
        ensures carried { HaveCarried (L.state links.old) (L.state links.new) }
        ensures fault { IfErr result (λ fault. (fault ≡ RailFault.Memory) ⊎ (fault ≡ RailFault.Closed)) }
        ensures closed { IsErrOf result RailFault.Closed → self.new.taken ≡ self.old.taken }
        ensures memory { IsErrOf result RailFault.Memory → self.old.goes ≡ true }
        ensures stops { OnErr result (self.new.goes ≡ false) }
    {
        self.take_turn_if_any(links)
    }

    #[tactic(auto, using(crate::proofs::Carrying::carried_none))]
    fn take_turn<L: Links>(&mut self, links: &mut L) -> Result<Turn, RailFault>
        ensures turn { IsTurn self.old self.new (L.state links.old) (L.state links.new) result }
        ensures inbox { self.new.inbox ≡ self.old.inbox }
        ensures carried { HaveCarried (L.state links.old) (L.state links.new) }
    {
        match self.inbox.take(&self.rt) {
            Ok(message) => self.act(message, links),
            Err(_) => {
                self.stop();
                Err(RailFault::Closed)
            }
        }
    }

    #[tactic(auto, using(crate::proofs::Carrying::carried_none))]
    fn take_turn_if_any<L: Links>(&mut self, links: &mut L) -> Result<Option<Turn>, RailFault>
        ensures turn { MayBeTurn self.old self.new (L.state links.old) (L.state links.new) result }
        ensures inbox { self.new.inbox ≡ self.old.inbox }
        ensures carried { HaveCarried (L.state links.old) (L.state links.new) }
    {
        match self.inbox.try_take(&self.rt) {
            Ok(Some(message)) => {
                let turn = self.act(message, links)?;
                Ok(Some(turn))
            }
            Ok(None) => Ok(None),
            Err(_) => {
                self.stop();
                Err(RailFault::Closed)
            }
        }
    }

    // What a message that was taken asks for.
    #[tactic(auto, using(crate::proofs::Carrying::carried_none))]
    fn act<L: Links>(&mut self, message: Envelope, links: &mut L) -> Result<Turn, RailFault>
        requires port { IsBelow (length self.old.reply_senders) message.inbox_message }
        ensures taken { self.new.taken ≡ self.old.taken }
        ensures inbox { self.new.inbox ≡ self.old.inbox }
        ensures did { Did self.old self.new (L.state links.old) (L.state links.new) message result }
        ensures carried { HaveCarried (L.state links.old) (L.state links.new) }
    {
        match message.inbox_message {
            InboxMessage::End => Ok(Turn::End),
            InboxMessage::Stop => {
                self.stop();
                Ok(Turn::Stopped)
            }
            InboxMessage::Took(input) => self.advance(input, links),
        }
    }

    // Gives an input to the node, unless the server is stopped.
    #[tactic(auto, using(crate::proofs::Carrying::carried_none))]
    fn advance<L: Links>(&mut self, input: FitInput, links: &mut L) -> Result<Turn, RailFault>
        requires port { AreCallsBelow (length self.old.reply_senders) (input ∷ []) }
        ensures taken { self.new.taken ≡ self.old.taken }
        ensures inbox { self.new.inbox ≡ self.old.inbox }
        ensures did { Advanced self.old self.new (L.state links.old) (L.state links.new) input result }
        ensures carried { HaveCarried (L.state links.old) (L.state links.new) }
    {
        let Some(publisher) = &mut self.publisher else {
            drop(input);
            return Ok(Turn::Stopped);
        };
        let input = input.into_input();
        let done = advance(
            &self.rt,
            publisher,
            &mut self.told,
            &mut self.reply_senders,
            &mut self.replied,
            links,
            input,
        );
        if done.is_ok() {
            return Ok(Turn::Went);
        }
        if let Some(publisher) = self.publisher.take() {
            publisher.end(&self.rt);
        }
        close_all(&mut self.reply_senders, &mut self.replied);
        Err(RailFault::Memory)
    }

    // The server is stopped from now on.
    fn stop(&mut self)
        ensures taken { self.new.taken ≡ self.old.taken }
        ensures inbox { self.new.inbox ≡ self.old.inbox }
        ensures stopped { IsStopped self.old self.new }
    {
        if let Some(publisher) = self.publisher.take() {
            publisher.end(&self.rt);
        }
        close_all(&mut self.reply_senders, &mut self.replied);
    }
}
