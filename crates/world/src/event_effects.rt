//! Effects: what each event of a schedule did.
ghost use Rattle.std.specs.Prelude.{◌≡◌, ◌<◌, drop, length, OnOk, IfOk, IfErr};
ghost use Rattle.node.specs.Lawful.{IsInput};
ghost use Rattle.world.specs.declared.events.Event.TheVariants.{Piece, Begin, Work, Deliver, Fail, Tell, Hand};
ghost use Rattle.world.specs.Connections as connections;
ghost use Rattle.world.specs.EventEffects as event_effects;
ghost use Rattle.world.specs.Worlds as worlds;

use crate::connections::Connection;
use crate::worlds::World;
use crate::{Event, SceneFault};
use bytes::Bytes;
use node::{Input, Output, Standing};
use std::alloc::{AllocError, Global};
use std::marker::Model;
use table::{Call, Reply};
use versions::Entry;

/// What a server made of an input. Contracts see lists in place of vectors.
#[derive(Drop)]
pub struct ServerStep {
    /// The call, message or notice that it took.
    pub input: Input,
    /// Where it stood before.
    pub before: Standing,
    /// The entries that it appended.
    pub entries: Vec<Entry>,
    /// What it put out, in order.
    pub outputs: Vec<Output>,
    /// Where it stood after.
    pub after: Standing,
}

impl Model for ServerStep {
    ghost use Rattle.world.specs.ServerSteps.{StepShown};

    ghost Value = { StepShown };

    ghost view = { λ s. record {
      input = s.input;
      before = s.before;
      entries = s.entries.items;
      outputs = s.outputs.items;
      after = s.after;
    } };
}

/// What an event did.
#[derive(Drop)]
pub enum EventEffect {
    /// It didn't apply.
    Nothing,
    /// The bytes of a piece came to their connection.
    Came,
    /// The connection was sent these bytes for the faults that stood next, and this call began, if one stood in turn.
    Began(Option<Call>, Bytes),
    /// The server of this number took an input.
    Stepped(usize, ServerStep),
    /// The server failed.
    Failed,
    /// This reply reached the connection, which was sent these bytes.
    Handed(Reply, Bytes),
}

impl Connection {
    ghost use Rattle.std.specs.Prelude.{◌≡◌, OnOk, IfOk, IfErr, IfSome, MatchOption, drop};
    ghost use Rattle.node.specs.Lawful.{IsCall};
    ghost use Rattle.world.specs.Connections.{came, begun, handed, to_work, asked};
    ghost use Rattle.world.specs.EventEffects.{piece_event_effect, begin_event_effect, hand_event_effect};

    /// Bytes come, and what that did.
    pub fn come_telling(&mut self, bytes: &[u8]) -> Result<EventEffect, SceneFault>
        ensures ok { OnOk result (self.new ≡ came bytes.now self.old) }
        ensures event_effect { IfOk result (λ event_effect. event_effect ≡ piece_event_effect self.old) }
        ensures only_memory { IfErr result (λ fault. fault ≡ SceneFault.Memory) }
    {
        let closed = self.is_closed();
        self.come(bytes)?;
        if closed {
            Ok(EventEffect::Nothing)
        } else {
            Ok(EventEffect::Came)
        }
    }

    /// If no call is open, the next one begins; and what that did.
    pub fn begin_telling(&mut self, alloc: Global) -> Result<EventEffect, SceneFault>
        ensures ok { OnOk result (self.new ≡ begun self.old.stage self.old) }
        ensures event_effect { IfOk result (λ event_effect. event_effect ≡ begin_event_effect self.old.stage self.old) }
        ensures only_memory { IfErr result (λ fault. fault ≡ SceneFault.Memory) }
    {
        if !self.is_idle() {
            return Ok(EventEffect::Nothing);
        }
        let before = self.sent().len();
        self.begin()?;
        let sent = self.sent_since(alloc, before)?;
        match self.to_work() {
            Ok(call) => Ok(EventEffect::Began(call, sent)),
            Err(fault) => {
                drop(sent);
                Err(fault.into())
            }
        }
    }

    /// The waiting reply reaches the connection, and what that did.
    pub fn hand_telling(&mut self, alloc: Global) -> Result<EventEffect, SceneFault>
        ensures ok { OnOk result (self.new ≡ handed self.old.stage self.old) }
        ensures event_effect { IfOk result (λ event_effect. event_effect ≡ hand_event_effect self.old.stage self.old) }
        ensures only_memory { IfErr result (λ fault. fault ≡ SceneFault.Memory) }
    {
        let Some(reply) = self.waiting_reply()? else {
            return Ok(EventEffect::Nothing);
        };
        let before = self.sent().len();
        self.hand()?;
        Ok(EventEffect::Handed(reply, self.sent_since(alloc, before)?))
    }

    /// The call that was begun and not yet worked is with the server from now on: a clone of it, which shares its data.
    pub fn ask_telling(&mut self) -> Result<Option<Call>, AllocError>
        ensures call { IfOk result (λ call. call ≡ to_work self.old.stage self.old) }
        ensures stage { IfOk result (λ call. MatchOption call (self.new ≡ self.old) (λ _. self.new ≡ asked self.old)) }
        ensures fit { IfOk result (λ call. IfSome call IsCall) }
    {
        let Some(call) = self.to_work()? else {
            return Ok(None);
        };
        self.ask();
        Ok(Some(call))
    }

    // The bytes that it was sent after the first ones.
    fn sent_since(&self, alloc: Global, before: usize) -> Result<Bytes, AllocError>
        ensures { IfOk result (λ bytes. bytes ≡ drop before self.now.session.out) }
    {
        Bytes::copy_from_slice(alloc, behind(self.sent(), before))
    }
}

// What stands after the first bytes.
fn behind(bytes: &[u8], first: usize) -> &[u8]
    ensures { result.now ≡ drop first bytes.now }
{
    match bytes.get(first..) {
        Some(rest) => rest,
        None => &[],
    }
}

impl World {
    /// What an event does, and what that was.
    pub fn happen_telling(
        &mut self,
        alloc: Global,
        event: &Event,
    ) -> Result<EventEffect, SceneFault>
        ensures ok { OnOk result (self.new ≡ worlds.happens self.old event.now) }
        ensures event_effect { IfOk result (λ event_effect. event_effect ≡ event_effects.event_effect self.old
            event.now) }
        ensures only_memory { IfErr result (λ fault. fault ≡ SceneFault.Memory) }
    {
        match event {
            Event::Piece(c, bytes) => self.piece_telling(*c, bytes.as_slice()),
            Event::Begin(c) => self.begin_telling(alloc, *c),
            Event::Work(c) => self.work_telling(alloc, *c),
            Event::Deliver(i, j) => self.deliver_telling(alloc, *i, *j),
            Event::Fail(i) => Ok(self.fail_telling(*i)),
            Event::Tell(i, j) => self.tell_telling(alloc, *i, *j),
            Event::Hand(c) => self.hand_telling(alloc, *c),
        }
    }

    fn piece_telling(&mut self, c: usize, bytes: &[u8]) -> Result<EventEffect, SceneFault>
        ensures ok { OnOk result (self.new ≡ worlds.happens self.old (Piece c bytes.now)) }
        ensures event_effect { IfOk result (λ event_effect. event_effect ≡ event_effects.event_effect self.old
            (Piece c bytes.now)) }
        ensures only_memory { IfErr result (λ fault. fault ≡ SceneFault.Memory) }
    {
        if self.home_lives(c) {
            let event_effect = self.connections[c].come_telling(bytes)?;
            return Ok(event_effect);
        }
        Ok(EventEffect::Nothing)
    }

    fn begin_telling(&mut self, alloc: Global, c: usize) -> Result<EventEffect, SceneFault>
        ensures ok { OnOk result (self.new ≡ worlds.happens self.old (Begin c)) }
        ensures event_effect { IfOk result (λ event_effect. event_effect ≡ event_effects.event_effect self.old
            (Begin c)) }
        ensures only_memory { IfErr result (λ fault. fault ≡ SceneFault.Memory) }
    {
        if self.home_lives(c) {
            let event_effect = self.connections[c].begin_telling(alloc)?;
            return Ok(event_effect);
        }
        Ok(EventEffect::Nothing)
    }

    fn hand_telling(&mut self, alloc: Global, c: usize) -> Result<EventEffect, SceneFault>
        ensures ok { OnOk result (self.new ≡ worlds.happens self.old (Hand c)) }
        ensures event_effect { IfOk result (λ event_effect. event_effect ≡ event_effects.event_effect self.old (Hand c)) }
        ensures only_memory { IfErr result (λ fault. fault ≡ SceneFault.Memory) }
    {
        if self.home_lives(c) {
            let event_effect = self.connections[c].hand_telling(alloc)?;
            return Ok(event_effect);
        }
        Ok(EventEffect::Nothing)
    }

    fn work_telling(&mut self, alloc: Global, c: usize) -> Result<EventEffect, SceneFault>
        ensures ok { OnOk result (self.new ≡ worlds.happens self.old (Work c)) }
        ensures event_effect { IfOk result (λ event_effect. event_effect ≡ event_effects.event_effect self.old (Work c)) }
        ensures only_memory { IfErr result (λ fault. fault ≡ SceneFault.Memory) }
    {
        if !self.home_lives(c) {
            return Ok(EventEffect::Nothing);
        }
        let connection = &mut self.connections[c];
        let home = connection.home();
        match connection.ask_telling()? {
            Some(call) => self.take_telling(alloc, home, Input::Call(c, call)),
            None => Ok(EventEffect::Nothing),
        }
    }

    fn deliver_telling(
        &mut self,
        alloc: Global,
        i: usize,
        j: usize,
    ) -> Result<EventEffect, SceneFault>
        ensures ok { OnOk result (self.new ≡ worlds.happens self.old (Deliver i j)) }
        ensures event_effect { IfOk result (λ event_effect. event_effect ≡ event_effects.event_effect self.old
            (Deliver i j)) }
        ensures only_memory { IfErr result (λ fault. fault ≡ SceneFault.Memory) }
    {
        if !self.lives(j) {
            return Ok(EventEffect::Nothing);
        }
        match self.links.pop(i, j) {
            Some(message) => self.take_telling(alloc, j, Input::From(i as u8, message)),
            None => Ok(EventEffect::Nothing),
        }
    }

    fn fail_telling(&mut self, i: usize) -> EventEffect
        ensures world { self.new ≡ worlds.happens self.old (Fail i) }
        ensures event_effect { result ≡ event_effects.event_effect self.old (Fail i) }
    {
        let lived = self.lives(i);
        self.fail(i);
        if lived {
            EventEffect::Failed
        } else {
            EventEffect::Nothing
        }
    }

    fn tell_telling(&mut self, alloc: Global, i: usize, j: usize) -> Result<EventEffect, SceneFault>
        ensures ok { OnOk result (self.new ≡ worlds.happens self.old (Tell i j)) }
        ensures event_effect { IfOk result (λ event_effect. event_effect ≡ event_effects.event_effect self.old
            (Tell i j)) }
        ensures only_memory { IfErr result (λ fault. fault ≡ SceneFault.Memory) }
    {
        if self.lives(i) && self.has_failed(j) {
            self.take_telling(alloc, i, Input::Gone(j as u8))
        } else {
            Ok(EventEffect::Nothing)
        }
    }

    // Server i takes an input, and what it puts out goes its ways; and what that was.
    #[tactic(auto, unfolding(crate::specs::Worlds::server, crate::specs::Worlds::with_server))]
    fn take_telling(
        &mut self,
        alloc: Global,
        i: usize,
        input: Input,
    ) -> Result<EventEffect, SceneFault>
        requires server { i < length self.old.servers }
        requires input { IsInput input }
        ensures ok { OnOk result (self.new ≡ worlds.takes self.old i input) }
        ensures event_effect { IfOk result (λ event_effect. event_effect ≡ event_effects.took self.old i input) }
        ensures only_memory { IfErr result (λ fault. fault ≡ SceneFault.Memory) }
    {
        let (step, outputs) = self.servers.step_telling(alloc, i, input)?;
        match self.put_all(i, outputs) {
            Ok(()) => Ok(EventEffect::Stepped(i, step)),
            Err(fault) => {
                drop(step);
                Err(fault)
            }
        }
    }
}
