//! Steps: calls, messages and failures reach the servers of a world, and what they put out goes its ways.
ghost use Rattle.std.specs.Prelude.{◌≡◌, ◌<◌, length, OnOk, IfOk, IfErr};
ghost use Rattle.node.specs.Views.{union, single};
ghost use Rattle.node.specs.Lawful.{IsInput, IsFit, AreFit};
ghost use Rattle.world.specs.declared.events.Event.TheVariants.{Work, Deliver, Fail, Tell};
ghost use Rattle.world.specs.Connections.{changed_at, replied};
ghost use Rattle.world.specs.LivingParts.{Comes, Takes};
ghost use Rattle.world.specs.Worlds as worlds;

use crate::SceneFault;
use crate::connections::Connection;
use crate::worlds::World;
use node::{Input, Output, View};
use table::Reply;

impl World {
    /// The call that was begun goes to its server. The server, if its step was refused, so that it has failed instead.
    pub fn work(&mut self, c: usize) -> Result<Option<usize>, SceneFault>
        ensures ok { IfOk result (λ refused. Comes self.old (Work c) refused self.new) }
        ensures only_memory { IfErr result (λ fault. fault ≡ SceneFault.Memory) }
        ensures connections { length self.new.connections ≡ length self.old.connections }
    {
        if !self.home_lives(c) {
            return Ok(None);
        }
        let connection = &self.connections[c];
        let home = connection.home();
        let Some(call) = connection.to_work()? else {
            return Ok(None);
        };
        match self.servers.step(home, Input::Call(c, call)) {
            Ok(outputs) => {
                self.connections[c].ask();
                self.put_all(home, outputs)?;
                Ok(None)
            }
            Err(_) => {
                self.lose(home);
                Ok(Some(home))
            }
        }
    }

    /// The first message of the link from server i to server j is delivered. Server j, if its step was refused, so that
    /// it has failed instead; the message is gone then.
    pub fn deliver(&mut self, i: usize, j: usize) -> Result<Option<usize>, SceneFault>
        ensures ok { IfOk result (λ refused. Comes self.old (Deliver i j) refused self.new) }
        ensures only_memory { IfErr result (λ fault. fault ≡ SceneFault.Memory) }
        ensures connections { length self.new.connections ≡ length self.old.connections }
    {
        if !self.lives(j) {
            return Ok(None);
        }
        match self.links.pop(i, j) {
            Some(message) => self.take(j, Input::From(i as u8, message)),
            None => Ok(None),
        }
    }

    /// Server i fails.
    pub fn fail(&mut self, i: usize)
        ensures { self.new ≡ worlds.happens self.old (Fail i) }
    {
        if self.lives(i) {
            self.lose(i);
        }
    }

    /// Server i is told that server j has failed. Server i, if its step was refused, so that it has failed instead.
    pub fn tell(&mut self, i: usize, j: usize) -> Result<Option<usize>, SceneFault>
        ensures ok { IfOk result (λ refused. Comes self.old (Tell i j) refused self.new) }
        ensures only_memory { IfErr result (λ fault. fault ≡ SceneFault.Memory) }
        ensures connections { length self.new.connections ≡ length self.old.connections }
    {
        if self.lives(i) && self.has_failed(j) {
            self.take(i, Input::Gone(j as u8))
        } else {
            Ok(None)
        }
    }

    // Server i takes an input, and what it puts out goes its ways. The server, if its step was refused, so that it is
    // lost.
    #[tactic(auto, unfolding(crate::specs::Worlds::server, crate::specs::Worlds::with_server))]
    fn take(&mut self, i: usize, input: Input) -> Result<Option<usize>, SceneFault>
        requires server { i < length self.old.servers }
        requires input { IsInput input }
        ensures ok { IfOk result (λ refused. Takes self.old i input refused self.new) }
        ensures only_memory { IfErr result (λ fault. fault ≡ SceneFault.Memory) }
        ensures connections { length self.new.connections ≡ length self.old.connections }
    {
        match self.servers.step(i, input) {
            Ok(outputs) => {
                self.put_all(i, outputs)?;
                Ok(None)
            }
            Err(_) => {
                self.lose(i);
                Ok(Some(i))
            }
        }
    }

    // Server i, which is one of the chain, has failed.
    fn lose(&mut self, i: usize)
        requires chain { i < 16 }
        ensures { self.new ≡ record self.old { failed = union self.old.failed (single i) } }
    {
        self.failed = self.failed.union(View::single(i as u8));
    }

    // Outputs of server i, in order.
    #[tactic(auto, unfolding(crate::specs::Worlds::put_all))]
    pub(crate) fn put_all(&mut self, i: usize, outputs: Vec<Output>) -> Result<(), SceneFault>
        requires fit { AreFit outputs.items }
        ensures ok { OnOk result (self.new ≡ worlds.put_all self.old i outputs.items) }
        ensures only_memory { IfErr result (λ fault. fault ≡ SceneFault.Memory) }
        ensures connections { length self.new.connections ≡ length self.old.connections }
    {
        let mut outputs = outputs.into_iter();
        while let Some(output) = outputs.next() {
            self.put(i, output)?;
        }
        Ok(())
    }

    // An output of server i: a message goes at the end of its link, a reply waits at its connection.
    #[tactic(auto, unfolding(crate::specs::Worlds::link, crate::specs::Worlds::with_link, crate::specs::Worlds::with_connection))]
    fn put(&mut self, i: usize, output: Output) -> Result<(), SceneFault>
        requires fit { IsFit output }
        ensures ok { OnOk result (self.new ≡ worlds.put self.old i output) }
        ensures only_memory { IfErr result (λ fault. fault ≡ SceneFault.Memory) }
        ensures connections { length self.new.connections ≡ length self.old.connections }
    {
        match output {
            Output::To(j, message) => self.links.push(i, usize::from(j), message)?,
            Output::Reply(c, reply) => reply_at(&mut self.connections, c, reply),
        }
        Ok(())
    }
}

// The reply waits at the c-th connection, if there is one.
fn reply_at(connections: &mut Vec<Connection>, c: usize, reply: Reply)
    ensures waits { connections.new.items ≡ changed_at connections.old.items c (λ k. replied k.stage reply k) }
    ensures connections { length connections.new.items ≡ length connections.old.items }
{
    if c < connections.len() {
        connections[c].replied(reply);
    }
}
