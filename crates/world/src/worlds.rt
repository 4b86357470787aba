//! Worlds: a chain of servers, their links and the connections, and what events do to them.
ghost use Rattle.std.specs.Prelude.{◌≡◌, ◌<◌, ◌≤◌, true, length, map, slice_get, IsTrue, OnOk, IfOk, IfErr};
ghost use Rattle.world.specs.declared.events.Event.TheVariants.{Piece, Begin, Hand};
ghost use Rattle.world.specs.Connections.{fresh};
ghost use Rattle.world.specs.LivingParts.{Comes};
ghost use Rattle.world.specs.Worlds as worlds;

use crate::connections::Connection;
use crate::links::Links;
use crate::servers::Servers;
use crate::{Event, SceneFault};
use node::View;
use std::alloc::{AllocError, Global};
use std::marker::Model;

/// A chain of servers, those of them that have failed, their links and the connections.
#[derive(Drop)]
pub struct World {
    pub(crate) servers: Servers,
    pub(crate) failed: View,
    pub(crate) links: Links,
    pub(crate) connections: Vec<Connection>,
}

impl Model for World {
    ghost use Rattle.std.specs.Coded.{codes};
    ghost use Rattle.versions.specs.Stores.{coded_items};
    ghost use Rattle.world.specs.Worlds.{World};

    ghost Value = { World };

    ghost coded = { Prim.hlevel (codes, coded_items) };

    ghost view = { λ w. record {
      servers = w.servers;
      failed = w.failed;
      links = w.links;
      connections = w.connections.items;
    } };
}

impl World {
    /// A chain of `count` servers before any event, with a connection at each of these homes.
    pub fn new(alloc: Global, count: u8, homes: &[usize]) -> Result<World, SceneFault>
        requires chain { count ≤ 16 }
        ensures opening { IfOk result (λ world. world ≡ worlds.opening_world count homes.now) }
        ensures only_memory { IfErr result (λ fault. fault ≡ SceneFault.Memory) }
    {
        Ok(World {
            servers: Servers::new(alloc, count)?,
            failed: View::empty(),
            links: Links::new(alloc, usize::from(count))?,
            connections: fresh(alloc, homes)?,
        })
    }

    /// What an event does. One that doesn't apply has no effect.
    pub fn happen(&mut self, event: &Event) -> Result<(), SceneFault>
        ensures ok { OnOk result (self.new ≡ worlds.happens self.old event.now) }
        ensures only_memory { IfErr result (λ fault. fault ≡ SceneFault.Memory) }
        ensures connections { length self.new.connections ≡ length self.old.connections }
    {
        match self.attempt(event)? {
            None => Ok(()),
            Some(_) => Err(SceneFault::Memory),
        }
    }

    /// What an event does. The server whose step it is, if that was out of memory, so that the server has
    /// failed instead. Any other refusal is an error.
    pub fn attempt(&mut self, event: &Event) -> Result<Option<usize>, SceneFault>
        ensures ok { IfOk result (λ refused. Comes self.old event.now refused self.new) }
        ensures only_memory { IfErr result (λ fault. fault ≡ SceneFault.Memory) }
        ensures connections { length self.new.connections ≡ length self.old.connections }
    {
        match event {
            Event::Piece(c, bytes) => self.piece(*c, bytes.as_slice())?,
            Event::Begin(c) => self.begin(*c)?,
            Event::Work(c) => return self.work(*c),
            Event::Deliver(i, j) => return self.deliver(*i, *j),
            Event::Fail(i) => self.fail(*i),
            Event::Tell(i, j) => return self.tell(*i, *j),
            Event::Hand(c) => self.hand(*c)?,
        }
        Ok(None)
    }

    /// Whether server i is one of the chain, and hasn't failed.
    pub fn lives(&self, i: usize) -> bool
        ensures lives { result ≡ worlds.lives self.now i }
        ensures server { IsTrue result → (i < length self.now.servers) × (i < 16) }
    {
        i < self.servers.len() && !self.failed.has(i as u8)
    }

    /// Whether it is one of the chain, and has failed.
    pub fn has_failed(&self, i: usize) -> bool
        ensures failed { result ≡ worlds.has_failed self.now i }
        ensures server { IsTrue result → i < 16 }
    {
        i < self.servers.len() && self.failed.has(i as u8)
    }

    /// Whether there is such a connection, and its home lives.
    pub fn home_lives(&self, c: usize) -> bool
        ensures { result ≡ worlds.home_lives self.now (slice_get self.now.connections c) }
    {
        match self.connections.get(c) {
            Some(connection) => self.lives(connection.home()),
            None => false,
        }
    }

    // Bytes come to a connection.
    fn piece(&mut self, c: usize, bytes: &[u8]) -> Result<(), SceneFault>
        ensures ok { OnOk result (self.new ≡ worlds.happens self.old (Piece c bytes.now)) }
        ensures only_memory { IfErr result (λ fault. fault ≡ SceneFault.Memory) }
        ensures connections { length self.new.connections ≡ length self.old.connections }
    {
        if self.home_lives(c) {
            self.connections[c].come(bytes)?;
        }
        Ok(())
    }

    // A connection's next call begins.
    fn begin(&mut self, c: usize) -> Result<(), SceneFault>
        ensures ok { OnOk result (self.new ≡ worlds.happens self.old (Begin c)) }
        ensures only_memory { IfErr result (λ fault. fault ≡ SceneFault.Memory) }
        ensures connections { length self.new.connections ≡ length self.old.connections }
    {
        if self.home_lives(c) {
            self.connections[c].begin()?;
        }
        Ok(())
    }

    // The reply that waits reaches the connection.
    fn hand(&mut self, c: usize) -> Result<(), SceneFault>
        ensures ok { OnOk result (self.new ≡ worlds.happens self.old (Hand c)) }
        ensures only_memory { IfErr result (λ fault. fault ≡ SceneFault.Memory) }
        ensures connections { length self.new.connections ≡ length self.old.connections }
    {
        if self.home_lives(c) {
            self.connections[c].hand()?;
        }
        Ok(())
    }
}

fn fresh(alloc: Global, homes: &[usize]) -> Result<Vec<Connection>, AllocError>
    ensures { IfOk result (λ connections. connections.items ≡ map fresh homes.now) }
{
    let mut connections = Vec::with_capacity(alloc, homes.len())?;
    for home in homes {
        connections.push(Connection::new(alloc, *home))?;
    }
    Ok(connections)
}
