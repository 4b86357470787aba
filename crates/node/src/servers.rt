//! One server of the chain: what it holds.
ghost use Rattle.std.specs.Prelude.{◌≡◌, ◌<◌, ◌≤◌, ◌++◌, OnOk};
ghost use Rattle.node.specs.Servers as servers;
ghost use Rattle.node.specs.Views as views;

use crate::queues::Numbered;
use crate::{Body, Output, Peer, View};
use std::alloc::{AllocError, Global};
use std::collections::VecDeque;
use std::marker::Model;
use table::{Call, Key};
use versions::Store;

/// An own update call without a reply.
#[derive(Debug, Drop)]
pub struct OpenUpdate {
    /// Its id at this server.
    pub id: u64,
    /// The port at which its reply is wanted.
    pub port: usize,
    /// The call.
    pub call: Call,
}

/// An own read that waits for the tail's answer.
#[derive(Debug, Drop)]
pub struct OpenRead {
    /// The number of its ask.
    pub ask: u64,
    /// The port at which its reply is wanted.
    pub port: usize,
    /// The key.
    pub key: Key,
    /// The commit number when it was asked.
    pub lower_bound: u64,
}

impl Numbered for OpenUpdate {
    ghost number_of = { λ update. update.id };

    fn number(&self) -> u64 {
        self.id
    }
}

impl Numbered for OpenRead {
    ghost number_of = { λ read. read.ask };

    fn number(&self) -> u64 {
        self.ask
    }
}

/// What one server holds.
#[derive(Drop)]
pub(crate) struct Replica {
    pub(crate) alloc: Global,
    pub(crate) id: u8,
    pub(crate) count: u8,
    pub(crate) view: View,
    pub(crate) store: Store,
    pub(crate) seen: [u64; 16],
    pub(crate) pend: VecDeque<OpenUpdate>,
    pub(crate) next_id: u64,
    pub(crate) asks: VecDeque<OpenRead>,
    pub(crate) next_ask: u64,
}

impl Model for Replica {
    ghost use Rattle.std.specs.Coded.{codes};
    ghost use Rattle.versions.specs.Stores.{coded_items};
    ghost use Rattle.node.specs.Servers.{ServerState};

    ghost Value = { ServerState };

    ghost coded = { Prim.hlevel (codes, coded_items) };

    ghost view = { λ s. record {
      id = s.id;
      count = s.count;
      view = s.view;
      store = s.store;
      seen = s.seen;
      pend = s.pend.items;
      next_id = s.next_id;
      asks = s.asks.items;
      next_ask = s.next_ask;
    } };
}

impl Replica {
    /// A server before any input. It allocates nothing.
    pub(crate) fn new(alloc: Global, id: u8, count: u8) -> Replica
        ensures { result ≡ servers.opening id count }
    {
        Replica {
            alloc,
            id,
            count,
            view: View::empty(),
            store: Store::new(alloc),
            seen: [0; 16],
            pend: VecDeque::new(alloc),
            next_id: 1,
            asks: VecDeque::new(alloc),
            next_ask: 1,
        }
    }

    /// The head in its own view.
    pub(crate) fn head(&self) -> Option<u8>
        requires chain { self.now.count ≤ 16 }
        ensures { result ≡ servers.head_of self.now }
    {
        self.view.head(self.count)
    }

    /// The tail in its own view.
    pub(crate) fn tail(&self) -> Option<u8>
        requires chain { self.now.count ≤ 16 }
        ensures { result ≡ servers.tail_of self.now }
    {
        self.view.tail(self.count)
    }

    /// Its predecessor in its own view.
    pub(crate) fn predecessor(&self) -> Option<u8>
        requires chain { self.now.id ≤ 16 }
        ensures { result ≡ servers.predecessor_of self.now }
    {
        self.view.predecessor(self.id)
    }

    /// Its successor in its own view.
    pub(crate) fn successor(&self) -> Option<u8>
        requires chain { (self.now.id < self.now.count) × (self.now.count ≤ 16) }
        ensures { result ≡ servers.successor_of self.now }
    {
        self.view.successor(self.count, self.id)
    }

    pub(crate) fn is_head(&self) -> bool
        requires chain { self.now.count ≤ 16 }
        ensures { result ≡ servers.is_head self.now }
    {
        is_that(self.head(), self.id)
    }

    pub(crate) fn is_tail(&self) -> bool
        requires chain { self.now.count ≤ 16 }
        ensures { result ≡ servers.is_tail self.now }
    {
        is_that(self.tail(), self.id)
    }

    /// Puts out a message to this server, if it is one, with its own view.
    pub(crate) fn send(
        &self,
        to: Option<u8>,
        body: Body,
        outputs: &mut Vec<Output>,
    ) -> Result<(), AllocError>
        ensures { OnOk result (outputs.new.items ≡ outputs.old.items ++ servers.message_to self.now to body) }
    {
        let Some(to) = to else {
            drop(body);
            return Ok(());
        };
        let peer = Peer {
            view: self.view,
            body,
        };
        outputs.push(Output::To(to, peer))?;
        Ok(())
    }
}

/// Whether there is one, and it is this one.
pub(crate) fn is_that(found: Option<u8>, i: u8) -> bool
    ensures { result ≡ views.is_that found i }
{
    matches!(found, Some(j) if j == i)
}
