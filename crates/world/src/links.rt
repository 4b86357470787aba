//! Links: the messages on their way from each server to each.
ghost use Rattle.std.specs.Prelude.{◌≡◌, ◌<◌, ◌≤◌, [], ◌∷◌, ◌++◌, drop, length, replicate, slice_get, slice_index_or};
ghost use Rattle.std.specs.Prelude.{slice_set, IfOk, IfSome, OnOk};
ghost use Rattle.std.specs.Option.{option_copied};
ghost use Rattle.node.specs.Lawful.{IsBody};
ghost use Rattle.world.specs.Links.{messages_between, with_messages, is_empty};

use node::Peer;
use std::alloc::{AllocError, Global};
use std::collections::VecDeque;
use std::marker::Model;

/// The messages from one server to another, oldest first. Each may be given to a server.
#[derive(Drop)]
pub struct Link {
    messages: VecDeque<Peer>,
}

impl Model for Link {
    ghost use Rattle.std.specs.Prelude.{List};
    ghost use Rattle.node.specs.declared.messages.Peer.{Peer};
    ghost use Rattle.world.specs.Links.{AreMessages};

    ghost Value = { List Peer };

    ghost view = { λ l. l.messages.items };

    ghost invariant = { λ l. AreMessages l.messages.items };
}

impl Link {
    /// A link without messages. It allocates nothing.
    pub fn new(alloc: Global) -> Link
        ensures { result ≡ [] }
    {
        Link {
            messages: VecDeque::new(alloc),
        }
    }

    /// Puts a message at the end.
    #[tactic(auto, using(crate::proofs::bodies::LinkLists::messages_more))]
    pub fn push(&mut self, message: Peer) -> Result<(), AllocError>
        requires message { IsBody message.body }
        ensures ok { OnOk result (self.new ≡ self.old ++ message ∷ []) }
    {
        Ok(self.messages.push_back(message)?)
    }

    /// Takes the first message off.
    pub fn pop(&mut self) -> Option<Peer>
        ensures first { result ≡ slice_get self.old 0 }
        ensures rest { self.new ≡ drop 1 self.old }
        ensures message { IfSome result (λ m. IsBody m.body) }
    {
        self.messages.pop_front()
    }

    /// Its k-th message, counted from 0, if there is one.
    pub fn message(&self, k: usize) -> Option<&Peer>
        ensures { option_copied result ≡ slice_get self.now k }
    {
        self.messages.get(k)
    }

    /// Whether it has no message.
    pub fn is_empty(&self) -> bool
        ensures { result ≡ is_empty self.now }
    {
        self.messages.is_empty()
    }
}

/// The links from one server to each.
#[derive(Drop)]
pub struct Row {
    links: Vec<Link>,
}

impl Model for Row {
    ghost use Rattle.std.specs.Prelude.{List};
    ghost use Rattle.node.specs.declared.messages.Peer.{Peer};

    ghost Value = { List (List Peer) };

    ghost view = { λ r. r.links.items };
}

impl Row {
    /// Links without messages to `count` servers.
    pub fn new(alloc: Global, count: usize) -> Result<Row, AllocError>
        ensures { IfOk result (λ row. row ≡ replicate count []) }
    {
        let mut links = Vec::with_capacity(alloc, count)?;
        for _ in 0..count {
            links.push(Link::new(alloc))?;
        }
        Ok(Row { links })
    }

    /// Puts a message at the end of the link to server j, if there is one.
    pub fn push(&mut self, j: usize, message: Peer) -> Result<(), AllocError>
        requires message { IsBody message.body }
        ensures ok { OnOk result (self.new ≡ slice_set self.old j (slice_index_or self.old j [] ++ message ∷ [])) }
    {
        if j < self.links.len() {
            self.links[j].push(message)
        } else {
            drop(message);
            Ok(())
        }
    }

    /// Takes the first message off the link to server j.
    pub fn pop(&mut self, j: usize) -> Option<Peer>
        ensures first { result ≡ slice_get (slice_index_or self.old j []) 0 }
        ensures rest { self.new ≡ slice_set self.old j (drop 1 (slice_index_or self.old j [])) }
        ensures message { IfSome result (λ m. IsBody m.body) }
    {
        if j < self.links.len() {
            self.links[j].pop()
        } else {
            None
        }
    }

    /// The k-th message of the link to server j, counted from 0, if there is one.
    pub fn message(&self, j: usize, k: usize) -> Option<&Peer>
        ensures { option_copied result ≡ slice_get (slice_index_or self.now j []) k }
    {
        match self.links.get(j) {
            Some(link) => link.message(k),
            None => None,
        }
    }

    /// Whether the link to server j has no message.
    pub fn is_empty(&self, j: usize) -> bool
        ensures { result ≡ is_empty (slice_index_or self.now j []) }
    {
        match self.links.get(j) {
            Some(link) => link.is_empty(),
            None => true,
        }
    }
}

/// The links from each server of a chain to each.
#[derive(Drop)]
pub struct Links {
    rows: Vec<Row>,
}

impl Model for Links {
    ghost use Rattle.std.specs.Prelude.{List, length, ◌≤◌};
    ghost use Rattle.node.specs.declared.messages.Peer.{Peer};

    ghost Value = { List (List (List Peer)) };

    ghost view = { λ l. l.rows.items };

    ghost invariant = { λ l. length l.rows.items ≤ 16 };
}

impl Links {
    /// Links without messages from each of `count` servers to each.
    pub fn new(alloc: Global, count: usize) -> Result<Links, AllocError>
        requires chain { count ≤ 16 }
        ensures { IfOk result (λ links. links ≡ replicate count (replicate count [])) }
    {
        let mut rows = Vec::with_capacity(alloc, count)?;
        for _ in 0..count {
            rows.push(Row::new(alloc, count)?)?;
        }
        Ok(Links { rows })
    }

    /// Puts a message at the end of the link from server i to server j, if there is one.
    pub fn push(&mut self, i: usize, j: usize, message: Peer) -> Result<(), AllocError>
        requires message { IsBody message.body }
        ensures ok { OnOk result
            (self.new ≡ with_messages self.old i j (messages_between self.old i j ++ message ∷ [])) }
    {
        if i < self.rows.len() {
            self.rows[i].push(j, message)
        } else {
            drop(message);
            Ok(())
        }
    }

    /// Takes the first message off the link from server i to server j.
    pub fn pop(&mut self, i: usize, j: usize) -> Option<Peer>
        ensures first { result ≡ slice_get (messages_between self.old i j) 0 }
        ensures rest { self.new ≡ with_messages self.old i j (drop 1 (messages_between self.old i j)) }
        ensures message { IfSome result (λ m. IsBody m.body) }
        // Only a server of a chain sends.
        ensures sender { IfSome result (λ m. i < 16) }
    {
        if i < self.rows.len() {
            self.rows[i].pop(j)
        } else {
            None
        }
    }

    /// The k-th message of the link from server i to server j, counted from 0, if there is one.
    pub fn message(&self, i: usize, j: usize, k: usize) -> Option<&Peer>
        ensures { option_copied result ≡ slice_get (messages_between self.now i j) k }
    {
        match self.rows.get(i) {
            Some(row) => row.message(j, k),
            None => None,
        }
    }

    /// Whether the link from server i to server j has no message.
    pub fn is_empty(&self, i: usize, j: usize) -> bool
        ensures { result ≡ is_empty (messages_between self.now i j) }
    {
        match self.rows.get(i) {
            Some(row) => row.is_empty(j),
            None => true,
        }
    }
}
