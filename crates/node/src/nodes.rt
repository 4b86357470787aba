//! Nodes: a server's step, which stops the server for good if it runs out of memory.
ghost use Rattle.std.specs.Prelude.{◌≡◌, ◌≢◌, ◌↔◌, ◌<◌, ◌≤◌, true, false, IfOk, IfErr, OnOk, OnErr, IsOk, IsErrOf};
ghost use Rattle.node.specs.declared.nodes.NodeFault.TheVariants.{Memory, BadCount};
ghost use Rattle.node.specs.Steps as steps;
ghost use Rattle.node.specs.Lawful.{IsInput, IsLawful, AreToOthers, AreFit};
ghost use Rattle.node.specs.Nodes.{running, fresh};
ghost use Rattle.node.specs.Nodes as nodes;
ghost use Rattle.node.specs.Standings.{entries_by};
ghost use Rattle.node.specs.Faces.{peeked, look_copied, look_at, face_of, face_changed, steps_by, acked_by};

use crate::servers::Replica;
use crate::views::SERVERS;
use crate::{FaceChange, Input, Look, Output, View};
use std::alloc::{AllocError, Global};
use std::marker::Model;
use table::{Item, Key};
use thiserror::Error;
use versions::Entry;

/// Why a node refuses a call.
#[derive(Clone, Copy, Debug, PartialEq, Eq, Error)]
pub enum NodeFault {
    /// Out of memory; the node is stopped from now on.
    #[error("out of memory")]
    Memory,
    /// An earlier step ran out of memory.
    #[error("stopped")]
    Stopped,
    /// The chain has no such server, or more than 16.
    #[error("no such server")]
    BadCount,
}

impl From<AllocError> for NodeFault {
    ghost from_gives = { λ _ e. e ≡ Memory };

    fn from(_e: AllocError) -> NodeFault {
        NodeFault::Memory
    }
}

/// One server of a chain (CRAQ, "Basic System Model"). A step that finds memory out stops it for good.
/// Contracts see a `ServerState`, and whether it is stopped (`NodeState`).
#[derive(Drop)]
pub struct Node {
    pub(crate) server: Replica,
    stopped: bool,
}

impl Model for Node {
    ghost use Rattle.std.specs.Prelude.{◌≡◌, false};
    ghost use Rattle.std.specs.Coded.{codes};
    ghost use Rattle.versions.specs.Stores.{coded_items};
    ghost use Rattle.node.specs.Lawful.{IsLawful};
    ghost use Rattle.node.specs.Nodes.{NodeState};

    ghost Value = { NodeState };

    ghost coded = { Prim.hlevel (codes, coded_items) };

    ghost view = { λ n. record { server = n.server; stopped = n.stopped } };

    ghost invariant = { λ n. n.stopped ≡ false → IsLawful n.server };
}

impl Node {
    /// Server `id` of a chain of `count`, before any input. Refused exactly if it has no such server, or more than 16.
    /// It allocates nothing.
    pub fn new(alloc: Global, id: u8, count: u8) -> Result<Node, NodeFault>
        ensures fresh { IfOk result (λ node. node ≡ fresh id count) }
        ensures lawful { IfOk result (λ node. IsLawful node.server) }
        ensures accepted { IsOk result ↔ ((id < count) × (count ≤ 16)) }
        ensures bad_count { IfErr result (λ fault. fault ≡ NodeFault.BadCount) }
    {
        if id >= count || count > SERVERS {
            return Err(NodeFault::BadCount);
        }
        Ok(Node {
            server: Replica::new(alloc, id, count),
            stopped: false,
        })
    }

    /// One step. Its outputs stand in the order in which the rules give them. Refused with Memory, and the node is
    /// stopped from then on; with Stopped, exactly from then on. It copies an item's data only if the head joins two
    /// pieces for an append or a prepend. Each entry that it appends, acknowledges, puts out or moves to the base takes
    /// time logarithmic in the number of keys; a flush that the floor passes takes time linear in it, and a join time
    /// linear in the open calls. An own open call is found by a binary search. Answers come in order from servers that
    /// keep to the rules; after one that doesn't, the open calls on the shorter side of the answered one are moved by
    /// one place.
    pub fn step(&mut self, input: Input) -> Result<Vec<Output>, NodeFault>
        requires input { IsInput input }
        ensures state { OnOk result (self.new ≡ running (steps.step self.old.server input).state) }
        ensures outputs { IfOk result (λ outputs. outputs.items ≡ (steps.step self.old.server input).outputs) }
        // No message goes to the node itself, nor to a server that isn't of the chain.
        ensures addressed { IfOk result
            (λ outputs. AreToOthers self.old.server.id self.old.server.count outputs.items) }
        // Each message may be sent, and handed in where it goes.
        ensures fit { IfOk result (λ outputs. AreFit outputs.items) }
        ensures lawful { OnOk result (IsLawful self.new.server) }
        // Memory stops the node, and Stopped is answered exactly from then on.
        ensures stopped { IsErrOf result NodeFault.Stopped ↔ (self.old.stopped ≡ true) }
        ensures unchanged { IsErrOf result NodeFault.Stopped → self.new ≡ self.old }
        ensures stops { OnErr result (self.new.stopped ≡ true) }
        ensures fault { IfErr result (λ fault. fault ≢ NodeFault.BadCount) }
    {
        if self.stopped {
            drop(input);
            return Err(NodeFault::Stopped);
        }
        self.stopped = true;
        let outputs = self.server.step(input)?;
        self.stopped = false;
        Ok(outputs)
    }

    /// The same step, and how it changes the face that readers beside the node see: the steps in order, and then the
    /// commit number, with which the versions without item up to it are taken away. Refused with Memory, and the
    /// node is stopped from then on; with Stopped, exactly from then on. It copies an item's data only if the head
    /// joins two pieces for an append or a prepend. Besides the time of `step` it takes time linear in the entries that
    /// it appends.
    pub fn step_face(&mut self, input: Input) -> Result<(Vec<Output>, FaceChange), NodeFault>
        requires input { IsInput input }
        ensures state { OnOk result (self.new ≡ running (steps.step self.old.server input).state) }
        ensures outputs { IfOk result (λ found. found.0.items ≡ (steps.step self.old.server input).outputs) }
        ensures addressed { IfOk result (λ found. AreToOthers self.old.server.id self.old.server.count found.0.items) }
        ensures fit { IfOk result (λ found. AreFit found.0.items) }
        ensures lawful { OnOk result (IsLawful self.new.server) }
        ensures steps { IfOk result (λ found. found.1.steps.items ≡ steps_by self.old.server input) }
        ensures acked { IfOk result (λ found. found.1.acked ≡ acked_by self.old.server input) }
        // The change, done on the face before, gives the face after.
        ensures face { IfOk result
            (λ found. face_changed (face_of self.old.server) found.1.steps.items found.1.acked
            ≡ face_of (steps.step self.old.server input).state) }
        // Memory stops the node, and Stopped is answered exactly from then on.
        ensures stopped { IsErrOf result NodeFault.Stopped ↔ (self.old.stopped ≡ true) }
        ensures unchanged { IsErrOf result NodeFault.Stopped → self.new ≡ self.old }
        ensures stops { OnErr result (self.new.stopped ≡ true) }
        ensures fault { IfErr result (λ fault. fault ≢ NodeFault.BadCount) }
    {
        if self.stopped {
            drop(input);
            return Err(NodeFault::Stopped);
        }
        self.stopped = true;
        let step = self.server.step_face(input)?;
        self.stopped = false;
        Ok(step)
    }

    /// The same step as `step`, and copies of the entries that it appends, which share their data. Refused as `step`
    /// is.
    pub fn step_logged(&mut self, input: Input) -> Result<(Vec<Output>, Vec<Entry>), NodeFault>
        requires input { IsInput input }
        ensures state { OnOk result (self.new ≡ running (steps.step self.old.server input).state) }
        ensures outputs { IfOk result (λ found. found.0.items ≡ (steps.step self.old.server input).outputs) }
        ensures fit { IfOk result (λ found. AreFit found.0.items) }
        ensures entries { IfOk result (λ found. found.1.items ≡ entries_by self.old.server input) }
        ensures stopped { IsErrOf result NodeFault.Stopped ↔ (self.old.stopped ≡ true) }
        ensures unchanged { IsErrOf result NodeFault.Stopped → self.new ≡ self.old }
        ensures stops { OnErr result (self.new.stopped ≡ true) }
        ensures fault { IfErr result (λ fault. fault ≢ NodeFault.BadCount) }
    {
        if self.stopped {
            drop(input);
            return Err(NodeFault::Stopped);
        }
        self.stopped = true;
        let step = self.server.step_logged(input)?;
        self.stopped = false;
        Ok(step)
    }

    /// A look at a key, while the node isn't stopped: clean with its item or none, or dirty. It allocates nothing,
    /// and takes time logarithmic in the number of keys.
    pub fn peek(&self, key: &Key) -> Look<&Item>
        ensures newest { look_copied result ≡ peeked self.now.server key.now }
        // It is the look at the face that readers beside the node see.
        ensures face { self.now.stopped ≡ false → look_copied result ≡ look_at (face_of self.now.server) key.now }
    {
        self.look(key)
    }

    // The same, stopped or not.
    fn look(&self, key: &Key) -> Look<&Item>
        ensures newest { look_copied result ≡ peeked self.now.server key.now }
        ensures lawful { self.now.stopped ≡ false → IsLawful self.now.server }
    {
        match self.server.store.clean_version(key) {
            Some(item) => Look::Clean(item),
            None => Look::Dirty,
        }
    }

    /// The servers that it knows to have failed.
    pub fn view(&self) -> View
        ensures { result ≡ self.now.server.view }
    {
        self.server.view
    }

    /// Whether it isn't stopped and no call of its own is open.
    pub fn is_idle(&self) -> bool
        ensures idle { result ≡ nodes.is_idle self.now }
        ensures lawful { self.now.stopped ≡ false → IsLawful self.now.server }
    {
        !self.stopped && self.server.pend.is_empty() && self.server.asks.is_empty()
    }
}
