//! Servers: the nodes of a chain, seen as what each of them holds.
ghost use Rattle.std.specs.Prelude.{◌≡◌, ◌<◌, ◌≤◌, length, slice_index_or, slice_set, IfOk, IfErr, OnOk, OnErr};
ghost use Rattle.node.specs.Lawful.{IsInput, AreFit};
ghost use Rattle.node.specs.Steps as steps;
ghost use Rattle.node.specs.Servers.{opening};
ghost use Rattle.node.specs.Nodes.{fresh, running};
ghost use Rattle.node.specs.Standings.{standing, entries_by};
ghost use Rattle.world.specs.ServerSteps.{step_shown};
ghost use Rattle.world.specs.Worlds.{nobody, opening_servers};

use crate::SceneFault;
use crate::event_effects::ServerStep;
use node::{Input, Node, NodeFault, Output, Standing, View};
use std::alloc::{AllocError, Global};
use std::marker::Model;
use std::mem;
use versions::Entry;

/// The servers of a chain: at most 16.
#[derive(Drop)]
pub struct Servers {
    alloc: Global,
    nodes: Vec<Node>,
}

impl Model for Servers {
    ghost use Rattle.std.specs.Prelude.{◌≡◌, ◌≤◌, false, List, length, map, All};
    ghost use Rattle.std.specs.Coded.{codes};
    ghost use Rattle.versions.specs.Stores.{coded_items};
    ghost use Rattle.node.specs.Servers.{ServerState};

    ghost Value = { List ServerState };

    ghost coded = { Prim.hlevel (codes, coded_items) };

    ghost view = { λ s. map (λ n. n.server) s.nodes.items };

    ghost invariant = { λ s. (length s.nodes.items ≤ 16) × All (λ n. n.stopped ≡ false) s.nodes.items };
}

impl Servers {
    /// A chain of `count` servers, before any input.
    pub fn new(alloc: Global, count: u8) -> Result<Servers, SceneFault>
        requires chain { count ≤ 16 }
        ensures opening { IfOk result (λ servers. servers ≡ opening_servers count count) }
        ensures only_memory { IfErr result (λ fault. fault ≡ SceneFault.Memory) }
    {
        let mut nodes = Vec::with_capacity(alloc, usize::from(count))?;
        for id in 0..count {
            nodes.push(opening_node(alloc, id, count))?;
        }
        Ok(Servers { alloc, nodes })
    }

    /// How many they are.
    pub fn len(&self) -> usize
        ensures count { result ≡ length self.now }
        ensures chain { result ≤ 16 }
    {
        self.nodes.len()
    }

    /// The servers that server i knows to have failed.
    pub fn view(&self, i: usize) -> View
        requires server { i < length self.now }
        ensures { result ≡ (slice_index_or self.now i nobody).view }
    {
        self.nodes[i].view()
    }

    /// Server i takes an input, and puts out messages that may be given to servers. If memory runs out, it is as it was
    /// before any input: so none of these is ever stopped.
    pub fn step(&mut self, i: usize, input: Input) -> Result<Vec<Output>, SceneFault>
        requires server { i < length self.old }
        requires input { IsInput input }
        ensures state { OnOk result
            (self.new ≡ slice_set self.old i (steps.step (slice_index_or self.old i nobody) input).state) }
        ensures outputs { IfOk result
            (λ outputs. outputs.items ≡ (steps.step (slice_index_or self.old i nobody) input).outputs) }
        ensures fit { IfOk result (λ outputs. AreFit outputs.items) }
        ensures only_memory { IfErr result (λ fault. fault ≡ SceneFault.Memory) }
        ensures chain { i < 16 }
        ensures err { OnErr result (self.new ≡ slice_set self.old i (opening i (length self.old))) }
    {
        let count = self.nodes.len() as u8;
        match self.nodes[i].step(input) {
            Ok(outputs) => Ok(outputs),
            Err(NodeFault::Memory) => {
                let opening = opening_node(self.alloc, i as u8, count);
                drop(mem::replace(&mut self.nodes[i], opening));
                Err(SceneFault::Memory)
            }
            Err(NodeFault::Stopped | NodeFault::BadCount) => unreachable!(),
        }
    }

    /// Server i.
    pub fn node(&self, i: usize) -> &Node
        requires server { i < length self.now }
        ensures { result.now ≡ running (slice_index_or self.now i nobody) }
    {
        &self.nodes[i]
    }

    /// Where server i stands.
    pub fn standing(&self, i: usize) -> Standing
        requires server { i < length self.now }
        ensures { result ≡ standing (slice_index_or self.now i nobody) }
    {
        self.nodes[i].standing()
    }

    /// The same as `step`, and what the server made of the input. What is told shares its data.
    pub fn step_telling(
        &mut self,
        alloc: Global,
        i: usize,
        input: Input,
    ) -> Result<(ServerStep, Vec<Output>), SceneFault>
        requires server { i < length self.old }
        requires input { IsInput input }
        ensures state { OnOk result
            (self.new ≡ slice_set self.old i (steps.step (slice_index_or self.old i nobody) input).state) }
        ensures told { IfOk result (λ found. found.0 ≡ step_shown (slice_index_or self.old i nobody) input) }
        ensures outputs { IfOk result
            (λ found. found.1.items ≡ (steps.step (slice_index_or self.old i nobody) input).outputs) }
        ensures fit { IfOk result (λ found. AreFit found.1.items) }
        ensures only_memory { IfErr result (λ fault. fault ≡ SceneFault.Memory) }
    {
        let before = self.standing(i);
        let kept = match copy_of_input(&input) {
            Ok(kept) => kept,
            Err(_) => {
                drop(input);
                return Err(SceneFault::Memory);
            }
        };
        let (outputs, entries) = match self.step_logged(i, input) {
            Ok(found) => found,
            Err(fault) => {
                drop(kept);
                return Err(fault);
            }
        };
        let after = self.standing(i);
        match copies_of_outputs(alloc, outputs.as_slice()) {
            Ok(told) => {
                let step = ServerStep {
                    input: kept,
                    before,
                    entries,
                    outputs: told,
                    after,
                };
                Ok((step, outputs))
            }
            Err(_) => {
                drop(kept);
                drop(entries);
                drop(outputs);
                Err(SceneFault::Memory)
            }
        }
    }

    // The same as `step`, and the entries that the server appended.
    fn step_logged(
        &mut self,
        i: usize,
        input: Input,
    ) -> Result<(Vec<Output>, Vec<Entry>), SceneFault>
        requires server { i < length self.old }
        requires input { IsInput input }
        ensures state { OnOk result
            (self.new ≡ slice_set self.old i (steps.step (slice_index_or self.old i nobody) input).state) }
        ensures outputs { IfOk result
            (λ found. found.0.items ≡ (steps.step (slice_index_or self.old i nobody) input).outputs) }
        ensures entries { IfOk result (λ found. found.1.items ≡ entries_by (slice_index_or self.old i nobody) input) }
        ensures fit { IfOk result (λ found. AreFit found.0.items) }
        ensures only_memory { IfErr result (λ fault. fault ≡ SceneFault.Memory) }
    {
        match self.nodes[i].step_logged(input) {
            Ok(found) => Ok(found),
            Err(NodeFault::Memory) => {
                self.nodes.clear();
                Err(SceneFault::Memory)
            }
            Err(NodeFault::Stopped | NodeFault::BadCount) => unreachable!(),
        }
    }
}

// Each says of a derived clone that it equals what it was made from, which the step that is told is proved by.
fn copy_of_input(input: &Input) -> Result<Input, AllocError>
    ensures { IfOk result (λ copy. copy ≡ input.now) }
{
    input.clone()
}

fn copy_of_output(output: &Output) -> Result<Output, AllocError>
    ensures { IfOk result (λ copy. copy ≡ output.now) }
{
    output.clone()
}

fn copies_of_outputs(alloc: Global, outputs: &[Output]) -> Result<Vec<Output>, AllocError>
    ensures { IfOk result (λ copies. copies.items ≡ outputs.now) }
{
    let mut copies = Vec::with_capacity(alloc, outputs.len())?;
    for output in outputs {
        copies.push(copy_of_output(output)?)?;
    }
    Ok(copies)
}

// Server `id` of a chain of `count`, before any input. It allocates nothing.
fn opening_node(alloc: Global, id: u8, count: u8) -> Node
    requires server { id < count }
    requires chain { count ≤ 16 }
    ensures { result ≡ fresh id count }
{
    match Node::new(alloc, id, count) {
        Ok(node) => node,
        Err(_) => unreachable!(),
    }
}
