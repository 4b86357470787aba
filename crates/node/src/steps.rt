//! One server's step: what each input does.
ghost use Rattle.std.specs.Prelude.{◌≡◌, ◌<◌, ◌≤◌, OnOk, IfOk};
ghost use Rattle.node.specs.Lawful.{IsCall, IsBody, IsInput, IsSound, IsLawful, HoldsEntry, AreToOthers, AreFit};
ghost use Rattle.node.specs.Outcomes.{Does};
ghost use Rattle.node.specs.Steps as steps;
ghost use Rattle.node.specs.Faces.{face_changed, face_of, steps_by, acked_by};
ghost use Rattle.node.specs.Standings.{entries_by};
ghost use Rattle.versions.specs.Stores.{last_number, entries_after};

use crate::servers::Replica;
use crate::{Body, FaceChange, Input, Output, Peer, View};
use std::alloc::AllocError;
use table::Call;
use versions::Entry;

impl Replica {
    /// One step: what the input does, and then the floor.
    pub(crate) fn step(&mut self, input: Input) -> Result<Vec<Output>, AllocError>
        requires lawful { IsLawful self.old }
        requires input { IsInput input }
        ensures state { OnOk result (self.new ≡ (steps.step self.old input).state) }
        ensures outputs { IfOk result (λ outputs. outputs.items ≡ (steps.step self.old input).outputs) }
        ensures lawful { OnOk result (IsLawful self.new) }
        ensures addressed { IfOk result (λ outputs. AreToOthers self.old.id self.old.count outputs.items) }
        ensures fit { IfOk result (λ outputs. AreFit outputs.items) }
    {
        hold_entry(&input);
        let mut outputs = Vec::new(self.alloc);
        self.take_in(input, &mut outputs)?;
        self.trim();
        Ok(outputs)
    }

    /// The same step, and how it changes the face.
    pub(crate) fn step_face(
        &mut self,
        input: Input,
    ) -> Result<(Vec<Output>, FaceChange), AllocError>
        requires lawful { IsLawful self.old }
        requires input { IsInput input }
        ensures state { OnOk result (self.new ≡ (steps.step self.old input).state) }
        ensures outputs { IfOk result (λ found. found.0.items ≡ (steps.step self.old input).outputs) }
        ensures lawful { OnOk result (IsLawful self.new) }
        ensures addressed { IfOk result (λ found. AreToOthers self.old.id self.old.count found.0.items) }
        ensures fit { IfOk result (λ found. AreFit found.0.items) }
        ensures steps { IfOk result (λ found. found.1.steps.items ≡ steps_by self.old input) }
        ensures acked { IfOk result (λ found. found.1.acked ≡ acked_by self.old input) }
        ensures face { IfOk result
            (λ found. face_changed (face_of self.old) found.1.steps.items found.1.acked
            ≡ face_of (steps.step self.old input).state) }
    {
        hold_entry(&input);
        let before = self.store.last();
        let mut outputs = Vec::new(self.alloc);
        self.take_in(input, &mut outputs)?;
        let change = self.change_after(before)?;
        self.trim();
        Ok((outputs, change))
    }

    /// The same step, and the entries that it appends.
    pub(crate) fn step_logged(
        &mut self,
        input: Input,
    ) -> Result<(Vec<Output>, Vec<Entry>), AllocError>
        requires lawful { IsLawful self.old }
        requires input { IsInput input }
        ensures state { OnOk result (self.new ≡ (steps.step self.old input).state) }
        ensures outputs { IfOk result (λ found. found.0.items ≡ (steps.step self.old input).outputs) }
        ensures lawful { OnOk result (IsLawful self.new) }
        ensures fit { IfOk result (λ found. AreFit found.0.items) }
        ensures entries { IfOk result (λ found. found.1.items ≡ entries_by self.old input) }
    {
        hold_entry(&input);
        let before = self.store.last();
        let mut outputs = Vec::new(self.alloc);
        self.take_in(input, &mut outputs)?;
        let entries = self.entries_above(before)?;
        self.trim();
        Ok((outputs, entries))
    }

    // Copies of the entries above a number, in order. They share their data.
    fn entries_above(&self, above: u64) -> Result<Vec<Entry>, AllocError>
        requires above { (self.now.store.floor ≤ above) × (above ≤ last_number self.now.store) }
        ensures { IfOk result (λ entries. entries.items ≡ entries_after self.now.store above) }
    {
        let mut entries = Vec::new(self.alloc);
        for entry in self.store.entries_after(above) {
            entries.push(entry.clone()?)?;
        }
        Ok(entries)
    }

    // What an input does, but for the floor.
    fn take_in(&mut self, input: Input, outputs: &mut Vec<Output>) -> Result<(), AllocError>
        requires lawful { IsLawful self.old }
        requires input { IsInput input }
        ensures { OnOk result (Does self.new outputs.old.items outputs.new.items (steps.taken_in self.old input)) }
    {
        match input {
            Input::Call(port, call) => self.call(port, call, outputs),
            Input::From(i, peer) => self.from_peer(i, peer, outputs),
            Input::Gone(j) => self.gone(j, outputs),
        }
    }

    // An own call.
    fn call(&mut self, port: usize, call: Call, outputs: &mut Vec<Output>) -> Result<(), AllocError>
        requires chain { IsSound self.old }
        requires call { IsCall call }
        ensures { OnOk result (Does self.new outputs.old.items outputs.new.items (steps.call self.old port call)) }
    {
        if call.op.is_update() {
            let done = self.update(port, &call, outputs);
            drop(call);
            return done;
        }
        let Call { target, op } = call;
        drop(op);
        self.read(port, target, outputs)
    }

    // The notice that server j has failed: it is joined, unless j is this server or none of the chain.
    fn gone(&mut self, j: u8, outputs: &mut Vec<Output>) -> Result<(), AllocError>
        requires chain { IsSound self.old }
        ensures { OnOk result (Does self.new outputs.old.items outputs.new.items (steps.gone self.old j)) }
    {
        if j < self.count && j != self.id {
            self.join(View::single(j), outputs)
        } else {
            Ok(())
        }
    }

    // The sender is another server of the chain, and the view names neither this server nor one that isn't of the
    // chain.
    fn is_heard(&self, i: u8, v: View) -> bool
        requires chain { IsSound self.now }
        ensures { result ≡ steps.is_heard self.now i v }
    {
        i < self.count && i != self.id && v.is_below(self.count) && !v.has(self.id)
    }

    // A message from server i: its view is joined first, and then it is judged whether its sender has failed.
    fn from_peer(&mut self, i: u8, peer: Peer, outputs: &mut Vec<Output>) -> Result<(), AllocError>
        requires lawful { IsLawful self.old }
        requires body { IsBody peer.body }
        ensures { OnOk result (Does self.new outputs.old.items outputs.new.items (steps.from_peer self.old i peer)) }
    {
        let Peer { view, body } = peer;
        if !self.is_heard(i, view) {
            drop(body);
            return Ok(());
        }
        match self.join(view, outputs) {
            Ok(()) => self.receive(i, body, outputs),
            Err(e) => {
                drop(body);
                Err(e)
            }
        }
    }

    // Nothing is received of a server that is known to have failed. A body that doesn't fit has no effect.
    fn receive(&mut self, i: u8, body: Body, outputs: &mut Vec<Output>) -> Result<(), AllocError>
        requires chain { IsSound self.old }
        requires server { i < 16 }
        requires body { IsBody body }
        ensures { OnOk result (Does self.new outputs.old.items outputs.new.items (steps.received self.old i body)) }
    {
        if self.view.has(i) {
            drop(body);
            return Ok(());
        }
        match body {
            Body::Op(id, call) => {
                let done = self.receive_op(i, id, &call, outputs);
                drop(call);
                done
            }
            Body::Forward(entry) => self.receive_forward(i, entry, outputs),
            Body::Ack(n) => self.receive_ack(i, n, outputs),
            Body::Query(ask, key) => {
                drop(key);
                self.receive_query(i, ask, outputs)
            }
            Body::Answer(ask, n) => self.receive_answer(i, ask, n, outputs),
        }
    }

    // The floor follows: lower bounds never fall, so the first open read has the least.
    #[tactic(auto, unfolding(crate::specs::Steps::trimmed))]
    fn trim(&mut self)
        requires chain { IsSound self.old }
        ensures { self.new ≡ steps.trimmed self.old }
    {
        let least = self.least_open();
        self.store.drop_to(least);
    }

    // The least of the commit number and the lower bounds of all open reads.
    fn least_open(&self) -> u64
        requires chain { IsSound self.now }
        ensures least { result ≡ steps.least_open self.now.store.acked self.now.asks }
        ensures low { self.now.store.floor ≤ result }
        ensures high { result ≤ self.now.store.acked }
    {
        match self.asks.front() {
            Some(read) => read.lower_bound,
            None => self.store.acked(),
        }
    }
}

// An entry keeps its ranges by its type, and a proof learns of them at a call on the entry. A step hands the entry on
// without any, so it makes this one first. It changes nothing, and costs a look at the input.
fn hold_entry(input: &Input)
    ensures { HoldsEntry input.now }
{
    if let Input::From(_, peer) = input {
        if let Body::Forward(entry) = &peer.body {
            let _number = entry.number();
        }
    }
}
