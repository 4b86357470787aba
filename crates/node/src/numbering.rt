//! Numbering: how an update gets its entry.
ghost use Rattle.std.specs.Prelude.{◌≡◌, ◌<◌, ◌≤◌, ℕ, true, length, ◌-◌, ◌^◌, OnOk, IfOk, IsTrue};
ghost use Rattle.std.specs.Option.{option_copied};
ghost use Rattle.table.specs.Decisions.{decision};
ghost use Rattle.table.specs.Operations.{is_update};
ghost use Rattle.versions.specs.Stores.{last_number};
ghost use Rattle.node.specs.Lawful.{IsCall, IsSound};
ghost use Rattle.node.specs.Outcomes.{Does};
ghost use Rattle.node.specs.Numbering as numbering;

use crate::servers::{OpenUpdate, Replica};
use crate::{Body, Output};
use std::alloc::AllocError;
use table::{Call, Item, Op, Target, decide};
use versions::{Entry, Store};

impl Replica {
    // The entry that the head makes of an update: decided with the next number.
    fn entry_of(&self, origin: u8, id: u64, call: &Call) -> Result<Entry, AllocError>
        requires server { origin < 16 }
        requires called { 1 ≤ id }
        requires call { IsCall call.now }
        requires update { is_update call.now.op ≡ true }
        requires room { last_number self.now.store < 2 ^ 64 - 1 }
        ensures { IfOk result (λ entry. entry ≡ numbering.entry_of self.now origin id call.now) }
    {
        let number = self.store.last() + 1;
        let item = item_for(&self.store, call);
        let (reply, change) = decide(self.alloc, item, &call.op, number)?;
        Entry::new(
            self.alloc,
            number,
            origin,
            id,
            call.target.clone()?,
            reply,
            change,
        )
    }

    // The update is the origin's next one, and a number is left for it.
    #[tactic(auto, unfolding(crate::specs::Servers::most))]
    fn is_taken(&self, origin: u8, id: u64) -> bool
        requires server { origin < 16 }
        requires seen { length self.now.seen ≡ 16 }
        ensures taken { result ≡ numbering.is_taken self.now origin id }
        ensures room { IsTrue result → last_number self.now.store < 2 ^ 64 - 1 }
        ensures called { IsTrue result → 1 ≤ id }
    {
        let seen = self.seen[usize::from(origin)];
        seen < id && id - seen == 1 && self.store.last() < u64::MAX
    }

    /// Takes an update without sending and without rising, if it is the origin's next one.
    #[tactic(auto, unfolding(crate::specs::Numbering::taken))]
    pub(crate) fn take_quietly(
        &mut self,
        origin: u8,
        id: u64,
        call: &Call,
    ) -> Result<(), AllocError>
        requires server { origin < 16 }
        requires seen { length self.old.seen ≡ 16 }
        requires call { IsCall call.now }
        requires update { is_update call.now.op ≡ true }
        ensures { OnOk result (self.new ≡ numbering.taken self.old origin id call.now) }
    {
        if !self.is_taken(origin, id) {
            return Ok(());
        }
        let entry = self.entry_of(origin, id, call)?;
        self.append(entry)
    }

    /// Takes an update at the head, if it is the origin's next one: its entry is appended and passed on.
    #[tactic(auto, unfolding(crate::specs::Numbering::take_update))]
    pub(crate) fn take_update(
        &mut self,
        origin: u8,
        id: u64,
        call: &Call,
        outputs: &mut Vec<Output>,
    ) -> Result<(), AllocError>
        requires chain { IsSound self.old }
        requires server { origin < 16 }
        requires call { IsCall call.now }
        requires update { is_update call.now.op ≡ true }
        ensures { OnOk result (Does self.new outputs.old.items outputs.new.items (numbering.take_update self.old origin id call.now)) }
    {
        if !self.is_taken(origin, id) {
            return Ok(());
        }
        let entry = self.entry_of(origin, id, call)?;
        self.append_and_pass(entry, outputs)
    }

    /// An own update call: it enters the open ones; at the head it is taken, elsewhere it goes to the head.
    /// It has no effect if no id is left, or at the head no number.
    pub(crate) fn update(
        &mut self,
        port: usize,
        call: &Call,
        outputs: &mut Vec<Output>,
    ) -> Result<(), AllocError>
        requires chain { IsSound self.old }
        requires call { IsCall call.now }
        requires update { is_update call.now.op ≡ true }
        ensures { OnOk result (Does self.new outputs.old.items outputs.new.items (numbering.update self.old port call.now)) }
    {
        if !self.is_room_for_update() {
            return Ok(());
        }
        let id = self.next_id;
        self.enter(port, call.clone()?)?;
        self.submit(id, call, outputs)
    }

    // An own update call has an id left, and at the head a number too.
    #[tactic(auto, unfolding(crate::specs::Servers::most))]
    fn is_room_for_update(&self) -> bool
        requires chain { IsSound self.now }
        ensures room { result ≡ numbering.is_room_for_update self.now }
        ensures id { IsTrue result → self.now.next_id < 2 ^ 64 - 1 }
    {
        self.next_id < u64::MAX && (!self.is_head() || self.store.last() < u64::MAX)
    }

    // An own update call enters the open ones with the next id.
    #[tactic(auto, unfolding(crate::specs::Numbering::entered))]
    fn enter(&mut self, port: usize, call: Call) -> Result<(), AllocError>
        requires id { self.old.next_id < 2 ^ 64 - 1 }
        ensures { OnOk result (self.new ≡ numbering.entered self.old port call) }
    {
        let id = self.next_id;
        self.pend.push_back(OpenUpdate { id, port, call })?;
        self.next_id = id + 1;
        Ok(())
    }

    // An own update call of this id: at the head it is taken, elsewhere it goes to the head.
    fn submit(&mut self, id: u64, call: &Call, outputs: &mut Vec<Output>) -> Result<(), AllocError>
        requires chain { IsSound self.old }
        requires call { IsCall call.now }
        requires update { is_update call.now.op ≡ true }
        ensures { OnOk result (Does self.new outputs.old.items outputs.new.items (numbering.called self.old id call.now)) }
    {
        if self.is_head() {
            self.take_update(self.id, id, call, outputs)
        } else {
            self.send(self.head(), Body::Op(id, call.clone()?), outputs)
        }
    }

    /// `Op` from server i: at the head an update is taken with i as its origin.
    pub(crate) fn receive_op(
        &mut self,
        i: u8,
        id: u64,
        call: &Call,
        outputs: &mut Vec<Output>,
    ) -> Result<(), AllocError>
        requires chain { IsSound self.old }
        requires server { i < 16 }
        requires call { IsCall call.now }
        ensures { OnOk result (Does self.new outputs.old.items outputs.new.items (numbering.receive_op self.old i id call.now)) }
    {
        if self.is_head() && call.op.is_update() {
            self.take_update(i, id, call, outputs)
        } else {
            Ok(())
        }
    }
}

// An item on which a call is decided as on the newest version of its target. A set is decided alike on any, so nothing
// is searched for.
fn item_for<'a>(store: &'a Store, call: &Call) -> Option<&'a Item>
    ensures { (number : ℕ) → decision (option_copied result) call.now.op number
        ≡ decision (numbering.newest store.now call.now.target) call.now.op number }
{
    match call.op {
        Op::Set(..) => None,
        _ => newest(store, &call.target),
    }
}

// The item that an operation on this target is decided on: the newest version, dirty or not.
fn newest<'a>(store: &'a Store, target: &Target) -> Option<&'a Item>
    ensures { option_copied result ≡ numbering.newest store.now target.now }
{
    match target {
        Target::One(key) => store.newest(key),
        Target::All => None,
    }
}
