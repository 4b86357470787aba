//! Forwarding: how entries go down the chain, and how their acknowledgements come back up it.
ghost use Rattle.std.specs.Prelude.{◌≡◌, ◌≤◌, ◌+◌, ◌++◌, length, map, take, OnOk};
ghost use Rattle.std.specs.VecDeque.Iter.{deque_iter_rest};
ghost use Rattle.versions.specs.Numbers.{IsRising};
ghost use Rattle.versions.specs.Stores.{last_number};
ghost use Rattle.node.specs.Lawful.{IsSound};
ghost use Rattle.node.specs.Outcomes.{Does};
ghost use Rattle.node.specs.Numbering as numbering;

use crate::queues::take_out;
use crate::servers::{OpenUpdate, Replica, is_that};
use crate::{Body, Output};
use std::alloc::AllocError;
use std::collections::VecDeque;
use std::collections::vec_deque::Iter;
use versions::Entry;

// If the entry's call is an own one without a reply, its port gets the reply.
fn settle(
    id: u8,
    pend: &mut VecDeque<OpenUpdate>,
    entry: &Entry,
    outputs: &mut Vec<Output>,
) -> Result<(), AllocError>
    requires order { IsRising 0 (map (λ u. u.id) pend.old.items) }
    ensures left { OnOk result (pend.new.items ≡ numbering.left_open_by id pend.old.items entry.now) }
    ensures replies { OnOk result
        (outputs.new.items ≡ outputs.old.items ++ numbering.reply_to id pend.old.items entry.now) }
{
    if entry.origin() == id {
        if let Some(update) = take_out(pend, entry.id()) {
            let port = update.port;
            drop(update);
            outputs.push(Output::Reply(port, entry.reply().clone()?))?;
        }
    }
    Ok(())
}

// The same of the first `count` entries, in order.
fn settle_first(
    id: u8,
    pend: &mut VecDeque<OpenUpdate>,
    entries: Iter<'_, Entry>,
    count: u64,
    outputs: &mut Vec<Output>,
) -> Result<(), AllocError>
    requires order { IsRising 0 (map (λ u. u.id) pend.old.items) }
    ensures left { OnOk result
        (pend.new.items ≡ numbering.left_open id pend.old.items (take count (deque_iter_rest entries.entry))) }
    ensures replies { OnOk result
        (outputs.new.items ≡ outputs.old.items ++ numbering.replies id pend.old.items
        (take count (deque_iter_rest entries.entry))) }
{
    let mut entries = entries;
    for _settled in 0..count {
        let Some(entry) = entries.next() else {
            return Ok(());
        };
        settle(id, pend, entry, outputs)?;
    }
    Ok(())
}

impl Replica {
    /// Raises the commit number to `n`: the own calls among the entries newly passed are answered, and then the
    /// predecessor is told.
    #[tactic(auto, unfolding(crate::specs::Numbering::risen))]
    pub(crate) fn rise(&mut self, n: u64, outputs: &mut Vec<Output>) -> Result<(), AllocError>
        requires chain { IsSound self.old }
        requires above { self.old.store.acked ≤ n }
        requires known { n ≤ last_number self.old.store }
        ensures { OnOk result (Does self.new outputs.old.items outputs.new.items (numbering.rise self.old n)) }
    {
        let acked = self.store.acked();
        let predecessor = self.predecessor();
        let entries = self.store.entries_after(acked);
        settle_first(self.id, &mut self.pend, entries, n - acked, outputs)?;
        self.store.ack(n);
        // Nobody is to be told: a body that nobody gets would be made and dropped at each set of a head.
        if predecessor.is_none() {
            return Ok(());
        }
        self.send(predecessor, Body::Ack(n), outputs)
    }

    /// The entry is the last one from now on, and its id counts among those seen of its origin.
    #[tactic(auto, unfolding(crate::specs::Numbering::appended))]
    pub(crate) fn append(&mut self, entry: Entry) -> Result<(), AllocError>
        requires next { entry.number ≡ last_number self.old.store + 1 }
        requires seen { length self.old.seen ≡ 16 }
        ensures { OnOk result (self.new ≡ numbering.appended self.old entry) }
    {
        let origin = usize::from(entry.origin());
        let id = entry.id();
        self.store.push(entry).map_err(|_| AllocError)?;
        self.seen[origin] = self.seen[origin].max(id);
        Ok(())
    }

    /// An entry with the next number is appended: at the tail it is acknowledged, otherwise it goes on to the
    /// successor.
    #[tactic(auto, unfolding(crate::specs::Numbering::passed_on, crate::specs::Numbering::appended))]
    pub(crate) fn append_and_pass(
        &mut self,
        entry: Entry,
        outputs: &mut Vec<Output>,
    ) -> Result<(), AllocError>
        requires chain { IsSound self.old }
        requires next { entry.number ≡ last_number self.old.store + 1 }
        ensures { OnOk result (Does self.new outputs.old.items outputs.new.items (numbering.passed_on (numbering.appended self.old entry) entry)) }
    {
        // At this call the proof learns that the entry keeps its ranges (as in `hold_entry`).
        let _number = entry.number();
        if self.is_tail() {
            self.append(entry)?;
            let last = self.store.last();
            return self.rise(last, outputs);
        }
        match self.append_copy(&entry) {
            Ok(()) => self.send(self.successor(), Body::Forward(entry), outputs),
            Err(e) => {
                drop(entry);
                Err(e)
            }
        }
    }

    // A copy of the entry, which shares its data, is the last one from now on.
    fn append_copy(&mut self, entry: &Entry) -> Result<(), AllocError>
        requires next { entry.now.number ≡ last_number self.old.store + 1 }
        requires seen { length self.old.seen ≡ 16 }
        ensures { OnOk result (self.new ≡ numbering.appended self.old entry.now) }
    {
        self.append(entry.clone()?)
    }

    /// `Forward` from server i: from the predecessor the entry with the next number is appended and passed on.
    pub(crate) fn receive_forward(
        &mut self,
        i: u8,
        entry: Entry,
        outputs: &mut Vec<Output>,
    ) -> Result<(), AllocError>
        requires chain { IsSound self.old }
        ensures { OnOk result
            (Does self.new outputs.old.items outputs.new.items (numbering.receive_forward self.old i entry)) }
    {
        let last = self.store.last();
        if is_that(self.predecessor(), i) && last < entry.number() && entry.number() - last == 1 {
            self.append_and_pass(entry, outputs)
        } else {
            drop(entry);
            Ok(())
        }
    }

    /// `Ack` from server i: from the successor, with a number above the acknowledged one and not above the last, this
    /// server rises to it.
    pub(crate) fn receive_ack(
        &mut self,
        i: u8,
        n: u64,
        outputs: &mut Vec<Output>,
    ) -> Result<(), AllocError>
        requires chain { IsSound self.old }
        ensures { OnOk result (Does self.new outputs.old.items outputs.new.items (numbering.receive_ack self.old i n)) }
    {
        if is_that(self.successor(), i) && self.store.acked() < n && n <= self.store.last() {
            self.rise(n, outputs)
        } else {
            Ok(())
        }
    }
}
