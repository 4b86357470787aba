//! Joining a view: what a server does when it learns of failed servers, in six steps.
ghost use Rattle.std.specs.Prelude.{◌≡◌, ◌<◌, ◌≤◌, ◌++◌, true, false, OnOk, IfOk};
ghost use Rattle.versions.specs.Stores.{last_number, entries_after};
ghost use Rattle.node.specs.Servers as servers;
ghost use Rattle.node.specs.Views as views;
ghost use Rattle.node.specs.Lawful.{IsSound};
ghost use Rattle.node.specs.Outcomes.{Does};
ghost use Rattle.node.specs.Joining as joining;

use crate::reading::value_reply;
use crate::servers::{Replica, is_that};
use crate::{Body, Output, View};
use std::alloc::AllocError;
use table::Call;

// Both are the same server, or both are none.
fn is_same(first: Option<u8>, second: Option<u8>) -> bool
    ensures { result ≡ views.is_same first second }
{
    match (first, second) {
        (None, None) => true,
        (Some(i), Some(j)) => i == j,
        (None, Some(_)) | (Some(_), None) => false,
    }
}

impl Replica {
    /// Joins a view: if it adds nothing, nothing happens; otherwise the six steps, in order.
    pub(crate) fn join(&mut self, v: View, outputs: &mut Vec<Output>) -> Result<(), AllocError>
        requires chain { IsSound self.old }
        requires below { views.is_below v self.old.count ≡ true }
        requires outside { views.has v self.old.id ≡ false }
        ensures { OnOk result (Does self.new outputs.old.items outputs.new.items (joining.join self.old v)) }
    {
        if !self.view.adds(v) {
            return Ok(());
        }
        let old = self.view;
        let last_before = self.store.last();
        let acked_before = self.store.acked();
        self.widen(v);
        self.rejoin(old, last_before, acked_before, outputs)
    }

    // The steps after the first, of a server whose view was widened.
    fn rejoin(
        &mut self,
        old: View,
        last_before: u64,
        acked_before: u64,
        outputs: &mut Vec<Output>,
    ) -> Result<(), AllocError>
        requires chain { IsSound self.old }
        requires last_before { (self.old.store.floor ≤ last_before) × (last_before ≤ last_number self.old.store) }
        ensures { OnOk result (Does self.new outputs.old.items outputs.new.items (joining.rejoined old last_before acked_before self.old)) }
    {
        self.promote_to_head(old, outputs)?;
        self.promote_to_tail(outputs)?;
        self.catch_up(old, last_before, outputs)?;
        self.ack_to_predecessor(old, acked_before, outputs)?;
        self.renew_asks(old, outputs)
    }

    // First: the view becomes the union.
    #[tactic(auto, unfolding(crate::specs::Joining::widened))]
    fn widen(&mut self, v: View)
        ensures { self.new ≡ joining.widened self.old v }
    {
        self.view = self.view.union(v);
    }

    // Second: a new head takes its own open calls; another server sends them to the head, if that changed.
    #[tactic(auto, unfolding(crate::specs::Joining::promoted_to_head))]
    fn promote_to_head(&mut self, old: View, outputs: &mut Vec<Output>) -> Result<(), AllocError>
        requires chain { IsSound self.old }
        ensures { OnOk result (Does self.new outputs.old.items outputs.new.items (joining.promoted_to_head old self.old)) }
    {
        if self.is_head() {
            if is_that(old.head(self.count), self.id) {
                return Ok(());
            }
            return self.take_all();
        }
        if is_same(old.head(self.count), self.head()) {
            return Ok(());
        }
        self.send_again(outputs)
    }

    // The own open call at this place: its id and what it asks.
    fn open_call(&self, i: usize) -> Result<Option<(u64, Call)>, AllocError>
        ensures { IfOk result (λ found. found ≡ joining.call_at self.now.pend i) }
    {
        match self.pend.get(i) {
            Some(update) => Ok(Some((update.id, update.call.clone()?))),
            None => Ok(None),
        }
    }

    // Each own open call is taken in order, without sending and without rising.
    fn take_all(&mut self) -> Result<(), AllocError>
        requires chain { IsSound self.old }
        ensures { OnOk result (self.new ≡ joining.taken_all self.old self.old.pend) }
    {
        for i in 0..self.pend.len() {
            let Some((id, call)) = self.open_call(i)? else {
                return Ok(());
            };
            let taken = self.take_quietly(self.id, id, &call);
            drop(call);
            taken?;
        }
        Ok(())
    }

    // Each own open call goes to the head, in order.
    fn send_again(&self, outputs: &mut Vec<Output>) -> Result<(), AllocError>
        requires chain { IsSound self.now }
        ensures { OnOk result (outputs.new.items ≡ outputs.old.items ++ joining.sent_again self.now self.now.pend) }
    {
        let head = self.head();
        for update in &self.pend {
            self.send(head, Body::Op(update.id, update.call.clone()?), outputs)?;
        }
        Ok(())
    }

    // Third: the tail acknowledges all that it holds.
    #[tactic(auto, unfolding(crate::specs::Joining::promoted_to_tail))]
    fn promote_to_tail(&mut self, outputs: &mut Vec<Output>) -> Result<(), AllocError>
        requires chain { IsSound self.old }
        ensures { OnOk result (Does self.new outputs.old.items outputs.new.items (joining.promoted_to_tail self.old)) }
    {
        let last = self.store.last();
        if self.is_tail() && self.store.acked() < last {
            self.rise(last, outputs)
        } else {
            Ok(())
        }
    }

    // Fourth: a successor gets the entries that it needs.
    #[tactic(auto, unfolding(crate::specs::Joining::caught_up))]
    fn catch_up(
        &self,
        old: View,
        last_before: u64,
        outputs: &mut Vec<Output>,
    ) -> Result<(), AllocError>
        requires chain { IsSound self.now }
        requires last_before { (self.now.store.floor ≤ last_before) × (last_before ≤ last_number self.now.store) }
        ensures { OnOk result
            (outputs.new.items ≡ outputs.old.items ++ (joining.caught_up old last_before self.now).outputs) }
    {
        let successor = self.successor();
        let known = is_same(old.successor(self.count, self.id), successor);
        let above = if known {
            last_before
        } else {
            self.store.acked()
        };
        self.forward_after(above, successor, outputs)
    }

    // Each entry above a number goes to the successor, in order.
    fn forward_after(
        &self,
        above: u64,
        successor: Option<u8>,
        outputs: &mut Vec<Output>,
    ) -> Result<(), AllocError>
        requires successor { successor ≡ servers.successor_of self.now }
        requires above { (self.now.store.floor ≤ above) × (above ≤ last_number self.now.store) }
        ensures { OnOk result
            (outputs.new.items ≡ outputs.old.items ++ joining.forwarded self.now (entries_after self.now.store above)) }
    {
        for entry in self.store.entries_after(above) {
            self.send(successor, Body::Forward(entry.clone()?), outputs)?;
        }
        Ok(())
    }

    // Fifth: a new predecessor gets the commit number, unless the third step raised it, and so sent it already.
    #[tactic(auto, unfolding(crate::specs::Joining::acked_to_predecessor))]
    fn ack_to_predecessor(
        &self,
        old: View,
        acked_before: u64,
        outputs: &mut Vec<Output>,
    ) -> Result<(), AllocError>
        requires chain { IsSound self.now }
        ensures { OnOk result
            (outputs.new.items
            ≡ outputs.old.items ++ (joining.acked_to_predecessor old acked_before self.now).outputs) }
    {
        let predecessor = self.predecessor();
        let acked = self.store.acked();
        if is_same(old.predecessor(self.id), predecessor) || acked != acked_before {
            return Ok(());
        }
        self.send(predecessor, Body::Ack(acked), outputs)
    }

    // Sixth: if the tail changed, the open reads are closed at the tail, and asked again elsewhere.
    #[tactic(auto, unfolding(crate::specs::Joining::asks_renewed))]
    fn renew_asks(&mut self, old: View, outputs: &mut Vec<Output>) -> Result<(), AllocError>
        requires chain { IsSound self.old }
        ensures { OnOk result (Does self.new outputs.old.items outputs.new.items (joining.asks_renewed old self.old)) }
    {
        if is_same(old.tail(self.count), self.tail()) {
            return Ok(());
        }
        if !self.is_tail() {
            return self.ask_again(outputs);
        }
        self.reply_to_all(outputs)?;
        self.asks.clear();
        Ok(())
    }

    // Each open read is answered with its key's newest version.
    fn reply_to_all(&self, outputs: &mut Vec<Output>) -> Result<(), AllocError>
        ensures { OnOk result (outputs.new.items ≡ outputs.old.items ++ joining.replies_to self.now self.now.asks) }
    {
        for read in &self.asks {
            let reply = value_reply(self.store.newest(&read.key))?;
            outputs.push(Output::Reply(read.port, reply))?;
        }
        Ok(())
    }

    // Each open read asks the tail again.
    fn ask_again(&self, outputs: &mut Vec<Output>) -> Result<(), AllocError>
        requires chain { IsSound self.now }
        ensures { OnOk result (outputs.new.items ≡ outputs.old.items ++ joining.asked_again self.now self.now.asks) }
    {
        let tail = self.tail();
        for read in &self.asks {
            self.send(tail, Body::Query(read.ask, read.key.clone()?), outputs)?;
        }
        Ok(())
    }
}
