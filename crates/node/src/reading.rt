//! Reading: clean keys at once, dirty ones by asking the tail for its last number.
ghost use Rattle.std.specs.Prelude.{◌≡◌, ◌+◌, ◌∷◌, ◌++◌, [], Some, OnOk, IfOk};
ghost use Rattle.std.specs.Option.{option_copied};
ghost use Rattle.table.specs.declared.operations.Reply.TheVariants.{Value};
ghost use Rattle.node.specs.declared.messages.Body.TheVariants.{Query};
ghost use Rattle.node.specs.declared.messages.Output.TheVariants.{Reply as Replied};
ghost use Rattle.node.specs.Servers.{message_to, tail_of};
ghost use Rattle.node.specs.Lawful.{IsSound};
ghost use Rattle.node.specs.Outcomes.{Does};
ghost use Rattle.node.specs.Reading as reading;

use crate::servers::{OpenRead, Replica, is_that};
use crate::{Body, Output, queues};
use std::alloc::AllocError;
use table::{Item, Key, Reply, Target};

/// The reply that shows this item, or none.
pub(crate) fn value_reply(item: Option<&Item>) -> Result<Reply, AllocError>
    ensures { IfOk result (λ reply. reply ≡ Value (option_copied item.entry)) }
{
    match item {
        Some(item) => Ok(Reply::Value(Some(item.clone()?))),
        None => Ok(Reply::Value(None)),
    }
}

// Puts out the reply that shows this item, or none.
fn put_value(port: usize, item: Option<&Item>, outputs: &mut Vec<Output>) -> Result<(), AllocError>
    ensures { OnOk result
        (outputs.new.items ≡ outputs.old.items ++ Replied port (Value (option_copied item.entry)) ∷ []) }
{
    let reply = value_reply(item)?;
    outputs.push(Output::Reply(port, reply))?;
    Ok(())
}

impl Replica {
    /// A read: a clean key's newest version is the answer; of a dirty key the tail is asked, if an ask is left.
    pub(crate) fn read(
        &mut self,
        port: usize,
        target: Target,
        outputs: &mut Vec<Output>,
    ) -> Result<(), AllocError>
        requires chain { IsSound self.old }
        ensures { OnOk result (Does self.new outputs.old.items outputs.new.items (reading.read_of self.old port target)) }
    {
        let Target::One(key) = target else {
            return Ok(());
        };
        if let Some(item) = self.store.clean_version(&key) {
            let done = put_value(port, item, outputs);
            drop(key);
            return done;
        }
        self.ask(port, key, outputs)
    }

    // A read of a dirty key, if an ask is left: the tail is asked.
    #[tactic(auto, unfolding(crate::specs::Servers::most, crate::specs::Reading::dirty_read, crate::specs::Reading::asked))]
    fn ask(&mut self, port: usize, key: Key, outputs: &mut Vec<Output>) -> Result<(), AllocError>
        requires chain { IsSound self.old }
        ensures { OnOk result (Does self.new outputs.old.items outputs.new.items (reading.dirty_read self.old port key)) }
    {
        if self.next_ask == u64::MAX {
            drop(key);
            return Ok(());
        }
        let ask = self.next_ask;
        if let Err(e) = self.put_query(ask, &key, outputs) {
            drop(key);
            return Err(e);
        }
        let lower_bound = self.store.acked();
        self.asks.push_back(OpenRead {
            ask,
            port,
            key,
            lower_bound,
        })?;
        self.next_ask = ask + 1;
        Ok(())
    }

    // The tail is asked.
    fn put_query(&self, ask: u64, key: &Key, outputs: &mut Vec<Output>) -> Result<(), AllocError>
        requires chain { IsSound self.now }
        ensures { OnOk result
            (outputs.new.items ≡ outputs.old.items ++ message_to self.now (tail_of self.now) (Query ask key.now)) }
    {
        self.send(self.tail(), Body::Query(ask, key.clone()?), outputs)
    }

    /// `Query` from server i: the tail answers its last number, whatever the key.
    pub(crate) fn receive_query(
        &self,
        i: u8,
        ask: u64,
        outputs: &mut Vec<Output>,
    ) -> Result<(), AllocError>
        requires chain { IsSound self.now }
        ensures { OnOk result
            (outputs.new.items ≡ outputs.old.items ++ (reading.receive_query self.now i ask).outputs) }
    {
        if self.is_tail() {
            self.send(Some(i), Body::Answer(ask, self.store.last()), outputs)?;
        }
        Ok(())
    }

    /// `Answer` from server i: it counts from the tail alone.
    pub(crate) fn receive_answer(
        &mut self,
        i: u8,
        ask: u64,
        n: u64,
        outputs: &mut Vec<Output>,
    ) -> Result<(), AllocError>
        requires chain { IsSound self.old }
        ensures { OnOk result (Does self.new outputs.old.items outputs.new.items (reading.receive_answer self.old i ask n)) }
    {
        if !is_that(self.tail(), i) {
            return Ok(());
        }
        self.answer(ask, n, outputs)
    }

    // The read of this ask, if it is open, is answered with the number `n`.
    #[tactic(auto, unfolding(crate::specs::Reading::answered))]
    fn answer(&mut self, ask: u64, n: u64, outputs: &mut Vec<Output>) -> Result<(), AllocError>
        requires chain { IsSound self.old }
        ensures { OnOk result (Does self.new outputs.old.items outputs.new.items (reading.answered self.old ask n (reading.open_read self.old.asks ask))) }
    {
        let Some((place, read)) = queues::look_up(&self.asks, ask) else {
            return Ok(());
        };
        if n < read.lower_bound || self.store.last() < n {
            return Ok(());
        }
        put_value(read.port, self.store.at(&read.key, n), outputs)?;
        drop(self.asks.remove(place));
        Ok(())
    }
}
