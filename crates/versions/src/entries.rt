//! Entries of the log: what a server appends for each update.
ghost use Rattle.std.specs.Prelude.{◌≡◌, ◌≤◌, ◌<◌, false, IfOk};
ghost use Rattle.std.specs.Option.{option_copied};
ghost use Rattle.table.specs.Operations.{is_all, is_value};
ghost use Rattle.versions.specs.Entries.{IsEntry, PutsOwn, is_clear, is_flushed, item_put, server_limit, set_key};

use std::alloc::{AllocError, Global};
use std::marker::Model;
use table::{Change, Item, Key, Reply, Target};

/// One update of the log (this project's rule), in a block of its own: so messages and queues move 8 bytes of it. Its
/// type keeps its ranges, so that no entry is in a store or on a link that breaks them. Contracts see its parts
/// (`LogEntry`).
#[derive(Debug, Drop)]
pub struct Entry {
    parts: Box<Parts>,
}

#[derive(Debug, Drop)]
struct Parts {
    number: u64,
    origin: u8,
    id: u64,
    target: Target,
    reply: Reply,
    change: Change,
}

impl Model for Entry {
    ghost use Rattle.versions.specs.Entries.{LogEntry, IsEntry};
    ghost use Rattle.versions.specs.Parts.{entry_of};

    ghost Value = { LogEntry };

    ghost view = { λ e. entry_of e.parts.value };

    ghost invariant = { λ e. IsEntry (entry_of e.parts.value) };
}

impl Entry {
    /// The entry of these parts: its number, the server whose client asked for it, that server's id of the call,
    /// what it was on, what the client is answered, and what it does to the items. Refused only if memory is out.
    pub fn new(
        alloc: Global,
        number: u64,
        origin: u8,
        id: u64,
        target: Target,
        reply: Reply,
        change: Change,
    ) -> Result<Entry, AllocError>
        requires numbered { 1 ≤ number }
        requires served { origin < server_limit }
        requires called { 1 ≤ id }
        requires answered { is_value reply ≡ false }
        requires put { PutsOwn number change }
        requires cleared { is_clear change ≡ is_all target }
        requires flushed { is_flushed reply ≡ is_all target }
        ensures { IfOk result (λ entry. entry ≡
            record { number = number; origin = origin; id = id; target = target; reply = reply; change = change }) }
    {
        let parts = Parts {
            number,
            origin,
            id,
            target,
            reply,
            change,
        };
        let parts = Box::new(alloc, parts)?;
        Ok(Entry { parts })
    }

    /// Its place in the log, from 1 on.
    pub fn number(&self) -> u64
        ensures number { result ≡ self.now.number }
        ensures entry { IsEntry self.now }
    {
        self.parts.number
    }

    /// The server whose client asked for it, below 16.
    pub fn origin(&self) -> u8
        ensures origin { result ≡ self.now.origin }
        ensures entry { IsEntry self.now }
    {
        self.parts.origin
    }

    /// Its call's id at that server, from 1 on.
    pub fn id(&self) -> u64
        ensures id { result ≡ self.now.id }
        ensures entry { IsEntry self.now }
    {
        self.parts.id
    }

    /// What it was on.
    pub fn target(&self) -> &Target
        ensures target { result.now ≡ self.now.target }
        ensures entry { IsEntry self.now }
    {
        &self.parts.target
    }

    /// What the client is answered. It never shows an item.
    pub fn reply(&self) -> &Reply
        ensures reply { result.now ≡ self.now.reply }
        ensures entry { IsEntry self.now }
    {
        &self.parts.reply
    }

    /// What it does to the items.
    pub fn change(&self) -> &Change
        ensures change { result.now ≡ self.now.change }
        ensures entry { IsEntry self.now }
    {
        &self.parts.change
    }

    // The item that it puts, or none.
    pub(crate) fn item_put(&self) -> Option<&Item>
        ensures { option_copied result ≡ item_put self.now.change }
    {
        match &self.parts.change {
            Change::Put(item) => Some(item),
            Change::Keep | Change::Drop | Change::Clear => None,
        }
    }

    // The key that it puts or drops the item of, or none.
    pub(crate) fn set_key(&self) -> Option<&Key>
        ensures { option_copied result ≡ set_key self.now.target self.now.change }
    {
        match (&self.parts.target, &self.parts.change) {
            (Target::One(key), Change::Put(_) | Change::Drop) => Some(key),
            (Target::One(_), Change::Keep | Change::Clear) | (Target::All, _) => None,
        }
    }

    // Its target and its change, out of it.
    pub(crate) fn into_change(self) -> (Target, Change)
        ensures target { result.0 ≡ self.target }
        ensures change { result.1 ≡ self.change }
    {
        let Parts { target, change, .. } = Box::into_inner(self.parts);
        (target, change)
    }
}

impl Clone for Entry {
    ghost is_clone = { λ entry copy. copy ≡ entry };

    fn clone(&self) -> Result<Entry, AllocError> {
        let parts = self.parts.copy()?;
        let parts = Box::new(*Box::allocator(&self.parts), parts)?;
        Ok(Entry { parts })
    }
}

impl Parts {
    fn copy(&self) -> Result<Parts, AllocError>
        ensures { IfOk result (λ copy. copy ≡ self.now) }
    {
        Ok(Parts {
            number: self.number,
            origin: self.origin,
            id: self.id,
            target: copy_of_target(&self.target)?,
            reply: copy_of_reply(&self.reply)?,
            change: copy_of_change(&self.change)?,
        })
    }
}

// Each says of a derived clone that it equals what it was made from, which the clone of an entry is proved by.
fn copy_of_target(target: &Target) -> Result<Target, AllocError>
    ensures { IfOk result (λ copy. copy ≡ target.now) }
{
    target.clone()
}

fn copy_of_reply(reply: &Reply) -> Result<Reply, AllocError>
    ensures { IfOk result (λ copy. copy ≡ reply.now) }
{
    reply.clone()
}

fn copy_of_change(change: &Change) -> Result<Change, AllocError>
    ensures { IfOk result (λ copy. copy ≡ change.now) }
{
    change.clone()
}
