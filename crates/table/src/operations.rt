//! Operations, their replies, and what they do with an item.
ghost use Rattle.std.specs.Prelude.{◌≡◌, ◌↔◌, IsTrue};

use crate::{Item, Key, LIMIT, SharedBytes};

/// What an operation is on: one key, or all keys at once.
#[derive(Clone, Debug, PartialEq, Eq, Drop)]
pub enum Target {
    /// One key.
    One(Key),
    /// All keys, as a flush has them and no other operation.
    All,
}

/// What a client asks of a target. Every operation but a read takes a number, refused or not (this project's rule).
#[derive(Clone, Debug, PartialEq, Eq, Drop)]
pub enum Op {
    /// Reads the item (protocol.txt, "Retrieval command"). It takes no number.
    Read,
    /// Puts an item with these flags and this data (protocol.txt, "Storage commands").
    Set(u32, SharedBytes),
    /// Puts an item with these flags and this data, if the key has none (protocol.txt, "Storage commands").
    Add(u32, SharedBytes),
    /// Puts an item with these flags and this data, if the key has one (protocol.txt, "Storage commands").
    Replace(u32, SharedBytes),
    /// Adds data at the end of the item's data (protocol.txt, "Storage commands"). The item keeps its flags.
    Append(SharedBytes),
    /// Adds data in front of the item's data (protocol.txt, "Storage commands"). The item keeps its flags.
    Prepend(SharedBytes),
    /// Puts an item with these flags and this data, if the key's item has this unique
    /// (protocol.txt, "Storage commands").
    Cas(u32, SharedBytes, u64),
    /// Raises the item's counter by an amount, wrapping at 2^64 (protocol.txt, "Increment/Decrement").
    /// The item keeps its flags.
    Incr(u64),
    /// Lowers the item's counter by an amount, stopping at 0 (protocol.txt, "Increment/Decrement").
    /// The item keeps its flags.
    Decr(u64),
    /// Takes the item away (protocol.txt, "Deletion").
    Delete,
    /// Takes all items away (protocol.txt, "Other commands"). It is the operation on all keys at once, and the only
    /// one.
    Flush,
}

/// What the table answers to an operation.
#[derive(Clone, Debug, PartialEq, Eq, Drop)]
pub enum Reply {
    /// The item was put.
    Stored,
    /// The item was not put, for the key's item or for want of one.
    NotStored,
    /// The key's item has another unique.
    Exists,
    /// The key has no item.
    NotFound,
    /// The item was taken away.
    Deleted,
    /// The counter's new value.
    Number(u64),
    /// The item at the key, or none.
    Value(Option<Item>),
    /// The item would be larger than an item may be, and stays as it was.
    TooLarge,
    /// The item's data is no counter, and stays as it was.
    NotNumber,
    /// All items were taken away.
    Flushed,
}

/// What an operation does with the item at its key, or with all of them.
#[derive(Clone, Debug, PartialEq, Eq, Drop)]
pub enum Change {
    /// The key stays as it is.
    Keep,
    /// The key has this item from now on.
    Put(Item),
    /// The key has no item from now on.
    Drop,
    /// No key has an item from now on.
    Clear,
}

/// One operation on its target.
#[derive(Clone, Debug, PartialEq, Eq, Drop)]
pub struct Call {
    /// What it is on.
    pub target: Target,
    /// What is asked.
    pub op: Op,
}

impl Op {
    ghost use Rattle.table.specs.Operations.{Fits, Suits, is_update};

    /// Whether the operation's data is within [`LIMIT`].
    pub fn fits(&self) -> bool
        ensures within_limit { IsTrue result ↔ Fits self.now }
    {
        match self {
            Op::Set(_, bytes)
            | Op::Add(_, bytes)
            | Op::Replace(_, bytes)
            | Op::Append(bytes)
            | Op::Prepend(bytes)
            | Op::Cas(_, bytes, _) => bytes.len() <= LIMIT,
            Op::Read | Op::Incr(_) | Op::Decr(_) | Op::Delete | Op::Flush => true,
        }
    }

    /// Whether the operation may be asked of the target: a flush of all keys, any other of one.
    pub fn suits(&self, target: &Target) -> bool
        ensures aimed { IsTrue result ↔ Suits target.now self.now }
    {
        match (target, self) {
            (Target::All, Op::Flush) => true,
            (Target::All, _) | (Target::One(_), Op::Flush) => false,
            (Target::One(_), _) => true,
        }
    }

    /// Whether the operation takes a number, as every one but a read does.
    pub fn is_update(&self) -> bool
        ensures { result ≡ is_update self.now }
    {
        !matches!(self, Op::Read)
    }
}
