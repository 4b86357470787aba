//! Items: what the cache holds at a key.
ghost use Rattle.std.specs.Prelude.{◌≡◌, IfOk, nat_eq};
ghost use Rattle.std.specs.Cmp.{on_equiv, on_per, partial_equiv_from_equiv};
ghost use Rattle.std.specs.Cmp.Lexicographic.{nat_list_eq_equiv, pointwise};
ghost use Rattle.table.specs.Items.{numbers_of};

use crate::SharedBytes;
use std::alloc::{AllocError, Global};
use std::marker::Model;
use std::sync::Arc;

/// The most bytes of data that an item may hold: 1 MiB (this project's rule; memcached's default).
pub const LIMIT: usize = 1_048_576;

/// What the cache holds at a key, in a block of its own. A clone shares the block: each place that holds one takes a
/// pointer, 8 bytes. Contracts see its parts (`Item` of the specs).
#[derive(Debug, Drop)]
pub struct Item {
    pub(crate) block: Arc<Block>,
}

// The number of an operation, and what it put.
#[derive(Debug, Drop)]
pub(crate) struct Block {
    pub(crate) number: u64,
    pub(crate) content: Content,
}

// An item's flags and its data, or nothing. They lie without gaps, which an `Option` of both has.
#[derive(Debug, Drop)]
pub(crate) enum Content {
    Item(u32, SharedBytes),
    Nothing,
}

impl Model for Item {
    ghost use Rattle.std.specs.Prelude.{◌≡◌, true};
    ghost use Rattle.std.specs.Arc.{arc_value};
    ghost use Rattle.table.specs.Items as items;
    ghost use Rattle.table.specs.ItemBlocks.{item_of, has_item};

    ghost Value = { items.Item };

    ghost coded = { items.coded_item };

    ghost view = { λ i. item_of (arc_value i.block) };

    ghost invariant = { λ i. has_item (arc_value i.block) ≡ true };
}

impl Item {
    /// The item of these parts. Refused only if memory is out.
    pub fn new(
        alloc: Global,
        flags: u32,
        bytes: SharedBytes,
        unique: u64,
    ) -> Result<Item, AllocError>
        ensures { IfOk result (λ item. item ≡ record { flags = flags; bytes = bytes; unique = unique }) }
    {
        let block = Block {
            number: unique,
            content: Content::Item(flags, bytes),
        };
        let block = Arc::new(alloc, block)?;
        Ok(Item { block })
    }

    /// The client's own 32 bits, kept and given back unread (protocol.txt, "Storage commands").
    pub fn flags(&self) -> u32
        ensures { result ≡ self.now.flags }
    {
        match &self.block.content {
            Content::Item(flags, _) => *flags,
            Content::Nothing => unreachable!(),
        }
    }

    /// The data, at most [`LIMIT`] bytes.
    pub fn bytes(&self) -> &SharedBytes
        ensures { result.now ≡ self.now.bytes }
    {
        match &self.block.content {
            Content::Item(_, bytes) => bytes,
            Content::Nothing => unreachable!(),
        }
    }

    /// The number of the operation that put the item, which `gets` shows as its unique.
    pub fn unique(&self) -> u64
        ensures { result ≡ self.now.unique }
    {
        self.block.number
    }
}

impl Clone for Item {
    ghost is_clone = { λ item copy. copy ≡ item };

    fn clone(&self) -> Result<Item, AllocError> {
        let block = Arc::try_clone(&self.block)?;
        Ok(Item { block })
    }
}

impl PartialEq for Item {
    ghost eq = { λ a b. pointwise nat_eq (numbers_of a) (numbers_of b) };

    ghost laws = { on_per numbers_of (partial_equiv_from_equiv nat_list_eq_equiv) };

    fn eq(&self, other: &Item) -> bool {
        self.flags() == other.flags()
            && self.unique() == other.unique()
            && self.bytes() == other.bytes()
    }
}

impl Eq for Item {
    ghost laws = { on_equiv numbers_of nat_list_eq_equiv };
}
