//! Versions: what a key has after an operation.
ghost use Rattle.std.specs.Prelude.{◌≡◌, is_some, IfOk, IsSome, MatchResult, None, Some};
ghost use Rattle.table.specs.Items.{data_in};

use crate::Item;
use crate::items::{Block, Content};
use std::alloc::{AllocError, Global};
use std::marker::Model;
use std::sync::Arc;

/// What a key has after the operation of a number: an item, or none. It shares the item's block, so it takes 8 bytes
/// too. Contracts see its parts (`Version` of the specs).
#[derive(Debug, Drop)]
pub struct Version {
    block: Arc<Block>,
}

impl Model for Version {
    ghost use Rattle.std.specs.Arc.{arc_value};
    ghost use Rattle.table.specs.Items as items;
    ghost use Rattle.table.specs.ItemBlocks.{version_of};

    ghost Value = { items.Version };

    ghost coded = { items.coded_version };

    ghost view = { λ v. version_of (arc_value v.block) };
}

impl Version {
    /// The version that has this item: its number is the item's unique.
    pub fn of_item(item: Item) -> Version
        ensures { result ≡ record { number = item.unique; item = Some item } }
    {
        Version { block: item.block }
    }

    /// The version of this number, without an item. Refused only if memory is out.
    pub fn without_item(alloc: Global, number: u64) -> Result<Version, AllocError>
        ensures { IfOk result (λ version. version ≡ record { number = number; item = None }) }
    {
        let block = Block {
            number,
            content: Content::Nothing,
        };
        let block = Arc::new(alloc, block)?;
        Ok(Version { block })
    }

    /// The number of the operation that made it.
    pub fn number(&self) -> u64
        ensures { result ≡ self.now.number }
    {
        self.block.number
    }

    /// Whether it has an item.
    pub fn has_item(&self) -> bool
        ensures { result ≡ is_some self.now.item }
    {
        matches!(self.block.content, Content::Item(..))
    }

    /// Its item, which shares the block, or none. Refused, if memory is out, only if it has one.
    pub fn item(&self) -> Result<Option<Item>, AllocError>
        ensures { MatchResult result (λ item. item ≡ self.now.item) (λ _. IsSome self.now.item) }
    {
        if !self.has_item() {
            return Ok(None);
        }
        let block = Arc::try_clone(&self.block)?;
        Ok(Some(Item { block }))
    }

    /// How many bytes its item's data has: none if it has no item.
    pub fn data_len(&self) -> usize
        ensures { result ≡ data_in self.now.item }
    {
        match &self.block.content {
            Content::Item(_, bytes) => bytes.len(),
            Content::Nothing => 0,
        }
    }
}

impl Clone for Version {
    ghost is_clone = { λ version copy. copy ≡ version };

    fn clone(&self) -> Result<Version, AllocError> {
        let block = Arc::try_clone(&self.block)?;
        Ok(Version { block })
    }
}
