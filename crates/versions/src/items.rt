//! The items of the base, one by one.
ghost use Rattle.std.specs.Prelude.{◌≡◌, ◌++◌, OnOk, IfOk};
ghost use Rattle.std.specs.FinMap as map;
ghost use Rattle.std.specs.Option.{option_copied};
ghost use Rattle.versions.specs.Records.{base_of, put_of};
ghost use Rattle.versions.specs.Stores.{items_put};

use crate::packed_records::Record;
use std::alloc::{AllocError, Global};
use std::collections::BTreeMap;
use table::{Item, Key, TreeKey};

/// The items of all records with their keys, whose bytes they share.
pub(crate) fn items_of(
    alloc: Global,
    records: &BTreeMap<TreeKey, Record>,
) -> Result<Vec<(Key, Item)>, AllocError>
    ensures { IfOk result (λ found. items_put map.empty found.items ≡ base_of records.now.entries) }
{
    let mut found = Vec::new(alloc);
    for (tree_key, record) in records.iter() {
        add(tree_key, record.item(), &mut found)?;
    }
    Ok(found)
}

// Adds a key with its item, if it has one.
fn add(
    tree_key: &TreeKey,
    item: Option<&Item>,
    found: &mut Vec<(Key, Item)>,
) -> Result<(), AllocError>
    ensures { OnOk result (found.new.items ≡ found.old.items ++ put_of tree_key.now (option_copied item.entry)) }
{
    if let Some(item) = item {
        found.push((tree_key.key()?, item.clone()?))?;
    }
    Ok(())
}
