//! Versions without item, which count as none as soon as they are acknowledged: tombstones wait in the order of their
//! numbers, so that none is searched for.
ghost use Rattle.std.specs.Prelude.{◌≡◌, ◌≤◌, ◌++◌, ◌∷◌, [], OnOk, OnErr};
ghost use Rattle.std.specs.FinMap as maps;
ghost use Rattle.node.specs.Faces.{IsQueued, IsRising, is_removed};
ghost use Rattle.faces.specs.Tombstones.{taken_at, without_removed};

use crate::version_trees::VersionTree;
use node::Tombstone;
use std::alloc::AllocError;
use std::collections::VecDeque;
use table::{Key, Version};

/// Sets a key's version. Refused if memory is out, or if the version has no item and its number is below one that waits
/// (the numbers of a log rise); then no version changes.
pub fn set(
    versions: &mut VersionTree,
    tombstones: &mut VecDeque<Tombstone>,
    key: &Key,
    version: &Version,
) -> Result<(), AllocError>
    requires queued { IsQueued versions.old tombstones.old.items }
    ensures ok { OnOk result
        (versions.new ≡ maps.insert versions.old key.now version.now) }
    ensures err { OnErr result (versions.new ≡ versions.old) }
    ensures queued { IsQueued versions.new tombstones.new.items }
{
    if !version.has_item() {
        note(tombstones, key, version.number())?;
    }
    versions.set(key, version)
}

// The key waits with this number from now on.
fn note(tombstones: &mut VecDeque<Tombstone>, key: &Key, number: u64) -> Result<(), AllocError>
    requires rising { IsRising 0 tombstones.old.items }
    ensures ok { OnOk result
        (tombstones.new.items ≡ tombstones.old.items ++ record { number = number; key = key.now } ∷ []) }
    ensures err { OnErr result (tombstones.new.items ≡ tombstones.old.items) }
    ensures rising { IsRising 0 tombstones.new.items }
{
    if let Some(last) = tombstones.back() {
        if last.number > number {
            return Err(AllocError);
        }
    }
    let waits = Tombstone {
        number,
        key: key.clone()?,
    };
    tombstones.push_back(waits)?;
    Ok(())
}

/// Takes away the versions without item up to a number. Time is logarithmic in the number of keys for each tombstone
/// that is taken out.
pub fn take_away(versions: &mut VersionTree, tombstones: &mut VecDeque<Tombstone>, acked: u64)
    requires queued { IsQueued versions.old tombstones.old.items }
    ensures versions { versions.new ≡ without_removed acked versions.old }
    ensures queued { IsQueued versions.new tombstones.new.items }
{
    while let Some(first) = tombstones.front() {
        if first.number > acked {
            return;
        }
        let Some(first) = tombstones.pop_front() else {
            return;
        };
        take_away_at(versions, &first.key, acked);
    }
}

// Takes the key's version away, if it has no item and its number is at most this one.
fn take_away_at(versions: &mut VersionTree, key: &Key, acked: u64)
    ensures { versions.new ≡ taken_at acked key.now versions.old }
{
    if is_to_go(versions, key, acked) {
        versions.remove(key);
    }
}

fn is_to_go(versions: &VersionTree, key: &Key, acked: u64) -> bool
    ensures { result ≡ is_removed acked (maps.get versions.now key.now) }
{
    match versions.get(key) {
        Some(version) => !version.has_item() && version.number() <= acked,
        None => true,
    }
}
