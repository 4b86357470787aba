//! The published face of a server, and how it changes.

ghost use Rattle.std.specs.Prelude.{◌≡◌, ◌≤◌, ◌++◌, [], map, OnOk, IfOk};
ghost use Rattle.std.specs.List.{cons_option};
ghost use Rattle.versions.specs.Stores.{last_number, entries_after};
ghost use Rattle.node.specs.Faces as faces;

use crate::nodes::Node;
use crate::servers::Replica;
use std::alloc::{AllocError, Global};
use table::{Change, Item, Key, Target, Version};
use versions::Entry;

/// A key whose version of this number has no item. It waits in a queue, in the order of the numbers, until this number
/// is acknowledged: then the version is taken away, unless the key has a later one (this project's rule).
#[derive(Debug, Drop)]
pub struct Tombstone {
    /// The number of the version.
    pub number: u64,
    /// Its key.
    pub key: Key,
}

/// One change of a face (this project's rule).
#[derive(Clone, Debug, Drop)]
pub enum FaceStep {
    /// The key has this version from now on.
    Set(Key, Version),
    /// Every key has the version of this number without item from now on.
    Clear(u64),
}

/// How one step changes the face.
#[derive(Debug, Drop)]
pub struct FaceChange {
    /// The changes of versions, in order.
    pub steps: Vec<FaceStep>,
    /// The commit number from now on.
    pub acked: u64,
}

// The change that sets the version of an item of the base.
fn base_step(key: Key, item: Item) -> FaceStep
    ensures { result ≡ faces.base_step (key, item) }
{
    FaceStep::Set(key, Version::of_item(item))
}

// The same for each, after the steps so far.
fn put_base(items: Vec<(Key, Item)>, steps: &mut Vec<FaceStep>) -> Result<(), AllocError>
    ensures { OnOk result (steps.new.items ≡ steps.old.items ++ map faces.base_step items.items) }
{
    for (key, item) in items {
        steps.push(base_step(key, item))?;
    }
    Ok(())
}

// The change that sets this version of the key.
fn set_step(key: &Key, version: Version) -> Result<FaceStep, AllocError>
    ensures { IfOk result (λ step. step ≡ FaceStep.Set key.now version) }
{
    match key.clone() {
        Ok(key) => Ok(FaceStep::Set(key, version)),
        Err(e) => {
            drop(version);
            Err(e)
        }
    }
}

// The version that an entry makes of its key, or of every key, if it makes one.
fn step_of(alloc: Global, entry: &Entry) -> Result<Option<FaceStep>, AllocError>
    ensures { IfOk result (λ step. step ≡ faces.face_step entry.now.number entry.now.target entry.now.change) }
{
    let number = entry.number();
    let target = entry.target();
    let change = entry.change();
    match (target, change) {
        (_, Change::Clear) => Ok(Some(FaceStep::Clear(number))),
        (Target::One(key), Change::Put(item)) => {
            Ok(Some(set_step(key, Version::of_item(item.clone()?))?))
        }
        (Target::One(key), Change::Drop) => {
            let version = Version::without_item(alloc, number)?;
            Ok(Some(set_step(key, version)?))
        }
        (Target::One(_), Change::Keep) | (Target::All, _) => Ok(None),
    }
}

// The same after the steps so far.
fn put_step(entry: &Entry, steps: &mut Vec<FaceStep>) -> Result<(), AllocError>
    ensures { OnOk result
        (steps.new.items ≡ steps.old.items
        ++ cons_option (faces.face_step entry.now.number entry.now.target entry.now.change) []) }
{
    let alloc = *steps.allocator();
    if let Some(step) = step_of(alloc, entry)? {
        steps.push(step)?;
    }
    Ok(())
}

impl Node {
    /// How its face is made from one without versions, for readers that begin beside it now. It copies no item's data.
    /// Time is linear in the number of keys and in the entries above the floor.
    pub fn face(&self) -> Result<FaceChange, AllocError>
        ensures { IfOk result
            (λ change. faces.face_changed faces.no_face change.steps.items change.acked
            ≡ faces.face_of self.now.server) }
    {
        self.server.whole_face()
    }
}

impl Replica {
    // The versions of the base's items, then what the entries above the floor change, and the commit number.
    fn whole_face(&self) -> Result<FaceChange, AllocError>
        ensures { IfOk result
            (λ change. faces.face_changed faces.no_face change.steps.items change.acked ≡ faces.face_of self.now) }
    {
        let mut steps = Vec::new(self.alloc);
        put_base(self.store.base()?, &mut steps)?;
        self.put_steps_after(self.store.floor(), &mut steps)?;
        let acked = self.store.acked();
        Ok(FaceChange { steps, acked })
    }

    /// How the entries above a number change the face, with the commit number. It copies no item's data.
    pub(crate) fn change_after(&self, above: u64) -> Result<FaceChange, AllocError>
        requires above { (self.now.store.floor ≤ above) × (above ≤ last_number self.now.store) }
        ensures steps { IfOk result
            (λ change. change.steps.items ≡ faces.face_steps (entries_after self.now.store above)) }
        ensures acked { IfOk result (λ change. change.acked ≡ self.now.store.acked) }
    {
        let mut steps = Vec::new(self.alloc);
        self.put_steps_after(above, &mut steps)?;
        let acked = self.store.acked();
        Ok(FaceChange { steps, acked })
    }

    // The steps of these entries, in order.
    fn put_steps_after(&self, above: u64, steps: &mut Vec<FaceStep>) -> Result<(), AllocError>
        requires above { (self.now.store.floor ≤ above) × (above ≤ last_number self.now.store) }
        ensures { OnOk result
            (steps.new.items ≡ steps.old.items ++ faces.face_steps (entries_after self.now.store above)) }
    {
        for entry in self.store.entries_after(above) {
            put_step(entry, steps)?;
        }
        Ok(())
    }
}
