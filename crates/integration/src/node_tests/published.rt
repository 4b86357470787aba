//! The published face: the changes that steps give, done on a map, show what the node shows.

use super::inputs::{Ask, Given, Said, input_of};
use crate::making::{Fault, all_hold, key};
use node::{FaceChange, FaceStep, Input, Look, Node};
use std::alloc::Global;
use std::collections::BTreeMap;
use std::test::Fail;
use table::{Item, Key, Version};

// What readers beside a node see: each key's newest version, the last clear, and the commit number.
#[derive(Drop)]
struct Published {
    versions: BTreeMap<Key, Version>,
    cleared: u64,
    acked: u64,
}

fn take(face: &mut Published, step: FaceStep) -> Result<(), Fault> {
    match step {
        FaceStep::Set(key, version) => {
            let before = face.versions.insert(key, version)?;
            drop(before);
        }
        FaceStep::Clear(number) => {
            face.versions.clear();
            face.cleared = number;
        }
    }
    Ok(())
}

fn replay(face: &mut Published, change: FaceChange) -> Result<(), Fault> {
    let FaceChange { steps, acked } = change;
    for step in steps {
        take(face, step)?;
    }
    face.versions.retain(|_, version| version.has_item() || version.number() > acked);
    face.acked = acked;
    Ok(())
}

fn look(face: &Published, key: &Key) -> Result<Look<Item>, Fault> {
    match face.versions.get(key) {
        Some(version) if version.number() <= face.acked => Ok(Look::Clean(version.item()?)),
        None if face.cleared <= face.acked => Ok(Look::Clean(None)),
        _ => Ok(Look::Dirty),
    }
}

// Whether two looks show the same.
fn are_same(shown: &Look<Item>, other: &Look<&Item>) -> bool {
    match (shown, other) {
        (Look::Clean(Some(item)), Look::Clean(Some(other))) => item == *other,
        (Look::Clean(None), Look::Clean(None)) | (Look::Dirty, Look::Dirty) => true,
        _ => false,
    }
}

// What a look at a key shows.
#[derive(Clone, Copy)]
enum Shown {
    Item,
    Nothing,
    Dirty,
}

// Whether readers beside a node see of a key what the node shows, and that is this.
fn is_shown(node: &Node, face: &Published, key: &Key, wanted: Shown) -> Result<bool, Fault> {
    let shown = look(face, key)?;
    let right = match wanted {
        Shown::Item => matches!(&shown, Look::Clean(Some(_))),
        Shown::Nothing => matches!(&shown, Look::Clean(None)),
        Shown::Dirty => matches!(&shown, Look::Dirty),
    };
    let same = are_same(&shown, &node.peek(key));
    drop(shown);
    Ok(right && same)
}

// What a node takes, and what is shown of the keys `a` and `b` then.
type Row = (Given, Shown, Shown);

// What an input changes of the face.
fn changed(node: &mut Node, input: Input) -> Result<FaceChange, Fault> {
    if input.is_fit() {
        let (_, change) = node.step_face(input)?;
        Ok(change)
    } else {
        drop(input);
        Err(Fault::Refused)
    }
}

// One step, replayed.
fn goes(
    alloc: Global,
    node: &mut Node,
    face: &mut Published,
    keys: &[Key],
    row: Row,
) -> Result<bool, Fault> {
    let (given, a, b) = row;
    let input = input_of(alloc, given)?;
    let change = changed(node, input)?;
    replay(face, change)?;
    match keys {
        [first, second] => Ok(is_shown(node, face, first, a)? && is_shown(node, face, second, b)?),
        _ => Err(Fault::Refused),
    }
}

fn other_row(
    alloc: Global,
    node: &mut Node,
    face: &mut Published,
    keys: &[Key],
    rows: &[Row],
) -> Result<Option<usize>, Fault> {
    let mut place = 0_usize;
    for row in rows {
        if !goes(alloc, node, face, keys, *row)? {
            return Ok(Some(place));
        }
        place = place.wrapping_add(1);
    }
    Ok(None)
}

fn a_and_b(alloc: Global) -> Result<Vec<Key>, Fault> {
    let mut keys = Vec::new(alloc);
    for name in [b"a", b"b"] {
        keys.push(key(alloc, name)?)?;
    }
    Ok(keys)
}

// The first row that goes otherwise than it says, at the first of two servers.
fn other_of_new(alloc: Global, rows: &[Row]) -> Result<Option<usize>, Fault> {
    let keys = a_and_b(alloc)?;
    let mut node = Node::new(alloc, 0, 2)?;
    let mut face = Published {
        versions: BTreeMap::new(alloc),
        cleared: 0,
        acked: 0,
    };
    let other = other_row(alloc, &mut node, &mut face, keys.as_slice(), rows);
    drop(face);
    drop(node);
    other
}

// Items are put and dropped. Then all keys are cleared, and one is put again. At last the node's only neighbour fails.
static CHANGES: [Row; 9] = [
    (
        Given::Call(0, Ask::Set(b"a", b"p")),
        Shown::Dirty,
        Shown::Nothing,
    ),
    (Given::From(1, 0, Said::Ack(1)), Shown::Item, Shown::Nothing),
    (Given::Call(0, Ask::Delete), Shown::Dirty, Shown::Nothing),
    (
        Given::Call(0, Ask::Set(b"b", b"q")),
        Shown::Dirty,
        Shown::Dirty,
    ),
    (
        Given::From(1, 0, Said::Ack(2)),
        Shown::Nothing,
        Shown::Dirty,
    ),
    (Given::Call(0, Ask::Flush), Shown::Dirty, Shown::Dirty),
    (
        Given::Call(0, Ask::Set(b"a", b"r")),
        Shown::Dirty,
        Shown::Dirty,
    ),
    (
        Given::From(1, 0, Said::Ack(4)),
        Shown::Dirty,
        Shown::Nothing,
    ),
    (Given::Gone(1), Shown::Item, Shown::Nothing),
];

#[test]
fn changes_replayed_show_what_the_node_shows(rt: HostRuntime) -> Result<(), Fail> {
    all_hold(other_of_new(rt.alloc(), &CHANGES))
}
