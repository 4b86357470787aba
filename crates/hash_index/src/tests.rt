//! What no clause says: that the calls succeed with memory at hand, that buckets split on the way, and that keys of one
//! hash are kept too.

use crate::{Index, Retain};
use std::alloc::Global;
use std::collections::BTreeMap;
use std::test::Fail;
use table::Key;

// A test's outcome: what was looked for holds.
fn holds(found: Option<bool>) -> Result<(), Fail> {
    match found {
        Some(true) => Ok(()),
        Some(false) => Err("it holds".into()),
        None => Err("out of memory".into()),
    }
}

fn key_of_bytes(alloc: Global, bytes: &[u8]) -> Option<Key> {
    match Key::new(alloc, bytes) {
        Ok(key) => key,
        Err(_) => None,
    }
}

// A byte that a key may have, for a number below 64.
fn byte_of(number: u32) -> u8 {
    (number % 64) as u8 + 48
}

// The key of a number.
fn key_of(alloc: Global, number: u32) -> Option<Key> {
    let bytes = [
        byte_of(number / 4096),
        byte_of(number / 64),
        byte_of(number),
    ];
    key_of_bytes(alloc, &bytes)
}

// Two texts of one hash: each difference, times its power of the hash's factor, adds up to a multiple of 2^64.
static ONE_HASH: [&[u8]; 2] = [b"dd2d22d2dd", b"\x5c\x4f\x64\x63\x3c\x4a\x50\x5a\x3c\x5a"];

// The key of a number below 128 among keys that all have one hash: one of the two texts for each of its bits.
fn hostile_key_of(alloc: Global, number: u32) -> Option<Key> {
    let mut bytes = Vec::new(alloc);
    let mut left = number;
    for _ in 0..7_u32 {
        let text = if left % 2 == 0 {
            ONE_HASH[0]
        } else {
            ONE_HASH[1]
        };
        if bytes.extend_from_slice(text).is_err() {
            return None;
        }
        left /= 2;
    }
    key_of_bytes(alloc, bytes.as_slice())
}

fn made(alloc: Global, hostile: bool, number: u32) -> Option<Key> {
    if hostile {
        hostile_key_of(alloc, number)
    } else {
        key_of(alloc, number)
    }
}

// What an index and a tree answer if a value is set: the same.
fn sets(
    index: &mut Index<u32>,
    tree: &mut BTreeMap<u32, u32>,
    key: &Key,
    number: u32,
    value: u32,
) -> Option<bool> {
    let Ok(before) = tree.insert(number, value) else {
        return None;
    };
    match index.insert(key, value) {
        Ok(old) => Some(old == before),
        Err(_) => None,
    }
}

// What they answer if a key is taken away.
fn takes(index: &mut Index<u32>, tree: &mut BTreeMap<u32, u32>, key: &Key, number: u32) -> bool {
    index.remove(key) == tree.remove(&number)
}

// What they answer if a value is put in the place of a key's own.
fn swaps(
    index: &mut Index<u32>,
    tree: &mut BTreeMap<u32, u32>,
    key: &Key,
    number: u32,
) -> Option<bool> {
    let before = tree.get(&number).copied();
    let Some(place) = index.place(key) else {
        return Some(before.is_none());
    };
    let old = index.swap_at(place, key, number);
    if tree.insert(number, number).is_err() {
        return None;
    }
    Some(before == Some(old))
}

// One call of those three, by a number, and what the key has then.
fn call(
    alloc: Global,
    index: &mut Index<u32>,
    tree: &mut BTreeMap<u32, u32>,
    hostile: bool,
    drawn: u32,
) -> Option<bool> {
    let number = (drawn / 8) % 128;
    let key = made(alloc, hostile, number)?;
    let same = match drawn % 8 {
        0 | 1 => takes(index, tree, &key, number),
        2 => swaps(index, tree, &key, number)?,
        _ => sets(index, tree, &key, number, drawn)?,
    };
    Some(same && index.get(&key) == tree.get(&number) && index.len() == tree.len())
}

// So many calls, in an order that looks like none.
fn does_as_a_tree(alloc: Global, hostile: bool, calls: u32) -> Option<bool> {
    let mut index = Index::new(alloc);
    let mut tree = BTreeMap::new(alloc);
    let mut drawn = 1_u32;
    let mut same = true;
    for _ in 0..calls {
        drawn = drawn.wrapping_mul(1_664_525).wrapping_add(1_013_904_223);
        same = call(alloc, &mut index, &mut tree, hostile, drawn / 1024)? && same;
    }
    let many = if hostile {
        !index.rest().is_empty()
    } else {
        index.buckets() > 8
    };
    Some(same && many)
}

#[test]
fn an_index_does_as_a_tree(rt: HostRuntime) -> Result<(), Fail> {
    holds(does_as_a_tree(rt.alloc(), false, 1000))
}

#[test]
fn an_index_of_keys_of_one_hash_does_as_a_tree(rt: HostRuntime) -> Result<(), Fail> {
    holds(does_as_a_tree(rt.alloc(), true, 300))
}

fn filled(alloc: Global, hostile: bool) -> Option<Index<u32>> {
    let mut index = Index::new(alloc);
    for number in 0..100_u32 {
        let key = made(alloc, hostile, number)?;
        if index.insert(&key, number).is_err() {
            return None;
        }
    }
    Some(index)
}

// The sum of the values that a walk meets.
fn walked(index: &Index<u32>) -> u32 {
    let mut sum = 0_u32;
    for i in 0..index.buckets() {
        for entry in index.bucket(i) {
            sum = sum.wrapping_add(entry.1);
        }
    }
    for (_, value) in index.rest().iter() {
        sum = sum.wrapping_add(*value);
    }
    sum
}

fn is_walked_and_taken_apart(alloc: Global, hostile: bool) -> Option<bool> {
    let mut index = filled(alloc, hostile)?;
    let sum = walked(&index);
    let wanted = index.buckets().wrapping_add(index.len());
    let mut remains = index.clear();
    let mut steps = 0_usize;
    for _ in 0..300_u32 {
        if remains.step() {
            steps = steps.wrapping_add(1);
        }
    }
    Some(sum == 4950 && steps == wanted && index.is_empty())
}

#[test]
fn an_index_is_walked_and_taken_apart(rt: HostRuntime) -> Result<(), Fail> {
    holds(is_walked_and_taken_apart(rt.alloc(), false))
}

#[test]
fn an_index_with_a_full_bucket_is_walked_and_taken_apart(rt: HostRuntime) -> Result<(), Fail> {
    holds(is_walked_and_taken_apart(rt.alloc(), true))
}

// An even number stays, and is one more then.
struct EvenAndOneMore;

impl Retain<u32> for EvenAndOneMore {
    ghost outcome = { λ v b w. Unit {0} };

    fn stays(value: &mut u32) -> bool {
        let even = *value % 2 == 0;
        *value = value.wrapping_add(1);
        even
    }
}

// Whether the number's key has what became of it.
fn became_one_more(index: &Index<u32>, key: &Key, number: u32) -> bool {
    match index.get(key) {
        Some(value) => number % 2 == 0 && *value == number.wrapping_add(1),
        None => number % 2 == 1,
    }
}

fn keeps_what_stays(alloc: Global, hostile: bool) -> Option<bool> {
    let mut index = filled(alloc, hostile)?;
    index.retain::<EvenAndOneMore>();
    let mut same = index.len() == 50;
    for number in 0..100_u32 {
        let key = made(alloc, hostile, number)?;
        same = became_one_more(&index, &key, number) && same;
    }
    Some(same)
}

#[test]
fn an_index_keeps_what_stays(rt: HostRuntime) -> Result<(), Fail> {
    let alloc = rt.alloc();
    holds(keeps_what_stays(alloc, false))?;
    holds(keeps_what_stays(alloc, true))
}
