//! A bucket: some entries in a row.
ghost use Rattle.std.specs.Prelude.{◌≡◌, ◌<◌, ◌≤◌, ◌+◌, ◌^◌, ◌++◌, ◌∷◌, [], List, ℕ, Some, None, OnOk, OnErr, IfOk};
ghost use Rattle.std.specs.Prelude.{IfErr, IfSome, IfNone};
ghost use Rattle.std.specs.Prelude.{length, take, ◌-◌};
ghost use Rattle.std.specs.List.{filter, remove};
ghost use Rattle.std.specs.Vec.{vec_len, vec_capacity};
ghost use Rattle.hash_index.specs.Places.{IsPower};
ghost use Rattle.hash_index.specs.Entries.{key_in, value_at, HasValueAt, with_value, staying, going};
ghost use Rattle.hash_index.specs.Retained.{IsRetained};

use crate::places::goes;
use crate::retains::Retain;
use std::alloc::{AllocError, AllocFailed, Global};
use std::marker::Model;
use std::mem;
use table::TreeKey;

// The most entries of a bucket: more than any has by chance.
const MOST: usize = 48;

// By how many slots a bucket grows.
const STEP: usize = 3;

// Contracts see the entries.
#[derive(Drop)]
pub(crate) struct Bucket<V: Drop> {
    slots: Vec<(TreeKey, V)>,
}

impl<V: Drop> Model for Bucket<V> {
    ghost use Rattle.std.specs.Prelude.{List, ℕ};

    ghost Value = { List (List ℕ × V) };

    ghost view = { λ b. b.slots.items };
}

impl<V: Drop> Bucket<V> {
    // No entries. It allocates nothing.
    pub(crate) fn new(alloc: Global) -> Bucket<V>
        ensures { result ≡ [] }
    {
        Bucket {
            slots: Vec::new(alloc),
        }
    }

    // Whether it takes no more.
    pub(crate) fn is_full(&self) -> bool {
        self.slots.len() >= MOST
    }

    // The position of a key, or none.
    pub(crate) fn find(&self, key: &TreeKey) -> Option<usize>
        ensures key { IfSome result (λ i. key_in self.now i ≡ Some key.now) }
        ensures absent { IfNone result (value_at self.now key.now ≡ None) }
    {
        find(self.slots.as_slice(), key)
    }

    // The value at a position.
    pub(crate) fn value(&self, i: usize) -> &V
        requires { i < length self.now }
        ensures { HasValueAt self.now i result.now }
    {
        &self.slots[i].1
    }

    // Puts a value in the place of another, and gives that one.
    pub(crate) fn swap(&mut self, i: usize, value: V) -> V
        requires { i < length self.old }
        ensures old { HasValueAt self.old i result }
        ensures new { self.new ≡ with_value self.old i value }
    {
        mem::replace(&mut self.slots[i].1, value)
    }

    // Adds an entry. Refused if memory is out.
    pub(crate) fn push(&mut self, key: TreeKey, value: V) -> Result<(), AllocFailed<V>>
        ensures ok { OnOk result (self.new ≡ self.old ++ (key, value) ∷ []) }
        ensures err { OnErr result (self.new ≡ self.old) }
        ensures value_returned { IfErr result (λ failed. failed.value ≡ value) }
    {
        if self.slots.len() == self.slots.capacity() && self.slots.reserve_exact(STEP).is_err() {
            return Err(AllocFailed { value });
        }
        match self.slots.push((key, value)) {
            Ok(()) => Ok(()),
            Err(failed) => {
                let (key, value) = failed.value;
                drop(key);
                Err(AllocFailed { value })
            }
        }
    }

    // Takes an entry away, and gives its value. Those after it move up.
    pub(crate) fn remove(&mut self, i: usize) -> V
        requires { i < length self.old }
        ensures value { HasValueAt self.old i result }
        ensures entries { self.new ≡ remove self.old i }
    {
        let (key, value) = self.slots.remove(i);
        drop(key);
        value
    }

    // The entries.
    pub(crate) fn as_slice(&self) -> &[(TreeKey, V)]
        ensures { result.now ≡ self.now }
    {
        self.slots.as_slice()
    }

    // Takes the last entry away, if there is one.
    pub(crate) fn pop(&mut self)
        ensures { self.new ≡ take (length self.old - 1) self.old }
    {
        self.slots.pop();
    }

    // Takes the entries away whose values aren't to stay. How many those are.
    pub(crate) fn retain<R: Retain<V>>(&mut self) -> usize
        ensures kept { IsRetained R.outcome self.old self.new }
        ensures gone { result + length self.new ≡ length self.old }
    {
        let before = self.slots.len();
        retain::<V, R>(&mut self.slots);
        before - self.slots.len()
    }

    // The entries that go to the new bucket, once there is one more than these; the others stay, all in order. Neither
    // bucket keeps room for more. Refused if memory is out.
    pub(crate) fn split(&mut self, half: usize, count: usize) -> Result<Bucket<V>, AllocError>
        requires power { IsPower half }
        requires small { half < 2 ^ 62 }
        requires few { count < 2 ^ 62 }
        ensures stay { OnOk result (self.new ≡ filter (staying half count) self.old) }
        ensures go { IfOk result (λ fresh. fresh ≡ filter (going half count) self.old) }
        ensures err { OnErr result (self.new ≡ self.old) }
    {
        let alloc = *self.slots.allocator();
        let room = room_for(self.slots.as_slice(), half, count);
        let mut slots = Vec::with_capacity(alloc, room)?;
        part(&mut self.slots, &mut slots, half, count);
        self.slots.shrink_to_fit();
        Ok(Bucket { slots })
    }
}

// The position of a key, or none.
fn find<V>(slots: &[(TreeKey, V)], key: &TreeKey) -> Option<usize>
    ensures key { IfSome result (λ i. key_in slots.now i ≡ Some key.now) }
    ensures absent { IfNone result (value_at slots.now key.now ≡ None) }
{
    for (i, slot) in slots.iter().enumerate() {
        if key.cmp(&slot.0).is_eq() {
            return Some(i);
        }
    }
    None
}

// Takes the slots away whose values aren't to stay.
fn retain<V: Drop, R: Retain<V>>(slots: &mut Vec<(TreeKey, V)>)
    ensures kept { IsRetained R.outcome slots.old.items slots.new.items }
    ensures fewer { length slots.new.items ≤ length slots.old.items }
{
    let mut i = 0;
    while i < slots.len() {
        if stays::<V, R>(&mut slots[i]) {
            i += 1;
        } else {
            slots.remove(i);
        }
    }
}

// Whether a slot's value is to stay, after what is made of it.
fn stays<V: Drop, R: Retain<V>>(slot: &mut (TreeKey, V)) -> bool
    ensures key { slot.new.0 ≡ slot.old.0 }
    ensures outcome { R.outcome slot.old.1 result slot.new.1 }
{
    R::stays(&mut slot.1)
}

// Room for the slots that go.
fn room_for<V>(slots: &[(TreeKey, V)], half: usize, count: usize) -> usize
    requires power { IsPower half }
    requires small { half < 2 ^ 62 }
    requires few { count < 2 ^ 62 }
    ensures { length (filter (going half count) slots.now) ≤ result }
{
    let mut room = 0;
    for slot in slots {
        if goes(half, count, &slot.0) {
            room += 1;
        }
    }
    room
}

// Moves the slots that go to the end of others, where there is room for them.
fn part<V: Drop>(
    slots: &mut Vec<(TreeKey, V)>,
    fresh: &mut Vec<(TreeKey, V)>,
    half: usize,
    count: usize,
)
    requires power { IsPower half }
    requires small { half < 2 ^ 62 }
    requires few { count < 2 ^ 62 }
    requires room { vec_len fresh.old + length (filter (going half count) slots.old.items) ≤ vec_capacity fresh.old }
    ensures stay { slots.new.items ≡ filter (staying half count) slots.old.items }
    ensures go { fresh.new.items ≡ fresh.old.items ++ filter (going half count) slots.old.items }
{
    let mut i = 0;
    while i < slots.len() {
        if goes(half, count, &slots[i].0) {
            let slot = slots.remove(i);
            if let Err(failed) = fresh.push(slot) {
                drop(failed);
            }
        } else {
            i += 1;
        }
    }
}
