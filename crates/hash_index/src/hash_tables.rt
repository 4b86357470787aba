//! Buckets by linear hashing: one more at a time, as entries come.
ghost use Rattle.std.specs.Prelude.{◌≡◌, ◌<◌, length, ℕ, List, Some, None, IfOk, IfErr, IfSome, IfNone, IsSome, OnOk};
ghost use Rattle.std.specs.Prelude.{OnErr};
ghost use Rattle.std.specs.Prelude.{[], ◌≤◌, ◌+◌, ◌*◌, ◌^◌, nat_eq, if◌then◌else◌};
ghost use Rattle.hash_index.specs.Entries.{value_at, value_in, key_in, HasValueAt, AreApart};
ghost use Rattle.hash_index.specs.Tables.{joined, bucket_at, HasNow, SameValues};
ghost use Rattle.hash_index.specs.Retained.{IsRetained, AreRetained};

use crate::buckets::Bucket;
use crate::places::place_of;
use crate::retains::Retain;
use crate::rows::Rows;
use std::alloc::{AllocError, AllocFailed, Global};
use std::marker::Model;
use table::TreeKey;

// How many entries a bucket has on average before one is split.
const LOAD: usize = 6;

// Contracts see the buckets' entries.
#[derive(Drop)]
pub(crate) struct HashTable<V: Drop> {
    alloc: Global,
    rows: Rows<Bucket<V>>,
    half: usize,
}

impl<V: Drop> Model for HashTable<V> {
    ghost use Rattle.std.specs.Prelude.{List, ℕ};
    ghost use Rattle.hash_index.specs.Tables.{AreBuckets};

    ghost Value = { List (List (List ℕ × V)) };

    ghost view = { λ t. t.rows };

    ghost invariant = { λ t. AreBuckets t.half t.rows };
}

impl<V: Drop> HashTable<V> {
    // No entries. It allocates nothing.
    pub(crate) fn new(alloc: Global) -> HashTable<V>
        ensures { result ≡ [] }
    {
        HashTable {
            alloc,
            rows: Rows::new(alloc),
            half: 1,
        }
    }

    // The bucket of a key, and its position there; or none.
    pub(crate) fn find(&self, key: &TreeKey) -> Option<(usize, usize)>
        ensures key { IfSome result (λ p. key_in (bucket_at self.now p.0) p.1 ≡ Some key.now) }
        ensures value { IfSome result (λ p. value_in (bucket_at self.now p.0) p.1
            ≡ value_at (joined self.now) key.now) }
        ensures absent { IfNone result (value_at (joined self.now) key.now ≡ None) }
    {
        let count = self.rows.len();
        if count == 0 {
            return None;
        }
        let bucket = place_of(self.half, count, key);
        match self.rows.get(bucket).find(key) {
            Some(slot) => Some((bucket, slot)),
            None => None,
        }
    }

    // The value at a place.
    pub(crate) fn value(&self, bucket: usize, slot: usize) -> &V
        requires { IsSome (key_in (bucket_at self.now bucket) slot) }
        ensures { HasValueAt (bucket_at self.now bucket) slot result.now }
    {
        self.rows.get(bucket).value(slot)
    }

    // Puts a value in the place of another, and gives that one.
    pub(crate) fn swap(&mut self, bucket: usize, slot: usize, value: V) -> V
        requires { IsSome (key_in (bucket_at self.old bucket) slot) }
        ensures old { (key : List ℕ) → key_in (bucket_at self.old bucket) slot ≡ Some key
            → value_at (joined self.old) key ≡ Some result }
        ensures updates { (key : List ℕ) → key_in (bucket_at self.old bucket) slot ≡ Some key
            → HasNow key (Some value) (joined self.old) (joined self.new) }
        ensures keys { (i : ℕ) (j : ℕ) → key_in (bucket_at self.new i) j ≡ key_in (bucket_at self.old i) j }
        ensures apart { AreApart (joined self.new) }
    {
        let mut slots = self.rows.swap(bucket, Bucket::new(self.alloc));
        let old = slots.swap(slot, value);
        drop(self.rows.swap(bucket, slots));
        old
    }

    // Takes an entry away, and gives its value.
    pub(crate) fn remove(&mut self, bucket: usize, slot: usize) -> V
        requires { IsSome (key_in (bucket_at self.old bucket) slot) }
        ensures old { (key : List ℕ) → key_in (bucket_at self.old bucket) slot ≡ Some key
            → value_at (joined self.old) key ≡ Some result }
        ensures updates { (key : List ℕ) → key_in (bucket_at self.old bucket) slot ≡ Some key
            → HasNow key None (joined self.old) (joined self.new) }
        ensures apart { AreApart (joined self.new) }
    {
        let mut slots = self.rows.swap(bucket, Bucket::new(self.alloc));
        let old = slots.remove(slot);
        drop(self.rows.swap(bucket, slots));
        old
    }

    // Takes the entries away whose values aren't to stay. How many those are.
    pub(crate) fn retain<R: Retain<V>>(&mut self) -> usize
        requires { length (joined self.old) < 2 ^ 64 }
        ensures kept { AreRetained R.outcome (joined self.old) (joined self.new) }
        ensures gone { result + length (joined self.new) ≡ length (joined self.old) }
        ensures apart { AreApart (joined self.new) }
    {
        retain_rows::<V, R>(self.alloc, &mut self.rows)
    }

    // How many buckets there are.
    pub(crate) fn len(&self) -> usize
        ensures { result ≡ length self.now }
    {
        self.rows.len()
    }

    // The entries of a bucket.
    pub(crate) fn bucket(&self, i: usize) -> &[(TreeKey, V)]
        requires { i < length self.now }
        ensures { result.now ≡ bucket_at self.now i }
    {
        self.rows.get(i).as_slice()
    }

    // The buckets alone, which keep no order any more.
    pub(crate) fn into_rows(self) -> Rows<Bucket<V>>
        ensures { result ≡ self }
    {
        let HashTable { rows, .. } = self;
        rows
    }

    // The allocator.
    pub(crate) fn allocator(&self) -> Global {
        self.alloc
    }

    // Whether the bucket of a key takes no more.
    pub(crate) fn is_full(&self, key: &TreeKey) -> bool {
        let count = self.rows.len();
        if count == 0 {
            return false;
        }
        let bucket = place_of(self.half, count, key);
        self.rows.get(bucket).is_full()
    }

    // Adds an entry for a key that has none. Refused if memory is out.
    pub(crate) fn add(&mut self, key: TreeKey, value: V) -> Result<(), AllocFailed<V>>
        requires { value_at (joined self.old) key ≡ None }
        ensures ok { OnOk result (HasNow key (Some value) (joined self.old) (joined self.new)) }
        ensures err { OnErr result (joined self.new ≡ joined self.old) }
        ensures value_returned { IfErr result (λ failed. failed.value ≡ value) }
        ensures apart { AreApart (joined self.new) }
    {
        let Ok(()) = self.begin() else {
            drop(key);
            return Err(AllocFailed { value });
        };
        let bucket = place_of(self.half, self.rows.len(), &key);
        let mut slots = self.rows.swap(bucket, Bucket::new(self.alloc));
        let pushed = slots.push(key, value);
        drop(self.rows.swap(bucket, slots));
        pushed
    }

    // Makes the first bucket, if there is none.
    fn begin(&mut self) -> Result<(), AllocError>
        ensures some { OnOk result (0 < length self.new) }
        ensures same { joined self.new ≡ joined self.old }
        ensures apart { AreApart (joined self.new) }
    {
        if self.rows.len() != 0 {
            return Ok(());
        }
        self.rows.push(Bucket::new(self.alloc))
    }

    // Splits a bucket, if these are more entries than buckets of a fit size have. If memory is out, nothing is split.
    pub(crate) fn grow(&mut self, entries: usize)
        ensures same { SameValues (joined self.old) (joined self.new) }
        ensures apart { AreApart (joined self.new) }
    {
        let count = self.rows.len();
        if count != 0 && count <= entries / LOAD {
            self.split();
        }
    }

    // Splits the next bucket. If memory is out, nothing is split.
    fn split(&mut self)
        requires { 0 < length self.old }
        ensures same { SameValues (joined self.old) (joined self.new) }
        ensures apart { AreApart (joined self.new) }
    {
        let count = self.rows.len();
        self.half = next_half(self.half, count);
        let from = count - self.half;
        let Ok(()) = self.rows.push(Bucket::new(self.alloc)) else {
            return;
        };
        let mut slots = self.rows.swap(from, Bucket::new(self.alloc));
        let Ok(fresh) = slots.split(self.half, count) else {
            drop(self.rows.swap(from, slots));
            self.rows.pop();
            return;
        };
        drop(self.rows.swap(from, slots));
        drop(self.rows.swap(count, fresh));
    }
}

// The number by which the next bucket is split: doubled, once there are twice as many.
fn next_half(half: usize, count: usize) -> usize
    requires enough { half ≤ count }
    requires few { count ≤ 2 * half }
    requires some { 0 < half }
    requires small { count < 2 ^ 41 }
    ensures is { result ≡ (if nat_eq count (2 * half) then 2 * half else half) }
    ensures enough { result ≤ count }
    ensures few { count < 2 * result }
{
    if count == 2 * half { 2 * half } else { half }
}

// Takes the entries away whose values aren't to stay, bucket by bucket. How many those are.
fn retain_rows<V: Drop, R: Retain<V>>(alloc: Global, rows: &mut Rows<Bucket<V>>) -> usize
    requires { length (joined rows.old) < 2 ^ 64 }
    ensures count { length rows.new ≡ length rows.old }
    ensures each { (j : ℕ) → IsRetained R.outcome (bucket_at rows.old j) (bucket_at rows.new j) }
    ensures gone { result + length (joined rows.new) ≡ length (joined rows.old) }
{
    let count = rows.len();
    let mut gone = 0;
    for i in 0..count {
        gone += retain_at::<V, R>(alloc, rows, i);
    }
    gone
}

// Takes the entries of a bucket away whose values aren't to stay. How many those are.
fn retain_at<V: Drop, R: Retain<V>>(alloc: Global, rows: &mut Rows<Bucket<V>>, i: usize) -> usize
    requires { i < length rows.old }
    ensures count { length rows.new ≡ length rows.old }
    ensures this { IsRetained R.outcome (bucket_at rows.old i) (bucket_at rows.new i) }
    ensures others { (j : ℕ) → (j ≡ i → ⊥) → bucket_at rows.new j ≡ bucket_at rows.old j }
    ensures gone { result + length (joined rows.new) ≡ length (joined rows.old) }
{
    let mut slots = rows.swap(i, Bucket::new(alloc));
    let gone = slots.retain::<R>();
    drop(rows.swap(i, slots));
    gone
}
