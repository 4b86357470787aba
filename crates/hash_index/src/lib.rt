//! An index of values by key: a hash table that grows by one bucket at a time.
//!
//! It stands in place of a tree of keys where a search has to read few lines of memory however many keys there are.
//! Nothing uses it yet: `faces` and `versions` have trees.
//!
//! - **Buckets.** A key's hash says its bucket, by linear hashing (W. Litwin, "Linear Hashing: A New Tool for File and
//!   Table Addressing", VLDB 1980). The low bits decide, with the upper half of the hash folded into them. A bucket is
//!   a vector of at most 48 entries; on average it has six.
//! - **Growth.** A key that comes may split one bucket: at most 48 entries move, into one new block of memory, and at
//!   most every 512th split takes a block of 512 buckets. So no call waits while a whole table is made anew. A split
//!   that memory refuses is left out, and the next new key tries again. So only a key's own entry can be refused. A
//!   split leaves no bucket room for more, and a bucket grows by three slots: so little room is empty.
//! - **Keys made to meet.** The hash is known to all, so keys of one hash can be made at will. What comes to a full
//!   bucket goes to one ordinary tree (`rest`). Such a key costs the 48 hashes of its bucket and a search in that tree;
//!   others cost what they did. There is no secret and nothing random: what an index does is the same on each run.
//! - **A clear** takes constant time. What was there is `Remains`, which its owner takes apart in small steps.
//! - **A change of all values** (`retain`) goes over the entries once, takes away those that aren't to stay, and
//!   allocates nothing.
//!
//! **What is proved.** Each call says what it makes of what keys have (`found_at` of `specs/Indexes.antt`): `get`,
//! `insert` and `remove` do as a map does, whatever was split on the way. No two entries have one key, and `len` is how
//! many there are. A refused `insert` leaves the entries as they were and gives the value back. After `retain` each key
//! has what became of its value (`specs/Retained.antt`). `buckets`, `bucket` and `rest` show each entry once, in an
//! order that no clause says.
//!
//! **What isn't.** How long a call takes, how full buckets are, when one is split, and that few entries come to the
//! tree.
//!
//! The hash of a key is made again at each call, since `TreeKey` doesn't show the one that it holds.
#![tactic(auto)]

mod buckets;
mod hash_tables;
mod indexes;
mod places;
mod remains;
mod retains;
mod rows;
mod trees;

pub use indexes::Index;
pub use places::Place;
pub use remains::Remains;
pub use retains::Retain;

#[cfg(test)]
mod tests;
