//! A list that grows by rows of one size, so that none of its values is ever moved.
ghost use Rattle.std.specs.Prelude.{◌≡◌, ◌<◌, ◌-◌, ◌^◌, ◌++◌, ◌∷◌, [], length, ◌/◌, take, IfOk, OnOk, OnErr};
ghost use Rattle.std.specs.Prelude.{slice_index_or, slice_set};
ghost use Rattle.hash_index.specs.Rows.{joined_rows, AreRows};

use std::alloc::{AllocError, Global};
use std::marker::Model;
use std::mem;

// How many values a row has.
const ROW: usize = 512;

// How many values there may be.
const MOST: usize = 1 << 40;

// Contracts see the list.
#[derive(Drop)]
pub(crate) struct Rows<T: Drop> {
    rows: Vec<Vec<T>>,
    count: usize,
}

impl<T: Drop> Model for Rows<T> {
    ghost use Rattle.std.specs.Prelude.{List, ◌≤◌};
    ghost use Rattle.hash_index.specs.Rows.{joined_rows, AreRows};

    ghost Value = { List T };

    ghost view = { λ r. joined_rows r.rows.items };

    ghost invariant = { λ r. AreRows r.rows.items r.count × (r.count ≤ 1099511627776) };
}

impl<T: Drop> Rows<T> {
    // No values. It allocates nothing.
    pub(crate) fn new(alloc: Global) -> Rows<T>
        ensures { result ≡ [] }
    {
        Rows {
            rows: Vec::new(alloc),
            count: 0,
        }
    }

    // How many values there are.
    pub(crate) fn len(&self) -> usize
        ensures len { result ≡ length self.now }
        ensures small { result < 2 ^ 41 }
    {
        self.count
    }

    // A value.
    pub(crate) fn get(&self, i: usize) -> &T
        requires { i < length self.now }
        ensures { result.now ≡ slice_index_or self.now i result.now }
    {
        let row = &self.rows[i / ROW];
        &row[i % ROW]
    }

    // Puts a value in the place of another, and gives that one.
    pub(crate) fn swap(&mut self, i: usize, value: T) -> T
        requires { i < length self.old }
        ensures old { result ≡ slice_index_or self.old i result }
        ensures new { self.new ≡ slice_set self.old i value }
    {
        let row = &mut self.rows[i / ROW];
        mem::replace(&mut row[i % ROW], value)
    }

    // Adds a value, and at most one row. Refused if memory is out.
    pub(crate) fn push(&mut self, value: T) -> Result<(), AllocError>
        ensures ok { OnOk result (self.new ≡ self.old ++ value ∷ []) }
        ensures err { OnErr result (self.new ≡ self.old) }
    {
        if self.count == MOST {
            return Err(AllocError);
        }
        make_room(&mut self.rows, self.count)?;
        self.rows[self.count / ROW].push(value)?;
        self.count += 1;
        Ok(())
    }

    // Takes the last value away, if there is one.
    pub(crate) fn pop(&mut self)
        ensures { self.new ≡ take (length self.old - 1) self.old }
    {
        if self.count == 0 {
            return;
        }
        let last = self.count - 1;
        self.rows[last / ROW].pop();
        self.count = last;
    }
}

// Adds a row if all are full.
fn make_room<T: Drop>(rows: &mut Vec<Vec<T>>, count: usize) -> Result<(), AllocError>
    requires { AreRows rows.old.items count }
    ensures rows { AreRows rows.new.items count }
    ensures same { joined_rows rows.new.items ≡ joined_rows rows.old.items }
    ensures room { OnOk result (count / 512 < length rows.new.items) }
{
    let at = count / ROW;
    if at == rows.len() {
        let row = row_for(*rows.allocator(), at)?;
        rows.push(row)?;
    }
    Ok(())
}

// An empty row. The first grows from nothing, and each later one has all its room at once.
fn row_for<T>(alloc: Global, at: usize) -> Result<Vec<T>, AllocError>
    ensures { IfOk result (λ row. row.items ≡ []) }
{
    if at == 0 {
        Ok(Vec::new(alloc))
    } else {
        Vec::with_capacity(alloc, ROW)
    }
}
