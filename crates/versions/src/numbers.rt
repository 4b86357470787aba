//! Lists of numbers of entries, in the order of the log.
ghost use Rattle.std.specs.Prelude.{◌≡◌, ℕ, List, [], ◌∷◌, ◌++◌, drop, IfOk, OnOk, OnErr, IsTrue, ◌↔◌};
ghost use Rattle.versions.specs.Numbers.{last_of, last_up_to, IsRising};

use std::alloc::{AllocError, Global};
use std::collections::VecDeque;
use std::marker::Model;

/// Numbers of entries. Contracts see a list. None and one take no block of memory: most keys have no entry above the
/// floor, or one.
#[derive(Drop)]
pub(crate) struct Numbers {
    alloc: Global,
    held: Held,
}

// The numbers themselves.
#[derive(Drop)]
enum Held {
    Nothing,
    One(u64),
    More(Box<VecDeque<u64>>),
}

impl Model for Numbers {
    ghost use Rattle.std.specs.Prelude.{List, ℕ};
    ghost use Rattle.versions.specs.Held.{numbers_held};

    ghost Value = { List ℕ };

    ghost view = { λ n. numbers_held n.held };
}

impl Numbers {
    /// None yet. It allocates nothing.
    pub(crate) fn new(alloc: Global) -> Numbers
        ensures { result ≡ [] }
    {
        Numbers {
            alloc,
            held: Held::Nothing,
        }
    }

    /// One more at the end.
    pub(crate) fn push(&mut self, number: u64) -> Result<(), AllocError>
        ensures ok { OnOk result (self.new ≡ self.old ++ number ∷ []) }
        ensures err { OnErr result (self.new ≡ self.old) }
    {
        match &mut self.held {
            Held::Nothing => self.held = Held::One(number),
            Held::One(first) => self.held = Held::More(both(self.alloc, *first, number)?),
            Held::More(queue) => queue.push_back(number)?,
        }
        Ok(())
    }

    /// Without the first one. A list that is empty then gives back all that it took.
    pub(crate) fn drop_first(&mut self)
        ensures { self.new ≡ drop 1 self.old }
    {
        match &mut self.held {
            Held::Nothing => {}
            Held::One(_) => self.held = Held::Nothing,
            Held::More(queue) => {
                queue.pop_front();
                if queue.is_empty() {
                    self.held = Held::Nothing;
                }
            }
        }
    }

    pub(crate) fn is_empty(&self) -> bool
        ensures { IsTrue result ↔ (self.now ≡ []) }
    {
        match &self.held {
            Held::Nothing => true,
            Held::One(_) => false,
            Held::More(queue) => queue.is_empty(),
        }
    }

    /// The last one.
    pub(crate) fn last(&self) -> Option<u64>
        ensures { result ≡ last_of self.now }
    {
        match &self.held {
            Held::Nothing => None,
            Held::One(number) => Some(*number),
            Held::More(queue) => last_in(queue),
        }
    }

    /// The last one that is at most `n`, by a binary search.
    pub(crate) fn last_up_to(&self, n: u64) -> Option<u64>
        requires rising { IsRising 0 self.now }
        ensures { result ≡ last_up_to n self.now }
    {
        match &self.held {
            Held::Nothing => None,
            Held::One(number) => Some(*number).filter(|number| *number <= n),
            Held::More(queue) => last_up_to_in(queue, n),
        }
    }
}

// A queue of two numbers.
fn both(alloc: Global, first: u64, second: u64) -> Result<Box<VecDeque<u64>>, AllocError>
    ensures { IfOk result (λ queue. queue.value.items ≡ first ∷ (second ∷ [])) }
{
    let mut queue = VecDeque::new(alloc);
    queue.push_back(first)?;
    queue.push_back(second)?;
    Ok(Box::new(alloc, queue)?)
}

// The last number of a queue.
fn last_in(queue: &VecDeque<u64>) -> Option<u64>
    ensures { result ≡ last_of queue.now.items }
{
    queue.back().copied()
}

// The last number of a queue that is at most this one.
fn last_up_to_in(queue: &VecDeque<u64>, n: u64) -> Option<u64>
    requires rising { IsRising 0 queue.now.items }
    ensures { result ≡ last_up_to n queue.now.items }
{
    let after = queue.partition_point(|number| *number <= n);
    if after == 0 {
        return None;
    }
    queue.get(after - 1).copied()
}
