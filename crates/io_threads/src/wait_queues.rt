//! Queues of clients that wait.
ghost use Rattle.std.specs.Prelude.{◌≡◌, ◌==◌, filter, not};

use std::alloc::{AllocError, Global};
use std::collections::VecDeque;
use std::marker::Model;

/// The keys of clients that wait, in the order in which they came. Contracts see them as a list.
#[derive(Drop)]
pub struct WaitQueue {
    keys: VecDeque<usize>,
}

impl Model for WaitQueue {
    ghost use Rattle.std.specs.Prelude.{ℕ, List};

    ghost Value = { List ℕ };

    ghost view = { λ l. l.keys.items };
}

impl WaitQueue {
    ghost use Rattle.std.specs.Prelude.{◌≡◌, ◌∷◌, ◌++◌, [], length, MatchOption, OnOk, OnErr, ◌==◌, filter, not};

    /// Nobody.
    pub fn new(alloc: Global) -> WaitQueue
        ensures { result ≡ [] }
    {
        WaitQueue {
            keys: VecDeque::new(alloc),
        }
    }

    /// Whether nobody stands there.
    pub fn is_empty(&self) -> bool
        ensures { result ≡ (length self.now == 0) }
    {
        self.keys.is_empty()
    }

    /// How many stand there.
    pub fn len(&self) -> usize
        ensures { result ≡ length self.now }
    {
        self.keys.len()
    }

    /// One more comes, and is the last. If it is refused, memory is out.
    pub fn join(&mut self, key: usize) -> Result<(), AllocError>
        ensures ok { OnOk result (self.new ≡ self.old ++ key ∷ []) }
        ensures err { OnErr result (self.new ≡ self.old) }
    {
        self.keys.push_back(key)?;
        Ok(())
    }

    /// The one that came first leaves.
    pub fn next(&mut self) -> Option<usize>
        ensures { MatchOption result ((self.old ≡ []) × (self.new ≡ [])) (λ key. self.old ≡ key ∷ self.new) }
    {
        self.keys.pop_front()
    }

    /// Each one with this key leaves, if one stands there. It takes as many steps as there stand.
    pub fn leave(&mut self, key: usize)
        ensures { self.new ≡ filter (λ other. not (other == key)) self.old }
    {
        leave(&mut self.keys, key)
    }

    /// All leave.
    pub fn clear(&mut self)
        ensures { self.new ≡ [] }
    {
        self.keys.clear();
    }
}

// Each one with this key leaves.
fn leave(keys: &mut VecDeque<usize>, key: usize)
    ensures { keys.new.items ≡ filter (λ other. not (other == key)) keys.old.items }
{
    keys.retain(|other| *other != key);
}
