//! Where a server stands, for who watches it: its numbers, and its open calls.
ghost use Rattle.std.specs.Prelude.{◌≡◌};
ghost use Rattle.std.specs.Iterator.Runs.{YieldsRefsInOrder};
ghost use Rattle.std.specs.VecDeque.Iter.{deque_iter_rest, deque_iter_steps};
ghost use Rattle.node.specs.Standings as standings;

use crate::servers::{OpenRead, OpenUpdate};
use crate::{Node, View};
use std::collections::vec_deque::Iter;

/// Where a server stands.
#[derive(Clone, Copy, Debug, PartialEq, Eq)]
pub struct Standing {
    /// The servers that it knows to have failed.
    pub view: View,
    /// The number of its last entry.
    pub last: u64,
    /// The greatest number that it knows to be acknowledged.
    pub acked: u64,
    /// The number up to which its entries are folded into one table.
    pub floor: u64,
}

impl Node {
    /// Where its server stands. It allocates nothing.
    pub fn standing(&self) -> Standing
        ensures { result ≡ standings.standing self.now.server }
    {
        Standing {
            view: self.server.view,
            last: self.server.store.last(),
            acked: self.server.store.acked(),
            floor: self.server.store.floor(),
        }
    }

    /// Its own update calls without a reply, in the order of their ids.
    pub fn open_updates(&self) -> Iter<'_, OpenUpdate>
        ensures rest { deque_iter_rest result ≡ self.now.server.pend }
        // By this a loop over them, or a chain of iterators, is proved.
        ensures runs { YieldsRefsInOrder (deque_iter_steps {X = OpenUpdate}) deque_iter_rest }
    {
        self.server.pend.iter()
    }

    /// Its own reads that wait for the tail's answer, in the order of their asks.
    pub fn open_reads(&self) -> Iter<'_, OpenRead>
        ensures rest { deque_iter_rest result ≡ self.now.server.asks }
        ensures runs { YieldsRefsInOrder (deque_iter_steps {X = OpenRead}) deque_iter_rest }
    {
        self.server.asks.iter()
    }
}
