//! A chain of nodes, and the messages between them.

use super::inputs::{Ask, Given, input_of, outputs_of};
use crate::making::{Fault, key};
use node::{Input, Look, Node, Output, Peer};
use std::alloc::Global;
use std::collections::VecDeque;
use table::{Key, Reply};

// A chain of nodes: messages on their way in the order in which they were sent, how many were sent so far, the
// replies so far, how many calls there were, and the key that all of them set.
#[derive(Drop)]
struct Chain {
    nodes: Vec<Node>,
    sent: VecDeque<(u8, u8, Peer)>,
    count: usize,
    replies: Vec<(usize, Reply)>,
    calls: usize,
    a: Key,
}

fn nodes_of(alloc: Global, count: u8) -> Result<Vec<Node>, Fault> {
    let mut nodes = Vec::new(alloc);
    for id in 0..count {
        nodes.push(Node::new(alloc, id, count)?)?;
    }
    Ok(nodes)
}

fn chain_of(alloc: Global, count: u8) -> Result<Chain, Fault> {
    let a = key(alloc, b"a")?;
    let nodes = nodes_of(alloc, count)?;
    Ok(Chain {
        nodes,
        sent: VecDeque::new(alloc),
        count: 0,
        replies: Vec::new(alloc),
        calls: 0,
        a,
    })
}

// One step of node i. Its messages and replies are kept.
fn step(chain: &mut Chain, i: u8, input: Input) -> Result<(), Fault> {
    for output in outputs(&mut chain.nodes, i, input)? {
        keep(chain, i, output)?;
    }
    Ok(())
}

fn outputs(nodes: &mut Vec<Node>, i: u8, input: Input) -> Result<Vec<Output>, Fault> {
    match nodes.get_mut(usize::from(i)) {
        Some(node) => outputs_of(node, input),
        None => {
            drop(input);
            Err(Fault::Refused)
        }
    }
}

fn keep(chain: &mut Chain, i: u8, output: Output) -> Result<(), Fault> {
    match output {
        Output::To(j, peer) => {
            chain.sent.push_back((i, j, peer))?;
            chain.count = chain.count.wrapping_add(1);
        }
        Output::Reply(port, reply) => chain.replies.push((port, reply))?,
    }
    Ok(())
}

/// What happens in a chain.
#[derive(Clone, Copy)]
pub(super) enum Act {
    /// A set of the key at this node. The port is the number of calls before it.
    Sets(u8),
    /// The next message comes, in the order in which they were sent.
    Comes,
    Nothing,
}

/// What is seen of a chain then.
#[derive(Clone, Copy)]
pub(super) enum Seen {
    /// Node 0 shows that the key is dirty.
    Dirty,
    /// Node 0 shows an item with this unique, of a clean key.
    Unique(u64),
    /// There are this many replies.
    Replies(usize),
    /// This many calls were stored, in the order of their ports.
    Stored(usize),
    /// This many messages were sent, and none is on its way.
    Sent(usize),
    /// This many nodes show the item, clean, and have nothing left to do.
    ByAll(usize),
}

/// How often something happens, and what is seen after each time.
pub(super) type Row = (usize, Act, Seen);

// Whether it could happen.
fn happens(alloc: Global, chain: &mut Chain, act: Act) -> Result<bool, Fault> {
    match act {
        Act::Sets(i) => {
            let input = input_of(alloc, Given::Call(chain.calls, Ask::Set(b"a", b"p")))?;
            chain.calls = chain.calls.wrapping_add(1);
            step(chain, i, input)?;
            Ok(true)
        }
        Act::Comes => match chain.sent.pop_front() {
            Some((i, j, peer)) => {
                step(chain, j, Input::From(i, peer))?;
                Ok(true)
            }
            None => Ok(false),
        },
        Act::Nothing => Ok(true),
    }
}

fn is_dirty(node: &Node, a: &Key) -> bool {
    matches!(node.peek(a), Look::Dirty)
}

fn has_unique(node: &Node, a: &Key, unique: u64) -> bool {
    matches!(node.peek(a), Look::Clean(Some(item)) if item.unique() == unique)
}

fn all_show_item(nodes: &[Node], a: &Key) -> bool {
    for node in nodes {
        let shown = matches!(
            node.peek(a),
            Look::Clean(Some(item)) if item.bytes().as_slice() == b"p".as_slice()
        );
        if !shown || !node.is_idle() {
            return false;
        }
    }
    true
}

fn are_stored_in_order(replies: &[(usize, Reply)]) -> bool {
    let mut next: usize = 0;
    for (port, reply) in replies {
        if *port != next || !matches!(reply, Reply::Stored) {
            return false;
        }
        next = next.wrapping_add(1);
    }
    true
}

fn is_seen(chain: &Chain, seen: Seen) -> bool {
    let Some(first) = chain.nodes.first() else {
        return false;
    };
    match seen {
        Seen::Dirty => is_dirty(first, &chain.a),
        Seen::Unique(unique) => has_unique(first, &chain.a, unique),
        Seen::Replies(count) => chain.replies.len() == count,
        Seen::Stored(count) => {
            chain.replies.len() == count && are_stored_in_order(chain.replies.as_slice())
        }
        Seen::Sent(count) => chain.count == count && chain.sent.is_empty(),
        Seen::ByAll(count) => {
            chain.nodes.len() == count && all_show_item(chain.nodes.as_slice(), &chain.a)
        }
    }
}

// Whether something can happen so often, and this is seen after each time.
fn goes(alloc: Global, chain: &mut Chain, row: Row) -> Result<bool, Fault> {
    let (times, act, seen) = row;
    for _ in 0..times {
        if !happens(alloc, chain, act)? || !is_seen(chain, seen) {
            return Ok(false);
        }
    }
    Ok(true)
}

fn other_row(alloc: Global, chain: &mut Chain, rows: &[Row]) -> Result<Option<usize>, Fault> {
    let mut place = 0_usize;
    for row in rows {
        if !goes(alloc, chain, *row)? {
            return Ok(Some(place));
        }
        place = place.wrapping_add(1);
    }
    Ok(None)
}

/// The first row that goes otherwise than it says, in a new chain of n nodes.
pub(super) fn other_of_new(alloc: Global, count: u8, rows: &[Row]) -> Result<Option<usize>, Fault> {
    let mut chain = chain_of(alloc, count)?;
    let other = other_row(alloc, &mut chain, rows);
    drop(chain);
    other
}
