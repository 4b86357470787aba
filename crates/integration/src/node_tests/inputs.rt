//! What is handed to a node, in few words.

use crate::making::{Fault, key, on, set};
use node::{Body, Input, Node, NodeFault, Output, Peer, View};
use std::alloc::Global;
use table::{Call, Change, Op, Reply, Target};
use versions::Entry;

impl From<NodeFault> for Fault {
    fn from(fault: NodeFault) -> Fault {
        match fault {
            NodeFault::Memory => Fault::Memory,
            NodeFault::Stopped | NodeFault::BadCount => Fault::Refused,
        }
    }
}

/// What is asked.
#[derive(Clone, Copy)]
pub(super) enum Ask {
    /// A read of the key `a`.
    Read,
    /// A set of a key to some data.
    Set(&'static [u8], &'static [u8]),
    /// A delete of the key `a`.
    Delete,
    Flush,
}

/// What a message says.
#[derive(Clone, Copy)]
pub(super) enum Said {
    /// The call of this id.
    Op(u64, Ask),
    /// The entry of this number and of the first call of this server, which takes the item at `a` away.
    Forward(u64, u8),
    Ack(u64),
    /// The ask of this number, for the key `a`.
    Query(u64),
    /// The last number, for the ask of a number.
    Answer(u64, u64),
}

/// What a node takes.
#[derive(Clone, Copy)]
pub(super) enum Given {
    /// A call of its own, at this port.
    Call(usize, Ask),
    /// A message from a server with this view.
    From(u8, u16, Said),
    Gone(u8),
}

fn call_of(alloc: Global, ask: Ask) -> Result<Call, Fault> {
    match ask {
        Ask::Read => Ok(on(key(alloc, b"a")?, Op::Read)),
        Ask::Set(name, data) => set(alloc, name, data),
        Ask::Delete => Ok(on(key(alloc, b"a")?, Op::Delete)),
        Ask::Flush => Ok(Call {
            target: Target::All,
            op: Op::Flush,
        }),
    }
}

fn drop_of(alloc: Global, number: u64, origin: u8) -> Result<Entry, Fault> {
    if number == 0 || origin >= 16 {
        return Err(Fault::Refused);
    }
    let target = Target::One(key(alloc, b"a")?);
    Ok(Entry::new(
        alloc,
        number,
        origin,
        1,
        target,
        Reply::Deleted,
        Change::Drop,
    )?)
}

fn body_of(alloc: Global, said: Said) -> Result<Body, Fault> {
    match said {
        Said::Op(id, ask) => Ok(Body::Op(id, call_of(alloc, ask)?)),
        Said::Forward(number, origin) => Ok(Body::Forward(drop_of(alloc, number, origin)?)),
        Said::Ack(n) => Ok(Body::Ack(n)),
        Said::Query(ask) => Ok(Body::Query(ask, key(alloc, b"a")?)),
        Said::Answer(ask, n) => Ok(Body::Answer(ask, n)),
    }
}

pub(super) fn input_of(alloc: Global, given: Given) -> Result<Input, Fault> {
    match given {
        Given::Call(port, ask) => Ok(Input::Call(port, call_of(alloc, ask)?)),
        Given::From(i, view, said) => {
            let body = body_of(alloc, said)?;
            let view = View::from_bits(view);
            Ok(Input::From(i, Peer { view, body }))
        }
        Given::Gone(j) => Ok(Input::Gone(j)),
    }
}

/// The outputs of an input. (What is dropped so costs no proof of each kind of input.)
pub(super) fn outputs_of(node: &mut Node, input: Input) -> Result<Vec<Output>, Fault> {
    if input.is_fit() {
        Ok(node.step(input)?)
    } else {
        drop(input);
        Err(Fault::Refused)
    }
}
