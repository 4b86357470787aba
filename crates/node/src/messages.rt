//! What servers tell each other, and what goes into a server's step and comes out of it.

use crate::View;
use table::{Call, Key, Reply};
use versions::Entry;

/// A message from one server to another.
#[derive(Clone, Debug, Drop)]
pub struct Peer {
    /// The sender's view.
    pub view: View,
    /// What it says.
    pub body: Body,
}

/// What a message says.
#[derive(Clone, Debug, Drop)]
pub enum Body {
    /// `Op(id, call)`: the sender's own update call of this id, for the head.
    Op(u64, Call),
    /// `Forward(entry)`: an entry of the sender's, for its successor.
    Forward(Entry),
    /// `Ack(n)`: the sender's commit number, for its predecessor.
    Ack(u64),
    /// `Query(ask, key)`: the sender's ask of this number for a key, for the tail.
    Query(u64, Key),
    /// `Answer(ask, n)`: n is the tail's last number, for the receiver's open read of this ask.
    Answer(u64, u64),
}

/// What a server takes in one step.
#[derive(Clone, Debug, Drop)]
pub enum Input {
    /// `Call(port, call)`: a call of its own, whose reply is wanted at this port.
    Call(usize, Call),
    /// `From(i, message)`: a message from server i.
    From(u8, Peer),
    /// `Gone(j)`: the notice that server j has failed.
    Gone(u8),
}

/// What a server puts out.
#[derive(Clone, Debug, Drop)]
pub enum Output {
    /// `To(i, message)`: a message to server i.
    To(u8, Peer),
    /// `Reply(port, reply)`: the reply to a call, at its port.
    Reply(usize, Reply),
}

impl Body {
    ghost use Rattle.std.specs.Prelude.{◌↔◌, IsTrue};
    ghost use Rattle.node.specs.Lawful.{IsBody, IsSendable};

    /// Whether a node may be given it: an operation fits and suits its target, and a query's ask is at least 1.
    pub fn is_fit(&self) -> bool
        ensures fit { IsTrue result ↔ IsBody self.now }
    {
        match self {
            Body::Op(_, call) => call.op.fits() && call.op.suits(&call.target),
            Body::Query(ask, _) => *ask >= 1,
            Body::Forward(_) | Body::Ack(_) | Body::Answer(..) => true,
        }
    }

    /// Whether it may be sent: an operation has an id of at least 1 and is an update that fits and suits its target,
    /// and an ask is at least 1. An entry is one by its type.
    pub fn is_sendable(&self) -> bool
        ensures sendable { IsTrue result ↔ IsSendable self.now }
    {
        match self {
            Body::Op(id, call) => *id >= 1 && self.is_fit() && call.op.is_update(),
            Body::Forward(entry) => entry.number() >= 1,
            Body::Ack(_) => true,
            Body::Query(ask, _) | Body::Answer(ask, _) => *ask >= 1,
        }
    }
}

impl Input {
    ghost use Rattle.std.specs.Prelude.{◌↔◌, IsTrue};
    ghost use Rattle.node.specs.Lawful.{IsInput};

    /// Whether a node may be given it: a call's operation fits and suits its target, and a message's body is fit.
    pub fn is_fit(&self) -> bool
        ensures fit { IsTrue result ↔ IsInput self.now }
    {
        match self {
            Input::Call(_, call) => call.op.fits() && call.op.suits(&call.target),
            Input::From(_, peer) => peer.body.is_fit(),
            Input::Gone(_) => true,
        }
    }
}
