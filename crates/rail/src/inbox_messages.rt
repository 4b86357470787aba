//! What a worker is sent.
ghost use Rattle.std.specs.Prelude.{◌≡◌};
ghost use Rattle.node.specs.Lawful.{IsInput, HoldsEntry};

use node::{Body, Input};
use std::marker::Model;

// An entry that comes with an input is one, as its type keeps.
fn hold_entry(input: &Input)
    ensures { HoldsEntry input.now }
{
    if let Input::From(_, peer) = input {
        if let Body::Forward(entry) = &peer.body {
            let _number = entry.number();
        }
    }
}

/// An input that a node may be given.
#[derive(Drop)]
pub struct FitInput {
    input: Input,
}

impl Model for FitInput {
    ghost use Rattle.node.specs.declared.messages.Input.{Input};
    ghost use Rattle.node.specs.Lawful.{IsInput, HoldsEntry};

    ghost Value = { Input };

    ghost view = { λ i. i.input };

    ghost invariant = { λ i. IsInput i.input × HoldsEntry i.input };
}

impl FitInput {
    pub(crate) fn new(input: Input) -> FitInput
        requires { IsInput input }
        ensures { result ≡ input }
    {
        hold_entry(&input);
        FitInput { input }
    }

    pub(crate) fn into_input(self) -> Input
        ensures { (result ≡ self) × IsInput self × HoldsEntry self }
    {
        self.input
    }
}

/// What a worker is sent.
#[derive(Drop)]
pub enum InboxMessage {
    /// An input for the node.
    Took(FitInput),
    /// The server fails.
    Stop,
    /// The worker's loop ends.
    End,
}

/// An inbox message with the number of its sender.
#[derive(Drop)]
pub struct Envelope {
    pub from: u64,
    pub inbox_message: InboxMessage,
}
