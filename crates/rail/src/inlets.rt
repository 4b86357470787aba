//! Inlets, by which a worker is brought other servers' messages, and told of failures.
ghost use Rattle.std.specs.Prelude.{◌≡◌, OnOk, OnErr, IfErr};
ghost use Rattle.crossbeam_channel.specs.Claims.{view};
ghost use Rattle.node.specs.Lawful.{IsBody};
ghost use Rattle.node.specs.declared.messages.Input.TheVariants.{From, Gone};
ghost use Rattle.rail.specs.InboxMessages.{IsBelow};
ghost use Rattle.rail.specs.Inlets.{inlet_of, with_inbox_message};
ghost use Rattle.rail.specs.declared.inbox_messages.InboxMessage.TheVariants.{Took, Stop, End};

use crate::RailFault;
use crate::inbox::SenderWithPass;
use crate::inbox_messages::{FitInput, InboxMessage};
use node::{Input, Peer};
use std::marker::Model;
use std::sync::Wait;

/// One who brings a server messages and notices. Contracts see to which inbox it leads, its number among the senders
/// there, and what it sent (`InletState`).
#[derive(Drop)]
pub struct Inlet {
    inbox_sender: SenderWithPass,
}

impl Model for Inlet {
    ghost use Rattle.std.specs.Prelude.{◌≡◌};
    ghost use Rattle.std.specs.Coded.{codes};
    ghost use Rattle.atomic_table.specs.Seated.{table_id_coded};
    ghost use Rattle.crossbeam_channel.specs.Claims as claims;
    ghost use Rattle.rail.specs.Inlets.{InletState, inlet_of};

    ghost Value = { InletState };

    ghost coded = { Prim.hlevel (codes, table_id_coded) };

    ghost view = { λ i. inlet_of i.inbox_sender.pass.table_id (claims.view i.inbox_sender.pass) };

    ghost invariant = { λ i. (claims.view i.inbox_sender.pass).ports ≡ 0 };
}

impl Inlet {
    pub(crate) fn new(inbox_sender: SenderWithPass) -> Inlet
        requires { (view inbox_sender.pass).ports ≡ 0 }
        ensures { result ≡ inlet_of inbox_sender.pass.table_id (view inbox_sender.pass) }
    {
        Inlet { inbox_sender }
    }

    /// Brings a message from server `i`. Refused with Closed if the worker is gone. It may wait, as may the others.
    pub fn bring<R: Wait>(&mut self, rt: &R, i: u8, peer: Peer) -> Result<(), RailFault>
        requires { IsBody peer.body }
        ensures ok { OnOk result (self.new ≡ with_inbox_message self.old (Took (From i peer))) }
        ensures err { OnErr result (self.new ≡ self.old) }
        ensures fault { IfErr result (λ fault. fault ≡ RailFault.Closed) }
    {
        self.send(rt, InboxMessage::Took(FitInput::new(Input::From(i, peer))))
    }

    /// Brings the notice that server `j` has failed. Refused with Closed if the worker is gone.
    pub fn gone<R: Wait>(&mut self, rt: &R, j: u8) -> Result<(), RailFault>
        ensures ok { OnOk result (self.new ≡ with_inbox_message self.old (Took (Gone j))) }
        ensures err { OnErr result (self.new ≡ self.old) }
        ensures fault { IfErr result (λ fault. fault ≡ RailFault.Closed) }
    {
        self.send(rt, InboxMessage::Took(FitInput::new(Input::Gone(j))))
    }

    /// Fails the server: from then on its worker puts out nothing, and each seat that waits there gets Closed. Refused
    /// with Closed if the worker is gone.
    pub fn stop<R: Wait>(&mut self, rt: &R) -> Result<(), RailFault>
        ensures ok { OnOk result (self.new ≡ with_inbox_message self.old Stop) }
        ensures err { OnErr result (self.new ≡ self.old) }
        ensures fault { IfErr result (λ fault. fault ≡ RailFault.Closed) }
    {
        self.send(rt, InboxMessage::Stop)
    }

    /// Ends the worker's loop. Refused with Closed if the worker is gone.
    pub fn end<R: Wait>(&mut self, rt: &R) -> Result<(), RailFault>
        ensures ok { OnOk result (self.new ≡ with_inbox_message self.old End) }
        ensures err { OnErr result (self.new ≡ self.old) }
        ensures fault { IfErr result (λ fault. fault ≡ RailFault.Closed) }
    {
        self.send(rt, InboxMessage::End)
    }

    fn send<R: Wait>(&mut self, rt: &R, inbox_message: InboxMessage) -> Result<(), RailFault>
        requires { IsBelow 0 inbox_message }
        ensures ok { OnOk result (self.new ≡ with_inbox_message self.old inbox_message) }
        ensures err { OnErr result (self.new ≡ self.old) }
        ensures fault { IfErr result (λ fault. fault ≡ RailFault.Closed) }
    {
        match self.inbox_sender.send(rt, inbox_message) {
            Ok(()) => Ok(()),
            Err(inbox_message) => {
                drop(inbox_message);
                Err(RailFault::Closed)
            }
        }
    }
}
