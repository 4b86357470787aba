//! What a server that goes on does with an input.
ghost use Rattle.std.specs.Prelude.{◌≡◌, [], ◌∷◌, length, true, OnOk, OnErr};
ghost use Rattle.node.specs.Lawful.{IsInput, IsLawful, HoldsEntry};
ghost use Rattle.node.specs.Replies.{AreCallsBelow, AreOpenBelow};
ghost use Rattle.faces.specs.Histories.{server_after, with_next};
ghost use Rattle.rail.specs.Links.{HaveCarried};
ghost use Rattle.rail.specs.Turns.{AreReplySenders, HasPut, HasReplied, IsCut, messages_of, outputs_after};

use crate::links::Links;
use crate::outputs::{put_messages, put_replies};
use crate::port_sets::PortSet;
use crate::reply_channels::ReplySender;
use faces::{Publisher, Told};
use node::Input;
use std::alloc::AllocError;
use std::sync::Wait;

/// The node makes its step, the face after it is published, and only then its messages are put, and its replies.
/// Refused if memory is out; the publisher is to be ended then. It adds the replies' ports to those that were replied
/// to.
#[tactic(auto, using(crate::proofs::Carrying::carried_none))]
pub fn advance<R: Wait, L: Links>(
    rt: &R,
    publisher: &mut Publisher,
    told: &mut Told,
    reply_senders: &mut Vec<ReplySender>,
    replied: &mut PortSet,
    links: &mut L,
    input: Input,
) -> Result<(), AllocError>
    requires input { IsInput input × HoldsEntry input }
    requires told { told.old ≡ publisher.old.published }
    requires reply_senders { AreReplySenders publisher.old.published.instance 0 reply_senders.old.items }
    requires calls { AreCallsBelow (length reply_senders.old.items) (input ∷ []) }
    requires lawful { IsLawful (server_after publisher.old.published) }
    requires open { AreOpenBelow (length reply_senders.old.items) (server_after publisher.old.published) }
    ensures goes { OnOk result (publisher.new.goes ≡ true) }
    ensures next { OnOk result ((publisher.new.published ≡ with_next publisher.old.published input)
        × (told.new ≡ publisher.new.published)) }
    ensures messages { OnOk result
        (HasPut (L.state links.old) (L.state links.new) (messages_of (outputs_after publisher.new.published))) }
    ensures replies { OnOk result
        (HasReplied publisher.new.published 0 reply_senders.old.items reply_senders.new.items
        (outputs_after publisher.new.published)) }
    ensures cut { OnErr result
        (IsCut (L.state links.old) (L.state links.new) publisher.old.published told.new input) }
    // Whatever the answer.
    ensures carried { HaveCarried (L.state links.old) (L.state links.new) }
    ensures unreplied { OnErr result (reply_senders.new.items ≡ reply_senders.old.items) }
{
    let Ok(mut outputs) = publisher.take(rt, input) else {
        return Err(AllocError);
    };
    *told = publisher.published().tell();
    if put_messages(links, publisher.published(), &mut outputs).is_err() {
        return Err(AllocError);
    }
    put_replies(rt, reply_senders, replied, publisher.published(), outputs);
    Ok(())
}
