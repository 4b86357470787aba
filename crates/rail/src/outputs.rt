//! What a worker puts out for an input that was published.
ghost use Rattle.std.specs.Prelude.{◌≡◌, ◌<◌, ◌++◌, ◌∷◌, [], length, map, OnOk, OnErr, IfErr, MatchOption};
ghost use Rattle.node.specs.declared.messages.Output.{Output};
ghost use Rattle.node.specs.declared.messages.Output.TheVariants.{To, Reply as Replied};
ghost use Rattle.node.specs.Lawful.{IsFit, AreFit};
ghost use Rattle.faces.specs.Outputs.{PutsOut, last_outputs};
ghost use Rattle.node.specs.Replies.{AreRepliesBelow};
ghost use Rattle.faces.specs.Histories.{History};
ghost use Rattle.rail.specs.Links.{HaveCarried};
ghost use Rattle.rail.specs.Spent.{ArePutOut, spent};
ghost use Rattle.rail.specs.Turns.{AreClosed, AreReplySenders, HasPut, HasPutFirst, HasReplied, messages_of};

use crate::RailFault;
use crate::links::Links;
use crate::port_sets::PortSet;
use crate::reply_channels::ReplySender;
use crate::reply_messages::ReplyMessage;
use faces::Published;
use node::{Body, Output, Peer};
use std::mem;
use std::sync::Wait;
use table::Reply;

/// Puts the messages among these, in order, save those on links that have failed. They are taken out: acknowledgements
/// of nothing stand in their places then. Refused only if memory is out.
pub fn put_messages<L: Links>(
    links: &mut L,
    published: &Published,
    outputs: &mut Vec<Output>,
) -> Result<(), RailFault>
    requires step { outputs.old.items ≡ last_outputs published.now.instance.start published.now.inputs }
    requires fit { AreFit outputs.old.items }
    ensures ok { OnOk result (HasPut (L.state links.old) (L.state links.new) (messages_of outputs.old.items)) }
    // Some of the first ones were put.
    ensures err { OnErr result (HasPutFirst (L.state links.old) (L.state links.new) outputs.old.items) }
    ensures replies { OnOk result (outputs.new.items ≡ map spent outputs.old.items) }
    ensures carried { HaveCarried (L.state links.old) (L.state links.new) }
    ensures fault { IfErr result (λ fault. fault ≡ RailFault.Memory) }
{
    for k in 0..outputs.len() {
        if let Some(message) = take_message(&mut outputs[k]) {
            put_message(links, published, message.to, message.peer)?;
        }
    }
    Ok(())
}

// A message, and the server that it goes to.
#[derive(Drop)]
struct Message {
    to: u8,
    peer: Peer,
}

// Takes the message out of an output, if it is one.
fn take_message(output: &mut Output) -> Option<Message>
    ensures message { MatchOption result (messages_of (output.old ∷ []) ≡ [])
        (λ message. output.old ≡ To message.to message.peer) }
    ensures spent { output.new ≡ spent output.old }
{
    match output {
        Output::To(to, peer) => {
            let view = peer.view;
            let body = mem::replace(&mut peer.body, Body::Ack(0));
            Some(Message {
                to: *to,
                peer: Peer { view, body },
            })
        }
        Output::Reply(..) => None,
    }
}

// Puts a message, unless its link has failed.
fn put_message<L: Links>(
    links: &mut L,
    published: &Published,
    to: u8,
    peer: Peer,
) -> Result<(), RailFault>
    requires step { PutsOut published.now (To to peer) }
    requires fit { IsFit (To to peer) }
    ensures ok { OnOk result (HasPut (L.state links.old) (L.state links.new) ((to, peer) ∷ [])) }
    ensures err { OnErr result ((L.state links.new).list ≡ (L.state links.old).list) }
    ensures carried { HaveCarried (L.state links.old) (L.state links.new) }
    ensures fault { IfErr result (λ fault. fault ≡ RailFault.Memory) }
{
    if links.failed(to) {
        drop(peer);
        return Ok(());
    }
    match links.put(published, to, peer) {
        Ok(()) => Ok(()),
        Err(RailFault::LinkDown) => Ok(()),
        Err(fault) => Err(fault),
    }
}

/// Puts the replies among these to their seats, in order, save those that a seat's queue hands back. It adds their
/// ports to those that were replied to.
pub fn put_replies<R: Wait>(
    rt: &R,
    reply_senders: &mut Vec<ReplySender>,
    replied: &mut PortSet,
    published: &Published,
    outputs: Vec<Output>,
)
    requires step { ArePutOut published.now outputs.items }
    requires ports { AreRepliesBelow (length reply_senders.old.items) outputs.items }
    requires reply_senders { AreReplySenders published.now.instance 0 reply_senders.old.items }
    ensures reply_senders { AreReplySenders published.now.instance 0 reply_senders.new.items }
    ensures put { HasReplied published.now 0 reply_senders.old.items reply_senders.new.items outputs.items }
{
    for output in outputs {
        put_if_reply(rt, reply_senders, replied, published, output);
    }
}

// Puts an output to its seat, if it is a reply.
fn put_if_reply<R: Wait>(
    rt: &R,
    reply_senders: &mut Vec<ReplySender>,
    replied: &mut PortSet,
    published: &Published,
    output: Output,
)
    requires step { ArePutOut published.now (output ∷ []) }
    requires port { AreRepliesBelow (length reply_senders.old.items) (output ∷ []) }
    requires reply_senders { AreReplySenders published.now.instance 0 reply_senders.old.items }
    ensures reply_senders { AreReplySenders published.now.instance 0 reply_senders.new.items }
    ensures put { HasReplied published.now 0 reply_senders.old.items reply_senders.new.items (output ∷ []) }
{
    match output {
        Output::Reply(port, reply) => {
            replied.add(port);
            put_reply(rt, reply_senders, published, port, reply)
        }
        Output::To(_, peer) => drop(peer),
    }
}

// Puts a reply to its seat.
fn put_reply<R: Wait>(
    rt: &R,
    reply_senders: &mut Vec<ReplySender>,
    published: &Published,
    port: usize,
    reply: Reply,
)
    requires step { PutsOut published.now (Replied port reply) }
    requires port { port < length reply_senders.old.items }
    requires reply_senders { AreReplySenders published.now.instance 0 reply_senders.old.items }
    ensures reply_senders { AreReplySenders published.now.instance 0 reply_senders.new.items }
    ensures put { HasReplied published.now 0 reply_senders.old.items reply_senders.new.items (Replied port reply ∷ []) }
{
    let reply_message = ReplyMessage::new(port, reply, published.tell());
    reply_senders[port].put(rt, reply_message);
}

/// Nothing is put to these seats from now on, and each that waits is told so. It adds their ports to those that were
/// replied to.
pub fn close_all(reply_senders: &mut Vec<ReplySender>, replied: &mut PortSet)
    ensures replies { (c : History) → HasReplied c 0 reply_senders.old.items reply_senders.new.items [] }
    ensures closed { AreClosed reply_senders.new.items }
{
    for k in 0..reply_senders.len() {
        reply_senders[k].close();
        replied.add(k);
    }
}
