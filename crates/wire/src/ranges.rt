//! A frame in its ranges is one that the format spells: its fields' types keep all other ranges. Nothing is done here.
ghost use Rattle.std.specs.Prelude.{◌<◌, ◌^◌};
ghost use Rattle.table.specs.Keys.{IsKey};
ghost use Rattle.node.specs.Lawful.{IsSendable};
ghost use Rattle.wire.specs.Spellings.{HasChangeWidth, HasReplyWidth, HasWidths, IsAlive, IsBody, IsFrame, IsInRange};
ghost use Rattle.wire.specs.Spellings.{IsTarget, IsWireEntry};

use crate::{Alive, Frame};
use node::Body;
use table::{Change, Key, Op, Reply, Target};
use versions::Entry;

/// A frame in its ranges is one that the format spells.
pub fn hold_ranges(frame: &Frame)
    requires range { IsInRange frame.now }
    ensures { IsFrame frame.now }
{
    match frame {
        Frame::Hello(_) | Frame::Gone(_) | Frame::Refused(_) | Frame::Noted(_) => {}
        Frame::Peer(peer) => {
            hold_view(peer.view.bits());
            hold_body(&peer.body);
        }
        Frame::Introduction(opener) => {
            hold_number(opener.start);
            hold_key(&opener.chain);
        }
        Frame::Accepted(answer) => {
            hold_number(answer.start);
            hold_view(answer.gone);
        }
        Frame::Reign(epoch) => hold_number(*epoch),
        Frame::Beat(beat) => {
            hold_number(beat.epoch);
            hold_number(beat.stamp);
        }
        Frame::Alive(alive) => hold_alive(alive),
        Frame::Silent(silent) => hold_number(silent.epoch),
        Frame::Confirmed(count) => hold_number(*count),
        Frame::Stalled(servers) => hold_view(*servers),
    }
}

fn hold_alive(alive: &Alive)
    ensures { IsAlive alive.now }
{
    hold_number(alive.epoch);
    hold_number(alive.stamp);
    hold_number(alive.end);
    hold_number(alive.term);
    hold_view(alive.gone);
    hold_view(alive.known);
}

fn hold_body(body: &Body)
    requires range { IsSendable body.now }
    ensures { IsBody body.now }
{
    match body {
        Body::Op(id, call) => {
            hold_number(*id);
            hold_target(&call.target);
            hold_op(&call.op);
        }
        Body::Forward(entry) => hold_entry(entry),
        Body::Ack(n) => hold_number(*n),
        Body::Query(ask, key) => {
            hold_number(*ask);
            hold_key(key);
        }
        Body::Answer(ask, n) => {
            hold_number(*ask);
            hold_number(*n);
        }
    }
}

fn hold_target(target: &Target)
    ensures { IsTarget target.now }
{
    match target {
        Target::One(key) => hold_key(key),
        Target::All => {}
    }
}

fn hold_key(key: &Key)
    ensures { IsKey key.now }
{
    key.bytes();
}

fn hold_op(op: &Op)
    ensures { HasWidths op.now }
{
    match op {
        Op::Set(flags, _) | Op::Add(flags, _) | Op::Replace(flags, _) => hold_flags(*flags),
        Op::Cas(flags, _, unique) => {
            hold_flags(*flags);
            hold_number(*unique);
        }
        Op::Incr(amount) | Op::Decr(amount) => hold_number(*amount),
        Op::Read | Op::Append(_) | Op::Prepend(_) | Op::Delete | Op::Flush => {}
    }
}

fn hold_entry(entry: &Entry)
    ensures { IsWireEntry entry.now }
{
    hold_number(entry.number());
    hold_number(entry.id());
    hold_target(entry.target());
    hold_reply(entry.reply());
    hold_change(entry.change());
}

fn hold_reply(reply: &Reply)
    ensures { HasReplyWidth reply.now }
{
    if let Reply::Number(n) = reply {
        hold_number(*n);
    }
}

fn hold_change(change: &Change)
    ensures { HasChangeWidth change.now }
{
    if let Change::Put(item) = change {
        hold_flags(item.flags());
    }
}

fn hold_view(bits: u16)
    ensures { bits < 2 ^ 16 }
{}

fn hold_flags(flags: u32)
    ensures { flags < 2 ^ 32 }
{}

fn hold_number(n: u64)
    ensures { n < 2 ^ 64 }
{}
