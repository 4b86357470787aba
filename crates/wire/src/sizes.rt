//! How many bytes frames have, so that there is room for all of them before the first is written.
ghost use Rattle.std.specs.Prelude.{◌≡◌, ◌+◌, ◌≤◌, ◌<◌, true, false, length};
ghost use Rattle.table.specs.Items.{limit};
ghost use Rattle.table.specs.Operations.{Fits, is_update, is_value};
ghost use Rattle.node.specs.Lawful.{IsSendable};
ghost use Rattle.wire.specs.Spellings.{IsInRange, body_spelling, change_spelling, op_spelling, reply_spelling};
ghost use Rattle.wire.specs.Spellings.{spelling, target_spelling};

use crate::Frame;
use node::Body;
use table::{Change, Op, Reply, Target};
use versions::Entry;

/// How many bytes a frame has.
pub fn size(frame: &Frame) -> usize
    requires range { IsInRange frame.now }
    ensures { result ≡ length (spelling frame.now) }
{
    match frame {
        Frame::Hello(_) | Frame::Gone(_) | Frame::Refused(_) | Frame::Noted(_) => 3,
        Frame::Peer(peer) => 4 + body_size(&peer.body),
        Frame::Introduction(opener) => 12 + opener.chain.bytes().len(),
        Frame::Accepted(_) => 12,
        Frame::Reign(_) => 10,
        Frame::Beat(_) => 18,
        Frame::Alive(_) => 38,
        Frame::Silent(_) => 11,
        Frame::Confirmed(_) => 10,
        Frame::Stalled(_) => 4,
    }
}

fn body_size(body: &Body) -> usize
    requires range { IsSendable body.now }
    ensures size { result ≡ length (body_spelling body.now) }
    ensures bound { result < 2000000 }
{
    match body {
        Body::Op(_, call) => 8 + target_size(&call.target) + op_size(&call.op),
        Body::Forward(entry) => {
            17 + target_size(entry.target()) + reply_size(entry.reply()) + change_size(entry)
        }
        Body::Ack(_) => 8,
        Body::Query(_, key) => 9 + key.bytes().len(),
        Body::Answer(..) => 16,
    }
}

fn target_size(target: &Target) -> usize
    ensures size { result ≡ length (target_spelling target.now) }
    ensures bound { result ≤ 251 }
{
    match target {
        Target::One(key) => 1 + key.bytes().len(),
        Target::All => 1,
    }
}

fn op_size(op: &Op) -> usize
    requires fits { Fits op.now }
    requires update { is_update op.now ≡ true }
    ensures size { result ≡ length (op_spelling op.now) }
    ensures bound { result ≤ 17 + limit }
{
    match op {
        Op::Set(_, bytes) | Op::Add(_, bytes) | Op::Replace(_, bytes) => 9 + bytes.len(),
        Op::Append(bytes) | Op::Prepend(bytes) => 5 + bytes.len(),
        Op::Cas(_, bytes, _) => 17 + bytes.len(),
        Op::Incr(_) | Op::Decr(_) => 9,
        Op::Delete | Op::Flush => 1,
        Op::Read => 0,
    }
}

fn reply_size(reply: &Reply) -> usize
    requires no_item { is_value reply.now ≡ false }
    ensures size { result ≡ length (reply_spelling reply.now) }
    ensures bound { result ≤ 9 }
{
    match reply {
        Reply::Number(_) => 9,
        Reply::Value(_) => 0,
        Reply::Stored
        | Reply::NotStored
        | Reply::Exists
        | Reply::NotFound
        | Reply::Deleted
        | Reply::TooLarge
        | Reply::NotNumber
        | Reply::Flushed => 1,
    }
}

fn change_size(entry: &Entry) -> usize
    ensures size { result ≡ length (change_spelling entry.now.change) }
    ensures bound { result ≤ 9 + limit }
{
    match entry.change() {
        Change::Put(item) => 9 + item.bytes().len(),
        Change::Keep | Change::Drop | Change::Clear => 1,
    }
}
