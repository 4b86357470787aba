//! The bytes of frames. There is room for all of a frame before its first byte is written, so that nothing is refused
//! halfway.
ghost use Rattle.std.specs.Prelude.{◌≡◌, ◌+◌, ◌≤◌, ◌++◌, ◌∷◌, [], false, length, IfOk, OnOk, OnErr, IsOkUnless};
ghost use Rattle.table.specs.Items.{limit};
ghost use Rattle.table.specs.Operations.{Fits, is_value};
ghost use Rattle.node.specs.Lawful.{IsSendable};
ghost use Rattle.wire.specs.Spellings.{IsFrame, IsInRange, acceptance_spelling, alive_spelling, beat_spelling};
ghost use Rattle.wire.specs.Spellings.{block_spelling, body_spelling, change_spelling, code_of, eight_bytes};
ghost use Rattle.wire.specs.Spellings.{entry_spelling, four_bytes, introduction_spelling, key_spelling, kind_of};
ghost use Rattle.wire.specs.Spellings.{op_spelling, reply_spelling, silent_spelling, spelling, target_spelling};
ghost use Rattle.wire.specs.Spellings.{two_bytes};

use crate::frames::FORMAT;
use crate::ranges::hold_ranges;
use crate::sizes::size;
use crate::{Acceptance, Alive, Beat, Frame, Introduction, Reason, Silent, WireFault};
use bytes::BytesMut;
use node::Body;
use std::alloc::Global;
use table::{Change, Key, Op, Reply, SharedBytes, Target};
use versions::Entry;

/// The one spelling of a frame in its ranges (docs/FORMATS.md, "Peer messages"; this project's rule), from which it is
/// read again. Memory is its only refusal. An item's data is copied once.
pub fn encode(alloc: Global, frame: &Frame) -> Result<Vec<u8>, WireFault>
    requires range { IsInRange frame.now }
    ensures spelling { IfOk result (λ bytes. bytes.items ≡ spelling frame.now) }
    ensures frame { IsFrame frame.now }
    ensures only_memory { IsOkUnless result WireFault.Memory }
{
    let mut out = BytesMut::new(alloc);
    encode_onto(&mut out, frame)?;
    Ok(out.into_vec()?)
}

/// Writes that spelling after a buffer's bytes, with one growth at most. Memory is its only refusal, and leaves the
/// bytes as they were.
pub fn encode_onto(out: &mut BytesMut, frame: &Frame) -> Result<(), WireFault>
    requires range { IsInRange frame.now }
    ensures ok { OnOk result (out.new.items ≡ out.old.items ++ spelling frame.now) }
    ensures frame { IsFrame frame.now }
    ensures only_memory { IsOkUnless result WireFault.Memory }
    ensures err { OnErr result (out.new.items ≡ out.old.items) }
{
    hold_ranges(frame);
    out.reserve(size(frame))?;
    put(out, frame);
    Ok(())
}

// Writes a frame.
fn put(out: &mut BytesMut, frame: &Frame)
    requires range { IsInRange frame.now }
    requires room { length (spelling frame.now) ≤ out.old.spare }
    ensures { out.new.items ≡ out.old.items ++ spelling frame.now }
{
    match frame {
        Frame::Hello(id) => put_short(out, 0, *id),
        Frame::Peer(peer) => {
            put_head(out, kind_of(&peer.body));
            out.extend_reserved(&peer.view.bits().to_be_bytes());
            put_body(out, &peer.body);
        }
        Frame::Gone(id) => put_short(out, 6, *id),
        Frame::Introduction(opener) => {
            put_head(out, 7);
            put_introduction(out, opener);
        }
        Frame::Accepted(answer) => {
            put_head(out, 8);
            put_acceptance(out, answer);
        }
        Frame::Refused(reason) => put_short(out, 9, code_of(*reason)),
        Frame::Noted(id) => put_short(out, 10, *id),
        Frame::Reign(epoch) => {
            put_head(out, 11);
            put_epoch(out, *epoch);
        }
        Frame::Beat(beat) => {
            put_head(out, 12);
            put_beat(out, beat);
        }
        Frame::Alive(alive) => {
            put_head(out, 13);
            put_alive(out, alive);
        }
        Frame::Silent(silent) => {
            put_head(out, 14);
            put_silent(out, silent);
        }
        Frame::Confirmed(count) => {
            put_head(out, 15);
            put_count(out, *count);
        }
        Frame::Stalled(servers) => {
            put_head(out, 16);
            put_servers(out, *servers);
        }
    }
}

// The format and a kind.
fn put_head(out: &mut BytesMut, kind: u8)
    requires room { 2 ≤ out.old.spare }
    ensures text { out.new.items ≡ out.old.items ++ 2 ∷ kind ∷ [] }
    ensures room { out.new.spare + 2 ≡ out.old.spare }
{
    out.extend_reserved(&[FORMAT, kind]);
}

// A frame of three bytes: the format, a kind and a value.
fn put_short(out: &mut BytesMut, kind: u8, value: u8)
    requires room { 3 ≤ out.old.spare }
    ensures { out.new.items ≡ out.old.items ++ 2 ∷ kind ∷ value ∷ [] }
{
    out.extend_reserved(&[FORMAT, kind, value]);
}

fn put_introduction(out: &mut BytesMut, opener: &Introduction)
    requires room { length (introduction_spelling opener.now) ≤ out.old.spare }
    ensures { out.new.items ≡ out.old.items ++ introduction_spelling opener.now }
{
    out.extend_reserved(&[opener.servers]);
    out.extend_reserved(&opener.start.to_be_bytes());
    put_key(out, &opener.chain);
}

fn put_acceptance(out: &mut BytesMut, answer: &Acceptance)
    requires room { 10 ≤ out.old.spare }
    ensures { out.new.items ≡ out.old.items ++ acceptance_spelling answer.now }
{
    out.extend_reserved(&answer.start.to_be_bytes());
    out.extend_reserved(&answer.gone.to_be_bytes());
}

fn put_epoch(out: &mut BytesMut, epoch: u64)
    requires room { 8 ≤ out.old.spare }
    ensures { out.new.items ≡ out.old.items ++ eight_bytes epoch }
{
    out.extend_reserved(&epoch.to_be_bytes());
}

fn put_beat(out: &mut BytesMut, beat: &Beat)
    requires room { 16 ≤ out.old.spare }
    ensures { out.new.items ≡ out.old.items ++ beat_spelling beat.now }
{
    out.extend_reserved(&beat.epoch.to_be_bytes());
    out.extend_reserved(&beat.stamp.to_be_bytes());
}

fn put_alive(out: &mut BytesMut, alive: &Alive)
    requires room { 36 ≤ out.old.spare }
    ensures { out.new.items ≡ out.old.items ++ alive_spelling alive.now }
{
    out.extend_reserved(&alive.epoch.to_be_bytes());
    out.extend_reserved(&alive.stamp.to_be_bytes());
    out.extend_reserved(&alive.end.to_be_bytes());
    out.extend_reserved(&alive.term.to_be_bytes());
    out.extend_reserved(&alive.gone.to_be_bytes());
    out.extend_reserved(&alive.known.to_be_bytes());
}

fn put_silent(out: &mut BytesMut, silent: &Silent)
    requires room { 9 ≤ out.old.spare }
    ensures { out.new.items ≡ out.old.items ++ silent_spelling silent.now }
{
    out.extend_reserved(&silent.epoch.to_be_bytes());
    out.extend_reserved(&[silent.id]);
}

fn put_count(out: &mut BytesMut, count: u64)
    requires room { 8 ≤ out.old.spare }
    ensures { out.new.items ≡ out.old.items ++ eight_bytes count }
{
    out.extend_reserved(&count.to_be_bytes());
}

fn put_servers(out: &mut BytesMut, servers: u16)
    requires room { 2 ≤ out.old.spare }
    ensures { out.new.items ≡ out.old.items ++ two_bytes servers }
{
    out.extend_reserved(&servers.to_be_bytes());
}

fn code_of(reason: Reason) -> u8
    ensures { result ≡ code_of reason }
{
    match reason {
        Reason::Servers => 1,
        Reason::Chain => 2,
        Reason::Taken => 3,
        Reason::Gone => 4,
        Reason::Format => 5,
    }
}

fn kind_of(body: &Body) -> u8
    ensures { result ≡ kind_of body.now }
{
    match body {
        Body::Op(..) => 1,
        Body::Forward(_) => 2,
        Body::Ack(_) => 3,
        Body::Query(..) => 4,
        Body::Answer(..) => 5,
    }
}

fn put_body(out: &mut BytesMut, body: &Body)
    requires range { IsSendable body.now }
    requires room { length (body_spelling body.now) ≤ out.old.spare }
    ensures { out.new.items ≡ out.old.items ++ body_spelling body.now }
{
    match body {
        Body::Op(id, call) => {
            out.extend_reserved(&id.to_be_bytes());
            put_target(out, &call.target);
            put_op(out, &call.op);
        }
        Body::Forward(entry) => put_entry(out, entry),
        Body::Ack(n) => out.extend_reserved(&n.to_be_bytes()),
        Body::Query(ask, key) => {
            out.extend_reserved(&ask.to_be_bytes());
            put_key(out, key);
        }
        Body::Answer(ask, n) => {
            out.extend_reserved(&ask.to_be_bytes());
            out.extend_reserved(&n.to_be_bytes());
        }
    }
}

fn put_entry(out: &mut BytesMut, entry: &Entry)
    requires room { length (entry_spelling entry.now) ≤ out.old.spare }
    ensures { out.new.items ≡ out.old.items ++ entry_spelling entry.now }
{
    out.extend_reserved(&entry.number().to_be_bytes());
    out.extend_reserved(&[entry.origin()]);
    out.extend_reserved(&entry.id().to_be_bytes());
    put_target(out, entry.target());
    put_reply(out, entry.reply());
    put_change(out, entry);
}

fn put_target(out: &mut BytesMut, target: &Target)
    requires room { length (target_spelling target.now) ≤ out.old.spare }
    ensures text { out.new.items ≡ out.old.items ++ target_spelling target.now }
    ensures room { out.new.spare + length (target_spelling target.now) ≡ out.old.spare }
{
    match target {
        Target::One(key) => put_key(out, key),
        Target::All => put_code(out, 0),
    }
}

fn put_key(out: &mut BytesMut, key: &Key)
    requires room { length (key_spelling key.now) ≤ out.old.spare }
    ensures text { out.new.items ≡ out.old.items ++ key_spelling key.now }
    ensures room { out.new.spare + length (key_spelling key.now) ≡ out.old.spare }
{
    let bytes = key.bytes();
    out.extend_reserved(&[bytes.len() as u8]);
    out.extend_reserved(bytes);
}

fn put_op(out: &mut BytesMut, op: &Op)
    requires fits { Fits op.now }
    requires room { length (op_spelling op.now) ≤ out.old.spare }
    ensures { out.new.items ≡ out.old.items ++ op_spelling op.now }
{
    match op {
        Op::Read => {}
        Op::Set(flags, bytes) => put_flagged(out, 1, *flags, bytes),
        Op::Add(flags, bytes) => put_flagged(out, 2, *flags, bytes),
        Op::Replace(flags, bytes) => put_flagged(out, 3, *flags, bytes),
        Op::Append(bytes) => {
            put_code(out, 4);
            put_block(out, bytes);
        }
        Op::Prepend(bytes) => {
            put_code(out, 5);
            put_block(out, bytes);
        }
        Op::Cas(flags, bytes, unique) => {
            put_code(out, 6);
            out.extend_reserved(&flags.to_be_bytes());
            out.extend_reserved(&unique.to_be_bytes());
            put_block(out, bytes);
        }
        Op::Incr(amount) => put_number(out, 7, *amount),
        Op::Decr(amount) => put_number(out, 8, *amount),
        Op::Delete => put_code(out, 9),
        Op::Flush => put_code(out, 10),
    }
}

// A code alone.
fn put_code(out: &mut BytesMut, code: u8)
    requires room { 1 ≤ out.old.spare }
    ensures text { out.new.items ≡ out.old.items ++ code ∷ [] }
    ensures room { out.new.spare + 1 ≡ out.old.spare }
{
    out.extend_reserved(&[code]);
}

// A code, flags and data.
fn put_flagged(out: &mut BytesMut, code: u8, flags: u32, bytes: &SharedBytes)
    requires fits { length bytes.now ≤ limit }
    requires room { 9 + length bytes.now ≤ out.old.spare }
    ensures { out.new.items ≡ out.old.items ++ code ∷ (four_bytes flags ++ block_spelling bytes.now) }
{
    put_code(out, code);
    out.extend_reserved(&flags.to_be_bytes());
    put_block(out, bytes);
}

// A length, and the bytes.
fn put_block(out: &mut BytesMut, bytes: &SharedBytes)
    requires fits { length bytes.now ≤ limit }
    requires room { 4 + length bytes.now ≤ out.old.spare }
    ensures { out.new.items ≡ out.old.items ++ block_spelling bytes.now }
{
    out.extend_reserved(&(bytes.len() as u32).to_be_bytes());
    out.extend_reserved(bytes.as_slice());
}

// A code and a number.
fn put_number(out: &mut BytesMut, code: u8, n: u64)
    requires room { 9 ≤ out.old.spare }
    ensures text { out.new.items ≡ out.old.items ++ code ∷ eight_bytes n }
    ensures room { out.new.spare + 9 ≡ out.old.spare }
{
    put_code(out, code);
    out.extend_reserved(&n.to_be_bytes());
}

fn put_reply(out: &mut BytesMut, reply: &Reply)
    requires no_item { is_value reply.now ≡ false }
    requires room { length (reply_spelling reply.now) ≤ out.old.spare }
    ensures text { out.new.items ≡ out.old.items ++ reply_spelling reply.now }
    ensures room { out.new.spare + length (reply_spelling reply.now) ≡ out.old.spare }
{
    match reply {
        Reply::Stored => put_code(out, 1),
        Reply::NotStored => put_code(out, 2),
        Reply::Exists => put_code(out, 3),
        Reply::NotFound => put_code(out, 4),
        Reply::Deleted => put_code(out, 5),
        Reply::Number(n) => put_number(out, 6, *n),
        Reply::Value(_) => {}
        Reply::TooLarge => put_code(out, 8),
        Reply::NotNumber => put_code(out, 9),
        Reply::Flushed => put_code(out, 10),
    }
}

fn put_change(out: &mut BytesMut, entry: &Entry)
    requires room { length (change_spelling entry.now.change) ≤ out.old.spare }
    ensures { out.new.items ≡ out.old.items ++ change_spelling entry.now.change }
{
    match entry.change() {
        Change::Keep => put_code(out, 0),
        Change::Put(item) => put_flagged(out, 1, item.flags(), item.bytes()),
        Change::Drop => put_code(out, 2),
        Change::Clear => put_code(out, 3),
    }
}
