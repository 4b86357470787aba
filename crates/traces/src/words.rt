//! Words for calls, replies, entries, messages and views.
ghost use Rattle.std.specs.Prelude.{◌≡◌, ◌<◌, ◌≤◌, ◌++◌, OnOk};
ghost use Rattle.traces.specs.Words.{aim_text, asked_text, body_text, call_text, change_text, data_text, details_text};
ghost use Rattle.traces.specs.Words.{entry_text, item_text, knowing_text, known_text, message_text, name_of, named};
ghost use Rattle.traces.specs.Words.{names_below, neighbour_text, reply_text, spelled, status_of, target_text};
ghost use Rattle.traces.specs.Words.{value_text, view_text};

use crate::texts::Text;
use node::{Body, Peer, SERVERS, View};
use std::alloc::AllocError;
use table::{Call, Change, Item, Key, Op, Reply, SharedBytes, Target};
use versions::Entry;

/// A call: its name, its key, and what it has besides, the data last.
#[tactic(auto, unfolding(crate::specs::Words::call_text))]
pub fn put_call(text: &mut Text, call: &Call) -> Result<(), AllocError>
    ensures { OnOk result (text.new ≡ text.old ++ call_text call.now) }
{
    text.put(name_of(&call.op))?;
    put_aim(text, &call.target)?;
    put_details(text, &call.op)
}

fn name_of(op: &Op) -> &'static [u8]
    ensures { result.now ≡ name_of op.now }
{
    match op {
        Op::Read => b"get",
        Op::Set(..) => b"set",
        Op::Add(..) => b"add",
        Op::Replace(..) => b"replace",
        Op::Append(_) => b"append",
        Op::Prepend(_) => b"prepend",
        Op::Cas(..) => b"cas",
        Op::Incr(_) => b"incr",
        Op::Decr(_) => b"decr",
        Op::Delete => b"delete",
        Op::Flush => b"flush_all",
    }
}

// The key that a call is on, if it is on one.
fn put_aim(text: &mut Text, target: &Target) -> Result<(), AllocError>
    ensures { OnOk result (text.new ≡ text.old ++ aim_text target.now) }
{
    match target {
        Target::One(key) => put_key(text, b" ", key),
        Target::All => Ok(()),
    }
}

fn put_details(text: &mut Text, op: &Op) -> Result<(), AllocError>
    ensures { OnOk result (text.new ≡ text.old ++ details_text op.now) }
{
    match op {
        Op::Set(flags, data) | Op::Add(flags, data) | Op::Replace(flags, data) => {
            put_data(text, *flags, data)
        }
        Op::Cas(flags, data, unique) => {
            text.labelled(b" unique ", *unique)?;
            put_data(text, *flags, data)
        }
        Op::Append(data) | Op::Prepend(data) => text.spelled(b" data ", data.as_slice()),
        Op::Incr(amount) | Op::Decr(amount) => text.labelled(b" ", *amount),
        Op::Read | Op::Delete | Op::Flush => Ok(()),
    }
}

fn put_data(text: &mut Text, flags: u32, bytes: &SharedBytes) -> Result<(), AllocError>
    ensures { OnOk result (text.new ≡ text.old ++ data_text flags bytes.now) }
{
    text.labelled(b" flags ", u64::from(flags))?;
    text.spelled(b" data ", bytes.as_slice())
}

fn put_item(text: &mut Text, item: &Item) -> Result<(), AllocError>
    ensures { OnOk result (text.new ≡ text.old ++ item_text item.now) }
{
    text.labelled(b" unique ", item.unique())?;
    put_data(text, item.flags(), item.bytes())
}

/// A reply.
#[tactic(auto, unfolding(crate::specs::Words::reply_text))]
pub fn put_reply(text: &mut Text, reply: &Reply) -> Result<(), AllocError>
    ensures { OnOk result (text.new ≡ text.old ++ reply_text reply.now) }
{
    match reply {
        Reply::Number(number) => text.labelled(b"number ", *number),
        Reply::Value(Some(item)) => {
            text.put(b"item")?;
            put_item(text, item)
        }
        other => text.put(status_of(other)),
    }
}

fn status_of(reply: &Reply) -> &'static [u8]
    ensures { result.now ≡ status_of reply.now }
{
    match reply {
        Reply::Stored => b"stored",
        Reply::NotStored => b"not stored",
        Reply::Exists => b"exists",
        Reply::NotFound => b"not found",
        Reply::Deleted => b"deleted",
        Reply::Number(_) => b"number",
        Reply::Value(_) => b"no item",
        Reply::TooLarge => b"too large",
        Reply::NotNumber => b"not a number",
        Reply::Flushed => b"flushed",
    }
}

/// The value that a picture shows at a reply: an item's data, a number, or a word.
pub fn put_value(text: &mut Text, reply: &Reply) -> Result<(), AllocError>
    ensures { OnOk result (text.new ≡ text.old ++ value_text reply.now) }
{
    match reply {
        Reply::Number(number) => text.number(*number),
        Reply::Value(Some(item)) => text.escaped(item.bytes().as_slice()),
        other => text.put(status_of(other)),
    }
}

/// An entry: its number, what it was on, whose call it was, what that is answered, and its change, the data last.
#[tactic(auto, unfolding(crate::specs::Words::entry_text))]
pub fn put_entry(text: &mut Text, entry: &Entry) -> Result<(), AllocError>
    ensures { OnOk result (text.new ≡ text.old ++ entry_text entry.now) }
{
    put_asked(text, entry)?;
    text.put(b": ")?;
    put_reply(text, entry.reply())?;
    put_change(text, entry.change())
}

// Its number, what it was on, and whose call it was.
fn put_asked(text: &mut Text, entry: &Entry) -> Result<(), AllocError>
    ensures { OnOk result (text.new ≡ text.old ++ asked_text entry.now) }
{
    text.labelled(b"entry ", entry.number())?;
    put_target(text, entry.target())?;
    text.labelled(b", call ", entry.id())?;
    text.server(b" of server ", entry.origin())
}

fn put_target(text: &mut Text, target: &Target) -> Result<(), AllocError>
    ensures { OnOk result (text.new ≡ text.old ++ target_text target.now) }
{
    match target {
        Target::One(key) => put_key(text, b" on ", key),
        Target::All => text.put(b" on all keys"),
    }
}

/// Words and a key.
pub fn put_key(text: &mut Text, words: &[u8], key: &Key) -> Result<(), AllocError>
    ensures { OnOk result (text.new ≡ text.old ++ spelled words.now key.now) }
{
    text.spelled(words, key.bytes())
}

fn put_change(text: &mut Text, change: &Change) -> Result<(), AllocError>
    ensures { OnOk result (text.new ≡ text.old ++ change_text change.now) }
{
    match change {
        Change::Keep => text.put(b", keeps the item"),
        Change::Put(item) => {
            text.put(b", puts")?;
            put_item(text, item)
        }
        Change::Drop => text.put(b", drops the item"),
        Change::Clear => text.put(b", clears"),
    }
}

/// What a message says, in short.
pub fn put_body(text: &mut Text, body: &Body) -> Result<(), AllocError>
    ensures { OnOk result (text.new ≡ text.old ++ body_text body.now) }
{
    match body {
        Body::Op(id, call) => {
            text.labelled(b"op ", *id)?;
            text.put(b" ")?;
            put_call(text, call)
        }
        Body::Forward(entry) => text.labelled(b"forward ", entry.number()),
        Body::Ack(number) => text.labelled(b"ack ", *number),
        Body::Query(ask, key) => {
            text.labelled(b"query ", *ask)?;
            put_key(text, b" ", key)
        }
        Body::Answer(ask, number) => {
            text.labelled(b"answer ", *ask)?;
            text.labelled(b" at ", *number)
        }
    }
}

/// A message: what it says, and the failed servers of its view if there are any.
#[tactic(auto, unfolding(crate::specs::Words::message_text))]
pub fn put_message(text: &mut Text, message: &Peer) -> Result<(), AllocError>
    ensures { OnOk result (text.new ≡ text.old ++ message_text message.now) }
{
    put_body(text, &message.body)?;
    put_knowing(text, message.view)
}

fn put_knowing(text: &mut Text, view: View) -> Result<(), AllocError>
    ensures { OnOk result (text.new ≡ text.old ++ knowing_text view) }
{
    if view.bits() == 0 {
        Ok(())
    } else {
        put_known(text, view)
    }
}

fn put_known(text: &mut Text, view: View) -> Result<(), AllocError>
    ensures { OnOk result (text.new ≡ text.old ++ known_text view) }
{
    text.put(b", knowing failed")?;
    put_view(text, view)
}

/// The servers of a view, a space before each, or `none`.
#[tactic(auto, unfolding(crate::specs::Words::view_text))]
pub fn put_view(text: &mut Text, view: View) -> Result<(), AllocError>
    ensures { OnOk result (text.new ≡ text.old ++ view_text view) }
{
    if view.bits() == 0 {
        text.put(b" none")
    } else {
        put_names_below(text, view, SERVERS)
    }
}

// The servers of a view that are below a count.
#[tactic(auto, unfolding(crate::specs::Words::names_below), using(crate::proofs::Growing::one_more))]
fn put_names_below(text: &mut Text, view: View, count: u8) -> Result<(), AllocError>
    requires chain { count ≤ 16 }
    ensures { OnOk result (text.new ≡ text.old ++ names_below view count) }
{
    for i in 0..count {
        put_named(text, view, i)?;
    }
    Ok(())
}

// A server's number, if the view names it.
fn put_named(text: &mut Text, view: View, i: u8) -> Result<(), AllocError>
    requires server { i < 16 }
    ensures { OnOk result (text.new ≡ text.old ++ named view i) }
{
    if view.has(i) {
        text.server(b" ", i)
    } else {
        Ok(())
    }
}

/// Words and a server's number, or `none`.
pub fn put_neighbour(text: &mut Text, words: &[u8], server: Option<u8>) -> Result<(), AllocError>
    ensures { OnOk result (text.new ≡ text.old ++ neighbour_text words.now server) }
{
    match server {
        Some(i) => text.server(words, i),
        None => {
            text.put(words)?;
            text.put(b"none")
        }
    }
}
