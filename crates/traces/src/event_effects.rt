//! What events did, in words: a line for each thing.
ghost use Rattle.std.specs.Prelude.{◌≡◌, ◌≤◌, ◌++◌, OnOk, flat_map};
ghost use Rattle.std.specs.Option.{option_copied};
ghost use Rattle.traces.specs.EventEffects.{
  acknowledged_line,
  acknowledging,
  answering_line,
  appended_line,
  began_lines,
};
ghost use Rattle.traces.specs.EventEffects.{
  body_way,
  call_way,
  event_effect_lines,
  ends_text,
  failed_line,
  handed_lines,
  input_text,
};
ghost use Rattle.traces.specs.EventEffects.{
  is_tail,
  joined_line,
  neighbours_text,
  output_line,
  places_line,
  sending_line,
};
ghost use Rattle.traces.specs.EventEffects.{sent_line, step_lines, taken_text, taking_line, way_text};

use crate::texts::Text;
use crate::words::{
    put_body, put_call, put_entry, put_message, put_neighbour, put_reply, put_view,
};
use node::{Body, Input, Output, Peer, Standing, View};
use std::alloc::AllocError;
use table::{Call, Op, Reply};
use versions::Entry;
use world::{Event, EventEffect, ServerStep};

/// The lines that say what an event did, each after two spaces. `count` is the number of servers, 1 to 16.
pub fn put_event_effect(
    text: &mut Text,
    count: u8,
    event: &Event,
    event_effect: &EventEffect,
) -> Result<(), AllocError>
    requires { count ≤ 16 }
    ensures { OnOk result (text.new ≡ text.old ++ event_effect_lines count event.now event_effect.now) }
{
    match event_effect {
        EventEffect::Nothing => text.put(b"  no effect\n"),
        EventEffect::Came => text.put(b"  the bytes come\n"),
        EventEffect::Began(call, sent) => put_began(text, call.as_ref(), sent.as_slice()),
        EventEffect::Stepped(i, step) => put_step(text, count, *i, step),
        EventEffect::Failed => put_failed(text, event),
        EventEffect::Handed(reply, sent) => put_handed(text, reply, sent.as_slice()),
    }
}

fn put_began(text: &mut Text, call: Option<&Call>, sent: &[u8]) -> Result<(), AllocError>
    ensures { OnOk result (text.new ≡ text.old ++ began_lines (option_copied call.entry) sent.now) }
{
    put_sent(text, sent)?;
    match call {
        Some(call) => {
            text.put(b"  begins ")?;
            put_call(text, call)?;
            text.put(b"\n")
        }
        None => text.put(b"  no call begins\n"),
    }
}

fn put_handed(text: &mut Text, reply: &Reply, sent: &[u8]) -> Result<(), AllocError>
    ensures { OnOk result (text.new ≡ text.old ++ handed_lines reply.now sent.now) }
{
    text.put(b"  is answered ")?;
    put_reply(text, reply)?;
    text.put(b"\n")?;
    put_sent(text, sent)
}

// The bytes that a connection was sent, in one line.
#[tactic(auto, unfolding(crate::specs::EventEffects::sent_line))]
fn put_sent(text: &mut Text, sent: &[u8]) -> Result<(), AllocError>
    ensures { OnOk result (text.new ≡ text.old ++ sent_line sent.now) }
{
    if sent.is_empty() {
        return Ok(());
    }
    text.spelled(b"  is sent ", sent)?;
    text.put(b"\n")
}

fn put_failed(text: &mut Text, event: &Event) -> Result<(), AllocError>
    ensures { OnOk result (text.new ≡ text.old ++ failed_line event.now) }
{
    match event {
        Event::Fail(i) => {
            text.numbered(b"  server ", *i)?;
            text.put(b" fails\n")
        }
        _ => text.put(b"  fails\n"),
    }
}

fn put_step(text: &mut Text, count: u8, i: usize, step: &ServerStep) -> Result<(), AllocError>
    requires { count ≤ 16 }
    ensures { OnOk result (text.new ≡ text.old ++ step_lines count i step.now) }
{
    put_taking(text, i, &step.input)?;
    put_joined(text, count, i, step.before.view, step.after.view)?;
    put_entries(text, step.entries.as_slice())?;
    put_acknowledged(text, count, i, step.before, step.after)?;
    put_outputs(text, &step.input, step.outputs.as_slice())
}

// The server and what it takes.
fn put_taking(text: &mut Text, i: usize, input: &Input) -> Result<(), AllocError>
    ensures { OnOk result (text.new ≡ text.old ++ taking_line i input.now) }
{
    text.numbered(b"  server ", i)?;
    put_input(text, input)?;
    text.put(b"\n")
}

fn put_input(text: &mut Text, input: &Input) -> Result<(), AllocError>
    ensures { OnOk result (text.new ≡ text.old ++ input_text input.now) }
{
    match input {
        Input::Call(port, call) => {
            text.numbered(b" takes of connection ", *port)?;
            text.put(b": ")?;
            put_call(text, call)
        }
        Input::From(i, message) => {
            text.server(b" takes of server ", *i)?;
            text.put(b": ")?;
            put_message(text, message)
        }
        Input::Gone(j) => {
            text.server(b" is told that server ", *j)?;
            text.put(b" has failed")
        }
    }
}

// The view that it has now, if that is another one than before.
fn put_joined(
    text: &mut Text,
    count: u8,
    i: usize,
    before: View,
    after: View,
) -> Result<(), AllocError>
    requires { count ≤ 16 }
    ensures { OnOk result (text.new ≡ text.old ++ joined_line count i before after) }
{
    if after.bits() == before.bits() {
        Ok(())
    } else {
        put_places(text, count, i, after)
    }
}

// A view, and the server's places in it.
fn put_places(text: &mut Text, count: u8, i: usize, view: View) -> Result<(), AllocError>
    requires { count ≤ 16 }
    ensures { OnOk result (text.new ≡ text.old ++ places_line count i view) }
{
    text.put(b"    knows failed")?;
    put_view(text, view)?;
    put_ends(text, count, view)?;
    put_neighbours(text, count, i, view)?;
    text.put(b"\n")
}

#[tactic(auto, unfolding(crate::specs::EventEffects::ends_text))]
fn put_ends(text: &mut Text, count: u8, view: View) -> Result<(), AllocError>
    requires { count ≤ 16 }
    ensures { OnOk result (text.new ≡ text.old ++ ends_text count view) }
{
    put_neighbour(text, b": head ", view.head(count))?;
    put_neighbour(text, b", tail ", view.tail(count))
}

#[tactic(auto, unfolding(crate::specs::EventEffects::neighbours_text))]
fn put_neighbours(text: &mut Text, count: u8, i: usize, view: View) -> Result<(), AllocError>
    requires { count ≤ 16 }
    ensures { OnOk result (text.new ≡ text.old ++ neighbours_text count i view) }
{
    if i < usize::from(count) {
        let i = i as u8;
        put_neighbour(text, b", predecessor ", view.predecessor(i))?;
        put_neighbour(text, b", successor ", view.successor(count, i))
    } else {
        Ok(())
    }
}

fn put_entries(text: &mut Text, entries: &[Entry]) -> Result<(), AllocError>
    ensures { OnOk result (text.new ≡ text.old ++ flat_map appended_line entries.now) }
{
    for entry in entries {
        put_appended(text, entry)?;
    }
    Ok(())
}

#[tactic(auto, unfolding(crate::specs::EventEffects::appended_line))]
fn put_appended(text: &mut Text, entry: &Entry) -> Result<(), AllocError>
    ensures { OnOk result (text.new ≡ text.old ++ appended_line entry.now) }
{
    text.put(b"    appends ")?;
    put_entry(text, entry)?;
    text.put(b"\n")
}

// What the tail acknowledges is committed.
fn put_acknowledged(
    text: &mut Text,
    count: u8,
    i: usize,
    before: Standing,
    after: Standing,
) -> Result<(), AllocError>
    requires { count ≤ 16 }
    ensures { OnOk result (text.new ≡ text.old ++ acknowledged_line count i before after) }
{
    let number = after.acked;
    if number <= before.acked {
        return Ok(());
    }
    let words = acknowledging(is_tail(count, i, after));
    text.labelled(words, number)?;
    text.put(b"\n")
}

fn acknowledging(tail: bool) -> &'static [u8]
    ensures { result.now ≡ acknowledging tail }
{
    if tail {
        b"    commits up to "
    } else {
        b"    has acknowledged up to "
    }
}

/// Whether a server that stands so is the tail in its own view.
pub fn is_tail(count: u8, i: usize, standing: Standing) -> bool
    requires { count ≤ 16 }
    ensures { result ≡ is_tail count i standing }
{
    match standing.view.tail(count) {
        Some(tail) => usize::from(tail) == i,
        None => false,
    }
}

fn put_outputs(text: &mut Text, input: &Input, outputs: &[Output]) -> Result<(), AllocError>
    ensures { OnOk result (text.new ≡ text.old ++ flat_map (output_line input.now) outputs.now) }
{
    for output in outputs {
        put_output(text, input, output)?;
    }
    Ok(())
}

fn put_output(text: &mut Text, input: &Input, output: &Output) -> Result<(), AllocError>
    ensures { OnOk result (text.new ≡ text.old ++ output_line input.now output.now) }
{
    match output {
        Output::To(to, message) => put_sending(text, *to, message),
        Output::Reply(port, reply) => put_answering(text, input, *port, reply),
    }
}

fn put_sending(text: &mut Text, to: u8, message: &Peer) -> Result<(), AllocError>
    ensures { OnOk result (text.new ≡ text.old ++ sending_line to message.now) }
{
    text.server(b"    sends server ", to)?;
    text.put(b": ")?;
    put_message(text, message)?;
    text.put(b"\n")
}

fn put_answering(
    text: &mut Text,
    input: &Input,
    port: usize,
    reply: &Reply,
) -> Result<(), AllocError>
    ensures { OnOk result (text.new ≡ text.old ++ answering_line input.now port reply.now) }
{
    text.numbered(b"    answers connection ", port)?;
    put_way(text, input)?;
    text.put(b": ")?;
    put_reply(text, reply)?;
    text.put(b"\n")
}

// How a read was answered: clean, or at the number of the tail's answer.
fn put_way(text: &mut Text, input: &Input) -> Result<(), AllocError>
    ensures { OnOk result (text.new ≡ text.old ++ way_text input.now) }
{
    match input {
        Input::Call(_, call) => text.put(call_way(&call.op)),
        Input::From(_, message) => put_body_way(text, &message.body),
        Input::Gone(_) => Ok(()),
    }
}

fn call_way(op: &Op) -> &'static [u8]
    ensures { result.now ≡ call_way op.now }
{
    match op {
        Op::Read => b" clean",
        _ => b"",
    }
}

fn put_body_way(text: &mut Text, body: &Body) -> Result<(), AllocError>
    ensures { OnOk result (text.new ≡ text.old ++ body_way body.now) }
{
    match body {
        Body::Answer(_, number) => text.labelled(b" at ", *number),
        _ => Ok(()),
    }
}

/// The words for what a server takes, for a picture.
pub fn put_taken(text: &mut Text, input: &Input) -> Result<(), AllocError>
    ensures { OnOk result (text.new ≡ text.old ++ taken_text input.now) }
{
    match input {
        Input::Call(_, call) => put_call(text, call),
        Input::From(_, message) => put_body(text, &message.body),
        Input::Gone(j) => text.server(b"told of ", *j),
    }
}
