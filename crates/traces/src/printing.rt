//! The text of a trace.
ghost use Rattle.std.specs.Prelude.{◌≡◌, ◌≤◌, ◌++◌, Some, IfOk, OnOk, slice_get};
ghost use Rattle.traces.specs.Printing.{block, block_at, blocks, chain_count, trace_text};

use crate::ends::put_end;
use crate::event_effects::put_event_effect;
use crate::event_lines::put_event;
use crate::texts::Text;
use schedules::print_transcript;
use std::alloc::{AllocError, Global};
use world::{Event, EventEffect, Trace};

/// The text of a run of these events (docs/FORMATS.md, "Trace"): for each one its line, and what it did; how the run
/// ends; and its transcript, byte for byte as `print_transcript` gives it. It takes time linear in what the events did.
#[tactic(auto, unfolding(crate::specs::Printing::trace_text))]
pub fn print_trace(alloc: Global, events: &[Event], trace: Trace) -> Result<Vec<u8>, AllocError>
    ensures printed { IfOk result (λ text. text.items ≡ trace_text events.now trace) }
{
    let mut text = Text::new(alloc);
    put_blocks(
        &mut text,
        chain_count(trace.count()),
        events,
        trace.event_effects(),
    )?;
    put_end(&mut text, &trace)?;
    let transcript = trace.transcript(alloc)?;
    let end = print_transcript(alloc, &transcript)?;
    text.put(end.as_slice())?;
    Ok(text.into_bytes())
}

/// How many servers a chain has, at most 16.
pub fn chain_count(servers: usize) -> u8
    ensures count { result ≡ chain_count servers }
    ensures most { result ≤ 16 }
{
    servers.min(16) as u8
}

// The block of each event, with the effect that has its place.
#[tactic(auto, unfolding(crate::specs::Printing::blocks), using(crate::proofs::Blocks::further))]
fn put_blocks(
    text: &mut Text,
    count: u8,
    events: &[Event],
    event_effects: &[EventEffect],
) -> Result<(), AllocError>
    requires { count ≤ 16 }
    ensures { OnOk result (text.new ≡ text.old ++ blocks count events.now event_effects.now) }
{
    for place in 0..events.len() {
        put_block_at(text, count, events, event_effects, place)?;
    }
    Ok(())
}

// The block of the event at a place, if its effect is there.
#[tactic(auto, unfolding(crate::specs::Printing::block_at))]
fn put_block_at(
    text: &mut Text,
    count: u8,
    events: &[Event],
    event_effects: &[EventEffect],
    place: usize,
) -> Result<(), AllocError>
    requires { count ≤ 16 }
    ensures { OnOk result
        (text.new ≡ text.old ++ block_at count (slice_get events.now place) (slice_get event_effects.now place)) }
{
    match events.get(place) {
        Some(event) => put_block_of(text, count, event, event_effects, place),
        None => Ok(()),
    }
}

#[tactic(auto, unfolding(crate::specs::Printing::block_at))]
fn put_block_of(
    text: &mut Text,
    count: u8,
    event: &Event,
    event_effects: &[EventEffect],
    place: usize,
) -> Result<(), AllocError>
    requires { count ≤ 16 }
    ensures { OnOk result
        (text.new ≡ text.old ++ block_at count (Some event.now) (slice_get event_effects.now place)) }
{
    match event_effects.get(place) {
        Some(event_effect) => put_block(text, count, event, event_effect),
        None => Ok(()),
    }
}

// An event's line, and the lines of what it did.
#[tactic(auto, unfolding(crate::specs::Printing::block))]
fn put_block(
    text: &mut Text,
    count: u8,
    event: &Event,
    event_effect: &EventEffect,
) -> Result<(), AllocError>
    requires { count ≤ 16 }
    ensures { OnOk result (text.new ≡ text.old ++ block count (event.now, event_effect.now)) }
{
    put_event(text, event)?;
    text.put(b"\n")?;
    put_event_effect(text, count, event, event_effect)
}
