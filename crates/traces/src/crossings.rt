//! What a trace puts on its ways, and what it takes off them, each at a row of its picture.
ghost use Rattle.std.specs.Prelude.{◌≡◌, ◌++◌, IfOk, OnOk, map, slice_get};
ghost use Rattle.std.specs.Option.{option_to_list};
ghost use Rattle.traces.specs.Crossings.{call_put, hand_taken, handed_by, input_taken, is_shown, next};
ghost use Rattle.traces.specs.Crossings.{crossing_at, only_on, output_put, puts_by, puts_of, row_after};
ghost use Rattle.traces.specs.Crossings.{row_after_all, takes_by, takes_of};

use node::{Input, Output};
use std::alloc::{AllocError, Global};
use world::{Event, EventEffect};

/// A lane of a picture: a server's or a connection's.
#[derive(Clone, Copy, PartialEq, Eq)]
pub enum Lane {
    /// The server of this number.
    Server(usize),
    /// The connection of this number.
    Connection(usize),
}

/// A way from one lane to another. What is put on it first is taken off it first.
#[derive(Clone, Copy, PartialEq, Eq)]
pub struct Way {
    /// Where something is put on it.
    pub from: Lane,
    /// Where it is taken off.
    pub to: Lane,
}

/// A call, a message or a reply, as it is put on its way, or as it is taken off it.
#[derive(Clone, Copy)]
pub struct Crossing {
    /// Its way.
    pub way: Way,
    /// The row of the event that did it.
    pub row: usize,
}

fn crossing_at(row: usize, from: Lane, to: Lane) -> Crossing
    ensures { result ≡ crossing_at row from to }
{
    Crossing {
        way: Way { from, to },
        row,
    }
}

/// Whether an effect has a row: an event that didn't apply has none, nor has a notice that was known.
pub fn is_shown(event_effect: &EventEffect) -> bool
    ensures { result ≡ is_shown event_effect.now }
{
    match event_effect {
        EventEffect::Nothing => false,
        EventEffect::Stepped(_, step) => {
            !matches!(step.input, Input::Gone(_))
                || step.after.view.bits() != step.before.view.bits()
        }
        _ => true,
    }
}

/// The next row.
#[tactic(auto, unfolding(crate::specs::Crossings::next))]
pub fn next(row: usize) -> usize
    ensures { result ≡ next row }
{
    row.saturating_add(1)
}

#[tactic(auto, unfolding(crate::specs::Crossings::row_after))]
fn row_after(row: usize, event_effect: &EventEffect) -> usize
    ensures { result ≡ row_after row event_effect.now }
{
    if is_shown(event_effect) {
        next(row)
    } else {
        row
    }
}

/// The row after all of these effects.
pub fn row_after_all(event_effects: &[EventEffect]) -> usize
    ensures { result ≡ row_after_all 0 event_effects.now }
{
    let mut after: usize = 0;
    for event_effect in event_effects {
        after = row_after(after, event_effect);
    }
    after
}

/// All that the effects of a trace put.
pub fn puts_of(alloc: Global, event_effects: &[EventEffect]) -> Result<Vec<Crossing>, AllocError>
    ensures { IfOk result (λ puts. puts.items ≡ puts_of event_effects.now) }
{
    let mut puts = Vec::new(alloc);
    let mut row: usize = 0;
    for event_effect in event_effects {
        push_puts(&mut puts, row, event_effect)?;
        row = row_after(row, event_effect);
    }
    Ok(puts)
}

#[tactic(auto, unfolding(crate::specs::Crossings::puts_by))]
fn push_puts(
    puts: &mut Vec<Crossing>,
    row: usize,
    event_effect: &EventEffect,
) -> Result<(), AllocError>
    ensures { OnOk result (puts.new.items ≡ puts.old.items ++ puts_by row event_effect.now) }
{
    match event_effect {
        EventEffect::Stepped(i, step) => {
            push_some(puts, call_put(row, *i, &step.input))?;
            push_outputs(puts, row, *i, step.outputs.as_slice())
        }
        _ => Ok(()),
    }
}

fn call_put(row: usize, i: usize, input: &Input) -> Option<Crossing>
    ensures { option_to_list result ≡ call_put row i input.now }
{
    match input {
        Input::Call(c, _) => Some(crossing_at(row, Lane::Connection(*c), Lane::Server(i))),
        Input::From(..) | Input::Gone(_) => None,
    }
}

fn push_outputs(
    puts: &mut Vec<Crossing>,
    row: usize,
    i: usize,
    outputs: &[Output],
) -> Result<(), AllocError>
    ensures { OnOk result (puts.new.items ≡ puts.old.items ++ map (output_put row i) outputs.now) }
{
    for output in outputs {
        puts.push(output_put(row, i, output))?;
    }
    Ok(())
}

fn output_put(row: usize, i: usize, output: &Output) -> Crossing
    ensures { result ≡ output_put row i output.now }
{
    match output {
        Output::To(j, _) => crossing_at(row, Lane::Server(i), Lane::Server(usize::from(*j))),
        Output::Reply(c, _) => crossing_at(row, Lane::Server(i), Lane::Connection(*c)),
    }
}

fn push_some(crossings: &mut Vec<Crossing>, crossing: Option<Crossing>) -> Result<(), AllocError>
    ensures { OnOk result (crossings.new.items ≡ crossings.old.items ++ option_to_list crossing) }
{
    match crossing {
        Some(crossing) => Ok(crossings.push(crossing)?),
        None => Ok(()),
    }
}

/// All that the effects of a trace take, with these homes of connections.
pub fn takes_of(
    alloc: Global,
    homes: &[usize],
    events: &[Event],
    event_effects: &[EventEffect],
) -> Result<Vec<Crossing>, AllocError>
    ensures { IfOk result (λ takes. takes.items ≡ takes_of homes.now events.now event_effects.now) }
{
    let mut takes = Vec::new(alloc);
    let mut row: usize = 0;
    for (place, event_effect) in event_effects.iter().enumerate() {
        let taken = taken_by(row, homes, events, place, event_effect);
        push_some(&mut takes, taken)?;
        row = row_after(row, event_effect);
    }
    Ok(takes)
}

// What the effect of the event at a place takes: a step its input, and a hand the reply.
#[tactic(auto, unfolding(crate::specs::Crossings::takes_by))]
fn taken_by(
    row: usize,
    homes: &[usize],
    events: &[Event],
    place: usize,
    event_effect: &EventEffect,
) -> Option<Crossing>
    ensures { option_to_list result ≡ takes_by row homes.now (slice_get events.now place) event_effect.now }
{
    match event_effect {
        EventEffect::Stepped(i, step) => input_taken(row, *i, &step.input),
        EventEffect::Handed(..) => hand_taken(row, homes, events, place),
        _ => None,
    }
}

fn input_taken(row: usize, i: usize, input: &Input) -> Option<Crossing>
    ensures { option_to_list result ≡ input_taken row i input.now }
{
    match input {
        Input::Call(c, _) => Some(crossing_at(row, Lane::Connection(*c), Lane::Server(i))),
        Input::From(j, _) => {
            Some(crossing_at(row, Lane::Server(usize::from(*j)), Lane::Server(i)))
        }
        Input::Gone(_) => None,
    }
}

#[tactic(auto, unfolding(crate::specs::Crossings::hand_taken))]
fn hand_taken(row: usize, homes: &[usize], events: &[Event], place: usize) -> Option<Crossing>
    ensures { option_to_list result ≡ hand_taken row homes.now (slice_get events.now place) }
{
    match events.get(place) {
        Some(event) => handed_by(row, homes, event),
        None => None,
    }
}

// A connection takes a reply of its home, if it has one.
#[tactic(auto, unfolding(crate::specs::Crossings::reply_taken))]
fn handed_by(row: usize, homes: &[usize], event: &Event) -> Option<Crossing>
    ensures { option_to_list result ≡ handed_by row homes.now event.now }
{
    match event {
        Event::Hand(c) => {
            let home = homes.get(*c).copied()?;
            Some(crossing_at(row, Lane::Server(home), Lane::Connection(*c)))
        }
        _ => None,
    }
}

/// Those of these on a way, in order.
pub fn only_on(alloc: Global, way: Way, crossings: &[Crossing]) -> Result<Vec<Crossing>, AllocError>
    ensures { IfOk result (λ found. found.items ≡ only_on way crossings.now) }
{
    crossings
        .iter()
        .copied()
        .filter(|crossing| crossing.way == way)
        .collect(alloc)
}
