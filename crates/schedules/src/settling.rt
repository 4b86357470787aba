//! Settling: the rounds of events that a `settle` line stands for.
ghost use Rattle.std.specs.Prelude.{◌≡◌, ◌++◌, map, IfOk, OnOk};
ghost use Rattle.world.specs.declared.events.Event.TheVariants.{Work, Deliver, Tell, Hand};
ghost use Rattle.schedules.specs.Settling.{first_numbers, pairs, pairs_with, round, settled};

use std::alloc::{AllocError, Global};
use world::Event;

/// Adds this many rounds of a chain of `count` servers with this many connections, in time linear in
/// their events.
#[tactic(auto, unfolding(crate::specs::Settling::settled), using(crate::proofs::Rounds::one_copy_more))]
pub fn push_rounds(
    alloc: Global,
    events: &mut Vec<Event>,
    rounds: usize,
    count: usize,
    connections: usize,
) -> Result<(), AllocError>
    ensures { OnOk result (events.new.items ≡ events.old.items ++ settled rounds count connections) }
{
    let pairs = pairs(alloc, count)?;
    for _ in 0..rounds {
        push_round(events, pairs.as_slice(), connections)?;
    }
    Ok(())
}

// Tells, deliveries, works and hands, in this order.
#[tactic(auto, unfolding(crate::specs::Settling::round))]
fn push_round(
    events: &mut Vec<Event>,
    pairs: &[(usize, usize)],
    connections: usize,
) -> Result<(), AllocError>
    ensures { OnOk result (events.new.items ≡ events.old.items ++ round pairs.now connections) }
{
    push_tells(events, pairs)?;
    push_deliveries(events, pairs)?;
    push_works(events, connections)?;
    push_hands(events, connections)
}

fn push_tells(events: &mut Vec<Event>, pairs: &[(usize, usize)]) -> Result<(), AllocError>
    ensures { OnOk result (events.new.items ≡ events.old.items ++ map (λ p. Tell p.0 p.1) pairs.now) }
{
    events.extend(pairs.iter().map(|p| Event::Tell(p.0, p.1)))
}

fn push_deliveries(events: &mut Vec<Event>, pairs: &[(usize, usize)]) -> Result<(), AllocError>
    ensures { OnOk result (events.new.items ≡ events.old.items ++ map (λ p. Deliver p.0 p.1) pairs.now) }
{
    events.extend(pairs.iter().map(|p| Event::Deliver(p.0, p.1)))
}

fn push_works(events: &mut Vec<Event>, connections: usize) -> Result<(), AllocError>
    ensures { OnOk result (events.new.items ≡ events.old.items ++ map Work (first_numbers connections)) }
{
    events.extend((0..connections).map(Event::Work))
}

fn push_hands(events: &mut Vec<Event>, connections: usize) -> Result<(), AllocError>
    ensures { OnOk result (events.new.items ≡ events.old.items ++ map Hand (first_numbers connections)) }
{
    events.extend((0..connections).map(Event::Hand))
}

// Each server with each other one: the first rises, and for each first the second.
#[tactic(auto, unfolding(crate::specs::Settling::pairs), using(crate::proofs::Rounds::one_more))]
fn pairs(alloc: Global, count: usize) -> Result<Vec<(usize, usize)>, AllocError>
    ensures { IfOk result (λ v. v.items ≡ pairs count) }
{
    let mut pairs = Vec::new(alloc);
    for i in 0..count {
        push_pairs_with(&mut pairs, count, i)?;
    }
    Ok(pairs)
}

fn push_pairs_with(
    pairs: &mut Vec<(usize, usize)>,
    count: usize,
    i: usize,
) -> Result<(), AllocError>
    ensures { OnOk result (pairs.new.items ≡ pairs.old.items ++ pairs_with count i) }
{
    for j in 0..count {
        if i != j {
            pairs.push((i, j))?;
        }
    }
    Ok(())
}
