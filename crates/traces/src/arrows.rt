//! The arrows of a picture: one for each thing that was put, from where it was put to where it was taken.
ghost use Rattle.std.specs.Prelude.{◌≡◌, ◌++◌, IfOk, OnOk, slice_get};
ghost use Rattle.traces.specs.Crossings.{from_to};
ghost use Rattle.traces.specs.Arrows.{arrow_of, arrows_of, laid, laid_from, row_laid, row_laid_all, ways_of};

use crate::crossings::{Crossing, Lane, Way, next, only_on, puts_of, row_after_all, takes_of};
use std::alloc::{AllocError, Global};
use world::{Event, Trace};

/// An arrow: of something that was put, from its row to another one.
#[derive(Clone, Copy)]
pub struct Arrow {
    /// What was put. The arrow goes from its way's first lane at its row to the way's second lane.
    pub put: Crossing,
    /// The row at which it ends.
    pub row: usize,
    /// Whether that is where it was taken. Otherwise it is still in flight.
    pub came: bool,
}

/// The arrows of a trace of these events, whose connections have these homes: way after way. It looks once for each way
/// at what was put and taken.
#[tactic(auto, unfolding(crate::specs::Arrows::arrows_of, crate::specs::Arrows::arrows_among))]
pub fn arrows_of(
    alloc: Global,
    homes: &[usize],
    events: &[Event],
    trace: &Trace,
) -> Result<Vec<Arrow>, AllocError>
    ensures { IfOk result (λ arrows. arrows.items ≡ arrows_of homes.now events.now trace.now) }
{
    let event_effects = trace.event_effects();
    let puts = puts_of(alloc, event_effects)?;
    let takes = takes_of(alloc, homes, events, event_effects)?;
    let ways = ways_of(alloc, trace.count(), homes)?;
    let first = row_after_all(event_effects);
    lay_all(
        alloc,
        first,
        ways.as_slice(),
        puts.as_slice(),
        takes.as_slice(),
    )
}

// The arrows of ways, one way after another; those in flight end at this row and the next ones.
fn lay_all(
    alloc: Global,
    first: usize,
    ways: &[Way],
    puts: &[Crossing],
    takes: &[Crossing],
) -> Result<Vec<Arrow>, AllocError>
    ensures { IfOk result (λ arrows. arrows.items ≡ laid_from puts.now takes.now first ways.now) }
{
    let mut arrows = Vec::new(alloc);
    let mut row = first;
    for way in ways {
        let puts = only_on(alloc, *way, puts)?;
        let takes = only_on(alloc, *way, takes)?;
        row = lay_on(&mut arrows, row, puts.as_slice(), takes.as_slice())?;
    }
    Ok(arrows)
}

// The arrows of one way, and the row after them. What is put on it first is taken first; an arrow in flight has a row
// of its own.
fn lay_on(
    arrows: &mut Vec<Arrow>,
    first: usize,
    puts: &[Crossing],
    takes: &[Crossing],
) -> Result<usize, AllocError>
    ensures laid { OnOk result (arrows.new.items ≡ arrows.old.items ++ laid first takes.now 0 puts.now) }
    ensures after { IfOk result (λ after. after ≡ row_laid_all first takes.now 0 puts.now) }
{
    let mut row = first;
    for (place, put) in puts.iter().enumerate() {
        let arrow = arrow_at(row, *put, takes, place);
        arrows.push(arrow)?;
        row = row_laid(row, arrow);
    }
    Ok(row)
}

// The arrow of what was put at this place: it ends where that was taken, or in flight at this row.
#[tactic(auto, unfolding(crate::specs::Arrows::arrow_of))]
fn arrow_at(row: usize, put: Crossing, takes: &[Crossing], place: usize) -> Arrow
    ensures { result ≡ arrow_of row put (slice_get takes.now place) }
{
    let taken = takes.get(place).copied();
    Arrow {
        put,
        row: taken.map_or(row, |taken| taken.row),
        came: taken.is_some(),
    }
}

// The row after an arrow that was laid at this one: an arrow in flight has a row of its own.
#[tactic(auto, unfolding(crate::specs::Arrows::row_laid))]
fn row_laid(row: usize, arrow: Arrow) -> usize
    ensures { result ≡ row_laid row arrow }
{
    if arrow.came { row } else { next(row) }
}

// All ways between the lanes of a picture.
#[tactic(auto, unfolding(crate::specs::Arrows::ways_of), using(crate::proofs::Growing::ways_more))]
fn ways_of(alloc: Global, count: usize, homes: &[usize]) -> Result<Vec<Way>, AllocError>
    ensures { IfOk result (λ ways. ways.items ≡ ways_of count homes.now) }
{
    let mut ways = Vec::new(alloc);
    for (c, home) in homes.iter().enumerate() {
        ways.push(from_to(Lane::Connection(c), Lane::Server(*home)))?;
    }
    for i in 0..count {
        for j in 0..count {
            ways.push(from_to(Lane::Server(i), Lane::Server(j)))?;
        }
    }
    for (c, home) in homes.iter().enumerate() {
        ways.push(from_to(Lane::Server(*home), Lane::Connection(c)))?;
    }
    Ok(ways)
}

fn from_to(from: Lane, to: Lane) -> Way
    ensures { result ≡ from_to from to }
{
    Way { from, to }
}
