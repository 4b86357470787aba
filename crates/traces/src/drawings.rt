//! The picture of a trace: a lane for each server and each connection, time downward.
ghost use Rattle.std.specs.Prelude.{IfOk, IsPermutation};
ghost use Rattle.traces.specs.Arrows.{arrows_of};
ghost use Rattle.traces.specs.Pictures.{Draws, HasArrows};

use crate::arrows::{Arrow, arrows_of};
use crate::crossings::{Lane, Way, is_shown};
use crate::event_effects::{is_tail, put_taken};
use crate::event_lines::put_event;
use crate::glyphs::{Glyph, Paint};
use crate::lanes::{Lanes, row_height};
use crate::pictures::picture;
use crate::points::Point;
use crate::printing::chain_count;
use crate::texts::Text;
use crate::words::{put_body, put_call, put_value};
use node::{Input, Output};
use std::alloc::{AllocError, Global};
use table::{Call, Reply};
use world::{Event, EventEffect, ServerStep, Trace};

/// The picture of a run of these events over a chain whose connections have these homes: SVG 1.1 without script. An
/// event that had no effect has no row. It is well-formed for any bytes in keys and data, which it shows in the escapes
/// of transcripts. It looks once at what the events did, and once for each two lanes at what passes between them.
pub fn draw(
    alloc: Global,
    homes: &[usize],
    events: &[Event],
    trace: &Trace,
) -> Result<Vec<u8>, AllocError>
    // Its arrows stand for what the trace put, each for one thing: the laws of `laws.rt`.
    ensures { IfOk result (λ text. Draws (arrows_of homes.now events.now trace.now) text.items) }
{
    let arrows = arrows_of(alloc, homes, events, trace)?;
    let arrows = in_order(arrows)?;
    drawing(alloc, homes, events, trace, arrows.as_slice())
}

// Arrows in the order in which their things were taken, by the rows at which they end. Those in flight stand last.
fn in_order(arrows: Vec<Arrow>) -> Result<Vec<Arrow>, AllocError>
    ensures { IfOk result (λ ordered. IsPermutation arrows.items ordered.items) }
{
    let mut ordered = arrows;
    ordered.sort_by_key(|arrow| arrow.row)?;
    Ok(ordered)
}

// An event and what it did.
type Shown<'a> = (&'a Event, &'a EventEffect);

// The picture with these arrows. The events that have a row stand there in order, and below them what is in flight.
fn drawing(
    alloc: Global,
    homes: &[usize],
    events: &[Event],
    trace: &Trace,
    arrows: &[Arrow],
) -> Result<Vec<u8>, AllocError>
    ensures { IfOk result (λ text. HasArrows arrows.now text.items) }
{
    let lanes = Lanes::new(alloc, trace.count(), homes)?;
    let all = events.iter().zip(trace.event_effects());
    let shown: Vec<Shown> = all.filter(|(_, done)| is_shown(done)).collect(alloc)?;
    let flights = arrows.iter().filter(|arrow| !arrow.came).count();
    let rows = shown.len().saturating_add(flights);
    let mut under = Sketch::new(alloc, &lanes);
    under.put_lanes(homes.len(), trace.count(), shown.as_slice(), rows)?;
    let mut over = Sketch::new(alloc, &lanes);
    over.put_events(trace, shown.as_slice())?;
    over.put_flights(trace, arrows)?;
    let height = row_height(rows).saturating_add(20);
    let (under, over) = (under.glyphs, over.glyphs);
    picture(
        alloc,
        &lanes,
        height,
        under.as_slice(),
        arrows,
        over.as_slice(),
    )
}

// The lane at which an event acts.
fn lane_of(event: &Event, event_effect: &EventEffect) -> Lane {
    match (event, event_effect) {
        (_, EventEffect::Stepped(i, _)) => Lane::Server(*i),
        (Event::Fail(i) | Event::Tell(i, _) | Event::Deliver(_, i), _) => Lane::Server(*i),
        (Event::Piece(c, _) | Event::Begin(c) | Event::Work(c) | Event::Hand(c), _) => {
            Lane::Connection(*c)
        }
    }
}

// Whether a step of server i, of so many, commits.
fn is_commit(servers: usize, i: usize, step: &ServerStep) -> bool {
    step.before.acked < step.after.acked && is_tail(chain_count(servers), i, step.after)
}

// Glyphs of a picture, as far as they are put.
#[derive(Drop)]
struct Sketch<'a> {
    alloc: Global,
    lanes: &'a Lanes,
    glyphs: Vec<Glyph>,
}

impl<'a> Sketch<'a> {
    fn new(alloc: Global, lanes: &'a Lanes) -> Sketch<'a> {
        Sketch {
            alloc,
            lanes,
            glyphs: Vec::new(alloc),
        }
    }

    fn put(&mut self, glyph: Glyph) -> Result<(), AllocError> {
        Ok(self.glyphs.push(glyph)?)
    }

    // The lanes with their names, down to a row. A server's lane is dotted from its failure on.
    fn put_lanes(
        &mut self,
        connections: usize,
        servers: usize,
        shown: &[Shown],
        rows: usize,
    ) -> Result<(), AllocError> {
        for c in 0..connections {
            self.put_lane(Lane::Connection(c), Paint::Lane, rows, rows)?;
        }
        for i in 0..servers {
            let failure = shown
                .iter()
                .position(|(event, _)| matches!(event, Event::Fail(j) if *j == i));
            let end = failure.unwrap_or(rows);
            self.put_lane(Lane::Server(i), Paint::ServerLane, end, rows)?;
        }
        Ok(())
    }

    fn put_lane(
        &mut self,
        lane: Lane,
        paint: Paint,
        end: usize,
        rows: usize,
    ) -> Result<(), AllocError> {
        let top = self.lanes.point(lane, 0);
        let (end, bottom) = (self.lanes.point(lane, end), self.lanes.point(lane, rows));
        self.put(Glyph::Line(top.moved(0, -25), end, paint))?;
        if end.y < bottom.y {
            self.put(Glyph::Line(end, bottom, Paint::FailedLane))?;
        }
        self.put(Glyph::Name(top.moved(-30, -35), lane))
    }

    // What each event did, at the lane where it acts, and its line at the left.
    fn put_events(&mut self, trace: &Trace, shown: &[Shown]) -> Result<(), AllocError> {
        for (row, (event, event_effect)) in shown.iter().enumerate() {
            self.put_event_line(row, event)?;
            let at = self.lanes.point(lane_of(event, event_effect), row);
            self.put_event_effect(at, trace.count(), event_effect)?;
        }
        Ok(())
    }

    fn put_event_line(&mut self, row: usize, event: &Event) -> Result<(), AllocError> {
        let mut line = Text::new(self.alloc);
        put_event(&mut line, event)?;
        let y = row_height(row).saturating_add(4);
        self.put(Glyph::Words(Point { x: 10, y }, Paint::Plain, line))
    }

    fn put_event_effect(
        &mut self,
        at: Point,
        servers: usize,
        event_effect: &EventEffect,
    ) -> Result<(), AllocError> {
        match event_effect {
            EventEffect::Nothing => Ok(()),
            EventEffect::Came => self.put(Glyph::Circle(at, 3, Paint::Came)),
            EventEffect::Began(call, _) => self.put_begun(at, call.as_ref()),
            EventEffect::Stepped(i, step) => self.put_step(at, is_commit(servers, *i, step), step),
            EventEffect::Failed => self.put_cross(at),
            EventEffect::Handed(reply, _) => self.put_answer(at, reply),
        }
    }

    fn put_begun(&mut self, at: Point, call: Option<&Call>) -> Result<(), AllocError> {
        self.put(Glyph::Circle(at, 5, Paint::Begun))?;
        let mut label = Text::new(self.alloc);
        match call {
            Some(call) => put_call(&mut label, call)?,
            None => label.put(b"no call")?,
        }
        self.put(Glyph::Label(at.moved(9, 4), Paint::Plain, label))
    }

    // What a server took, put out and committed.
    fn put_step(&mut self, at: Point, commits: bool, step: &ServerStep) -> Result<(), AllocError> {
        let mut label = Text::new(self.alloc);
        if !matches!(step.input, Input::Call(..)) {
            put_taken(&mut label, &step.input)?;
        }
        if matches!(step.input, Input::Gone(_)) {
            self.put(Glyph::Circle(at, 4, Paint::Notice))?;
        }
        for output in step.outputs.iter() {
            if matches!(output, Output::Reply(..)) {
                self.put(Glyph::Circle(at, 4, Paint::Answered))?;
            }
        }
        if commits {
            self.put(Glyph::Diamond(at, Paint::Committed))?;
            if !label.as_slice().is_empty() {
                label.put(b", ")?;
            }
            label.labelled(b"commit ", step.after.acked)?;
        }
        self.put(Glyph::Label(at.moved(9, 12), Paint::Plain, label))
    }

    fn put_cross(&mut self, at: Point) -> Result<(), AllocError> {
        self.put(Glyph::Line(at.moved(-7, -7), at.moved(7, 7), Paint::Failure))?;
        self.put(Glyph::Line(at.moved(-7, 7), at.moved(7, -7), Paint::Failure))
    }

    // The reply that comes to its connection.
    fn put_answer(&mut self, at: Point, reply: &Reply) -> Result<(), AllocError> {
        self.put(Glyph::Circle(at, 4, Paint::Answered))?;
        let mut label = Text::new(self.alloc);
        put_value(&mut label, reply)?;
        self.put(Glyph::Label(at.moved(9, 12), Paint::Value, label))
    }

    // What the messages say that stay in flight, each where its arrow ends.
    fn put_flights(&mut self, trace: &Trace, arrows: &[Arrow]) -> Result<(), AllocError> {
        let mut k: usize = 0;
        let mut last = None;
        for arrow in arrows.iter().filter(|arrow| !arrow.came) {
            let way = Some(arrow.put.way);
            k = if last == way { k.saturating_add(1) } else { 0 };
            last = way;
            self.put_flight(trace, arrow, k)?;
        }
        Ok(())
    }

    // The k-th message in flight on the way of an arrow, if that is a link.
    fn put_flight(&mut self, trace: &Trace, arrow: &Arrow, k: usize) -> Result<(), AllocError> {
        let Way { from, to } = arrow.put.way;
        if let (Lane::Server(i), Lane::Server(j)) = (from, to)
            && let Some(message) = trace.message(i, j, k)
        {
            let mut label = Text::new(self.alloc);
            put_body(&mut label, &message.body)?;
            let at = self.lanes.point(to, arrow.row).moved(9, 12);
            self.put(Glyph::Label(at, Paint::Pale, label))?;
        }
        Ok(())
    }
}
