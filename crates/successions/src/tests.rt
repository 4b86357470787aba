//! Two members, their masters, and the next generation.

use crate::{Decision, Members, Order, Phase, Standing, Succession};
use std::alloc::Global;
use std::test::Fail;

// One process, as server 0.
fn alone(process: u64) -> Members {
    let mut processes = [0; 16];
    processes[0] = process;
    Members { processes }
}

// A quiet table of seven updates, while nobody is known to be gone.
fn quiet() -> Standing {
    Standing {
        view: 0,
        last: 7,
        committed: 7,
        idle: true,
    }
}

// Both members hear the order of a master, and that one hears their reports.
fn told(decision: &mut Decision, one: &mut Succession, other: &mut Succession) {
    let order = decision.order();
    decision.hear(0, one.hear(order, quiet()));
    decision.hear(1, other.hear(order, quiet()));
}

// Two members in this epoch, and its master, who has heard them.
fn polled(alloc: Global, epoch: u64) -> (Decision, Succession, Succession) {
    let mut decision = Decision::new(alloc, epoch, 0, 3);
    let mut one = Succession::serving(0, alone(1));
    let mut other = Succession::serving(0, alone(1));
    one.enter(epoch);
    other.enter(epoch);
    told(&mut decision, &mut one, &mut other);
    (decision, one, other)
}

// A generation is agreed on, switched to and opened.
fn goes_on(alloc: Global) -> bool {
    let (mut decision, mut one, mut other) = polled(alloc, 1);
    let proposed = decision.propose(alone(5));
    let early = decision.decide().is_some();
    told(&mut decision, &mut one, &mut other);
    let held = !one.begins_updates() && !other.begins_updates();
    let decided = decision.decide() == Some(7);
    let closed = decision.opening().is_none();
    told(&mut decision, &mut one, &mut other);
    let opened = decision.opening() == Some(Order::Open(1, 1, alone(5)));
    proposed && !early && held && decided && closed && opened
}

// A next member opens by the order for its generation.
fn opens() -> bool {
    let mut next = Succession::started(1, alone(5));
    next.enter(1);
    next.hear(Order::Open(1, 1, alone(6)), quiet());
    let closed = next.report(quiet()).phase == Phase::Started;
    let report = next.hear(Order::Open(1, 1, alone(5)), quiet());
    closed && next.begins_updates() && report.epoch == 1 && report.generation == 1
}

// A later master adopts what both have accepted, and is free once it is void.
fn adopts(alloc: Global, ends: bool) -> Option<bool> {
    let (mut first, mut one, mut other) = polled(alloc, 1);
    first.propose(alone(5));
    told(&mut first, &mut one, &mut other);
    one.enter(2);
    other.enter(2);
    let mut second = Decision::new(alloc, 2, 0, 3);
    told(&mut second, &mut one, &mut other);
    if ends && second.end(5).is_err() {
        return None;
    }
    let free = second.resume();
    if free {
        told(&mut second, &mut one, &mut other);
        Some(one.begins_updates() && other.begins_updates())
    } else {
        Some(second.adopt() == Some(alone(5)) && second.order() == Order::Seal(2, 0, alone(5)))
    }
}

// A later master goes on with a switch that has reached one member, once the other is gone.
fn finishes(alloc: Global) -> bool {
    let (mut first, mut one, mut other) = polled(alloc, 1);
    first.propose(alone(5));
    told(&mut first, &mut one, &mut other);
    first.decide();
    one.hear(first.order(), quiet());
    one.enter(2);
    let mut second = Decision::new(alloc, 2, 0, 3);
    second.hear(0, one.report(quiet()));
    let waits = second.finish().is_none();
    second.lose(2);
    waits
        && second.finish() == Some(alone(5))
        && second.opening() == Some(Order::Open(2, 1, alone(5)))
}

// What was looked for holds.
fn holds(found: bool) -> Result<(), Fail> {
    if found {
        Ok(())
    } else {
        Err("it holds".into())
    }
}

#[test]
fn a_generation_follows(rt: HostRuntime) -> Result<(), Fail> {
    holds(goes_on(rt.alloc()) && opens() && finishes(rt.alloc()))
}

#[test]
fn what_was_accepted_is_adopted(rt: HostRuntime) -> Result<(), Fail> {
    holds(adopts(rt.alloc(), false) == Some(true) && adopts(rt.alloc(), true) == Some(true))
}
