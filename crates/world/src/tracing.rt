//! Traces: a run, with what each of its events did.
ghost use Rattle.std.specs.Prelude.{◌≡◌, ◌<◌, ◌↔◌, ℕ, true, false, length, slice_get, slice_index_or, IfOk, IfErr};
ghost use Rattle.std.specs.Prelude.{IsErrOf};
ghost use Rattle.std.specs.Option.{option_copied};
ghost use Rattle.node.specs.Nodes.{running};
ghost use Rattle.world.specs.EventEffects.{event_effects_from, event_effects_of, trace_of};
ghost use Rattle.world.specs.Scenes.{is_count, are_homes};
ghost use Rattle.world.specs.Transcripts.{transcript_of};
ghost use Rattle.world.specs.Worlds.{link, nobody, opening_world, run_of};
ghost use Rattle.world.specs.Worlds as worlds;

use crate::scenes::{are_homes, is_count};
use crate::worlds::World;
use crate::{Event, EventEffect, SceneFault, Transcript};
use node::{Node, Peer};
use std::alloc::{AllocError, Global};
use std::marker::Model;

/// A run: the world that it ends in, and what each of its events did.
#[derive(Drop)]
pub struct Trace {
    world: World,
    event_effects: Vec<EventEffect>,
}

impl Model for Trace {
    ghost use Rattle.std.specs.Coded.{codes};
    ghost use Rattle.versions.specs.Stores.{coded_items};
    ghost use Rattle.world.specs.EventEffects.{TraceShown};

    ghost Value = { TraceShown };

    ghost coded = { Prim.hlevel (codes, coded_items) };

    ghost view = { λ t. record { world = t.world; event_effects = t.event_effects.items } };
}

impl Trace {
    /// What each event did, in the order of the schedule.
    pub fn event_effects(&self) -> &[EventEffect]
        ensures { result.now ≡ self.now.event_effects }
    {
        self.event_effects.as_slice()
    }

    /// How many servers the chain has.
    pub fn count(&self) -> usize
        ensures { result ≡ length self.now.world.servers }
    {
        self.world.servers.len()
    }

    /// Whether server i is one of the chain, and hasn't failed.
    pub fn lives(&self, i: usize) -> bool
        ensures { result ≡ worlds.lives self.now.world i }
    {
        self.world.lives(i)
    }

    /// Server i as the run left it.
    pub fn server(&self, i: usize) -> &Node
        requires server { i < length self.now.world.servers }
        ensures { result.now ≡ running (slice_index_or self.now.world.servers i nobody) }
    {
        self.world.servers.node(i)
    }

    /// The k-th message, from 0 on, that the run left on the link from server i to server j, if there is one.
    #[tactic(auto, unfolding(crate::specs::Worlds::link))]
    pub fn message(&self, i: usize, j: usize, k: usize) -> Option<&Peer>
        ensures { option_copied result ≡ slice_get (link self.now.world i j) k }
    {
        self.world.links.message(i, j, k)
    }

    /// What the run shows of its connections. Refused only when out of memory.
    pub fn transcript(self, alloc: Global) -> Result<Transcript, AllocError>
        ensures { IfOk result (λ t. t ≡ transcript_of self.world) }
    {
        self.world.transcript(alloc)
    }
}

/// Runs a schedule as `run` does, and keeps what each event did: the world that it ends in is the run's. Refused as
/// `run` is. Calls, entries, messages and replies that it keeps share their data; each event costs besides what it put
/// out.
pub fn traced_run(
    alloc: Global,
    count: usize,
    homes: &[usize],
    events: &[Event],
) -> Result<Trace, SceneFault>
    ensures trace { IfOk result (λ t. t ≡ trace_of count homes.now events.now) }
    ensures world { IfOk result (λ t. t.world ≡ run_of count homes.now events.now) }
    ensures bad_count { IsErrOf result SceneFault.BadCount ↔ (is_count count ≡ false) }
    // At most 64 homes, each the number of a server.
    ensures bad_homes { IsErrOf result SceneFault.BadHomes
        ↔ ((is_count count ≡ true) × (are_homes count homes.now ≡ false)) }
    ensures not_spoiled { IsErrOf result SceneFault.Spoiled → ⊥ }
{
    if !is_count(count) {
        return Err(SceneFault::BadCount);
    }
    if !are_homes(count, homes) {
        return Err(SceneFault::BadHomes);
    }
    let mut world = World::new(alloc, count as u8, homes)?;
    match all_event_effects(alloc, &mut world, events) {
        Ok(event_effects) => Ok(Trace {
            world,
            event_effects,
        }),
        Err(fault) => {
            drop(world);
            Err(fault)
        }
    }
}

// What the events do, one after another.
fn all_event_effects(
    alloc: Global,
    world: &mut World,
    events: &[Event],
) -> Result<Vec<EventEffect>, SceneFault>
    ensures event_effects { IfOk result (λ event_effects. event_effects.items ≡ event_effects_from world.old events.now) }
    ensures world { IfOk result (λ event_effects. world.new ≡ worlds.run_from world.old events.now) }
    ensures only_memory { IfErr result (λ fault. fault ≡ SceneFault.Memory) }
{
    let mut event_effects = Vec::with_capacity(alloc, events.len())?;
    for event in events {
        event_effects.push(world.happen_telling(alloc, event)?)?;
    }
    Ok(event_effects)
}
