//! Scenes: a world that events change until one is refused, and the run of a whole schedule.
ghost use Rattle.std.specs.Prelude.{◌≡◌, ◌<◌, ◌≤◌, ℕ, ◌+◌, List, Some, take, ◌↔◌, true, false, nat_lt, length};
ghost use Rattle.std.specs.Prelude.{slice_get, IsSome, OnOk, OnErr, IfOk, IfErr, IsErrOf};
ghost use Rattle.std.specs.List.{list_all};
ghost use Rattle.proto.specs.Streams.{turns};
ghost use Rattle.world.specs.declared.transcripts.CallTranscript.{CallTranscript};
ghost use Rattle.world.specs.Calls.{CallId, begun_call, reply_to};
ghost use Rattle.world.specs.Orders.{OrderedCall, IsLinearization};
ghost use Rattle.world.specs.Sent.{position_of, sent_bytes, calls_of};
ghost use Rattle.world.specs.Progress.{past};
ghost use Rattle.world.specs.Worlds.{opening_world, lives, happens, run_of};
ghost use Rattle.world.specs.Quiet as quiet;
ghost use Rattle.world.specs.Shown.{call_shown, reply_shown, calls_in, replies_in};
ghost use Rattle.world.specs.Scenes.{going, is_count, are_homes, sent_to};
ghost use Rattle.world.specs.Transcripts.{ConnectionShown, transcript_of};

use crate::laws::{
    calls_follow_the_stream, none_forgotten, one_open, one_order, sent_bytes_follow_the_stream,
    transcripts_show_the_calls,
};
use crate::worlds::World;
use crate::{Event, SceneFault, Transcript};
use std::alloc::{AllocError, Global};
use std::marker::Model;

/// The most connections of a scene.
pub const MOST_HOMES: usize = 64;

/// The most servers of a scene.
pub const MOST_SERVERS: usize = node::SERVERS as usize;

/// A world that events change, one after another. An event that runs out of memory spoils it for good.
#[derive(Drop)]
pub struct Scene {
    world: World,
    spoiled: bool,
}

impl Model for Scene {
    ghost use Rattle.std.specs.Coded.{codes};
    ghost use Rattle.versions.specs.Stores.{coded_items};
    ghost use Rattle.world.specs.Scenes.{SceneState};

    ghost Value = { SceneState };

    ghost coded = { Prim.hlevel (codes, coded_items) };

    ghost view = { λ s. record { world = s.world; spoiled = s.spoiled } };
}

impl Scene {
    /// A chain of `count` servers before any event, with a connection at each of these homes. `BadCount` if the servers
    /// are not 1 to 16, else `BadHomes` if there are more than 64 homes or one is no server, else `Memory`.
    /// It allocates the square of the number of servers in empty links.
    pub fn new(alloc: Global, count: usize, homes: &[usize]) -> Result<Scene, SceneFault>
        ensures opening { IfOk result (λ scene. scene ≡ going (opening_world count homes.now)) }
        ensures bad_count { IsErrOf result SceneFault.BadCount ↔ (is_count count ≡ false) }
        // At most 64 homes, each the number of a server.
        ensures bad_homes { IsErrOf result SceneFault.BadHomes
            ↔ ((is_count count ≡ true) × (are_homes count homes.now ≡ false)) }
        ensures not_spoiled { IsErrOf result SceneFault.Spoiled → ⊥ }
    {
        if !is_count(count) {
            return Err(SceneFault::BadCount);
        }
        if !are_homes(count, homes) {
            return Err(SceneFault::BadHomes);
        }
        Ok(Scene {
            world: World::new(alloc, count as u8, homes)?,
            spoiled: false,
        })
    }

    /// One event. A piece costs its bytes, which are copied once; a begin, the bytes that it reads; a hand, the reply's
    /// text; a call, message or notice, the server's step, whose outputs are moved. None costs more because the world
    /// has run long, but if a buffer grows. Refused with `Memory`, which spoils the scene, and with `Spoiled` from
    /// then on.
    pub fn event(&mut self, event: &Event) -> Result<(), SceneFault>
        ensures ok { OnOk result (self.new ≡ going (happens self.old.world event.now)) }
        // Memory spoils the scene, and Spoiled is answered exactly from then on.
        ensures memory { self.old.spoiled ≡ false → IfErr result (λ fault. fault ≡ SceneFault.Memory) }
        ensures spoiled { IsErrOf result SceneFault.Spoiled ↔ (self.old.spoiled ≡ true) }
        ensures spoils { OnErr result (self.new.spoiled ≡ true) }
        ensures connections { length self.new.world.connections ≡ length self.old.world.connections }
        ensures unchanged { IsErrOf result SceneFault.Spoiled → self.new ≡ self.old }
    {
        if self.spoiled {
            return Err(SceneFault::Spoiled);
        }
        self.spoiled = true;
        self.world.happen(event)?;
        self.spoiled = false;
        Ok(())
    }

    /// What a connection was sent. Of a spoiled scene it is that of a world whose last event may be done by half.
    pub fn sent(&self, c: usize) -> &[u8]
        requires connection { c < length self.now.world.connections }
        ensures { result.now ≡ sent_to (slice_get self.now.world.connections c) }
    {
        self.world.sent(c)
    }

    /// Whether nothing waits at living servers. It looks at each pair of servers and each connection. Of a spoiled
    /// scene it is that of a world whose last event may be done by half.
    pub fn is_quiet(&self) -> bool
        ensures { result ≡ quiet.is_quiet self.now.world }
    {
        self.world.is_quiet()
    }

    /// The world alone.
    pub(crate) fn into_world(self) -> World
        ensures { result ≡ self.world }
    {
        self.world
    }

    /// What is shown of it. Refused only when out of memory. It copies the sent bytes once. Of a spoiled scene it is
    /// that of a world whose last event may be done by half.
    pub fn transcript(self, alloc: Global) -> Result<Transcript, AllocError>
        ensures { IfOk result (λ t. t ≡ transcript_of self.world) }
    {
        self.world.transcript(alloc)
    }
}

/// Runs a schedule over a chain of this many servers, with a connection at each of these homes, and gives what it
/// shows. Refused as `Scene::new` is, and with `Memory`. It keeps each begun call, each reply and each sent byte until
/// it returns.
pub fn run(
    alloc: Global,
    count: usize,
    homes: &[usize],
    events: &[Event],
) -> Result<Transcript, SceneFault>
    ensures transcript { IfOk result (λ t. t ≡ transcript_of (run_of count homes.now events.now)) }
    // One order of calls, each with the reply of a single table, whatever servers fail and when. It holds of the
    // schedule, also if this run is refused.
    ensures order { count ≤ 16 → (h : List OrderedCall) × IsLinearization count homes.now events.now h }
    // Each begun call is shown under its name.
    ensures shown_calls { IfOk result
        (λ t. (x : CallId) → call_shown t x ≡ begun_call (run_of count homes.now events.now) x) }
    // What is shown of a call is the reply that it got in the order above.
    ensures shown { IfOk result (λ t. (x : CallId) → reply_shown t x ≡ reply_to (run_of count homes.now events.now) x) }
    // A connection's stream is what came to it while it was open and its server lived; its ordinal, how many turns of
    // that stream it has passed: faults by `begin`, calls by `hand`. It is shown to have been sent the texts of these
    // turns, fault lines among them, however its bytes were cut.
    ensures sent { IfOk result (λ t. (c : ℕ) (k : ConnectionShown) → slice_get t.connections c ≡ Some k
        → k.sent ≡ sent_bytes (position_of count homes.now events.now c) (replies_in k.calls)) }
    // The calls that are shown of it are the first among the turns of its stream.
    ensures calls { IfOk result (λ t. (c : ℕ) (k : ConnectionShown) → slice_get t.connections c ≡ Some k
        → calls_in k.calls ≡ take (length k.calls) (calls_of
        (turns (position_of count homes.now events.now c).stream))) }
    // As many of them have replies as there are calls among the turns up to its ordinal,
    ensures answered { IfOk result (λ t. (c : ℕ) (k : ConnectionShown) → slice_get t.connections c ≡ Some k
        → length (replies_in k.calls) ≡ length (calls_of (past (position_of count homes.now events.now c)))) }
    // and these are the first.
    ensures in_turn { IfOk result (λ t. (c : ℕ) (k : ConnectionShown) → slice_get t.connections c ≡ Some k
        → (p : ℕ) (call : CallTranscript) → slice_get k.calls p ≡ Some call
        → IsSome call.reply ↔ p < length (replies_in k.calls)) }
    // At most one of them is open.
    ensures one_open { IfOk result (λ t. (c : ℕ) (k : ConnectionShown) → slice_get t.connections c ≡ Some k
        → length k.calls ≤ length (replies_in k.calls) + 1) }
    // If the transcript says `quiet`, each call that it shows at a living home has its reply.
    ensures none_forgotten { IfOk result (λ t. t.quiet ≡ true
        → (c : ℕ) (k : ConnectionShown) → slice_get t.connections c ≡ Some k
        → lives (run_of count homes.now events.now) k.home ≡ true
        → (p : ℕ) (call : CallTranscript) → slice_get k.calls p ≡ Some call → IsSome call.reply) }
    ensures bad_count { IsErrOf result SceneFault.BadCount ↔ (is_count count ≡ false) }
    // At most 64 homes, each the number of a server.
    ensures bad_homes { IsErrOf result SceneFault.BadHomes
        ↔ ((is_count count ≡ true) × (are_homes count homes.now ≡ false)) }
    ensures not_spoiled { IsErrOf result SceneFault.Spoiled → ⊥ }
{
    one_order();
    transcripts_show_the_calls();
    one_open();
    sent_bytes_follow_the_stream();
    calls_follow_the_stream();
    none_forgotten();
    let mut scene = Scene::new(alloc, count, homes)?;
    for event in events {
        scene.event(event)?;
    }
    Ok(scene.transcript(alloc)?)
}

pub(crate) fn is_count(count: usize) -> bool
    ensures { result ≡ is_count count }
{
    1 <= count && count <= MOST_SERVERS
}

pub(crate) fn are_homes(count: usize, homes: &[usize]) -> bool
    ensures { result ≡ are_homes count homes.now }
{
    homes.len() <= MOST_HOMES && are_servers(count, homes)
}

fn are_servers(count: usize, homes: &[usize]) -> bool
    ensures { result ≡ list_all (λ home. nat_lt home count) homes.now }
{
    homes.iter().all(|home| *home < count)
}
