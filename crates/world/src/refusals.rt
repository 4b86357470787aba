//! Refusals: a run in which a server whose step is out of memory has failed.
ghost use Rattle.std.specs.Prelude.{◌≡◌, ◌<◌, ◌≤◌, ℕ, ◌+◌, List, Some, take, ◌↔◌, true, false, length, slice_get};
ghost use Rattle.std.specs.Prelude.{IsSome, IfOk, IfErr, IsErrOf};
ghost use Rattle.proto.specs.Streams.{turns};
ghost use Rattle.world.specs.declared.transcripts.CallTranscript.{CallTranscript};
ghost use Rattle.world.specs.Calls.{CallId, begun_call, reply_to};
ghost use Rattle.world.specs.Orders.{OrderedCall, IsLinearization};
ghost use Rattle.world.specs.Sent.{position_of, sent_bytes, calls_of};
ghost use Rattle.world.specs.Progress.{past};
ghost use Rattle.world.specs.Worlds.{opening_world, lives, run_of};
ghost use Rattle.world.specs.Shown.{call_shown, reply_shown, calls_in, replies_in};
ghost use Rattle.world.specs.Scenes.{is_count, are_homes};
ghost use Rattle.world.specs.Transcripts.{ConnectionShown, transcript_of};
ghost use Rattle.world.specs.Refusals.{with_failures, RiseFrom, WouldStep};
ghost use Rattle.world.specs.LivingParts.{IsFailingRun};

use crate::laws::{
    calls_follow_the_stream, none_forgotten, one_open, one_order, sent_bytes_follow_the_stream,
    transcripts_show_the_calls,
};
use crate::worlds::World;
use crate::{Event, Scene, SceneFault, Transcript};
use std::alloc::Global;

/// Runs a schedule as `run` does, but for this: if the step of a server is out of memory, the event is the failure of
/// that server, and the run goes on. Beside what the run shows it gives the ordinal of each such event, counted from
/// 0, with the server, in the order of the ordinals. Refused as `run` is, with `Memory` if a growth outside a server's
/// step is refused. It costs what `run` costs, and two numbers for each refused step.
pub fn run_failing(
    alloc: Global,
    count: usize,
    homes: &[usize],
    events: &[Event],
) -> Result<(Transcript, Vec<(usize, usize)>), SceneFault>
    // The events of this run are those that were passed, with the failure of the named server at each named ordinal.
    ensures transcript { IfOk result (λ found. let events = with_failures events.now found.1.items in
        found.0 ≡ transcript_of (run_of count homes.now events)) }
    // The named ordinals rise,
    ensures rise { IfOk result (λ found. RiseFrom 0 found.1.items) }
    // and each named server is the one that would step at its event, and hasn't failed before.
    ensures stepped { IfOk result (λ found. (n : ℕ) (p : ℕ × ℕ) → slice_get found.1.items n ≡ Some p
        → WouldStep (opening_world count homes.now) events.now found.1.items p.0 p.1) }
    // One order of calls, each with the reply of a single table, whatever servers fail and when.
    ensures order { IfOk result (λ found. let events = with_failures events.now found.1.items in
        (h : List OrderedCall) × IsLinearization count homes.now events h) }
    // Each begun call is shown under its name.
    ensures shown_calls { IfOk result (λ found. let events = with_failures events.now found.1.items in
        (x : CallId) → call_shown found.0 x ≡ begun_call (run_of count homes.now events) x) }
    // What is shown of a call is the reply that it got in the order above.
    ensures shown { IfOk result (λ found. let events = with_failures events.now found.1.items in
        (x : CallId) → reply_shown found.0 x ≡ reply_to (run_of count homes.now events) x) }
    // A connection's stream is what came to it while it was open and its server lived; its ordinal, how many turns of
    // that stream it has passed: faults by `begin`, calls by `hand`. It is shown to have been sent the texts of these
    // turns, fault lines among them, however its bytes were cut.
    ensures sent { IfOk result (λ found. let events = with_failures events.now found.1.items in
        (c : ℕ) (k : ConnectionShown) → slice_get found.0.connections c ≡ Some k
        → k.sent ≡ sent_bytes (position_of count homes.now events c) (replies_in k.calls)) }
    // The calls that are shown of it are the first among the turns of its stream.
    ensures calls { IfOk result (λ found. let events = with_failures events.now found.1.items in
        (c : ℕ) (k : ConnectionShown) → slice_get found.0.connections c ≡ Some k
        → calls_in k.calls ≡ take (length k.calls) (calls_of (turns (position_of count homes.now events c).stream))) }
    // As many of them have replies as there are calls among the turns up to its ordinal,
    ensures answered { IfOk result (λ found. let events = with_failures events.now found.1.items in
        (c : ℕ) (k : ConnectionShown) → slice_get found.0.connections c ≡ Some k
        → length (replies_in k.calls) ≡ length (calls_of (past (position_of count homes.now events c)))) }
    // and these are the first.
    ensures in_turn { IfOk result (λ found. (c : ℕ) (k : ConnectionShown) → slice_get found.0.connections c ≡ Some k
        → (p : ℕ) (call : CallTranscript) → slice_get k.calls p ≡ Some call
        → IsSome call.reply ↔ p < length (replies_in k.calls)) }
    // At most one of them is open.
    ensures one_open { IfOk result (λ found. (c : ℕ) (k : ConnectionShown) → slice_get found.0.connections c ≡ Some k
        → length k.calls ≤ length (replies_in k.calls) + 1) }
    // If the transcript says `quiet`, each call that it shows at a living home has its reply.
    ensures none_forgotten { IfOk result (λ found. let events = with_failures events.now found.1.items in
        found.0.quiet ≡ true
        → (c : ℕ) (k : ConnectionShown) → slice_get found.0.connections c ≡ Some k
        → lives (run_of count homes.now events) k.home ≡ true
        → (p : ℕ) (call : CallTranscript) → slice_get k.calls p ≡ Some call → IsSome call.reply) }
    ensures bad_count { IsErrOf result SceneFault.BadCount ↔ (is_count count ≡ false) }
    // At most 64 homes, each the number of a server.
    ensures bad_homes { IsErrOf result SceneFault.BadHomes ↔
        ((is_count count ≡ true) × (are_homes count homes.now ≡ false)) }
    ensures not_spoiled { IsErrOf result SceneFault.Spoiled → ⊥ }
{
    one_order();
    transcripts_show_the_calls();
    one_open();
    sent_bytes_follow_the_stream();
    calls_follow_the_stream();
    none_forgotten();
    let mut world = Scene::new(alloc, count, homes)?.into_world();
    match world.attempt_all(alloc, events) {
        Ok(refused) => Ok((world.transcript(alloc)?, refused)),
        Err(fault) => {
            drop(world);
            Err(fault)
        }
    }
}

impl World {
    /// What the events do, one after another; if the step of a server is out of memory, its failure in
    /// place of the event. The ordinals of these events, counted from 0, each with its server.
    pub fn attempt_all(
        &mut self,
        alloc: Global,
        events: &[Event],
    ) -> Result<Vec<(usize, usize)>, SceneFault>
        ensures run { IfOk result (λ refused. IsFailingRun self.old events.now refused.items self.new) }
        ensures only_memory { IfErr result (λ fault. fault ≡ SceneFault.Memory) }
    {
        let mut refused = Vec::new(alloc);
        for (ordinal, event) in events.iter().enumerate() {
            if let Some(server) = self.attempt(event)? {
                refused.push((ordinal, server))?;
            }
        }
        Ok(refused)
    }
}
