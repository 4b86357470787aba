//! Calls that are forgotten: what `none_forgotten` denies is possible in a world, and comes if servers take a wrong
//! step.
ghost use Rattle.std.specs.Prelude.{◌≡◌, ℕ, List, false};
ghost use Rattle.node.specs.declared.messages.Input.{Input};
ghost use Rattle.node.specs.Servers.{ServerState};
ghost use Rattle.node.specs.Steps.{step};
ghost use Rattle.world.specs.declared.events.Event.{Event};
ghost use Rattle.world.specs.Worlds.{run_of};
ghost use Rattle.world.specs.Quiet.{is_quiet};
ghost use Rattle.world.specs.Transcripts.{transcript_of};
ghost use Rattle.world.specs.Forgotten.{NoneForgotten};
ghost use Rattle.world.specs.OtherSteps.{run_by};
ghost use Rattle.world.specs.WrongSteps.{never_forwarding, silent_at_tail, not_caught_up, as_ever, step_by};
ghost use Rattle.world.specs.ForgettingWorlds.{
  stuck,
  head_homes,
  set_taken_events,
  new_tail_events,
  new_successor_events,
  forgotten_transcript,
};

/// A server that joins as ever takes the step of `node`, and with that step the world after a schedule is the ordinary
/// one.
pub fn ordinary_steps()
    ensures step { (s : ServerState) (input : Input) → step_by as_ever s input ≡ step s input }
    ensures run { (count : ℕ) (homes : List ℕ) (events : List Event)
        → run_by step count homes events ≡ run_of count homes events }
{}

/// A world can be quiet, and have forgotten a call.
pub fn forgotten_call()
    ensures { NoneForgotten stuck → ⊥ }
{}

/// A head that never forwards an entry forgets the first set of its client.
pub fn entry_never_forwarded()
    ensures transcript { transcript_of (run_by never_forwarding 2 head_homes set_taken_events) ≡ forgotten_transcript }
    ensures forgets { NoneForgotten (run_by never_forwarding 2 head_homes set_taken_events) → ⊥ }
    // With the step of `node` these events leave the entry on its way.
    ensures ordinary { is_quiet (run_of 2 head_homes set_taken_events) ≡ false }
{}

/// A new tail that acknowledges nothing of what it holds forgets the set that it was to commit.
pub fn new_tail_keeps_silent()
    ensures transcript { transcript_of (run_by silent_at_tail 2 head_homes new_tail_events) ≡ forgotten_transcript }
    ensures forgets { NoneForgotten (run_by silent_at_tail 2 head_homes new_tail_events) → ⊥ }
    // With the step of `node` they leave the reply waiting.
    ensures ordinary { is_quiet (run_of 2 head_homes new_tail_events) ≡ false }
{}

/// A server that doesn't send a new successor what it misses forgets a set whose entry is lost with the failed server.
pub fn new_successor_misses_backlog()
    ensures transcript { transcript_of (run_by not_caught_up 3 head_homes new_successor_events) ≡ forgotten_transcript }
    ensures forgets { NoneForgotten (run_by not_caught_up 3 head_homes new_successor_events) → ⊥ }
    // With the step of `node` they leave the entry on its way to the new successor.
    ensures ordinary { is_quiet (run_of 3 head_homes new_successor_events) ≡ false }
{}
