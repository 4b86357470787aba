//! The command `scenario`: a schedule in, its transcript out.
ghost use Rattle.std.specs.Prelude.{◌≡◌, ◌≢◌, ◌<◌, ◌↔◌, OnOk, OnErr, IfOk, IfErr, IsErrOf, true};
ghost use Rattle.commands.specs.Faults.{IsTold, status_of};
ghost use Rattle.commands.specs.Scenarios.{IsScenarioStatus, NamesLine, NamesLineOf, Replays, Shows, ShowsBeginning};
ghost use Rattle.commands.specs.declared.faults.ScenarioFault.{ScenarioFault};
ghost use Rattle.commands.specs.declared.faults.ScenarioFault.TheVariants.{Unreadable, Run};

use crate::faults::ScenarioFault;
use command_line::{DONE, FAILED};
use ends::{Sink, Source, read_to_end, write_all};
use schedules::{print_transcript, read_schedule};
use std::alloc::Global;
use world::run;

/// Replays the schedule that the source holds, prints the transcript to the sink, and answers the exit status.
/// The line of a fault goes to `errors`; `name` is the file's name in that line.
/// The status is 0 if all was written, 3 if memory is out, else 1. It takes time linear in the schedule and its run.
pub fn scenario<R: Source, W: Sink, X: Sink>(
    alloc: Global,
    name: &str,
    source: &mut R,
    sink: &mut W,
    errors: &mut X,
) -> u8
    ensures status { IsScenarioStatus result }

    // Done: all was read, and all was written.
    ensures shown { result ≡ DONE →
        Shows (R.given source.old) (R.given source.new) (W.written sink.old) (W.written sink.new) }
    ensures ended { result ≡ DONE → R.has_ended source.new ≡ true }
    ensures read { result ≡ DONE → R.failures source.new ≡ R.failures source.old }
    ensures written { result ≡ DONE → W.failures sink.new ≡ W.failures sink.old }
    ensures silent { result ≡ DONE → errors.new ≡ errors.old }

    // Else the status is that of a fault, which has its cause, and which one line tells if the errors can be written.
    ensures fault { result ≢ DONE → (fault : ScenarioFault) × (result ≡ status_of fault) ×
        (fault ≡ Unreadable → R.failures source.old < R.failures source.new) ×
        NamesLineOf (R.given source.old) (R.given source.new) (R.has_ended source.new) fault ×
        (fault ≡ Run → W.failures sink.old < W.failures sink.new) ×
        IsTold name.now fault (X.failures errors.old) (X.failures errors.new)
        (X.written errors.old) (X.written errors.new) }
    ensures unreadable { R.failures source.old < R.failures source.new → (result ≡ FAILED) ×
        IsTold name.now Unreadable (X.failures errors.old) (X.failures errors.new)
        (X.written errors.old) (X.written errors.new) }
    ensures unwritten { W.failures sink.old < W.failures sink.new → (result ≡ FAILED) ×
        IsTold name.now Run (X.failures errors.old) (X.failures errors.new)
        (X.written errors.old) (X.written errors.new) }
    // A write failed: all was read, and a beginning of the text was written.
    ensures begun { W.failures sink.old < W.failures sink.new →
        ShowsBeginning (R.given source.old) (R.given source.new) (W.written sink.old) (W.written sink.new) ×
        (R.has_ended source.new ≡ true) }
    ensures untouched { result ≢ DONE → W.failures sink.new ≡ W.failures sink.old → sink.new ≡ sink.old }
{
    match replay(alloc, source, sink) {
        Ok(()) => DONE,
        Err(fault) => {
            let _ = fault.tell(name, errors);
            fault.status()
        }
    }
}

fn replay<R: Source, W: Sink>(
    alloc: Global,
    source: &mut R,
    sink: &mut W,
) -> Result<(), ScenarioFault>
    ensures shown { OnOk result
        (Shows (R.given source.old) (R.given source.new) (W.written sink.old) (W.written sink.new)) }
    ensures ended { OnOk result (R.has_ended source.new ≡ true) }
    ensures read { OnOk result (R.failures source.new ≡ R.failures source.old) }
    ensures written { OnOk result (W.failures sink.new ≡ W.failures sink.old) }
    ensures unreadable { IsErrOf result ScenarioFault.Unreadable ↔ (R.failures source.old < R.failures source.new) }
    ensures unwritten { IsErrOf result ScenarioFault.Run ↔ (W.failures sink.old < W.failures sink.new) }
    ensures bad_line { IfErr result (NamesLineOf (R.given source.old) (R.given source.new) (R.has_ended source.new)) }
    ensures begun { W.failures sink.old < W.failures sink.new →
        ShowsBeginning (R.given source.old) (R.given source.new) (W.written sink.old) (W.written sink.new) ×
        (R.has_ended source.new ≡ true) }
    ensures untouched { OnErr result (W.failures sink.new ≡ W.failures sink.old → sink.new ≡ sink.old) }
{
    let schedule = read_to_end(alloc, source)?;
    let transcript = replayed(alloc, schedule.as_slice())?;
    write_all(sink, transcript.as_slice())?;
    Ok(())
}

fn replayed(alloc: Global, text: &[u8]) -> Result<Vec<u8>, ScenarioFault>
    ensures shown { IfOk result (λ shown. Replays text.now shown.items) }
    ensures bad_line { IfErr result (NamesLine text.now) }
    ensures readable { IfErr result (λ fault. fault ≢ ScenarioFault.Unreadable) }
    // A schedule that is read can be run.
    ensures writable { IfErr result (λ fault. fault ≢ ScenarioFault.Run) }
{
    let schedule = read_schedule(alloc, text)?;
    let transcript = run(
        alloc,
        schedule.count,
        schedule.homes.as_slice(),
        schedule.events.as_slice(),
    )?;
    Ok(print_transcript(alloc, &transcript)?)
}
