//! The commands `trace` and `draw`: a schedule in, and out what each of its events did, as text or as a picture.
ghost use Rattle.std.specs.Prelude.{◌≡◌, ◌≢◌, ◌<◌, ◌↔◌, OnOk, OnErr, IfOk, IfErr, IsErrOf, string_bytes, true};
ghost use Rattle.commands.specs.Faults.{IsTold, status_of};
ghost use Rattle.commands.specs.Scenarios.{IsScenarioStatus, NamesLine, NamesLineOf};
ghost use Rattle.commands.specs.Tellings.{BeginsTelling, Tells, TellsAll, TellsBeginning, WritesTelling};
ghost use Rattle.commands.specs.declared.faults.ScenarioFault.{ScenarioFault};
ghost use Rattle.commands.specs.declared.faults.ScenarioFault.TheVariants.{Run};

use crate::faults::ScenarioFault;
use crate::program::unopened;
use command_line::{DONE, Telling};
use ends::{Sink, Source, TrackedReader, read_to_end, write_all};
use schedules::read_schedule;
use std::alloc::Global;
use std::fs;
use std::rt::Files;
use traces::{draw, print_trace};
use world::traced_run;

/// Tells the schedule of a file to the output, and answers the exit status; the file `-` is the standard input. The
/// statuses and the lines of faults are those of `scenario`.
pub fn tell_file<R: Files + Input + AllocGlobal, W: Sink, X: Sink>(
    rt: &R,
    telling: Telling,
    file: String,
    output: &mut W,
    errors: &mut X,
) -> u8
    ensures status { IsScenarioStatus result }
    ensures shown { result ≡ DONE → WritesTelling telling (W.written output.old) (W.written output.new) }
    ensures written { result ≡ DONE → W.failures output.new ≡ W.failures output.old }
    ensures silent { result ≡ DONE → errors.new ≡ errors.old }
    ensures fault { result ≢ DONE → (fault : ScenarioFault) × (result ≡ status_of fault) ×
        (fault ≡ Run → W.failures output.old < W.failures output.new) ×
        IsTold (string_bytes file) fault (X.failures errors.old) (X.failures errors.new)
        (X.written errors.old) (X.written errors.new) }
    ensures begun { W.failures output.old < W.failures output.new →
        BeginsTelling telling (W.written output.old) (W.written output.new) }
    ensures untouched { result ≢ DONE → W.failures output.new ≡ W.failures output.old → output.new ≡ output.old }
{
    let file = file.as_str();
    if file == "-" {
        let mut source = TrackedReader::new(rt.reader());
        return tell_source(rt.alloc(), telling, file, &mut source, output, errors);
    }
    match fs::open(rt, file) {
        Ok(opened) => {
            let mut source = TrackedReader::new(opened);
            tell_source(rt.alloc(), telling, file, &mut source, output, errors)
        }
        Err(e) => {
            let fault = unopened(&e);
            let _ = fault.tell(file, errors);
            fault.status()
        }
    }
}

// Tells the schedule that the source holds; `name` is the file's name in the line of a fault.
fn tell_source<R: Source, W: Sink, X: Sink>(
    alloc: Global,
    telling: Telling,
    name: &str,
    source: &mut R,
    sink: &mut W,
    errors: &mut X,
) -> u8
    ensures status { IsScenarioStatus result }
    ensures shown { result ≡ DONE →
        TellsAll telling (R.given source.old) (R.given source.new) (W.written sink.old) (W.written sink.new) }
    ensures written { result ≡ DONE → W.failures sink.new ≡ W.failures sink.old }
    ensures silent { result ≡ DONE → errors.new ≡ errors.old }
    ensures fault { result ≢ DONE → (fault : ScenarioFault) × (result ≡ status_of fault) ×
        NamesLineOf (R.given source.old) (R.given source.new) (R.has_ended source.new) fault ×
        (fault ≡ Run → W.failures sink.old < W.failures sink.new) ×
        IsTold name.now fault (X.failures errors.old) (X.failures errors.new)
        (X.written errors.old) (X.written errors.new) }
    ensures begun { W.failures sink.old < W.failures sink.new →
        TellsBeginning telling (R.given source.old) (R.given source.new) (W.written sink.old) (W.written sink.new) }
    ensures untouched { result ≢ DONE → W.failures sink.new ≡ W.failures sink.old → sink.new ≡ sink.old }
{
    match tell(alloc, telling, source, sink) {
        Ok(()) => DONE,
        Err(fault) => {
            let _ = fault.tell(name, errors);
            fault.status()
        }
    }
}

fn tell<R: Source, W: Sink>(
    alloc: Global,
    telling: Telling,
    source: &mut R,
    sink: &mut W,
) -> Result<(), ScenarioFault>
    ensures shown { OnOk result
        (TellsAll telling (R.given source.old) (R.given source.new) (W.written sink.old) (W.written sink.new)) }
    ensures written { OnOk result (W.failures sink.new ≡ W.failures sink.old) }
    ensures unwritten { IsErrOf result ScenarioFault.Run ↔ (W.failures sink.old < W.failures sink.new) }
    ensures bad_line { IfErr result (NamesLineOf (R.given source.old) (R.given source.new) (R.has_ended source.new)) }
    ensures begun { W.failures sink.old < W.failures sink.new →
        TellsBeginning telling (R.given source.old) (R.given source.new) (W.written sink.old) (W.written sink.new) }
    ensures untouched { OnErr result (W.failures sink.new ≡ W.failures sink.old → sink.new ≡ sink.old) }
{
    let schedule = read_to_end(alloc, source)?;
    let text = told(alloc, telling, schedule.as_slice())?;
    write_all(sink, text.as_slice())?;
    Ok(())
}

fn told(alloc: Global, telling: Telling, text: &[u8]) -> Result<Vec<u8>, ScenarioFault>
    // A trace is the text of what each event of the schedule did, of how its run ends, and of its transcript; a picture
    // has the arrows of that trace.
    ensures told { IfOk result (λ shown. Tells telling text.now shown.items) }
    ensures bad_line { IfErr result (NamesLine text.now) }
    ensures readable { IfErr result (λ fault. fault ≢ ScenarioFault.Unreadable) }
    // A schedule that is read can be run.
    ensures writable { IfErr result (λ fault. fault ≢ ScenarioFault.Run) }
{
    let schedule = read_schedule(alloc, text)?;
    let homes = schedule.homes.as_slice();
    let events = schedule.events.as_slice();
    let trace = traced_run(alloc, schedule.count, homes, events)?;
    match telling {
        Telling::Trace => Ok(print_trace(alloc, events, trace)?),
        Telling::Draw => Ok(draw(alloc, homes, events, &trace)?),
    }
}
