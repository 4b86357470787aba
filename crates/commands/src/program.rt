//! The program between its arguments, its files and its standard streams.
ghost use Rattle.std.specs.Prelude.{◌≡◌, ◌≢◌, ◌<◌, ◌≤◌, ◌++◌, ℕ, List, [], Ok, true, string_bytes};
ghost use Rattle.std.specs.IoError.{error_kind};
ghost use Rattle.commands.specs.Faults.{IsTold, status_of};
ghost use Rattle.ends.specs.Ends.{WritesBeginning};
ghost use Rattle.commands.specs.Programs.{BeginsOutput, WritesOutput, file_name, is_usage, version_line};
ghost use Rattle.commands.specs.Scenarios.{IsScenarioStatus};
ghost use Rattle.command_line.specs.declared.commands.Print.TheVariants.{Scenario};
ghost use Rattle.commands.specs.declared.faults.ScenarioFault.{ScenarioFault};
ghost use Rattle.commands.specs.declared.faults.ScenarioFault.TheVariants.{Run};

use crate::faults::{ScenarioFault, write_parts};
use crate::scenarios::scenario;
use crate::unused_options::refuse_unused;
use command_line::{Command, DONE, MEMORY, Print, USAGE, UsageFault, VERSION, read_command};
use ends::{Sink, TrackedReader, WriteFault, write_all};
use std::io::ErrorKind;
use std::rt::{Env, Files};
use std::{env, fs, io};

/// Prints what was asked for, and answers the exit status.
///
/// - 0: the transcript, or the version, was printed.
/// - 1: the file or a line of it is bad, or the output can't be written.
/// - 2: the arguments are no command; the parser's text goes to `errors`.
/// - 3: no memory was left.
pub fn run<R: Files + Input + AllocGlobal, W: Sink, X: Sink>(
    rt: &R,
    asked: Result<Print, UsageFault>,
    output: &mut W,
    errors: &mut X,
) -> u8
    ensures status { result ≤ 3 }
    // It is a usage fault if the arguments were no command, and only then.
    ensures refused { is_usage asked ≡ true → result ≡ USAGE }
    ensures asked { result ≡ USAGE → is_usage asked ≡ true }
    // Done: the output got what was asked for, the text of what a schedule's run shows or the version's line, and the
    // errors got nothing.
    ensures shown { result ≡ DONE → WritesOutput asked (W.written output.old) (W.written output.new) }
    ensures written { result ≡ DONE → W.failures output.new ≡ W.failures output.old }
    ensures silent { result ≡ DONE → errors.new ≡ errors.old }
    // Else, but for a usage fault, one line tells a fault of that status, with the name of the file that was asked for.
    ensures fault { result ≢ DONE → result ≢ USAGE → (fault : ScenarioFault) × (result ≡ status_of fault) ×
        (fault ≡ Run → W.failures output.old < W.failures output.new) ×
        IsTold (file_name asked) fault (X.failures errors.old) (X.failures errors.new)
        (X.written errors.old) (X.written errors.new) }
    ensures usage { result ≡ USAGE → output.new ≡ output.old }
    ensures begun { W.failures output.old < W.failures output.new →
        BeginsOutput asked (W.written output.old) (W.written output.new) }
    ensures untouched { result ≢ DONE → W.failures output.new ≡ W.failures output.old → output.new ≡ output.old }
{
    match asked {
        Ok(Print::Scenario { file }) => replay_file(rt, file, output, errors),
        Ok(Print::Version) => print_version(output, errors),
        Err(UsageFault::Usage(text)) => {
            let _ = write_all(errors, text.as_bytes());
            USAGE
        }
        Err(UsageFault::Memory) => {
            let _ = ScenarioFault::Memory.tell("", errors);
            MEMORY
        }
    }
}

/// What the program's arguments ask for. They are refused too if they give an option that changes nothing.
pub fn read_arguments<R: Env + AllocGlobal>(rt: &R) -> Result<Command, UsageFault> {
    let arguments: Vec<String> = arguments(rt)?;
    let words: Vec<&str> = arguments
        .iter()
        .map(|word| word.as_str())
        .collect(rt.alloc())?;
    let command = read_command(rt.alloc(), words.as_slice())?;
    refuse_unused(rt.alloc(), command, words.as_slice())
}

fn arguments<R: Env + AllocGlobal>(rt: &R) -> Result<Vec<String>, UsageFault> {
    match env::args(rt) {
        Ok(arguments) => Ok(arguments.collect(rt.alloc())?),
        Err(e) if e.kind() == ErrorKind::OutOfMemory => Err(UsageFault::Memory),
        Err(_) => {
            let text = String::from_str(rt.alloc(), "error: an argument is no text\n")?;
            Err(UsageFault::Usage(text))
        }
    }
}

// The file `-` is the standard input.
fn replay_file<R: Files + Input + AllocGlobal, W: Sink, X: Sink>(
    rt: &R,
    file: String,
    output: &mut W,
    errors: &mut X,
) -> u8
    ensures status { IsScenarioStatus result }
    ensures shown { result ≡ DONE → WritesOutput (Ok (Scenario file)) (W.written output.old) (W.written output.new) }
    ensures written { result ≡ DONE → W.failures output.new ≡ W.failures output.old }
    ensures silent { result ≡ DONE → errors.new ≡ errors.old }
    ensures fault { result ≢ DONE → (fault : ScenarioFault) × (result ≡ status_of fault) ×
        (fault ≡ Run → W.failures output.old < W.failures output.new) ×
        IsTold (string_bytes file) fault (X.failures errors.old) (X.failures errors.new)
        (X.written errors.old) (X.written errors.new) }
    ensures begun { W.failures output.old < W.failures output.new →
        BeginsOutput (Ok (Scenario file)) (W.written output.old) (W.written output.new) }
    ensures untouched { result ≢ DONE → W.failures output.new ≡ W.failures output.old → output.new ≡ output.old }
{
    let file = file.as_str();
    if file == "-" {
        let mut source = TrackedReader::new(rt.reader());
        return scenario(rt.alloc(), file, &mut source, output, errors);
    }
    match fs::open(rt, file) {
        Ok(opened) => {
            let mut source = TrackedReader::new(opened);
            scenario(rt.alloc(), file, &mut source, output, errors)
        }
        Err(e) => {
            let fault = unopened(&e);
            let _ = fault.tell(file, errors);
            fault.status()
        }
    }
}

fn print_version<W: Sink, X: Sink>(output: &mut W, errors: &mut X) -> u8
    ensures status { IsScenarioStatus result }
    ensures shown { result ≡ DONE → W.written output.new ≡ W.written output.old ++ version_line }
    ensures written { result ≡ DONE → W.failures output.new ≡ W.failures output.old }
    ensures silent { result ≡ DONE → errors.new ≡ errors.old }
    ensures fault { result ≢ DONE → (result ≡ status_of Run) × (W.failures output.old < W.failures output.new) ×
        IsTold [] Run (X.failures errors.old) (X.failures errors.new) (X.written errors.old) (X.written errors.new) }
    ensures begun { W.failures output.old < W.failures output.new →
        WritesBeginning (W.written output.old) (W.written output.new) version_line }
{
    match write_parts(output, b"craq ", VERSION.as_bytes(), b"\n") {
        Ok(()) => DONE,
        Err(WriteFault) => {
            let _ = ScenarioFault::Run.tell("", errors);
            ScenarioFault::Run.status()
        }
    }
}

pub(crate) fn unopened(error: &io::Error) -> ScenarioFault
    ensures memory { error_kind error.now ≡ ErrorKind.OutOfMemory → result ≡ ScenarioFault.Memory }
    ensures other { error_kind error.now ≢ ErrorKind.OutOfMemory → result ≡ ScenarioFault.Unreadable }
{
    if error.kind() == ErrorKind::OutOfMemory {
        ScenarioFault::Memory
    } else {
        ScenarioFault::Unreadable
    }
}
