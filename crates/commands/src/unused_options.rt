//! Options that change nothing as they were given.
ghost use Rattle.std.specs.Prelude.{◌≡◌, codes, true};

use command_line::{Command, Serve, UsageFault};
use std::alloc::{AllocError, Global};

/// What is printed if a master that doesn't watch is told how to.
const NO_WATCH: &str = "error: --beat and --after say how to watch, and --watch is not given\n";

/// The command, unless one of the words, by which it was asked for, gives an option that changes nothing: a master that
/// doesn't watch is told how to.
pub(crate) fn refuse_unused(
    alloc: Global,
    command: Command,
    words: &[&str],
) -> Result<Command, UsageFault> {
    if is_unwatched_master(&command) && gives_pace(words) {
        drop(command);
        return Err(usage(alloc));
    }
    Ok(command)
}

fn is_unwatched_master(command: &Command) -> bool {
    match command {
        Command::Serve(Serve::Master(numbers, _)) => !numbers.watch,
        _ => false,
    }
}

// Whether one of the words gives `--beat` or `--after`. No word that the parser takes begins so and is something else:
// it takes no value that begins with a hyphen.
fn gives_pace(words: &[&str]) -> bool {
    for word in words {
        if is_pace(word) {
            return true;
        }
    }
    false
}

fn is_pace(word: &str) -> bool
    ensures beat { word.now ≡ codes "--beat" → result ≡ true }
    ensures after { word.now ≡ codes "--after" → result ≡ true }
{
    word == "--beat"
        || word == "--after"
        || word.starts_with("--beat=")
        || word.starts_with("--after=")
}

fn usage(alloc: Global) -> UsageFault {
    match String::from_str(alloc, NO_WATCH) {
        Ok(text) => UsageFault::Usage(text),
        Err(AllocError) => UsageFault::Memory,
    }
}
