//! The words of the commands that take a FILE, and the file that they give.
ghost use Rattle.std.specs.Prelude.{◌≡◌, ℕ, codes, List, IfOk, IfSome, None};
ghost use Rattle.clap.specs.Words.{subcommand_rows_of};
ghost use Rattle.command_line.specs.FileWords.{NamesFile, file_app};
ghost use Rattle.command_line.specs.Options.{ReadsAs};

use crate::given::given_to;
use crate::options::file_argument;
use clap::{ArgMatches, Command as Parser};
use std::alloc::{AllocError, Global};

/// The FILE that was given to the command of this name, if that is the command.
pub fn file_given<'a>(matches: &ArgMatches<'a>, name: &str) -> Option<&'a str>
    ensures given { IfSome result (λ file. NamesFile name.now (subcommand_rows_of matches.now) file.now) }
    ensures none { result ≡ None → (file : List ℕ) → NamesFile name.now (subcommand_rows_of matches.now) file → ⊥ }
{
    let given = given_to(matches, name)?;
    given.get_str("FILE")
}

/// The parser of the words of `scenario`.
pub fn scenario_parser<'a>(alloc: Global) -> Result<Parser<'a>, AllocError>
    ensures { IfOk result (ReadsAs (file_app (codes "scenario"))) }
{
    let command = Parser::new(alloc, "scenario")
        .about("Replays a schedule over a chain of servers and prints the transcript")
        .arg(file_argument(alloc))?;
    Ok(command)
}

/// The parser of the words of `trace`.
pub fn trace_parser<'a>(alloc: Global) -> Result<Parser<'a>, AllocError>
    ensures { IfOk result (ReadsAs (file_app (codes "trace"))) }
{
    let command = Parser::new(alloc, "trace")
        .about("Replays a schedule and prints what each of its events did, and the transcript")
        .arg(file_argument(alloc))?;
    Ok(command)
}

/// The parser of the words of `draw`.
pub fn draw_parser<'a>(alloc: Global) -> Result<Parser<'a>, AllocError>
    ensures { IfOk result (ReadsAs (file_app (codes "draw"))) }
{
    let command = Parser::new(alloc, "draw")
        .about("Replays a schedule and prints a picture of it, SVG 1.1")
        .arg(file_argument(alloc))?;
    Ok(command)
}
