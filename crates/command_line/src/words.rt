//! The words of a command line, and the command that they spell.
ghost use Rattle.std.specs.Prelude.{◌≡◌, ℕ, codes, List, [], IfOk, IfErr, IfSome, OnOk, None, map, true};
ghost use Rattle.clap.specs.Words.{app_of, fault_of, kind_of, subcommand_of, subcommand_rows_of, takes};
ghost use Rattle.command_line.specs.Words.{AddsCommand, AddsCommandIfMade, IsNamed, IsRefusedFor, IsTaken};
ghost use Rattle.command_line.specs.Words.{named_app, program_app};
ghost use Rattle.command_line.specs.declared.commands.Command.{Command as Shown};
ghost use Rattle.command_line.specs.Options.{ReadsAs};
ghost use Rattle.command_line.specs.ProcessWords.{NamesHosts, NamesMaster, NamesServer};
ghost use Rattle.command_line.specs.declared.processes.Hosts.{Hosts};
ghost use Rattle.command_line.specs.declared.processes.MasterNumbers.{MasterNumbers};
ghost use Rattle.command_line.specs.declared.processes.ServerNumbers.{ServerNumbers};
ghost use Rattle.command_line.specs.Commands.{AskForVersion, IsAskedFor};

use crate::cluster_words::{cluster_parser, numbers_given};
use crate::commands::{Command, Print, Serve, Telling, UsageFault};
use crate::file_words::{draw_parser, file_given, scenario_parser, trace_parser};
use crate::process_words::{
    hosts_given, master_numbers, master_parser, server_numbers, server_parser,
};
use crate::version::VERSION;
use clap::error::ErrorKind;
use clap::{ArgMatches, Command as Parser, Error};
use std::alloc::{AllocError, Global};

/// The command that these words spell. The first word is the program's own name. Words that name a file or a chain in
/// the parser's grammar, or ask for the version, are refused only if memory is out. Asking for help is a usage fault,
/// with the help as its text.
#[tactic(auto, using(crate::proofs::Found::asked, crate::proofs::Parsers::version_asked, crate::proofs::Parsers::version_served))]
pub fn read_command(alloc: Global, words: &[&str]) -> Result<Command, UsageFault>
    ensures asked { IfOk result (λ command. IsAskedFor (map (λ w. w.now) words.entry.now) command) }
    ensures served { IsTaken (map (λ w. w.now) words.entry.now) →
        IfErr result (λ fault. fault ≡ UsageFault.Memory) }
    ensures version { AskForVersion (map (λ w. w.now) words.entry.now) →
        IfErr result (λ fault. fault ≡ UsageFault.Memory) }
{
    match named(alloc, words) {
        Ok(command) => Ok(command),
        Err(error) if error.kind() == ErrorKind::DisplayVersion => {
            Ok(Command::Print(Print::Version))
        }
        Err(error) => Err(usage_fault(alloc, error)),
    }
}

// The command that the words name.
fn named<'a>(alloc: Global, words: &'a [&'a str]) -> Result<Command, Error>
    ensures taken { OnOk result (fault_of program_app (map (λ w. w.now) words.entry.now) ≡ []) }
    ensures named { IfOk result (λ command.
        IsNamed (subcommand_of program_app (map (λ w. w.now) words.entry.now)) command) }
    ensures served { IsTaken (map (λ w. w.now) words.entry.now) →
        IfErr result (λ e. kind_of e ≡ ErrorKind.OutOfMemory) }
    ensures refused { IfErr result (λ e.
        IsRefusedFor (fault_of program_app (map (λ w. w.now) words.entry.now)) (kind_of e)) }
{
    let matches = parsed(alloc, words)?;
    let given = command_given(alloc, &matches);
    drop(matches);
    match given? {
        Some(command) => Ok(command),
        None => Err(no_command(alloc)?),
    }
}

// What the parser finds in the words.
fn parsed<'a>(alloc: Global, words: &'a [&'a str]) -> Result<ArgMatches<'a>, Error>
    ensures taken { OnOk result (fault_of program_app (map (λ w. w.now) words.entry.now) ≡ []) }
    ensures found { IfOk result (λ matches.
        subcommand_rows_of matches ≡ subcommand_of program_app (map (λ w. w.now) words.entry.now)) }
    ensures served { takes program_app (map (λ w. w.now) words.entry.now) ≡ true →
        IfErr result (λ e. kind_of e ≡ ErrorKind.OutOfMemory) }
    ensures refused { IfErr result (λ e.
        IsRefusedFor (fault_of program_app (map (λ w. w.now) words.entry.now)) (kind_of e)) }
{
    parser(alloc)?.try_get_matches_from(words)
}

// The error of words in which no command is found.
fn no_command(alloc: Global) -> Result<Error, AllocError>
    ensures { IfOk result (λ e. kind_of e ≡ ErrorKind.MissingSubcommand) }
{
    parser(alloc)?.error(ErrorKind::MissingSubcommand, "no such command")
}

// The command that was found, with what was given to it.
fn command_given<'a>(alloc: Global, matches: &ArgMatches<'a>) -> Result<Option<Command>, AllocError>
    ensures given { IfOk result (λ given. IfSome given (IsNamed (subcommand_rows_of matches.now))) }
    ensures none { IfOk result (λ given. given ≡ None →
        (command : Shown) → IsNamed (subcommand_rows_of matches.now) command → ⊥) }
{
    if let Some(file) = file_given(matches, "scenario") {
        let file = String::from_str(alloc, file)?;
        return Ok(Some(Command::Print(Print::Scenario { file })));
    }
    if let Some(file) = file_given(matches, "trace") {
        let file = String::from_str(alloc, file)?;
        let telling = Telling::Trace;
        return Ok(Some(Command::Tell { telling, file }));
    }
    if let Some(file) = file_given(matches, "draw") {
        let file = String::from_str(alloc, file)?;
        let telling = Telling::Draw;
        return Ok(Some(Command::Tell { telling, file }));
    }
    if let Some(numbers) = numbers_given(matches) {
        return Ok(Some(Command::Serve(Serve::Cluster(numbers))));
    }
    let process = process_given(alloc, matches)?;
    match process {
        Some(serve) => Ok(Some(Command::Serve(serve))),
        None => Ok(None),
    }
}

// The process that was asked for, with what was given to it.
fn process_given<'a>(alloc: Global, matches: &ArgMatches<'a>) -> Result<Option<Serve>, AllocError>
    ensures given { IfOk result (λ given.
        IfSome given (λ serve. IsNamed (subcommand_rows_of matches.now) (Command.Serve serve))) }
    ensures no_server { IfOk result (λ given. given ≡ None →
        (numbers : ServerNumbers) (hosts : Hosts) → NamesServer (subcommand_rows_of matches.now) numbers →
        NamesHosts (codes "server") (subcommand_rows_of matches.now) hosts → ⊥) }
    ensures no_master { IfOk result (λ given. given ≡ None →
        (numbers : MasterNumbers) (hosts : Hosts) → NamesMaster (subcommand_rows_of matches.now) numbers →
        NamesHosts (codes "master") (subcommand_rows_of matches.now) hosts → ⊥) }
{
    if let Some(numbers) = server_numbers(matches) {
        return match hosts_given(alloc, matches, "server")? {
            Some(hosts) => Ok(Some(Serve::Server(numbers, hosts))),
            None => Ok(None),
        };
    }
    if let Some(numbers) = master_numbers(matches) {
        return match hosts_given(alloc, matches, "master")? {
            Some(hosts) => Ok(Some(Serve::Master(numbers, hosts))),
            None => Ok(None),
        };
    }
    Ok(None)
}

fn parser<'a>(alloc: Global) -> Result<Parser<'a>, AllocError>
    ensures { IfOk result (λ parser. app_of parser ≡ program_app) }
{
    let scenario = and_command(Ok(program_parser(alloc)), scenario_parser(alloc));
    let trace = and_command(scenario, trace_parser(alloc));
    let draw = and_command(trace, draw_parser(alloc));
    let cluster = and_command(draw, cluster_parser(alloc));
    let server = and_command(cluster, server_parser(alloc));
    and_command(server, master_parser(alloc))
}

// The program's parser with one more command, if both were made.
fn and_command<'a>(
    program: Result<Parser<'a>, AllocError>,
    command: Result<Parser<'a>, AllocError>,
) -> Result<Parser<'a>, AllocError>
    ensures { AddsCommandIfMade program.entry command.entry result }
{
    match program {
        Ok(program) => with_command(program, command),
        Err(AllocError) => {
            drop(command);
            Err(AllocError)
        }
    }
}

// The program's parser with one more command, if that was made.
fn with_command<'a>(
    program: Parser<'a>,
    command: Result<Parser<'a>, AllocError>,
) -> Result<Parser<'a>, AllocError>
    ensures { IfOk result (AddsCommand program.entry command.entry) }
{
    match command {
        Ok(command) => program.subcommand(command),
        Err(AllocError) => {
            drop(program);
            Err(AllocError)
        }
    }
}

fn program_parser<'a>(alloc: Global) -> Parser<'a>
    ensures { app_of result ≡ named_app }
{
    Parser::new(alloc, "craq")
        .about("A replicated object cache (CRAQ) that speaks memcached's text protocol")
        .version(VERSION)
        .subcommand_required(true)
}

fn usage_fault(alloc: Global, error: Error) -> UsageFault
    ensures { kind_of error ≡ ErrorKind.OutOfMemory → result ≡ UsageFault.Memory }
{
    if error.kind() == ErrorKind::OutOfMemory {
        return UsageFault::Memory;
    }
    match error.to_string(alloc) {
        Ok(text) => UsageFault::Usage(text),
        Err(AllocError) => UsageFault::Memory,
    }
}
