//! The words of the command `cluster`, and the numbers that they give.
ghost use Rattle.std.specs.Prelude.{◌≡◌, IfOk, IfSome, None};
ghost use Rattle.clap.specs.Words.{subcommand_rows_of};
ghost use Rattle.command_line.specs.ClusterWords.{AddsServing, NamesNumbers, cluster_app, connections_rule};
ghost use Rattle.command_line.specs.ClusterWords.{memory_rule, port_rule, quiet_rule, seats_rule, servers_rule};
ghost use Rattle.command_line.specs.ClusterWords.{serves_rule, threads_rule};
ghost use Rattle.command_line.specs.Options.{HasRule, ReadsAs};
ghost use Rattle.command_line.specs.declared.cluster_numbers.ClusterNumbers.{ClusterNumbers};

use crate::cluster_numbers::ClusterNumbers;
use crate::given::{
    flag_given, given_to, large_number, middle_number, number_if_any, port_number, small_number,
};
use crate::options::{and_option, flag_option, number_option};
use clap::{Arg, ArgMatches, Command as Parser, value_parser};
use std::alloc::{AllocError, Global};

/// The numbers that were given to `cluster`, if that is the command.
pub fn numbers_given<'a>(matches: &ArgMatches<'a>) -> Option<ClusterNumbers>
    ensures given { IfSome result (NamesNumbers (subcommand_rows_of matches.now)) }
    ensures none { result ≡ None → (numbers : ClusterNumbers) → NamesNumbers (subcommand_rows_of matches.now) numbers
        → ⊥ }
{
    let given = given_to(matches, "cluster")?;
    let servers = small_number(given, "servers", 1, 16)?;
    let port = port_number(given, "port", 65520)?;
    let seats = small_number(given, "seats", 1, 64)?;
    let threads = number_if_any(given, "threads", 1, 16)?;
    let connections = middle_number(given, "connections", 1, 65_536)?;
    let serves = large_number(given, "serves", 1_000_000)?;
    let memory = number_if_any(given, "memory", 1, 1_048_576)?;
    let quiet = flag_given(given, "quiet");
    Some(ClusterNumbers {
        servers,
        port,
        seats,
        threads,
        connections,
        serves,
        memory,
        quiet,
    })
}

/// The parser of the command's own words.
pub fn cluster_parser<'a>(alloc: Global) -> Result<Parser<'a>, AllocError>
    ensures { IfOk result (ReadsAs cluster_app) }
{
    let named = Parser::new(alloc, "cluster").about(
        "Runs a chain of servers in one process, which serve memcached clients",
    );
    let servers = and_option(Ok(named), servers_option(alloc));
    let port = and_option(servers, port_option(alloc));
    let serves = and_option(port, serves_option(alloc));
    with_serving(alloc, serves?)
}

/// The parser with the options that say how clients are served.
pub fn with_serving<'a>(alloc: Global, parser: Parser<'a>) -> Result<Parser<'a>, AllocError>
    ensures { IfOk result (AddsServing parser.entry) }
{
    let seats = and_option(Ok(parser), seats_option(alloc));
    let threads = and_option(seats, threads_option(alloc));
    let connections = and_option(threads, connections_option(alloc));
    let memory = and_option(connections, memory_option(alloc));
    and_option(memory, quiet_option(alloc))
}

/// The option `--servers`.
pub fn servers_option<'a>(alloc: Global) -> Arg<'a>
    ensures { HasRule servers_rule result }
{
    let numbers = value_parser!(u8).range(1..=16);
    number_option(alloc, "servers", "N", "How many servers there are", numbers).required(true)
}

/// The option `--port`.
pub fn port_option<'a>(alloc: Global) -> Arg<'a>
    ensures { HasRule port_rule result }
{
    let help = "The port of server 0; server i listens on port P + i";
    let numbers = value_parser!(u16).range(1..=65520);
    number_option(alloc, "port", "P", help, numbers).required(true)
}

fn seats_option<'a>(alloc: Global) -> Arg<'a>
    ensures { HasRule seats_rule result }
{
    let help = "How many calls each server works on at a time";
    let numbers = value_parser!(u8).range(1..=64);
    number_option(alloc, "seats", "S", help, numbers).default_value("64")
}

fn threads_option<'a>(alloc: Global) -> Arg<'a>
    ensures { HasRule threads_rule result }
{
    let help =
        "How many threads serve connections; without it as many as there are processors, at most 4";
    let numbers = value_parser!(u32).range(1..=16);
    number_option(alloc, "threads", "T", help, numbers)
}

fn connections_option<'a>(alloc: Global) -> Arg<'a>
    ensures { HasRule connections_rule result }
{
    let help = "How many connections each server has at most at a time";
    let numbers = value_parser!(u32).range(1..=65_536);
    number_option(alloc, "connections", "C", help, numbers).default_value("1024")
}

fn memory_option<'a>(alloc: Global) -> Arg<'a>
    ensures { HasRule memory_rule result }
{
    let help =
        "From how many MiB of items on commands that store are refused; without it no limit is kept";
    let numbers = value_parser!(u32).range(1..=1_048_576);
    number_option(alloc, "memory", "MIB", help, numbers)
}

fn quiet_option<'a>(alloc: Global) -> Arg<'a>
    ensures { HasRule quiet_rule result }
{
    let help = "Leaves out the line at the start";
    flag_option(alloc, "quiet", help)
}

fn serves_option<'a>(alloc: Global) -> Arg<'a>
    ensures { HasRule serves_rule result }
{
    let help =
        "Ends once each server has served K connections for each of its seats; 0: without end";
    let numbers = value_parser!(u64).range(0..=1_000_000);
    number_option(alloc, "serves", "K", help, numbers).default_value("0")
}
