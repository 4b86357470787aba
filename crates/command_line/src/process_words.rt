//! The words of the commands `server` and `master`, and what they give.
ghost use Rattle.std.specs.Prelude.{◌≡◌, IfOk, IfSome, None};
ghost use Rattle.clap.specs.Words.{subcommand_rows_of};
ghost use Rattle.command_line.specs.Options.{HasRule, ReadsAs};
ghost use Rattle.command_line.specs.ProcessWords.{AddsHosts, NamesHosts, NamesMaster, NamesServer};
ghost use Rattle.command_line.specs.ProcessWords.{address_rule, after_rule, beat_rule, chain_rule, id_rule};
ghost use Rattle.command_line.specs.ProcessWords.{lease_rule, link_timeout_rule, master_app, peer_port_rule};
ghost use Rattle.command_line.specs.ProcessWords.{peers_rule, server_app};
ghost use Rattle.command_line.specs.ProcessWords.{watch_rule};
ghost use Rattle.command_line.specs.declared.processes.Hosts.{Hosts};
ghost use Rattle.command_line.specs.declared.processes.MasterNumbers.{MasterNumbers};
ghost use Rattle.command_line.specs.declared.processes.ServerNumbers.{ServerNumbers};

use crate::cluster_words::{port_option, servers_option, with_serving};
use crate::given::{
    flag_given, given_to, middle_number, number_if_any, port_number, small_number, text_given,
};
use crate::options::{and_option, flag_option, number_option, text_option};
use crate::processes::{Hosts, MasterNumbers, ServerNumbers};
use clap::{Arg, ArgMatches, Command as Parser, value_parser};
use std::alloc::{AllocError, Global};

/// The numbers that were given to `server`, if that is the command.
pub fn server_numbers<'a>(matches: &ArgMatches<'a>) -> Option<ServerNumbers>
    ensures given { IfSome result (NamesServer (subcommand_rows_of matches.now)) }
    ensures none { result ≡ None →
        (numbers : ServerNumbers) → NamesServer (subcommand_rows_of matches.now) numbers → ⊥ }
{
    let given = given_to(matches, "server")?;
    let id = small_number(given, "id", 0, 15)?;
    let servers = small_number(given, "servers", 1, 16)?;
    let port = port_number(given, "port", 65520)?;
    let peer_port = port_number(given, "peer-port", 65520)?;
    let seats = small_number(given, "seats", 1, 64)?;
    let threads = number_if_any(given, "threads", 1, 16)?;
    let connections = middle_number(given, "connections", 1, 65_536)?;
    let memory = number_if_any(given, "memory", 1, 1_048_576)?;
    let lease = number_if_any(given, "lease", 1, 3_600)?;
    let link_timeout = middle_number(given, "link-timeout", 10, 3_600_000)?;
    let quiet = flag_given(given, "quiet");
    Some(ServerNumbers {
        id,
        servers,
        port,
        peer_port,
        seats,
        threads,
        connections,
        memory,
        lease,
        link_timeout,
        quiet,
    })
}

/// The numbers that were given to `master`, if that is the command.
pub fn master_numbers<'a>(matches: &ArgMatches<'a>) -> Option<MasterNumbers>
    ensures given { IfSome result (NamesMaster (subcommand_rows_of matches.now)) }
    ensures none { result ≡ None →
        (numbers : MasterNumbers) → NamesMaster (subcommand_rows_of matches.now) numbers → ⊥ }
{
    let given = given_to(matches, "master")?;
    let servers = small_number(given, "servers", 1, 16)?;
    let peer_port = port_number(given, "peer-port", 65520)?;
    let watch = flag_given(given, "watch");
    let beat = middle_number(given, "beat", 1, 3_600_000)?;
    let after = middle_number(given, "after", 2, 3_600_000)?;
    Some(MasterNumbers {
        servers,
        peer_port,
        watch,
        beat,
        after,
    })
}

/// The hosts that were given to the command of this name, if that is the command.
pub fn hosts_given<'a>(
    alloc: Global,
    matches: &ArgMatches<'a>,
    name: &str,
) -> Result<Option<Hosts>, AllocError>
    ensures given { IfOk result (λ given. IfSome given (NamesHosts name.now (subcommand_rows_of matches.now))) }
    ensures none { IfOk result (λ given. given ≡ None →
        (hosts : Hosts) → NamesHosts name.now (subcommand_rows_of matches.now) hosts → ⊥) }
{
    let Some(given) = given_to(matches, name) else {
        return Ok(None);
    };
    let Some(address) = text_given(alloc, given, "address")? else {
        return Ok(None);
    };
    let Some(chain) = text_given(alloc, given, "chain")? else {
        return Ok(None);
    };
    let peers = text_given(alloc, given, "peers")?;
    Ok(Some(Hosts {
        address,
        peers,
        chain,
    }))
}

/// The parser of the words of `server`.
pub fn server_parser<'a>(alloc: Global) -> Result<Parser<'a>, AllocError>
    ensures { IfOk result (ReadsAs server_app) }
{
    let named = Parser::new(alloc, "server").about(
        "Runs one server of a chain, which serves memcached clients",
    );
    let id = and_option(Ok(named), id_option(alloc));
    let servers = and_option(id, servers_option(alloc));
    let port = and_option(servers, port_option(alloc));
    let listening = and_option(port, peer_port_option(alloc));
    let leased = and_option(listening, lease_option(alloc));
    let timed = and_option(leased, link_timeout_option(alloc));
    let serving = with_serving(alloc, timed?)?;
    with_hosts(alloc, serving)
}

/// The parser of the words of `master`.
pub fn master_parser<'a>(alloc: Global) -> Result<Parser<'a>, AllocError>
    ensures { IfOk result (ReadsAs master_app) }
{
    let named = Parser::new(alloc, "master").about(
        "Tells servers in other processes which of them failed: one 'gone J' a line of its input",
    );
    let servers = and_option(Ok(named), servers_option(alloc));
    let peer_port = and_option(servers, peer_port_option(alloc));
    let watch = and_option(peer_port, watch_option(alloc));
    let beat = and_option(watch, beat_option(alloc));
    let after = and_option(beat, after_option(alloc));
    with_hosts(alloc, after?)
}

// The parser with the options that say where servers are, and of which chain.
fn with_hosts<'a>(alloc: Global, parser: Parser<'a>) -> Result<Parser<'a>, AllocError>
    ensures { IfOk result (AddsHosts parser.entry) }
{
    let address = and_option(Ok(parser), address_option(alloc));
    let peers = and_option(address, peers_option(alloc));
    and_option(peers, chain_option(alloc))
}

fn id_option<'a>(alloc: Global) -> Arg<'a>
    ensures { HasRule id_rule result }
{
    let help = "Which server it is: 0 to N - 1";
    let numbers = value_parser!(u8).range(0..=15);
    number_option(alloc, "id", "I", help, numbers).required(true)
}

fn peer_port_option<'a>(alloc: Global) -> Arg<'a>
    ensures { HasRule peer_port_rule result }
{
    let help =
        "The port of server 0 for other servers and the master; server i listens on port Q + i";
    let numbers = value_parser!(u16).range(1..=65520);
    number_option(alloc, "peer-port", "Q", help, numbers).required(true)
}

fn lease_option<'a>(alloc: Global) -> Arg<'a>
    ensures { HasRule lease_rule result }
{
    let help = "How long its lease runs; without one it is never called gone for its silence alone";
    let numbers = value_parser!(u32).range(1..=3_600);
    number_option(alloc, "lease", "SECONDS", help, numbers)
}

fn link_timeout_option<'a>(alloc: Global) -> Arg<'a>
    ensures { HasRule link_timeout_rule result }
{
    let help =
        "How many milliseconds a link to another server may take nothing until it is opened anew";
    let numbers = value_parser!(u32).range(10..=3_600_000);
    number_option(alloc, "link-timeout", "MS", help, numbers).default_value("1000")
}

fn watch_option<'a>(alloc: Global) -> Arg<'a>
    ensures { HasRule watch_rule result }
{
    let help = "Watches the servers, prolongs leases, and tells by itself which server is gone";
    flag_option(alloc, "watch", help)
}

fn beat_option<'a>(alloc: Global) -> Arg<'a>
    ensures { HasRule beat_rule result }
{
    let help = "With --watch: how many milliseconds lie between two beats to a server";
    let numbers = value_parser!(u32).range(1..=3_600_000);
    number_option(alloc, "beat", "MS", help, numbers).default_value("300")
}

fn after_option<'a>(alloc: Global) -> Arg<'a>
    ensures { HasRule after_rule result }
{
    let help =
        "With --watch: how many milliseconds a server with a lease may be silent; more than a beat";
    let numbers = value_parser!(u32).range(2..=3_600_000);
    number_option(alloc, "after", "MS", help, numbers).default_value("3000")
}

fn address_option<'a>(alloc: Global) -> Arg<'a>
    ensures { HasRule address_rule result }
{
    let help = "Where a server listens, and where each is unless --peers says so";
    text_option(alloc, "address", "A", help).default_value("127.0.0.1")
}

fn peers_option<'a>(alloc: Global) -> Arg<'a>
    ensures { HasRule peers_rule result }
{
    let help = "The host of each server, in the order of their ids";
    text_option(alloc, "peers", "A0,A1,..", help)
}

fn chain_option<'a>(alloc: Global) -> Arg<'a>
    ensures { HasRule chain_rule result }
{
    let help = "The chain's name: servers and masters of another one are refused";
    text_option(alloc, "chain", "NAME", help).default_value("craq")
}
