//! What a command line asks for.

use crate::cluster_numbers::ClusterNumbers;
use crate::processes::{Hosts, MasterNumbers, ServerNumbers};
use std::alloc::AllocError;
use thiserror::Error;

/// A command, with its arguments.
#[derive(Drop)]
pub enum Command {
    /// Prints something, and ends.
    Print(Print),
    /// Tells what each event of a schedule did.
    Tell {
        /// As text, or as a picture.
        telling: Telling,
        /// The name of the schedule's file.
        file: String,
    },
    /// Serves clients.
    Serve(Serve),
}

/// A command that prints something.
#[derive(Drop)]
pub enum Print {
    /// Replays a schedule and prints the transcript.
    Scenario {
        /// The name of the schedule's file.
        file: String,
    },
    /// Prints the program's name and its version.
    Version,
}

/// How a schedule is told.
#[derive(Clone, Copy, PartialEq, Eq)]
pub enum Telling {
    /// As text, event by event, with the transcript at its end.
    Trace,
    /// As a picture.
    Draw,
}

/// A command that serves clients.
#[derive(Drop)]
pub enum Serve {
    /// Runs a chain in one process.
    Cluster(ClusterNumbers),
    /// Runs one server of a chain of processes.
    Server(ServerNumbers, Hosts),
    /// Tells the servers of such a chain of failures.
    Master(MasterNumbers, Hosts),
}

/// Why a command line is refused.
#[derive(Debug, Drop, Error)]
pub enum UsageFault {
    /// No memory was left.
    #[error("out of memory")]
    Memory,
    /// The parser's text: what is wrong with the words, or the help that they ask for.
    #[error("{0}")]
    Usage(String),
}

impl From<AllocError> for UsageFault {
    ghost use Rattle.std.specs.Prelude.{◌≡◌};
    ghost use Rattle.command_line.specs.declared.commands.UsageFault.TheVariants.{Memory};

    ghost from_gives = { λ _ e. e ≡ Memory };

    fn from(_e: AllocError) -> UsageFault {
        UsageFault::Memory
    }
}
