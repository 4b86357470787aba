//! What a server and a cluster say of their limits at the start.

use crate::concurrency::Concurrency;
use std::fmt;
use std::fmt::Display;

/// The limits of a process that runs servers, as the line at its start tells them, after where it listens.
#[derive(Clone, Copy)]
pub struct Limits {
    /// How many connections a server has at most.
    pub connections: u32,
    /// How many threads and seats serve them.
    pub concurrency: Concurrency,
    /// The limit of memory, in MiB.
    pub memory: Option<u32>,
    /// How much memory the machine has, in MiB.
    pub machine: Option<u64>,
}

impl Display for Limits {
    fn fmt<W: fmt::Write>(&self, f: &mut fmt::Formatter<W>) -> fmt::Result {
        let (connections, threads, seats) = (
            self.connections,
            self.concurrency.threads,
            self.concurrency.seats,
        );
        write!(
            f,
            "; at most {connections} connections at each server, by {threads} threads and {seats} seats; memory limit: "
        )?;
        match self.memory {
            Some(limit) => write!(f, "{limit} MiB")?,
            None => write!(f, "none")?,
        }
        match self.machine {
            Some(machine) => write!(f, " (the machine has {machine} MiB)"),
            None => Ok(()),
        }
    }
}
