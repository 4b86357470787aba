//! The command `master`: tells the servers of a chain which of them has failed.
ghost use Rattle.std.specs.Prelude.{◌≡◌, MatchResult};
ghost use Rattle.masters.specs.Statuses.{IsMasterStatus, status_of};

use crate::master_lines::tell_fault;
use crate::platforms::Platform;
use crate::starting::begin;
use command_line::{DONE, FAILED, MEMORY};
use craq_settings::MasterSettings;
use ends::{Sink, Source};
use lines::empty_line;
use master_decisions::MasterFault;
use std::alloc::Global;

/// Who goes on if standard output can't be written.
pub(crate) const WHO: &str = "the master";

/// Asks each server once who has failed, and then reads lines until the input ends. For each line `gone J` server J is
/// told that it has failed, and then each other server that isn't known to have failed; `gone J told K` is printed, K
/// being how many of these others have noted it. Any other line prints `bad line`. An answer that can't be written is
/// told once on `errors`, and so is each server that doesn't do what it is asked. It answers the exit status: 0, or,
/// after a line on `errors`, 1 if a server refuses the master when it starts or no chain has that many servers, or 3 if
/// memory is out.
pub fn master<R: Platform, S: Source, W: Sink, X: Sink>(
    rt: &R,
    alloc: Global,
    settings: &MasterSettings,
    input: &mut S,
    output: &mut W,
    errors: &mut X,
) -> u8
    ensures { IsMasterStatus result }
{
    let end = tell_all(rt, alloc, settings, input, output, errors);
    status_of(errors, settings, end)
}

// Asks each server once who has failed, and tells of each failure that the input names.
fn tell_all<R: Platform, S: Source, W: Sink, X: Sink>(
    rt: &R,
    alloc: Global,
    settings: &MasterSettings,
    input: &mut S,
    output: &mut W,
    errors: &mut X,
) -> Result<(), MasterFault> {
    let mut line = empty_line(alloc)?;
    let mut decider = begin(*rt, alloc, settings, output, errors)?.decider;
    decider.greet(rt)?;
    decider.read_on(rt, input, &mut line)
}

/// The exit status of a master that ends so, which is told on `errors`.
pub(crate) fn status_of<X: Sink>(
    errors: &mut X,
    settings: &MasterSettings,
    end: Result<(), MasterFault>,
) -> u8
    ensures status { MatchResult end (λ _. result ≡ 0) (λ fault. result ≡ status_of fault) }
    ensures some { IsMasterStatus result }
{
    match end {
        Ok(()) => DONE,
        Err(fault) => {
            tell_fault(errors, settings, fault);
            status_of_fault(fault)
        }
    }
}

// The exit status of a master that ends by this fault.
fn status_of_fault(fault: MasterFault) -> u8
    ensures { result ≡ status_of fault }
{
    match fault {
        MasterFault::Memory => MEMORY,
        MasterFault::Refused(_, _) | MasterFault::Run | MasterFault::NoServer => FAILED,
    }
}
