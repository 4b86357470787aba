//! The command `master` with `--watch`: it tells by itself that a server is gone whose process has ended, or which was
//! silent until its lease was over.
ghost use Rattle.masters.specs.Statuses.{IsMasterStatus};

use crate::command::status_of;
use crate::input_threads::start_reading;
use crate::platforms::Platform;
use crate::starting::{Beginning, begin};
use craq_settings::MasterSettings;
use ends::Sink;
use master_decisions::{MasterFault, name_of};
use std::alloc::Global;
use std::io::Stdin;

/// Does what `master` does, and watches the servers too: if the process of one of them has ended, which was reached
/// before, the others are told that it is gone. The process has ended if its connection has, and if then its host
/// refuses a new one or another start of the server accepts it. If the settings say that the master beats, it also
/// prolongs leases, and the others are told that a server that has one is gone once it was silent until that was over.
/// The silence of a server without a lease says nothing. Each step is printed in one line. It goes on after the end of
/// its input. It answers the exit status as `master` does, and 1 after a line on `errors` once each server is gone.
pub fn watch<R: Platform, W: Sink, X: Sink>(
    rt: R,
    alloc: Global,
    settings: &MasterSettings,
    input: Stdin,
    output: &mut W,
    errors: &mut X,
) -> u8
    ensures { IsMasterStatus result }
{
    let end = watch_all(rt, alloc, settings, input, output, errors);
    status_of(errors, settings, end)
}

// Asks each server once who has failed, and watches them then.
fn watch_all<R: Platform, W: Sink, X: Sink>(
    rt: R,
    alloc: Global,
    settings: &MasterSettings,
    input: Stdin,
    output: &mut W,
    errors: &mut X,
) -> Result<(), MasterFault> {
    let servers = settings.numbers.servers;
    let Beginning {
        mut decider,
        start,
        news_sender,
    } = begin(rt, alloc, settings, output, errors)?;
    decider.greet(&rt)?;
    if let Some(paces) = settings.beats {
        decider.begin_beats(&rt, name_of(start), paces)?;
    }
    decider.begin_watches(&rt)?;
    decider.answered = Some(start_reading(rt, alloc, servers, input, news_sender)?);
    decider.watch_on(&rt)
}
