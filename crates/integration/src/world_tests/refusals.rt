//! Tests of runs in which steps are refused.
use crate::making::Fault;
use schedules::{Schedule, print_transcript, read_schedule};
use std::alloc::Global;
use std::fs;
use std::io::{self, ErrorKind, Write};
use std::test::Fail;
use world::{Event, SceneFault, run, run_failing};

// A schedule in the folder where the test runs, which `tools/refused_steps` puts there.
const FILE: &str = "refused_steps.schedule";

// A set at server 0 is delivered to server 1, and what follows does nothing unless that has failed.
const DELIVERED: &str =
    "servers 3\nhomes 0\npiece 0 set a 0 0 1\\r\\nx\\r\\n\nbegin 0\nwork 0\ndeliver 0 1\n\
    tell 0 1\ntell 2 1\ndeliver 0 2\ndeliver 2 0\ndeliver 2 0\nhand 0\n";

fn schedule_text(rt: &HostRuntime) -> Result<String, Fail> {
    match fs::read_to_string(rt, FILE) {
        Ok(text) => Ok(text),
        Err(e) if e.kind() == ErrorKind::NotFound => Ok(String::from_str(rt.alloc(), DELIVERED)?),
        Err(e) => Err(e.into()),
    }
}

// The text of what a run shows, and the steps that were refused in it.
fn shown_by(alloc: Global, schedule: &Schedule) -> Result<(Vec<u8>, Vec<(usize, usize)>), Fault> {
    let homes = schedule.homes.as_slice();
    let (shown, refused) = run_failing(alloc, schedule.count, homes, schedule.events.as_slice())?;
    let text = print_transcript(alloc, &shown)?;
    Ok((text, refused))
}

// The text of what `run` shows.
fn shown_by_run(alloc: Global, schedule: &Schedule) -> Result<Vec<u8>, Fault> {
    let homes = schedule.homes.as_slice();
    let shown = run(alloc, schedule.count, homes, schedule.events.as_slice())?;
    Ok(print_transcript(alloc, &shown)?)
}

// The events with a failure for each step that was refused. The steps are written.
fn fail_steps(
    rt: &HostRuntime,
    events: &mut [Event],
    refused: &[(usize, usize)],
) -> Result<(), Fail> {
    for (place, server) in refused {
        println!(rt; "refused {place} {server}")?;
        if *place < events.len() {
            events[*place] = Event::Fail(*server);
        }
    }
    Ok(())
}

fn write_shown(rt: &HostRuntime, shown: &[u8]) -> Result<(), Fail> {
    println!(rt; "shown")?;
    io::writer(rt).write_all(shown)?;
    println!(rt; "end")?;
    Ok(())
}

// Whether `run` shows the same of the events with a failure for each step that was refused. Both are written.
fn is_shown_by_failures(
    rt: &HostRuntime,
    schedule: &mut Schedule,
    shown: &[u8],
    refused: &[(usize, usize)],
) -> Result<bool, Fail> {
    fail_steps(rt, schedule.events.as_mut_slice(), refused)?;
    write_shown(rt, shown)?;
    let wanted = shown_by_run(rt.alloc(), schedule)?;
    Ok(shown == wanted.as_slice())
}

// How many steps were refused in a run, which is shown as the run with failures is.
fn compared(rt: &HostRuntime, schedule: &mut Schedule) -> Result<usize, Fail> {
    let (shown, refused) = shown_by(rt.alloc(), schedule)?;
    if is_shown_by_failures(rt, schedule, shown.as_slice(), refused.as_slice())? {
        Ok(refused.len())
    } else {
        Err("both are shown alike".into())
    }
}

fn refused_steps(rt: &HostRuntime) -> Result<usize, Fail> {
    let text = schedule_text(rt)?;
    let mut schedule = read_schedule(rt.alloc(), text.as_bytes())?;
    compared(rt, &mut schedule)
}

// What a run shows is what `run` shows of the events with a failure for each step that was refused. If one was, the
// test ends in that refusal. It writes the refused steps and the transcript, which `tools/refused_steps` reads.
#[test]
fn a_refused_step_is_a_failure(rt: HostRuntime) -> Result<(), Fail> {
    match refused_steps(&rt) {
        Ok(0) => Ok(()),
        Ok(_) => Err(SceneFault::Memory.into()),
        Err(fault) => Err(fault),
    }
}
