//! Schedules: the servers, the connections and the events of a run, read from their text.
ghost use Rattle.std.specs.Prelude.{◌≡◌, ◌+◌, ℕ, IfErr, IfOk, OnOk, drop, length, true};
ghost use Rattle.schedules.specs.declared.schedules.ScheduleFault.TheVariants.{Memory};
ghost use Rattle.schedules.specs.HeadLines.{homes_line, servers_line};
ghost use Rattle.world.specs.Scenes.{are_homes, is_count};
ghost use Rattle.schedules.specs.Schedules.{Names, events_of, first_says, schedule_of};
ghost use Rattle.schedules.specs.SpelledSchedules.{SpellsSchedule};

use crate::event_lines::{event_line, push_events};
use crate::head_lines::{homes_line, servers_line};
use crate::lines::Lines;
use std::alloc::{AllocError, AllocFailed, Global};
use std::marker::Model;
use thiserror::Error;
use world::Event;

/// What a schedule says. Contracts see lists in place of vectors.
#[derive(Drop)]
pub struct Schedule {
    /// How many servers there are.
    pub count: usize,
    /// The server that each connection is at.
    pub homes: Vec<usize>,
    /// What happens, in order.
    pub events: Vec<Event>,
}

impl Model for Schedule {
    ghost use Rattle.schedules.specs.Schedules.{ScheduleShown};

    ghost Value = { ScheduleShown };

    ghost view = { λ s. record { count = s.count; homes = s.homes.items; events = s.events.items } };
}

/// Why a text gives no schedule.
#[derive(Clone, Copy, Debug, PartialEq, Eq, Error)]
pub enum ScheduleFault {
    /// No memory was left.
    #[error("out of memory")]
    Memory,
    /// The number of the first line that isn't as a schedule's, counting all lines from 1.
    /// If the text ends before `servers` or `homes`, the number of its lines plus one.
    #[error("line {0}: bad schedule line")]
    BadLine(u64),
}

impl From<AllocError> for ScheduleFault {
    ghost from_gives = { λ _ e. e ≡ Memory };

    fn from(_e: AllocError) -> ScheduleFault {
        ScheduleFault::Memory
    }
}

impl<T: Drop> From<AllocFailed<T>> for ScheduleFault {
    ghost from_gives = { λ _ e. e ≡ Memory };

    fn from(_e: AllocFailed<T>) -> ScheduleFault {
        ScheduleFault::Memory
    }
}

/// Reads a schedule from its text (this project's format), in time linear in the text, in the
/// bytes that its `fill` lines ask for and in the events that its `settle` lines stand for. A text
/// with a bad line gives `BadLine` or `Memory`.
pub fn read_schedule(alloc: Global, text: &[u8]) -> Result<Schedule, ScheduleFault>
    ensures ok { IfOk result (λ schedule. schedule_of text.now ≡ Ok schedule) }
    ensures bad_line { IfErr result (Names (schedule_of text.now)) }
    ensures spelled { IfOk result (SpellsSchedule text.now) }
    // `run` refuses it only when out of memory.
    ensures runs { IfOk result (λ s. (is_count s.count ≡ true) × (are_homes s.count s.homes ≡ true)) }
{
    let mut lines = Lines::new(text);
    let count = read_servers(&mut lines)?;
    let homes = read_homes(alloc, &mut lines, count)?;
    let events = read_events(alloc, &mut lines, count, homes.len())?;
    Ok(Schedule {
        count,
        homes,
        events,
    })
}

fn read_servers(lines: &mut Lines<'_>) -> Result<usize, ScheduleFault>
    ensures ok { IfOk result (λ count. first_says servers_line (lines.old.all + 1) lines.old.counted ≡ Ok count) }
    ensures bad_line { IfErr result (Names (first_says servers_line (lines.old.all + 1) lines.old.counted)) }
    ensures later { OnOk result (lines.new.counted ≡ drop 1 lines.old.counted) }
    ensures all { lines.new.all ≡ lines.old.all }
{
    let Some(line) = lines.next_counted() else {
        return Err(ended(lines));
    };
    match servers_line(line) {
        Some(count) => Ok(count),
        None => Err(ScheduleFault::BadLine(lines.taken())),
    }
}

fn read_homes(
    alloc: Global,
    lines: &mut Lines<'_>,
    count: usize,
) -> Result<Vec<usize>, ScheduleFault>
    ensures ok { IfOk result
        (λ homes. first_says (homes_line count) (lines.old.all + 1) lines.old.counted ≡ Ok homes.items) }
    ensures bad_line { IfErr result (Names (first_says (homes_line count) (lines.old.all + 1) lines.old.counted)) }
    ensures later { OnOk result (lines.new.counted ≡ drop 1 lines.old.counted) }
{
    let Some(line) = lines.next_counted() else {
        return Err(ended(lines));
    };
    match homes_line(alloc, count, line)? {
        Some(homes) => Ok(homes),
        None => Err(ScheduleFault::BadLine(lines.taken())),
    }
}

// A line after the last one is missing. No memory holds a text whose lines can't be counted.
fn ended(lines: &Lines<'_>) -> ScheduleFault
    ensures { (n : ℕ) → result ≡ ScheduleFault.BadLine n → n ≡ lines.now.taken + 1 }
{
    match lines.taken().checked_add(1) {
        Some(number) => ScheduleFault::BadLine(number),
        None => ScheduleFault::Memory,
    }
}

fn read_events(
    alloc: Global,
    lines: &mut Lines<'_>,
    count: usize,
    connections: usize,
) -> Result<Vec<Event>, ScheduleFault>
    ensures ok { IfOk result (λ events. events_of count connections lines.old.counted ≡ Ok events.items) }
    ensures bad_line { IfErr result (Names (events_of count connections lines.old.counted)) }
{
    let mut events = Vec::new(alloc);
    while let Some(line) = lines.next_counted() {
        let Some(said) = event_line(alloc, line)? else {
            return Err(ScheduleFault::BadLine(lines.taken()));
        };
        push_events(alloc, &mut events, said, count, connections)?;
    }
    Ok(events)
}
