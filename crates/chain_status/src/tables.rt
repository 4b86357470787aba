//! The status of a chain as a table, for people.

use crate::answers::{NoConnection, ServerAnswer};
use crate::reports::{ServerReport, Usage};
use crate::roles::Role;
use crate::status::ChainStatus;
use crate::texts::{Age, Short};
use std::alloc::{AllocError, Global};
use std::fmt::Display;

/// The first line: what stands in which column.
const TITLES: &str =
    "id address               state       last behind  items bytes full       conns seats  rd/s  dy/s  up/s inbox lease    up";

/// How many places an address has.
const ADDRESS: usize = 21;

/// How many places the state of a server has.
const STATE: usize = 9;

/// What stands where nothing is known.
const NOTHING: &str = "-";

impl ChainStatus<'_> {
    /// The table: a line of titles, a line for each server, and a line for each fault, after `! `. The first two kinds
    /// have 120 characters at most. Fails only if memory runs out.
    pub fn to_table(&self, alloc: Global) -> Result<String, AllocError> {
        let mut table = String::from_str(alloc, TITLES)?;
        table.push_str("\n")?;
        for i in 0..self.look.servers() {
            self.add_row(alloc, &mut table, i)?;
        }
        for fault in &self.faults {
            write!(table, "! {fault}\n")?;
        }
        Ok(table)
    }

    // The line of a server.
    fn add_row(&self, alloc: Global, table: &mut String, i: u8) -> Result<(), AllocError> {
        add_number(alloc, table, 2, u64::from(i))?;
        table.push_str(" ")?;
        add_left(table, ADDRESS, self.address(i))?;
        table.push_str(" ")?;
        add_left(table, STATE, state(self.look.role(i), self.look.answer(i)))?;
        match self.look.report(i) {
            Some(report) => self.add_report(alloc, table, i, &report)?,
            None => {}
        }
        table.push_str("\n")
    }

    // The columns of what it said of itself.
    fn add_report(
        &self,
        alloc: Global,
        table: &mut String,
        i: u8,
        report: &ServerReport,
    ) -> Result<(), AllocError> {
        add_long(alloc, table, Some(report.last))?;
        add_long(alloc, table, self.look.behind(i))?;
        add_long(alloc, table, Some(report.memory.items))?;
        add_short(alloc, table, Some(report.memory.estimate))?;
        add_share(alloc, table, report.memory.estimate, report.memory.limit)?;
        add_usage(alloc, table, report.connections)?;
        add_short(alloc, table, Some(report.seats.used))?;
        self.add_rates(alloc, table, i)?;
        add_short(alloc, table, Some(report.inbox.length))?;
        add_lease(alloc, table, report)?;
        add_cell(alloc, table, 6, Age(report.uptime))
    }

    // The columns of what it did since the earlier look.
    fn add_rates(&self, alloc: Global, table: &mut String, i: u8) -> Result<(), AllocError> {
        let rates = self.look.rates(self.earlier, i);
        add_short(alloc, table, rates.map(|rates| rates.clean_reads))?;
        add_short(alloc, table, rates.map(|rates| rates.dirty_reads))?;
        add_short(alloc, table, rates.map(|rates| rates.updates))
    }
}

// The role of a server that answers, or that it is gone, or how it failed.
fn state(role: Role, answer: Option<ServerAnswer>) -> &'static str {
    match (role, answer) {
        (Role::Gone, _) => "gone",
        (_, None) => NOTHING,
        (_, Some(ServerAnswer::NoConnection(NoConnection::Ended))) => "ended",
        (_, Some(ServerAnswer::NoConnection(NoConnection::NotReached))) => "unreached",
        (_, Some(ServerAnswer::NoConnection(NoConnection::UnknownHost))) => "no host",
        (_, Some(ServerAnswer::Stranger(_))) => "stranger",
        (_, Some(ServerAnswer::NoAnswer)) => "silent",
        (Role::Only, _) => "only",
        (Role::Head, _) => "head",
        (Role::Middle, _) => "middle",
        (Role::Tail, _) => "tail",
    }
}

// A number in six places, after a space.
fn add_long(alloc: Global, table: &mut String, number: Option<u64>) -> Result<(), AllocError> {
    match number {
        Some(number) => add_cell(
            alloc,
            table,
            7,
            Short {
                number,
                most: 99_999,
            },
        ),
        None => add_right(table, 7, NOTHING),
    }
}

// A number in five places, after a space.
fn add_short(alloc: Global, table: &mut String, number: Option<u64>) -> Result<(), AllocError> {
    match number {
        Some(number) => add_cell(
            alloc,
            table,
            6,
            Short {
                number,
                most: 9_999,
            },
        ),
        None => add_right(table, 6, NOTHING),
    }
}

// How much of a limit is reached, in hundredths, in four places after a space.
fn add_share(
    alloc: Global,
    table: &mut String,
    used: u64,
    limit: Option<u64>,
) -> Result<(), AllocError> {
    let Some(limit) = limit else {
        return add_right(table, 5, NOTHING);
    };
    let hundredths = 100 * u128::from(used) / u128::from(limit.max(1));
    let hundredths = hundredths.min(999);
    let text = format!(in alloc; "{hundredths}%")?;
    add_right(table, 5, text.as_str())
}

// How many are in use, and how many there may be, in eleven places after a space.
fn add_usage(alloc: Global, table: &mut String, usage: Usage) -> Result<(), AllocError> {
    let used = Short {
        number: usage.used,
        most: 9_999,
    };
    let limit = Short {
        number: usage.limit,
        most: 9_999,
    };
    let text = format!(in alloc; "{used}/{limit}")?;
    add_right(table, 12, text.as_str())
}

// For how long its lease holds, in five places after a space.
fn add_lease(alloc: Global, table: &mut String, report: &ServerReport) -> Result<(), AllocError> {
    match report.lease {
        None => add_right(table, 6, NOTHING),
        Some(lease) if lease.left == 0 => add_right(table, 6, "over"),
        Some(lease) => add_cell(alloc, table, 6, Age(lease.left)),
    }
}

// A number at the right of so many places.
fn add_number(
    alloc: Global,
    table: &mut String,
    places: usize,
    number: u64,
) -> Result<(), AllocError> {
    add_cell(alloc, table, places, number)
}

// Anything at the right of so many places.
fn add_cell<T: Display + Drop>(
    alloc: Global,
    table: &mut String,
    places: usize,
    cell: T,
) -> Result<(), AllocError> {
    let text = format!(in alloc; "{cell}")?;
    add_right(table, places, text.as_str())
}

// A text at the right of so many places.
fn add_right(table: &mut String, places: usize, text: &str) -> Result<(), AllocError> {
    for _ in text.len()..places {
        table.push_str(" ")?;
    }
    table.push_str(text)
}

// A text at the left of so many places; what doesn't fit is left out.
fn add_left(table: &mut String, places: usize, text: &str) -> Result<(), AllocError> {
    let mut left = places;
    for c in text.chars() {
        if left > 0 {
            table.push(c)?;
            left -= 1;
        }
    }
    for _ in 0..left {
        table.push_str(" ")?;
    }
    Ok(())
}
