//! What a server counts as text for Prometheus (its text format 0.0.4).

use crate::histograms::{BUCKETS, Histogram, bounds};
use crate::reports::{Calls, LeaseState, ServerReport, Usage};
use crate::texts::Seconds;
use std::fmt;
use std::fmt::Display;

/// The times of calls of clients, from parsed to answered. Those of several threads are merged, histogram by histogram.
#[derive(Drop)]
pub struct CallTimes {
    /// Of reads that were answered from the server's own table.
    pub clean_reads: Histogram,
    /// Of reads that were answered after a question to the tail.
    pub dirty_reads: Histogram,
    /// Of updates.
    pub updates: Histogram,
}

/// The metrics of a server: what its report and the times of its calls say. docs/FORMATS.md has their names.
#[derive(Clone, Copy)]
pub struct Metrics<'a> {
    /// What it says of itself.
    pub report: &'a ServerReport,
    /// How long calls took.
    pub times: &'a CallTimes,
}

impl Display for Metrics<'_> {
    fn fmt<W: fmt::Write>(&self, f: &mut fmt::Formatter<W>) -> fmt::Result {
        write_server(f, self.report)?;
        write_chain(f, self.report)?;
        write_memory(f, self.report)?;
        write_clients(f, self.report)?;
        write_calls(f, self.report)?;
        write_worker(f, self.report)?;
        if let Some(lease) = self.report.lease {
            write_lease(f, lease)?;
        }
        write_times(f, self.times)
    }
}

// Which server it is.
fn write_server<W: fmt::Write>(f: &mut fmt::Formatter<W>, report: &ServerReport) -> fmt::Result {
    let (id, servers) = (report.id, report.servers);
    let (major, minor, patch) = (
        report.version.major,
        report.version.minor,
        report.version.patch,
    );
    head(f, "craq_info", "gauge", "Which server this is.")?;
    write!(
        f,
        "craq_info{{id=\"{id}\",servers=\"{servers}\",version=\"{major}.{minor}.{patch}\"}} 1\n"
    )?;
    head(
        f,
        "craq_uptime_seconds",
        "gauge",
        "How long ago it started.",
    )?;
    let uptime = Seconds(report.uptime);
    write!(f, "craq_uptime_seconds {uptime}\n")
}

// What it knows of the chain.
fn write_chain<W: fmt::Write>(f: &mut fmt::Formatter<W>, report: &ServerReport) -> fmt::Result {
    counter(
        f,
        "craq_failovers_total",
        "Servers of its chain that it knows to be gone.",
        u64::from(report.view.count_ones()),
    )?;
    gauge(
        f,
        "craq_stalled_links",
        "Links to other servers that stand still.",
        u64::from(report.stalled.count_ones()),
    )?;
    gauge(
        f,
        "craq_last_number",
        "The number of its last entry.",
        report.last,
    )?;
    counter(
        f,
        "craq_commits_total",
        "Entries that it knows to be committed.",
        report.committed,
    )
}

// What its items take.
fn write_memory<W: fmt::Write>(f: &mut fmt::Formatter<W>, report: &ServerReport) -> fmt::Result {
    let memory = report.memory;
    gauge(f, "craq_items", "Keys that have a version.", memory.items)?;
    gauge(
        f,
        "craq_memory_bytes",
        "What its items take by the estimate.",
        memory.estimate,
    )?;
    match memory.limit {
        Some(limit) => gauge(
            f,
            "craq_memory_limit_bytes",
            "What its items may take.",
            limit,
        ),
        None => Ok(()),
    }
}

// Its clients' connections and seats.
fn write_clients<W: fmt::Write>(f: &mut fmt::Formatter<W>, report: &ServerReport) -> fmt::Result {
    let Usage { used, limit } = report.connections;
    gauge(f, "craq_connections", "Connections of clients.", used)?;
    gauge(
        f,
        "craq_connections_limit",
        "As many as there may be.",
        limit,
    )?;
    counter(
        f,
        "craq_refused_connections_total",
        "Connections that it refused, since it had as many as it may.",
        report.refused.connections,
    )?;
    let Usage { used, limit } = report.seats;
    gauge(f, "craq_seats_used", "Seats that work on a call.", used)?;
    gauge(f, "craq_seats", "Its seats.", limit)
}

// Its clients' calls.
fn write_calls<W: fmt::Write>(f: &mut fmt::Formatter<W>, report: &ServerReport) -> fmt::Result {
    let Calls {
        clean_reads,
        dirty_reads,
        updates,
    } = report.calls;
    head(
        f,
        "craq_calls_total",
        "counter",
        "Calls of clients that it answered.",
    )?;
    write!(f, "craq_calls_total{{kind=\"clean_read\"}} {clean_reads}\n")?;
    write!(f, "craq_calls_total{{kind=\"dirty_read\"}} {dirty_reads}\n")?;
    write!(f, "craq_calls_total{{kind=\"update\"}} {updates}\n")?;
    counter(
        f,
        "craq_refused_stores_total",
        "Commands that it refused, since its items took the memory that they may.",
        report.refused.stores,
    )
}

// Its worker.
fn write_worker<W: fmt::Write>(f: &mut fmt::Formatter<W>, report: &ServerReport) -> fmt::Result {
    counter(
        f,
        "craq_questions_total",
        "Questions that it sent to the tail.",
        report.questions,
    )?;
    gauge(
        f,
        "craq_inbox_length",
        "Inputs that wait for its worker.",
        report.inbox.length,
    )?;
    counter(
        f,
        "craq_inputs_total",
        "Inputs that its worker took.",
        report.inbox.taken,
    )
}

// Its lease.
fn write_lease<W: fmt::Write>(f: &mut fmt::Formatter<W>, lease: LeaseState) -> fmt::Result {
    head(
        f,
        "craq_lease_left_seconds",
        "gauge",
        "For how long its lease holds.",
    )?;
    let left = Seconds(lease.left);
    write!(f, "craq_lease_left_seconds {left}\n")
}

// How long calls took.
fn write_times<W: fmt::Write>(f: &mut fmt::Formatter<W>, times: &CallTimes) -> fmt::Result {
    head(
        f,
        "craq_call_seconds",
        "histogram",
        "How long calls took, from parsed to answered.",
    )?;
    write_histogram(f, "clean_read", &times.clean_reads)?;
    write_histogram(f, "dirty_read", &times.dirty_reads)?;
    write_histogram(f, "update", &times.updates)
}

// The times of one kind of calls: for each bound how many took no longer, then their sum and how many there were.
fn write_histogram<W: fmt::Write>(
    f: &mut fmt::Formatter<W>,
    kind: &str,
    times: &Histogram,
) -> fmt::Result {
    for (bucket, bound) in bounds().iter().enumerate() {
        let (bound, count) = (Seconds(*bound), times.at_most(bucket));
        write!(
            f,
            "craq_call_seconds_bucket{{kind=\"{kind}\",le=\"{bound}\"}} {count}\n"
        )?;
    }
    let count = times.at_most(BUCKETS - 1);
    let sum = Seconds(times.sum());
    write!(
        f,
        "craq_call_seconds_bucket{{kind=\"{kind}\",le=\"+Inf\"}} {count}\n"
    )?;
    write!(f, "craq_call_seconds_sum{{kind=\"{kind}\"}} {sum}\n")?;
    write!(f, "craq_call_seconds_count{{kind=\"{kind}\"}} {count}\n")
}

// A number that only grows.
fn counter<W: fmt::Write>(
    f: &mut fmt::Formatter<W>,
    name: &str,
    help: &str,
    number: u64,
) -> fmt::Result {
    head(f, name, "counter", help)?;
    write!(f, "{name} {number}\n")
}

// A number that goes up and down.
fn gauge<W: fmt::Write>(
    f: &mut fmt::Formatter<W>,
    name: &str,
    help: &str,
    number: u64,
) -> fmt::Result {
    head(f, name, "gauge", help)?;
    write!(f, "{name} {number}\n")
}

// The lines that say what a metric is.
fn head<W: fmt::Write>(
    f: &mut fmt::Formatter<W>,
    name: &str,
    kind: &str,
    help: &str,
) -> fmt::Result {
    write!(f, "# HELP {name} {help}\n# TYPE {name} {kind}\n")
}
