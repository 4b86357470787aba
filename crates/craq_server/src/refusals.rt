//! Connections that a port can't take.

use crate::rate_limits::RateLimit;
use lines::LineSender;
use std::io::Error;
use std::sync::Wait;
use std::time::Clock;

/// How many seconds pass at least between two lines.
const QUIET: u64 = 60;

/// What the system answers if the process, or the machine, has as many files open as it may.
const OF_PROCESS: i32 = 24;

const OF_MACHINE: i32 = 23;

/// What can't be done, and why.
const NO_ACCEPT: &str = "no connection can be accepted at the peer port";

const NO_FILES: &str = "has as many open files as it may";

/// Tells of connections that the peer port of a server can't take, at most once a minute.
#[derive(Drop)]
pub(crate) struct Refusals {
    id: u8,
    rate_limit: RateLimit,
}

impl Refusals {
    /// Before the first line of server `id`.
    pub(crate) fn new(id: u8) -> Refusals {
        Refusals {
            id,
            rate_limit: RateLimit::new(QUIET),
        }
    }

    /// A connection couldn't be accepted.
    pub(crate) fn tell<R: Wait + Clock>(
        &mut self,
        rt: &R,
        line_sender: &LineSender,
        fault: &Error,
    ) {
        if !self.rate_limit.is_time(rt) {
            return;
        }
        let id = self.id;
        match fault.raw_os_error() {
            Some(OF_PROCESS) => line_sender.tell(
                rt,
                format_args!("craq: server {id}: {NO_ACCEPT}: this process {NO_FILES}"),
            ),
            Some(OF_MACHINE) => line_sender.tell(
                rt,
                format_args!("craq: server {id}: {NO_ACCEPT}: this machine {NO_FILES}"),
            ),
            _ => line_sender.tell(rt, format_args!("craq: server {id}: {NO_ACCEPT}: {fault}")),
        }
    }

    /// There was no memory or no thread for a connection.
    pub(crate) fn tell_no_thread<R: Wait + Clock>(&mut self, rt: &R, line_sender: &LineSender) {
        if self.rate_limit.is_time(rt) {
            let id = self.id;
            line_sender.tell(
                rt,
                format_args!("craq: server {id}: {NO_ACCEPT}: memory or threads ran out"),
            );
        }
    }
}
