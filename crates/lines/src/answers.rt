//! The answers to the lines of the input. Standard output may stop taking them, and then the command goes on.

use crate::texts::{text, text_of};
use ends::{Sink, write_all};
use std::alloc::{AllocError, Global};
use std::fmt;
use std::fmt::Display;

/// Room for the longest answer.
const ROOM: usize = 128;

/// How many milliseconds a second has.
const SECOND: u64 = 1_000;

/// Where answers are put together. Its room is made at first, so that no memory is needed when a failure is told.
#[derive(Drop)]
pub struct Answers {
    line: String,
    // Whether an answer was lost.
    has_lost: bool,
}

impl Answers {
    /// Before the first answer. Refused only if memory runs out.
    pub fn new(alloc: Global) -> Result<Answers, AllocError> {
        Ok(Answers {
            line: String::with_capacity(alloc, ROOM)?,
            has_lost: false,
        })
    }

    /// Writes `bad line`, and tells on the other output what a line is: this word and a number below `servers`. Who it
    /// is goes on is told if it can't be written.
    pub fn bad_line<W: Sink, X: Sink>(
        &mut self,
        output: &mut W,
        errors: &mut X,
        who: &str,
        word: &str,
        servers: u8,
    ) {
        let last = servers.saturating_sub(1);
        let _ = writeln!(
            text(errors),
            "craq: a line of the input is \"{word} J\", with J from 0 to {last}"
        );
        self.give(output, errors, who, "bad line");
    }

    /// Writes `gone J`.
    pub fn gone<W: Sink, X: Sink>(&mut self, output: &mut W, errors: &mut X, who: &str, j: u8) {
        self.give(output, errors, who, format_args!("gone {j}"));
    }

    /// Writes `not gone J`, and tells on the other output why.
    pub fn not_gone<W: Sink, X: Sink>(&mut self, output: &mut W, errors: &mut X, who: &str, j: u8) {
        let _ = writeln!(
            text(errors),
            "craq: server {j} can't be stopped, so nobody is told that it is gone"
        );
        self.give(output, errors, who, format_args!("not gone {j}"));
    }

    /// Writes `gone J told K`.
    pub fn told<W: Sink, X: Sink>(
        &mut self,
        output: &mut W,
        errors: &mut X,
        who: &str,
        j: u8,
        told: usize,
    ) {
        self.give(output, errors, who, format_args!("gone {j} told {told}"));
    }

    /// Writes `+T s server I: ..`, T being the seconds since the start, of which these are the milliseconds.
    pub fn step<W: Sink, X: Sink>(
        &mut self,
        output: &mut W,
        errors: &mut X,
        who: &str,
        milliseconds: u64,
        i: u8,
        what: &[u8],
    ) {
        let (time, what) = (Seconds(milliseconds), text_of(what));
        self.give(
            output,
            errors,
            who,
            format_args!("+{time} server {i}: {what}"),
        );
    }

    /// Writes `+T s server I: has a lease of A s`, A being the seconds of its term, whose milliseconds these are.
    pub fn lease<W: Sink, X: Sink>(
        &mut self,
        output: &mut W,
        errors: &mut X,
        who: &str,
        milliseconds: u64,
        i: u8,
        term: u64,
    ) {
        let (time, term) = (Seconds(milliseconds), Seconds(term));
        self.give(
            output,
            errors,
            who,
            format_args!("+{time} server {i}: has a lease of {term}"),
        );
    }

    /// Writes `+T s server I: no answer for A s; it is told that it is gone`, A being the seconds of its silence, of
    /// which these are the milliseconds.
    pub fn silent<W: Sink, X: Sink>(
        &mut self,
        output: &mut W,
        errors: &mut X,
        who: &str,
        milliseconds: u64,
        i: u8,
        silence: u64,
    ) {
        let (time, silence) = (Seconds(milliseconds), Seconds(silence));
        self.give(
            output,
            errors,
            who,
            format_args!("+{time} server {i}: no answer for {silence}; it is told that it is gone"),
        );
    }

    /// Writes `+T s the master stood still for A s; silences count from now on`, A being the seconds of its pause, of
    /// which these are the milliseconds.
    pub fn paused<W: Sink, X: Sink>(
        &mut self,
        output: &mut W,
        errors: &mut X,
        who: &str,
        milliseconds: u64,
        pause: u64,
    ) {
        let (time, pause) = (Seconds(milliseconds), Seconds(pause));
        self.give(
            output,
            errors,
            who,
            format_args!("+{time} the master stood still for {pause}; silences count from now on"),
        );
    }

    /// Writes `+T s no server has answered for A s; the master may be cut off`.
    pub fn quiet<W: Sink, X: Sink>(
        &mut self,
        output: &mut W,
        errors: &mut X,
        who: &str,
        milliseconds: u64,
        silence: u64,
    ) {
        let (time, silence) = (Seconds(milliseconds), Seconds(silence));
        self.give(
            output,
            errors,
            who,
            format_args!("+{time} no server has answered for {silence}; the master may be cut off"),
        );
    }

    /// Writes `+T s .. R`, R being the number of an epoch.
    pub fn epoch<W: Sink, X: Sink>(
        &mut self,
        output: &mut W,
        errors: &mut X,
        who: &str,
        milliseconds: u64,
        what: &[u8],
        epoch: u64,
    ) {
        let (time, what) = (Seconds(milliseconds), text_of(what));
        self.give(output, errors, who, format_args!("+{time} {what} {epoch}"));
    }

    // Writes an answer in a line. The first one that can't be written is told on the other output, with who goes on.
    fn give<W: Sink, X: Sink, D: Display + Drop>(
        &mut self,
        output: &mut W,
        errors: &mut X,
        who: &str,
        answer: D,
    ) {
        self.line.clear();
        let _ = writeln!(self.line, "{answer}");
        if write_all(output, self.line.as_bytes()).is_ok() || self.has_lost {
            return;
        }
        self.has_lost = true;
        let _ = writeln!(
            text(errors),
            "craq: standard output cannot be written; this and maybe later answers are lost: {answer}; {who} goes on"
        );
    }
}

/// A time of so many milliseconds, in seconds with three digits after the point.
#[derive(Clone, Copy)]
struct Seconds(u64);

impl Display for Seconds {
    fn fmt<W: fmt::Write>(&self, f: &mut fmt::Formatter<W>) -> fmt::Result {
        let (whole, rest) = (self.0 / SECOND, self.0 % SECOND);
        write!(f, "{whole}.{rest:03} s")
    }
}
