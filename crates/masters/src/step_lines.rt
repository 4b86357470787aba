//! What a master tells a person of what it hears: steps of servers, if it watches, and what a line of the input does.

use crate::deciding::Decider;
use crate::master_lines::{tell_last, tell_living};
use ends::Sink;
use master_decisions::{News, Step, step_of, warning_of};

impl<'a, W: Sink, X: Sink> Decider<'a, W, X> {
    /// Prints what is new of a server, in one line. Of one that is gone each such line is printed once.
    pub(crate) fn tell_step(&mut self, milliseconds: u64, news: &News) {
        let Some((i, step)) = step_of(news) else {
            return;
        };
        if self.told_steps.tells(self.knowledge.is_gone(i), i, step) {
            let what = self.words_of(i, step);
            self.printer.step(milliseconds, i, what);
        }
    }

    // What it prints of server i.
    fn words_of(&self, i: u8, step: Step) -> &'static [u8] {
        match step {
            Step::Connected => b"connected".as_slice(),
            Step::ConnectionLost => b"connection lost".as_slice(),
            Step::NotReached => self.loss_of(i),
            Step::Ended => b"its process has ended".as_slice(),
        }
    }

    // What it says that server i isn't reached.
    fn loss_of(&self, i: u8) -> &'static [u8] {
        if self.knowledge.is_gone(i) {
            return b"not reached".as_slice();
        }
        match &self.beats {
            Some(beats) if beats.has_lease(i) => {
                b"not reached; it may live, so nobody is told before its lease is over".as_slice()
            }
            _ => b"not reached; it may live, so nobody is told that it is gone".as_slice(),
        }
    }

    /// Tells that server `j`, which a line of the input calls gone, still answers, or is the last one.
    pub(crate) fn warn(&mut self, j: u8, answers: bool) {
        let warning = warning_of(self.knowledge.gone(), self.servers(), j, answers);
        if warning.is_living {
            tell_living(self.printer.errors, j);
        }
        if warning.is_last {
            tell_last(self.printer.errors, j);
        }
    }
}
