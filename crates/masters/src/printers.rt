//! Where a master prints: its answers and steps on standard output, and what a person has to know on standard error.

use crate::command::WHO;
use craq_settings::MasterSettings;
use ends::Sink;
use lines::Answers;
use std::alloc::{AllocError, Global};

/// Both outputs, and what the master was told at its start.
#[derive(Drop)]
pub(crate) struct Printer<'a, W, X> {
    pub(crate) settings: &'a MasterSettings,
    output: &'a mut W,
    pub(crate) errors: &'a mut X,
    answers: Answers,
}

impl<'a, W: Sink, X: Sink> Printer<'a, W, X> {
    /// Onto these outputs, of a master that was told this. Fails only if memory runs out.
    pub(crate) fn new(
        alloc: Global,
        settings: &'a MasterSettings,
        output: &'a mut W,
        errors: &'a mut X,
    ) -> Result<Printer<'a, W, X>, AllocError> {
        Ok(Printer {
            settings,
            output,
            errors,
            answers: Answers::new(alloc)?,
        })
    }

    /// A line of the input means nothing.
    pub(crate) fn bad_line(&mut self) {
        let servers = self.settings.numbers.servers;
        self.answers
            .bad_line(self.output, self.errors, WHO, "gone", servers);
    }

    /// So many have noted that server `j` has failed.
    pub(crate) fn told(&mut self, j: u8, told: usize) {
        self.answers.told(self.output, self.errors, WHO, j, told);
    }

    /// A step of server `i`.
    pub(crate) fn step(&mut self, milliseconds: u64, i: u8, what: &[u8]) {
        self.answers
            .step(self.output, self.errors, WHO, milliseconds, i, what);
    }

    /// Server `i` has a lease of so many milliseconds.
    pub(crate) fn lease(&mut self, milliseconds: u64, i: u8, term: u64) {
        self.answers
            .lease(self.output, self.errors, WHO, milliseconds, i, term);
    }

    /// Server `i` was silent for so many milliseconds.
    pub(crate) fn silent(&mut self, milliseconds: u64, i: u8, silence: u64) {
        self.answers
            .silent(self.output, self.errors, WHO, milliseconds, i, silence);
    }

    /// The master stood still for so many milliseconds.
    pub(crate) fn paused(&mut self, milliseconds: u64, pause: u64) {
        self.answers
            .paused(self.output, self.errors, WHO, milliseconds, pause);
    }

    /// No server was heard for so many milliseconds.
    pub(crate) fn quiet(&mut self, milliseconds: u64, silence: u64) {
        self.answers
            .quiet(self.output, self.errors, WHO, milliseconds, silence);
    }

    /// Something came of an epoch.
    pub(crate) fn epoch(&mut self, milliseconds: u64, what: &[u8], epoch: u64) {
        self.answers
            .epoch(self.output, self.errors, WHO, milliseconds, what, epoch);
    }
}
