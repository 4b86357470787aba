//! What a master does for leases, if it watches: it has its beats decide by readings of the clock, and does that.

use crate::deciding::Decider;
use crate::master_lines::tell_short_term;
use crate::platforms::Platform;
use ends::Sink;
use leases::{Due, MILLISECOND, Order, Paces, Reading, Report};
use master_decisions::{Beats, LONGEST, MasterFault, decided_by_due};

/// How many orders may be due for a server, one after another.
const MOST_DUE: u8 = 3;

impl<'a, W: Sink, X: Sink> Decider<'a, W, X> {
    /// The master of this name beats so from now on. Who is known to be gone does nothing more. Refused with Run if no
    /// chain has that many servers, or the clock can't be read.
    pub(crate) fn begin_beats<R: Platform>(
        &mut self,
        rt: &R,
        name: u32,
        paces: Paces,
    ) -> Result<(), MasterFault> {
        let Some(reading) = Reading::after(rt, ()) else {
            return Err(MasterFault::Run);
        };
        let gone = self.knowledge.gone();
        let beats = Beats::new(self.alloc, gone, name, self.servers(), paces, reading)?;
        self.beats = Some(beats);
        Ok(())
    }

    /// Does what is due for leases, if the master beats. Nothing more is then, for this many nanoseconds.
    pub(crate) fn act<R: Platform>(&mut self, rt: &R) -> Result<Option<u64>, MasterFault> {
        let mut least = match &self.beats {
            Some(beats) => beats.pause(),
            None => return Ok(None),
        };
        self.tell_pause(rt);
        self.claim(rt);
        self.tell_quiet(rt);
        self.judge_links(rt)?;
        for i in 0..self.servers() {
            let wait = self.act_for(rt, i)?;
            least = least.min(wait);
        }
        Ok(Some(least))
    }

    // Tells that the master stood still itself, if it did.
    fn tell_pause<R: Platform>(&mut self, rt: &R) {
        let Some(reading) = Reading::after(rt, ()) else {
            return;
        };
        let Some(beats) = &mut self.beats else {
            return;
        };
        if let Some(pause) = beats.look(reading) {
            let milliseconds = self.running(rt);
            self.printer.paused(milliseconds, pause / MILLISECOND);
        }
    }

    // Takes a new epoch, if it is to.
    fn claim<R: Platform>(&mut self, rt: &R) {
        let Some(reading) = Reading::after(rt, ()) else {
            return;
        };
        let Some(beats) = &mut self.beats else {
            return;
        };
        if let Some(epoch) = beats.claim(reading) {
            self.leaving.begin();
            let milliseconds = self.running(rt);
            self.printer.epoch(milliseconds, b"takes reign", epoch);
        }
    }

    // Tells that no server is heard, if that is news.
    fn tell_quiet<R: Platform>(&mut self, rt: &R) {
        let Some(reading) = Reading::after(rt, ()) else {
            return;
        };
        let Some(beats) = &mut self.beats else {
            return;
        };
        if beats.is_quiet(reading) {
            let silence = beats.after() / MILLISECOND;
            let milliseconds = self.running(rt);
            self.printer.quiet(milliseconds, silence);
        }
    }

    // Tells that server i isn't in the epoch, if that is news.
    fn tell_missing<R: Platform>(&mut self, rt: &R, i: u8) {
        if self.knowledge.is_gone(i) {
            return;
        }
        let Some(reading) = Reading::after(rt, ()) else {
            return;
        };
        let Some(beats) = &mut self.beats else {
            return;
        };
        if beats.misses(i, reading) {
            let milliseconds = self.running(rt);
            let what =
                b"not in the reign; until it is, or is called gone, no lease is prolonged".as_slice();
            self.printer.step(milliseconds, i, what);
        }
    }

    // Does what is due for server i. Nothing more is then, for this many nanoseconds.
    fn act_for<R: Platform>(&mut self, rt: &R, i: u8) -> Result<u64, MasterFault> {
        self.tell_missing(rt, i);
        for _ in 0..MOST_DUE {
            let due = self.due(rt, i);
            let decision = decided_by_due(self.facts(), i, due);
            match due {
                Due::Wait(span) => return Ok(span),
                Due::Server(order) => {
                    self.carry_out(rt, decision)?;
                    self.tell_silence(rt, i, order);
                }
                Due::Others(order) => {
                    if self.is_new(rt, order) {
                        self.carry_out(rt, decision)?;
                    }
                    return Ok(LONGEST);
                }
            }
        }
        Ok(0)
    }

    // What is due for server i. If the clock can't be read, nothing is for a beat.
    fn due<R: Platform>(&mut self, rt: &R, i: u8) -> Due {
        let Some(beats) = &mut self.beats else {
            return Due::Wait(LONGEST);
        };
        match Reading::after(rt, ()) {
            Some(reading) => beats.due(i, reading),
            None => Due::Wait(beats.pause()),
        }
    }

    // Tells that server i is told of its silence, if this order says so, and notes that.
    fn tell_silence<R: Platform>(&mut self, rt: &R, i: u8, order: Order) {
        let Some(beats) = &self.beats else {
            return;
        };
        if let Order::Silent(_, _) = order {
            let silence = beats.after() / MILLISECOND;
            let milliseconds = self.running(rt);
            if self.leaving.is_left(i) {
                let what = b"its links stand still; it is told that it is gone".as_slice();
                self.printer.step(milliseconds, i, what);
            } else {
                self.printer.silent(milliseconds, i, silence);
            }
            self.leaving.tell(i);
        }
    }

    // Whether what is due for the others is told now: that a server was silent is once, and that is printed. While a
    // notice of it is under way it isn't.
    fn is_new<R: Platform>(&mut self, rt: &R, order: Order) -> bool {
        let Order::Silent(_, j) = order else {
            return true;
        };
        if self.rounds.names(j) {
            return false;
        }
        let Some(beats) = &mut self.beats else {
            return false;
        };
        if !beats.tells_silence(j) {
            return false;
        }
        let milliseconds = self.running(rt);
        let what = b"its lease is over".as_slice();
        self.printer.step(milliseconds, j, what);
        true
    }

    /// Server `i` told how it is, and then the clock was read.
    pub(crate) fn hear<R: Platform>(
        &mut self,
        rt: &R,
        i: u8,
        reading: Reading<Report>,
    ) -> Result<(), MasterFault> {
        let report = reading.known();
        let Some(beats) = &mut self.beats else {
            return Ok(());
        };
        if self.leaving.passes_over(beats, i, report.epoch) {
            return self.learn(rt, i, report.gone);
        }
        let is_followed = beats.told(i, reading);
        if is_followed {
            self.leaving.begin();
        }
        let lease = beats.new_lease(i, &report);
        if beats.is_short(i, &report) {
            tell_short_term(self.printer.errors, i);
        }
        let milliseconds = self.running(rt);
        if let Some(term) = lease {
            self.printer.lease(milliseconds, i, term / MILLISECOND);
        }
        if is_followed {
            let what = b"followed by reign".as_slice();
            self.printer.epoch(milliseconds, what, report.epoch);
        }
        self.learn(rt, i, report.gone)
    }

    // Server i told who is gone as far as it knows: the others are told, if that is news.
    fn learn<R: Platform>(&mut self, rt: &R, i: u8, gone: u16) -> Result<(), MasterFault> {
        if self.knowledge.told(i, gone) {
            return self.tell_again(rt);
        }
        Ok(())
    }
}
