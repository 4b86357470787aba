//! How a master gives notices, and asks its servers anything else: round by round, and what comes of each.

use crate::deciding::Decider;
use crate::master_lines::{tell_unmet, tell_unnoted};
use crate::platforms::Platform;
use ends::Sink;
use leases::Order;
use master_decisions::{
    Answer, Answered, MasterFault, Matter, Notice, Request, Round, Task, decided_by_lack, done_in,
    named_in, refusal_in, requests_of_notice,
};
use node::SERVERS;

impl<'a, W: Sink, X: Sink> Decider<'a, W, X> {
    /// Connects to each server once, and learns from those that accept it who has failed. Who doesn't answer is told on
    /// the other output. Refused with Refused if a server refuses the master.
    pub(crate) fn greet<R: Platform>(&mut self, rt: &R) -> Result<(), MasterFault> {
        let mut wanted = Vec::new(self.alloc);
        for i in 0..self.servers() {
            wanted.push((i, Request::Greet))?;
        }
        self.ask_each(rt, Matter::Greeting, wanted.as_slice())?;
        drop(wanted);
        for _ in rt.forever() {
            self.end_rounds(rt)?;
            if self.rounds.is_empty() {
                return Ok(());
            }
            self.take_next(rt, None)?;
        }
        unreachable!()
    }

    /// Has each server watched that isn't known to have failed.
    pub(crate) fn begin_watches<R: Platform>(&mut self, rt: &R) -> Result<(), MasterFault> {
        for i in 0..self.servers() {
            if !self.knowledge.is_gone(i) {
                let request = Request::Watch;
                self.ask(rt, i, Task { round: 0, request })?;
            }
        }
        Ok(())
    }

    /// Asks whether server `j` still answers.
    pub(crate) fn look<R: Platform>(&mut self, rt: &R, j: u8) -> Result<(), MasterFault> {
        self.ask_each(rt, Matter::Look(j), &[(j, Request::Look)])
    }

    /// Gives a notice. A server that it names as gone is known to be gone from then on. If no line asks for the notice,
    /// that server is told too if it is reached, and ends then, but nobody waits for it.
    pub(crate) fn give<R: Platform>(&mut self, rt: &R, notice: Notice) -> Result<(), MasterFault> {
        let order = notice.order();
        let servers = self.servers();
        let Some(j) = named_in(order) else {
            return Err(MasterFault::Run);
        };
        if j >= servers || servers > SERVERS {
            return Err(MasterFault::Run);
        }
        let gone = self.knowledge.gone();
        let wanted = requests_of_notice(self.alloc, notice, j, gone, servers)?;
        if let Order::Gone(_) = order {
            self.knowledge.lose(j);
        }
        if !notice.is_typed() && self.has_met(j) {
            self.hand(rt, j, order);
        }
        self.ask_each(rt, Matter::Notice(notice), wanted.as_slice())
    }

    // Whether server j was met since it is watched: nothing is sent to another start of it.
    fn has_met(&self, j: u8) -> bool {
        match &self.beats {
            Some(beats) => beats.has_met(j),
            None => false,
        }
    }

    // Begins a round, in which this is wanted of these servers.
    fn ask_each<R: Platform>(
        &mut self,
        rt: &R,
        matter: Matter,
        wanted: &[(u8, Request)],
    ) -> Result<(), MasterFault> {
        let mut round = self.rounds.next(matter);
        for one in wanted {
            let (i, request) = *one;
            round.asks(i);
            let task = Task {
                round: round.number(),
                request,
            };
            self.ask(rt, i, task)?;
        }
        self.rounds.begin(round)?;
        Ok(())
    }

    // Has the thread of server i do this.
    fn ask<R: Platform>(&self, rt: &R, i: u8, task: Task) -> Result<(), MasterFault> {
        match self.server_senders.get(usize::from(i)) {
            Some(server_sender) => server_sender.ask(rt, task),
            None => Ok(()),
        }
    }

    /// Has an order sent to server `i`, if it is reached.
    pub(crate) fn hand<R: Platform>(&self, rt: &R, i: u8, order: Order) {
        if let Some(server_sender) = self.server_senders.get(usize::from(i)) {
            server_sender.hand(rt, order);
        }
    }

    /// Server `i` has answered.
    pub(crate) fn hear_answer(&mut self, i: u8, answered: Answered) {
        if let Some(start) = answered.start {
            self.knowledge.met(i, start, answered.gone);
        }
        let answer = answered.answer;
        if let Some(Matter::Notice(notice)) = self.rounds.answer(answered.round, i, answer) {
            if let (Answer::Done, Some(j)) = (answer, named_in(notice.order())) {
                self.knowledge.noted(i, j);
            }
        }
    }

    /// Does what is due for each round that is done.
    pub(crate) fn end_rounds<R: Platform>(&mut self, rt: &R) -> Result<(), MasterFault> {
        for _ in rt.forever() {
            let Some(round) = self.rounds.take_done() else {
                return Ok(());
            };
            match round.matter() {
                Matter::Greeting => self.end_greeting(&round)?,
                Matter::Look(j) => self.do_line(rt, j, done_in(round.answers()) > 0)?,
                Matter::Notice(notice) => self.end_notice(rt, &round, notice)?,
            }
        }
        unreachable!()
    }

    // Each server was greeted.
    fn end_greeting(&mut self, round: &Round) -> Result<(), MasterFault> {
        if let Some((id, reason)) = refusal_in(round.answers()) {
            return Err(MasterFault::Refused(id, reason));
        }
        let gone = self.knowledge.gone();
        let settings = self.printer.settings;
        tell_unmet(self.printer.errors, settings, round.answers(), gone);
        Ok(())
    }

    // A notice was given. It is answered as a line is; the others are told once more of that server, if that is due.
    fn end_notice<R: Platform>(
        &mut self,
        rt: &R,
        round: &Round,
        notice: Notice,
    ) -> Result<(), MasterFault> {
        let order = notice.order();
        let Some(j) = named_in(order) else {
            return Err(MasterFault::Run);
        };
        let answers = round.answers();
        let settings = self.printer.settings;
        tell_unnoted(self.printer.errors, settings, answers, order);
        self.printer.told(j, done_in(answers));
        if notice.is_typed() {
            self.let_read(rt);
        }
        if self.rounds.end(j) && self.knowledge.is_untold(j) {
            return self.tell_untold(rt, j);
        }
        Ok(())
    }

    /// This start of server `i` has accepted a connection of the watch, and told who is gone.
    pub(crate) fn meet<R: Platform>(
        &mut self,
        rt: &R,
        i: u8,
        start: u64,
        gone: u16,
    ) -> Result<(), MasterFault> {
        self.knowledge.met(i, start, gone);
        if let Some(beats) = &mut self.beats {
            beats.met(i);
        }
        self.tell_again(rt)
    }

    /// Has the others told once more of each server that is gone, if one that was reached may not know it.
    pub(crate) fn tell_again<R: Platform>(&mut self, rt: &R) -> Result<(), MasterFault> {
        for j in 0..SERVERS {
            if self.knowledge.is_untold(j) && self.rounds.lets_again(j) {
                self.tell_untold(rt, j)?;
            }
        }
        Ok(())
    }

    // Has the others told that server j is gone, which one that was reached may not know.
    fn tell_untold<R: Platform>(&mut self, rt: &R, j: u8) -> Result<(), MasterFault> {
        let decision = decided_by_lack(self.facts(), j);
        self.carry_out(rt, decision)
    }
}
