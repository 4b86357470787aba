//! What a master does with what it hears. It waits for no server.
ghost use Rattle.std.specs.Prelude.{◌≡◌, ◌↔◌, IsSome, true};

use crate::input_threads::named_by;
use crate::news::{TimedNews, milliseconds_since};
use crate::platforms::Platform;
use crate::printers::Printer;
use crate::starting::ServerSender;
use crossbeam_channel::{Receiver, RecvTimeoutError, Sender};
use ends::{Sink, Source};
use lines::next_line;
use master_decisions::{
    Beats, Decision, Facts, Knowledge, Leaving, MasterFault, News, Presence, Rounds, StalledLinks,
    ToldSteps, decided_by_news, looks_first,
};
use std::alloc::{AllocError, Global};
use std::time::{Duration, Instant};

/// The thread that decides: all that a master knows, and what it waits for.
#[derive(Drop)]
pub(crate) struct Decider<'a, W, X> {
    pub(crate) alloc: Global,
    pub(crate) printer: Printer<'a, W, X>,
    pub(crate) knowledge: Knowledge,
    /// What is wanted of servers, and not done yet.
    pub(crate) rounds: Rounds,
    /// Where what is wanted of each server goes, by its id.
    pub(crate) server_senders: Vec<ServerSender>,
    /// What the threads hear.
    all_news: Receiver<TimedNews>,
    /// Where it puts that a line of the input was answered, if a thread reads it: the next one is read then.
    pub(crate) answered: Option<Sender<()>>,
    /// When it began.
    begun: Instant,
    /// What it has for leases, if it watches.
    pub(crate) beats: Option<Beats>,
    /// Whom it heard lately.
    pub(crate) presence: Presence,
    /// Which links between servers stand still, and what it printed of that.
    pub(crate) stalled_links: StalledLinks,
    /// Whose answers don't count.
    pub(crate) leaving: Leaving,
    /// What it printed of servers that are gone.
    pub(crate) told_steps: ToldSteps,
}

impl<'a, W: Sink, X: Sink> Decider<'a, W, X> {
    /// Of a master that began then, before it spoke to a server: its threads put their news there. Fails only if memory
    /// runs out.
    pub(crate) fn new(
        alloc: Global,
        printer: Printer<'a, W, X>,
        server_senders: Vec<ServerSender>,
        all_news: Receiver<TimedNews>,
        begun: Instant,
    ) -> Result<Decider<'a, W, X>, AllocError> {
        let knowledge = Knowledge::new(alloc, printer.settings.numbers.servers)?;
        Ok(Decider {
            alloc,
            printer,
            knowledge,
            rounds: Rounds::new(alloc),
            server_senders,
            all_news,
            answered: None,
            begun,
            beats: None,
            presence: Presence::new(),
            stalled_links: StalledLinks::new(),
            leaving: Leaving::new(),
            told_steps: ToldSteps::new(),
        })
    }

    /// Reads lines until the input ends. While something is under way no line is read.
    pub(crate) fn read_on<R: Platform, S: Source>(
        &mut self,
        rt: &R,
        input: &mut S,
        line: &mut Vec<u8>,
    ) -> Result<(), MasterFault> {
        for _ in rt.forever() {
            self.end_rounds(rt)?;
            if !self.rounds.is_empty() {
                self.take_next(rt, None)?;
            } else if next_line(input, line)? {
                let milliseconds = self.running(rt);
                let news = named_by(line.as_slice(), self.servers());
                self.take(rt, TimedNews { milliseconds, news })?;
            } else {
                return Ok(());
            }
        }
        unreachable!()
    }

    /// Watches until no server is left.
    pub(crate) fn watch_on<R: Platform>(&mut self, rt: &R) -> Result<(), MasterFault> {
        for _ in rt.forever() {
            let wait = self.act(rt)?;
            self.end_rounds(rt)?;
            if !self.knowledge.has_living() && self.rounds.is_empty() {
                return Err(MasterFault::NoServer);
            }
            self.take_next(rt, wait)?;
        }
        unreachable!()
    }

    /// Waits for what is new, for this many nanoseconds at most if there is such a number, and does what it asks for.
    pub(crate) fn take_next<R: Platform>(
        &mut self,
        rt: &R,
        wait: Option<u64>,
    ) -> Result<(), MasterFault> {
        match self.next_news(rt, wait)? {
            Some(timed_news) => self.take(rt, timed_news),
            None => Ok(()),
        }
    }

    // What is new, if something is in time.
    fn next_news<R: Platform>(
        &self,
        rt: &R,
        wait: Option<u64>,
    ) -> Result<Option<TimedNews>, MasterFault> {
        let Some(wait) = wait else {
            return match self.all_news.recv(rt) {
                Ok(timed_news) => Ok(Some(timed_news)),
                Err(_) => Err(MasterFault::Run),
            };
        };
        match self.all_news.recv_timeout(rt, Duration::from_nanos(wait)) {
            Ok(timed_news) => Ok(Some(timed_news)),
            Err(RecvTimeoutError::Timeout) => Ok(None),
            Err(RecvTimeoutError::Disconnected) => Err(MasterFault::Run),
        }
    }

    // Does what is decided about a piece of news, and what it asks for beside that.
    fn take<R: Platform>(&mut self, rt: &R, timed_news: TimedNews) -> Result<(), MasterFault> {
        let TimedNews { milliseconds, news } = timed_news;
        self.tell_step(milliseconds, &news);
        self.presence.attend(milliseconds, &news);
        if let News::Typed(j) = news {
            return self.take_line(rt, milliseconds, j);
        }
        let decision = decided_by_news(self.facts_with(&news), &news);
        match self.carry_out(rt, decision) {
            Ok(()) => self.follow(rt, milliseconds, news),
            Err(fault) => {
                drop(news);
                Err(fault)
            }
        }
    }

    // A line of the input says that server j is gone.
    fn take_line<R: Platform>(
        &mut self,
        rt: &R,
        milliseconds: u64,
        j: u8,
    ) -> Result<(), MasterFault> {
        if looks_first(self.watches(), self.knowledge.is_gone(j)) {
            return self.look(rt, j);
        }
        let beat = self.printer.settings.numbers.beat;
        let answers = self.presence.answers(j, milliseconds, beat);
        self.do_line(rt, j, answers)
    }

    /// Does what the line says, once it is known whether the server still answers: it is told what a person should know
    /// before.
    pub(crate) fn do_line<R: Platform>(
        &mut self,
        rt: &R,
        j: u8,
        answers: bool,
    ) -> Result<(), MasterFault> {
        self.warn(j, answers);
        let decision = decided_by_news(self.facts(), &News::Typed(j));
        self.carry_out(rt, decision)
    }

    // Does what a piece of news asks for beside what was decided.
    fn follow<R: Platform>(
        &mut self,
        rt: &R,
        milliseconds: u64,
        news: News,
    ) -> Result<(), MasterFault> {
        match news {
            News::Typed(_) | News::Broken(_) | News::Lost(_) | News::Ended(_) => Ok(()),
            News::BadLine => {
                self.printer.bad_line();
                self.let_read(rt);
                Ok(())
            }
            News::Met(i, start, gone) => self.meet(rt, i, start, gone),
            News::Told(i, reading) => {
                self.stalled_links.answered(i, milliseconds);
                self.hear(rt, i, reading)
            }
            News::Stalled(i, servers) => {
                self.stalled_links.hear(i, servers, milliseconds);
                Ok(())
            }
            News::Answered(i, answered) => {
                self.hear_answer(i, answered);
                Ok(())
            }
            News::Fault(fault) => Err(fault),
        }
    }

    // What is known when there is this news.
    fn facts_with(&self, news: &News) -> Facts {
        self.knowledge.facts_with(self.watches(), news)
    }

    /// What is known, of no news.
    pub(crate) fn facts(&self) -> Facts {
        self.knowledge.facts(self.watches())
    }

    /// Does what was decided: a server does nothing more, something is sent to one, a notice is given.
    pub(crate) fn carry_out<R: Platform>(
        &mut self,
        rt: &R,
        decision: Decision,
    ) -> Result<(), MasterFault> {
        if let (Some(beats), Some(j)) = (&mut self.beats, decision.given_up()) {
            beats.lose(j);
        }
        if let Some(sending) = decision.sending() {
            let (i, order) = sending.parts();
            self.hand(rt, i, order);
        }
        match decision.notice() {
            Some(notice) => self.give(rt, notice),
            None => Ok(()),
        }
    }

    /// Lets the next line of the input be read, if a thread reads it.
    pub(crate) fn let_read<R: Platform>(&self, rt: &R) {
        if let Some(answered) = &self.answered {
            let _ = answered.try_send(rt, ());
        }
    }

    /// Whether it watches.
    pub(crate) fn watches(&self) -> bool
        ensures { (result ≡ true) ↔ IsSome self.now.beats }
    {
        self.beats.is_some()
    }

    /// How many servers the chain has.
    pub(crate) fn servers(&self) -> u8 {
        self.printer.settings.numbers.servers
    }

    /// How many milliseconds have passed since it began.
    pub(crate) fn running<R: Platform>(&self, rt: &R) -> u64 {
        milliseconds_since(rt, self.begun)
    }
}
