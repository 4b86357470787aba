//! A worker with its links, and what there is to do at it.
ghost use Rattle.std.specs.Prelude.{◌≡◌, true};

use crate::endings::Ended;
use crate::scheduled_links::ScheduledLinks;
use in_process_links::ServerSet;
use rail::{PortSet, RailFault, Turn, Weight, Worker};
use std::sync::Wait;

/// One server's worker with its links. The type keeps that the worker is that of the server with this id, and that the
/// links may be that server's.
#[derive(Drop)]
pub(crate) struct WorkerWithLinks<R: Wait + Drop, L: ScheduledLinks + Drop> {
    id: u8,
    worker: Worker<R>,
    links: L,
    ghost own: { worker.published.instance.start.id ≡ id },
    ghost sender: { L.may_be_of links id ≡ true },
}

/// What there was to do at a worker.
#[derive(Clone, Copy)]
pub(crate) enum TurnOutcome {
    /// Nothing.
    Nothing,
    /// A message, and the server goes on.
    Message,
    /// A message, and the server is stopped.
    Stopped(Ended),
    /// A message, and the server is stopped since memory was refused.
    Refused(Ended),
    /// Nobody is left who could send a message, and the server is stopped: no more turns are taken.
    Closed(Ended),
    /// The last message of all: no more turns are taken.
    End,
}

impl<R: Wait + Drop, L: ScheduledLinks + Drop> WorkerWithLinks<R, L> {
    ghost use Rattle.std.specs.Prelude.{◌≡◌, [], ℕ, true, false};
    ghost use Rattle.craq_process.specs.Findings.{Finds};

    /// The worker of server `id`, and that server's links.
    pub(crate) fn new(id: u8, worker: Worker<R>, links: L) -> WorkerWithLinks<R, L>
        requires worker { worker.published.instance.start.id ≡ id }
        requires links { L.may_be_of links id ≡ true }
    {
        WorkerWithLinks { id, worker, links }
    }

    /// Takes a turn of the worker, if there is a message. A note of its end is of its server.
    pub(crate) fn turn(&mut self) -> TurnOutcome
        ensures { Finds self.old.id self.old.worker self.new.worker result }
    {
        match self.worker.turn_if_any(&mut self.links) {
            Ok(None) => TurnOutcome::Nothing,
            Ok(Some(Turn::Went)) => TurnOutcome::Message,
            Ok(Some(Turn::Stopped)) => TurnOutcome::Stopped(Ended::of(self.id, &self.worker)),
            Ok(Some(Turn::End)) => TurnOutcome::End,
            Err(RailFault::Closed) => TurnOutcome::Closed(Ended::of(self.id, &self.worker)),
            Err(_) => TurnOutcome::Refused(Ended::of(self.id, &self.worker)),
        }
    }

    /// How much the face weighs that the worker published last.
    pub(crate) fn weight(&self) -> Weight {
        self.worker.weight()
    }

    /// The servers of this process that were sent something since this was last asked.
    pub(crate) fn take_reached(&mut self) -> ServerSet
        ensures { result ≡ L.reached self.old.links }
    {
        self.links.take_reached()
    }

    /// The ports to which replies were put since this was last asked.
    pub(crate) fn take_replied(&mut self) -> PortSet {
        self.worker.take_replied()
    }

    /// Writes what was put on the links, as far as that can be done without waiting. Whether something is left there.
    pub(crate) fn write_out(&mut self) -> bool
        ensures { result ≡ false → (j : ℕ) → L.waiting self.new.links j ≡ [] }
    {
        self.links.write_out()
    }
}
