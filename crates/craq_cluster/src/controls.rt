//! What the program's own threads know of the servers of a cluster.
ghost use Rattle.std.specs.Prelude.{◌≡◌, ◌<◌, ◌≤◌, ℕ, Ok, OnOk, OnErr};
ghost use Rattle.node.specs.Views.{single, union};
ghost use Rattle.node.specs.declared.messages.Input.TheVariants.{Gone};
ghost use Rattle.rail.specs.Inlets.{with_inbox_message};
ghost use Rattle.rail.specs.declared.inbox_messages.InboxMessage.TheVariants.{Took, Stop};

use craq_process::{Ended, EndedSet, Ending, Scheduler};
use in_process_links::InProcessLinks;
use node::{Master, SERVERS};
use rail::{Inlet, RailFault};
use server_guards::Mark;
use std::alloc::Global;
use std::sync::Wait;
use thiserror::Error;

/// What came of telling a server to stop.
#[derive(Clone, Copy)]
pub(crate) enum Stopping {
    /// Its worker had stopped before.
    Done(Ended),
    /// Its worker was told, and will stop.
    Told,
}

/// A server can't be told to stop, so its worker may go on.
#[derive(Clone, Copy, Debug, PartialEq, Eq, Error)]
#[error("a server can't be told to stop")]
pub(crate) struct StopFault;

/// One server, as the program's own threads see it.
#[derive(Drop)]
pub struct ServerControl {
    inlet: Inlet,
    /// The mark that callers look at.
    pub failed: Mark,
    // Where the note of its worker's end will be.
    ending: Ending,
}

impl ServerControl {
    /// A server's inlet, the mark that callers look at, and where the note of its worker's end will be.
    pub(crate) fn new(inlet: Inlet, failed: Mark, ending: Ending) -> ServerControl
        ensures inlet { result.inlet ≡ inlet }
        ensures failed { result.failed ≡ failed }
    {
        ServerControl {
            inlet,
            failed,
            ending,
        }
    }

    // Has the callers answer no more calls, and the worker stop. Refused only if the worker hasn't stopped and can't be
    // told to: then its inbox got nothing.
    fn stop<R: Wait>(&mut self, rt: &R) -> Result<Stopping, StopFault>
        ensures told { result ≡ Ok Stopping.Told → self.new.inlet ≡ with_inbox_message self.old.inlet Stop }
        ensures done { (ended : ℕ) → result ≡ Ok (Stopping.Done ended) → self.new.inlet ≡ self.old.inlet }
        ensures refused { OnErr result (self.new.inlet ≡ self.old.inlet) }
    {
        if let Some(ended) = self.ending.get() {
            return Ok(Stopping::Done(ended));
        }
        self.failed.set();
        match self.inlet.stop(rt) {
            Ok(()) => Ok(Stopping::Told),
            Err(_) => Err(StopFault),
        }
    }

    // Tells the server that another has ended. Refused if its worker is gone.
    fn tell<R: Wait>(&mut self, rt: &R, ended: Ended) -> Result<(), RailFault>
        ensures ok { OnOk result (self.new.inlet ≡ with_inbox_message self.old.inlet (Took (Gone ended))) }
        ensures err { OnErr result (self.new.inlet ≡ self.old.inlet) }
    {
        self.inlet.gone(rt, ended.id())
    }

    // The note of its end, if the server has stopped by itself, and nobody has looked yet.
    fn fallen(&self) -> Option<Ended> {
        let ended = self.ending.get()?;
        if self.failed.is_set() {
            None
        } else {
            Some(ended)
        }
    }
}

/// All servers of a cluster, and whom the others were told of.
#[derive(Drop)]
pub(crate) struct ServerControls {
    alloc: Global,
    controls: Vec<ServerControl>,
    master: Master,
    // The ends of which the others are still to be told.
    untold: EndedSet,
}

impl ServerControls {
    /// The servers by their ids, of which none has failed.
    pub(crate) fn new(
        alloc: Global,
        controls: Vec<ServerControl>,
        master: Master,
    ) -> ServerControls {
        ServerControls {
            alloc,
            controls,
            master,
            untold: EndedSet::new(),
        }
    }

    /// Has the connections of server `j` closed, and its worker stop. Refused if the worker hasn't stopped and can't be
    /// told to, or there is no such server.
    pub(crate) fn stop<R: Wait + Drop>(
        &mut self,
        rt: &R,
        scheduler: &Scheduler<R, InProcessLinks<R>>,
        j: u8,
    ) -> Result<Stopping, StopFault> {
        let Some(control) = self.controls.get_mut(usize::from(j)) else {
            return Err(StopFault);
        };
        let stopping = control.stop(rt)?;
        scheduler.wake(j);
        scheduler.wake_all();
        Ok(stopping)
    }

    /// The note that server `j` has ended, if it has: then its worker puts out nothing more. Refused if there is no
    /// such server.
    pub(crate) fn ended(&self, j: u8) -> Result<Option<Ended>, StopFault> {
        match self.controls.get(usize::from(j)) {
            Some(control) => Ok(control.ending.get()),
            None => Err(StopFault),
        }
    }

    /// The end of a server that has stopped by itself since this was last asked. Its clients' connections are closed.
    pub(crate) fn next_fallen<R: Wait + Drop>(
        &mut self,
        scheduler: &Scheduler<R, InProcessLinks<R>>,
    ) -> Option<Ended> {
        for control in self.controls.iter() {
            if let Some(ended) = control.fallen() {
                control.failed.set();
                scheduler.wake_all();
                return Some(ended);
            }
        }
        None
    }

    /// How many servers haven't failed.
    pub(crate) fn living(&self) -> usize {
        let mut living = 0usize;
        for control in self.controls.iter() {
            if !control.failed.is_set() {
                living = living.wrapping_add(1);
            }
        }
        living
    }

    /// The others are to be told of this end.
    pub(crate) fn note(&mut self, ended: Ended)
        ensures chain { ended < 16 → self.new.untold ≡ union self.old.untold (single ended) }
        ensures beyond { 16 ≤ ended → self.new.untold ≡ self.old.untold }
    {
        self.untold.add(ended);
    }

    /// Tells the others of each end that was noted and that they weren't told of. It answers false if it has to be
    /// tried again, as memory was out.
    pub(crate) fn tell<R: Wait + Drop>(
        &mut self,
        rt: &R,
        scheduler: &Scheduler<R, InProcessLinks<R>>,
    ) -> bool {
        let untold = self.untold;
        for j in 0..SERVERS {
            if let Some(ended) = untold.get(j) {
                if !self.tell_of(rt, scheduler, ended) {
                    return false;
                }
            }
        }
        self.untold = EndedSet::new();
        true
    }

    // Tells the others that a server has ended. Of one that they were told of nobody is told.
    fn tell_of<R: Wait + Drop>(
        &mut self,
        rt: &R,
        scheduler: &Scheduler<R, InProcessLinks<R>>,
        ended: Ended,
    ) -> bool {
        let Ok(notices) = self.master.gone(self.alloc, ended.id()) else {
            return false;
        };
        for notice in notices {
            let (i, _) = notice;
            if let Some(control) = self.controls.get_mut(usize::from(i)) {
                let _ = control.tell(rt, ended);
                scheduler.wake(i);
            }
        }
        true
    }

    /// Ends the loops of all workers.
    pub(crate) fn end<R: Wait + Drop>(
        &mut self,
        rt: &R,
        scheduler: &Scheduler<R, InProcessLinks<R>>,
    ) {
        let mut id = 0u8;
        for control in self.controls.iter_mut() {
            let _ = control.inlet.end(rt);
            scheduler.wake(id);
            id = id.wrapping_add(1);
        }
    }
}
