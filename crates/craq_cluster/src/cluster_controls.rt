//! Where the servers of a cluster are failed: by the input's lines, and by themselves if they are refused memory.

use crate::controls::{ServerControls, StopFault, Stopping};
use craq_process::{Ended, ScheduledLinks, Scheduler};
use in_process_links::InProcessLinks;
use lines::LineSender;
use std::alloc::{AllocError, Global};
use std::sync::{Arc, Mutex, Wait};
use std::thread;
use std::thread::{JoinHandle, Threads};
use std::time::{Clock, Duration};

/// What the program's own thread and the one that looks after the servers share. The lock is held while the others are
/// told, never while one waits for a worker to stop, and no worker takes it.
#[derive(Drop)]
pub(crate) struct ClusterControl<R: Wait + Drop>
where
    InProcessLinks<R>: ScheduledLinks,
{
    scheduler: Arc<Scheduler<R, InProcessLinks<R>>, Global>,
    controls: Mutex<ServerControls>,
    line_sender: LineSender,
}

// What a look at the servers found.
#[derive(Clone, Copy)]
enum LookOutcome {
    // This server has stopped by itself, and this many others haven't failed.
    Fallen(Ended, usize),
    // The others couldn't be told, as memory was out.
    Untold,
    // Nothing is left to do.
    Nothing,
}

impl<R: Wait + Copy + Drop + Send + 'static> ClusterControl<R> {
    /// For the servers of this scheduler.
    pub(crate) fn new(
        scheduler: Arc<Scheduler<R, InProcessLinks<R>>, Global>,
        controls: ServerControls,
        line_sender: LineSender,
    ) -> ClusterControl<R> {
        ClusterControl {
            scheduler,
            controls: Mutex::new(controls),
            line_sender,
        }
    }

    /// Fails a server: its callers answer no more calls, its worker puts out nothing more, and then the others are
    /// told. Of one that has failed already nobody is told, and neither is anybody if it is refused, since the server
    /// can't be stopped. If memory is refused, the others are told later, as soon as it isn't.
    pub(crate) fn fail(&self, rt: &R, j: u8) -> Result<(), StopFault>
    where
        R: Clock,
    {
        let ended = match self.stop(rt, j)? {
            Stopping::Told => self.wait_for_end(rt, j)?,
            Stopping::Done(ended) => ended,
        };
        let mut controls = self.controls.lock(rt);
        controls.note(ended);
        if !controls.tell(rt, &self.scheduler) {
            self.scheduler.alarm().ring();
        }
        Ok(())
    }

    fn stop(&self, rt: &R, j: u8) -> Result<Stopping, StopFault> {
        let mut controls = self.controls.lock(rt);
        controls.stop(rt, &self.scheduler, j)
    }

    // Looks each millisecond. Between two looks the lock is free.
    fn wait_for_end(&self, rt: &R, j: u8) -> Result<Ended, StopFault>
    where
        R: Clock,
    {
        for _ in rt.forever() {
            if let Some(ended) = self.ended(rt, j)? {
                return Ok(ended);
            }
            thread::sleep(rt, Duration::from_millis(1));
        }
        unreachable!()
    }

    fn ended(&self, rt: &R, j: u8) -> Result<Option<Ended>, StopFault> {
        let controls = self.controls.lock(rt);
        controls.ended(j)
    }

    /// Ends the workers' loops, and that of the thread that looks after the servers.
    pub(crate) fn end(&self, rt: &R) {
        let mut controls = self.controls.lock(rt);
        controls.end(rt, &self.scheduler);
        self.scheduler.alarm().end();
    }

    // Waits until a server has stopped by itself, and tells that, until nothing more comes.
    fn watch(&self, rt: &R) {
        for _ in rt.forever() {
            self.scheduler.alarm().wait(rt);
            self.tell_fallen(rt);
            if self.scheduler.alarm().is_over() {
                return;
            }
        }
        unreachable!()
    }

    // Tells the others of each server that has stopped by itself, and the user.
    fn tell_fallen(&self, rt: &R) {
        for _ in rt.forever() {
            match self.look(rt) {
                LookOutcome::Fallen(ended, living) => {
                    say_fallen(rt, &self.line_sender, ended.id(), living)
                }
                LookOutcome::Untold => self.scheduler.alarm().wait_a_little(rt),
                LookOutcome::Nothing => return,
            }
            if self.scheduler.alarm().is_over() {
                return;
            }
        }
        unreachable!()
    }

    fn look(&self, rt: &R) -> LookOutcome {
        let mut controls = self.controls.lock(rt);
        let fallen = controls.next_fallen(&self.scheduler);
        if let Some(ended) = fallen {
            controls.note(ended);
        }
        let all_told = controls.tell(rt, &self.scheduler);
        match fallen {
            Some(ended) => LookOutcome::Fallen(ended, controls.living()),
            None if all_told => LookOutcome::Nothing,
            None => LookOutcome::Untold,
        }
    }
}

/// Starts the thread that looks after the servers. Refused only if memory or threads run out.
pub(crate) fn start_watching<R: Wait + Threads + Copy + Drop + Send + 'static>(
    rt: R,
    cluster_control: &Arc<ClusterControl<R>, Global>,
) -> Result<JoinHandle<()>, AllocError> {
    let cluster_control = Arc::try_clone(cluster_control)?;
    match thread::spawn(&rt, move || cluster_control.watch(&rt)) {
        Ok(thread) => Ok(thread),
        Err(refused) => {
            drop(refused);
            Err(AllocError)
        }
    }
}

// Tells the user that server `j` has stopped by itself.
fn say_fallen<R: Wait>(rt: &R, line_sender: &LineSender, j: u8, living: usize) {
    let rest = if living > 0 {
        "the others go on without it"
    } else {
        "no server is left"
    };
    line_sender.tell(
        rt,
        format_args!("craq: server {j} ran out of memory and was stopped; {rest}"),
    );
}
