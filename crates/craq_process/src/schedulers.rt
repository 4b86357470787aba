//! The workers of the servers of one process. Whoever puts a message takes the turn that it asks for, unless another
//! thread is at that worker.
ghost use Rattle.std.specs.Prelude.{◌≡◌, ◌++◌, ◌∷◌, [], ℕ, true, false, map, OnOk};
ghost use Rattle.craq_process.specs.Findings.{Finds};
ghost use Rattle.craq_process.specs.Schedulers.{ids};

use crate::alarms::Alarm;
use crate::endings::Ending;
use crate::scheduled_links::ScheduledLinks;
use crate::workers_with_links::{TurnOutcome, WorkerWithLinks};
use in_process_links::ServerSet;
use io_threads::{LoopHandles, TurnScheduler, Visit};
use rail::{PortSet, Worker};
use server_guards::Gauge;
use std::alloc::{AllocError, Global};
use std::sync::atomic::{AtomicBool, Ordering};
use std::sync::{Arc, Mutex, Wait};
use std::thread::Parker;
use std::time::Duration;

/// How many turns a worker's own thread takes under one lock.
const TURNS: usize = 64;

/// How long a worker's own thread sleeps at most while something is left at a link, in microseconds.
const RETRY: u64 = 500;

/// Where the turns of one server are taken.
#[derive(Drop)]
struct RunSlot<R: Wait + Drop, L: ScheduledLinks + Drop> {
    id: u8,
    // It is only ever tried, so nobody waits for it.
    worker_with_links: Mutex<WorkerWithLinks<R, L>>,
    // Whether its inbox may hold a message that nobody is about to take.
    due: AtomicBool,
    // Whether something was left at a link by the last one who had the lock. It is set under the lock.
    stuck: AtomicBool,
    // Whether no more turns are taken.
    ended: AtomicBool,
    // Where the note of its end is put.
    ending: Ending,
    // Whether its items may take more memory.
    gauge: Gauge,
    // Where the worker's own thread sleeps.
    parker: Parker,
}

/// The run slots of all servers of a process, in the order in which they were added. By the place there, counted from
/// 0, all methods name a server: for a whole chain in one process that is its id.
///
/// No message is left lying. Who puts one into an inbox sets the run slot's `due` afterwards, and then tries the run
/// slot or rings its thread, which tries it. One who has the lock clears `due` before it looks into the inbox, sets it
/// again unless it found the inbox empty, gives the lock back, and only then takes `due`; if it was set, it tries again
/// or rings. So if a try fails, the one who has the lock still takes `due` after the one who tried has set it. All
/// these steps are in one order (`SeqCst`).
///
/// Nor are bytes at a link. One who has the lock writes what its turns put before it gives the lock back, so the order
/// on a link is that of the turns. It never waits there: what a link doesn't take is left, and then `stuck` is set, or
/// cleared, under the lock. Who sets it where it was clear rings the worker's own thread, which comes again every half
/// millisecond as long as it is set. Each other try writes too, whether it finds a message or not.
#[derive(Drop)]
pub struct Scheduler<R: Wait + Drop, L: ScheduledLinks + Drop> {
    run_slots: Vec<RunSlot<R, L>>,
    // Rung when a server has stopped since memory was refused.
    alarm: Alarm,
    // The threads that serve the servers' clients.
    loop_handles: Arc<LoopHandles, Global>,
    // Whether a call has its reply soon.
    answers_soon: bool,
}

// What some turns of one server have done.
#[derive(Clone, Copy)]
struct Taken {
    turns: usize,
    // The servers that were sent something.
    reached: ServerSet,
    // The ports to which replies were put.
    replied: PortSet,
    // Whether something is left at a link.
    stuck: bool,
}

impl<R: Wait + Drop, L: ScheduledLinks + Drop> RunSlot<R, L> {
    // Takes up to this many turns if no other thread is at the worker. Before the lock goes, what was put is written.
    fn try_turns(&self, most: usize, alarm: &Alarm) -> Option<Taken> {
        let mut worker_with_links = self.worker_with_links.try_lock()?;
        if self.ended.load(Ordering::SeqCst) {
            drop(worker_with_links);
            return None;
        }
        let taken = self.turns(&mut *worker_with_links, most, alarm);
        self.note_left(taken.stuck);
        Some(taken)
    }

    // Takes up to this many turns, and then writes what is to be written.
    fn turns(
        &self,
        worker_with_links: &mut WorkerWithLinks<R, L>,
        most: usize,
        alarm: &Alarm,
    ) -> Taken
        // Unless it says so, nothing is left at a link, of these turns or of earlier ones.
        ensures written { result.stuck ≡ false → (j : ℕ) → L.waiting worker_with_links.new.links j ≡ [] }
    {
        self.due.store(false, Ordering::SeqCst);
        let mut turns = 0usize;
        for _ in 0..most {
            match self.turn(worker_with_links, alarm) {
                TurnOutcome::Message | TurnOutcome::Stopped(_) | TurnOutcome::Refused(_) => {
                    turns = turns.wrapping_add(1);
                }
                TurnOutcome::Nothing | TurnOutcome::Closed(_) | TurnOutcome::End => break,
            }
        }
        if turns == most {
            self.due.store(true, Ordering::SeqCst);
        }
        self.gauge.note(worker_with_links.weight());
        Taken {
            turns,
            reached: worker_with_links.take_reached(),
            replied: worker_with_links.take_replied(),
            stuck: worker_with_links.write_out(),
        }
    }

    // Notes whether something was left at a link. If nothing was before, the worker's own thread is rung.
    fn note_left(&self, stuck: bool) {
        let before = self.stuck.swap(stuck, Ordering::SeqCst);
        if stuck && !before {
            self.parker.unpark();
        }
    }

    // Takes a turn, if there is a message. If the server has ended, the note of that is put where others look. If
    // memory was refused, the alarm is rung too.
    fn turn(&self, worker_with_links: &mut WorkerWithLinks<R, L>, alarm: &Alarm) -> TurnOutcome
        ensures { Finds worker_with_links.old.id worker_with_links.old.worker worker_with_links.new.worker result }
    {
        let found = worker_with_links.turn();
        match found {
            TurnOutcome::Nothing | TurnOutcome::Message => {}
            TurnOutcome::Stopped(ended) => {
                self.ending.put(ended);
                self.parker.unpark();
            }
            TurnOutcome::Refused(ended) => {
                self.ending.put(ended);
                self.parker.unpark();
                alarm.ring();
            }
            TurnOutcome::Closed(ended) => {
                self.ending.put(ended);
                self.end();
            }
            TurnOutcome::End => self.end(),
        }
        found
    }

    // No more turns are taken, and the worker's thread ends.
    fn end(&self) {
        self.ended.store(true, Ordering::SeqCst);
        self.parker.unpark();
    }

    fn wake(&self) {
        self.due.store(true, Ordering::SeqCst);
        self.parker.unpark();
    }

    // Sleeps until the worker's thread is rung, or for half a millisecond at most while something is left at a link.
    fn sleep(&self, rt: &R) {
        if self.stuck.load(Ordering::SeqCst) {
            self.parker.park_timeout(rt, Duration::from_micros(RETRY));
        } else {
            self.parker.park(rt);
        }
    }
}

impl<R: Wait + Drop, L: ScheduledLinks + Drop> Scheduler<R, L> {
    /// A scheduler without servers, whose clients the threads of these loop handles serve. Whether a call has its reply
    /// within some microseconds, as a rule: so it is if all servers of the chain are of this process.
    pub fn new(
        alloc: Global,
        loop_handles: Arc<LoopHandles, Global>,
        answers_soon: bool,
    ) -> Scheduler<R, L>
        ensures { ids result ≡ [] }
    {
        Scheduler {
            run_slots: Vec::new(alloc),
            alarm: Alarm::new(),
            loop_handles,
            answers_soon,
        }
    }

    /// Adds the worker of the next server, whose id this is, with that server's links. The note of its end is put there
    /// as soon as the server is stopped, or out of memory, or nobody is left who could send it anything. The gauge is
    /// told what the server holds each time turns were taken, once for all of them.
    pub fn add(
        &mut self,
        id: u8,
        worker: Worker<R>,
        links: L,
        ending: Ending,
        gauge: Gauge,
    ) -> Result<(), AllocError>
        requires worker { worker.published.instance.start.id ≡ id }
        requires links { L.may_be_of links id ≡ true }
        ensures { OnOk result (ids self.new ≡ ids self.old ++ id ∷ []) }
    {
        let run_slot = RunSlot {
            id,
            worker_with_links: Mutex::new(WorkerWithLinks::new(id, worker, links)),
            due: AtomicBool::new(false),
            stuck: AtomicBool::new(false),
            ended: AtomicBool::new(false),
            ending,
            gauge,
            parker: Parker::new(),
        };
        match self.run_slots.push(run_slot) {
            Ok(()) => Ok(()),
            Err(_) => Err(AllocError),
        }
    }

    /// What is rung when a server has stopped since memory was refused.
    pub fn alarm(&self) -> &Alarm {
        &self.alarm
    }

    /// Wakes the threads that serve clients: a server answers no more calls.
    pub fn wake_all(&self) {
        self.loop_handles.wake_all();
    }

    fn run_slot(&self, id: u8) -> Option<&RunSlot<R, L>> {
        self.run_slots.get(usize::from(id))
    }

    /// Wakes the thread of a server's worker, into whose inbox something was put.
    pub fn wake(&self, id: u8) {
        if let Some(run_slot) = self.run_slot(id) {
            run_slot.wake();
        }
    }

    // Says that something was put into the inboxes of these servers, and that they will be tried.
    fn note(&self, servers: ServerSet) {
        let mut left = servers;
        for _ in 0..self.run_slots.len() {
            let Some(id) = left.take_after(0) else {
                return;
            };
            self.expect(id);
        }
    }

    /// The thread of a server's worker: whenever it is rung it takes turns, there and at the servers that these reach,
    /// until none is due that it knows of. While something is left at a link of that server it comes by itself, to
    /// write it. It ends with the worker.
    pub fn attend(&self, rt: &R, id: u8) {
        let Some(run_slot) = self.run_slot(id) else {
            return;
        };
        for _ in rt.forever() {
            run_slot.sleep(rt);
            self.carry(rt, id);
            if run_slot.ended.load(Ordering::SeqCst) {
                return;
            }
        }
        unreachable!()
    }

    /// The same, until the server has stopped.
    pub fn attend_until_stopped(&self, rt: &R, id: u8) {
        let Some(run_slot) = self.run_slot(id) else {
            return;
        };
        for _ in rt.forever() {
            run_slot.sleep(rt);
            self.carry(rt, id);
            if run_slot.ended.load(Ordering::SeqCst) || run_slot.ending.get().is_some() {
                return;
            }
        }
        unreachable!()
    }

    // Takes turns of a server, and wakes those who serve the clients that have replies. Answers where turns are due.
    fn visit(&self, id: u8) -> ServerSet {
        let visit = self.take_turns(id, TURNS);
        if !visit.replied.is_empty() {
            self.loop_handles.wake(id, visit.replied);
        }
        visit.due
    }

    // Takes turns as long as one is due.
    fn carry(&self, rt: &R, id: u8) {
        let mut due = ServerSet::new();
        due.add(id);
        let mut last = id;
        for _ in rt.forever() {
            match due.take_after(last) {
                Some(at) => {
                    last = at;
                    due.merge(self.visit(at));
                }
                None => return,
            }
        }
        unreachable!()
    }
}

impl<R: Wait + Drop, L: ScheduledLinks + Drop> TurnScheduler for Scheduler<R, L> {
    fn expect(&self, id: u8) {
        if let Some(run_slot) = self.run_slot(id) {
            run_slot.due.store(true, Ordering::SeqCst);
        }
    }

    fn take_turns(&self, id: u8, most: usize) -> Visit {
        let Some(run_slot) = self.run_slot(id) else {
            return Visit::nothing();
        };
        let Some(taken) = run_slot.try_turns(most, &self.alarm) else {
            return Visit::nothing();
        };
        self.note(taken.reached);
        let mut due = taken.reached;
        if run_slot.due.swap(false, Ordering::SeqCst) {
            due.add(id);
        }
        Visit {
            turns: taken.turns,
            due,
            replied: taken.replied,
        }
    }

    fn all_due(&self) -> ServerSet {
        let mut due = ServerSet::new();
        let mut id = 0u8;
        for run_slot in self.run_slots.iter() {
            if run_slot.due.load(Ordering::SeqCst) {
                due.add(id);
            }
            id = id.wrapping_add(1);
        }
        due
    }

    fn answers_soon(&self) -> bool {
        self.answers_soon
    }

    fn leave(&self, servers: ServerSet) {
        let mut left = servers;
        for _ in 0..self.run_slots.len() {
            let Some(id) = left.take_after(0) else {
                return;
            };
            self.wake(id);
        }
    }
}
