//! The thread of one server. It alone has the connection to it: it does what the master wants of the server, sends its
//! orders, and tells what it hears. It decides nothing.

use crate::conversations::Conversation;
use crate::news::NewsSender;
use crate::platforms::Platform;
use crossbeam_channel::{Receiver, TryRecvError};
use leases::Order;
use master_decisions::{
    Answer, Cause, MOMENT, MasterFault, News, Opening, Reach, Request, Task, Waiting, Waits,
    answer_of, may_go,
};
use peers::Identity;
use std::alloc::{AllocError, Global};
use std::time::{Duration, Instant};

/// How many tasks it takes before it looks at the connection again.
const TASKS: u8 = 16;

/// Where a server is, and how the master introduces itself there.
#[derive(Drop)]
pub(crate) struct Place {
    /// The server's id.
    pub(crate) id: u8,
    /// Its host.
    pub(crate) host: String,
    /// Its port for masters.
    pub(crate) port: u16,
    /// How the master introduces itself.
    pub(crate) identity: Identity,
}

/// What comes from the master.
#[derive(Drop)]
pub(crate) struct Inputs {
    /// What it wants: none is lost.
    pub(crate) tasks: Receiver<Task>,
    /// What it sends to the server, if it is watched.
    pub(crate) orders: Receiver<Order>,
}

/// What the thread of a server has.
#[derive(Drop)]
pub(crate) struct ServerThread {
    pub(crate) alloc: Global,
    pub(crate) place: Place,
    pub(crate) inputs: Inputs,
    pub(crate) news_sender: NewsSender,
    // So long it pauses between two tries to connect.
    pub(crate) beat: Duration,
    // The connection, if it stands.
    pub(crate) conversation: Option<Conversation>,
    // What waits for its answer.
    pub(crate) waits: Waits,
    // How the server stands.
    pub(crate) reach: Reach,
    // When the server accepted the last connection.
    pub(crate) accepted: Option<Instant>,
}

impl ServerThread {
    /// Of the server there, which wasn't spoken to.
    pub(crate) fn new(
        alloc: Global,
        place: Place,
        inputs: Inputs,
        news_sender: NewsSender,
        beat: Duration,
    ) -> ServerThread {
        ServerThread {
            alloc,
            place,
            inputs,
            news_sender,
            beat,
            conversation: None,
            waits: Waits::new(alloc),
            reach: Reach::new(),
            accepted: None,
        }
    }

    /// Goes on until the master ends. It ends too if memory runs out, and tells that.
    pub(crate) fn run<R: Platform>(&mut self, rt: &R) {
        for _ in rt.forever() {
            match self.turn(rt) {
                Ok(true) => {}
                Ok(false) => return,
                Err(AllocError) => {
                    self.news_sender.put(rt, News::Fault(MasterFault::Memory));
                    return;
                }
            }
        }
        unreachable!()
    }

    // Takes what the master wants, and does some of it. It tells whether the master goes on.
    fn turn<R: Platform>(&mut self, rt: &R) -> Result<bool, AllocError> {
        if !self.take_tasks(rt)? {
            return Ok(false);
        }
        self.write_waiting(rt)?;
        if self.conversation.is_some() {
            self.converse(rt)?;
        } else if self.reach.is_watching() {
            self.watch(rt)?;
        } else if self.waits.count() > 0 {
            let opening = self.open(rt)?;
            self.end_waits(rt, Cause::Opening(opening));
        }
        let now = self.news_sender.passed(rt);
        self.end_waits(rt, Cause::Time(now));
        Ok(true)
    }

    // Takes tasks. If there is nothing to do meanwhile it waits for one. It tells whether the master goes on.
    fn take_tasks<R: Platform>(&mut self, rt: &R) -> Result<bool, AllocError> {
        if !self.reach.is_watching() && self.waits.count() == 0 {
            return match self.inputs.tasks.recv(rt) {
                Ok(task) => self.take(rt, task),
                Err(_) => Ok(false),
            };
        }
        for _ in 0..TASKS {
            match self.inputs.tasks.try_recv(rt) {
                Ok(task) => {
                    self.take(rt, task)?;
                }
                Err(TryRecvError::Empty) => return Ok(true),
                Err(TryRecvError::Disconnected) => return Ok(false),
            }
        }
        Ok(true)
    }

    /// Takes a task. The master goes on then.
    pub(crate) fn take<R: Platform>(&mut self, rt: &R, task: Task) -> Result<bool, AllocError> {
        match task.request {
            Request::Watch => self.begin_watch(rt),
            Request::Greet => {
                let opening = self.open(rt)?;
                self.answer(rt, task.round, answer_of(opening));
            }
            Request::Look if self.conversation.is_none() => {
                self.answer(rt, task.round, Answer::Silent);
            }
            Request::Look => self.wait_for(task.round, Order::Reign(0), MOMENT, true)?,
            Request::Tell(order, patience) => self.wait_for(task.round, order, patience, false)?,
        }
        Ok(true)
    }

    // An order is to be written, and its answer waited for so long.
    fn wait_for(
        &mut self,
        round: u32,
        order: Order,
        patience: u64,
        is_last: bool,
    ) -> Result<(), AllocError> {
        self.waits.add(Waiting {
            round,
            order,
            patience,
            until: None,
            is_last,
        })
    }

    // Writes what waits, if the connection stands.
    fn write_waiting<R: Platform>(&mut self, rt: &R) -> Result<(), AllocError> {
        for _ in 0..self.waits.count() {
            let Some(order) = self.waits.unwritten() else {
                return Ok(());
            };
            let Some(conversation) = &self.conversation else {
                return Ok(());
            };
            if !may_go(conversation.is_known(), self.place.id, order) {
                self.end_waits(rt, Cause::Opening(Opening::Anew));
            } else if conversation.put(order)? {
                let now = self.news_sender.running(rt);
                self.waits.written(now);
            } else {
                self.lose(rt);
            }
        }
        Ok(())
    }

    // The connection has ended. What waits is written anew, once, if another one is opened.
    pub(crate) fn lose<R: Platform>(&mut self, rt: &R) {
        drop(self.conversation.take());
        if self.reach.lose() {
            self.news_sender.put(rt, News::Broken(self.place.id));
        }
        self.end_waits(rt, Cause::Break);
        self.waits.renew();
    }

    /// Answers each request that this cause answers.
    pub(crate) fn end_waits<R: Platform>(&mut self, rt: &R, cause: Cause) {
        for _ in 0..self.waits.count() {
            match self.waits.take_answered(self.place.id, cause) {
                Some((waiting, answer)) => self.answer(rt, waiting.round, answer),
                None => return,
            }
        }
    }

    // Answers a request.
    fn answer<R: Platform>(&self, rt: &R, round: u32, answer: Answer) {
        let answered = self.reach.answered(round, answer);
        self.news_sender
            .put(rt, News::Answered(self.place.id, answered));
    }
}
