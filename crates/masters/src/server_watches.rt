//! What the thread of a server does on the connection to it, and how it opens one; and how it watches the server, if the
//! master has said so.

use crate::conversations::Conversation;
use crate::news::{milliseconds_of, milliseconds_since};
use crate::platforms::Platform;
use crate::server_threads::ServerThread;
use ends::TrackedWriter;
use leases::Reading;
use master_decisions::{
    Cause, Incoming, News, Observation, Opening, Reply, observation_of, pause_before, report_of,
};
use std::alloc::AllocError;
use std::thread;
use std::time::{Clock, Duration, Instant};
use wire::Alive;
use wire_connections::{Channel, Greeted, greet};

/// How often it tries to connect at once after a connection has ended, if that doesn't take a second.
const TRIES: u8 = 10;

/// How many milliseconds it pauses between these tries.
const PAUSE: u64 = 10;

/// How many orders go out before it looks for a frame again.
const ORDERS: u8 = 4;

/// How many orders may have come while no connection stood: more than can wait.
const STALE: u8 = 8;

/// How many frames it hears at most of what it has read: more than that may have.
const FRAMES: u16 = 256;

impl ServerThread {
    /// The server is watched from now on. If a connection stands already, that is told.
    pub(crate) fn begin_watch<R: Platform>(&mut self, rt: &R) {
        self.reach.begin_watch();
        if self.conversation.is_some() {
            self.observe(rt, Observation::Accepted);
        }
    }

    /// Sends what the master orders, and hears what the server answers, for a moment. Fails only if memory runs out.
    pub(crate) fn converse<R: Platform>(&mut self, rt: &R) -> Result<(), AllocError> {
        if !self.send_orders(rt)? || !self.hear(rt)? {
            self.lose(rt);
        }
        Ok(())
    }

    // Sends what the master orders, if the server is watched. It tells whether the connection stands.
    fn send_orders<R: Platform>(&self, rt: &R) -> Result<bool, AllocError> {
        let Some(conversation) = &self.conversation else {
            return Ok(false);
        };
        if !self.reach.is_watching() {
            return Ok(true);
        }
        for _ in 0..ORDERS {
            let Ok(order) = self.inputs.orders.try_recv(rt) else {
                return Ok(true);
            };
            if !conversation.put(order)? {
                return Ok(false);
            }
        }
        Ok(true)
    }

    // Hears what the server answers. It tells whether the connection stands.
    fn hear<R: Platform>(&mut self, rt: &R) -> Result<bool, AllocError> {
        if let Some(conversation) = &mut self.conversation {
            if !conversation.read()? {
                return Ok(false);
            }
        }
        for _ in 0..FRAMES {
            match self.next_frame()? {
                Incoming::Nothing => return Ok(true),
                Incoming::Noted(id) => self.end_waits(rt, Cause::Reply(Reply::Noted(id))),
                Incoming::Stalled(servers) => self.hear_stalled(rt, servers),
                Incoming::Alive(alive) if self.hear_alive(rt, alive) => {}
                Incoming::Alive(_) | Incoming::End => return Ok(false),
            }
        }
        Ok(true)
    }

    fn next_frame(&mut self) -> Result<Incoming, AllocError> {
        match &mut self.conversation {
            Some(conversation) => conversation.next(),
            None => Ok(Incoming::End),
        }
    }

    // The server says that its links to these stand still. If it is watched the master is told.
    fn hear_stalled<R: Platform>(&self, rt: &R, servers: u16) {
        if self.reach.is_watching() {
            self.news_sender
                .put(rt, News::Stalled(self.place.id, servers));
        }
    }

    // The server told how it is. If it is watched the master is told, with a reading of the clock now that this is here.
    // It answers whether it is a report. If the clock can't be read, it is as if nothing had come.
    fn hear_alive<R: Platform>(&mut self, rt: &R, alive: Alive) -> bool {
        let Some(report) = report_of(alive) else {
            return false;
        };
        if self.reach.is_watching() {
            if let Some(reading) = Reading::after(rt, report) {
                self.news_sender.put(rt, News::Told(self.place.id, reading));
            }
        }
        self.end_waits(rt, Cause::Reply(Reply::Told(alive.epoch)));
        true
    }

    /// Connects to a server that is watched, at once if the last connection stood for a beat, and tells what is new.
    pub(crate) fn watch<R: Platform>(&mut self, rt: &R) -> Result<(), AllocError> {
        self.pause(rt);
        let opening = if self.reach.is_met() {
            self.open_soon(rt)?
        } else {
            self.open(rt)?
        };
        if opening == Opening::Anew {
            drop(self.conversation.take());
        }
        self.end_waits(rt, Cause::Opening(opening));
        self.observe(rt, observation_of(opening));
        if self.conversation.is_none() && self.reach.is_watching() {
            return self.rest(rt);
        }
        Ok(())
    }

    // Waits for a beat, or until the master wants something of the server.
    fn rest<R: Platform>(&mut self, rt: &R) -> Result<(), AllocError> {
        if let Ok(task) = self.inputs.tasks.recv_timeout(rt, self.beat) {
            self.take(rt, task)?;
        }
        Ok(())
    }

    // Waits until a beat lies between the last connection and the next one, so that a server which accepts connections
    // and closes them keeps neither this thread nor a person busy. Nobody else waits meanwhile.
    fn pause<R: Platform>(&self, rt: &R) {
        let beat = milliseconds_of(self.beat);
        let passed = self
            .accepted
            .map(|accepted| milliseconds_since(rt, accepted));
        thread::sleep(rt, Duration::from_millis(pause_before(beat, passed)));
    }

    // Tells what is new if the server is seen so.
    fn observe<R: Platform>(&mut self, rt: &R, observation: Observation) {
        if self.reach.passes_over(observation) {
            self.pass_over(rt);
        }
        if let Some(news) = self.reach.see(self.place.id, observation) {
            self.news_sender.put(rt, news);
        }
    }

    // Passes over what was ordered while the server wasn't reached.
    fn pass_over<R: Platform>(&self, rt: &R) {
        for _ in 0..STALE {
            if self.inputs.orders.try_recv(rt).is_err() {
                return;
            }
        }
    }

    // Connects. A process that ends closes its connections one after another, and its port among them, so a try that is
    // neither accepted nor refused is made again soon.
    fn open_soon<R: Platform>(&mut self, rt: &R) -> Result<Opening, AllocError> {
        let begun = Instant::now(rt).ok();
        let mut opening = Opening::NoAnswer;
        for _ in 0..TRIES {
            opening = self.open(rt)?;
            if observation_of(opening) != Observation::Unreached || !is_soon(rt, begun) {
                return Ok(opening);
            }
            thread::sleep(rt, Duration::from_millis(PAUSE));
        }
        Ok(opening)
    }

    /// Connects, once. Fails only if memory runs out.
    pub(crate) fn open<R: Platform>(&mut self, rt: &R) -> Result<Opening, AllocError> {
        drop(self.conversation.take());
        let place = &self.place;
        let greeted = greet(
            rt,
            self.alloc,
            place.host.as_str(),
            place.port,
            &place.identity,
        )?;
        match greeted {
            Greeted::Accepted(channel) => {
                self.accepted = Instant::now(rt).ok();
                Ok(self.enter(channel))
            }
            Greeted::Refused(reason) => Ok(Opening::Refused(reason)),
            Greeted::NoHost => Ok(Opening::NoHost),
            Greeted::NoListener => Ok(Opening::NoListener),
            Greeted::NoAnswer => Ok(Opening::NoAnswer),
        }
    }

    // Takes a connection that the server has accepted.
    fn enter(&mut self, channel: Channel) -> Opening {
        let Channel { sink, start, gone } = channel;
        let TrackedWriter { inner, .. } = sink;
        let opening = self.reach.enter(start, gone);
        let is_known = opening == Opening::Accepted;
        let conversation = Conversation::new(self.alloc, inner, is_known);
        drop(self.conversation.replace(conversation));
        opening
    }
}

// Whether less than a second has passed since then.
fn is_soon<R: Clock>(rt: &R, begun: Option<Instant>) -> bool {
    match begun {
        Some(begun) => match begun.elapsed(rt) {
            Ok(passed) => passed.as_secs() == 0,
            Err(_) => false,
        },
        None => false,
    }
}
