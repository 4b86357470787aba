//! The thread that looks after a server's links: it hears confirmations, opens connections anew, tells of links that
//! stand still, and confirms what was handed on.

use crate::confirmations::{ConfirmationDue, confirmation_delay, confirmation_due};
use crate::link_connections::{Came, LinkConnection};
use crate::link_keepers::{LinkKeeper, Stage};
use crate::link_lines::{tell_given_up, tell_goes, tell_other_start, tell_still};
use crate::link_mailboxes::NewConnection;
use crate::peer_streams::PeerStreams;
use crate::server_links::ServerLinks;
use bytes::BytesMut;
use craq_process::{ScheduledLinks, Scheduler};
use leases::nanoseconds_of;
use lines::LineSender;
use link_streams::LinkDue;
use links::PeerPort;
use mio::net::TcpStream;
use mio::unix::SourceFd;
use mio::{Events, Interest, Poll, Registry, Token};
use std::alloc::{AllocError, Global};
use std::mem;
use std::net::Net;
use std::os::fd::AsRawFd;
use std::sync::{Arc, Wait};
use std::time::{Clock, Duration};
use wire_connections::add_greeting_of;

/// The token of the waker. A link's token is its server's id.
pub(crate) const WAKE: usize = usize::MAX;

/// The place of the server among those of its process.
const HERE: u8 = 0;

/// The most events of one wait.
const EVENTS: usize = 64;

/// How often a link is looked at that is under way, in nanoseconds.
const TICK: u64 = 10_000_000;

/// How often a link is looked at on which bytes aren't confirmed, in nanoseconds.
const WATCH: u64 = 100_000_000;

/// The thread.
#[derive(Drop)]
pub(crate) struct LinkThread<R: Wait + Clock + Drop>
where
    ServerLinks<R>: ScheduledLinks,
{
    rt: R,
    alloc: Global,
    poll: Poll,
    events: Events,
    keepers: Vec<LinkKeeper>,
    shared_port: Arc<PeerPort<PeerStreams<R>>, Global>,
    scheduler: Arc<Scheduler<R, ServerLinks<R>>, Global>,
    line_sender: LineSender,
    // How long a connection may take nothing.
    timeout: u64,
    // When what was handed on is confirmed, if something is to be.
    confirms_at: Option<u64>,
}

// What a round of the links goes by.
#[derive(Drop)]
struct LinkRound<'a, R> {
    rt: R,
    alloc: Global,
    registry: &'a Registry,
    shared_port: &'a PeerPort<PeerStreams<R>>,
    line_sender: &'a LineSender,
    timeout: u64,
    now: u64,
}

impl<R: Wait + Clock + Net + Copy + Drop> LinkThread<R> {
    /// Of the links of these keepers, whose connections stand. It waits at this poll.
    pub(crate) fn new(
        rt: R,
        alloc: Global,
        poll: Poll,
        keepers: Vec<LinkKeeper>,
        shared_port: Arc<PeerPort<PeerStreams<R>>, Global>,
        scheduler: Arc<Scheduler<R, ServerLinks<R>>, Global>,
        line_sender: LineSender,
        timeout: u64,
    ) -> Result<LinkThread<R>, AllocError> {
        let events = Events::with_capacity(alloc, EVENTS)?;
        for keeper in keepers.iter() {
            register(poll.registry(), keeper);
        }
        Ok(LinkThread {
            rt,
            alloc,
            poll,
            events,
            keepers,
            shared_port,
            scheduler,
            line_sender,
            timeout,
            confirms_at: None,
        })
    }

    /// Looks after the links as long as the process lives. If there is news for their writer, its thread is rung.
    pub(crate) fn run(&mut self) {
        let rt = self.rt;
        for _ in rt.forever() {
            let limit = self.limit();
            let _ = self.poll.poll(&mut self.events, limit);
            let (ready, is_rung) = self.take_ready();
            let now = now_of(&rt);
            self.confirm(now);
            if self.look(ready, now) || ready != 0 || is_rung {
                self.scheduler.wake(HERE);
            }
        }
        unreachable!()
    }

    // How long it may sleep.
    fn limit(&self) -> Option<Duration> {
        let mut limit = match self.confirms_at {
            Some(_) => Some(confirmation_delay(self.timeout)),
            None => None,
        };
        for keeper in self.keepers.iter() {
            if keeper.is_under_way() {
                return Some(Duration::from_nanos(TICK));
            }
            if keeper.is_awaited() {
                limit = Some(limit.unwrap_or(WATCH).min(WATCH));
            }
        }
        match limit {
            Some(limit) => Some(Duration::from_nanos(limit)),
            None => None,
        }
    }

    // The servers whose sockets are ready, as bits, and whether it was rung.
    fn take_ready(&mut self) -> (u64, bool) {
        let mut ready = 0u64;
        let mut is_rung = false;
        for event in self.events.iter() {
            let Token(token) = event.token();
            if token == WAKE {
                is_rung = true;
            } else {
                ready |= bit(token);
            }
        }
        self.events.clear();
        (ready, is_rung)
    }

    // Confirms what was handed on, if it is due.
    fn confirm(&mut self, now: u64) {
        let incoming = self.shared_port.link_control().incoming();
        let delay = confirmation_delay(self.timeout);
        match confirmation_due(self.confirms_at, incoming.unconfirmed(), delay, now) {
            ConfirmationDue::Nothing => {}
            ConfirmationDue::At(at) => self.confirms_at = Some(at),
            ConfirmationDue::Now => {
                self.confirms_at = None;
                incoming.confirm(&self.rt);
            }
        }
    }

    // Looks after each link. Whether there is news for their writer.
    fn look(&mut self, ready: u64, now: u64) -> bool {
        let round = LinkRound {
            rt: self.rt,
            alloc: self.alloc,
            registry: self.poll.registry(),
            shared_port: &self.shared_port,
            line_sender: &self.line_sender,
            timeout: self.timeout,
            now,
        };
        let mut is_news = false;
        for keeper in self.keepers.iter_mut() {
            let is_ready = ready & bit(usize::from(keeper.j)) != 0;
            is_news |= round.at(keeper, is_ready);
        }
        is_news
    }
}

impl<'a, R: Wait + Clock + Net + Copy + Drop> LinkRound<'a, R> {
    fn control(&self) -> &PeerStreams<R> {
        self.shared_port.link_control()
    }

    fn id(&self) -> u8 {
        self.shared_port.host().id
    }

    // Looks after a link, whose socket may be ready. Whether there is news for its writer.
    fn at(&self, keeper: &mut LinkKeeper, is_ready: bool) -> bool {
        let is_gone = self.control().is_gone(keeper.j);
        if is_gone {
            self.control().still_links().remove(keeper.j);
        }
        if matches!(&keeper.stage, Stage::Over) {
            return false;
        }
        if is_gone {
            return self.end(keeper);
        }
        if keeper.is_due(self.now) {
            self.connect(keeper);
        }
        let came = if self.control().mailboxes().take_refused(keeper.j) {
            Came::Broken
        } else {
            keeper.go_on(is_ready, self.now)
        };
        let is_news = self.take(keeper, came);
        self.judge(keeper) || is_news
    }

    // What has come over its connection.
    fn take(&self, keeper: &mut LinkKeeper, came: Came) -> bool {
        match came {
            Came::Nothing => false,
            Came::Broken => self.rest(keeper),
            Came::OtherStart => {
                tell_other_start(&self.rt, self.line_sender, self.id(), keeper.j);
                self.end(keeper)
            }
            Came::Confirmed(count) => {
                if keeper.stands() {
                    keeper.confirmed = count;
                    self.control()
                        .mailboxes()
                        .confirm(&self.rt, keeper.j, count);
                } else {
                    self.open(keeper, count);
                }
                true
            }
        }
    }

    // What is due by its watch.
    fn judge(&self, keeper: &mut LinkKeeper) -> bool {
        let (kept, taken) = self.control().mailboxes().kept(keeper.j);
        let (rt, lines, id, j) = (&self.rt, self.line_sender, self.id(), keeper.j);
        let still_links = self.control().still_links();
        match keeper.due(kept, taken, self.now) {
            LinkDue::Nothing => false,
            LinkDue::Reopen => self.rest(keeper),
            LinkDue::Stalled(still) => {
                still_links.add(j);
                tell_still(rt, lines, id, j, still, kept);
                false
            }
            LinkDue::Goes(still) => {
                still_links.remove(j);
                tell_goes(rt, lines, id, j, still);
                false
            }
            LinkDue::GiveUp => {
                still_links.add(j);
                tell_given_up(rt, lines, id, j, kept);
                self.end(keeper)
            }
        }
    }

    // Begins a new connection.
    fn connect(&self, keeper: &mut LinkKeeper) {
        keeper.rest(self.now);
        let Ok(stream) = TcpStream::connect(&self.rt, keeper.address) else {
            return;
        };
        let mut greeting = BytesMut::new(self.alloc);
        if !matches!(
            add_greeting_of(&mut greeting, self.shared_port.host()),
            Ok(true)
        ) {
            drop(greeting);
            drop(stream);
            return;
        }
        if let Ok(connection) = LinkConnection::greeting(self.alloc, stream, greeting) {
            keeper.stage = Stage::Greets(connection, self.now.saturating_add(self.timeout));
            register(self.registry, keeper);
        }
    }

    // Its connection stands, and goes on after so many bytes.
    fn open(&self, keeper: &mut LinkKeeper, count: u64) {
        let stage = mem::replace(&mut keeper.stage, Stage::Rests(self.now));
        let Stage::Greets(connection, _) = stage else {
            drop(stage);
            return;
        };
        let Ok(stream) = connection.share() else {
            drop(connection);
            return;
        };
        match self.control().socket(keeper.j, stream) {
            Ok(socket) => {
                let connection_news = NewConnection {
                    socket,
                    start: keeper.start,
                    count,
                };
                let mailboxes = self.control().mailboxes();
                mailboxes.open(&self.rt, keeper.j, connection_news);
                keeper.open(connection, count, self.now);
            }
            Err(AllocError) => drop(connection),
        }
    }

    // Its connection is broken.
    fn rest(&self, keeper: &mut LinkKeeper) -> bool {
        let stood = keeper.stands();
        deregister(self.registry, keeper);
        keeper.rest(self.now);
        if stood {
            self.control().mailboxes().end(&self.rt, keeper.j);
        }
        stood
    }

    // No connection of it will stand any more.
    fn end(&self, keeper: &mut LinkKeeper) -> bool {
        deregister(self.registry, keeper);
        keeper.end();
        self.control().mailboxes().lose(&self.rt, keeper.j);
        true
    }
}

// The thread is woken for the socket of a link from now on.
fn register(registry: &Registry, keeper: &LinkKeeper) {
    if let Some(stream) = keeper.stream() {
        let fd = stream.as_raw_fd();
        let token = Token(usize::from(keeper.j));
        let interest = Interest::READABLE.add(Interest::WRITABLE);
        let _ = registry.register(&mut SourceFd(&fd), token, interest);
    }
}

// It isn't any more.
fn deregister(registry: &Registry, keeper: &LinkKeeper) {
    if let Some(stream) = keeper.stream() {
        let fd = stream.as_raw_fd();
        let _ = registry.deregister(&mut SourceFd(&fd));
    }
}

/// The bit of a server, by its id; none of a number that no server has.
pub(crate) fn bit(id: usize) -> u64 {
    match u32::try_from(id) {
        Ok(id) => 1u64.wrapping_shl(id),
        Err(_) => 0,
    }
}

/// What a clock shows, in nanoseconds; 0 if it can't be read.
pub(crate) fn now_of<R: Clock>(rt: &R) -> u64 {
    match rt.monotonic() {
        Ok(now) => nanoseconds_of(now),
        Err(_) => 0,
    }
}
