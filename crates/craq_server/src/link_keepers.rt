//! A link to another server, as the thread that looks after it keeps it: its connection, or when the next one is tried.

use crate::link_connections::{Came, LinkConnection};
use link_streams::{LinkWatch, Standing};
use mio::net::TcpStream;
use std::net::{Shutdown, SocketAddr};

/// After how many nanoseconds a connection is tried again that wasn't accepted.
const PAUSE: u64 = 20_000_000;

/// How far a link's connection is.
#[derive(Drop)]
pub(crate) enum Stage {
    /// It stands.
    Stands(LinkConnection),
    /// It greets, until this time at most.
    Greets(LinkConnection, u64),
    /// There is none. The next one is tried at this time.
    Rests(u64),
    /// There will be none any more.
    Over,
}

/// A link to another server.
#[derive(Drop)]
pub(crate) struct LinkKeeper {
    /// The other server.
    pub(crate) j: u8,
    /// Where it listens.
    pub(crate) address: SocketAddr,
    /// The start of it to which the link goes.
    pub(crate) start: u64,
    /// How far the connection is.
    pub(crate) stage: Stage,
    /// How many bytes it has confirmed.
    pub(crate) confirmed: u64,
    watch: LinkWatch,
}

impl LinkKeeper {
    /// A link whose connection stands.
    pub(crate) fn new(
        j: u8,
        address: SocketAddr,
        start: u64,
        connection: LinkConnection,
        watch: LinkWatch,
    ) -> LinkKeeper {
        LinkKeeper {
            j,
            address,
            start,
            stage: Stage::Stands(connection),
            confirmed: 0,
            watch,
        }
    }

    /// The socket of its connection, if there is one.
    pub(crate) fn stream(&self) -> Option<&TcpStream> {
        match &self.stage {
            Stage::Stands(connection) | Stage::Greets(connection, _) => Some(connection.stream()),
            Stage::Rests(_) | Stage::Over => None,
        }
    }

    /// Whether its connection stands.
    pub(crate) fn stands(&self) -> bool {
        matches!(&self.stage, Stage::Stands(_))
    }

    /// Whether it has to be looked at soon, though nobody wakes its thread.
    pub(crate) fn is_under_way(&self) -> bool {
        matches!(&self.stage, Stage::Greets(..) | Stage::Rests(_))
    }

    /// Whether its connection took something that wasn't confirmed when it was last looked at, so that it has to be
    /// looked at again.
    pub(crate) fn is_awaited(&self) -> bool {
        self.stands() && self.watch.is_awaited()
    }

    /// Goes on with its connection, whose socket may be ready. One that greets for too long is broken.
    pub(crate) fn go_on(&mut self, is_ready: bool, now: u64) -> Came {
        match &mut self.stage {
            Stage::Stands(connection) if is_ready => connection.go_on(self.start),
            Stage::Greets(_, until) if now >= *until => Came::Broken,
            Stage::Greets(connection, _) => connection.go_on(self.start),
            _ => Came::Nothing,
        }
    }

    /// Whether a connection is to be tried now.
    pub(crate) fn is_due(&self, now: u64) -> bool {
        matches!(&self.stage, Stage::Rests(at) if now >= *at)
    }

    /// Its connection ends. Another one is tried: at once if it stood, and else after a pause.
    pub(crate) fn rest(&mut self, now: u64) {
        let at = if self.stands() {
            now
        } else {
            now.saturating_add(PAUSE)
        };
        self.end_connection();
        self.stage = Stage::Rests(at);
    }

    /// Its connection ends, and no other one is tried.
    pub(crate) fn end(&mut self) {
        self.end_connection();
        self.stage = Stage::Over;
    }

    fn end_connection(&mut self) {
        if let Some(stream) = self.stream() {
            let _ = stream.shutdown(Shutdown::Both);
        }
    }

    /// Its connection has stood since now, and goes on after so many bytes.
    pub(crate) fn open(&mut self, connection: LinkConnection, count: u64, now: u64) {
        self.stage = Stage::Stands(connection);
        self.confirmed = count;
        self.watch.opened(now);
    }

    /// What is due, if its writer keeps so many bytes, of which the connection took so many.
    pub(crate) fn due(&mut self, kept: u64, taken: u64, now: u64) -> link_streams::LinkDue {
        let link = Standing {
            stands: self.stands(),
            confirmed: self.confirmed,
            kept,
            taken,
        };
        self.watch.next(link, now)
    }
}
