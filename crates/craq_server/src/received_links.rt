//! The links from the other servers: who reads them, and what is confirmed to their senders.

use crate::confirmations::is_much;
use crate::link_bells::LinkBell;
use bytes::BytesMut;
use std::alloc::{AllocError, Global};
use std::io::Write;
use std::net::{Shutdown, TcpStream};
use std::sync::atomic::{AtomicU64, Ordering};
use std::sync::{Arc, Mutex, Wait};
use wire::{Frame, encode_onto};

/// A connection from another server that stands.
#[derive(Drop)]
struct ReceivedConnection {
    // Which one it is: no other one has this number.
    number: u64,
    stream: Arc<TcpStream, Global>,
    // How many bytes were handed on.
    handed: Arc<AtomicU64, Global>,
    confirmed: u64,
}

/// A link from this start of another server, with its connection, if one stands.
#[derive(Drop)]
struct ReceivedLink {
    start: u64,
    connection: Option<ReceivedConnection>,
}

/// Whether there is room for a connection of a link.
#[derive(Clone, Copy, PartialEq, Eq)]
pub(crate) enum Vacancy {
    /// As soon as the one before isn't read any more.
    Soon,
    /// No: a later one stands.
    Later,
    /// No: the link isn't from this start of the server.
    OtherStart,
}

/// The links from the other servers, by their ids.
#[derive(Drop)]
pub(crate) struct ReceivedLinks {
    alloc: Global,
    links: Mutex<Vec<Option<ReceivedLink>>>,
    // How many bytes were handed on since the last confirmations.
    unconfirmed: AtomicU64,
    // Wakes the thread that confirms.
    bell: LinkBell,
}

impl ReceivedLinks {
    /// None yet, in a chain of n servers.
    pub(crate) fn new(
        alloc: Global,
        servers: u8,
        bell: LinkBell,
    ) -> Result<ReceivedLinks, AllocError> {
        let mut links = Vec::new(alloc);
        for _ in 0..servers {
            links.push(None)?;
        }
        Ok(ReceivedLinks {
            alloc,
            links: Mutex::new(links),
            unconfirmed: AtomicU64::new(0),
            bell,
        })
    }

    /// Connection `number`, from server `j` at this start of it, stands. Over it so many bytes are confirmed. It gives
    /// what counts the bytes that are handed on.
    pub(crate) fn open<W: Wait>(
        &self,
        rt: &W,
        j: u8,
        start: u64,
        number: u64,
        stream: &Arc<TcpStream, Global>,
        confirmed: u64,
    ) -> Result<Arc<AtomicU64, Global>, AllocError> {
        let handed = Arc::new(self.alloc, AtomicU64::new(confirmed))?;
        let connection = ReceivedConnection {
            number,
            stream: Arc::try_clone(stream)?,
            handed: Arc::try_clone(&handed)?,
            confirmed,
        };
        let link = ReceivedLink {
            start,
            connection: Some(connection),
        };
        let mut guard = self.links.lock(rt);
        let links = &mut *guard;
        match links.get_mut(usize::from(j)) {
            Some(place) => drop(place.replace(link)),
            None => drop(link),
        }
        Ok(handed)
    }

    /// Makes room for connection `number` from server `j`, at this start of it: an earlier connection is ended.
    pub(crate) fn make_room<W: Wait>(&self, rt: &W, j: u8, start: u64, number: u64) -> Vacancy {
        let guard = self.links.lock(rt);
        match guard.get(usize::from(j)) {
            Some(Some(link)) if link.start == start => link.make_room(number),
            _ => Vacancy::OtherStart,
        }
    }

    /// Connection `number`, from server `j`, isn't read any more.
    pub(crate) fn close<W: Wait>(&self, rt: &W, j: u8, number: u64) {
        let mut guard = self.links.lock(rt);
        let links = &mut *guard;
        if let Some(Some(link)) = links.get_mut(usize::from(j)) {
            if matches!(&link.connection, Some(connection) if connection.number == number) {
                drop(link.connection.take());
            }
        }
    }

    /// So many bytes more were handed on, which are to be confirmed. The thread that does so is woken for the first of
    /// them, and once they are many.
    pub(crate) fn note(&self, count: u64) {
        let before = self.unconfirmed.fetch_add(count, Ordering::SeqCst);
        if before == 0 || (!is_much(before) && is_much(before.wrapping_add(count))) {
            self.bell.ring();
        }
    }

    /// How many bytes were handed on since the last confirmations.
    pub(crate) fn unconfirmed(&self) -> u64 {
        self.unconfirmed.load(Ordering::SeqCst)
    }

    /// Confirms what was handed on. A connection that doesn't take a confirmation at once is ended.
    pub(crate) fn confirm<W: Wait>(&self, rt: &W) {
        self.unconfirmed.store(0, Ordering::SeqCst);
        let mut guard = self.links.lock(rt);
        let links = &mut *guard;
        for place in links.iter_mut() {
            if let Some(link) = place {
                if let Some(connection) = &mut link.connection {
                    connection.confirm(self.alloc);
                }
            }
        }
    }
}

impl ReceivedLink {
    fn make_room(&self, number: u64) -> Vacancy {
        match &self.connection {
            Some(connection) if connection.number > number => Vacancy::Later,
            Some(connection) => {
                let _ = connection.stream.shutdown(Shutdown::Both);
                Vacancy::Soon
            }
            None => Vacancy::Soon,
        }
    }
}

impl ReceivedConnection {
    // Confirms what was handed on. If that isn't taken at once the connection is ended.
    fn confirm(&mut self, alloc: Global) {
        let handed = self.handed.load(Ordering::SeqCst);
        if handed != self.confirmed {
            self.confirmed = handed;
            if !put(alloc, &self.stream, handed) {
                let _ = self.stream.shutdown(Shutdown::Both);
            }
        }
    }
}

// Writes a confirmation.
fn put(alloc: Global, stream: &TcpStream, count: u64) -> bool {
    let mut out = BytesMut::new(alloc);
    let frame = Frame::Confirmed(count);
    let is_made = encode_onto(&mut out, &frame).is_ok();
    drop(frame);
    let mut stream = stream;
    is_made && matches!(stream.write(out.as_slice()), Ok(n) if n == out.len())
}
