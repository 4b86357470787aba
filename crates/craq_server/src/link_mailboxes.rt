//! What the thread that looks after the links and whoever writes them tell each other.

use crate::link_bells::LinkBell;
use crate::link_sockets::LinkSocket;
use std::alloc::{AllocError, Global};
use std::sync::atomic::{AtomicBool, AtomicU64, Ordering};
use std::sync::{Mutex, Wait};

/// A new connection of a link: its receiver is this start of the other server, and goes on after so many bytes.
#[derive(Drop)]
pub(crate) struct NewConnection<R> {
    pub(crate) socket: LinkSocket<R>,
    pub(crate) start: u64,
    pub(crate) count: u64,
}

/// What has come of a link since its writer last asked.
#[derive(Drop)]
pub(crate) struct LinkNews<R> {
    /// So many bytes are confirmed.
    pub(crate) confirmed: Option<u64>,
    /// The connection doesn't stand any more.
    pub(crate) has_ended: bool,
    /// Another one stands.
    pub(crate) connection: Option<NewConnection<R>>,
    /// None will any more.
    pub(crate) is_lost: bool,
}

/// The news of one link, and how far its writer is.
#[derive(Drop)]
pub(crate) struct LinkMailbox<R> {
    has_news: AtomicBool,
    news: Mutex<LinkNews<R>>,
    // How many bytes its writer keeps, since they aren't confirmed, and how many of these the connection took.
    kept: AtomicU64,
    taken: AtomicU64,
    // Whether its writer has refused what came over the connection.
    is_refused: AtomicBool,
}

/// The mailboxes of a server's links, by the other servers' ids.
#[derive(Drop)]
pub(crate) struct LinkMailboxes<R> {
    mailboxes: Vec<LinkMailbox<R>>,
    // Whether one of them may have news.
    any: AtomicBool,
    // Wakes the thread that looks after the links.
    bell: LinkBell,
}

impl<R: Drop> LinkNews<R> {
    fn none() -> LinkNews<R> {
        LinkNews {
            confirmed: None,
            has_ended: false,
            connection: None,
            is_lost: false,
        }
    }
}

impl<R: Drop> LinkMailboxes<R> {
    /// Empty ones of a chain of n servers.
    pub(crate) fn new(
        alloc: Global,
        servers: u8,
        bell: LinkBell,
    ) -> Result<LinkMailboxes<R>, AllocError> {
        let mut mailboxes = Vec::new(alloc);
        for _ in 0..servers {
            mailboxes.push(LinkMailbox {
                has_news: AtomicBool::new(false),
                news: Mutex::new(LinkNews::none()),
                kept: AtomicU64::new(0),
                taken: AtomicU64::new(0),
                is_refused: AtomicBool::new(false),
            })?;
        }
        Ok(LinkMailboxes {
            mailboxes,
            any: AtomicBool::new(false),
            bell,
        })
    }

    /// So many bytes of the link to server `j` are confirmed.
    pub(crate) fn confirm<W: Wait>(&self, rt: &W, j: u8, count: u64) {
        if let Some(mailbox) = self.mailboxes.get(usize::from(j)) {
            let mut guard = mailbox.news.lock(rt);
            let news = &mut *guard;
            news.confirmed = Some(count);
            drop(guard);
            self.rise(mailbox);
        }
    }

    /// The connection of the link to server `j` doesn't stand any more.
    pub(crate) fn end<W: Wait>(&self, rt: &W, j: u8) {
        if let Some(mailbox) = self.mailboxes.get(usize::from(j)) {
            let mut guard = mailbox.news.lock(rt);
            let news = &mut *guard;
            news.has_ended = true;
            drop(news.connection.take());
            drop(guard);
            self.rise(mailbox);
        }
    }

    /// A connection of the link to server `j` stands.
    pub(crate) fn open<W: Wait>(&self, rt: &W, j: u8, connection: NewConnection<R>) {
        match self.mailboxes.get(usize::from(j)) {
            Some(mailbox) => {
                let mut guard = mailbox.news.lock(rt);
                let news = &mut *guard;
                drop(news.connection.replace(connection));
                drop(guard);
                self.rise(mailbox);
            }
            None => drop(connection),
        }
    }

    /// The link to server `j` has failed for good.
    pub(crate) fn lose<W: Wait>(&self, rt: &W, j: u8) {
        if let Some(mailbox) = self.mailboxes.get(usize::from(j)) {
            let mut guard = mailbox.news.lock(rt);
            let news = &mut *guard;
            news.is_lost = true;
            drop(guard);
            self.rise(mailbox);
        }
    }

    fn rise(&self, mailbox: &LinkMailbox<R>) {
        mailbox.has_news.store(true, Ordering::SeqCst);
        self.any.store(true, Ordering::SeqCst);
    }

    /// Whether there may be news of a link. They are taken then.
    pub(crate) fn take_any(&self) -> bool {
        self.any.load(Ordering::SeqCst) && self.any.swap(false, Ordering::SeqCst)
    }

    /// The news of the link to server `j`, if there are any. Those that are just written are left for later, and it is
    /// said then that there may be some.
    pub(crate) fn take(&self, j: u8) -> Option<LinkNews<R>> {
        let mailbox = self.mailboxes.get(usize::from(j))?;
        if !mailbox.has_news.swap(false, Ordering::SeqCst) {
            return None;
        }
        match mailbox.news.try_lock() {
            Some(mut guard) => {
                let news = &mut *guard;
                let taken = LinkNews {
                    confirmed: news.confirmed.take(),
                    has_ended: news.has_ended,
                    connection: news.connection.take(),
                    is_lost: news.is_lost,
                };
                news.has_ended = false;
                drop(guard);
                Some(taken)
            }
            None => {
                self.rise(mailbox);
                None
            }
        }
    }

    /// The writer of the link to server `j` has refused what came over the connection: it is to be ended.
    pub(crate) fn refuse(&self, j: u8) {
        if let Some(mailbox) = self.mailboxes.get(usize::from(j)) {
            mailbox.is_refused.store(true, Ordering::SeqCst);
            self.bell.ring();
        }
    }

    /// Whether it has. This is asked once.
    pub(crate) fn take_refused(&self, j: u8) -> bool {
        match self.mailboxes.get(usize::from(j)) {
            Some(mailbox) => mailbox.is_refused.swap(false, Ordering::SeqCst),
            None => false,
        }
    }

    /// The writer of the link to server `j` keeps so many bytes, of which the connection took so many. If it took none
    /// before, the thread is woken that looks after the links.
    pub(crate) fn note(&self, j: u8, kept: u64, taken: u64) {
        if let Some(mailbox) = self.mailboxes.get(usize::from(j)) {
            set(&mailbox.kept, kept);
            if taken != 0 && mailbox.taken.load(Ordering::Relaxed) == 0 {
                mailbox.taken.store(taken, Ordering::Relaxed);
                self.bell.ring();
            } else {
                set(&mailbox.taken, taken);
            }
        }
    }

    /// How many bytes the writer of the link to server `j` keeps, and how many of these the connection took.
    pub(crate) fn kept(&self, j: u8) -> (u64, u64) {
        match self.mailboxes.get(usize::from(j)) {
            Some(mailbox) => {
                let taken = mailbox.taken.load(Ordering::Relaxed);
                (mailbox.kept.load(Ordering::Relaxed), taken)
            }
            None => (0, 0),
        }
    }
}

// Writes a number that others read, if it is another one.
fn set(place: &AtomicU64, number: u64) {
    if place.load(Ordering::Relaxed) != number {
        place.store(number, Ordering::Relaxed);
    }
}
