//! Cutting the connections to servers that have failed, and the lease by which a server puts anything out.
ghost use Rattle.std.specs.Prelude.{◌≡◌, IfOk};
ghost use Rattle.leases.specs.Shared.{is_timed};
ghost use Rattle.craq_server.specs.Held.{may_end};

use crate::link_bells::LinkBell;
use crate::link_mailboxes::LinkMailboxes;
use crate::link_sockets::LinkSocket;
use crate::received_links::ReceivedLinks;
use crate::still_links::StillLinks;
use leases::{AnyEnd, Lease, SharedLease, Term};
use links::LinkControl;
use mio::net::TcpStream;
use server_guards::{Mark, OutputPermit};
use std::alloc::{AllocError, Global};
use std::sync::{Arc, Wait};
use std::time::Clock;

/// What the threads of server `id` share of its links: who is gone, the news of links, the sockets on which what came
/// is confirmed, which links stand still, and the server's lease with the clock by which it runs. So one thread ends
/// what another does there.
#[derive(Drop)]
pub(crate) struct PeerStreams<R> {
    // The server's clock.
    rt: R,
    id: u8,
    mailboxes: Arc<LinkMailboxes<R>, Global>,
    incoming: ReceivedLinks,
    still_links: StillLinks,
    // Rung for news of links, and for what masters bring.
    bell: LinkBell,
    // Each is set as soon as it is known here that the server is gone; all are if it is this one.
    gone: Vec<Mark>,
    // Set as soon as this server answers no call any more.
    failed: Mark,
    // Set if this server was called gone, and is to end.
    ended: Mark,
    // The server's lease, for those who ask without the lock under which it is.
    lease: Arc<SharedLease<AnyEnd>, Global>,
}

impl<R: Clock + Drop> PeerStreams<R> {
    /// No connection yet, in a chain of n servers. The mark is set if the server itself is called gone. Its lease has
    /// this term, or always holds.
    pub(crate) fn new(
        rt: R,
        alloc: Global,
        id: u8,
        servers: u8,
        failed: Mark,
        term: Option<Term>,
        bell: LinkBell,
    ) -> Result<PeerStreams<R>, AllocError>
        ensures { IfOk result (λ made. may_end made ≡ is_timed term) }
    {
        let mut gone = Vec::new(alloc);
        for _ in 0..servers {
            gone.push(Mark::new(alloc)?)?;
        }
        Ok(PeerStreams {
            rt,
            id,
            mailboxes: Arc::new(alloc, LinkMailboxes::new(alloc, servers, bell.share()?)?)?,
            incoming: ReceivedLinks::new(alloc, servers, bell.share()?)?,
            still_links: StillLinks::new(),
            bell,
            gone,
            failed,
            ended: Mark::new(alloc)?,
            lease: Arc::new(alloc, SharedLease::new(term))?,
        })
    }

    /// What comes of the links.
    pub(crate) fn mailboxes(&self) -> &LinkMailboxes<R> {
        &self.mailboxes
    }

    /// The same, for who writes the links.
    pub(crate) fn share_mailboxes(&self) -> Result<Arc<LinkMailboxes<R>, Global>, AllocError> {
        Ok(Arc::try_clone(&self.mailboxes)?)
    }

    /// What is rung once a master has brought something.
    pub(crate) fn bell(&self) -> &LinkBell {
        &self.bell
    }

    /// The links from the other servers.
    pub(crate) fn incoming(&self) -> &ReceivedLinks {
        &self.incoming
    }

    /// Its links that stand still.
    pub(crate) fn still_links(&self) -> &StillLinks {
        &self.still_links
    }

    /// What may hold back what the server puts out. It does so only if the server's lease has a term.
    pub(crate) fn output_permit(&self) -> Result<OutputPermit, AllocError>
        ensures { IfOk result (λ output_permit. output_permit ≡ may_end self.now) }
    {
        Ok(OutputPermit::by_lease(Arc::try_clone(&self.lease)?))
    }

    /// Where what goes to server `j` is written over this connection. It is written only while the server's lease
    /// holds, if that has a term.
    pub(crate) fn socket(
        &self,
        j: u8,
        stream: Arc<TcpStream, Global>,
    ) -> Result<LinkSocket<R>, AllocError>
    where
        R: Copy,
        ensures { IfOk result (λ socket. socket.output_permit ≡ may_end self.now) }
    {
        let gone = self.mark(j)?;
        let output_permit = self.output_permit()?;
        Ok(LinkSocket::new(self.rt, stream, output_permit, gone))
    }

    /// What is set as soon as server `j` is called gone.
    pub(crate) fn mark(&self, j: u8) -> Result<Mark, AllocError> {
        match self.gone.get(usize::from(j)) {
            Some(mark) => mark.share(),
            None => Err(AllocError),
        }
    }

    /// Whether server `j` was called gone.
    pub(crate) fn is_gone(&self, j: u8) -> bool {
        match self.gone.get(usize::from(j)) {
            Some(mark) => mark.is_set(),
            None => false,
        }
    }

    /// What is set if this server was called gone, and is to end.
    pub(crate) fn ended(&self) -> &Mark {
        &self.ended
    }

    // Marks server `j` as gone, and ends the link to it.
    fn cut_one<W: Wait>(&self, rt: &W, j: u8) {
        if let Some(mark) = self.gone.get(usize::from(j)) {
            mark.set();
        }
        self.mailboxes.lose(rt, j);
        self.bell.ring();
    }

    // The same of all.
    fn cut_all(&self) {
        for mark in self.gone.iter() {
            mark.set();
        }
        self.bell.ring();
    }
}

impl<R: Clock + Drop> LinkControl for PeerStreams<R> {
    type ServerClock = R;

    fn cut<W: Wait>(&self, rt: &W, j: u8) {
        if j == self.id {
            self.failed.set();
            self.cut_all();
        } else {
            self.cut_one(rt, j);
        }
    }

    fn end(&self) {
        self.ended.set();
    }

    fn clock(&self) -> &R {
        &self.rt
    }

    fn renewed(&self, lease: &Lease) {
        self.lease.renew(lease);
    }
}
