//! The clients of one thread at one server, and the seats that it has there.

use crate::clients::{Ready, ReplyOutcome};
use crate::known_clients;
use crate::known_clients::Clients;
use crate::loop_handles::Arrival;
use crate::wait_queues::WaitQueue;
use mio::{Interest, Registry, Token};
use seats::{Pause, SeatPool};
use server_guards::{Mark, OutputPermit};
use serving::ServeFault;
use slab::Slab;
use std::alloc::{AllocError, Global};
use std::marker::Model;
use std::sync::Wait;
use std::time::Clock;

/// How many servers a process has at most; tokens hold a client's key times this, and the server's id.
pub(crate) const SERVERS: usize = node::SERVERS as usize;

/// What a connection table is made of. Unlike the table itself it may be sent to another thread.
#[derive(Drop)]
pub(crate) struct ConnectionTableParts {
    /// The server.
    pub(crate) id: u8,
    pub(crate) pool: SeatPool,
    /// Set as soon as the server answers no more calls.
    pub(crate) mark: Mark,
    /// What may hold back the server's output.
    pub(crate) output_permit: OutputPermit,
}

/// The clients of one thread at one server, by keys, and the seats that the thread has there. Each client waits for its
/// socket, or its key stands in one of the four queues, once. The type keeps that the reader of the seats knows all that
/// was told to any client. Contracts see what the reader has seen.
#[derive(Drop)]
pub(crate) struct ConnectionTable {
    alloc: Global,
    id: u8,
    pool: SeatPool,
    clients: Clients,
    // The keys of those that may go on.
    ready_queue: WaitQueue,
    // Of those whose calls wait for a seat. One is free only while such a call is about to be sent.
    seat_queue: WaitQueue,
    // Of those whose calls were sent.
    reply_queue: WaitQueue,
    // Of those whose output the server may not put out yet.
    lease_queue: WaitQueue,
    // Whether a call was sent since this was last asked for.
    has_sent: bool,
    // Set as soon as the server answers no more calls.
    mark: Mark,
    // What may hold back the server's output.
    output_permit: OutputPermit,
    // Whether all clients were closed for that, and none is let in.
    is_shut: bool,
}

impl Model for ConnectionTable {
    ghost use Rattle.std.specs.Coded.{codes};
    ghost use Rattle.logbook.specs.Pages.{book_coded};
    ghost use Rattle.versions.specs.Stores.{coded_items};
    ghost use Rattle.faces.specs.Histories.{History};
    ghost use Rattle.io_threads.specs.KnownClients.{KnowsAll};

    ghost Value = { History };

    ghost coded = { Prim.hlevel (codes, coded_items, book_coded) };

    ghost view = { λ t. t.pool.seen };

    ghost invariant = { λ t. KnowsAll t.pool.seen t.clients };
}

impl ConnectionTable {
    /// Without clients. It allocates nothing.
    pub(crate) fn new(alloc: Global, table_parts: ConnectionTableParts) -> ConnectionTable {
        let ConnectionTableParts {
            id,
            pool,
            mark,
            output_permit,
        } = table_parts;
        ConnectionTable {
            alloc,
            id,
            pool,
            clients: Slab::new(alloc),
            ready_queue: WaitQueue::new(alloc),
            seat_queue: WaitQueue::new(alloc),
            reply_queue: WaitQueue::new(alloc),
            lease_queue: WaitQueue::new(alloc),
            has_sent: false,
            mark,
            output_permit,
            is_shut: false,
        }
    }

    /// A connection table of each. Refused only if memory is out.
    pub(crate) fn open_all(
        alloc: Global,
        all: Vec<ConnectionTableParts>,
    ) -> Result<Vec<ConnectionTable>, AllocError> {
        let mut connection_tables = Vec::new(alloc);
        for table_parts in all {
            connection_tables.push(ConnectionTable::new(alloc, table_parts))?;
        }
        Ok(connection_tables)
    }

    /// Its server.
    pub(crate) fn id(&self) -> u8 {
        self.id
    }

    /// Whether it has no client.
    pub(crate) fn is_empty(&self) -> bool {
        self.clients.is_empty()
    }

    /// Whether a client may take steps.
    pub(crate) fn is_busy(&self) -> bool {
        !self.ready_queue.is_empty()
    }

    /// Whether a reply is waited for: that to a client's call, or one that frees a seat for it.
    pub(crate) fn awaits_reply(&self) -> bool {
        !self.reply_queue.is_empty() || !self.seat_queue.is_empty()
    }

    /// Whether output of a client waits until the server may put it out.
    pub(crate) fn holds_output(&self) -> bool {
        !self.lease_queue.is_empty()
    }

    /// Whether a call was sent since this was last asked.
    pub(crate) fn take_sent(&mut self) -> bool {
        let sent = self.has_sent;
        self.has_sent = false;
        sent
    }

    /// Takes a client in, which is closed at once if the server answers no more calls, or memory is out.
    pub(crate) fn admit(&mut self, registry: &Registry, arrival: Arrival) {
        if self.is_shut || self.mark.is_set() {
            drop(arrival);
            return;
        }
        let Arrival { mut stream, .. } = arrival;
        let _ = stream.stream.set_nodelay(true);
        let token = self
            .clients
            .vacant_key()
            .wrapping_mul(SERVERS)
            .wrapping_add(usize::from(self.id));
        let interests = Interest::READABLE | Interest::WRITABLE;
        if registry
            .register(&mut stream.stream, Token(token), interests)
            .is_ok()
        {
            known_clients::add(self.alloc, &self.pool, &mut self.clients, stream);
        }
    }

    /// A client's socket was found ready for this. If it waits for that, it goes on for a while. If it is gone while
    /// its call or its output waits, it is closed at once.
    pub(crate) fn take_event<R: Wait + Clock>(
        &mut self,
        rt: &R,
        key: usize,
        ready: Ready,
        piece: &mut [u8],
    ) {
        match known_clients::note_ready(&self.pool, &mut self.clients, key, ready) {
            Some(Pause::Input | Pause::Output) => self.serve_client(rt, key, piece),
            Some(Pause::Seat) if ready.gone => {
                self.seat_queue.leave(key);
                self.close(key);
            }
            Some(Pause::Reply) if ready.gone => {
                self.reply_queue.leave(key);
                self.close(key);
            }
            Some(Pause::Lease) if ready.gone => {
                self.lease_queue.leave(key);
                self.close(key);
            }
            _ => {}
        }
    }

    /// Looks at a client, so that it is near once it goes on: how much output is due there, and one more if it wants
    /// input. None counts as nothing.
    pub(crate) fn look_at(&self, key: usize) -> usize {
        match self.clients.get(key) {
            Some(client) => client.look_at(),
            None => 0,
        }
    }

    /// Closes all clients, without a further byte, if the server is marked and they weren't closed before.
    pub(crate) fn check_stopped(&mut self) {
        if !self.is_shut && self.mark.is_set() {
            self.shut();
        }
    }

    // Closes all clients, for ever.
    fn shut(&mut self) {
        self.is_shut = true;
        self.ready_queue.clear();
        self.seat_queue.clear();
        self.reply_queue.clear();
        self.lease_queue.clear();
        known_clients::close_all(&self.pool, &mut self.clients);
    }

    /// Has each client that may take steps take some. Those whose output waited may, once the server may put it out.
    pub(crate) fn serve_ready<R: Wait + Clock>(&mut self, rt: &R, piece: &mut [u8]) {
        self.serve_held(rt, piece);
        for _ in 0..self.ready_queue.len() {
            let Some(key) = self.ready_queue.next() else {
                return;
            };
            self.serve_client(rt, key, piece);
        }
    }

    /// Takes the replies that stand at its seats, and has their clients go on, and those for whom a seat is free.
    /// Whether there were any.
    pub(crate) fn collect<R: Wait + Clock>(&mut self, rt: &R, piece: &mut [u8]) -> bool {
        self.check_stopped();
        known_clients::collect(rt, &mut self.pool, &self.clients);
        let mut any = self.serve_seat_queue(rt, piece);
        for _ in 0..self.reply_queue.len() {
            let Some(key) = self.reply_queue.next() else {
                return any;
            };
            match known_clients::receive_replies(rt, &mut self.pool, &mut self.clients, key) {
                ReplyOutcome::NotYet => self.await_reply(key),
                ReplyOutcome::Reply => {
                    any = true;
                    self.serve_seat_queue(rt, piece);
                    self.serve_client(rt, key, piece);
                }
                // Only this client's text found no memory; a reply is heard without a read or a write.
                ReplyOutcome::Over(ServeFault::Memory | ServeFault::Read | ServeFault::Write) => {
                    any = true;
                    self.close(key);
                    self.serve_seat_queue(rt, piece);
                }
                ReplyOutcome::Over(ServeFault::Call) => {
                    self.shut();
                    return true;
                }
            }
        }
        any
    }

    // Has those whose calls wait for a seat go on, as long as one is free. Whether there were any.
    fn serve_seat_queue<R: Wait + Clock>(&mut self, rt: &R, piece: &mut [u8]) -> bool {
        let mut any = false;
        for _ in 0..self.seat_queue.len() {
            if !self.pool.has_free() {
                return any;
            }
            let Some(key) = self.seat_queue.next() else {
                return any;
            };
            any = true;
            self.serve_client(rt, key, piece);
        }
        any
    }

    // Has those go on whose output waits, if the server may put it out now.
    fn serve_held<R: Wait + Clock>(&mut self, rt: &R, piece: &mut [u8]) {
        if self.lease_queue.is_empty() || self.output_permit.lets(rt, &[]).is_none() {
            return;
        }
        for _ in 0..self.lease_queue.len() {
            let Some(key) = self.lease_queue.next() else {
                return;
            };
            self.serve_client(rt, key, piece);
        }
    }

    // Has a client go on for a while, unless the server is marked: then all are closed.
    fn serve_client<R: Wait + Clock>(&mut self, rt: &R, key: usize, piece: &mut [u8]) {
        if self.mark.is_set() {
            self.shut();
            return;
        }
        let progress = known_clients::serve(
            rt,
            &mut self.pool,
            &mut self.clients,
            key,
            piece,
            &self.output_permit,
        );
        self.has_sent |= progress.has_sent;
        match progress.pause {
            Pause::Turn => self.enqueue(key),
            Pause::Input | Pause::Output => {}
            Pause::Seat => self.await_seat(key),
            Pause::Reply => self.await_reply(key),
            Pause::Lease => self.hold(key),
            Pause::Over => self.close(key),
        }
    }

    // Closes a client.
    fn close(&mut self, key: usize) {
        known_clients::close(&mut self.pool, &mut self.clients, key);
    }

    // A client may go on.
    fn enqueue(&mut self, key: usize) {
        if self.ready_queue.join(key).is_err() {
            self.close(key);
        }
    }

    // A client's call waits for a seat.
    fn await_seat(&mut self, key: usize) {
        if self.seat_queue.join(key).is_err() {
            self.close(key);
        }
    }

    // A client's call was sent. There is room for as many as there are seats, so memory is never out here.
    fn await_reply(&mut self, key: usize) {
        if self.reply_queue.join(key).is_err() {
            self.shut();
        }
    }

    // A client's output waits until the server may put it out.
    fn hold(&mut self, key: usize) {
        if self.lease_queue.join(key).is_err() {
            self.close(key);
        }
    }
}
