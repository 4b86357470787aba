//! The thread that accepts connections, and hands each to one of the serving threads.

use crate::connection_permits::PermitIssuer;
use crate::loop_handles::{Arrival, LoopHandles};
use crate::permitted_streams::PermittedStream;
use mio::net::{TcpListener, TcpStream};
use mio::{Events, Interest, Poll, Token};
use server_guards::Mark;
use std::alloc::{AllocError, Global};
use std::collections::VecDeque;
use std::io::{ErrorKind, Write};
use std::net::Net;
use std::sync::{Arc, Wait};
use std::time::Duration;

/// The pause after a connection that can't be accepted, in milliseconds.
const PAUSE: u64 = 50;

/// The pause after a connection that couldn't be handed on, in milliseconds.
const SHORT: u64 = 1;

/// How many connections of one server are accepted before those of others are.
const MOST: usize = 64;

/// What is written to a connection beyond those that its server may have.
const REFUSAL: &[u8] = b"SERVER_ERROR too many connections\r\n";

/// Where connections to one server are accepted.
#[derive(Drop)]
pub(crate) struct ServerListener {
    // None once no more are accepted.
    listener: Option<TcpListener>,
    permit_issuer: PermitIssuer,
    mark: Mark,
    // How many more are accepted, if that is limited.
    left: Option<u64>,
    // Whether one may stand there.
    is_ready: bool,
}

// A connection for a thread that took its list when it was to be handed over.
#[derive(Drop)]
struct Held {
    thread: usize,
    arrival: Arrival,
}

/// The thread that accepts.
#[derive(Drop)]
pub(crate) struct Acceptor<R: Wait + Drop> {
    rt: R,
    poll: Poll,
    events: Events,
    // By the servers' ids.
    server_listeners: Vec<ServerListener>,
    loop_handles: Arc<LoopHandles, Global>,
    // Those that are still to be handed on.
    held: VecDeque<Held>,
    // Whether the last one that stood there couldn't be accepted.
    is_refused: bool,
}

impl ServerListener {
    /// Accepts this many connections from this listener, or with 0 all, as the permit issuer lets them in.
    pub(crate) fn new(
        listener: TcpListener,
        permit_issuer: PermitIssuer,
        mark: Mark,
        serves: u64,
    ) -> ServerListener {
        ServerListener {
            listener: Some(listener),
            permit_issuer,
            mark,
            left: if serves == 0 { None } else { Some(serves) },
            is_ready: true,
        }
    }

    // The next connection, if one stands there. Whether another may.
    fn accept(&mut self) -> Result<Option<TcpStream>, ()> {
        let Some(listener) = &self.listener else {
            return Ok(None);
        };
        match listener.accept() {
            Ok((stream, _)) => {
                self.count();
                Ok(Some(stream))
            }
            Err(e) => {
                if e.kind() == ErrorKind::WouldBlock {
                    self.is_ready = false;
                    Ok(None)
                } else {
                    Err(())
                }
            }
        }
    }

    // One more was accepted. The last one closes the server_listener.
    fn count(&mut self) {
        if let Some(left) = self.left {
            let left = left.saturating_sub(1);
            self.left = Some(left);
            if left == 0 {
                self.listener = None;
                self.is_ready = false;
            }
        }
    }
}

impl<R: Wait + Drop> Acceptor<R> {
    /// Accepts at these server_listeners. Refused if the system or memory refuses.
    pub(crate) fn new(
        rt: R,
        alloc: Global,
        server_listeners: Vec<ServerListener>,
        loop_handles: Arc<LoopHandles, Global>,
    ) -> Result<Acceptor<R>, AllocError>
    where
        R: Net,
    {
        let Ok(poll) = Poll::new(&rt) else {
            return Err(AllocError);
        };
        let mut acceptor = Acceptor {
            rt,
            poll,
            events: Events::with_capacity(alloc, 64)?,
            server_listeners,
            loop_handles,
            held: VecDeque::new(alloc),
            is_refused: false,
        };
        acceptor.register()?;
        Ok(acceptor)
    }

    fn register(&mut self) -> Result<(), AllocError> {
        let registry = self.poll.registry();
        let mut id = 0usize;
        for server_listener in self.server_listeners.iter_mut() {
            if let Some(listener) = &mut server_listener.listener {
                if registry
                    .register(listener, Token(id), Interest::READABLE)
                    .is_err()
                {
                    return Err(AllocError);
                }
            }
            id = id.wrapping_add(1);
        }
        Ok(())
    }

    /// Accepts until every server_listener is closed. After a connection that can't be accepted it pauses.
    pub(crate) fn run(&mut self)
    where
        R: Copy,
    {
        let rt = self.rt;
        for _ in rt.forever() {
            self.wait();
            self.note_events();
            self.hand_on_held();
            self.is_refused = false;
            for id in 0..self.server_listeners.len() {
                self.accept_some(id);
            }
            if self.is_done() {
                self.loop_handles.finish();
                return;
            }
        }
        unreachable!()
    }

    fn wait(&mut self) {
        let limit = if self.is_refused {
            Some(Duration::from_millis(PAUSE))
        } else if !self.held.is_empty() {
            Some(Duration::from_millis(SHORT))
        } else if self
            .server_listeners
            .iter()
            .any(|server_listener| server_listener.is_ready)
        {
            Some(Duration::ZERO)
        } else {
            None
        };
        let _ = self.poll.poll(&mut self.events, limit);
    }

    fn note_events(&mut self) {
        for event in self.events.iter() {
            let Token(id) = event.token();
            if let Some(server_listener) = self.server_listeners.get_mut(id) {
                server_listener.is_ready = true;
            }
        }
    }

    // Accepts what stands at a server's listener, up to a limit.
    fn accept_some(&mut self, id: usize) {
        for _ in 0..MOST {
            let Some(server_listener) = self.server_listeners.get_mut(id) else {
                return;
            };
            match server_listener.accept() {
                Ok(Some(stream)) => self.admit(id, stream),
                Ok(None) => return,
                Err(()) => {
                    self.is_refused = true;
                    return;
                }
            }
        }
    }

    // Hands a connection to the thread that gets the next one, unless its server is marked: then it is closed without a
    // byte. One beyond those that the server may have is told so, and closed.
    fn admit(&mut self, id: usize, stream: TcpStream) {
        let (Some(server_listener), Ok(server)) = (
            self.server_listeners.get_mut(id),
            u8::try_from(id),
        ) else {
            return;
        };
        if server_listener.mark.is_set() {
            return;
        }
        match server_listener.permit_issuer.admit() {
            Some(permit) => {
                let thread = permit.thread;
                let stream = PermittedStream::new(permit, stream);
                let arrival = Arrival { stream, server };
                self.hand_on(thread, arrival);
            }
            None => refuse(stream),
        }
    }

    // Hands a connection to a thread, or keeps it for later. If memory is out for that it is closed.
    fn hand_on(&mut self, thread: usize, arrival: Arrival) {
        if let Some(arrival) = self.loop_handles.send(thread, arrival) {
            drop(self.held.push_back(Held { thread, arrival }));
        }
    }

    // Tries again to hand on those that were kept.
    fn hand_on_held(&mut self) {
        for _ in 0..self.held.len() {
            let Some(held) = self.held.pop_front() else {
                return;
            };
            let Held { thread, arrival } = held;
            self.hand_on(thread, arrival);
        }
    }

    fn is_done(&self) -> bool {
        self.held.is_empty()
            && self
                .server_listeners
                .iter()
                .all(|server_listener| server_listener.listener.is_none())
    }
}

// Tells a connection that there is no room for it. It is closed then.
fn refuse(stream: TcpStream) {
    let mut stream = stream;
    let _ = stream.write(REFUSAL);
}
