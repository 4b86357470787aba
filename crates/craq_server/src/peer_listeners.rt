//! The peer port of a server: a thread that accepts connections, and one for each of them.

use crate::answered_masters::AnsweredMaster;
use crate::arrivals::Arrivals;
use crate::greeters::Greeter;
use crate::guests::{Guest, GuestRoom, heals};
use crate::link_lines::{tell_from, tell_master, tell_old};
use crate::peer_streams::PeerStreams;
use crate::pending_connections::{Greeting, PendingConnections, read_greeting};
use crate::received_links::Vacancy;
use crate::refusals::Refusals;
use crate::reported_connections::{Kind, Name, ReportedConnection, why_ended};
use ends::{TrackedReader, TrackedWriter};
use lines::LineSender;
use links::{PeerConnection, PeerPort, Speaker};
use peers::{LinkFault, PeerEnd, PeerReader, serve_peer};
use sockets::keep_alive;
use std::alloc::{AllocError, Global};
use std::net::{TcpListener, TcpStream};
use std::sync::{Arc, Wait};
use std::thread;
use std::thread::{JoinHandle, Threads};
use std::time::{Clock, Duration};
use wire::{Acceptance, Introduction, Reason};

/// The pause after a connection that can't be accepted, in milliseconds.
const PAUSE: u64 = 50;

/// How long a read waits before all servers have connected, in milliseconds.
const EARLY: u64 = 10;

/// The most bytes of such a read.
const PIECE: usize = 65_536;

/// How many milliseconds a greeting waits for the end of the connection before it.
const TRIES: u32 = 500;

/// What all connections to the peer port of server `id` share.
#[derive(Drop)]
struct PeerListener<R: Clock + Drop> {
    id: u8,
    alloc: Global,
    shared_port: Arc<PeerPort<PeerStreams<R>>, Global>,
    arrivals: Arc<Arrivals, Global>,
    pending_connections: PendingConnections,
    masters: PendingConnections,
    greeter: Greeter,
    guest_room: Arc<GuestRoom<R>, Global>,
    line_sender: LineSender,
}

// Who was accepted, and the port at which it speaks.
#[derive(Drop)]
struct Accepted<C> {
    shared_port: Arc<PeerPort<PeerStreams<C>>, Global>,
    speaker: Speaker,
}

/// Starts the thread that accepts connections at the peer port of server `id` and brings what they send to the server.
/// Fails only if memory or threads run out.
pub(crate) fn open_peer_listener<R: Wait + Threads + Clock + Copy + Drop + Send + Sync + 'static>(
    rt: R,
    alloc: Global,
    listener: TcpListener,
    shared_port: &Arc<PeerPort<PeerStreams<R>>, Global>,
    arrivals: &Arc<Arrivals, Global>,
    guest_room: &Arc<GuestRoom<R>, Global>,
    line_sender: &LineSender,
) -> Result<JoinHandle<()>, AllocError> {
    let id = shared_port.host().id;
    let shared_port = Arc::try_clone(shared_port)?;
    let arrivals = Arc::try_clone(arrivals)?;
    let shared_parts = PeerListener {
        id,
        alloc,
        shared_port,
        arrivals,
        pending_connections: PendingConnections::new(alloc),
        masters: PendingConnections::new(alloc),
        greeter: Greeter::new(id),
        guest_room: Arc::try_clone(guest_room)?,
        line_sender: line_sender.share()?,
    };
    start_accepting(rt, Arc::new(alloc, shared_parts)?, listener)
}

// What the threads of a peer port share, as those who start them see it. It holds a lease that threads share. That it
// may go to another thread isn't found by itself, and is shown once, where `start_accepting` is called.
trait Shared {
    fn id(&self) -> u8;

    fn alloc(&self) -> Global;

    fn pending_connections(&self) -> &PendingConnections;

    fn line_sender(&self) -> &LineSender;

    // Waits for a greeting and answers it. Who is accepted is served as long as it keeps the rules.
    fn attend<R: Wait + Clock>(&self, rt: &R, number: u64, stream: &Arc<TcpStream, Global>);
}

// Accepts connections on a thread of its own.
fn start_accepting<
    R: Wait + Threads + Clock + Copy + Drop + Send + 'static,
    D: Shared + Drop + Send + Sync + 'static,
>(
    rt: R,
    shared_parts: Arc<D, Global>,
    listener: TcpListener,
) -> Result<JoinHandle<()>, AllocError> {
    match thread::spawn(&rt, move || accept_all(rt, listener, &shared_parts)) {
        Ok(thread) => Ok(thread),
        Err(refused) => {
            drop(refused);
            Err(AllocError)
        }
    }
}

// Accepts one connection after another.
fn accept_all<
    R: Wait + Threads + Clock + Copy + Drop + Send + 'static,
    D: Shared + Drop + Send + Sync + 'static,
>(rt: R, listener: TcpListener, shared_parts: &Arc<D, Global>) {
    let mut refusals = Refusals::new(shared_parts.id());
    let mut number = 0u64;
    for stream in listener.incoming() {
        match stream {
            Ok(stream) => {
                number = number.wrapping_add(1);
                if receive(rt, shared_parts, number, stream).is_err() {
                    refusals.tell_no_thread(&rt, shared_parts.line_sender());
                }
            }
            Err(fault) => {
                refusals.tell(&rt, shared_parts.line_sender(), &fault);
                thread::sleep(&rt, Duration::from_millis(PAUSE));
            }
        }
    }
}

// Serves a connection on a thread of its own. Without one it is closed at once.
fn receive<
    R: Wait + Threads + Clock + Copy + Drop + Send + 'static,
    D: Shared + Drop + Send + Sync + 'static,
>(rt: R, shared_parts: &Arc<D, Global>, number: u64, stream: TcpStream) -> Result<(), AllocError> {
    keep_alive(&stream);
    let _ = stream.set_nodelay(true);
    let stream = Arc::new(shared_parts.alloc(), stream)?;
    let shared = Arc::try_clone(shared_parts)?;
    shared_parts
        .pending_connections()
        .admit(&rt, number, &stream)?;
    match thread::spawn(&rt, move || shared.attend(&rt, number, &stream)) {
        Ok(thread) => {
            drop(thread);
            Ok(())
        }
        Err(refused) => {
            shared_parts.pending_connections().release(&rt, number);
            drop(refused);
            Err(AllocError)
        }
    }
}

impl<C: Clock + Drop> Shared for PeerListener<C> {
    fn id(&self) -> u8 {
        self.id
    }

    fn alloc(&self) -> Global {
        self.alloc
    }

    fn pending_connections(&self) -> &PendingConnections {
        &self.pending_connections
    }

    fn line_sender(&self) -> &LineSender {
        &self.line_sender
    }

    fn attend<R: Wait + Clock>(&self, rt: &R, number: u64, stream: &Arc<TcpStream, Global>) {
        let greeting = read_greeting(rt, self.alloc, stream);
        if !self.pending_connections.release(rt, number) {
            drop(greeting);
            return;
        }
        match greeting {
            Greeting::Whole(id, opener) => {
                self.answer(rt, number, id, &opener, stream);
                drop(opener);
            }
            Greeting::Short(id) => {
                let _ = stream.set_read_timeout(None);
                self.refuse(rt, id, Reason::Format, stream);
            }
            Greeting::Old => tell_old(rt, &self.line_sender, self.id),
            Greeting::Nothing => {}
        }
    }
}

impl<C: Clock + Drop> PeerListener<C> {
    // Refuses who greets with this id.
    fn refuse<R: Wait + Clock>(&self, rt: &R, id: u8, reason: Reason, stream: &TcpStream) {
        self.greeter
            .refuse(rt, &self.line_sender, self.alloc, id, reason, stream);
    }

    // Answers who greets with this id.
    fn answer<R: Wait + Clock>(
        &self,
        rt: &R,
        number: u64,
        id: u8,
        opener: &Introduction,
        stream: &Arc<TcpStream, Global>,
    ) {
        let Ok(shared_port) = Arc::try_clone(&self.shared_port) else {
            return;
        };
        match self.greet(rt, number, id, opener) {
            Some(Ok((speaker, acceptance))) => {
                let handed = speaker.handed();
                if self.greeter.accept(self.alloc, acceptance, handed, stream) {
                    let accepted = Accepted {
                        shared_port,
                        speaker,
                    };
                    self.receive(rt, number, id, opener.start, handed, accepted, stream);
                } else {
                    self.shared_port.give_back(rt, speaker);
                    self.arrivals.lost(rt, id, "broke");
                }
            }
            Some(Err(reason)) => self.refuse(rt, id, reason, stream),
            None => {}
        }
    }

    // Greets. If a connection of the same start of a server stands, that one is ended first, and waited for. None if a
    // later one stands, or the one before isn't given up in time: whoever opened this one tries again.
    fn greet<R: Wait + Clock>(
        &self,
        rt: &R,
        number: u64,
        id: u8,
        opener: &Introduction,
    ) -> Option<Result<(Speaker, Acceptance), Reason>> {
        for _ in 0..TRIES {
            match self.shared_port.greet(rt, self.alloc, id, opener) {
                Err(Reason::Taken) => {
                    let incoming = self.shared_port.link_control().incoming();
                    match incoming.make_room(rt, id, opener.start, number) {
                        Vacancy::Soon => thread::sleep(rt, Duration::from_millis(1)),
                        Vacancy::Later => return None,
                        Vacancy::OtherStart => return Some(Err(Reason::Taken)),
                    }
                }
                other => return Some(other),
            }
        }
        None
    }

    // Serves who was accepted with this id, at this start.
    fn receive<R: Wait + Clock>(
        &self,
        rt: &R,
        number: u64,
        id: u8,
        start: u64,
        handed: Option<u64>,
        accepted: Accepted<C>,
        stream: &Arc<TcpStream, Global>,
    ) {
        let name = Name::new(id);
        match name {
            Name::Server(id) => {
                self.arrivals.here(rt, id, start);
                self.hand_over(rt, id, start, number, handed.unwrap_or(0), accepted, stream);
            }
            Name::Master => {
                if self.masters.admit(rt, number, stream).is_ok() {
                    self.serve_master(rt, accepted, stream);
                    self.masters.release(rt, number);
                } else {
                    drop(accepted);
                }
            }
        }
    }

    // Hands the connection of another server to the thread that reads it, once this one is ready.
    fn hand_over<R: Wait + Clock>(
        &self,
        rt: &R,
        j: u8,
        start: u64,
        number: u64,
        handed: u64,
        accepted: Accepted<C>,
        stream: &Arc<TcpStream, Global>,
    ) {
        let Accepted {
            shared_port,
            speaker,
        } = accepted;
        let incoming = self.shared_port.link_control().incoming();
        let (Ok(handed), Ok(shared), Ok(clone)) = (
            incoming.open(rt, j, start, number, stream, handed),
            Arc::try_clone(stream),
            stream.try_clone(),
        ) else {
            self.shared_port.give_back(rt, speaker);
            drop(shared_port);
            return;
        };
        let sink = TrackedWriter::new(clone);
        let connection = PeerConnection::new(self.alloc, shared_port, speaker, sink);
        let mut guest = Guest {
            j,
            number,
            stream: shared,
            reader: PeerReader::new(self.alloc),
            has_more: false,
            was_full: false,
            speaks: ReportedConnection::new(connection, None),
            handed,
        };
        if let Some(end) = self.hears_early(rt, &mut guest) {
            let refused = guest.speaks.refused();
            self.shared_port.give_back(rt, guest.leave(rt, incoming));
            self.note_lost(rt, j, refused, end);
            return;
        }
        let _ = stream.set_nonblocking(true);
        if self.guest_room.hand_over(rt, guest).is_err() {
            self.shared_port.stop(rt);
            self.shared_port.link_control().bell().ring();
        }
    }

    // Hears a guest until all servers have connected. How it ends, if it ends before.
    fn hears_early<R: Wait + Clock>(
        &self,
        rt: &R,
        guest: &mut Guest<C>,
    ) -> Option<Result<PeerEnd, LinkFault>> {
        if self.arrivals.is_ready(rt) {
            return None;
        }
        let pause = Some(Duration::from_millis(EARLY));
        let Ok(mut piece) = Vec::from_elem(self.alloc, 0u8, PIECE) else {
            return Some(Err(LinkFault::Memory));
        };
        if guest.stream.set_read_timeout(pause).is_err() {
            return Some(Err(LinkFault::Read));
        }
        let incoming = self.shared_port.link_control().incoming();
        for _ in rt.forever() {
            let (end, _) = guest.hear(rt, piece.as_mut_slice(), incoming);
            incoming.confirm(rt);
            if end.is_some() {
                return end;
            }
            if self.arrivals.is_ready(rt) {
                return None;
            }
        }
        unreachable!()
    }

    // Serves a master that was accepted.
    fn serve_master<R: Wait>(&self, rt: &R, accepted: Accepted<C>, stream: &TcpStream) {
        let Accepted {
            shared_port,
            speaker,
        } = accepted;
        let Ok(bell) = self.shared_port.link_control().bell().share() else {
            drop(shared_port);
            drop(speaker);
            return;
        };
        let mut source = TrackedReader::new(stream);
        let sink = TrackedWriter::new(stream);
        let peer_connection = PeerConnection::new(self.alloc, shared_port, speaker, sink);
        let still_links = self.shared_port.link_control().still_links();
        let answered = AnsweredMaster::new(self.alloc, peer_connection, still_links, stream);
        let mut peer_connection = ReportedConnection::new(answered, Some(bell));
        let end = serve_peer(rt, self.alloc, &mut source, &mut peer_connection);
        if let Some(reason) = why_ended(Name::Master, peer_connection.refused(), end) {
            tell_master(rt, &self.line_sender, self.id, reason);
        }
        drop(peer_connection);
    }

    // Another server isn't heard any more. Before this one is ready another thread tells of it; then it is told here,
    // unless the link goes on over another connection, or the other server was called gone.
    fn note_lost<R: Wait>(
        &self,
        rt: &R,
        j: u8,
        refused: Option<Kind>,
        end: Result<PeerEnd, LinkFault>,
    ) {
        let Some(reason) = why_ended(Name::Server(j), refused, end) else {
            return;
        };
        let is_early = self.arrivals.lost(rt, j, reason);
        if !is_early && !heals(end) && !self.shared_port.link_control().is_gone(j) {
            tell_from(rt, &self.line_sender, self.id, j, reason);
        }
    }
}
