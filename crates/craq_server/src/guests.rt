//! Guests: the other servers, whose sockets the first serving thread reads.

use crate::link_lines::tell_from;
use crate::link_threads::bit;
use crate::peer_streams::PeerStreams;
use crate::received_links::ReceivedLinks;
use crate::reported_connections::{Name, ReportedConnection, why_ended};
use ends::TrackedWriter;
use io_threads::{Guests, LoopHandles};
use lines::LineSender;
use links::{PeerConnection, PeerPort, Speaker};
use mio::unix::SourceFd;
use mio::{Interest, Registry, Token};
use peers::{HandedOn, LinkFault, PeerEnd, PeerReader};
use std::alloc::{AllocError, Global};
use std::io::{ErrorKind, Read};
use std::mem;
use std::net::{Shutdown, TcpStream};
use std::os::fd::AsRawFd;
use std::sync::atomic::{AtomicU64, Ordering};
use std::sync::{Arc, Mutex, Wait};
use std::time::Clock;

/// The most frames of a guest that are handed on before turns are taken: the inbox has room for these, and who takes
/// turns mustn't wait for room that only turns make.
const FRAMES: usize = 64;

/// Who speaks at the peer port.
pub(crate) type Speaks<R> = ReportedConnection<
    PeerConnection<PeerStreams<R>, TrackedWriter<TcpStream>>,
>;

/// Another server that speaks.
#[derive(Drop)]
pub(crate) struct Guest<R: Clock + Drop> {
    /// The server.
    pub(crate) j: u8,
    /// The number of its connection.
    pub(crate) number: u64,
    pub(crate) stream: Arc<TcpStream, Global>,
    pub(crate) reader: PeerReader,
    /// Whether it may have frames that came and weren't handed on.
    pub(crate) has_more: bool,
    /// Whether its socket may have more.
    pub(crate) was_full: bool,
    pub(crate) speaks: Speaks<R>,
    /// How many bytes were handed on.
    pub(crate) handed: Arc<AtomicU64, Global>,
}

impl<R: Clock + Drop> Guest<R> {
    /// Reads what stands there, up to some pieces, and brings it. It gives how the guest ends, if it does, and whether
    /// there may be more. What was handed on is to be confirmed.
    pub(crate) fn hear<W: Wait>(
        &mut self,
        rt: &W,
        piece: &mut [u8],
        incoming: &ReceivedLinks,
    ) -> (Option<Result<PeerEnd, LinkFault>>, bool) {
        let heard = self.read(rt, piece);
        if let Some(handed) = self.speaks.taker.handed() {
            let before = self.handed.load(Ordering::Relaxed);
            if before != handed {
                self.handed.store(handed, Ordering::SeqCst);
                incoming.note(handed.saturating_sub(before));
            }
        }
        heard
    }

    /// It isn't heard any more: its connection ends. Who spoke is given back.
    pub(crate) fn leave<W: Wait>(self, rt: &W, incoming: &ReceivedLinks) -> Speaker {
        let Guest {
            j,
            number,
            stream,
            reader,
            has_more: _,
            was_full: _,
            speaks,
            handed,
        } = self;
        let _ = stream.shutdown(Shutdown::Both);
        incoming.close(rt, j, number);
        drop(stream);
        drop(reader);
        drop(handed);
        speaks.into_taker().into_speaker()
    }

    // Hands on some frames; before that it reads, if all that came was handed on.
    fn read<W: Wait>(
        &mut self,
        rt: &W,
        piece: &mut [u8],
    ) -> (Option<Result<PeerEnd, LinkFault>>, bool) {
        if !self.has_more {
            let mut stream = &*self.stream;
            let n = match stream.read(piece) {
                Ok(0) => return (Some(Ok(PeerEnd::Input)), false),
                Ok(n) => n,
                Err(fault) if is_nothing(fault.kind()) => return (None, false),
                Err(_) => return (Some(Err(LinkFault::Read)), false),
            };
            if let Err(fault) = self.reader.feed(&piece[..n]) {
                return (Some(Err(fault)), false);
            }
            self.was_full = n == piece.len();
        }
        match self.reader.hand_on(rt, &mut self.speaks, FRAMES) {
            Ok(HandedOn::All) => {
                self.has_more = false;
                (None, self.was_full)
            }
            Ok(HandedOn::Part) => {
                self.has_more = true;
                (None, true)
            }
            Ok(HandedOn::End(end)) => (Some(Ok(end)), false),
            Err(fault) => (Some(Err(fault)), false),
        }
    }
}

/// Whether the link of a guest that ends so goes on over another connection: its server opens one.
pub(crate) fn heals(end: Result<PeerEnd, LinkFault>) -> bool {
    matches!(end, Ok(PeerEnd::Input) | Err(LinkFault::Read))
}

// Whether a socket only has nothing to read yet.
fn is_nothing(kind: ErrorKind) -> bool {
    kind == ErrorKind::WouldBlock || kind == ErrorKind::TimedOut
}

/// Those that the thread has yet to take in.
#[derive(Drop)]
pub(crate) struct GuestRoom<R: Clock + Drop> {
    alloc: Global,
    coming: Mutex<Vec<Guest<R>>>,
    loop_handles: Arc<LoopHandles, Global>,
}

/// Those that the thread reads.
#[derive(Drop)]
pub(crate) struct PeerGuests<R: Clock + Drop> {
    room: Arc<GuestRoom<R>, Global>,
    shared_port: Arc<PeerPort<PeerStreams<R>>, Global>,
    line_sender: LineSender,
    guests: Vec<Option<Guest<R>>>,
    // Those that may have more to read.
    ready: u64,
}

impl<R: Clock + Drop> GuestRoom<R> {
    pub(crate) fn new(alloc: Global, loop_handles: Arc<LoopHandles, Global>) -> GuestRoom<R> {
        GuestRoom {
            alloc,
            coming: Mutex::new(Vec::new(alloc)),
            loop_handles,
        }
    }

    /// Hands a guest to the first serving thread.
    pub(crate) fn hand_over<W: Wait>(&self, rt: &W, guest: Guest<R>) -> Result<(), AllocError> {
        let mut coming = self.coming.lock(rt);
        if coming.push(guest).is_err() {
            return Err(AllocError);
        }
        drop(coming);
        self.loop_handles.wake_all();
        Ok(())
    }
}

impl<R: Clock + Drop> PeerGuests<R> {
    pub(crate) fn new(
        alloc: Global,
        servers: u8,
        room: Arc<GuestRoom<R>, Global>,
        shared_port: Arc<PeerPort<PeerStreams<R>>, Global>,
        line_sender: LineSender,
    ) -> Result<PeerGuests<R>, AllocError> {
        let mut guests = Vec::new(alloc);
        for _ in 0..servers {
            guests.push(None)?;
        }
        Ok(PeerGuests {
            room,
            shared_port,
            line_sender,
            guests,
            ready: 0,
        })
    }

    // A guest isn't read any more.
    fn end<W: Wait>(&mut self, rt: &W, place: usize, end: Result<PeerEnd, LinkFault>) {
        let Some(slot) = self.guests.get_mut(place) else {
            return;
        };
        let Some(guest) = slot.take() else {
            return;
        };
        let j = guest.j;
        let refused = guest.speaks.refused();
        let control = self.shared_port.link_control();
        let speaker = guest.leave(rt, control.incoming());
        if let Err(LinkFault::Memory) = end {
            drop(speaker);
            self.shared_port.stop(rt);
        } else {
            self.shared_port.give_back(rt, speaker);
        }
        if let Some(reason) = why_ended(Name::Server(j), refused, end) {
            if !heals(end) && !control.is_gone(j) {
                tell_from(rt, &self.line_sender, self.shared_port.host().id, j, reason);
            }
        }
    }
}

impl<R: Clock + Drop> Guests for PeerGuests<R> {
    fn take_in(&mut self, registry: &Registry, first: usize) {
        let Some(mut coming) = self.room.coming.try_lock() else {
            self.room.loop_handles.wake_all();
            return;
        };
        let arrived = mem::replace(&mut *coming, Vec::new(self.room.alloc));
        drop(coming);
        for guest in arrived {
            let place = usize::from(guest.j);
            let fd = guest.stream.as_raw_fd();
            let _ = registry.register(
                &mut SourceFd(&fd),
                Token(first.wrapping_add(place)),
                Interest::READABLE,
            );
            match self.guests.get_mut(place) {
                Some(slot) => drop(slot.replace(guest)),
                None => drop(guest),
            }
            self.ready |= bit(place);
        }
    }

    fn note_ready(&mut self, place: usize) {
        self.ready |= bit(place);
    }

    fn is_busy(&self) -> bool {
        self.ready != 0
    }

    fn serve<W: Wait>(&mut self, rt: &W, piece: &mut [u8]) -> bool {
        if self.ready == 0 {
            return false;
        }
        let mut brought = false;
        for place in 0..self.guests.len() {
            let bit = bit(place);
            if self.ready & bit != 0 {
                self.ready &= !bit;
                let Some(slot) = self.guests.get_mut(place) else {
                    return brought;
                };
                if let Some(guest) = slot {
                    let incoming = self.shared_port.link_control().incoming();
                    let (end, more) = guest.hear(rt, piece, incoming);
                    brought = true;
                    if more {
                        self.ready |= bit;
                    }
                    if let Some(end) = end {
                        self.end(rt, place, end);
                    }
                }
            }
        }
        brought
    }
}
