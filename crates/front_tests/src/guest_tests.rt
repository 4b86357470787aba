//! Front ends whose first thread has guests.

use super::front_tests::{GET, NONE, PAUSE, SET, STORED, TRIES, answers, client};
use super::served::{Serves, open_with_guests};
use io_threads::{FrontEndSettings, Guests};
use mio::net::TcpStream as Stream;
use mio::{Interest, Registry, Token};
use std::alloc::Global;
use std::io::{Read, Write};
use std::net::{Ipv4Addr, Net, TcpListener, TcpStream};
use std::sync::atomic::{AtomicUsize, Ordering};
use std::sync::{Arc, Wait};
use std::thread;
use std::thread::Threads;
use std::time::{Clock, Duration};

const ONE: FrontEndSettings = FrontEndSettings {
    connections: 1,
    serves: 1,
    dense: 1,
};

// What the guest says.
const WORD: &[u8] = b"word";

// A guest, the only one, whose bytes are counted.
#[derive(Drop)]
struct Counted {
    // Until it is taken in.
    coming: Option<Stream>,
    stream: Option<Stream>,
    is_ready: bool,
    count: Arc<AtomicUsize, Global>,
}

impl Guests for Counted {
    fn take_in(&mut self, registry: &Registry, first: usize) {
        let Some(mut stream) = self.coming.take() else {
            return;
        };
        if registry
            .register(&mut stream, Token(first), Interest::READABLE)
            .is_ok()
        {
            self.stream = Some(stream);
        }
    }

    fn note_ready(&mut self, place: usize) {
        self.is_ready |= place == 0;
    }

    fn is_busy(&self) -> bool {
        self.is_ready
    }

    fn serve<W: Wait>(&mut self, _rt: &W, piece: &mut [u8]) -> bool {
        if !self.is_ready {
            return false;
        }
        let Some(stream) = &mut self.stream else {
            return false;
        };
        match stream.read(piece) {
            Ok(n) => {
                self.count.fetch_add(n, Ordering::SeqCst);
                true
            }
            Err(_) => {
                self.is_ready = false;
                false
            }
        }
    }
}

// A guest that has always more to read, and brings something each time.
#[derive(Drop)]
struct Endless;

impl Guests for Endless {
    fn take_in(&mut self, _registry: &Registry, _first: usize) {}

    fn note_ready(&mut self, _place: usize) {}

    fn is_busy(&self) -> bool {
        true
    }

    fn serve<W: Wait>(&mut self, _rt: &W, _piece: &mut [u8]) -> bool {
        true
    }
}

// Both ends of a connection.
fn two_ends<R: Net<Listener = TcpListener, Stream = TcpStream>>(
    rt: &R,
) -> Option<(TcpStream, Stream)> {
    let listener = TcpListener::bind(rt, (Ipv4Addr::LOCALHOST, 0)).ok()?;
    let port = listener.local_addr().ok()?.port();
    let near = client(rt, port)?;
    let (far, _) = listener.accept().ok()?;
    far.set_nonblocking(true).ok()?;
    Some((near, Stream::from_std(far)))
}

// Whether the bytes that a guest sends are read, and then turns are asked for, though no client has called.
fn guest_is_read<
    R: Wait
        + Threads
        + Clock
        + Net<Listener = TcpListener, Stream = TcpStream>
        + Copy
        + Drop
        + Send
        + 'static,
>(rt: R, alloc: Global) -> Option<bool> {
    let (mut near, far) = two_ends(&rt)?;
    let count = Arc::new(alloc, AtomicUsize::new(0)).ok()?;
    let guests = Counted {
        coming: Some(far),
        stream: None,
        is_ready: false,
        count: Arc::try_clone(&count).ok()?,
    };
    let served = open_with_guests(rt, alloc, 2, ONE, guests)?;
    served.wake();
    let is_said = near.write_all(WORD).is_ok();
    let is_heard = is_soon_heard(&rt, &served, &count);
    let is_answered = ends_after_one(&rt, served);
    Some(is_said && is_heard && is_answered)
}

// Whether the guest's bytes were read and turns asked for, within some seconds.
fn is_soon_heard<R: Clock, S: Serves>(rt: &R, served: &S, count: &AtomicUsize) -> bool {
    for _ in 0..TRIES {
        if count.load(Ordering::SeqCst) == WORD.len() && served.was_asked() {
            return true;
        }
        thread::sleep(rt, Duration::from_millis(PAUSE));
    }
    false
}

// Whether a client is answered, after which the server ends.
fn ends_after_one<R: Threads + Net<Listener = TcpListener, Stream = TcpStream>, S: Serves + Drop>(
    rt: &R,
    served: S,
) -> bool {
    let Some(mut only) = client(rt, served.port()) else {
        return false;
    };
    let is_answered = answers(&mut only, SET, STORED) && answers(&mut only, GET, NONE);
    drop(only);
    served.end(rt);
    is_answered
}

#[test]
fn a_guest_is_read_and_a_turn_is_due(rt: HostRuntime) {
    assert!(rt; guest_is_read(rt, rt.alloc()) == Some(true));
}

// Whether a client is answered by a thread that has an endless guest.
fn client_beside_guest<
    R: Wait
        + Threads
        + Clock
        + Net<Listener = TcpListener, Stream = TcpStream>
        + Copy
        + Drop
        + Send
        + 'static,
>(rt: R, alloc: Global) -> bool {
    match open_with_guests(rt, alloc, 1, ONE, Endless) {
        Some(served) => ends_after_one(&rt, served),
        None => false,
    }
}

#[test]
fn an_endless_guest_keeps_no_client_waiting(rt: HostRuntime) {
    assert!(rt; client_beside_guest(rt, rt.alloc()));
}
