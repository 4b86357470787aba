//! Front ends over real sockets: few threads that serve many connections. Each port is one that nobody listens on.

use super::served::{Served, Serves, TakesTurns, open, open_served};
use io_threads::FrontEndSettings;
use std::alloc::Global;
use std::io::{ErrorKind, Read, Write};
use std::net::{Ipv4Addr, Net, TcpListener, TcpStream};
use std::sync::Wait;
use std::thread;
use std::thread::Threads;
use std::time::{Clock, Duration};

// How long a client waits for the next byte, in seconds, before it gives up.
const LIMIT: u64 = 50;

// How many threads of clients there are, and connections of each.
const CLIENTS: usize = 4;

const EACH: usize = 75;

/// How often a client tries to get in, and its pause after each try, in milliseconds.
pub const TRIES: usize = 700;

pub const PAUSE: u64 = 20;

pub const SET: &[u8] = b"set a 0 0 1\r\n1\r\n";

pub const STORED: &[u8] = b"STORED\r\n";

pub const GET: &[u8] = b"get b\r\n";

pub const NONE: &[u8] = b"END\r\n";

const TOO_MANY: &[u8] = b"SERVER_ERROR too many connections\r\n";

const NO_ROOM: &[u8] = b"SERVER_ERROR out of memory storing object\r\n";

/// A connection to this port.
pub fn client<R: Net<Listener = TcpListener, Stream = TcpStream>>(
    rt: &R,
    port: u16,
) -> Option<TcpStream> {
    let stream = TcpStream::connect(rt, (Ipv4Addr::LOCALHOST, port)).ok()?;
    let limit = Duration::from_secs(LIMIT);
    let is_set = stream.set_nodelay(true).is_ok() && stream.set_read_timeout(Some(limit)).is_ok();
    is_set.then_some(stream)
}

// Two connections to this port.
fn two_clients<R: Net<Listener = TcpListener, Stream = TcpStream>>(
    rt: &R,
    port: u16,
) -> Option<(TcpStream, TcpStream)> {
    let first = client(rt, port)?;
    let second = client(rt, port)?;
    Some((first, second))
}

// Whether these bytes come next.
fn says(stream: &mut TcpStream, text: &[u8]) -> bool {
    for wanted in text {
        let mut byte = [0u8];
        match stream.read(byte.as_mut_slice()) {
            Ok(1) if byte[0] == *wanted => {}
            _ => return false,
        }
    }
    true
}

/// Whether the request is taken, and these bytes come next.
pub fn answers(stream: &mut TcpStream, request: &[u8], reply: &[u8]) -> bool {
    stream.write_all(request).is_ok() && says(stream, reply)
}

// Whether the connection is closed without a further byte.
fn is_closed(stream: &mut TcpStream) -> bool {
    match stream.read([0u8].as_mut_slice()) {
        Ok(n) => n == 0,
        Err(e) => e.kind() == ErrorKind::ConnectionReset,
    }
}

// Many connections at the same time.
fn many<R: Net<Listener = TcpListener, Stream = TcpStream>>(
    rt: &R,
    alloc: Global,
    port: u16,
) -> Option<Vec<TcpStream>> {
    let mut streams = Vec::new(alloc);
    for _ in 0..EACH {
        streams.push(client(rt, port)?).ok()?;
    }
    Some(streams)
}

// What a connection asks for, at the key of its number.
#[derive(Clone, Copy)]
enum Ask {
    Set,
    Get,
}

impl Ask {
    fn request(self, alloc: Global, number: usize) -> Option<String> {
        let value = number.wrapping_add(1000);
        match self {
            Ask::Set => format!(in alloc; "set k{number} 0 0 4\r\n{value}\r\n").ok(),
            Ask::Get => format!(in alloc; "get k{number}\r\n").ok(),
        }
    }

    fn reply(self, alloc: Global, number: usize) -> Option<String> {
        let value = number.wrapping_add(1000);
        match self {
            Ask::Set => String::from_str(alloc, "STORED\r\n").ok(),
            Ask::Get => format!(in alloc; "VALUE k{number} 0 4\r\n{value}\r\nEND\r\n").ok(),
        }
    }

    // Whether the request is taken.
    fn is_sent(self, alloc: Global, number: usize, stream: &mut TcpStream) -> bool {
        match self.request(alloc, number) {
            Some(request) => stream.write_all(request.as_bytes()).is_ok(),
            None => false,
        }
    }

    // Whether the reply comes next.
    fn is_heard(self, alloc: Global, number: usize, stream: &mut TcpStream) -> bool {
        match self.reply(alloc, number) {
            Some(reply) => says(stream, reply.as_bytes()),
            None => false,
        }
    }
}

// Whether each connection's request is taken, and then each has its reply.
fn all_answer(alloc: Global, streams: &mut Vec<TcpStream>, from: usize, ask: Ask) -> bool {
    all_send(alloc, streams, from, ask) && all_hear(alloc, streams, from, ask)
}

fn all_send(alloc: Global, streams: &mut Vec<TcpStream>, from: usize, ask: Ask) -> bool {
    let mut number = from;
    for stream in streams.iter_mut() {
        if !ask.is_sent(alloc, number, stream) {
            return false;
        }
        number = number.wrapping_add(1);
    }
    true
}

fn all_hear(alloc: Global, streams: &mut Vec<TcpStream>, from: usize, ask: Ask) -> bool {
    let mut number = from;
    for stream in streams.iter_mut() {
        if !ask.is_heard(alloc, number, stream) {
            return false;
        }
        number = number.wrapping_add(1);
    }
    true
}

// Whether many connections at the same time each set their own key, and read it back.
fn read_back<R: Net<Listener = TcpListener, Stream = TcpStream>>(
    rt: &R,
    alloc: Global,
    port: u16,
    which: usize,
) -> bool {
    let from = which.wrapping_mul(EACH);
    let Some(mut streams) = many(rt, alloc, port) else {
        return false;
    };
    let set = all_answer(alloc, &mut streams, from, Ask::Set);
    let got = all_answer(alloc, &mut streams, from, Ask::Get);
    set && got
}

// What a server of some hundred connections allows.
const HUNDREDS: FrontEndSettings = FrontEndSettings {
    connections: 1024,
    serves: 300,
    dense: 8,
};

// Some hundred connections read back what they set.
fn some_hundred_read_back<
    R: Threads + Sync + Net<Listener = TcpListener, Stream = TcpStream>,
    S: Serves + Drop,
>(rt: &R, alloc: Global, served: Option<S>) -> bool {
    let Some(served) = served else {
        return false;
    };
    let passed = all_read_back(rt, alloc, served.port());
    served.end(rt);
    passed
}

fn all_read_back<R: Threads + Sync + Net<Listener = TcpListener, Stream = TcpStream>>(
    rt: &R,
    alloc: Global,
    port: u16,
) -> bool {
    let passed = thread::map_indices(
        rt,
        alloc,
        CLIENTS,
        &|which: usize| read_back(rt, alloc, port, which),
    );
    match passed {
        Ok(passed) => passed.iter().all(|passed| *passed),
        Err(_) => false,
    }
}

#[test]
fn one_thread_serves_some_hundred_connections(rt: HostRuntime) {
    let alloc = rt.alloc();
    let served = open_served(rt, alloc, 1, 1, HUNDREDS, None);
    assert!(rt; some_hundred_read_back(&rt, alloc, served));
}

#[test]
fn four_threads_serve_some_hundred_connections(rt: HostRuntime) {
    let alloc = rt.alloc();
    let served = open_served(rt, alloc, 1, 4, HUNDREDS, None);
    assert!(rt; some_hundred_read_back(&rt, alloc, served));
}

// A get beside a set that is held for ever is answered, by the same thread. Once the server is marked both connections
// are closed without a further byte, and a new one too.
fn held_call_blocks_none<
    R: Threads + Net<Listener = TcpListener, Stream = TcpStream>,
    S: Serves + Drop,
>(rt: &R, served: Option<S>) -> bool {
    let Some(served) = served else {
        return false;
    };
    let Some((mut first, mut second)) = two_clients(rt, served.port()) else {
        return false;
    };
    let sent = first.write_all(SET).is_ok();
    let answered = answers(&mut second, GET, NONE);
    served.fall_silent();
    let closed = is_closed(&mut first) && is_closed(&mut second);
    let refused = is_refused(rt, served.port(), b"");
    served.end(rt);
    sent && answered && closed && refused
}

// Whether a connection is closed after these bytes.
fn is_refused<R: Net<Listener = TcpListener, Stream = TcpStream>>(
    rt: &R,
    port: u16,
    told: &[u8],
) -> bool {
    match client(rt, port) {
        Some(mut stream) => says(&mut stream, told) && is_closed(&mut stream),
        None => false,
    }
}

#[test]
fn a_held_call_blocks_no_other(rt: HostRuntime) {
    let settings = FrontEndSettings {
        connections: 2,
        serves: 3,
        dense: 1,
    };
    let served = open_served(rt, rt.alloc(), 2, 1, settings, None);
    assert!(rt; held_call_blocks_none(&rt, served));
}

// A connection beyond the limit is told so and closed, and those within it go on. Once one of these is closed there is
// room for another.
fn one_is_too_many<R: Threads + Net<Listener = TcpListener, Stream = TcpStream>, S: Serves + Drop>(
    rt: &R,
    served: Option<S>,
) -> bool {
    let Some(served) = served else {
        return false;
    };
    let Some((mut first, mut second)) = two_clients(rt, served.port()) else {
        return false;
    };
    let within = answers(&mut first, GET, NONE) && answers(&mut second, GET, NONE);
    let refused = is_refused(rt, served.port(), TOO_MANY);
    let go_on = answers(&mut first, SET, STORED) && answers(&mut second, GET, NONE);
    let quit = first.write_all(b"quit\r\n").is_ok() && is_closed(&mut first);
    let room = is_answered(rt, served.port());
    drop(second);
    served.end(rt);
    within && refused && go_on && quit && room
}

// Whether a connection to this port is answered.
fn is_answered<R: Net<Listener = TcpListener, Stream = TcpStream>>(rt: &R, port: u16) -> bool {
    match client(rt, port) {
        Some(mut stream) => answers(&mut stream, GET, NONE),
        None => false,
    }
}

#[test]
fn a_connection_beyond_the_limit_is_refused(rt: HostRuntime) {
    let settings = FrontEndSettings {
        connections: 2,
        serves: 4,
        dense: 1,
    };
    let served = open_served(rt, rt.alloc(), 1, 2, settings, None);
    assert!(rt; one_is_too_many(&rt, served));
}

// A server without room refuses what stores, and answers all else.
fn stores_are_refused<
    R: Threads + Net<Listener = TcpListener, Stream = TcpStream>,
    S: Serves + Drop,
>(rt: &R, served: Option<S>) -> bool {
    let Some(served) = served else {
        return false;
    };
    let Some(mut only) = client(rt, served.port()) else {
        return false;
    };
    let refused = answers(&mut only, SET, NO_ROOM);
    let nothing = answers(&mut only, b"get a\r\n", NONE);
    let deleted = answers(&mut only, b"delete a\r\n", b"NOT_FOUND\r\n");
    drop(only);
    served.end(rt);
    refused && nothing && deleted
}

#[test]
fn without_room_a_store_is_refused(rt: HostRuntime) {
    let settings = FrontEndSettings {
        connections: 1,
        serves: 1,
        dense: 1,
    };
    let served = open_served(rt, rt.alloc(), 1, 1, settings, Some(0));
    assert!(rt; stores_are_refused(&rt, served));
}

// Clients that break their connections off while their calls are open make room for others. Each call of these waits
// for the only seat, and is answered once turns are taken.
fn one_that_breaks_off_makes_room<
    R: Wait
        + Threads
        + Clock
        + Net<Listener = TcpListener, Stream = TcpStream>
        + Copy
        + Drop
        + Send
        + 'static,
    T: TakesTurns + Drop + Send + 'static,
>(rt: R, alloc: Global, opened: Option<Served<T>>) -> bool {
    let Some(opened) = opened else {
        return false;
    };
    match after_two(&rt, opened.port) {
        Some((last, other)) => goes_on(&rt, opened.begin(rt, alloc), last, other),
        None => {
            drop(opened);
            false
        }
    }
}

// Two clients. The first was let in after two others had broken off, and its call is open.
fn after_two<R: Net<Listener = TcpListener, Stream = TcpStream> + Clock>(
    rt: &R,
    port: u16,
) -> Option<(TcpStream, TcpStream)> {
    let mut other = client(rt, port)?;
    if breaks_off(rt, port, &mut other) && breaks_off(rt, port, &mut other) {
        let mut last = enters(rt, port)?;
        return last.write_all(SET).is_ok().then_some((last, other));
    }
    None
}

// Whether the open call is answered, and a further one, and both connections are closed once the server is marked.
fn goes_on<R: Threads + Net<Listener = TcpListener, Stream = TcpStream>, S: Serves + Drop>(
    rt: &R,
    served: Option<S>,
    last: TcpStream,
    other: TcpStream,
) -> bool {
    let Some(served) = served else {
        return false;
    };
    let (mut last, mut other) = (last, other);
    let stored = says(&mut last, STORED) && answers(&mut last, GET, NONE);
    served.fall_silent();
    let closed = is_closed(&mut last) && is_closed(&mut other);
    use_up(rt, served.port());
    served.end(rt);
    stored && closed
}

// Whether a client was let in, and broke off while its call was open: by closing while what it was sent stood unread.
// Its call is open once another connection of the same thread is answered.
fn breaks_off<R: Net<Listener = TcpListener, Stream = TcpStream> + Clock>(
    rt: &R,
    port: u16,
    other: &mut TcpStream,
) -> bool {
    let Some(mut stream) = enters(rt, port) else {
        return false;
    };
    stream.write_all(GET).is_ok()
        && stream.peek([0u8].as_mut_slice()).is_ok()
        && stream.write_all(SET).is_ok()
        && answers(other, GET, NONE)
}

// A connection that was let in, after some that were not.
fn enters<R: Net<Listener = TcpListener, Stream = TcpStream> + Clock>(
    rt: &R,
    port: u16,
) -> Option<TcpStream> {
    for _ in 0..TRIES {
        let mut stream = client(rt, port)?;
        if answers(&mut stream, GET, NONE) {
            return Some(stream);
        }
        thread::sleep(rt, Duration::from_millis(PAUSE));
    }
    None
}

// Connects until nobody listens any more.
fn use_up<R: Net<Listener = TcpListener, Stream = TcpStream>>(rt: &R, port: u16) {
    for _ in 0..u64::MAX {
        if client(rt, port).is_none() {
            return;
        }
    }
}

#[test]
fn a_client_that_breaks_off_makes_room(rt: HostRuntime) {
    let settings = FrontEndSettings {
        connections: 2,
        serves: 3000,
        dense: 1,
    };
    let opened = open(rt, rt.alloc(), 1, 1, settings, None);
    assert!(rt; one_that_breaks_off_makes_room(rt, rt.alloc(), opened));
}
