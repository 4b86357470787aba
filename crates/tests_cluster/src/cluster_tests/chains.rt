//! A chain and its clients.

use super::running::{Running, ready, status};
use std::io::Write;
use std::net::{Net, TcpListener, TcpStream};
use std::test::Fail;
use std::thread;
use std::thread::Threads;
use tests_support::{answers, client, has_line, is_closed, says};

// What was set at one server is read at the other.
#[test]
fn cluster_round_trip(rt: HostRuntime) -> Result<(), Fail> {
    let (running, port) = ready(rt, rt.alloc(), 2, 1).ok_or("a chain")?;
    assert!(rt; passes(&rt, port));
    assert_eq!(rt; status(&rt, running), 0);
    Ok(())
}

fn passes<R: Net<Listener = TcpListener, Stream = TcpStream>>(rt: &R, port: u16) -> bool {
    let Ok(mut second) = client(rt, port.wrapping_add(1)) else {
        return false;
    };
    let is_set = answers(&mut second, b"set a 0 0 1\r\n1\r\nquit\r\n", b"STORED\r\n");
    let Ok(mut first) = client(rt, port) else {
        return false;
    };
    is_set
        && answers(
            &mut first,
            b"get a\r\nquit\r\n",
            b"VALUE a 0 1\r\n1\r\nEND\r\n",
        )
}

// Four connections raise one counter at the same time, and no increment is lost.
#[test]
fn thousand_increments_each(rt: HostRuntime) -> Result<(), Fail> {
    let (running, port) = ready(rt, rt.alloc(), 3, 2).ok_or("a chain")?;
    assert!(rt; counts_them_all(&rt, port));
    assert_eq!(rt; status(&rt, running), 0);
    Ok(())
}

fn counts_them_all<R: Threads + Sync + Net<Listener = TcpListener, Stream = TcpStream>>(
    rt: &R,
    port: u16,
) -> bool {
    let Ok(mut first) = client(rt, port) else {
        return false;
    };
    answers(&mut first, b"set n 0 0 1\r\n0\r\n", b"STORED\r\n")
        && all_raise(rt, port, &mut first)
        && answers(&mut first, b"get n\r\n", b"VALUE n 0 4\r\n4000\r\nEND\r\n")
}

// Raises the counter at the head by this connection and another one, and at each other server by one.
fn all_raise<R: Threads + Sync + Net<Listener = TcpListener, Stream = TcpStream>>(
    rt: &R,
    port: u16,
    first: &mut TcpStream,
) -> bool {
    let Ok(mut second) = client(rt, port) else {
        return false;
    };
    let (at_head, beyond) = thread::join(
        rt,
        || both_raise(rt, first, &mut second),
        || both_raise_at(rt, port.wrapping_add(1), port.wrapping_add(2)),
    );
    at_head && beyond
}

fn both_raise<R: Threads>(rt: &R, first: &mut TcpStream, second: &mut TcpStream) -> bool {
    let (one, other) = thread::join(rt, || raises(first), || raises(second));
    one && other
}

fn both_raise_at<R: Threads + Sync + Net<Listener = TcpListener, Stream = TcpStream>>(
    rt: &R,
    first: u16,
    second: u16,
) -> bool {
    let (one, other) = thread::join(rt, || raises_at(rt, first), || raises_at(rt, second));
    one && other
}

// Whether a thousand increments are each answered by a line.
fn raises(stream: &mut TcpStream) -> bool {
    for _ in 0..1000 {
        if stream.write_all(b"incr n 1\r\n").is_err() || !has_line(stream) {
            return false;
        }
    }
    true
}

// Raises the counter at the server at this port. Another connection to it is closed at once.
fn raises_at<R: Net<Listener = TcpListener, Stream = TcpStream>>(rt: &R, port: u16) -> bool {
    let Ok(mut stream) = client(rt, port) else {
        return false;
    };
    let other = client(rt, port);
    raises(&mut stream) && other.is_ok()
}

// A connection to a server that was stopped is closed at its next call.
#[test]
fn stopped_server_falls_silent(rt: HostRuntime) -> Result<(), Fail> {
    let (mut running, port) = ready(rt, rt.alloc(), 2, 1).ok_or("a chain")?;
    assert!(rt; falls_silent(&rt, &mut running, port));
    assert!(rt; quits(&rt, port.wrapping_add(1)));
    assert_eq!(rt; status(&rt, running), 0);
    Ok(())
}

fn falls_silent<R: Net<Listener = TcpListener, Stream = TcpStream>>(
    rt: &R,
    running: &mut Running,
    port: u16,
) -> bool {
    let Ok(mut first) = client(rt, port) else {
        return false;
    };
    answers(&mut first, b"get a\r\n", b"END\r\n")
        && fails_the_head(running)
        && first.write_all(b"get a\r\n").is_ok()
        && is_closed(&mut first)
}

fn fails_the_head(running: &mut Running) -> bool {
    running.input.write_all(b"fail 0\n").is_ok() && says(&mut running.output, b"gone 0\n")
}

// Whether a client of the server at this port could say that it goes.
fn quits<R: Net<Listener = TcpListener, Stream = TcpStream>>(rt: &R, port: u16) -> bool {
    match client(rt, port) {
        Ok(mut stream) => stream.write_all(b"quit\r\n").is_ok(),
        Err(_) => false,
    }
}
