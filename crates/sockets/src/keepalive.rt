//! TCP's own watch over quiet connections.
use libc::net;
use std::os::fd::AsRawFd;

/// After how many quiet seconds the other side is asked whether it is still there.
const IDLE: i32 = 30;

/// How many seconds pass between two such questions.
const PAUSE: i32 = 10;

/// After how many questions without an answer the connection is broken.
const QUESTIONS: i32 = 5;

/// Has the system ask the other side of a quiet connection whether it is still there, and break the connection if it
/// doesn't answer. It is left as it is if the system refuses. What a listener accepts is watched as the listener is.
pub fn keep_alive<S: AsRawFd>(socket: &S) {
    let socket = socket.as_raw_fd();
    let (on, idle, pause, questions) = (value(1), value(IDLE), value(PAUSE), value(QUESTIONS));
    unsafe {
        net::setsockopt(socket, net::SOL_SOCKET, net::SO_KEEPALIVE, &on, 4);
        net::setsockopt(socket, net::IPPROTO_TCP, net::TCP_KEEPIDLE, &idle, 4);
        net::setsockopt(socket, net::IPPROTO_TCP, net::TCP_KEEPINTVL, &pause, 4);
        net::setsockopt(socket, net::IPPROTO_TCP, net::TCP_KEEPCNT, &questions, 4);
    }
}

// The bytes of an option's value.
fn value(number: i32) -> [u8; 16] {
    let mut bytes = [0u8; 16];
    bytes[..4].copy_from_slice(&number.to_ne_bytes());
    bytes
}
