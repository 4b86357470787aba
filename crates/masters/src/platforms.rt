//! What a master runs on.

use std::net::{Net, TcpListener, TcpStream};
use std::sync::Wait;
use std::thread::Threads;
use std::time::Clock;

/// Threads, a clock and sockets: what a master needs of whatever it runs on.
pub trait Platform: Wait
    + Threads
    + Clock
    + Net<Listener = TcpListener, Stream = TcpStream>
    + Copy
    + Drop
    + Send
    + Sync
    + 'static {}

impl<
    R: Wait
        + Threads
        + Clock
        + Net<Listener = TcpListener, Stream = TcpStream>
        + Copy
        + Drop
        + Send
        + Sync
        + 'static,
> Platform for R {}
