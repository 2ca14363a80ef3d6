//! What a running node needs of its machine.
use std::net::{Net, TcpListener, TcpStream};
use std::sync::Wait;
use std::thread::Threads;
use std::time::Clock;

/// A machine with threads, locks, a clock and TCP, like the host's runtime. Every type that has these is one.
pub trait Machine: Threads
    + Wait
    + Clock
    + Net<Listener = TcpListener, Stream = TcpStream>
    + Copy
    + Send
    + Drop
    + 'static {}

impl<R> Machine for R
where
    R: Threads
        + Wait
        + Clock
        + Net<Listener = TcpListener, Stream = TcpStream>
        + Copy
        + Send
        + Drop
        + 'static,
{}
