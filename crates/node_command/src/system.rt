//! What a node needs of its system besides files, input and output.
use std::net::{Net, TcpListener, TcpStream};
use std::sync::Wait;
use std::thread::Threads;
use std::time::Clock;

/// A system with threads, a clock and TCP, like the host's runtime. Every type that has these is one.
///
/// Files, input and output are bounds of their own, since the prover does not cover a call that passes a runtime whose
/// parts are named as one that has them by a single bound.
pub trait System: Threads
    + Wait
    + Clock
    + Net<Listener = TcpListener, Stream = TcpStream>
    + Copy
    + Send
    + Drop
    + 'static {}

impl<R> System for R
where
    R: Threads
        + Wait
        + Clock
        + Net<Listener = TcpListener, Stream = TcpStream>
        + Copy
        + Send
        + Drop
        + 'static,
{}
