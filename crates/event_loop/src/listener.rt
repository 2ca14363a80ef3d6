//! Where a node takes connections.
ghost use Rattle.std.specs.Prelude.{◌≤◌};
ghost use Rattle.event_loop.specs.declared.listener.TheConstants.{CONNECTIONS};

use mio::net::{TcpListener, TcpStream};
use std::io;
use std::net::SocketAddr;
use wire_node::ConnectionId;

/// How many connections of a node are open at most that came in. More wait at its listener until one of these is
/// closed.
pub const CONNECTIONS: usize = 1_024;

/// Where a node takes connections, and how many are open.
#[derive(Drop)]
pub(crate) struct Listener {
    socket: TcpListener,
    /// The node's number for the next connection. It is asked for first, so that no connection is taken in vain.
    next: Option<ConnectionId>,
    /// How many connections are open.
    opened: usize,
    ghost few: { opened ≤ CONNECTIONS },
}

impl Listener {
    /// Makes a listener without connections.
    pub(crate) fn new(socket: TcpListener) -> Listener {
        Listener {
            socket,
            next: None,
            opened: 0,
        }
    }

    /// Where it listens.
    pub(crate) fn address(&self) -> io::Result<SocketAddr> {
        self.socket.local_addr()
    }

    /// Whether as many connections are open as may be.
    pub(crate) fn is_full(&self) -> bool {
        self.opened >= CONNECTIONS
    }

    /// The node's number for the next connection, if it was asked for.
    pub(crate) fn next(&self) -> Option<ConnectionId> {
        self.next
    }

    /// Keeps the node's number for the next connection.
    pub(crate) fn keep(&mut self, id: ConnectionId) {
        self.next = Some(id);
    }

    /// Takes a connection that waits, and returns where it comes from too.
    pub(crate) fn accept(&self) -> io::Result<(TcpStream, SocketAddr)> {
        self.socket.accept()
    }

    /// Counts a connection that was opened under the next number. Returns whether there was room for it.
    pub(crate) fn open(&mut self) -> bool {
        if self.opened >= CONNECTIONS {
            return false;
        }
        self.opened += 1;
        self.next = None;
        true
    }

    /// Counts a connection that was closed.
    pub(crate) fn close(&mut self) {
        self.opened = self.opened.saturating_sub(1);
    }
}
