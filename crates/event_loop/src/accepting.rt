//! Taking connections.
use crate::connection::Connection;
use crate::error::LoopError;
use crate::event_loop::EventLoop;
use crate::loop_node::LoopNode;
use crate::resolve::Resolve;
use crate::source::Source;
use mio::Interest;
use mio::net::TcpStream;
use std::alloc::Allocator;
use std::io::ErrorKind;
use std::net::SocketAddr;
use wire_node::ConnectionId;

/// Whether an error of this kind concerns only the connection that would have been taken, so that others may wait.
fn is_of_peer(kind: ErrorKind) -> bool {
    matches!(
        kind,
        ErrorKind::ConnectionAborted | ErrorKind::ConnectionReset | ErrorKind::Interrupted
    )
}

/// How many connections of each node a turn takes at most.
const ACCEPTS: usize = 16;

impl<N: LoopNode<A>, S: Resolve + Drop, A: Allocator + Copy> EventLoop<N, S, A> {
    /// Takes connections that wait at the listeners that are queued.
    pub(crate) fn accept_all(&mut self) -> Result<(), LoopError> {
        for _ in 0..self.listeners.queued() {
            let Some(place) = self.listeners.take_first() else {
                return Ok(());
            };
            let accepted = self.accept_some(place);
            if !matches!(accepted, Ok(false)) {
                self.listeners.queue(place);
            }
            accepted?;
        }
        Ok(())
    }

    /// Takes connections that wait at the listener of this place. Returns whether more may wait. Where the system
    /// refuses one, the next tick tries again.
    fn accept_some(&mut self, place: usize) -> Result<bool, LoopError> {
        for _ in 0..ACCEPTS {
            if !self.accept_one(place)? {
                return Ok(false);
            }
        }
        Ok(true)
    }

    /// Takes a connection that waits at the listener of this place, if there is one, and room for it. Returns whether
    /// more may wait. Where an allocation is refused, none is taken.
    fn accept_one(&mut self, place: usize) -> Result<bool, LoopError> {
        self.connections.reserve()?;
        let Some(id) = self.next_id(place)? else {
            return Ok(false);
        };
        let Some(listener) = self.listeners.get(place) else {
            return Ok(false);
        };
        match listener.accept() {
            Ok((stream, from)) => {
                self.admit(place, stream, id, from)?;
                Ok(true)
            }
            Err(error) => Ok(is_of_peer(error.kind())),
        }
    }

    /// The node's number for the next connection, unless it has as many as it may.
    fn next_id(&mut self, place: usize) -> Result<Option<ConnectionId>, LoopError> {
        let Some(listener) = self.listeners.get_mut(place) else {
            return Ok(None);
        };
        if listener.is_full() {
            return Ok(None);
        }
        if let Some(id) = listener.next() {
            return Ok(Some(id));
        }
        let Some(hosted) = self.nodes.get_mut(place) else {
            return Ok(None);
        };
        let id = hosted.node.accept()?;
        listener.keep(id);
        Ok(Some(id))
    }

    /// Has the poll watch a connection, keeps it, and tells the node where it comes from. One that cannot be watched is
    /// closed.
    fn admit(
        &mut self,
        owner: usize,
        stream: TcpStream,
        id: ConnectionId,
        from: SocketAddr,
    ) -> Result<(), LoopError> {
        let interest = self.interest_of(owner);
        let mut stream = stream;
        let Some(token) = Source::Connection(self.connections.next_place()).token() else {
            return Ok(());
        };
        if self
            .poll
            .registry()
            .register(&mut stream, token, interest)
            .is_err()
        {
            return Ok(());
        }
        if !self.count_open(owner) {
            return Ok(());
        }
        let connection = Connection::new(stream, owner, id, self.now);
        self.connections.insert(connection)?;
        if let Some(hosted) = self.nodes.get_mut(owner) {
            hosted.node.came(id, from);
        }
        Ok(())
    }

    /// What the poll is to tell of a connection of the node at this place.
    fn interest_of(&self, owner: usize) -> Interest {
        if self.answers(owner) {
            Interest::READABLE.add(Interest::WRITABLE)
        } else {
            Interest::READABLE
        }
    }

    /// Counts a connection of the node at this place. Returns whether there is room for it.
    fn count_open(&mut self, owner: usize) -> bool {
        match self.listeners.get_mut(owner) {
            Some(listener) => listener.open(),
            None => false,
        }
    }
}
