//! The server of a node's pages, as the loop runs it.
use node_status::{Pages, Status};
use std::alloc::{AllocError, Global};
use std::hash::RandomState;
use wire_node::{ConnectionId, ReceiveError, WireError};

/// The server of a node's pages. It answers over the connections that come in.
#[derive(Drop)]
pub(crate) struct PageServer {
    alloc: Global,
    pages: Pages,
    /// How many connections came in.
    opened: u64,
}

impl PageServer {
    /// Makes a server without connections.
    pub(crate) fn new(alloc: Global, keys: RandomState) -> PageServer {
        PageServer {
            alloc,
            pages: Pages::new(alloc, keys),
            opened: 0,
        }
    }

    /// Answers what was asked.
    pub(crate) fn serve(&mut self, status: &Status) {
        if self.pages.is_asked() {
            self.pages.serve(status);
        }
    }

    /// Whether it was asked to have the node end.
    pub(crate) fn is_stopped(&self) -> bool {
        self.pages.is_stopped()
    }

    /// Takes a connection.
    pub(crate) fn accept(&mut self) -> Result<ConnectionId, WireError> {
        self.pages.open(self.opened)?;
        let id = ConnectionId(self.opened);
        self.opened = self.opened.saturating_add(1);
        Ok(id)
    }

    /// Takes bytes of a connection. One for which memory is refused is to be closed.
    pub(crate) fn receive(&mut self, id: ConnectionId, bytes: &[u8]) -> Result<(), ReceiveError> {
        match self.pages.receive(id.0, bytes) {
            Ok(()) => Ok(()),
            Err(AllocError) => Err(ReceiveError {
                taken: 0,
                error: WireError::NoConnection,
            }),
        }
    }

    /// Drops a connection.
    pub(crate) fn close(&mut self, id: ConnectionId) {
        self.pages.close(id.0);
    }

    /// What waits to go back over a connection.
    pub(crate) fn answer(&self, id: ConnectionId) -> &[u8] {
        self.pages.answer(id.0)
    }

    /// Notes that so many of these bytes went out.
    pub(crate) fn answered(&mut self, id: ConnectionId, count: usize) {
        self.pages.answered(id.0, count);
    }

    /// An empty list: a server of pages has no links, delivers nothing and has no news.
    pub(crate) fn nothing<T: Drop>(&self) -> Vec<T> {
        Vec::new(self.alloc)
    }

    /// Whether a connection is of no more use.
    pub(crate) fn is_through(&self, id: ConnectionId) -> bool {
        self.pages.is_through(id.0)
    }
}
