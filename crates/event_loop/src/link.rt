//! A link that was dialled.
use crate::link_error::LinkError;
use crate::loop_node::LoopNode;
use mio::event::Event;
use mio::net::TcpStream;
use node_names::NodeName;
use std::alloc::Allocator;
use std::io;
use std::io::{ErrorKind, IoSlice};

/// A connection that was dialled, which is only written.
#[derive(Drop)]
pub(crate) struct Link {
    stream: TcpStream,
    /// The place of the node that dialled it.
    owner: usize,
    name: NodeName,
    /// Whether a write may take bytes. The poll tells only of changes, so this stays until a write takes none.
    is_ready: bool,
    /// Why the name cannot be reached, if dialling failed or the link has ended.
    error: Option<LinkError>,
    /// The tick of the loop in which it was dialled, or took bytes last.
    used: u64,
}

/// Writes the first of the bytes that wait for the name. Returns how many went out.
fn write_first<N: LoopNode<A>, A: Allocator + Copy>(
    stream: &TcpStream,
    node: &N,
    name: &NodeName,
) -> io::Result<usize> {
    let [first, second, third, fourth] = node.transmit(name);
    if first.is_empty() && second.is_empty() {
        return Ok(0);
    }
    stream.write_vectored(&[
        IoSlice::new(first),
        IoSlice::new(second),
        IoSlice::new(third),
        IoSlice::new(fourth),
    ])
}

/// Why a stream has ended of which the poll tells that.
fn error_of(stream: &mut TcpStream) -> LinkError {
    match stream.take_error() {
        Ok(Some(error)) | Err(error) => LinkError::System(error),
        Ok(None) => LinkError::Closed,
    }
}

impl Link {
    /// Makes a link to the name that is being dialled in this tick. A write tells whether it is connected already.
    pub(crate) fn new(stream: TcpStream, owner: usize, name: NodeName, now: u64) -> Link {
        Link {
            stream,
            owner,
            name,
            is_ready: true,
            error: None,
            used: now,
        }
    }

    /// The place of the node that dialled it.
    pub(crate) fn owner(&self) -> usize {
        self.owner
    }

    /// The name that it leads to.
    pub(crate) fn name(&self) -> NodeName {
        self.name
    }

    /// Whether the node is to be told that the name cannot be reached.
    pub(crate) fn is_over(&self) -> bool {
        self.error.is_some()
    }

    /// Why the name cannot be reached, if it is so.
    pub(crate) fn error(&self) -> Option<LinkError> {
        self.error
    }

    /// Whether it took no bytes when that was tried last, and no change was noted since.
    pub(crate) fn is_blocked(&self) -> bool {
        !self.is_ready
    }

    /// Whether it took no bytes for more than this number of ticks.
    pub(crate) fn is_idle(&self, now: u64, ticks: u64) -> bool {
        self.used.saturating_add(ticks) < now
    }

    /// Has the node be told that the name cannot be reached, and why. What ended the link first is told.
    pub(crate) fn end(&mut self, error: LinkError) {
        if self.error.is_none() {
            self.error = Some(error);
        }
    }

    /// Notes what the poll tells of it.
    pub(crate) fn note(&mut self, event: &Event) {
        if event.is_error() || event.is_read_closed() || event.is_write_closed() {
            let error = error_of(&mut self.stream);
            self.end(error);
        }
        if event.is_writable() {
            self.is_ready = true;
        }
    }

    /// Writes once of what waits for its name. Returns whether another write may take more.
    pub(crate) fn write<N: LoopNode<A>, A: Allocator + Copy>(
        &mut self,
        node: &mut N,
        now: u64,
    ) -> bool {
        if !self.is_ready || self.is_over() {
            return false;
        }
        match write_first(&self.stream, node, &self.name) {
            Ok(0) => false,
            Ok(count) => {
                node.transmitted(&self.name, count);
                self.used = now;
                true
            }
            Err(error) => self.may_write_after(error),
        }
    }

    /// Notes why a write took nothing. Returns whether the next may take some.
    fn may_write_after(&mut self, error: io::Error) -> bool {
        match error.kind() {
            ErrorKind::WouldBlock => self.is_ready = false,
            ErrorKind::Interrupted => return true,
            _ => self.end(LinkError::System(error)),
        }
        false
    }
}
