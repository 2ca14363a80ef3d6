//! Reading from connections.
use crate::connection::Found;
use crate::error::LoopError;
use crate::event_loop::EventLoop;
use crate::hosted_node::HostedNode;
use crate::loop_node::LoopNode;
use crate::ready_table::ReadyTable;
use crate::resolve::Resolve;
use node_names::Dice;
use std::alloc::Allocator;
use wire_node::{ReceiveError, WireError};

/// How many reads a turn makes of each connection at most.
const READS: usize = 16;

/// How many bytes a turn reads before it sends what they bring: half of what may wait for a name. So where each message
/// is short, a turn serves all connections that are ready, and no node hears of a message long after the others.
const TURN: usize = 4_194_304;

/// Whether the program holds what comes to the node at this place.
fn is_held<N: Drop, A: Allocator + Copy>(
    nodes: &ReadyTable<HostedNode<N, A>, A>,
    place: usize,
) -> bool {
    match nodes.get(place) {
        Some(hosted) => hosted.is_held,
        None => false,
    }
}

impl<N: LoopNode<A>, S: Resolve + Drop, A: Allocator + Copy> EventLoop<N, S, A> {
    /// Reads from the connections that are queued, each once at most, and closes those that are over.
    pub(crate) fn read_all(&mut self) -> Result<(), LoopError> {
        let mut left = TURN;
        for _ in 0..self.connections.queued() {
            if left == 0 {
                return Ok(());
            }
            let Some(place) = self.connections.take_first() else {
                return Ok(());
            };
            let served = self.serve_connection(place, &mut left);
            if !matches!(served, Ok(false)) {
                self.connections.queue(place);
            }
            served?;
        }
        Ok(())
    }

    /// Reads from the connection at this place, as long as bytes are left to be read, and closes it if it is over.
    /// Returns whether more may wait.
    fn serve_connection(&mut self, place: usize, left: &mut usize) -> Result<bool, LoopError> {
        for _ in 0..READS {
            if *left == 0 {
                return Ok(true);
            }
            match self.read_once(place)? {
                Found::Bytes(count) => *left = left.saturating_sub(count),
                Found::Interruption => {}
                Found::Nothing => return Ok(false),
                Found::End => {
                    self.close(place)?;
                    return Ok(false);
                }
            }
        }
        Ok(true)
    }

    /// Reads once from the connection at this place, and gives the node what came.
    fn read_once(&mut self, place: usize) -> Result<Found, LoopError> {
        let Some(connection) = self.connections.get_mut(place) else {
            return Ok(Found::Nothing);
        };
        if connection.is_over() {
            return Ok(Found::End);
        }
        if is_held(&self.nodes, connection.owner()) {
            connection.hold();
            return Ok(Found::Nothing);
        }
        let owner = connection.owner();
        let found = connection.read(&mut self.buffer, place, self.now);
        self.give()?;
        if found == Found::Nothing && self.answers(owner) {
            self.nodes.queue(owner);
        }
        Ok(found)
    }

    /// Gives the node the bytes of the last read that it has not taken yet.
    pub(crate) fn give(&mut self) -> Result<(), LoopError> {
        if self.buffer.rest().is_empty() {
            return Ok(());
        }
        match self.receive() {
            Ok(()) => self.buffer.clear(),
            Err(
                ReceiveError {
                    error: WireError::Frame(_) | WireError::NoConnection,
                    ..
                },
            ) => {
                self.buffer.clear();
                if let Some(connection) = self.connections.get_mut(self.buffer.place()) {
                    connection.end();
                }
            }
            Err(ReceiveError { taken, error }) => {
                self.buffer.skip(taken);
                return Err(LoopError::from(error));
            }
        }
        Ok(())
    }

    /// Has the node of the buffer's connection take the bytes in the buffer.
    fn receive(&mut self) -> Result<(), ReceiveError> {
        let Some(connection) = self.connections.get(self.buffer.place()) else {
            return Ok(());
        };
        self.nodes.queue(connection.owner());
        let Some(hosted) = self.nodes.get_mut(connection.owner()) else {
            return Ok(());
        };
        hosted
            .node
            .receive(connection.id(), self.buffer.rest(), &mut self.generator)
    }

    /// Closes the connection at this place, once its node was told.
    fn close(&mut self, place: usize) -> Result<(), LoopError> {
        let Some(connection) = self.connections.get(place) else {
            return Ok(());
        };
        let owner = connection.owner();
        if let Some(hosted) = self.nodes.get_mut(owner) {
            let dice = Dice::draw(&mut self.generator);
            match hosted.node.ended(connection.id(), &dice) {
                Ok(()) | Err(WireError::NoConnection) => {}
                Err(error) => return Err(LoopError::from(error)),
            }
        }
        self.connections.remove(place);
        self.nodes.queue(owner);
        if let Some(listener) = self.listeners.get_mut(owner) {
            listener.close();
        }
        self.listeners.queue(owner);
        Ok(())
    }
}
