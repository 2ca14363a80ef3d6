//! A connection that came in.
use crate::buffer::Buffer;
use crate::frame_place::FramePlace;
use crate::loop_node::LoopNode;
use mio::net::TcpStream;
use std::alloc::Allocator;
use std::io::{ErrorKind, Write};
use wire_node::ConnectionId;

/// What a read of a connection found.
#[derive(Clone, Copy, Debug, PartialEq, Eq)]
pub(crate) enum Found {
    /// This many bytes, which are in the buffer.
    Bytes(usize),
    /// None, but there may be some.
    Interruption,
    /// None, until the poll tells of a change.
    Nothing,
    /// That it is over.
    End,
}

/// A connection that came in. It is only read, unless its node answers over it.
#[derive(Drop)]
pub(crate) struct Connection {
    stream: TcpStream,
    /// The place of the node that it came to.
    owner: usize,
    id: ConnectionId,
    /// Whether it has ended, sent what is no frame, or kept the node waiting too long.
    is_over: bool,
    /// Whether bytes may wait that the program of its node holds.
    is_held: bool,
    /// Where in a frame its bytes stand, if any came.
    at: Option<FramePlace>,
    /// The tick of the loop in which it came, or in which the last frame ended.
    since: u64,
}

impl Connection {
    /// Makes a connection that came in this tick.
    pub(crate) fn new(stream: TcpStream, owner: usize, id: ConnectionId, now: u64) -> Connection {
        Connection {
            stream,
            owner,
            id,
            is_over: false,
            is_held: false,
            at: None,
            since: now,
        }
    }

    /// The place of the node that it came to.
    pub(crate) fn owner(&self) -> usize {
        self.owner
    }

    /// The node's number of it.
    pub(crate) fn id(&self) -> ConnectionId {
        self.id
    }

    /// Whether it is to be closed.
    pub(crate) fn is_over(&self) -> bool {
        self.is_over
    }

    /// Has it be closed.
    pub(crate) fn end(&mut self) {
        self.is_over = true;
    }

    /// Notes that bytes may wait that the program of its node holds.
    pub(crate) fn hold(&mut self) {
        self.is_held = true;
    }

    /// Notes that bytes are held no more. Returns whether they were.
    pub(crate) fn release(&mut self) -> bool {
        let was_held = self.is_held;
        self.is_held = false;
        was_held
    }

    /// Whether it owes bytes for more than this number of ticks: it sent none since it came, or not the rest of a
    /// frame. Where its node hears pulses, it also owes one in twice the time, so that whoever made it closes it first
    /// if it is of no use.
    pub(crate) fn is_stalled(&self, now: u64, ticks: u64, hears_pulses: bool) -> bool {
        let is_idle = match self.at {
            Some(place) => !place.is_within(),
            None => false,
        };
        let most = if is_idle {
            ticks.saturating_mul(2)
        } else {
            ticks
        };
        let owes = !is_idle || hears_pulses;
        owes && !self.is_held && self.since.saturating_add(most) < now
    }

    /// Reads once into the buffer.
    pub(crate) fn read<A: Allocator>(
        &mut self,
        buffer: &mut Buffer<A>,
        place: usize,
        now: u64,
    ) -> Found {
        match buffer.read(&mut self.stream, place) {
            Ok(0) => {
                self.is_over = true;
                Found::End
            }
            Ok(count) => {
                self.follow(buffer.rest(), now);
                Found::Bytes(count)
            }
            Err(error) => self.found(error.kind()),
        }
    }

    /// Writes once what its node answers over it. Returns whether the next write may take more.
    pub(crate) fn write<N: LoopNode<A>, A: Allocator + Copy>(
        &mut self,
        node: &mut N,
        now: u64,
    ) -> bool {
        if node.is_through(self.id) {
            self.is_over = true;
        }
        let bytes = node.answer(self.id);
        if self.is_over || bytes.is_empty() {
            return false;
        }
        match self.stream.write(bytes) {
            Ok(0) => {
                self.is_over = true;
                false
            }
            Ok(count) => {
                node.answered(self.id, count);
                self.since = now;
                true
            }
            Err(error) => self.may_write_after(error.kind()),
        }
    }

    /// Notes why a write took nothing. Returns whether the next may take some.
    fn may_write_after(&mut self, kind: ErrorKind) -> bool {
        match kind {
            ErrorKind::WouldBlock => false,
            ErrorKind::Interrupted => true,
            _ => {
                self.is_over = true;
                false
            }
        }
    }

    /// Follows the frames of these bytes.
    fn follow(&mut self, bytes: &[u8], now: u64) {
        let mut place = self.at.unwrap_or(FramePlace::FRONT);
        let began = !place.is_within();
        if place.pass(bytes) || began {
            self.since = now;
        }
        self.at = Some(place);
    }

    /// What a read found that brought nothing.
    fn found(&mut self, kind: ErrorKind) -> Found {
        match kind {
            ErrorKind::WouldBlock => Found::Nothing,
            ErrorKind::Interrupted => Found::Interruption,
            _ => {
                self.is_over = true;
                Found::End
            }
        }
    }
}
