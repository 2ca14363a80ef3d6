//! The program of a loop whose nodes other threads use.
use crate::lane::Lane;
use crate::outbox::Outbox;
use crate::port::Port;
use crate::port_node::PortNode;
use crate::receiver::PortReceiver;
use crate::sender::PortSender;
use event_loop::{EventLoop, LoopError, LoopNode, Next, Program, Resolve, Situation};
use rtrb::RingBuffer;
use std::alloc::{AllocError, Allocator, Global};
use wire_node::{News, WireError};

/// The program of a loop whose nodes other threads use, each by a port. It ends the run once all ports are dropped and
/// what they handed in is broadcast.
#[derive(Drop)]
pub struct Ports<A: Allocator = Global> {
    alloc: A,
    /// The ends of the ports in the loop, at the places of their nodes.
    lanes: Vec<Option<Lane<A>>, A>,
    /// Why a broadcast was refused, which ended the run.
    error: Option<WireError>,
}

impl<A: Allocator + Copy> Ports<A> {
    /// Makes a program without ports.
    pub fn new(alloc: A) -> Ports<A> {
        Ports {
            alloc,
            lanes: Vec::new(alloc),
            error: None,
        }
    }

    /// Opens the port of the node at this place, by which at most `capacity` messages wait to be broadcast, and as many
    /// deliveries to be taken. It takes the place of a port of the node that was opened before, but for news, which
    /// that one still has until it is dropped. If the call is refused, nothing changes.
    pub fn open<N, S>(
        &mut self,
        event_loop: &EventLoop<N, S, A>,
        place: usize,
        capacity: usize,
    ) -> Result<Port<A>, LoopError>
    where
        N: LoopNode<A> + PortNode<A>,
        S: Resolve + Drop,
    {
        let (port, lane, _) = self.make(event_loop, place, capacity, 0)?;
        if let Some(kept) = self.lanes.get_mut(place) {
            let news = match kept {
                Some(before) => before.take_news(),
                None => None,
            };
            *kept = Some(lane.with_news(news));
        }
        Ok(port)
    }

    /// Opens such a port that has news of the node too: from now on the node tells them, and at most `capacity` wait in
    /// the port, the others in the loop. It takes the place of a port with its news. If the call is refused, nothing
    /// changes.
    pub fn open_with_news<N, S>(
        &mut self,
        event_loop: &mut EventLoop<N, S, A>,
        place: usize,
        capacity: usize,
    ) -> Result<Port<A>, LoopError>
    where
        N: LoopNode<A> + PortNode<A>,
        S: Resolve + Drop,
    {
        let (port, lane, news) = self.make(event_loop, place, capacity, capacity)?;
        if let Some(kept) = self.lanes.get_mut(place) {
            *kept = Some(lane.with_news(Some(news)));
        }
        if let Some(node) = event_loop.node_mut(place) {
            node.tell_news(true);
        }
        Ok(port)
    }

    /// Makes a port of the node at this place, whose ring of news has room for so many, and its ends in the loop.
    fn make<N, S>(
        &mut self,
        event_loop: &EventLoop<N, S, A>,
        place: usize,
        capacity: usize,
        news: usize,
    ) -> Result<(Port<A>, Lane<A>, Outbox<News, A>), LoopError>
    where
        N: LoopNode<A> + PortNode<A>,
        S: Resolve + Drop,
    {
        self.make_room(place)?;
        let waker = event_loop.waker(place)?;
        let other = event_loop.waker(place)?;
        let (broadcasts, handed_in) = RingBuffer::new(self.alloc, capacity)?;
        let (handed_out, deliveries) = RingBuffer::new(self.alloc, capacity)?;
        let (told, news) = RingBuffer::new(self.alloc, news)?;
        let port = Port::new(
            PortSender::new(broadcasts, waker),
            PortReceiver::new(deliveries, news, other),
        );
        let lane = Lane::new(self.alloc, handed_in, handed_out);
        Ok((port, lane, Outbox::new(self.alloc, told)))
    }

    /// Makes room for the port of the node at this place.
    fn make_room(&mut self, place: usize) -> Result<(), AllocError> {
        for _ in self.lanes.len()..place.saturating_add(1) {
            self.lanes.push(None)?;
        }
        Ok(())
    }

    /// Why a broadcast was refused, if that ended the run: all numbers of a node's messages are used up.
    pub fn error(&self) -> Option<WireError> {
        self.error
    }

    /// Does what is to be done for a node.
    fn serve<N: PortNode<A>>(&mut self, at: Situation, node: &mut N) -> Next {
        let Some(Some(lane)) = self.lanes.get_mut(at.place) else {
            node.take_deliveries();
            return Next::Wait;
        };
        match lane.turn(at.may_broadcast(), node) {
            Ok(next) => next,
            Err(error) => {
                self.error = Some(error);
                Next::End
            }
        }
    }
}

impl<N: PortNode<A>, A: Allocator + Copy> Program<N> for Ports<A> {
    fn turn(&mut self, at: Situation, node: &mut N) -> Next {
        let next = self.serve(at, node);
        if next != Next::End || self.error.is_some() {
            return next;
        }
        if let Some(lane) = self.lanes.get_mut(at.place) {
            *lane = None;
        }
        if self.lanes.iter().all(|lane| lane.is_none()) {
            Next::End
        } else {
            Next::Wait
        }
    }
}
