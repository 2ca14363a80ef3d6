//! Dialling links.
use crate::error::LoopError;
use crate::event_loop::EventLoop;
use crate::link::Link;
use crate::link_error::LinkError;
use crate::loop_node::LoopNode;
use crate::resolve::Resolve;
use crate::source::Source;
use mio::net::TcpStream;
use mio::{Interest, Registry};
use node_names::NodeName;
use std::alloc::{AllocError, Allocator};
use std::io;
use std::net::{Net, SocketAddr};

/// How many links a node has at most: to the 80 names that its views may have, and to others that it answers. Beyond
/// that a link is closed that is of no use any more; if there is none, the name counts as one that cannot be reached.
pub const LINKS: usize = 128;

/// What came of reaching a name.
#[derive(Clone, Copy)]
pub(crate) enum Reached {
    /// There is a link, at this place.
    Link(usize),
    /// Its address is being looked up.
    Awaited,
    /// It cannot be reached.
    Unreachable(LinkError),
}

/// Begins to connect to an address, for a writer that gathers bytes itself, so that each write is sent at once. Has the
/// poll watch the connection as the link at this place.
fn dial_at<R: Net>(
    rt: &R,
    registry: &Registry,
    at: SocketAddr,
    place: usize,
) -> io::Result<TcpStream> {
    let Some(token) = Source::Link(place).token() else {
        return Err(io::Error::from(io::ErrorKind::OutOfMemory));
    };
    let mut stream = TcpStream::connect(rt, at)?;
    stream.set_nodelay(true)?;
    registry.register(&mut stream, token, Interest::READABLE | Interest::WRITABLE)?;
    Ok(stream)
}

impl<N: LoopNode<A>, S: Resolve + Drop, A: Allocator + Copy> EventLoop<N, S, A> {
    /// Dials the name for the node at this place, unless there is a link to it. Where an allocation is refused, nothing
    /// is dialled.
    pub(crate) fn reach<R: Net>(
        &mut self,
        rt: &R,
        place: usize,
        name: NodeName,
    ) -> Result<Reached, LoopError> {
        if let Some(link) = self.link_to(place, &name) {
            return Ok(Reached::Link(link));
        }
        let Some(at) = self.address_of(place, &name) else {
            return Ok(if self.resolver.is_awaited(&name) {
                Reached::Awaited
            } else {
                Reached::Unreachable(LinkError::NoAddress)
            });
        };
        if !self.may_dial(place) {
            return Ok(Reached::Unreachable(LinkError::TooMany));
        }
        self.make_room(place, name)?;
        match dial_at(rt, self.poll.registry(), at, self.links.vacant_key()) {
            Ok(stream) => Ok(Reached::Link(self.keep_link(place, name, stream)?)),
            Err(error) => {
                self.close_link(place, &name);
                Ok(Reached::Unreachable(LinkError::System(error)))
            }
        }
    }

    /// The place of the link to the name of the node at this place, if there is one.
    fn link_to(&self, place: usize, name: &NodeName) -> Option<usize> {
        self.nodes.get(place)?.link_to(name)
    }

    /// Where the name takes connections, as the node at this place knows, or else the resolver.
    fn address_of(&mut self, place: usize, name: &NodeName) -> Option<SocketAddr> {
        match self.nodes.get(place)?.node.address_of(name) {
            Some(at) => Some(at),
            None => self.resolver.resolve(name),
        }
    }

    /// Whether the node at this place may have one more link. If it has as many as it may, one that is of no use now is
    /// closed for it.
    fn may_dial(&mut self, place: usize) -> bool {
        let Some(hosted) = self.nodes.get(place) else {
            return false;
        };
        if hosted.link_count() < LINKS {
            return true;
        }
        let Some(name) = hosted.unused_name() else {
            return false;
        };
        self.close_link(place, &name);
        true
    }

    /// Makes room for a link to the name of the node at this place, and has the node begin it.
    fn make_room(&mut self, place: usize, name: NodeName) -> Result<(), AllocError> {
        self.links.reserve(1)?;
        match self.nodes.get_mut(place) {
            Some(hosted) => {
                hosted.reserve()?;
                hosted.node.opens(name)
            }
            None => Ok(()),
        }
    }

    /// Keeps a link to the name, that is being dialled. Returns its place.
    fn keep_link(
        &mut self,
        place: usize,
        name: NodeName,
        stream: TcpStream,
    ) -> Result<usize, LoopError> {
        let link = self.links.insert(Link::new(stream, place, name, self.now))?;
        if let Some(hosted) = self.nodes.get_mut(place) {
            hosted.note(name, link)?;
        }
        Ok(link)
    }
}
