//! Introducing those of whom frames speak.
use crate::cluster_node::ClusterNode;
use crate::stepped_node::SteppedNode;
use frames::{BodyOf, Frame};
use handshake::{Address, Introduction, Outbound};
use node_names::NodeName;
use std::alloc::{AllocError, Allocator};
use std::net::SocketAddr;

impl<N: SteppedNode<A>, A: Allocator + Copy> ClusterNode<N, A> {
    /// Introduces those of whom the frames speak that the last steps sent, and notes these steps. The frames go out
    /// after this, so each name is introduced in front of the frame. An introduction for which memory is refused is
    /// left out.
    pub(crate) fn introduce(&mut self) {
        let made = self.node.take_steps();
        for step in made.steps.as_slice() {
            for (to, frame) in step.out.sends.as_slice() {
                self.introduce_for(to, frame);
            }
        }
        self.log.note(made);
    }

    /// Introduces those of whom the frame speaks to its receiver.
    fn introduce_for(&mut self, to: &NodeName, frame: &Frame<A>) {
        match frame.body() {
            BodyOf::ForwardJoin { new, .. } => self.introduce_all(to, &[*new]),
            BodyOf::Shuffle { origin, names, .. } => {
                self.introduce_all(to, &[*origin]);
                self.introduce_all(to, names.as_slice());
            }
            BodyOf::ShuffleReply { names } => self.introduce_all(to, names.as_slice()),
            _ => {}
        }
    }

    /// Introduces these names to the receiver, as far as their addresses are known.
    fn introduce_all(&mut self, to: &NodeName, names: &[NodeName]) {
        for name in names {
            if name != to && *name != self.identity.name {
                let _ = self.introduce_one(to, *name);
            }
        }
    }

    /// Introduces the name to the receiver, if its address is known.
    fn introduce_one(&mut self, to: &NodeName, name: NodeName) -> Result<(), AllocError> {
        match self.book.address_of(&name) {
            Some(at) => self.introduce_as(to, name, at),
            None => Ok(()),
        }
    }

    /// Introduces the name to the receiver, with this address.
    pub(crate) fn introduce_as(
        &mut self,
        to: &NodeName,
        name: NodeName,
        at: SocketAddr,
    ) -> Result<(), AllocError> {
        self.begin(*to)?;
        match self.links.get_mut(to) {
            Some(link) => link.introduce(&Introduction {
                name,
                at: Address::from(at),
            }),
            None => Ok(()),
        }
    }

    /// Begins what goes out over the link to the name, unless it was begun: a hello that is meant for it.
    pub(crate) fn begin(&mut self, name: NodeName) -> Result<(), AllocError> {
        if !self.links.contains_key(&name) {
            let link = Outbound::new(self.alloc, &self.identity.hello_to(name))?;
            self.links.insert(name, link)?;
        }
        Ok(())
    }
}
