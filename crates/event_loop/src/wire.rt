//! A node of bytes in an event loop.
use crate::link_error::LinkError;
use crate::loop_node::LoopNode;
use node_names::{Dice, NodeName};
use protocol::Core;
use rand_core::Rng;
use std::alloc::{AllocError, Allocator};
use std::net::SocketAddr;
use wire_node::{ConnectionId, DiceSource, ReceiveError, Record, WireError, WireNode};

/// Draws the dice of frames from a generator.
#[derive(Drop)]
struct Drawn<'a, G> {
    generator: &'a mut G,
}

impl<G: Rng> DiceSource for Drawn<'_, G> {
    ghost use Rattle.event_loop.specs.Drawing.{drawn};

    ghost to_come = { λ source. drawn (G.stream source.generator.now) };

    fn draw(&mut self) -> Dice {
        Dice::draw(self.generator)
    }
}

impl<A: Allocator + Copy, R: Record<A> + Drop> LoopNode<A> for WireNode<A, R> {
    fn accept(&mut self) -> Result<ConnectionId, WireError> {
        self.accept()
    }

    fn receive<G: Rng>(
        &mut self,
        id: ConnectionId,
        bytes: &[u8],
        generator: &mut G,
    ) -> Result<(), ReceiveError> {
        self.receive(id, bytes, &mut Drawn { generator })
    }

    fn ended(&mut self, id: ConnectionId, dice: &Dice) -> Result<(), WireError> {
        self.ended(id, dice)
    }

    fn unreachable(&mut self, name: NodeName, dice: &Dice) -> Result<(), WireError> {
        self.unreachable(name, dice)
    }

    fn join(&mut self, contact: NodeName, dice: &Dice) -> Result<(), WireError> {
        self.join(contact, dice)
    }

    fn tick(&mut self, dice: &Dice) -> Result<(), WireError> {
        self.tick(dice)
    }

    fn ask_on<G: Rng>(&mut self, generator: &mut G) -> Result<(), WireError> {
        if self.is_asking() {
            self.ask_on(&Dice::draw(generator))?;
        }
        Ok(())
    }

    fn receivers(&self) -> Result<Vec<NodeName, A>, AllocError> {
        self.receivers()
    }

    fn waiting(&self, name: &NodeName) -> usize {
        self.waiting(name)
    }

    fn transmit(&self, name: &NodeName) -> [&[u8]; 4] {
        self.transmit(name)
    }

    fn transmitted(&mut self, name: &NodeName, count: usize) {
        self.transmitted(name, count);
    }

    fn take_lost(&mut self) -> Vec<NodeName, A> {
        self.take_lost()
    }

    fn is_peer(&self, name: &NodeName) -> bool {
        self.core().active().contains(name)
    }

    fn is_alone(&self) -> bool {
        self.core().active().is_empty()
    }

    fn hears_pulses(&self) -> bool {
        false
    }

    fn came(&mut self, _id: ConnectionId, _from: SocketAddr) {}

    fn address_of(&self, _name: &NodeName) -> Option<SocketAddr> {
        None
    }

    fn opens(&mut self, _name: NodeName) -> Result<(), AllocError> {
        Ok(())
    }

    fn closed(&mut self, _name: &NodeName) {}

    fn failed(&mut self, _name: NodeName, _fault: LinkError) {}
}
