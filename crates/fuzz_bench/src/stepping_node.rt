//! A node of bytes that notes its steps, as cases use it.
use bytes::Bytes;
use frames::Frame;
use node_names::{Dice, Incarnation, Limits, MsgId, NodeName, Origin};
use protocol::{Delivery, Segment};
use std::alloc::{AllocError, Global};
use wire_node::{ConnectionId, ReceiveError, Recorded, WireError, WireLimits, WireNode};

/// A node of bytes that notes its steps. Each call does what the one of the same name of a `WireNode` does, with dice
/// of zeros.
///
/// All else is generic in it: a function that owns a node takes the prover a minute if its type is named.
pub(crate) trait SteppingNode: Drop {
    /// Starts the first run of a node without peers, in which this number of bytes may wait for each name.
    fn begin(alloc: Global, name: NodeName, waiting: usize) -> Result<Self, WireError>;

    fn accept(&mut self) -> Result<ConnectionId, WireError>;

    fn receive(&mut self, id: ConnectionId, bytes: &[u8]) -> Result<(), ReceiveError>;

    fn ended(&mut self, id: ConnectionId) -> Result<(), WireError>;

    fn broadcast(&mut self, payload: Bytes) -> Result<MsgId, WireError>;

    fn unreachable(&mut self, name: NodeName) -> Result<(), WireError>;

    fn join(&mut self, contact: NodeName) -> Result<(), WireError>;

    fn tick(&mut self) -> Result<(), WireError>;

    fn receivers(&self) -> Result<Vec<NodeName>, AllocError>;

    fn transmit(&self, name: &NodeName) -> [&[u8]; 4];

    fn transmitted(&mut self, name: &NodeName, count: usize);

    fn take_lost(&mut self) -> Vec<NodeName>;

    fn take_steps(&mut self) -> Segment<Frame>;

    fn take_deliveries(&mut self) -> Vec<Delivery>;
}

impl SteppingNode for WireNode<Global, Recorded> {
    fn begin(
        alloc: Global,
        name: NodeName,
        waiting: usize,
    ) -> Result<WireNode<Global, Recorded>, WireError> {
        let me = Origin {
            name,
            incarnation: Incarnation(1),
        };
        let core = Limits::STANDARD;
        let limits = WireLimits { core, waiting };
        WireNode::start(alloc, me, limits, &[], None, Recorded::new(alloc))
    }

    fn accept(&mut self) -> Result<ConnectionId, WireError> {
        self.accept()
    }

    fn receive(&mut self, id: ConnectionId, bytes: &[u8]) -> Result<(), ReceiveError> {
        let mut dice = Dice::ZEROS;
        self.receive(id, bytes, &mut dice)
    }

    fn ended(&mut self, id: ConnectionId) -> Result<(), WireError> {
        self.ended(id, &Dice::ZEROS)
    }

    fn broadcast(&mut self, payload: Bytes) -> Result<MsgId, WireError> {
        self.broadcast(payload)
    }

    fn unreachable(&mut self, name: NodeName) -> Result<(), WireError> {
        self.unreachable(name, &Dice::ZEROS)
    }

    fn join(&mut self, contact: NodeName) -> Result<(), WireError> {
        self.join(contact, &Dice::ZEROS)
    }

    fn tick(&mut self) -> Result<(), WireError> {
        self.tick(&Dice::ZEROS)
    }

    fn receivers(&self) -> Result<Vec<NodeName>, AllocError> {
        self.receivers()
    }

    fn transmit(&self, name: &NodeName) -> [&[u8]; 4] {
        self.transmit(name)
    }

    fn transmitted(&mut self, name: &NodeName, count: usize) {
        self.transmitted(name, count);
    }

    fn take_lost(&mut self) -> Vec<NodeName> {
        self.take_lost()
    }

    fn take_steps(&mut self) -> Segment<Frame> {
        self.take_steps()
    }

    fn take_deliveries(&mut self) -> Vec<Delivery> {
        self.take_deliveries()
    }
}
