//! What disturbs the nodes.
use crate::dice::Dice;
use crate::group::NODES;
use crate::strangers::Strangers;
use event_loop::LoopNode;
use node_names::NodeName;
use std::alloc::{AllocError, Global};
use std::net::{Net, SocketAddr};
use wire_node::WireError;

/// Of so many ticks of a node one cuts a link.
const CUT: u64 = 100;

/// Of so many ticks of a node one holds it.
const HOLD: u64 = 400;

/// For fewer ticks than this a node is held. A peer waits for fewer.
const LONGEST: u64 = 40;

/// Of so many ticks of a node one brings a stranger.
const STRANGER: u64 = 100;

/// Of so many ticks of a node one has the peer that takes nothing reset a connection.
const RESET: u64 = 100;

/// At this tick each node is disturbed, so that a short run has all that a long one has.
const FIRST: u64 = 10;

/// What disturbs the nodes.
#[derive(Drop)]
pub(crate) struct Trouble {
    /// The tick up to which each node is held.
    held: Vec<u64>,
    /// Where the nodes take connections.
    addresses: Vec<SocketAddr>,
    strangers: Strangers,
    /// How many links were cut.
    pub(crate) cuts: u64,
    /// How often a node was held.
    pub(crate) holds: u64,
}

/// The first of a node's peers from the name at this place on, round the group.
fn peer_from<N: LoopNode<Global>>(names: &[NodeName], first: usize, node: &N) -> Option<NodeName> {
    for step in 0..NODES {
        match names.get(first.wrapping_add(step) % NODES) {
            Some(name) if node.is_peer(name) => return Some(*name),
            _ => {}
        }
    }
    None
}

impl Trouble {
    /// Nothing was disturbed yet.
    pub(crate) fn new(alloc: Global, strangers: Strangers) -> Result<Trouble, AllocError> {
        Ok(Trouble {
            held: Vec::from_elem(alloc, 0, NODES)?,
            addresses: Vec::new(alloc),
            strangers,
            cuts: 0,
            holds: 0,
        })
    }

    /// Notes where the next node takes connections.
    pub(crate) fn note(&mut self, at: SocketAddr) -> Result<(), AllocError> {
        self.addresses.push(at)?;
        Ok(())
    }

    /// The strangers, to be read.
    pub(crate) fn strangers(&self) -> &Strangers {
        &self.strangers
    }

    /// Whether the node at this place is held at this tick.
    pub(crate) fn is_held(&self, place: usize, now: u64) -> bool {
        match self.held.get(place) {
            Some(until) => now < *until,
            None => false,
        }
    }

    /// Cuts the link to the first of a node's peers from a name on that is drawn.
    fn cut<N: LoopNode<Global>>(
        &mut self,
        dice: &mut Dice,
        names: &[NodeName],
        node: &mut N,
    ) -> Result<(), WireError> {
        let first = usize::try_from(dice.below(NODES as u64)).unwrap_or(0);
        if let Some(name) = peer_from(names, first, node) {
            node.unreachable(name, &dice.draw())?;
            self.cuts = self.cuts.saturating_add(1);
        }
        Ok(())
    }

    /// Holds the node at this place for some ticks.
    fn hold(&mut self, dice: &mut Dice, place: usize, now: u64) {
        if let Some(until) = self.held.get_mut(place) {
            *until = now.saturating_add(dice.below(LONGEST));
            self.holds = self.holds.saturating_add(1);
        }
    }

    /// Has a stranger dial the node at this place.
    fn dial<R: Net>(&mut self, rt: &R, place: usize) -> Result<(), AllocError> {
        match self.addresses.get(place) {
            Some(at) => self.strangers.dial(rt, *at),
            None => Ok(()),
        }
    }

    /// Disturbs the node at this place, or not, at a tick.
    pub(crate) fn disturb<R: Net, N: LoopNode<Global>>(
        &mut self,
        rt: &R,
        dice: &mut Dice,
        names: &[NodeName],
        place: usize,
        node: &mut N,
        now: u64,
    ) -> Result<(), WireError> {
        let is_first = now == FIRST;
        if is_first || dice.once_in(CUT) {
            self.cut(dice, names, node)?;
        }
        if (is_first && place == 0) || dice.once_in(HOLD) {
            self.hold(dice, place, now);
        }
        if is_first || dice.once_in(STRANGER) {
            self.dial(rt, place)?;
        }
        if dice.once_in(RESET) {
            self.strangers.reset_one();
        }
        Ok(())
    }

    /// Disturbs nothing any more.
    pub(crate) fn end(&mut self) {
        self.held.fill(0);
        self.strangers.leave();
    }
}
