//! What a node of a group is to broadcast, and what it delivered.
use crate::fault::refusal;
use crate::group_node::GroupNode;
use loopback::{Given, Shortage, Speech};
use node_names::{NodeName, Origin};
use std::alloc::AllocError;
use std::time::Clock;
use wire_node::WireError;

/// How many texts a node broadcasts in one turn at most: the more these are, the longer each waits on its way for those
/// that were broadcast with it.
const TEXTS: usize = 16;

/// From so many bytes on a node broadcasts nothing more in one turn.
const TURN: usize = 32_768;

/// What a node of a group is to broadcast, and what it delivered.
#[derive(Drop)]
pub(crate) struct Seat {
    pub(crate) me: Origin,
    /// The peers that the node started with.
    pub(crate) peers: Vec<NodeName>,
    pub(crate) contact: Option<NodeName>,
    pub(crate) speech: Speech,
    pub(crate) given: Given,
    /// The round in which the node was called last.
    pub(crate) round: u64,
}

impl Seat {
    /// Broadcasts at most `most` of the next texts, and some 32 KiB, until one is refused.
    pub(crate) fn speak<R: Clock, N: GroupNode>(
        &mut self,
        rt: &R,
        node: &mut N,
        most: usize,
    ) -> Result<(), Shortage> {
        let mut left = TURN;
        for _ in 0..TEXTS.min(most) {
            if left == 0 {
                return Ok(());
            }
            let Some(text) = self.speech.take_next() else {
                return Ok(());
            };
            left = left.saturating_sub(text.len());
            let at = self.speech.now(rt);
            match node.broadcast(text) {
                Ok(id) => self.speech.note(id, at)?,
                Err(WireError::OutOfMemory) => return Err(Shortage::Memory),
                Err(why) => self.speech.refuse(self.me.name, refusal(why)),
            }
        }
        Ok(())
    }

    /// Takes what the node delivered since the last call. Returns how many messages these are.
    pub(crate) fn listen<R: Clock, N: GroupNode>(
        &mut self,
        rt: &R,
        node: &mut N,
    ) -> Result<usize, AllocError> {
        let mut batch = node.take_deliveries();
        let count = batch.len();
        if count > 0 {
            let at = self.speech.now(rt);
            self.given.put(&mut batch, at)?;
        }
        Ok(count)
    }
}
