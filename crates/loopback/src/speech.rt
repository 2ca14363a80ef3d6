//! What a node is to broadcast, and what it did.
use crate::error::RunError;
use crate::since::since;
use bytes::Bytes;
use node_names::{MsgId, NodeName};
use node_threads::HostError;
use std::alloc::{AllocError, Global};
use std::time::{Clock, Duration, Instant};

/// When a message was broadcast.
#[derive(Clone, Copy, Debug)]
pub struct Stamp {
    /// The id of the message.
    pub id: MsgId,
    /// The time since the run began.
    pub at: Duration,
}

/// What a node is to broadcast, and what it did.
#[derive(Drop)]
pub struct Speech {
    /// When the run began, if the clock could be read.
    start: Option<Instant>,
    /// The texts that are left, the last first.
    left: Vec<Bytes>,
    /// The broadcasts so far, in order.
    stamps: Vec<Stamp>,
    /// Why a broadcast was refused, if one was.
    refused: Option<RunError>,
}

/// Moves the texts into another list, the last first.
fn reverse(texts: &mut Vec<Bytes>, last_first: &mut Vec<Bytes>) -> Result<(), AllocError> {
    for _ in 0..texts.len() {
        if let Some(text) = texts.pop() {
            last_first.push(text)?;
        }
    }
    Ok(())
}

impl Speech {
    /// The most texts that a node broadcasts in one turn, so that what waits for its links does not overflow.
    pub const TEXTS: usize = 64;

    /// Makes the speech of a node that is to broadcast these texts, in order. The run began at `start`, if the clock
    /// could be read.
    pub fn new(
        alloc: Global,
        start: Option<Instant>,
        mut texts: Vec<Bytes>,
    ) -> Result<Speech, AllocError> {
        let mut left = Vec::new(alloc);
        reverse(&mut texts, &mut left)?;
        Ok(Speech {
            start,
            left,
            stamps: Vec::new(alloc),
            refused: None,
        })
    }

    /// When the run began, if the clock could be read.
    pub fn start(&self) -> Option<Instant> {
        self.start
    }

    /// The time since the run began. It is 0 if the clock can't be read.
    pub fn now<R: Clock>(&self, rt: &R) -> Duration {
        since(rt, &self.start)
    }

    /// Takes the next text. There is none once a broadcast was refused.
    pub fn take_next(&mut self) -> Option<Bytes> {
        if self.refused.is_some() {
            return None;
        }
        self.left.pop()
    }

    /// Whether there is nothing more to broadcast.
    pub fn is_over(&self) -> bool {
        self.left.is_empty() || self.refused.is_some()
    }

    /// Notes that a text was broadcast at this time, as the message of this id.
    pub fn note(&mut self, id: MsgId, at: Duration) -> Result<(), AllocError> {
        self.stamps.push(Stamp { id, at })?;
        Ok(())
    }

    /// Notes why a broadcast of this node was refused, which is its last.
    pub fn refuse(&mut self, node: NodeName, why: HostError) {
        self.refused = Some(RunError::Refused { node, why });
    }

    /// Why a broadcast was refused, if one was.
    pub fn refused(&self) -> Option<RunError> {
        self.refused
    }

    /// The broadcasts, in order.
    pub(crate) fn into_stamps(self) -> Vec<Stamp> {
        let Speech { stamps, .. } = self;
        stamps
    }
}
