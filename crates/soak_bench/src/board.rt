//! What the nodes broadcast, and what they deliver.
use crate::bits::{Bits, bit};
use crate::group::NODES;
use crate::view_watch::Views;
use bytes::Bytes;
use node_names::NodeName;
use protocol::Delivery;
use std::alloc::{AllocError, Global};

/// The lengths of messages, by their numbers.
const LENGTHS: [usize; 8] = [0, 1, 100, 100, 100, 100, 1_000, 5_000];

/// Message number `LONG` and each that is a multiple of it has as many bytes as a message may have.
const LONG: u64 = 101;

/// What the nodes broadcast, and what they deliver.
#[derive(Drop)]
pub(crate) struct Board {
    alloc: Global,
    /// By node and origin, the numbers of the messages that the node delivered.
    heard: Vec<Bits>,
    /// How many messages each node has broadcast.
    said: Vec<u64>,
    /// How many it had broadcast before it was left in peace.
    before: Vec<u64>,
    /// How many messages were broadcast.
    pub(crate) broadcasts: u64,
    /// How many were delivered.
    pub(crate) deliveries: u64,
    /// How many of them again.
    pub(crate) repeated: u64,
    /// How many of them were not broadcast so.
    pub(crate) wrong: u64,
}

/// How many bytes the message of this number has.
fn length_of(seq: u64) -> usize {
    if seq % LONG == 0 {
        return protocol::MAX_PAYLOAD;
    }
    LENGTHS.get((seq % 8) as usize).copied().unwrap_or(0)
}

/// The byte of which the message of this number is made.
fn byte_of(place: usize, seq: u64) -> u8 {
    ((place as u64).wrapping_add(seq) % 251) as u8
}

/// Whether the payload is that of this message of the node at this place.
fn is_payload(place: usize, seq: u64, payload: &[u8]) -> bool {
    let byte = byte_of(place, seq);
    payload.len() == length_of(seq) && payload.iter().all(|it| *it == byte)
}

/// The place of the cell of this node and this origin.
fn cell_of(node: usize, origin: usize) -> usize {
    node.wrapping_mul(NODES).wrapping_add(origin)
}

impl Board {
    /// Nothing was broadcast yet.
    pub(crate) fn new(alloc: Global) -> Result<Board, AllocError> {
        let mut heard = Vec::new(alloc);
        for _ in 0..NODES * NODES {
            heard.push(Bits::new(alloc))?;
        }
        Ok(Board {
            alloc,
            heard,
            said: Vec::from_elem(alloc, 0, NODES)?,
            before: Vec::from_elem(alloc, 0, NODES)?,
            broadcasts: 0,
            deliveries: 0,
            repeated: 0,
            wrong: 0,
        })
    }

    /// How many messages the node at this place has broadcast.
    fn said(&self, place: usize) -> u64 {
        self.said.get(place).copied().unwrap_or(0)
    }

    /// The payload of the next message of the node at this place.
    pub(crate) fn next_payload(&self, place: usize) -> Result<Bytes, AllocError> {
        let seq = self.said(place).saturating_add(1);
        let bytes = vec![in self.alloc; byte_of(place, seq); length_of(seq)]?;
        Bytes::copy_from_slice(self.alloc, bytes.as_slice())
    }

    /// Notes that the node at this place has broadcast its next message.
    pub(crate) fn note_said(&mut self, place: usize) {
        if let Some(said) = self.said.get_mut(place) {
            *said = said.saturating_add(1);
            self.broadcasts = self.broadcasts.saturating_add(1);
        }
    }

    /// Notes a message that the node at this place delivered.
    pub(crate) fn note_heard(
        &mut self,
        names: &[NodeName],
        node: usize,
        message: &Delivery,
    ) -> Result<(), AllocError> {
        self.deliveries = self.deliveries.saturating_add(1);
        let origin = names
            .iter()
            .position(|name| *name == message.id.origin.name);
        let is_new = match origin {
            Some(origin) => self.note(node, origin, message.id.seq, message.payload.as_slice())?,
            None => {
                self.wrong = self.wrong.saturating_add(1);
                true
            }
        };
        if !is_new {
            self.repeated = self.repeated.saturating_add(1);
        }
        Ok(())
    }

    /// Notes a message of the node at place `origin` that the one at place `node` delivered. Returns whether it is new
    /// there.
    fn note(
        &mut self,
        node: usize,
        origin: usize,
        seq: u64,
        payload: &[u8],
    ) -> Result<bool, AllocError> {
        if seq > self.said(origin) || !is_payload(origin, seq, payload) {
            self.wrong = self.wrong.saturating_add(1);
        }
        match self.heard.get_mut(cell_of(node, origin)) {
            Some(heard) => heard.insert(usize::try_from(seq).unwrap_or(0)),
            None => Ok(true),
        }
    }

    /// Notes that what is broadcast from now on is broadcast undisturbed.
    pub(crate) fn begin(&mut self) {
        for origin in 0..NODES {
            let said = self.said(origin);
            if let Some(before) = self.before.get_mut(origin) {
                *before = said;
            }
        }
    }

    /// How many messages of the node at place `origin` that were broadcast undisturbed the one at place `node` lacks.
    fn lacking_of(&self, node: usize, origin: usize) -> u64 {
        let Some(heard) = self.heard.get(cell_of(node, origin)) else {
            return 0;
        };
        let mut lacking: u64 = 0;
        for seq in self.before.get(origin).copied().unwrap_or(0)..self.said(origin) {
            let number = usize::try_from(seq.saturating_add(1)).unwrap_or(0);
            if !heard.contains(number) {
                lacking = lacking.saturating_add(1);
            }
        }
        lacking
    }

    /// How many messages of the node at this place that were broadcast undisturbed the nodes in its reach lack.
    fn lacking_from(&self, views: &Views, origin: usize) -> u64 {
        let reach = views.reach(origin);
        let mut lacking: u64 = 0;
        for node in 0..NODES {
            if reach & bit(node) != 0 {
                lacking = lacking.saturating_add(self.lacking_of(node, origin));
            }
        }
        lacking
    }

    /// How many messages that were broadcast undisturbed are lacking to nodes in reach of their origins.
    pub(crate) fn lacking(&self, views: &Views) -> u64 {
        let mut lacking: u64 = 0;
        for origin in 0..NODES {
            lacking = lacking.saturating_add(self.lacking_from(views, origin));
        }
        lacking
    }
}
