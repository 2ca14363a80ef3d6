//! What comes out of a node.
use crate::running_node::tally::Tally;
use memory_links::PipeReader;
use node_threads::Handed;
use protocol::Delivery;
use std::alloc::Global;
use std::io::Read;
use std::sync::{Arc, Wait};

/// The most bytes that are read at once.
const PIECE: usize = 65_536;

/// Reads a pipe to its end and counts its bytes.
pub(crate) fn drain<R: Wait + Drop>(rt: &R, mut reader: PipeReader<R>, tally: &Tally) {
    let mut piece = [0; PIECE];
    for _ in rt.forever() {
        match reader.read(&mut piece) {
            Ok(n) if n > 0 => tally.add(rt, n as u64),
            _ => return,
        }
    }
}

/// Counts the messages that a node delivers.
#[derive(Drop)]
pub(crate) struct Counting<R: Wait + Drop> {
    pub(crate) rt: R,
    pub(crate) tally: Arc<Tally, Global>,
}

impl<R: Wait + Drop> Handed<Vec<Delivery>> for Counting<R> {
    fn take(&mut self, batch: Vec<Delivery>) {
        self.tally.add(&self.rt, batch.len() as u64);
    }
}
