//! What the engines of a group have in common.
use crate::node_address::{Address, address_of};
use crate::ticks::Ticking;
use node_names::NodeName;
use std::alloc::{AllocError, Global};
use std::net::SocketAddr;
use std::sync::Arc;
use std::time::Duration;

/// What the engines of a group, which one thread runs, have in common.
#[derive(Drop)]
pub(crate) struct Common<R: Drop> {
    pub(crate) rt: R,
    pub(crate) alloc: Global,
    /// How long a tick takes.
    pub(crate) tick: Duration,
    /// The seed of the workers' dice, to which each worker's number is added.
    seed: u64,
    /// How many workers were started.
    workers: u64,
    pub(crate) ticking: Arc<Ticking, Global>,
    addresses: Vec<Address>,
}

impl<R: Drop> Common<R> {
    /// What the engines of nodes with links to these addresses have in common, before any of them runs.
    pub(crate) fn new(
        rt: R,
        alloc: Global,
        tick: Duration,
        seed: u64,
        addresses: Vec<Address>,
    ) -> Result<Common<R>, AllocError> {
        Ok(Common {
            rt,
            alloc,
            tick,
            seed,
            workers: 0,
            ticking: Arc::new(alloc, Ticking::new())?,
            addresses,
        })
    }

    /// Where the nodes take connections.
    pub(crate) fn addresses(&self) -> &[Address] {
        self.addresses.as_slice()
    }

    /// The seed of the next worker.
    pub(crate) fn next_seed(&mut self) -> u64 {
        let seed = self.seed.wrapping_add(self.workers);
        self.workers = self.workers.wrapping_add(1);
        seed
    }

    /// Where the node of this name takes connections, if its address is known.
    pub(crate) fn address_of(&self, name: &NodeName) -> Option<SocketAddr> {
        address_of(self.addresses.as_slice(), name)
    }
}
