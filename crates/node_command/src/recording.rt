//! The record of what a node takes, and what becomes of the node if that fails.
use crate::recorder::Recorder;
use cluster_node::{ClusterNode, SteppedNode};
use node_options::RecordFailure;
use protocol::Delivery;
use std::alloc::Global;
use std::fs::File;
use std::io;
use std::rt::Files;

/// The record of what a node takes, and what becomes of the node if it cannot be written.
#[derive(Drop)]
pub(crate) struct Recording {
    recorder: Recorder,
    on_failure: RecordFailure,
    /// Why it was given up, if it was.
    error: Option<io::Error>,
}

impl Recording {
    /// Goes on with a record that has begun.
    pub(crate) fn new(recorder: Recorder, on_failure: RecordFailure) -> Recording {
        Recording {
            recorder,
            on_failure,
            error: None,
        }
    }

    /// Why the record could not be written, if that is to end the node.
    pub(crate) fn error(&self) -> Option<io::Error> {
        match self.on_failure {
            RecordFailure::Stop => self.error,
            RecordFailure::GoOn => None,
        }
    }

    /// An empty list of deliveries.
    pub(crate) fn no_deliveries(&self) -> Vec<Delivery> {
        Vec::new(self.recorder.allocator())
    }

    /// Whether the node may go on.
    pub(crate) fn may_go_on(&self) -> bool {
        self.error().is_none()
    }

    /// Records what the node took since this was called last, at this time of the clock, and returns whether that was
    /// something. If that fails, the record is given up, and the error is returned once. From then on nothing leaves
    /// the node, if it is to end: what it took last is in no record.
    pub(crate) fn record<R: Files<File = File>, N: SteppedNode<Global>>(
        &mut self,
        rt: &R,
        node: &mut ClusterNode<N>,
        now: u64,
    ) -> io::Result<bool> {
        if self.error.is_some() {
            return Ok(false);
        }
        let recorded = self.recorder.record(rt, node, now);
        if let Err(error) = recorded {
            self.error = Some(error);
            self.give_up(node);
        }
        recorded
    }

    /// Does with the node what was set for a record that cannot be written.
    fn give_up<N: SteppedNode<Global>>(&self, node: &mut ClusterNode<N>) {
        match self.on_failure {
            RecordFailure::Stop => node.silence(),
            RecordFailure::GoOn => node.keep_steps(false),
        }
    }

    /// Writes what was recorded to the disk.
    pub(crate) fn end(&mut self) {
        if self.error.is_none() {
            self.error = self.recorder.sync(0).err();
        }
    }
}
