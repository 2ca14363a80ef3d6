//! A node whose steps are recorded before what they deliver is handed out.
use crate::incarnation::microseconds;
use crate::recording::Recording;
use bytes::Bytes;
use cluster_node::{ClusterNode, SteppedNode};
use loop_ports::PortNode;
use protocol::Delivery;
use std::alloc::{AllocError, Global};
use std::fs::File;
use std::io;
use std::rt::Files;
use std::time::Clock;
use wire_node::{News, WireError};

/// A node whose steps are recorded before what they deliver is handed out.
#[derive(Drop)]
pub(crate) struct RecordedNode<'a, R, N: Drop> {
    pub(crate) rt: R,
    pub(crate) node: &'a mut ClusterNode<N>,
    pub(crate) recording: &'a mut Recording,
    /// Why the record cannot be written, if that was found out here.
    pub(crate) error: Option<io::Error>,
}

impl<R: Clock + Files<File = File>, N: SteppedNode<Global>> RecordedNode<'_, R, N> {
    /// Records what the node took.
    pub(crate) fn record(&mut self) {
        let now = microseconds(&self.rt).unwrap_or(0);
        if let Err(error) = self.recording.record(&self.rt, self.node, now) {
            self.error = Some(error);
        }
    }
}

impl<R, N> PortNode<Global> for RecordedNode<'_, R, N>
where
    R: Clock + Files<File = File> + Drop,
    N: SteppedNode<Global>,
{
    fn broadcast(&mut self, payload: &Bytes) -> Result<(), WireError> {
        self.node.broadcast(payload)
    }

    fn take_deliveries(&mut self) -> Vec<Delivery> {
        self.record();
        if self.recording.may_go_on() {
            self.node.take_deliveries()
        } else {
            self.recording.no_deliveries()
        }
    }

    fn tell_news(&mut self, tells: bool) {
        self.node.tell_news(tells);
    }

    fn take_news(&mut self) -> Result<Vec<News>, AllocError> {
        self.node.take_news()
    }
}
