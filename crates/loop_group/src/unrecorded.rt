//! Groups of nodes of bytes that keep no history.
use crate::group::run;
use crate::group_node::GroupNode;
use bytes::Bytes;
use frames::Frame;
use loopback::{Member, Plan, RunError, RunReport, Watch};
use node_names::{Limits, MsgId, NodeName, Origin};
use protocol::{Delivery, Trace};
use std::alloc::{AllocError, Global};
use std::net::Net;
use std::sync::Wait;
use std::time::Clock;
use wire_node::{Unrecorded, WireError, WireLimits, WireNode};

impl GroupNode for WireNode {
    fn start(
        alloc: Global,
        me: Origin,
        limits: Limits,
        peers: &[NodeName],
        contact: Option<NodeName>,
    ) -> Result<WireNode, WireError> {
        let limits = WireLimits::new(limits);
        WireNode::start(alloc, me, limits, peers, contact, Unrecorded)
    }

    fn ticks(&self) -> u64 {
        self.ticks()
    }

    fn broadcast(&mut self, payload: Bytes) -> Result<MsgId, WireError> {
        self.broadcast(payload)
    }

    fn take_deliveries(&mut self) -> Vec<Delivery> {
        self.take_deliveries()
    }

    fn into_history(
        self,
        _me: Origin,
        _peers: Vec<NodeName>,
        _contact: Option<NodeName>,
    ) -> Result<Option<Trace<Frame>>, AllocError> {
        drop(self);
        Ok(None)
    }
}

/// Runs a group of nodes that keep no history, as `run` does. The report has none.
pub fn run_unrecorded<R, V>(
    rt: R,
    alloc: Global,
    plan: &Plan,
    members: Vec<Member>,
    watch: &mut V,
) -> Result<RunReport, RunError>
where
    R: Wait + Clock + Net + Copy + Drop,
    V: Watch + Drop,
{
    run::<WireNode, R, V>(rt, alloc, plan, members, watch)
}
