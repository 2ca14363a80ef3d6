//! Groups of nodes of bytes that record their steps.
use crate::group::run;
use crate::group_node::GroupNode;
use bytes::Bytes;
use frames::Frame;
use loopback::{Member, Plan, RunError, RunReport, Watch};
use node_names::{Limits, Listed, MsgId, NodeName, Origin};
use protocol::{Delivery, Segment, Trace};
use std::alloc::{AllocError, Global};
use std::net::Net;
use std::sync::Wait;
use std::time::Clock;
use wire_node::{Recorded, WireError, WireLimits, WireNode};

/// Appends the steps of a segment to a trace.
fn append(trace: &mut Trace<Frame>, segment: Segment<Frame>) -> Result<(), AllocError> {
    for step in segment.steps.into_vec() {
        trace.push(step)?;
    }
    Ok(())
}

impl GroupNode for WireNode<Global, Recorded> {
    fn start(
        alloc: Global,
        me: Origin,
        limits: Limits,
        peers: &[NodeName],
        contact: Option<NodeName>,
    ) -> Result<WireNode<Global, Recorded>, WireError> {
        let limits = WireLimits::new(limits);
        WireNode::start(alloc, me, limits, peers, contact, Recorded::new(alloc))
    }

    fn ticks(&self) -> u64 {
        self.ticks()
    }

    fn broadcast(&mut self, payload: Bytes) -> Result<MsgId, WireError> {
        self.broadcast(payload)
    }

    fn take_deliveries(&mut self) -> Vec<Delivery> {
        self.take_deliveries()
    }

    fn into_history(
        mut self,
        me: Origin,
        peers: Vec<NodeName>,
        contact: Option<NodeName>,
    ) -> Result<Option<Trace<Frame>>, AllocError> {
        let opening = self.take_opening();
        let steps = self.take_steps();
        // The node goes before the first `?`, so that the prover follows its drop on one path alone.
        drop(self);
        let alloc = *peers.allocator();
        let mut trace = Trace::new(alloc, me, Listed::from_vec(peers), contact, opening);
        append(&mut trace, steps)?;
        Ok(Some(trace))
    }
}

/// Runs a group of nodes that record their steps, as `run` does. The report has their histories.
pub fn run_recorded<R, V>(
    rt: R,
    alloc: Global,
    plan: &Plan,
    members: Vec<Member>,
    watch: &mut V,
) -> Result<RunReport, RunError>
where
    R: Wait + Clock + Net + Copy + Drop,
    V: Watch + Drop,
{
    run::<WireNode<Global, Recorded>, R, V>(rt, alloc, plan, members, watch)
}
