//! What a node leaves when it is closed, and why it can't be closed.
use crate::cell::report::LinkReport;
use crate::cores::NodeCore;
use crate::host::Host;
use crate::host::port::Port;
use crate::host::worker::Worker;
use frames::Frame;
use node_names::NodeName;
use protocol::Trace;
use std::alloc::{Allocator, Global};
use thiserror::Error;

/// What a closed node leaves.
#[derive(Drop)]
pub struct Closed<A: Allocator = Global> {
    /// How many of its steps it has forgotten, if it may forget (`Host::forget_from_now`).
    pub since: Option<usize>,
    /// All that it did, but for what it has forgotten.
    pub trace: Trace<Frame<A>, A>,
    /// The number of deliveries that were handed out. They are the first ones of the trace, if it may not forget.
    pub handed_out: u64,
    /// A report for each outlet that its workers had, but for those that were compared and given up before.
    pub links: Vec<LinkReport, A>,
}

/// Why a node can't be closed, or why what it leaves is not as it should be.
#[derive(Drop, Error)]
pub enum CloseError<C: NodeCore<A> + Drop, A: Allocator = Global> {
    /// The number of ports or workers that came back is not the number that were made. Nothing was stopped, and all are
    /// handed back.
    #[error("a port or worker is missing")]
    PortMissing {
        host: Host<C, A>,
        ports: Vec<Port<C, A>, A>,
        workers: Vec<Worker<A>, A>,
    },
    /// The receipts of the port at this place are not those of its broadcasts in the trace. If the place is the number
    /// of ports, the trace has a broadcast that no port made. The ports of a node that may forget are not compared.
    #[error("the receipts of port {port} are not as in the trace")]
    Unlike {
        port: usize,
        since: Option<usize>,
        trace: Trace<Frame<A>, A>,
    },
    /// What came out of a link to this peer is not what the node sent to it, or was not compared with what it has
    /// forgotten.
    #[error("what came out of a link to {peer} is not what was sent")]
    Torn {
        peer: NodeName,
        since: Option<usize>,
        trace: Trace<Frame<A>, A>,
    },
    /// An allocation is refused. The node is stopped.
    #[error("out of memory")]
    OutOfMemory {
        since: Option<usize>,
        trace: Trace<Frame<A>, A>,
    },
}
