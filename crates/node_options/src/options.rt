//! What a node is told.

use crate::format::Format;
use crate::level::Level;
use crate::peer::Peer;
use crate::recording::{RecordFailure, RecordSync};
use node_names::{Limits, NodeName};
use std::net::SocketAddr;
use std::time::Duration;

/// What a node is told by its words and its configuration file.
#[derive(Debug, Drop)]
pub struct NodeOptions {
    /// The name of the node.
    pub name: NodeName,
    /// The label of its cluster. `plumtree` unless told.
    pub cluster: NodeName,
    /// Where it takes connections. `127.0.0.1:7101` unless told. With port 0 the system chooses a port.
    pub listen: SocketAddr,
    /// What it tells others as its address. `listen` unless told, so its port may be 0 as well.
    pub advertise: SocketAddr,
    /// The nodes by which it joins the cluster, to be tried in turn.
    pub contacts: Vec<NodeName>,
    /// Where other nodes take connections. No two are of one name.
    pub peers: Vec<Peer>,
    /// A node that is not among `peers` is the host of its name in this domain, if there is one.
    pub domain: Option<String>,
    /// The port of such hosts. 7101 unless told.
    pub port: u16,
    /// The folder that keeps its last incarnation, if there is one.
    pub state: Option<String>,
    /// The folder that keeps what it takes, if there is one.
    pub record_folder: Option<String>,
    /// When its record is written to the disk. Each second unless told.
    pub sync: RecordSync,
    /// What becomes of it if its record cannot be written. It stops unless told.
    pub on_record_failure: RecordFailure,
    /// Where it answers requests for its status, if it does.
    pub status: Option<SocketAddr>,
    /// Its limits: the standard ones but for what is told, and 10,000 payloads to keep.
    pub limits: Limits,
    /// The time from one tick to the next: 1 ms to 60 s. 100 ms unless told.
    pub tick: Duration,
    /// How long it takes leave at its end: at most an hour. 5 s unless told.
    pub grace: Duration,
    /// How deliveries are printed. As text unless told.
    pub format: Format,
    /// How much is told on standard error. `Info` unless told.
    pub log: Level,
    /// Whether it ends once standard input has ended and all is sent. It does not unless told.
    pub ends_with_input: bool,
}
