//! The codes under which the refusals of running nodes are printed.
use loopback::RunError;
use node_threads::HostError;
use std::fmt;

/// Why a group did not run to its end. It is printed with the code of the refusal.
#[derive(Clone, Copy, Debug, PartialEq, Eq)]
pub struct RunCode(pub RunError);

impl fmt::Display for RunCode {
    fn fmt<W: fmt::Write>(&self, f: &mut fmt::Formatter<W>) -> fmt::Result {
        match self.0 {
            RunError::CannotListen { node } => {
                write!(f, "node {node}: cannot listen: the port is in use")
            }
            RunError::SamePort { node, other } => {
                write!(f, "node {node}: cannot listen: node {other} has the port")
            }
            RunError::BadPeers { node } => write!(f, "node {node}: W4"),
            RunError::Short { node, of } => write!(f, "node {node}: {of}"),
            RunError::Refused { node, why } => {
                let code = host_code(why);
                write!(f, "node {node}: {code}")
            }
            RunError::Unlike { node } => write!(f, "node {node}: C1"),
            RunError::WorkerMissing { node } => write!(f, "node {node}: C2"),
            RunError::Torn { node } => write!(f, "node {node}: C4"),
            RunError::Forgotten { node } => {
                write!(f, "node {node}: it has forgotten a part of its history")
            }
            RunError::OutOfMemory => f.write_str("out of memory"),
        }
    }
}

/// The code of a running node's refusal.
fn host_code(why: HostError) -> &'static str {
    match why {
        HostError::Closed => "H1",
        HostError::Refused(_) => "H2",
        HostError::TraceFull => "H4",
        HostError::OutOfMemory => "H5",
        HostError::GateShut => "H6",
    }
}
