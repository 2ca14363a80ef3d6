//! The output forms for the outcome of a scenario.
use node_names::MsgId;

/// How the outcome of a scenario is written.
#[derive(Clone, Copy, Debug, PartialEq, Eq)]
pub enum Form {
    /// The lines of deliveries and trees.
    Lines,
    /// A Graphviz document, of all messages or of a single one.
    Graph(Option<MsgId>),
    /// What each step did, and the state of the group at the end.
    Trace,
}
