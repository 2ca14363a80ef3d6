//! What a node says of itself.
ghost use Rattle.std.specs.Prelude.{◌≡◌};

use handshake::{Address, Addressee, Hello, Introduction};
use node_names::NodeName;

/// What a node says of itself: the label of its cluster, its name, and where it takes connections.
#[derive(Clone, Copy, Debug, PartialEq, Eq)]
pub struct Identity {
    /// The label of its cluster.
    pub label: NodeName,
    /// Its name.
    pub name: NodeName,
    /// Where it takes connections.
    pub at: Address,
}

impl Identity {
    /// What it says first to the node of this name.
    pub fn hello_to(&self, to: NodeName) -> Hello
        ensures { result ≡ record { label = self.now.label; to = to; name = self.now.name; at = self.now.at } }
    {
        Hello {
            label: self.label,
            to,
            name: self.name,
            at: self.at,
        }
    }

    /// What it says of itself later: its pulse.
    pub fn introduction(&self) -> Introduction
        ensures { result ≡ record { name = self.now.name; at = self.now.at } }
    {
        Introduction {
            name: self.name,
            at: self.at,
        }
    }

    /// What a hello has to name that is meant for it.
    pub fn addressee(&self) -> Addressee
        ensures { result ≡ record { label = self.now.label; name = self.now.name } }
    {
        Addressee {
            label: self.label,
            name: self.name,
        }
    }
}
