//! Where nodes take connections.
use crate::list::keep;
use node_names::NodeName;
use std::alloc::{AllocError, Global};
use std::net::SocketAddr;

/// The address where the node of this name takes connections.
#[derive(Clone, Copy)]
pub(crate) struct Address {
    pub(crate) name: NodeName,
    pub(crate) at: SocketAddr,
}

/// The address of the first node of this name, if one is in the list.
pub(crate) fn address_of(addresses: &[Address], name: &NodeName) -> Option<SocketAddr> {
    addresses
        .iter()
        .find(|address| address.name == *name)
        .map(|address| address.at)
}

/// The names of a list except for one, in order.
pub(crate) fn others(
    alloc: Global,
    addresses: &[Address],
    me: &NodeName,
) -> Result<Vec<NodeName>, AllocError> {
    let mut names = Vec::new(alloc);
    for address in addresses {
        if address.name != *me {
            keep(&mut names, address.name)?;
        }
    }
    Ok(names)
}
