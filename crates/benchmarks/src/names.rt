//! Names and payloads.
use anyhow::Result;
use bytes::Bytes;
use node_names::{NameFault, NodeName, Origin};
use std::alloc::{AllocError, Global};
use test_support::first_run;

/// The bytes of each message, unless others are asked for.
pub(crate) const LENGTH: usize = 100;

/// The name of the node of this number, which is below 1,000.
pub(crate) fn name_of(number: usize) -> Result<NodeName, NameFault> {
    let digit = |number: usize| b'0' + (number % 10) as u8;
    NodeName::parse(&[b'n', digit(number / 100), digit(number / 10), digit(number)])
}

/// The first incarnation of the node of this number.
pub(crate) fn origin_of(number: usize) -> Result<Origin, NameFault> {
    Ok(first_run(name_of(number)?))
}

/// The first incarnation of the node of this name.
pub(crate) fn origin_named(name: &str) -> Result<Origin, NameFault> {
    Ok(first_run(NodeName::parse(name.as_bytes())?))
}

/// A payload of `length` bytes.
pub(crate) fn payload(alloc: Global, length: usize) -> Result<Bytes, AllocError> {
    Ok(Bytes::from_vec(vec![in alloc; b'x'; length]?)?)
}
