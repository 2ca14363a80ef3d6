//! A status from JSON.
use crate::error::StatusError;
use crate::member::Member;
use crate::members::{
    address, address_if_known, count, list, name_of, node_name, number, number_if_known, object,
    truth,
};
use crate::status::{Counts, Kept, Neighbor, Status};
use node_names::NodeName;
use serde_json::Value;
use std::alloc::Global;

/// Reads what `write_json` wrote. Members that a status does not have are ignored.
pub fn read_json(alloc: Global, text: &[u8]) -> Result<Status, StatusError> {
    let value = parse(alloc, text)?;
    status(alloc, &value)
}

fn parse(alloc: Global, text: &[u8]) -> Result<Value, StatusError> {
    match Value::from_slice(alloc, text) {
        Ok(value) if value.is_object() => Ok(value),
        Ok(_) => Err(StatusError::NotObject),
        Err(error) if error.is_memory() => Err(StatusError::OutOfMemory),
        Err(error) => Err(StatusError::NotJson(error)),
    }
}

fn status(alloc: Global, value: &Value) -> Result<Status, StatusError> {
    Ok(Status {
        name: node_name(value, Member::Name)?,
        incarnation: number(value, Member::Incarnation)?,
        cluster: node_name(value, Member::Cluster)?,
        listen: address(value, Member::Listen)?,
        advertise: address(value, Member::Advertise)?,
        active: neighbors(alloc, list(value, Member::Active)?)?,
        passive: names(alloc, list(value, Member::Passive)?)?,
        counts: counts(object(value, Member::Counts)?)?,
        kept: kept(object(value, Member::Kept)?)?,
        connections: count(value, Member::Connections)?,
        links: count(value, Member::Links)?,
        memory_bytes: number_if_known(value, Member::MemoryBytes)?,
    })
}

fn neighbors(alloc: Global, values: &[Value]) -> Result<Vec<Neighbor>, StatusError> {
    let mut neighbors = Vec::with_capacity(alloc, values.len())?;
    for value in values {
        neighbors.push(neighbor(value)?)?;
    }
    Ok(neighbors)
}

fn neighbor(value: &Value) -> Result<Neighbor, StatusError> {
    if !value.is_object() {
        return Err(StatusError::WrongKind(Member::Active));
    }
    Ok(Neighbor {
        name: node_name(value, Member::NeighborName)?,
        is_eager: truth(value, Member::NeighborIsEager)?,
        waiting: count(value, Member::NeighborWaiting)?,
        at: address_if_known(value, Member::NeighborAt)?,
    })
}

fn names(alloc: Global, values: &[Value]) -> Result<Vec<NodeName>, StatusError> {
    let mut names = Vec::with_capacity(alloc, values.len())?;
    for value in values {
        names.push(name_of(value, Member::Passive)?)?;
    }
    Ok(names)
}

fn counts(value: &Value) -> Result<Counts, StatusError> {
    Ok(Counts {
        uptime_ms: number(value, Member::UptimeMs)?,
        ticks: number(value, Member::Ticks)?,
        steps: number(value, Member::Steps)?,
        broadcast: number(value, Member::Broadcast)?,
        delivered: number(value, Member::Delivered)?,
    })
}

fn kept(value: &Value) -> Result<Kept, StatusError> {
    Ok(Kept {
        payloads: count(value, Member::Payloads)?,
        wanted: count(value, Member::Wanted)?,
        announcements: count(value, Member::Announcements)?,
    })
}
