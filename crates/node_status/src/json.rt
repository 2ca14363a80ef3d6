//! A status as JSON.
use crate::status::{Counts, Kept, Neighbor, Status};
use node_names::NodeName;
use serde_json::{Value, json};
use std::alloc::{AllocError, Global};
use std::net::SocketAddr;

/// Appends the status as one JSON object, whose members have the names of the fields. What is not known is `null`.
/// After an error a part may have been appended.
pub fn write_json(status: &Status, out: &mut String) -> Result<(), AllocError> {
    let alloc = *out.allocator();
    let text = status_value(alloc, status)?.to_string(alloc)?;
    out.push_str(text.as_str())
}

fn status_value(alloc: Global, status: &Status) -> Result<Value, AllocError> {
    let active = neighbor_values(alloc, &status.active)?;
    let passive = name_values(alloc, &status.passive)?;
    let counts = counts_value(alloc, &status.counts)?;
    let kept = kept_value(alloc, &status.kept)?;
    let listen = address_value(alloc, status.listen)?;
    let advertise = address_value(alloc, status.advertise)?;
    let memory_bytes = number_value(status.memory_bytes);
    json!(in alloc; {
        "name": status.name.as_str(),
        "incarnation": status.incarnation,
        "cluster": status.cluster.as_str(),
        "listen": listen,
        "advertise": advertise,
        "active": active,
        "passive": passive,
        "counts": counts,
        "kept": kept,
        "connections": status.connections,
        "links": status.links,
        "memory_bytes": memory_bytes,
    })
}

fn neighbor_values(alloc: Global, neighbors: &[Neighbor]) -> Result<Value, AllocError> {
    let mut values = Vec::with_capacity(alloc, neighbors.len())?;
    for neighbor in neighbors {
        values.push(neighbor_value(alloc, neighbor)?)?;
    }
    Ok(Value::Array(values))
}

fn neighbor_value(alloc: Global, neighbor: &Neighbor) -> Result<Value, AllocError> {
    let at = match neighbor.at {
        Some(at) => address_value(alloc, at)?,
        None => Value::Null,
    };
    json!(in alloc; {
        "name": neighbor.name.as_str(),
        "is_eager": neighbor.is_eager,
        "waiting": neighbor.waiting,
        "at": at,
    })
}

fn name_values(alloc: Global, names: &[NodeName]) -> Result<Value, AllocError> {
    let mut values = Vec::with_capacity(alloc, names.len())?;
    for name in names {
        values.push(Value::try_from_str(alloc, name.as_str())?)?;
    }
    Ok(Value::Array(values))
}

fn counts_value(alloc: Global, counts: &Counts) -> Result<Value, AllocError> {
    json!(in alloc; {
        "uptime_ms": counts.uptime_ms,
        "ticks": counts.ticks,
        "steps": counts.steps,
        "broadcast": counts.broadcast,
        "delivered": counts.delivered,
    })
}

fn kept_value(alloc: Global, kept: &Kept) -> Result<Value, AllocError> {
    json!(in alloc; {
        "payloads": kept.payloads,
        "wanted": kept.wanted,
        "announcements": kept.announcements,
    })
}

fn number_value(number: Option<u64>) -> Value {
    match number {
        Some(number) => Value::from(number),
        None => Value::Null,
    }
}

fn address_value(alloc: Global, address: SocketAddr) -> Result<Value, AllocError> {
    Ok(Value::String(format!(in alloc; "{address}")?))
}
