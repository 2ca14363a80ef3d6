//! The streams that a node's peers write.
use crate::names::origin_named;
use crate::running_node::messages::{PEERS, message, request};
use anyhow::Result;
use bytes::Bytes;
use frames::{Frame, encode};
use memory_links::{PipeReader, PipeWriter, new_pipe};
use node_names::Origin;
use std::alloc::Global;
use std::io::Write;
use std::sync::Wait;

/// Writes a frame into a pipe.
fn put<R: Wait + Drop>(alloc: Global, writer: &mut PipeWriter<R>, frame: &Frame) -> Result<()> {
    writer.write(encode(alloc, frame)?.as_slice())?;
    Ok(())
}

/// Writes the requests of all peers into a pipe.
fn put_requests<R: Wait + Drop>(alloc: Global, writer: &mut PipeWriter<R>) -> Result<()> {
    for peer in PEERS {
        put(alloc, writer, &request(origin_named(peer)?)?)?;
    }
    Ok(())
}

/// Writes `count` messages of a peer into a pipe.
fn put_messages<R: Wait + Drop>(
    alloc: Global,
    writer: &mut PipeWriter<R>,
    peer: Origin,
    count: u64,
    payload: &Bytes,
) -> Result<()> {
    for k in 0..count {
        put(alloc, writer, &message(peer, k.saturating_add(1), payload)?)?;
    }
    Ok(())
}

/// A stream of the requests of all peers. Its writing end, which is still open, is appended to `open`.
pub(crate) fn requests<R: Wait + Copy + Drop>(
    rt: R,
    alloc: Global,
    open: &mut Vec<PipeWriter<R>>,
) -> Result<PipeReader<R>> {
    let (reader, mut writer) = new_pipe(rt, alloc)?;
    put_requests(alloc, &mut writer)?;
    open.push(writer)?;
    Ok(reader)
}

/// A stream of `share` messages of a peer, which stays open in the same way.
fn stream<R: Wait + Copy + Drop>(
    rt: R,
    alloc: Global,
    open: &mut Vec<PipeWriter<R>>,
    peer: &str,
    payload: &Bytes,
    share: u64,
) -> Result<PipeReader<R>> {
    let (reader, mut writer) = new_pipe(rt, alloc)?;
    put_messages(alloc, &mut writer, origin_named(peer)?, share, payload)?;
    open.push(writer)?;
    Ok(reader)
}

/// A stream of `share` messages for each peer.
pub(crate) fn streams<R: Wait + Copy + Drop>(
    rt: R,
    alloc: Global,
    open: &mut Vec<PipeWriter<R>>,
    payload: &Bytes,
    share: u64,
) -> Result<Vec<PipeReader<R>>> {
    let mut readers = Vec::new(alloc);
    for peer in PEERS {
        readers.push(stream(rt, alloc, open, peer, payload, share)?)?;
    }
    Ok(readers)
}
