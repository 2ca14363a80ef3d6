//! Streams of frames.
use anyhow::Result;
use bytes::Bytes;
use frames::{Body, Frame, encode};
use node_names::{Incarnation, Listed, MsgId, NodeName, Origin};
use std::alloc::Global;

/// Frames, and their bytes.
#[derive(Drop)]
pub(crate) struct Stream {
    pub(crate) name: &'static str,
    pub(crate) frames: Vec<Frame>,
    pub(crate) bytes: Vec<u8>,
}

fn empty(alloc: Global, name: &'static str) -> Stream {
    Stream {
        name,
        frames: Vec::new(alloc),
        bytes: Vec::new(alloc),
    }
}

fn sender() -> Result<Origin> {
    Ok(Origin {
        name: NodeName::parse(b"a")?,
        incarnation: Incarnation(1),
    })
}

fn push(alloc: Global, stream: &mut Stream, body: Body) -> Result<()> {
    let frame = Frame::new(sender()?, 1, body)?;
    stream
        .bytes
        .extend_from_slice(encode(alloc, &frame)?.as_slice())?;
    stream.frames.push(frame)?;
    Ok(())
}

/// Appends three frames of 40 bytes each, of three kinds.
fn push_short(alloc: Global, stream: &mut Stream) -> Result<()> {
    let new = NodeName::parse(b"fourteen-bytes")?;
    let origin = NodeName::parse(b"origin")?;
    let four = NodeName::parse(b"four")?;
    let three = Listed::from_vec(Vec::from_slice(alloc, &[four, four, four])?);
    let one = Listed::from_vec(Vec::from_slice(alloc, &[origin])?);
    push(alloc, stream, Body::ForwardJoin { new, ttl: 3 })?;
    push(alloc, stream, Body::ShuffleReply { names: three })?;
    let names = one;
    push(
        alloc,
        stream,
        Body::Shuffle {
            origin,
            ttl: 3,
            names,
        },
    )
}

/// Appends a GOSSIP frame of 32,768 bytes.
fn push_long(alloc: Global, stream: &mut Stream) -> Result<()> {
    let id = MsgId {
        origin: sender()?,
        seq: 1,
    };
    let payload = Bytes::from_vec(vec![in alloc; b'x'; 32_718]?)?;
    let round = 1;
    push(alloc, stream, Body::Gossip { id, round, payload })
}

/// Frames of 40 bytes.
pub(crate) fn short(alloc: Global) -> Result<Stream> {
    let mut stream = empty(alloc, "short");
    for _ in 0..64 {
        push_short(alloc, &mut stream)?;
    }
    Ok(stream)
}

/// Frames of 32 KiB.
pub(crate) fn long(alloc: Global) -> Result<Stream> {
    let mut stream = empty(alloc, "long");
    for _ in 0..8 {
        push_long(alloc, &mut stream)?;
    }
    Ok(stream)
}

/// Twelve frames of 40 bytes for each of 32 KiB.
pub(crate) fn mixed(alloc: Global) -> Result<Stream> {
    let mut stream = empty(alloc, "mixed");
    for _ in 0..8 {
        for _ in 0..4 {
            push_short(alloc, &mut stream)?;
        }
        push_long(alloc, &mut stream)?;
    }
    Ok(stream)
}
