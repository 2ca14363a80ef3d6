//! The layers by their names.
use crate::allocator_layer::AllocatorLayer;
use play_cell::CellLayer;
use play_gossip::{GossipLayer, KnownLayer, MissingLayer, PeersLayer};
use play_groups::{FloodLayer, PlumLayer};
use play_membership::{MembershipLayer, NameLayer, ViewsLayer};
use play_merge::MergeLayer;
use play_script::layer::Layer;
use play_script::script::Player;
use play_streams::{FrameLayer, StreamLayer};
use play_wire::WireLayer;
use refusing_allocator::RefusingAllocator;
use std::alloc::{AllocError, Global};

/// Returns the layer that a case names.
fn layer_of(text: &str) -> Option<&str> {
    text.split('\n')
        .find_map(|line| line.strip_prefix("layer "))
}

/// Plays a case on a layer.
fn play(
    heap: &RefusingAllocator,
    alloc: Global,
    layer: impl Layer + Drop,
    text: &str,
    out: &mut String,
) -> Result<(), AllocError> {
    Player::new(heap, alloc, layer).play(text, out)
}

/// Plays a case of names, views or a membership. Returns whether `layer` is one of these.
fn play_membership(
    heap: &RefusingAllocator,
    alloc: Global,
    layer: &str,
    text: &str,
    out: &mut String,
) -> Result<bool, AllocError> {
    match layer {
        "membership" => play(heap, alloc, MembershipLayer::new(heap, alloc), text, out)?,
        "names" => play(heap, alloc, NameLayer::new(heap, alloc), text, out)?,
        "views" => play(heap, alloc, ViewsLayer::new(heap), text, out)?,
        _ => return Ok(false),
    }
    Ok(true)
}

/// Plays a case of gossip or a part of it. Returns whether `layer` is one of these.
fn play_gossip(
    heap: &RefusingAllocator,
    alloc: Global,
    layer: &str,
    text: &str,
    out: &mut String,
) -> Result<bool, AllocError> {
    match layer {
        "gossip" => play(heap, alloc, GossipLayer::new(heap, alloc), text, out)?,
        "known" => play(heap, alloc, KnownLayer::new(heap, alloc), text, out)?,
        "missing" => play(heap, alloc, MissingLayer::new(heap), text, out)?,
        "peers" => play(heap, alloc, PeersLayer::new(heap), text, out)?,
        _ => return Ok(false),
    }
    Ok(true)
}

/// Plays a case of frames, streams or the refusing allocator. Returns whether `layer` is one of these.
fn play_streams(
    heap: &RefusingAllocator,
    alloc: Global,
    layer: &str,
    text: &str,
    out: &mut String,
) -> Result<bool, AllocError> {
    match layer {
        "allocator" => play(heap, alloc, AllocatorLayer::new(alloc), text, out)?,
        "frames" => play(heap, alloc, FrameLayer::new(heap, alloc), text, out)?,
        "streams" => play(heap, alloc, StreamLayer::new(heap, alloc), text, out)?,
        _ => return Ok(false),
    }
    Ok(true)
}

/// Plays a case of groups, cells, nodes of bytes or merged traces. Returns whether `layer` is one of these.
fn play_groups(
    heap: &RefusingAllocator,
    alloc: Global,
    layer: &str,
    text: &str,
    out: &mut String,
) -> Result<bool, AllocError> {
    match layer {
        "cell" => play(heap, alloc, CellLayer::new(heap), text, out)?,
        "merge" => play(heap, alloc, MergeLayer::new(heap, alloc), text, out)?,
        "plum" => play(heap, alloc, PlumLayer::new(heap, alloc), text, out)?,
        "wire_node" => play(heap, alloc, WireLayer::new(heap, alloc), text, out)?,
        "world" => play(heap, alloc, FloodLayer::new(heap, alloc), text, out)?,
        _ => return Ok(false),
    }
    Ok(true)
}

/// Plays a case, and appends it with what its commands give.
pub(crate) fn play_all(
    heap: &RefusingAllocator,
    alloc: Global,
    text: &str,
    out: &mut String,
) -> Result<(), AllocError> {
    let text = text.strip_suffix('\n').unwrap_or(text);
    let layer = layer_of(text).unwrap_or("");
    let is_played = play_membership(heap, alloc, layer, text, out)?
        || play_gossip(heap, alloc, layer, text, out)?
        || play_streams(heap, alloc, layer, text, out)?
        || play_groups(heap, alloc, layer, text, out)?;
    if is_played {
        return Ok(());
    }
    out.push_str("no such layer\n")
}
