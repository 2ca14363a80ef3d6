//! The packets that announce the queued messages.
ghost use Rattle.std.specs.Prelude.{◌≡◌, ◌++◌, ◌≤◌, length, map, IfOk, OnOk, OnErr};
ghost use Rattle.gossip_core.specs.Announcements.{in_frames, packets_to, announcements};
ghost use Rattle.frames.specs.declared.body.BodyOf.TheVariants.{IHave};

use frames::{Body, BodyOf, MAX_ANNOUNCEMENTS};
use node_names::{Listed, MsgId, NodeName};
use peer_sets::{Batch, PeerSets};
use std::alloc::{AllocError, Allocator};

/// Makes the packet that announces the entries to the peer.
fn packet<A: Allocator>(
    alloc: A,
    peer: &NodeName,
    entries: &[(MsgId, u32)],
) -> Result<(NodeName, Body<A>), AllocError>
    ensures { IfOk result (λ packet. packet ≡ (peer.now, IHave entries.now)) }
{
    let entries = Listed::from_vec(Vec::from_slice(alloc, entries)?);
    Ok((*peer, BodyOf::IHave { entries }))
}

/// Appends the packets that announce the entries to the peer.
fn push_packets<A: Allocator + Copy>(
    packets: &mut Vec<(NodeName, Body<A>), A>,
    peer: &NodeName,
    entries: &[(MsgId, u32)],
) -> Result<(), AllocError>
    ensures { OnOk result (packets.new.items ≡ packets.old.items ++ packets_to (peer.now, entries.now)) }
{
    let alloc = *packets.allocator();
    let mut rest = entries;
    while !rest.is_empty() {
        let (front, back) = rest.split_at(MAX_ANNOUNCEMENTS.min(rest.len()));
        packets.push(packet(alloc, peer, front)?)?;
        rest = back;
    }
    Ok(())
}

/// Makes the packets that announce everything in the queue, peer by peer.
pub(crate) fn announcements<A: Allocator + Copy>(
    alloc: A,
    peers: &PeerSets<A>,
) -> Result<Vec<(NodeName, Body<A>), A>, AllocError>
    ensures { IfOk result (λ packets. packets.items ≡ announcements peers.now.queued) }
{
    let batches = peers.batches()?;
    let mut packets = Vec::new(alloc);
    for batch in batches.as_slice() {
        push_packets(&mut packets, &batch.0, batch.1.as_slice())?;
    }
    Ok(packets)
}
