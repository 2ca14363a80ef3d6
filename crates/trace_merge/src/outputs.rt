//! What an event of a group sent and delivered.
ghost use Rattle.std.specs.Prelude.{◌≡◌, ◌-◌, IfOk, drop, map, take};
ghost use Rattle.trace_merge.specs.Projection.{output_of, said};

use frames::Frame;
use node_names::{Listed, NodeName};
use protocol::{Out, Wire, copy_deliveries};
use std::alloc::{AllocError, Allocator};
use world::{Entry, Packet};

/// The packets with the numbers from `first` up to but not including `end`.
fn between<N>(sent: &[Packet<N>], first: usize, end: usize) -> &[Packet<N>]
    ensures { result.now ≡ take (end - first) (drop first sent.now) }
{
    let Some(later) = sent.get(first..) else {
        return &[];
    };
    later.get(..end.saturating_sub(first)).unwrap_or(later)
}

/// Copies a packet's frame, together with the receiver.
fn said<A: Allocator + Copy>(packet: &Packet<Frame<A>>) -> Result<(NodeName, Frame<A>), AllocError>
    ensures { IfOk result (λ send. send ≡ said packet.now) }
{
    Ok((packet.to, packet.note.copy()?))
}

/// Copies the packets' frames, each together with its receiver.
fn sends_of<A: Allocator + Copy>(
    alloc: A,
    packets: &[Packet<Frame<A>>],
) -> Result<Vec<(NodeName, Frame<A>), A>, AllocError>
    ensures { IfOk result (λ sends. sends.items ≡ map said packets.now) }
{
    let mut sends = Vec::new(alloc);
    for packet in packets {
        sends.push(said(packet)?)?;
    }
    Ok(sends)
}

/// Copies what an event sent and delivered. `end` is the number of the next event's first packet.
pub(crate) fn output_of<A: Allocator + Copy>(
    alloc: A,
    entry: &Entry<A>,
    end: usize,
    sent: &[Packet<Frame<A>>],
) -> Result<Out<Frame<A>, A>, AllocError>
    ensures { IfOk result (λ out. out ≡ output_of entry.now end sent.now) }
{
    let sends = sends_of(alloc, between(sent, entry.first_sent, end))?;
    let deliveries = copy_deliveries(alloc, entry.given.as_slice())?;
    Ok(Out {
        sends: Listed::from_vec(sends),
        deliveries: Listed::from_vec(deliveries),
    })
}
