//! Compares what a group did with what a trace says.
ghost use Rattle.std.specs.Prelude.{◌≡◌, map};
ghost use Rattle.std.specs.Bool.{Decides};
ghost use Rattle.trace_merge.specs.Projection.{said};

use frames::{Frame, same_frame};
use node_names::NodeName;
use protocol::Delivery;
use std::alloc::Allocator;
use world::Packet;

/// Whether a packet has the same receiver and frame as a send.
fn is_send<A: Allocator>(packet: &Packet<Frame<A>>, send: &(NodeName, Frame<A>)) -> bool
    ensures { Decides result (said packet.now ≡ send.now) }
{
    packet.to == send.0 && same_frame(&packet.note, &send.1)
}

/// Whether the packets have the same receivers and frames as the sends.
pub(crate) fn same_sends<A: Allocator>(
    packets: &[Packet<Frame<A>>],
    sends: &[(NodeName, Frame<A>)],
) -> bool
    ensures { Decides result (map said packets.now ≡ sends.now) }
{
    packets.len() == sends.len()
        && packets
            .iter()
            .zip(sends.iter())
            .all(|(packet, send)| is_send(packet, send))
}

/// Whether two deliveries are equal.
fn same_delivery<A: Allocator>(delivery: &Delivery<A>, other: &Delivery<A>) -> bool
    ensures { Decides result (delivery.now ≡ other.now) }
{
    delivery.node == other.node && delivery.id == other.id && delivery.payload == other.payload
}

/// Whether the deliveries are equal.
pub(crate) fn same_deliveries<A: Allocator>(given: &[Delivery<A>], others: &[Delivery<A>]) -> bool
    ensures { Decides result (given.now ≡ others.now) }
{
    given.len() == others.len()
        && given
            .iter()
            .zip(others.iter())
            .all(|(delivery, other)| same_delivery(delivery, other))
}
