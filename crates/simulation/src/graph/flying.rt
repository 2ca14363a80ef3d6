//! Draws the packets in flight that are about a message.
ghost use Rattle.std.specs.Prelude.{◌≡◌, ◌++◌, OnOk, Some, option_map, position, string_bytes};
ghost use Rattle.node_names.specs.Same.{same_name};
ghost use Rattle.node_names.specs.declared.ids.MsgId.{MsgId as Id};
ghost use Rattle.world.specs.Group.{node_of, origin_of};
ghost use Rattle.world.specs.Plan.{names_of};
ghost use Rattle.simulation.specs.Flights.{about, numbers_at};
ghost use Rattle.simulation.specs.Graph.{flying_arrow, flying_at, flying_line, flying_lines, packet_style};

use super::flights::{Flights, numbers_of};
use super::runs::push_between;
use at_rest::is_silent;
use frames::Frame;
use node_core::PlumCore;
use node_names::{MsgId, NameSet, NodeName, Origin};
use std::alloc::{AllocError, Allocator};
use world::{NodeState, Packet, World};

/// Appends the arrows of the packets in flight that carry, announce or ask for the message. `flights` lists the packets
/// by message, so this goes over no others.
pub fn push_flying<A: Allocator + Copy>(
    text: &mut String<A>,
    id: &MsgId,
    group: &World<PlumCore<A>, A>,
    flights: &Flights<A>,
) -> Result<(), AllocError>
    requires { (q : Id) → numbers_at q flights.now.entries ≡ about q group.now.group.sent group.now.group.flight }
    ensures { OnOk result
        (string_bytes text.new ≡ string_bytes text.old ++ flying_lines id.now group.now.group group.now.group.flight) }
{
    push_each(text, id, group, numbers_of(flights, id))
}

/// Appends the arrows of the packets with these numbers that are about the message.
fn push_each<A: Allocator + Copy>(
    text: &mut String<A>,
    id: &MsgId,
    group: &World<PlumCore<A>, A>,
    numbers: &[usize],
) -> Result<(), AllocError>
    ensures { OnOk result
        (string_bytes text.new ≡ string_bytes text.old ++ flying_lines id.now group.now.group numbers.now) }
{
    for number in numbers {
        push_numbered(text, id, group, number)?;
    }
    Ok(())
}

/// Appends the arrow of the packet with this number, if there is one and it is about the message.
fn push_numbered<A: Allocator + Copy>(
    text: &mut String<A>,
    id: &MsgId,
    group: &World<PlumCore<A>, A>,
    number: &usize,
) -> Result<(), AllocError>
    ensures { OnOk result
        (string_bytes text.new ≡ string_bytes text.old ++ flying_at id.now group.now.group number.now) }
{
    match group.sent().get(*number) {
        Some(packet) => push_packet(text, id, group, *number, packet),
        None => Ok(()),
    }
}

/// Appends the arrow of a packet, if it is about the message.
fn push_packet<A: Allocator + Copy>(
    text: &mut String<A>,
    id: &MsgId,
    group: &World<PlumCore<A>, A>,
    number: usize,
    packet: &Packet<Frame<A>>,
) -> Result<(), AllocError>
    ensures { OnOk result (string_bytes text.new
        ≡ string_bytes text.old ++ flying_line id.now group.now.group.nodes number (Some packet.now)) }
{
    if is_silent(&packet.note, id) {
        return Ok(());
    }
    let receiver = last_run(group.names(), group.nodes(), &packet.to);
    push_arrow(text, id, number, &packet.sender, &receiver)
}

/// The place of a name among the names of all nodes, where its node stands among the nodes.
fn place_of<A: Allocator>(names: &NameSet<A>, name: &NodeName) -> Option<usize>
    ensures { result ≡ position (same_name name.now) names.now.keys }
{
    names.get_index_of(name)
}

/// The last run of the node of this name, if it was ever started. `names` are the names of all nodes.
fn last_run<A: Allocator>(
    names: &NameSet<A>,
    nodes: &[NodeState<PlumCore<A>>],
    name: &NodeName,
) -> Option<Origin>
    requires { names.now.keys ≡ names_of nodes.now }
    ensures { result ≡ option_map origin_of (node_of name.now nodes.now) }
{
    match place_of(names, name) {
        Some(at) => {
            let node = &nodes[at];
            Some(Origin {
                name: node.name,
                incarnation: node.highest,
            })
        }
        None => None,
    }
}

/// Appends the arrow of a packet to a run, if there is one.
fn push_arrow<A: Allocator>(
    text: &mut String<A>,
    id: &MsgId,
    number: usize,
    sender: &Origin,
    receiver: &Option<Origin>,
) -> Result<(), AllocError>
    ensures { OnOk result
        (string_bytes text.new ≡ string_bytes text.old ++ flying_arrow id.now number sender.now receiver.now) }
{
    match receiver {
        Some(receiver) => {
            push_between(text, id, sender, receiver)?;
            push_style(text, number)
        }
        None => Ok(()),
    }
}

/// Appends the style of the arrow of a packet with this number.
#[tactic(auto, unfolding(crate::specs::Graph::packet_style))]
fn push_style<A: Allocator>(text: &mut String<A>, number: usize) -> Result<(), AllocError>
    ensures { OnOk result (string_bytes text.new ≡ string_bytes text.old ++ packet_style number) }
{
    write!(text, " [style = dashed, label = \"packet {number}\"];\n")
}
