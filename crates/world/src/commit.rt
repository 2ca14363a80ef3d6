//! The changes that a plan makes, in room that is reserved beforehand.
ghost use Rattle.std.specs.Prelude.{◌≡◌, ◌≤◌, ◌<◌, ◌+◌, ◌-◌, ◌++◌, ◌∷◌, [], false, Some};
ghost use Rattle.std.specs.Prelude.{OnOk, OnErr, length, slice_get, vec_len, vec_capacity};
ghost use Rattle.std.specs.Option.{ForSome};
ghost use Rattle.indexmap.specs.IndexSet.{spare};
ghost use Rattle.node_names.specs.Same.{has_name};
ghost use Rattle.world.specs.Flight.{flying};
ghost use Rattle.world.specs.Group.{put_node};
ghost use Rattle.world.specs.Plan.{CanStep, IsReady, changed, launched, names_of};
ghost use Rattle.world.specs.Plan.{nodes_after, staying, stepped_node, stimulus_by};

use crate::entry::Entry;
use crate::flight::Flight;
use crate::lookup::place_of;
use crate::node_state::NodeState;
use crate::packet::Packet;
use crate::plan::{Change, stimulus_by};
use node_names::{NameSet, NodeName};
use protocol::Core;
use std::alloc::{AllocError, Allocator};
use std::boxed::Box;

/// Reserves room for one more log entry, one more node with its name, `packets` more sent packets, and as many more
/// packets in flight, but at least one. Contents never change, even if an allocation is refused.
pub(crate) fn make_room<C, N, A: Allocator + Copy>(
    log: &mut Vec<Entry<A>, A>,
    names: &mut NameSet<A>,
    nodes: &mut Vec<NodeState<C>, A>,
    sent: &mut Vec<Packet<N>, A>,
    flight: &mut Flight<A>,
    packets: usize,
) -> Result<(), AllocError>
    requires { flight.old.gone ≤ vec_len flight.old.numbers }
    ensures log { log.new.items ≡ log.old.items }
    ensures names { names.new.keys ≡ names.old.keys }
    ensures nodes { nodes.new.items ≡ nodes.old.items }
    ensures sent { sent.new.items ≡ sent.old.items }
    ensures flight { flying flight.new ≡ flying flight.old }
    ensures whole { flight.new.gone ≤ vec_len flight.new.numbers }
    ensures entry { OnOk result (vec_len log.new < vec_capacity log.new) }
    ensures name { OnOk result (0 < spare names.new) }
    ensures node { OnOk result (vec_len nodes.new < vec_capacity nodes.new) }
    ensures packets { OnOk result (vec_len sent.new + packets ≤ vec_capacity sent.new) }
    ensures places { OnOk result (vec_len flight.new.numbers + packets ≤ vec_capacity flight.new.numbers) }
    ensures place { OnOk result (vec_len flight.new.numbers < vec_capacity flight.new.numbers) }
{
    log.reserve(1)?;
    names.reserve(1)?;
    nodes.reserve(1)?;
    sent.reserve(packets)?;
    flight.reserve(packets.max(1))?;
    Ok(())
}

/// Appends an item, for which room is reserved.
pub(crate) fn put_last<T: Drop, A: Allocator>(items: &mut Vec<T, A>, item: T)
    requires { vec_len items.old < vec_capacity items.old }
    ensures items { items.new.items ≡ items.old.items ++ item ∷ [] }
    ensures len { vec_len items.new ≡ vec_len items.old + 1 }
    ensures capacity { vec_capacity items.old ≤ vec_capacity items.new }
{
    items.push(item).unwrap();
}

/// Appends a name that is not in the set, for which room is reserved.
fn put_name<A: Allocator + Copy>(names: &mut NameSet<A>, name: NodeName)
    requires room { 0 < spare names.old }
    requires absent { has_name names.old.keys name ≡ false }
    ensures { names.new.keys ≡ names.old.keys ++ name ∷ [] }
{
    let _ = names.insert(name).unwrap();
}

/// Replaces the node of the same name, or appends the node if no node has its name. The room is reserved.
fn put_node<C: Drop, A: Allocator + Copy>(
    names: &mut NameSet<A>,
    nodes: &mut Vec<NodeState<C>, A>,
    node: NodeState<C>,
)
    requires named { names.old.keys ≡ names_of nodes.old.items }
    requires room { vec_len nodes.old < vec_capacity nodes.old }
    requires spare { 0 < spare names.old }
    ensures nodes { nodes.new.items ≡ put_node node nodes.old.items }
    ensures named { names.new.keys ≡ names_of nodes.new.items }
{
    match place_of(names, &node.name) {
        Some(at) => nodes[at] = node,
        None => {
            put_name(names, node.name);
            put_last(nodes, node);
        }
    }
}

/// Carries out the step that was prepared for the entry, on the core of the node at place `at`. If an allocation is
/// refused, nothing changes.
fn advance<C: Core<A>, A: Allocator + Copy>(
    nodes: &mut Vec<NodeState<C>, A>,
    sent: &[Packet<C::Note>],
    entry: &Entry<A>,
    at: usize,
    turn: C::Turn,
) -> Result<(), AllocError>
    requires { CanStep C.is_turn nodes.old.items sent.now entry.now at turn }
    ensures ok { OnOk result (nodes.new.items ≡ nodes_after
        (stepped_node C.after (slice_get nodes.old.items at) (stimulus_by sent.now entry.now.event entry.now.packet))
        nodes.old.items) }
    ensures err { OnErr result (nodes.new.items ≡ nodes.old.items) }
    ensures names { names_of nodes.new.items ≡ names_of nodes.old.items }
{
    let Some(stimulus) = stimulus_by(sent, &entry.event, entry.packet) else {
        unreachable!()
    };
    let Some(core) = &mut nodes[at].core else {
        unreachable!()
    };
    core.advance(&stimulus, turn)
}

/// Makes the planned change of the nodes entirely, or changes nothing if an allocation is refused.
pub(crate) fn make_change<C: Core<A>, A: Allocator + Copy>(
    names: &mut NameSet<A>,
    nodes: &mut Vec<NodeState<C>, A>,
    sent: &[Packet<C::Note>],
    entry: &Entry<A>,
    change: Change<C, C::Turn, A>,
) -> Result<(), AllocError>
    requires named { names.old.keys ≡ names_of nodes.old.items }
    requires room { vec_len nodes.old < vec_capacity nodes.old }
    requires spare { 0 < spare names.old }
    requires ready { IsReady C.is_turn nodes.old.items sent.now entry.now change }
    ensures ok { OnOk result
        (nodes.new.items ≡ nodes_after (changed C.after nodes.old.items sent.now entry.now change) nodes.old.items) }
    ensures err { OnErr result (nodes.new.items ≡ nodes.old.items) }
    ensures named { names.new.keys ≡ names_of nodes.new.items }
{
    match change {
        Change::Nothing => Ok(()),
        Change::Put(node) => {
            put_node(names, nodes, Box::into_inner(node));
            Ok(())
        }
        Change::Step { at, turn } => advance(nodes, sent, entry, at, turn),
    }
}

/// Appends `packets` to `sent`, takes the packet at place `leaving` out of flight, and puts into flight the packet
/// numbered `again`, or else the new packets. The room is reserved.
pub(crate) fn post<N: Drop, A: Allocator>(
    sent: &mut Vec<Packet<N>, A>,
    flight: &mut Flight<A>,
    mut packets: Vec<Packet<N>, A>,
    leaving: Option<usize>,
    again: Option<usize>,
)
    requires whole { flight.old.gone ≤ vec_len flight.old.numbers }
    requires leaving { ForSome leaving (λ place. place < length (flying flight.old)) }
    requires room { vec_len sent.old + vec_len packets ≤ vec_capacity sent.old }
    requires places { vec_len flight.old.numbers + vec_len packets ≤ vec_capacity flight.old.numbers }
    requires place { vec_len flight.old.numbers < vec_capacity flight.old.numbers }
    ensures sent { sent.new.items ≡ sent.old.items ++ packets.items }
    ensures flight { flying flight.new
        ≡ staying (flying flight.old) leaving ++ launched again (length sent.old.items) (length packets.items) }
    ensures whole { flight.new.gone ≤ vec_len flight.new.numbers }
{
    let first = sent.len();
    sent.append(&mut packets).unwrap();
    if let Some(place) = leaving {
        flight.remove(place);
    }
    match again {
        Some(number) => flight.push(number),
        None => flight.launch(first, sent.len()),
    }
}
