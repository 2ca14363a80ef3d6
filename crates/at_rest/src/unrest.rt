//! The messages for which a group is not at rest.
ghost use Rattle.std.specs.Prelude.{◌≡◌, ◌↔◌, [], ◌∷◌, ◌++◌, not, map, false, slice_get, IfOk, OnOk, option_map};
ghost use Rattle.std.specs.Option.{option_map_or};
ghost use Rattle.node_names.specs.Same.{has_id};
ghost use Rattle.node_names.specs.Slots.{somes};
ghost use Rattle.node_names.specs.declared.ids.MsgId.{MsgId};
ghost use Rattle.world.specs.Group.{core_of};
ghost use Rattle.world.specs.Rest.{IsAtRest};
ghost use Rattle.at_rest.specs.Unrest.{Adds, asked_ids, carried_ids, content_ids, core_ids};
ghost use Rattle.at_rest.specs.Unrest.{flight_ids, nodes_ids, packet_ids, node_ids};

use indexmap::IndexSet;
use node_names::{MsgId, NodeName};
use protocol::{Core, Wire};
use std::alloc::{AllocError, Allocator, Global};
use std::hash::{BuildHasherDefault, FoldHasher};
use std::marker::Model;
use world::{Packet, World};

/// A set of ids.
type Ids<A> = IndexSet<MsgId, BuildHasherDefault<FoldHasher>, A>;

/// All messages for which a group is not at rest, as it stood when they were found.
///
/// A contract sees it as the list of their ids.
#[derive(Drop)]
pub struct Unrest<A: Allocator = Global> {
    ids: Ids<A>,
}

impl<A: Allocator> Model for Unrest<A> {
    ghost use Rattle.std.specs.Prelude.{List};
    ghost use Rattle.node_names.specs.declared.ids.MsgId.{MsgId};

    ghost Value = { List MsgId };

    ghost view = { λ u. u.ids.keys };
}

impl<A: Allocator + Copy> Unrest<A> {
    /// Finds these messages in one pass over the packets in flight and the nodes.
    pub fn new<C: Core<A>>(alloc: A, world: &World<C, A>) -> Result<Unrest<A>, AllocError>
        ensures { IfOk result
            (λ unrest. (id : MsgId) → (has_id unrest id ≡ false) ↔ IsAtRest C.state C.Note.content world.now.group id) }
    {
        let ids = unrest_ids(alloc, world)?;
        Ok(Unrest { ids })
    }

    /// Whether the group is at rest for the message; the result is that of `is_at_rest`.
    pub fn is_at_rest(&self, id: &MsgId) -> bool
        ensures { result ≡ not (has_id self.now id.now) }
    {
        !self.ids.contains(id)
    }
}

/// Collects the messages of packets in flight and of running nodes.
fn unrest_ids<C: Core<A>, A: Allocator + Copy>(
    alloc: A,
    world: &World<C, A>,
) -> Result<Ids<A>, AllocError>
    ensures { IfOk result (λ ids. Adds (flight_ids C.Note.content world.now.group.sent world.now.group.flight)
        (nodes_ids C.state world.now.group.nodes world.now.group.nodes) ids.keys) }
{
    let mut ids = IndexSet::new(alloc);
    add_flight(&mut ids, world.sent(), world.flight())?;
    add_nodes(&mut ids, world)?;
    Ok(ids)
}

/// Adds an id.
fn add<A: Allocator + Copy>(ids: &mut Ids<A>, id: MsgId) -> Result<(), AllocError>
    ensures { OnOk result (Adds ids.old.keys (id ∷ []) ids.new.keys) }
{
    ids.insert(id)?;
    Ok(())
}

/// Adds each id whose timer is armed.
fn add_timers<A: Allocator + Copy>(
    ids: &mut Ids<A>,
    timers: &[Option<MsgId>],
) -> Result<(), AllocError>
    ensures { OnOk result (Adds ids.old.keys (somes timers.now) ids.new.keys) }
{
    for timer in timers {
        if let Some(id) = timer {
            add(ids, *id)?;
        }
    }
    Ok(())
}

/// Adds the messages of announcements.
fn add_announced<A: Allocator + Copy>(
    ids: &mut Ids<A>,
    announced: &[(MsgId, u32)],
) -> Result<(), AllocError>
    ensures { OnOk result (Adds ids.old.keys (map (λ entry. entry.0) announced.now) ids.new.keys) }
{
    for entry in announced {
        add(ids, entry.0)?;
    }
    Ok(())
}

/// Adds the messages of queued announcements.
fn add_queued<A: Allocator + Copy>(
    ids: &mut Ids<A>,
    queued: &[(NodeName, MsgId, u32)],
) -> Result<(), AllocError>
    ensures { OnOk result (Adds ids.old.keys (map (λ entry. entry.1) queued.now) ids.new.keys) }
{
    for entry in queued {
        add(ids, entry.1)?;
    }
    Ok(())
}

/// Adds the message that a packet carries.
fn add_carried<N: Wire<A>, A: Allocator + Copy>(
    ids: &mut Ids<A>,
    note: &N,
) -> Result<(), AllocError>
    ensures { OnOk result (Adds ids.old.keys (carried_ids (N.content note.now).carried) ids.new.keys) }
{
    match note.carried() {
        Some((id, _)) => add(ids, id),
        None => Ok(()),
    }
}

/// Adds the message that a packet asks for.
fn add_asked<A: Allocator + Copy>(ids: &mut Ids<A>, asked: Option<MsgId>) -> Result<(), AllocError>
    ensures { OnOk result (Adds ids.old.keys (asked_ids asked) ids.new.keys) }
{
    match asked {
        Some(id) => add(ids, id),
        None => Ok(()),
    }
}

/// Adds the messages of a packet.
fn add_note<N: Wire<A>, A: Allocator + Copy>(ids: &mut Ids<A>, note: &N) -> Result<(), AllocError>
    ensures { OnOk result (Adds ids.old.keys (content_ids (N.content note.now)) ids.new.keys) }
{
    add_carried(ids, note)?;
    add_announced(ids, note.announced())?;
    add_asked(ids, note.asked())
}

/// Adds the messages of the packet that was sent with this number.
fn add_packet<N: Wire<A>, A: Allocator + Copy>(
    ids: &mut Ids<A>,
    sent: &[Packet<N>],
    number: usize,
) -> Result<(), AllocError>
    ensures { OnOk result (Adds ids.old.keys (packet_ids N.content sent.now number) ids.new.keys) }
{
    match sent.get(number) {
        Some(packet) => add_note(ids, &packet.note),
        None => Ok(()),
    }
}

/// Adds the messages of packets in flight.
fn add_flight<N: Wire<A>, A: Allocator + Copy>(
    ids: &mut Ids<A>,
    sent: &[Packet<N>],
    flight: &[usize],
) -> Result<(), AllocError>
    ensures { OnOk result (Adds ids.old.keys (flight_ids N.content sent.now flight.now) ids.new.keys) }
{
    for number in flight {
        add_packet(ids, sent, *number)?;
    }
    Ok(())
}

/// Adds the messages for which a core has queued announcements or timers.
fn add_core<C: Core<A>, A: Allocator + Copy>(ids: &mut Ids<A>, core: &C) -> Result<(), AllocError>
    ensures { OnOk result (Adds ids.old.keys (core_ids (C.state core.now)) ids.new.keys) }
{
    add_queued(ids, core.queued())?;
    add_timers(ids, core.timers())
}

/// Adds the messages of the core that runs under the name, if there is one.
fn add_node<C: Core<A>, A: Allocator + Copy>(
    ids: &mut Ids<A>,
    world: &World<C, A>,
    name: &NodeName,
) -> Result<(), AllocError>
    ensures { OnOk result (Adds ids.old.keys (node_ids C.state world.now.group.nodes name.now) ids.new.keys) }
{
    match world.core(name) {
        Some(core) => add_core(ids, core),
        None => Ok(()),
    }
}

/// Adds the messages of every running core.
fn add_nodes<C: Core<A>, A: Allocator + Copy>(
    ids: &mut Ids<A>,
    world: &World<C, A>,
) -> Result<(), AllocError>
    ensures { OnOk result
        (Adds ids.old.keys (nodes_ids C.state world.now.group.nodes world.now.group.nodes) ids.new.keys) }
{
    for node in world.nodes() {
        add_node(ids, world, &node.name)?;
    }
    Ok(())
}
