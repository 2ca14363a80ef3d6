//! The beginning and the end of a node.
ghost use Rattle.std.specs.Prelude.{◌≡◌, map, None, IfOk, OnOk, OnErr};
ghost use Rattle.plumtree_c.specs.Answers.{IsDone};
ghost use Rattle.plumtree_c.specs.Plain.{contact_of, limits_of, name_of, origin_of};
ghost use Rattle.plumtree_c.specs.Slots.{Has, HasBytes};
ghost use Rattle.plumtree_c.specs.State.{Starts};
ghost use Rattle.plumtree_c.specs.Wire.{WireStarts};

use crate::lodger::Lodger;
use crate::node::Node;
use crate::plain::{Name, Sizes};
use crate::refusal::{DONE, NONE, Refusal};
use crate::slot::Slot;
use crate::wire::Wire;
use node_names::{Incarnation, Limits, Listed, NodeName, Origin};
use protocol::are_peers;
use std::alloc::Global;
use std::boxed::Box;
use wire_node::WireLimits;

/// Reads names.
fn read_names(alloc: Global, names: &[Name]) -> Result<Listed<NodeName>, Refusal>
    ensures { IfOk result (λ read. read ≡ map name_of names.now) }
{
    let mut read = Listed::new(alloc);
    for name in names {
        read.push(name.read()?)?;
    }
    Ok(read)
}

/// Reads the name of a contact. No bytes are none.
fn read_contact(contact: &[u8]) -> Result<Option<NodeName>, Refusal>
    ensures { IfOk result (λ read. read ≡ contact_of contact.now) }
{
    match contact {
        [] => Ok(None),
        name => Ok(Some(NodeName::parse(name)?)),
    }
}

/// Puts what a slot may have into a box.
fn boxed<T: Lodger>(alloc: Global, lodger: T) -> Result<Box<T>, Refusal>
    ensures { IfOk result (λ made. made.value ≡ lodger) }
{
    match Box::new(alloc, lodger) {
        Ok(made) => Ok(made),
        Err(_) => Err(Refusal::OutOfMemory),
    }
}

/// Starts a state machine in a box of its own.
fn boxed_node(
    alloc: Global,
    me: Origin,
    limits: &Sizes,
    peers: &[Name],
    contact: &[u8],
) -> Result<Box<Node>, Refusal>
    ensures { IfOk result
        (λ node. Starts me (limits_of limits.now) (map name_of peers.now) (contact_of contact.now) node.value) }
{
    let limits = limits.read()?;
    let peers = read_names(alloc, peers)?;
    let contact = read_contact(contact)?;
    if !are_peers(&limits, &me.name, peers.as_slice(), &contact) {
        return Err(Refusal::BadPeers);
    }
    let node = Node::start(alloc, me, limits, peers.as_slice(), contact)?;
    boxed(alloc, node)
}

/// Starts a node in the slot.
fn start(
    slot: &mut Slot,
    alloc: Global,
    me: Origin,
    limits: &Sizes,
    peers: &[Name],
    contact: &[u8],
) -> Result<(), Refusal>
    ensures ok { OnOk result
        (Has slot.new.held.value (Starts me (limits_of limits.now) (map name_of peers.now) (contact_of contact.now))) }
    ensures free { OnOk result (slot.old.live ≡ 0) }
    ensures err { OnErr result (slot.new ≡ slot.old) }
{
    slot.check_free()?;
    let node = boxed_node(alloc, me, limits, peers, contact)?;
    slot.put(node);
    Ok(())
}

/// Starts a node in the slot, which was zeroed or whose node was freed: with this name and incarnation, these limits,
/// the peers as its active view, and a contact, to whom it sends JOIN; a contact without bytes is none.
///
/// Refused, in this order: -9 for its name, -2 and -3 for the slot, -10, -9 for a peer's name or the contact's, -11,
/// -5.
#[unsafe(no_mangle)]
pub extern "C" fn plumtree_start(
    slot: &mut Slot,
    alloc: Global,
    name: &[u8],
    incarnation: u64,
    limits: &Sizes,
    peers: &[Name],
    contact: &[u8],
) -> i32
    ensures done { IsDone result
        → Has slot.new.held.value (Starts (origin_of name.now incarnation)
        (limits_of limits.now) (map name_of peers.now) (contact_of contact.now)) }
    ensures free { IsDone result → slot.old.live ≡ 0 }
    ensures kept { (IsDone result → ⊥) → slot.new ≡ slot.old }
{
    let name = match NodeName::parse(name) {
        Ok(name) => name,
        Err(_) => return Refusal::BadName.code(),
    };
    let me = Origin {
        name,
        incarnation: Incarnation(incarnation),
    };
    let answer = start(slot, alloc, me, limits, peers, contact);
    match answer {
        Ok(()) => DONE,
        Err(refusal) => refusal.code(),
    }
}

/// Starts a node of bytes in a box of its own.
fn boxed_wire(
    alloc: Global,
    me: Origin,
    limits: WireLimits,
    peers: &[Name],
    contact: &[u8],
) -> Result<Box<Wire>, Refusal>
    ensures { IfOk result
        (λ wire. WireStarts me limits.core limits.waiting (map name_of peers.now) (contact_of contact.now) wire.value) }
{
    let peers = read_names(alloc, peers)?;
    let contact = read_contact(contact)?;
    let wire = Wire::start(alloc, me, limits, peers.as_slice(), contact)?;
    boxed(alloc, wire)
}

/// Starts a node of bytes in the slot.
fn start_wire(
    slot: &mut Slot,
    alloc: Global,
    me: Origin,
    limits: &Sizes,
    waiting: usize,
    peers: &[Name],
    contact: &[u8],
) -> Result<(), Refusal>
    ensures ok { OnOk result (HasBytes slot.new.held.value
        (WireStarts me (limits_of limits.now) waiting (map name_of peers.now) (contact_of contact.now))) }
    ensures free { OnOk result (slot.old.live ≡ 0) }
    ensures err { OnErr result (slot.new ≡ slot.old) }
{
    slot.check_free()?;
    let core = limits.read()?;
    let wire = boxed_wire(alloc, me, WireLimits { core, waiting }, peers, contact)?;
    slot.put(wire);
    Ok(())
}

/// Starts a node of bytes in the slot, as `plumtree_start` starts a state machine. `waiting` says how many bytes may
/// wait for a name before it is taken down.
#[unsafe(no_mangle)]
pub extern "C" fn plumtree_wire_start(
    slot: &mut Slot,
    alloc: Global,
    name: &[u8],
    incarnation: u64,
    limits: &Sizes,
    waiting: usize,
    peers: &[Name],
    contact: &[u8],
) -> i32
    ensures done { IsDone result
        → HasBytes slot.new.held.value (WireStarts (origin_of name.now incarnation)
        (limits_of limits.now) waiting (map name_of peers.now) (contact_of contact.now)) }
    ensures free { IsDone result → slot.old.live ≡ 0 }
    ensures kept { (IsDone result → ⊥) → slot.new ≡ slot.old }
{
    let name = match NodeName::parse(name) {
        Ok(name) => name,
        Err(_) => return Refusal::BadName.code(),
    };
    let me = Origin {
        name,
        incarnation: Incarnation(incarnation),
    };
    let answer = start_wire(slot, alloc, me, limits, waiting, peers, contact);
    match answer {
        Ok(()) => DONE,
        Err(refusal) => refusal.code(),
    }
}

/// Frees what the slot has, if that is of this type.
fn free<T: Lodger>(slot: &mut Slot, alloc: Global) -> i32
    ensures freed { IsDone result → slot.new.held.value ≡ None }
    ensures kept { (IsDone result → ⊥) → slot.new.held.value ≡ slot.old.held.value }
{
    match slot.take::<T>(alloc) {
        Ok(node) => {
            drop(node);
            DONE
        }
        Err(Refusal::NotLive) => NONE,
        Err(refusal) => refusal.code(),
    }
}

/// Frees the node, of either kind, with all that waits. 0: the slot has none, as after it was freed.
#[unsafe(no_mangle)]
pub extern "C" fn plumtree_free(slot: &mut Slot, alloc: Global) -> i32
    ensures freed { IsDone result → slot.new.held.value ≡ None }
    ensures kept { (IsDone result → ⊥) → slot.new.held.value ≡ slot.old.held.value }
{
    if slot.has_bytes() {
        return free::<Wire>(slot, alloc);
    }
    free::<Node>(slot, alloc)
}

/// Sets the limits to the standard ones.
#[unsafe(no_mangle)]
pub extern "C" fn plumtree_limits_default(limits: &mut Sizes) {
    *limits = Sizes::of(&Limits::STANDARD);
}
