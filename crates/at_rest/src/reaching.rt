//! Which nodes can be reached from a name.
ghost use Rattle.std.specs.Prelude.{◌≡◌, [], ◌∷◌, ◌++◌, filter, map, IfOk, OnOk, if◌then◌else◌};
ghost use Rattle.std.specs.List.Sorted.{IsStrictlySortedBy};
ghost use Rattle.node_names.specs.NodeName.{Name};
ghost use Rattle.node_names.specs.Order.{name_cmp};
ghost use Rattle.node_names.specs.Same.{has_name, same_name};
ghost use Rattle.indexmap.specs.IndexSet.{insert_all};
ghost use Rattle.at_rest.specs.Linking.{all_new_links, is_new, new_links, runs};
ghost use Rattle.at_rest.specs.Reach.{AreInReach};

use indexmap::IndexSet;
use node_names::{NameSet, NodeName};
use protocol::Core;
use std::alloc::{AllocError, Allocator};
use world::World;

/// Returns the names that can be reached over links, by the length of the shortest path and then by name, with the name
/// itself first.
///
/// The list is empty if nothing runs under the name. Looks at each node in reach once, and at each of its links.
pub fn reach<C: Core<A>, A: Allocator + Copy>(
    alloc: A,
    world: &World<C, A>,
    name: NodeName,
) -> Result<Vec<NodeName, A>, AllocError>
    ensures { IfOk result (λ reached. AreInReach C.state world.now.group name reached.items) }
{
    let mut reached = IndexSet::new(alloc);
    let mut level = first_level(alloc, world, &name)?;
    'levels: while !level.is_empty() {
        add_all(&mut reached, level.as_slice())?;
        level = next_level(alloc, world, &reached, level.as_slice())?;
    }
    Vec::from_slice(alloc, reached.as_slice())
}

/// The name, if it runs.
fn first_level<C: Core<A>, A: Allocator + Copy>(
    alloc: A,
    world: &World<C, A>,
    name: &NodeName,
) -> Result<Vec<NodeName, A>, AllocError>
    ensures { IfOk result
        (λ level. level.items ≡ (if runs C.state world.now.group.nodes name.now then name.now ∷ [] else [])) }
{
    let mut level = Vec::new(alloc);
    if is_running(world, name) {
        level.push(*name)?;
    }
    Ok(level)
}

/// Adds the names of a level behind those of the levels before it.
fn add_all<A: Allocator + Copy>(
    reached: &mut NameSet<A>,
    level: &[NodeName],
) -> Result<(), AllocError>
    ensures { OnOk result (reached.new.keys ≡ insert_all same_name reached.old.keys level.now) }
{
    for name in level {
        reached.insert(*name)?;
    }
    Ok(())
}

/// The names, in their order, that run, are not reached yet, and are linked from a member of the level.
fn next_level<C: Core<A>, A: Allocator + Copy>(
    alloc: A,
    world: &World<C, A>,
    reached: &NameSet<A>,
    level: &[NodeName],
) -> Result<Vec<NodeName, A>, AllocError>
    ensures sorted { IfOk result (λ next. IsStrictlySortedBy name_cmp next.items) }
    ensures same { IfOk result (λ next. (name : Name) → has_name next.items name
        ≡ has_name (all_new_links C.state world.now.group.nodes reached.now.keys level.now) name) }
{
    let mut next = links_of_all(alloc, world, reached, level)?;
    next.sort_unstable();
    next.dedup();
    Ok(next)
}

/// The links of the members of the level to names that run and are not reached yet. A name may occur more than once.
fn links_of_all<C: Core<A>, A: Allocator + Copy>(
    alloc: A,
    world: &World<C, A>,
    reached: &NameSet<A>,
    level: &[NodeName],
) -> Result<Vec<NodeName, A>, AllocError>
    ensures { IfOk result
        (λ next. next.items ≡ all_new_links C.state world.now.group.nodes reached.now.keys level.now) }
{
    let mut next = Vec::new(alloc);
    for member in level {
        push_links_of(world, reached, member, &mut next)?;
    }
    Ok(next)
}

/// Appends the links of the core that runs under the name, if there is one, to names that run and are not reached yet.
fn push_links_of<C: Core<A>, A: Allocator + Copy>(
    world: &World<C, A>,
    reached: &NameSet<A>,
    name: &NodeName,
    next: &mut Vec<NodeName, A>,
) -> Result<(), AllocError>
    ensures { OnOk result
        (next.new.items ≡ next.old.items ++ new_links C.state world.now.group.nodes reached.now.keys name.now) }
{
    match world.core(name) {
        Some(core) => push_new(world, reached, core.active().as_slice(), next),
        None => Ok(()),
    }
}

/// Appends those of the names that run and are not reached yet.
fn push_new<C: Core<A>, A: Allocator + Copy>(
    world: &World<C, A>,
    reached: &NameSet<A>,
    names: &[NodeName],
    next: &mut Vec<NodeName, A>,
) -> Result<(), AllocError>
    ensures { OnOk result
        (next.new.items ≡ next.old.items ++ filter (is_new C.state world.now.group.nodes reached.now.keys) names.now) }
{
    for name in names {
        if is_new(world, reached, name) {
            next.push(*name)?;
        }
    }
    Ok(())
}

/// Whether the name runs and is not reached yet.
fn is_new<C: Core<A>, A: Allocator + Copy>(
    world: &World<C, A>,
    reached: &NameSet<A>,
    name: &NodeName,
) -> bool
    ensures { result ≡ is_new C.state world.now.group.nodes reached.now.keys name.now }
{
    is_running(world, name) && !reached.contains(name)
}

/// Whether a core runs under the name.
fn is_running<C: Core<A>, A: Allocator + Copy>(world: &World<C, A>, name: &NodeName) -> bool
    ensures { result ≡ runs C.state world.now.group.nodes name.now }
{
    world.core(name).is_some()
}
