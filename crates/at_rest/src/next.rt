//! The next event of a group that is settling.
ghost use Rattle.std.specs.Prelude.{◌≡◌, ℕ, [], IfSome, IfNone};
ghost use Rattle.node_names.specs.NodeName.{Name};
ghost use Rattle.node_names.specs.declared.ids.MsgId.{MsgId};
ghost use Rattle.world.specs.declared.event.EventOf.TheVariants.{Arrive, Fire, Flush};
ghost use Rattle.at_rest.specs.Left.{AreLeft};
ghost use Rattle.at_rest.specs.Next.{StepsNode};
ghost use Rattle.at_rest.specs.Settling.{IsFirstWith, IsNext, IsSettled, NothingIsLeft, queue_of, timers_of};
ghost use Rattle.at_rest.specs.declared.left.Kind.TheVariants.{Announcements, Timers};

use crate::left::Left;
use node_core::armed_at;
use node_names::{Dice, NodeName};
use protocol::Core;
use std::alloc::Allocator;
use world::{Event, EventOf, World};

/// An event, and the name of the node whose core it steps.
#[derive(Drop)]
pub(crate) struct Next<A: Allocator> {
    pub(crate) event: Event<A>,
    pub(crate) name: NodeName,
}

/// The arrival of the oldest packet in flight.
fn next_arrival<C: Core<A>, A: Allocator + Copy>(world: &World<C, A>) -> Option<Next<A>>
    ensures next { IfSome result (λ next. IsNext C.state world.now.group next.event) }
    ensures name { IfSome result (λ next. StepsNode world.now.group next.event next.name) }
    ensures none { IfNone result (world.now.group.flight ≡ []) }
{
    world.history();
    let number = world.flight().first()?;
    let packet = world.sent().get(*number)?;
    Some(Next {
        event: EventOf::Arrive {
            place: 0,
            dice: Dice::ZEROS,
        },
        name: packet.to,
    })
}

/// The flush of the first node with queued announcements.
fn next_flush<C: Core<A>, A: Allocator + Copy>(
    world: &World<C, A>,
    left: &Left<A>,
) -> Option<Next<A>>
    requires { AreLeft C.state Announcements world.now.group.nodes left.now.queues }
    ensures first { IfSome result
        (λ next. (entry : Name × MsgId × ℕ) × IsFirstWith (queue_of C.state) world.now.group.nodes next.name entry) }
    ensures event { IfSome result (λ next. next.event ≡ Flush next.name) }
    ensures none { IfNone result (NothingIsLeft (queue_of C.state) world.now.group.nodes) }
{
    let name = *world.names().get_index(*left.queues.first()?)?;
    Some(Next {
        event: EventOf::Flush { name },
        name,
    })
}

/// The firing of the first timer of the first node with one.
fn next_firing<C: Core<A>, A: Allocator + Copy>(
    world: &World<C, A>,
    left: &Left<A>,
) -> Option<Next<A>>
    requires { AreLeft C.state Timers world.now.group.nodes left.now.timers }
    ensures first { IfSome result (λ next. (id : MsgId)
        × IsFirstWith (timers_of C.state) world.now.group.nodes next.name id
        × (next.event ≡ Fire next.name id)) }
    ensures none { IfNone result (NothingIsLeft (timers_of C.state) world.now.group.nodes) }
{
    let name = *world.names().get_index(*left.timers.first()?)?;
    let id = armed_at(world.core(&name)?.timers(), 0)?;
    Some(Next {
        event: EventOf::Fire { name, id },
        name,
    })
}

/// The next event, unless nothing is left.
pub(crate) fn next_event<C: Core<A>, A: Allocator + Copy>(
    world: &World<C, A>,
    left: &Left<A>,
) -> Option<Next<A>>
    requires queues { AreLeft C.state Announcements world.now.group.nodes left.now.queues }
    requires timers { AreLeft C.state Timers world.now.group.nodes left.now.timers }
    ensures next { IfSome result (λ next. IsNext C.state world.now.group next.event) }
    ensures name { IfSome result (λ next. StepsNode world.now.group next.event next.name) }
    ensures none { IfNone result (IsSettled C.state world.now.group) }
{
    if !world.flight().is_empty() {
        return next_arrival(world);
    }
    match next_flush(world, left) {
        Some(next) => Some(next),
        None => next_firing(world, left),
    }
}
