//! Plays what is left to do in a calm group, in a fixed order, until nothing is left.
ghost use Rattle.std.specs.Prelude.{◌≡◌, ◌↔◌, ◌+◌, ◌≤◌, Ok, Err, true, false, IfErr, IfOk, List, OnOk, length, reverse};
ghost use Rattle.std.specs.List.{IsDistinct};
ghost use Rattle.node_names.specs.Same.{same_name};
ghost use Rattle.node_names.specs.declared.ids.MsgId.{MsgId};
ghost use Rattle.world.specs.Event.{Event};
ghost use Rattle.world.specs.Plan.{names_of};
ghost use Rattle.world.specs.Rest.{IsAtRest, SaidAndCalm};
ghost use Rattle.frames.specs.Content.{frame_content};
ghost use Rattle.frames.specs.Frame.{Frame};
ghost use Rattle.node_core.specs.Plum.{plum_state};
ghost use Rattle.node_core.specs.Steps.{PlumIsSpent, PlumStarts, PlumSteps};
ghost use Rattle.at_rest.specs.Calm.{IsCalm};
ghost use Rattle.at_rest.specs.Left.{AreLeft};
ghost use Rattle.at_rest.specs.Load.{load_of};
ghost use Rattle.at_rest.specs.Next.{IsNextSpent, Stops, TakesNext};
ghost use Rattle.at_rest.specs.Settling.{AreDelivered, IsSettled, Settles};
ghost use Rattle.at_rest.specs.declared.error.SettleError.TheVariants.{NotCalm, SeqSpent};
ghost use Rattle.at_rest.specs.declared.left.Kind.TheVariants.{Announcements, Timers};

use crate::calm::is_calm;
use crate::error::SettleError;
use crate::left::Left;
use crate::next::next_event;
use node_core::{PlumCore, core_is_lawful, packets_fit_frames};
use std::alloc::Allocator;
use world::{World, WorldError};

/// Plays the next event of a calm group. Returns whether there was one.
fn play_next<A: Allocator + Copy>(
    world: &mut World<PlumCore<A>, A>,
    left: &mut Left<A>,
) -> Result<bool, SettleError>
    requires calm { IsCalm plum_state frame_content world.old.group }
    requires queues { AreLeft plum_state Announcements world.old.group.nodes left.old.queues }
    requires timers { AreLeft plum_state Timers world.old.group.nodes left.old.timers }
    requires distinct { IsDistinct same_name (names_of world.old.group.nodes) }
    ensures taken { result ≡ Ok true → TakesNext plum_state PlumStarts PlumSteps world.old world.new }
    ensures lighter { result ≡ Ok true → load_of world.new + 1 ≤ load_of world.old }
    ensures calm { result ≡ Ok true → IsCalm plum_state frame_content world.new.group }
    ensures undisturbed { result ≡ Ok true
        → ((id : MsgId) → SaidAndCalm (reverse world.old.log) id → SaidAndCalm (reverse world.new.log) id) }
    ensures queues { result ≡ Ok true → AreLeft plum_state Announcements world.new.group.nodes left.new.queues }
    ensures timers { result ≡ Ok true → AreLeft plum_state Timers world.new.group.nodes left.new.timers }
    ensures distinct { result ≡ Ok true → IsDistinct same_name (names_of world.new.group.nodes) }
    ensures same { result ≡ Ok false → world.new ≡ world.old }
    ensures settled { result ≡ Ok false → IsSettled {N = Frame} plum_state world.old.group }
    ensures stopped { IfErr result (λ e. Stops plum_state PlumStarts PlumSteps PlumIsSpent e world.old world.new) }
{
    let Some(next) = next_event(world, left) else {
        return Ok(false);
    };
    core_is_lawful();
    packets_fit_frames();
    world.history();
    match world.play(&next.event) {
        Ok(()) => {}
        Err(WorldError::SeqSpent) => return Err(SettleError::SeqSpent),
        Err(WorldError::OutOfMemory) => return Err(SettleError::OutOfMemory),
        Err(_) => unreachable!(),
    }
    world.headline();
    let Some(at) = world.names().get_index_of(&next.name) else {
        unreachable!()
    };
    left.note(world, at)?;
    Ok(true)
}

/// Brings a calm group to rest. Returns how many events it played.
///
/// While any packet is in flight, the oldest one arrives, with dice that are all zeros; otherwise the first node with
/// queued announcements flushes them; otherwise the first timer of the first node with a timer fires. docs/settling.md
/// counts what is left to do in a group as a number that each of these events makes smaller. The cost of an event is
/// what it costs in the group, plus a look-up in a sorted set.
///
/// Fails with `NotCalm` if `is_calm` returns false; then no event was played. It stops early if the numbers of a node
/// are used up or an allocation fails: the group stays as the events that were played left it. After `OutOfMemory`
/// another call continues from there. After `SeqSpent` it fails in the same way, since the same event is next.
pub fn settle<A: Allocator + Copy>(
    alloc: A,
    world: &mut World<PlumCore<A>, A>,
) -> Result<u64, SettleError>
    // It fails with `NotCalm` exactly if the group is not calm, and then nothing changes.
    ensures not_calm { (result ≡ Err NotCalm) ↔ (IsCalm plum_state frame_content world.old.group → ⊥) }
    ensures unchanged { result ≡ Err NotCalm → world.new ≡ world.old }

    // The next event was played again and again, as many times as the result says, which is at most the load of the
    // group.
    ensures played { (events : List Event)
        × Settles plum_state PlumStarts PlumSteps events world.old world.new
        × IfOk result (λ k. length events ≡ k) }
    ensures bound { IfOk result (λ k. k ≤ load_of world.old) }

    // Nothing is left, so the group is at rest for all messages, and the undisturbed ones are delivered wherever they
    // should be.
    ensures settled { OnOk result (IsSettled {N = Frame} plum_state world.new.group) }
    ensures rest { OnOk result ((id : MsgId) → IsAtRest plum_state frame_content world.new.group id) }
    ensures delivered { OnOk result (AreDelivered plum_state world.old world.new) }

    // `SeqSpent` comes only if the next event needs more numbers than its node has left.
    ensures spent { result ≡ Err SeqSpent → IsNextSpent plum_state PlumStarts PlumSteps PlumIsSpent world.new.group }
{
    if !is_calm(world) {
        return Err(SettleError::NotCalm);
    }
    let before = world.log().len();
    let mut left = Left::of(alloc, world)?;
    while play_next(world, &mut left)? {}
    world.headline();
    Ok((world.log().len() - before) as u64)
}
