//! Plays a scenario in a simulated group.
ghost use Rattle.std.specs.Prelude.{◌≡◌, ◌≢◌, None, IfOk, IfErr, IfSome, OnOk};
ghost use Rattle.frames.specs.Content.{frame_content};
ghost use Rattle.node_core.specs.Plum.{plum_state};
ghost use Rattle.node_names.specs.Same.{has_name};
ghost use Rattle.node_core.specs.Steps.{PlumIsSpent, PlumStarts, PlumSteps};
ghost use Rattle.simulation.specs.Play.{event_of, fault_of, empty_group, rolls_after, HaltsIn};
ghost use Rattle.simulation.specs.Play.{IsHalted, IsIdle, PlaysAction, PlaysActions, Refuses, Takes};
ghost use Rattle.simulation.specs.Rolls.{rolled, rolls_in, rolls_of};

use crate::code::{Code, SettleCode};
use crate::rolls::Rolls;
use at_rest::SettleError;
use bytes::Bytes;
use node_core::PlumCore;
use node_names::{Limits, Listed, MsgId, NodeName};
use protocol::Core;
use scenario::Action;
use std::alloc::{AllocError, Allocator};
use std::fmt;
use thiserror::Error;
use world::{Event, World, WorldError};

/// The maximum number of arrivals that one action plays.
pub const MAX_ARRIVALS: usize = 10_000;

/// Why a run ended before its scenario did. Events are counted from 0.
#[derive(Clone, Copy, Debug, PartialEq, Eq, Error)]
pub enum PlayError {
    /// The group refused an event.
    #[error("event {event}: {code}")]
    Refused { event: usize, code: Code },
    /// Packets were still in flight after the most arrivals.
    #[error("event {event}: no end after {most} arrivals", most = MAX_ARRIVALS)]
    NoEnd { event: usize },
    /// The group was not brought to rest.
    #[error("event {event}: {code}")]
    Unsettled { event: usize, code: SettleCode },
    /// The event does nothing, and the scenario is played strictly.
    #[error("event {event}: {why}")]
    Idle { event: usize, why: Idle },
    /// There was no memory left.
    #[error("out of memory")]
    OutOfMemory,
}

/// Why a strict reader refuses an event that a group would take.
#[derive(Clone, Copy, Debug, PartialEq, Eq)]
pub enum Idle {
    /// A timer fires that the node has not armed.
    NoTimer,
    /// A link fails to a name that the node does not have in its active view.
    NoLink,
}

impl Idle {
    /// The reason in words.
    pub fn words(self) -> &'static str {
        match self {
            Idle::NoTimer => "the node has no such timer",
            Idle::NoLink => "the peer is not in the node's active view",
        }
    }
}

impl fmt::Display for Idle {
    fn fmt<W: fmt::Write>(&self, f: &mut fmt::Formatter<W>) -> fmt::Result {
        f.write_str(self.words())
    }
}

/// Why an action was not played to its end.
#[derive(Clone, Copy, Debug, PartialEq, Eq)]
pub enum ActionError {
    /// The group refused its event, or one of its arrivals.
    Refused(WorldError),
    /// Packets were still in flight after the most arrivals.
    NoEnd,
    /// The group was not brought to rest.
    Unsettled(SettleError),
    /// Its event does nothing, and it is played strictly.
    Idle(Idle),
}

impl ActionError {
    /// The error of a run whose event with this number stopped with this error.
    fn at(self, event: usize) -> PlayError
        ensures { result ≡ fault_of event self }
    {
        match self {
            ActionError::Refused(WorldError::OutOfMemory) => PlayError::OutOfMemory,
            ActionError::Refused(why) => PlayError::Refused {
                event,
                code: Code(why),
            },
            ActionError::NoEnd => PlayError::NoEnd { event },
            ActionError::Unsettled(SettleError::OutOfMemory) => PlayError::OutOfMemory,
            ActionError::Unsettled(why) => PlayError::Unsettled {
                event,
                code: SettleCode(why),
            },
            ActionError::Idle(why) => PlayError::Idle { event, why },
        }
    }
}

/// A group of nodes, and the source of its dice.
#[derive(Drop)]
pub struct Player<C: Core<A>, A: Allocator> {
    group: World<C, A>,
    rolls: Rolls,
    /// How many events the group had taken when each action began.
    begun: Vec<usize, A>,
}

impl<C: Core<A>, A: Allocator + Copy> Player<C, A> {
    /// Creates a group without nodes, with dice drawn from this seed; without a seed all dice are zero.
    pub fn new(alloc: A, seed: Option<u64>, limits: Limits) -> Player<C, A>
        ensures rolls { rolls_in result.rolls ≡ rolls_of seed }
        ensures group { result.group ≡ empty_group limits }
    {
        Player {
            group: World::new(alloc, limits),
            rolls: Rolls::new(seed),
            begun: Vec::new(alloc),
        }
    }

    /// The group in its current state.
    pub fn group(&self) -> &World<C, A>
        ensures { result.now ≡ self.now.group }
    {
        &self.group
    }

    /// How many events the group had taken when each action began, for the actions that have begun.
    pub fn begun(&self) -> &[usize] {
        self.begun.as_slice()
    }

    /// Lets the oldest packet arrive until none is in flight.
    fn arrive_all(&mut self) -> Result<(), ActionError>
        ensures ok { OnOk result (PlaysAction C.state C.starts C.steps MAX_ARRIVALS Action.ArriveAll
            (record { rolls = rolls_in self.old.rolls; group = self.old.group })
            (record { rolls = rolls_in self.new.rolls; group = self.new.group })) }
        ensures halted { IfErr result (λ halt. halt ≢ ActionError.Refused WorldError.OutOfMemory
            → HaltsIn C.state C.starts C.steps C.Note.content C.is_spent MAX_ARRIVALS Action.ArriveAll halt
            (record { rolls = rolls_in self.old.rolls; group = self.old.group }) self.new.group) }
    {
        for _ in 0..MAX_ARRIVALS {
            if self.group.flight().is_empty() {
                return Ok(());
            }
            let oldest = Event::Arrive {
                place: 0,
                dice: self.rolls.roll(),
            };
            if let Err(why) = self.step(oldest) {
                return Err(ActionError::Refused(why));
            }
        }
        if self.group.flight().is_empty() {
            Ok(())
        } else {
            Err(ActionError::NoEnd)
        }
    }

    /// Plays one event.
    fn step(&mut self, event: Event<A>) -> Result<(), WorldError>
        ensures ok { OnOk result (Takes C.state C.starts C.steps event self.old.group self.new.group) }
        ensures refused { IfErr result (λ why. why ≢ WorldError.OutOfMemory → (self.new.group ≡ self.old.group)
            × Refuses C.state C.starts C.steps C.Note.content C.is_spent event why self.new.group) }
        ensures rolls { self.new.rolls ≡ self.old.rolls }
    {
        self.group.play(&event)?;
        Ok(())
    }
}

impl<A: Allocator + Copy> Player<PlumCore<A>, A> {
    /// Plays actions in order. If `is_strict`, an action that does nothing is an error.
    pub fn play(&mut self, alloc: A, actions: &[Action], is_strict: bool) -> Result<(), PlayError>
        ensures ok { OnOk result (PlaysActions plum_state PlumStarts PlumSteps MAX_ARRIVALS actions.now
            (record { rolls = rolls_in self.old.rolls; group = self.old.group })
            (record { rolls = rolls_in self.new.rolls; group = self.new.group })) }
        ensures stopped { IfErr result (λ fault. fault ≢ PlayError.OutOfMemory
            → IsHalted plum_state PlumStarts PlumSteps frame_content PlumIsSpent MAX_ARRIVALS actions.now fault
            (record { rolls = rolls_in self.old.rolls; group = self.old.group }) self.new.group) }
    {
        for (number, action) in actions.iter().enumerate() {
            let taken = self.group.log().len();
            if self.begun.push(taken).is_err() {
                return Err(PlayError::OutOfMemory);
            }
            if let Err(halt) = self.play_action(alloc, action, is_strict) {
                return Err(halt.at(number));
            }
        }
        Ok(())
    }

    /// Plays one action.
    fn play_action(&mut self, alloc: A, action: &Action, is_strict: bool) -> Result<(), ActionError>
        ensures ok { OnOk result (PlaysAction plum_state PlumStarts PlumSteps MAX_ARRIVALS action.now
            (record { rolls = rolls_in self.old.rolls; group = self.old.group })
            (record { rolls = rolls_in self.new.rolls; group = self.new.group })) }
        ensures halted { IfErr result (λ halt. halt ≢ ActionError.Refused WorldError.OutOfMemory
            → HaltsIn plum_state PlumStarts PlumSteps frame_content PlumIsSpent MAX_ARRIVALS action.now halt
            (record { rolls = rolls_in self.old.rolls; group = self.old.group }) self.new.group) }
    {
        if is_strict && let Some(why) = self.idle(action) {
            return Err(ActionError::Idle(why));
        }
        self.take_action(alloc, action)
    }

    /// Returns why an action would do nothing although its node runs, and `None` in all other cases.
    fn idle(&self, action: &Action) -> Option<Idle>
        ensures idle { IfSome result (λ why. IsIdle plum_state why action.now self.now.group.group) }
        ensures busy { result ≡ None → (why : Idle) → ¬ IsIdle plum_state why action.now self.now.group.group }
    {
        match action {
            Action::Fire { node, id } => idle_timer(&self.group, node, id),
            Action::Down { node, peer } => idle_link(&self.group, node, peer),
            _ => None,
        }
    }

    /// Plays one action, whatever it does.
    fn take_action(&mut self, alloc: A, action: &Action) -> Result<(), ActionError>
        ensures ok { OnOk result (PlaysAction plum_state PlumStarts PlumSteps MAX_ARRIVALS action.now
            (record { rolls = rolls_in self.old.rolls; group = self.old.group })
            (record { rolls = rolls_in self.new.rolls; group = self.new.group })) }
        ensures halted { IfErr result (λ halt. halt ≢ ActionError.Refused WorldError.OutOfMemory
            → HaltsIn plum_state PlumStarts PlumSteps frame_content PlumIsSpent MAX_ARRIVALS action.now halt
            (record { rolls = rolls_in self.old.rolls; group = self.old.group }) self.new.group) }
    {
        match event_of(alloc, &mut self.rolls, action) {
            Ok(Some(event)) => match self.step(event) {
                Ok(()) => Ok(()),
                Err(why) => Err(ActionError::Refused(why)),
            },
            Ok(None) => self.play_many(alloc, action),
            Err(_) => Err(ActionError::Refused(WorldError::OutOfMemory)),
        }
    }

    /// Plays an action that consists of many events.
    fn play_many(&mut self, alloc: A, action: &Action) -> Result<(), ActionError>
        requires { event_of (rolled (rolls_in self.old.rolls)) action.now ≡ None }
        ensures ok { OnOk result (PlaysAction plum_state PlumStarts PlumSteps MAX_ARRIVALS action.now
            (record { rolls = rolls_in self.old.rolls; group = self.old.group })
            (record { rolls = rolls_in self.new.rolls; group = self.new.group })) }
        ensures halted { IfErr result (λ halt. halt ≢ ActionError.Refused WorldError.OutOfMemory
            → HaltsIn plum_state PlumStarts PlumSteps frame_content PlumIsSpent MAX_ARRIVALS action.now halt
            (record { rolls = rolls_in self.old.rolls; group = self.old.group }) self.new.group) }
    {
        match action {
            Action::ArriveAll => self.arrive_all(),
            Action::Settle => self.settle(alloc),
            _ => unreachable!(),
        }
    }

    /// Brings the group to rest.
    fn settle(&mut self, alloc: A) -> Result<(), ActionError>
        ensures ok { OnOk result (PlaysAction plum_state PlumStarts PlumSteps MAX_ARRIVALS Action.Settle
            (record { rolls = rolls_in self.old.rolls; group = self.old.group })
            (record { rolls = rolls_in self.new.rolls; group = self.new.group })) }
        ensures halted { IfErr result
            (λ halt. HaltsIn plum_state PlumStarts PlumSteps frame_content PlumIsSpent MAX_ARRIVALS Action.Settle halt
            (record { rolls = rolls_in self.old.rolls; group = self.old.group }) self.new.group) }
    {
        match at_rest::settle(alloc, &mut self.group) {
            Ok(_) => Ok(()),
            Err(why) => Err(ActionError::Unsettled(why)),
        }
    }
}

/// Returns `NoTimer` if a node of this name runs and has not armed the timer.
fn idle_timer<A: Allocator + Copy>(
    group: &World<PlumCore<A>, A>,
    node: &NodeName,
    id: &MsgId,
) -> Option<Idle>
    ensures idle { IfSome result (λ why. IsIdle plum_state why (Action.Fire node.now id.now) group.now.group) }
    ensures busy { result ≡ None
        → (why : Idle)
        → ¬ IsIdle plum_state why (Action.Fire node.now id.now) group.now.group }
{
    match group.core(node) {
        Some(core) if !core.is_armed(id) => Some(Idle::NoTimer),
        _ => None,
    }
}

/// Whether a core has the peer in its active view.
fn is_linked<A: Allocator + Copy>(core: &PlumCore<A>, peer: &NodeName) -> bool
    ensures { result ≡ has_name (plum_state core.now).active peer.now }
{
    core.active().contains(peer)
}

/// Returns `NoLink` if a node of this name runs and does not have the peer in its active view.
fn idle_link<A: Allocator + Copy>(
    group: &World<PlumCore<A>, A>,
    node: &NodeName,
    peer: &NodeName,
) -> Option<Idle>
    ensures idle { IfSome result (λ why. IsIdle plum_state why (Action.Down node.now peer.now) group.now.group) }
    ensures busy { result ≡ None
        → (why : Idle)
        → ¬ IsIdle plum_state why (Action.Down node.now peer.now) group.now.group }
{
    match group.core(node) {
        Some(core) if !is_linked(core, peer) => Some(Idle::NoLink),
        _ => None,
    }
}

/// The event of an action, or `None` if the action consists of many events.
fn event_of<A: Allocator + Copy>(
    alloc: A,
    rolls: &mut Rolls,
    action: &Action,
) -> Result<Option<Event<A>>, AllocError>
    ensures event { IfOk result (λ event. event ≡ event_of (rolled (rolls_in rolls.old)) action.now) }
    ensures rolls { OnOk result (rolls_in rolls.new ≡ rolls_after action.now (rolls_in rolls.old)) }
{
    Ok(Some(match *action {
        Action::Start {
            node,
            incarnation,
            ref peers,
            contact,
        } => Event::Start {
            name: node,
            incarnation,
            peers: Listed::from_vec(Vec::from_slice(alloc, peers.as_slice())?),
            contact,
        },
        Action::Broadcast { node, ref text } => Event::Broadcast {
            name: node,
            payload: Bytes::copy_from_slice(alloc, text.as_slice())?,
        },
        Action::Arrive { place } => Event::Arrive {
            place,
            dice: rolls.roll(),
        },
        Action::Lose { place } => Event::Lose { place },
        Action::Again { number } => Event::Again { number },
        Action::Fire { node, id } => Event::Fire { name: node, id },
        Action::Flush { node } => Event::Flush { name: node },
        Action::Shuffle { node } => Event::Shuffle {
            name: node,
            dice: rolls.roll(),
        },
        Action::Join { node, contact } => Event::Join {
            name: node,
            contact,
        },
        Action::Down { node, peer } => Event::Down {
            name: node,
            peer,
            dice: rolls.roll(),
        },
        Action::Stop { node } => Event::Stop { name: node },
        Action::ArriveAll | Action::Settle => return Ok(None),
    }))
}
