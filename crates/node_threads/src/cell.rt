//! The state that a running node keeps under its lock. Nothing in this folder has threads or a lock, or waits.
ghost use Rattle.std.specs.Prelude.{◌≡◌, ◌⊎◌, ◌<◌, ◌≤◌, ◌+◌, ◌^◌, [], true, false};
ghost use Rattle.std.specs.Prelude.{IfOk, IfErr, OnOk, OnErr, None, Some, length};
ghost use Rattle.protocol.specs.IdentityLaw.{IsTooLong};
ghost use Rattle.node_threads.specs.Applying.{Applies, id_given};
ghost use Rattle.node_threads.specs.Cell.{lost, steps_made};
ghost use Rattle.node_threads.specs.Closing.{IsLeft};
ghost use Rattle.node_threads.specs.Opening.{IsFresh, first_receiver};
ghost use Rattle.node_threads.specs.Refusal.{CoreRefuses, HasRoom, Refuses};

pub(crate) mod applied;
mod downs;
mod forgetting;
mod giving_up;
pub(crate) mod kept;
pub(crate) mod learning;
mod link;
mod link_frame;
mod opening;
pub(crate) mod outlet;
mod posting;
mod progress;
pub(crate) mod receipt;
pub(crate) mod receipts;
mod recording;
mod remainder;
pub(crate) mod report;
pub(crate) mod sealing;
pub(crate) mod taking;
mod telling;

use crate::cell::applied::Applied;
use crate::cell::link::Link;
use crate::cell::posting::{Posting, close_full, post_all, posting_for};
use crate::cell::progress::Progress;
use crate::cell::recording::record;
use crate::cores::NodeCore;
use crate::error::HostError;
use frames::Frame;
use node_core::PreparedStep;
use node_names::{Listed, MsgId, NameSet, NodeName};
use protocol::{CoreError, Delivery, Out, Prepared, Step, Stimulus, StimulusOf, Trace};
use std::alloc::{AllocError, Allocator, Global};
use std::marker::Model;
use std::mem;

/// A running node: its core, its trace, the open links, and the deliveries that wait for the application.
///
/// It is called by one thread at a time, under the node's lock, and never waits.
#[derive(Drop)]
pub struct NodeCell<C: NodeCore<A> + Drop, A: Allocator = Global> {
    core: C,
    /// How many of its steps it has forgotten, if it may forget. The trace has those after them.
    pub(crate) since: Option<usize>,
    pub(crate) trace: Trace<Frame<A>, A>,
    limit: usize,
    pub(crate) links: Vec<Link<A>, A>,
    /// The peers of the links, in the order of the links, so that the place of a link is found by its name.
    pub(crate) names: NameSet<A>,
    /// Room for the names of all links.
    pub(crate) room: Vec<NodeName, A>,
    pending: Listed<Delivery<A>, A>,
    handed_out: usize,
    is_shut: bool,
    /// How many steps it had made when the last segment was made.
    pub(crate) sealed: usize,
    /// How far its outlets were compared with the trace.
    pub(crate) progress: Progress<A>,
}

impl<C: NodeCore<A> + Drop, A: Allocator> Model for NodeCell<C, A> {
    ghost use Rattle.std.specs.Prelude.{◌≡◌, ◌<◌, ◌+◌, ◌^◌, [], length};
    ghost use Rattle.node_threads.specs.Cell.{Cell, IsKept, IsListed, lost};

    ghost Value = { Cell C };

    ghost view = { λ c. record {
      core = c.core;
      since = c.since;
      trace = c.trace;
      limit = c.limit;
      links = c.links.items;
      pending = c.pending;
      handed_out = c.handed_out;
      is_shut = c.is_shut;
    } };

    ghost invariant = { λ c. IsKept C.starts C.steps (record {
      core = c.core;
      since = c.since;
      trace = c.trace;
      limit = c.limit;
      links = c.links.items;
      pending = c.pending;
      handed_out = c.handed_out;
      is_shut = c.is_shut;
    }) × IsListed c.links.items c.names.keys × (c.room.items ≡ []) × (lost c.since + length c.trace.steps < 2 ^ 64) };
}

/// The id of the message that was broadcast, if the step was a broadcast.
fn broadcast_id<A: Allocator>(
    stimulus: &Stimulus<Frame<A>, A>,
    given: &[Delivery<A>],
) -> Option<MsgId>
    ensures { result ≡ id_given stimulus.now given.now }
{
    match stimulus {
        StimulusOf::Broadcast(_) => given.first().map(|delivery| delivery.id),
        _ => None,
    }
}

/// Works a step out without making it. Returns what `advance` needs to make it, and what it sends and delivers.
fn prepare<C: NodeCore<A>, A: Allocator + Copy>(
    alloc: A,
    core: &C,
    stimulus: &Stimulus<Frame<A>, A>,
) -> Result<(PreparedStep<A>, Out<Frame<A>, A>), HostError>
    ensures turn { IfOk result (λ r. C.is_turn core.now stimulus.now r.0) }
    ensures stepped { IfOk result
        (λ r. C.steps core.now stimulus.now r.1.sends r.1.deliveries (C.after core.now stimulus.now)) }
    ensures accepted { OnOk result (IsTooLong stimulus.now → ⊥) }
    ensures refused { IfErr result (CoreRefuses C.is_spent core.now stimulus.now) }
{
    let mut out = Out::new(alloc);
    match core.prepare(&stimulus.as_ref(), &mut out) {
        Ok(Prepared { turn, .. }) => Ok((turn, out)),
        Err(CoreError::OutOfMemory) => Err(HostError::OutOfMemory),
        Err(CoreError::PayloadTooLong) => Err(HostError::Refused(CoreError::PayloadTooLong)),
        Err(CoreError::SeqSpent) => Err(HostError::Refused(CoreError::SeqSpent)),
    }
}

/// The receiver of the first of these frames.
fn first_receiver<A: Allocator>(sends: &[(NodeName, Frame<A>)]) -> Option<NodeName>
    ensures { result ≡ first_receiver sends.now }
{
    match sends.first() {
        Some(send) => Some(send.0),
        None => None,
    }
}

/// The trace of a core that has just started and made no step.
fn fresh_trace<C: NodeCore<A>, A: Allocator + Copy>(
    alloc: A,
    core: &C,
    opening: Out<Frame<A>, A>,
) -> Result<Trace<Frame<A>, A>, AllocError>
    ensures { IfOk result (λ trace. trace ≡ record {
      origin = (C.state core.now).me;
      peers = (C.state core.now).active;
      contact = first_receiver opening.sends;
      opening = opening;
      steps = [];
    }) }
{
    let contact = first_receiver(opening.sends.as_slice());
    let peers = Vec::from_slice(alloc, core.active().as_slice())?;
    Ok(Trace::new(alloc, core.me(), Listed::from_vec(peers), contact, opening))
}

impl<C: NodeCore<A> + Drop, A: Allocator + Copy> NodeCell<C, A> {
    /// Makes a node that has just started. `opening` is the output of its start, and its trace may have at most
    /// `trace_limit` steps.
    pub fn new(
        alloc: A,
        core: C,
        opening: Out<Frame<A>, A>,
        trace_limit: usize,
    ) -> Result<NodeCell<C, A>, HostError>
        requires { IsFresh C.starts core opening }
        ensures ok { IfOk result (λ cell. cell ≡ record {
          core = core;
          since = None;
          trace =
              record {
                origin = (C.state core).me;
                peers = (C.state core).active;
                contact = first_receiver opening.sends;
                opening = opening;
                steps = [];
              };
          limit = trace_limit;
          links = [];
          pending = [];
          handed_out = 0;
          is_shut = false;
        }) }
        ensures err { IfErr result (λ e. e ≡ HostError.OutOfMemory) }
    {
        let trace = fresh_trace(alloc, &core, opening)?;
        Ok(NodeCell {
            core,
            since: None,
            trace,
            limit: trace_limit,
            links: Vec::new(alloc),
            names: NameSet::new(alloc),
            room: Vec::new(alloc),
            pending: Listed::new(alloc),
            handed_out: 0,
            is_shut: false,
            sealed: 0,
            progress: Progress::new(alloc),
        })
    }

    /// Lets the core take one stimulus, records the step, and puts its frames into the rings of the open links.
    ///
    /// `Closed`: the node was shut. `TraceFull`: the trace has as many steps as it may have, or the node has made
    /// `usize::MAX` of them. `Refused`: the core refused the step. `OutOfMemory` comes last. A link whose ring has no
    /// room is closed and listed in
    /// `Applied::full`, and the step stands.
    pub fn apply(&mut self, stimulus: Stimulus<Frame<A>, A>) -> Result<Applied<A>, HostError>
        ensures applied { IfOk result (λ applied.
            Applies C.state C.steps self.old stimulus self.new applied.id applied.place applied.full applied.unlinked) }
        ensures accepted { OnOk result (HasRoom self.old × (IsTooLong stimulus → ⊥)) }
        ensures refused { IfErr result (Refuses C.is_spent self.old stimulus) }
        ensures err { OnErr result (self.new ≡ self.old) }
    {
        if self.is_shut {
            return Err(HostError::Closed);
        }
        if self.is_full() {
            return Err(HostError::TraceFull);
        }
        let place = self.steps_made();
        let alloc = *self.links.allocator();
        let (turn, out) = prepare(alloc, &self.core, &stimulus)?;
        self.room.reserve(self.links.len())?;
        let Posting {
            letters,
            mut blocked,
            unlinked,
            copies,
        } = posting_for(alloc, &self.names, &out)?;
        let id = broadcast_id(&stimulus, out.deliveries.as_slice());
        let step = Step { stimulus, out };
        record(
            &mut self.core,
            &mut self.trace,
            &mut self.pending,
            copies,
            step,
            turn,
        )?;
        post_all(self.links.as_mut_slice(), letters, &mut blocked);
        let full = close_full(&mut self.links, &mut self.names, &mut self.room, blocked);
        Ok(Applied {
            id,
            place,
            full: Listed::from_vec(full),
            unlinked: Listed::from_vec(unlinked),
        })
    }

    /// Returns the deliveries that were not handed out yet, in order. This call hands them out.
    pub fn take_deliveries(&mut self) -> Vec<Delivery<A>, A>
        ensures given { result.items ≡ self.old.pending }
        ensures handed_out { self.new
            ≡ record self.old { pending = []; handed_out = self.old.handed_out + length self.old.pending } }
    {
        let _bound = self.steps_made();
        let alloc = *self.links.allocator();
        let given = mem::replace(&mut self.pending, Listed::new(alloc));
        self.handed_out += given.len();
        given.into_vec()
    }

    /// The deliveries that were not handed out yet, in order.
    pub fn pending(&self) -> &[Delivery<A>]
        ensures { result.now ≡ self.now.pending }
    {
        self.pending.as_slice()
    }

    /// The number of deliveries that were handed out.
    pub fn handed_out(&self) -> u64
        ensures { result ≡ self.now.handed_out }
    {
        self.handed_out as u64
    }

    /// Ends the node: from now on no step is made.
    pub fn shut(&mut self)
        ensures { self.new ≡ record self.old { is_shut = true } }
    {
        self.is_shut = true;
    }

    /// Whether the node was shut.
    pub fn is_shut(&self) -> bool
        ensures { result ≡ self.now.is_shut }
    {
        self.is_shut
    }

    /// The core.
    pub fn core(&self) -> &C
        ensures { result.now ≡ self.now.core }
    {
        &self.core
    }

    /// The trace: all that the node did, without the steps that it has forgotten.
    pub fn trace(&self) -> &Trace<Frame<A>, A>
        ensures { result.now ≡ self.now.trace }
    {
        &self.trace
    }

    /// How many of its steps it has forgotten, if it may forget (`forget_from_now`).
    pub fn since(&self) -> Option<usize>
        ensures { result ≡ self.now.since }
    {
        self.since
    }

    /// How many of its steps it has forgotten.
    pub(crate) fn lost(&self) -> usize
        ensures { result ≡ lost self.now.since }
    {
        match self.since {
            Some(since) => since,
            None => 0,
        }
    }

    /// How many steps it has made, forgotten ones included.
    pub fn steps_made(&self) -> usize
        ensures { result ≡ steps_made self.now }
    {
        self.lost() + self.trace.len()
    }

    /// Whether no step more may be made.
    fn is_full(&self) -> bool
        ensures full { result ≡ true
            → (self.now.limit ≤ length self.now.trace.steps) ⊎ (2 ^ 64 ≤ steps_made self.now + 1) }
        ensures room { result ≡ false
            → (length self.now.trace.steps < self.now.limit) × (steps_made self.now + 1 < 2 ^ 64) }
    {
        self.trace.len() >= self.limit || self.steps_made() == usize::MAX
    }

    /// The allocator of all that it keeps.
    pub(crate) fn alloc(&self) -> A {
        *self.links.allocator()
    }

    /// Takes the trace, which is all that the node did but for what it has forgotten, out of it.
    pub fn into_trace(self) -> Trace<Frame<A>, A>
        ensures same { result ≡ self.trace }
        ensures history { IsLeft C.starts C.steps self.since result }
    {
        let NodeCell {
            core: _,
            since: _,
            trace,
            limit: _,
            links: _,
            names: _,
            room: _,
            pending: _,
            handed_out: _,
            is_shut: _,
            sealed: _,
            progress: _,
        } = self;
        trace
    }
}
