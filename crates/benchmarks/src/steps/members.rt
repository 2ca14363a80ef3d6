//! What it costs a core that a link goes down, and to be told to join.
use crate::names::{LENGTH, origin_named, payload};
use crate::steps::core_steps::{start, step_all, time_steps};
use crate::steps::messages::{Taken, push_messages, push_requests};
use crate::steps::nothing_new::push_prunes;
use crate::steps::wanted::wanting;
use anyhow::Result;
use frames::Frame;
use node_names::Dice;
use protocol::{Core, Stimulus, StimulusOf};
use std::alloc::Global;
use std::time::Clock;

/// Times how a core loses the link to the second peer.
fn time_down<R: Clock, C: Core<Global, Note = Frame>>(
    rt: &R,
    alloc: Global,
    core: &mut C,
) -> Result<Taken> {
    let mut stimuli = Vec::new(alloc);
    stimuli.push(StimulusOf::Down {
        peer: origin_named("q")?.name,
        dice: Dice::ZEROS,
    })?;
    time_steps(rt, alloc, core, stimuli.as_slice())
}

/// Lets a core lose the link to the peer that alone announced some `count` messages to it, none of which has come.
pub(crate) fn lose_announcer<R: Clock, C: Core<Global, Note = Frame>>(
    rt: &R,
    alloc: Global,
    count: u64,
) -> Result<Taken> {
    let mut core = wanting::<C>(alloc, count / 64)?;
    time_down(rt, alloc, &mut core)
}

/// The requests of all peers, a PRUNE of the second, and then `count` messages of the first, which wait to be announced
/// to the second.
fn push_unannounced(alloc: Global, stimuli: &mut Vec<Stimulus<Frame>>, count: u64) -> Result<()> {
    push_requests(stimuli)?;
    push_prunes(stimuli, 1)?;
    push_messages(stimuli, &payload(alloc, LENGTH)?, count)
}

/// Lets a core lose the link to the peer to which `count` messages wait to be announced.
pub(crate) fn lose_lazy<R: Clock, C: Core<Global, Note = Frame>>(
    rt: &R,
    alloc: Global,
    count: u64,
) -> Result<Taken> {
    let mut stimuli = Vec::new(alloc);
    push_unannounced(alloc, &mut stimuli, count)?;
    let mut core = start::<C>(alloc, 0)?;
    step_all(alloc, &mut core, stimuli.as_slice())?;
    time_down(rt, alloc, &mut core)
}

/// Lets a core with four peers be told `count` times to join by another name.
pub(crate) fn join<R: Clock, C: Core<Global, Note = Frame>>(
    rt: &R,
    alloc: Global,
    count: u64,
) -> Result<Taken> {
    let contact = origin_named("t")?.name;
    let mut stimuli = Vec::new(alloc);
    push_requests(&mut stimuli)?;
    let mut core = start::<C>(alloc, 0)?;
    step_all(alloc, &mut core, stimuli.as_slice())?;
    stimuli.clear();
    for _ in 0..count {
        stimuli.push(StimulusOf::Join(contact))?;
    }
    time_steps(rt, alloc, &mut core, stimuli.as_slice())
}
