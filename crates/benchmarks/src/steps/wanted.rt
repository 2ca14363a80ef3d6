//! What messages cost a core that were announced to it before they come.
use crate::names::{LENGTH, origin_named, payload};
use crate::steps::core_steps::{start, step_all, time_steps};
use crate::steps::messages::{Taken, arrival, push_messages, push_requests};
use anyhow::Result;
use frames::{Body, Frame, MAX_ANNOUNCEMENTS};
use node_names::{Listed, MsgId};
use protocol::{Core, Stimulus, StimulusOf};
use std::alloc::Global;
use std::time::Clock;

/// Appends the announcement of the first peer's next 64 messages behind `before`, by the second peer.
pub(crate) fn push_announcement(
    alloc: Global,
    stimuli: &mut Vec<Stimulus<Frame>>,
    before: u64,
) -> Result<()> {
    let origin = origin_named("p")?;
    let mut entries = Listed::new(alloc);
    for place in 0..MAX_ANNOUNCEMENTS as u64 {
        let seq = before.saturating_add(place).saturating_add(1);
        entries.push((MsgId { origin, seq }, 0))?;
    }
    let number = before.saturating_add(2);
    let frame = Frame::new(origin_named("q")?, number, Body::IHave { entries })?;
    stimuli.push(arrival(frame))?;
    Ok(())
}

/// Makes a core to which `frames` times 64 messages of the first peer were announced by the second.
pub(crate) fn wanting<C: Core<Global, Note = Frame>>(alloc: Global, frames: u64) -> Result<C> {
    let mut stimuli = Vec::new(alloc);
    push_requests(&mut stimuli)?;
    for frame in 0..frames {
        push_announcement(alloc, &mut stimuli, frame.saturating_mul(64))?;
    }
    let mut core = start::<C>(alloc, 0)?;
    step_all(alloc, &mut core, stimuli.as_slice())?;
    Ok(core)
}

/// The firing of all armed timers.
fn firings<C: Core<Global, Note = Frame>>(alloc: Global, core: &C) -> Result<Vec<Stimulus<Frame>>> {
    let mut stimuli = Vec::new(alloc);
    for slot in core.timers() {
        if let Some(id) = slot {
            stimuli.push(StimulusOf::Fire(*id))?;
        }
    }
    Ok(stimuli)
}

/// Lets a core ask for some `count` messages, of which each was announced by one peer, as a tick does.
pub(crate) fn ask_all<R: Clock, C: Core<Global, Note = Frame>>(
    rt: &R,
    alloc: Global,
    count: u64,
) -> Result<Taken> {
    let mut core = wanting::<C>(alloc, count / 64)?;
    let stimuli = firings(alloc, &core)?;
    time_steps(rt, alloc, &mut core, stimuli.as_slice())
}

/// Lets a core take some `count` messages, of which each was announced by one peer.
pub(crate) fn take_wanted<R: Clock, C: Core<Global, Note = Frame>>(
    rt: &R,
    alloc: Global,
    count: u64,
) -> Result<Taken> {
    let frames = count / 64;
    let mut core = wanting::<C>(alloc, frames)?;
    let mut stimuli = Vec::new(alloc);
    let payload = payload(alloc, LENGTH)?;
    push_messages(&mut stimuli, &payload, frames.saturating_mul(64))?;
    time_steps(rt, alloc, &mut core, stimuli.as_slice())
}
