//! What frames cost a core that tell it nothing new.
use crate::names::{LENGTH, origin_named, payload};
use crate::steps::core_steps::{start, step_all, time_steps};
use crate::steps::messages::{Taken, arrival, arrivals, message};
use crate::steps::wanted::push_announcement;
use anyhow::Result;
use frames::{Body, Frame, MAX_ANNOUNCEMENTS};
use protocol::{Core, Stimulus};
use std::alloc::Global;
use std::time::Clock;

/// Appends the second peer's copies of the first peer's messages.
fn push_copies(alloc: Global, stimuli: &mut Vec<Stimulus<Frame>>, count: u64) -> Result<()> {
    let (sender, origin) = (origin_named("q")?, origin_named("p")?);
    let payload = payload(alloc, LENGTH)?;
    for k in 0..count {
        stimuli.push(message(sender, origin, k.saturating_add(1), &payload)?)?;
    }
    Ok(())
}

/// Appends announcements of the first peer's messages by the second, each frame of 64.
fn push_announcements(alloc: Global, stimuli: &mut Vec<Stimulus<Frame>>, count: u64) -> Result<()> {
    let most = MAX_ANNOUNCEMENTS as u64;
    for frame in 0..count / most {
        push_announcement(alloc, stimuli, frame.saturating_mul(most))?;
    }
    Ok(())
}

/// Appends `count` PRUNEs of the second peer.
pub(crate) fn push_prunes(stimuli: &mut Vec<Stimulus<Frame>>, count: u64) -> Result<()> {
    let sender = origin_named("q")?;
    for k in 0..count {
        stimuli.push(arrival(Frame::new(sender, k.saturating_add(2), Body::Prune)?))?;
    }
    Ok(())
}

/// Times how a core that has taken `count` messages takes these stimuli.
fn time_after<R: Clock, C: Core<Global, Note = Frame>>(
    rt: &R,
    alloc: Global,
    count: u64,
    stimuli: &[Stimulus<Frame>],
) -> Result<Taken> {
    let mut core = start::<C>(alloc, 0)?;
    let before = arrivals(alloc, count)?;
    step_all(alloc, &mut core, before.as_slice())?;
    time_steps(rt, alloc, &mut core, stimuli)
}

/// Lets a core take each of `count` messages again, from another peer.
pub(crate) fn take_again<R: Clock, C: Core<Global, Note = Frame>>(
    rt: &R,
    alloc: Global,
    count: u64,
) -> Result<Taken> {
    let mut stimuli = Vec::new(alloc);
    push_copies(alloc, &mut stimuli, count)?;
    time_after::<R, C>(rt, alloc, count, stimuli.as_slice())
}

/// Lets a core hear of some `count` messages that it knows, 64 in each frame.
pub(crate) fn hear_known<R: Clock, C: Core<Global, Note = Frame>>(
    rt: &R,
    alloc: Global,
    count: u64,
) -> Result<Taken> {
    let mut stimuli = Vec::new(alloc);
    push_announcements(alloc, &mut stimuli, count)?;
    time_after::<R, C>(rt, alloc, count, stimuli.as_slice())
}

/// Lets a core that has taken `count` messages take as many PRUNEs.
pub(crate) fn take_prunes<R: Clock, C: Core<Global, Note = Frame>>(
    rt: &R,
    alloc: Global,
    count: u64,
) -> Result<Taken> {
    let mut stimuli = Vec::new(alloc);
    push_prunes(&mut stimuli, count)?;
    time_after::<R, C>(rt, alloc, count, stimuli.as_slice())
}
