//! Steps of a core alone.
use crate::clock::nanos_since;
use crate::names::{origin_named, origin_of, payload};
use crate::plumtree::ME;
use crate::steps::messages::{ORIGINS, Taken, arrivals, message};
use anyhow::Result;
use bytes::Bytes;
use frames::Frame;
use node_names::{Limits, Origin};
use protocol::{Core, Out, Stimulus};
use std::alloc::Global;
use std::time::{Clock, Instant};

/// Makes a node without peers that holds the last `keep` of the messages that it delivered, or all for 0.
pub(crate) fn start<C: Core<Global>>(alloc: Global, keep: u32) -> Result<C> {
    let me = origin_named(ME)?;
    let mut opening = Out::new(alloc);
    let limits = Limits::STANDARD.keeping(keep);
    Ok(C::start(alloc, me, limits, &[], None, &mut opening)?)
}

/// Lets a core take a stimulus, and returns how many frames come out.
fn step_once<C: Core<Global, Note = Frame>>(
    alloc: Global,
    core: &mut C,
    stimulus: &Stimulus<Frame>,
) -> Result<u64> {
    let mut out = Out::new(alloc);
    core.step(stimulus, &mut out)?;
    Ok(out.sends.len() as u64)
}

/// Lets a core take stimuli, and returns how many frames come out.
pub(crate) fn step_all<C: Core<Global, Note = Frame>>(
    alloc: Global,
    core: &mut C,
    stimuli: &[Stimulus<Frame>],
) -> Result<u64> {
    let mut sent: u64 = 0;
    for stimulus in stimuli {
        sent = sent.saturating_add(step_once(alloc, core, stimulus)?);
    }
    Ok(sent)
}

/// Times how a core takes stimuli.
pub(crate) fn time_steps<R: Clock, C: Core<Global, Note = Frame>>(
    rt: &R,
    alloc: Global,
    core: &mut C,
    stimuli: &[Stimulus<Frame>],
) -> Result<Taken> {
    let start = Instant::now(rt)?;
    let sent = step_all(alloc, core, stimuli)?;
    let nanos = nanos_since(rt, start)?;
    Ok(Taken {
        came: stimuli.len() as u64,
        sent,
        nanos,
    })
}

/// Lets a core take `count` messages of one of four peers.
pub(crate) fn step_core<R: Clock, C: Core<Global, Note = Frame>>(
    rt: &R,
    alloc: Global,
    count: u64,
) -> Result<Taken> {
    let stimuli = arrivals(alloc, count)?;
    let mut core = start::<C>(alloc, 0)?;
    time_steps(rt, alloc, &mut core, stimuli.as_slice())
}

/// Lets a core take each origin's message of this number.
fn see_round<C: Core<Global, Note = Frame>>(
    alloc: Global,
    core: &mut C,
    sender: &Origin,
    seq: u64,
    payload: &Bytes,
) -> Result<()> {
    for number in 0..ORIGINS {
        let stimulus = message(*sender, origin_of(number)?, seq, payload)?;
        step_once(alloc, core, &stimulus)?;
    }
    Ok(())
}

/// Lets a core take `rounds` rounds of messages.
fn see_rounds<C: Core<Global, Note = Frame>>(
    alloc: Global,
    core: &mut C,
    rounds: u64,
) -> Result<()> {
    let sender = origin_named("p")?;
    let payload = payload(alloc, 1)?;
    for round in 0..rounds {
        see_round(alloc, core, &sender, round.saturating_add(1), &payload)?;
    }
    Ok(())
}

/// Times how a core takes `rounds` rounds of messages.
fn time_rounds<R: Clock, C: Core<Global, Note = Frame>>(
    rt: &R,
    alloc: Global,
    core: &mut C,
    rounds: u64,
) -> Result<Taken> {
    let start = Instant::now(rt)?;
    see_rounds(alloc, core, rounds)?;
    let nanos = nanos_since(rt, start)?;
    Ok(Taken {
        came: rounds.saturating_mul(ORIGINS as u64),
        sent: 0,
        nanos,
    })
}

/// Lets a core without peers take `count` messages of one byte, of 64 origins in turn. It holds the last `keep` of
/// them, or all for 0.
pub(crate) fn see_all<R: Clock, C: Core<Global, Note = Frame>>(
    rt: &R,
    alloc: Global,
    count: u64,
    keep: u32,
) -> Result<Taken> {
    let mut core = start::<C>(alloc, keep)?;
    time_rounds(rt, alloc, &mut core, count / ORIGINS as u64)
}
