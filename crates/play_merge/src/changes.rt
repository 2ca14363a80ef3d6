//! Alterations of a trace.
use crate::texts::PlumTrace;
use frames::Frame;
use node_names::{Listed, NodeName, Origin};
use play_groups::events::{peers_and_contact, place};
use play_script::frame_words::{body, stimulus};
use play_script::layer::Outcome;
use play_script::words::{name, names, number};
use protocol::{Out, Step, Stimulus, StimulusOf, Trace, Wire, copy_deliveries};
use std::alloc::{AllocError, Allocator};

/// A step of a Plumtree node.
type PlumStep<A> = Step<Frame<A>, A>;

/// Parses places in a list.
fn places_of<A: Allocator + Copy>(
    alloc: A,
    words: &[&str],
) -> Result<Option<Vec<usize, A>>, AllocError> {
    let mut places = Vec::new(alloc);
    for word in words {
        let Some(place) = place(word) else {
            return Ok(None);
        };
        places.push(place)?;
    }
    Ok(Some(places))
}

/// Copies what made a step.
fn copy_stimulus<A: Allocator + Copy>(
    stimulus: &Stimulus<Frame<A>, A>,
) -> Result<Stimulus<Frame<A>, A>, AllocError> {
    Ok(match stimulus {
        StimulusOf::Broadcast(payload) => StimulusOf::Broadcast(payload.clone()?),
        StimulusOf::Arrive { sender, note, dice } => StimulusOf::Arrive {
            sender: *sender,
            note: note.copy()?,
            dice: *dice,
        },
        StimulusOf::Fire(id) => StimulusOf::Fire(*id),
        StimulusOf::Flush => StimulusOf::Flush,
        StimulusOf::Down { peer, dice } => StimulusOf::Down {
            peer: *peer,
            dice: *dice,
        },
        StimulusOf::Shuffle(dice) => StimulusOf::Shuffle(*dice),
        StimulusOf::Join(contact) => StimulusOf::Join(*contact),
    })
}

/// Copies frames with their receivers.
fn copy_sends<A: Allocator + Copy>(
    alloc: A,
    sends: &[(NodeName, Frame<A>)],
) -> Result<Listed<(NodeName, Frame<A>), A>, AllocError> {
    let mut copies = Listed::new(alloc);
    for (to, frame) in sends {
        copies.push((*to, frame.copy()?))?;
    }
    Ok(copies)
}

/// Copies what was sent and delivered.
fn copy_out<A: Allocator + Copy>(
    alloc: A,
    out: &Out<Frame<A>, A>,
) -> Result<Out<Frame<A>, A>, AllocError> {
    let sends = copy_sends(alloc, out.sends.as_slice())?;
    let deliveries = Listed::from_vec(copy_deliveries(alloc, out.deliveries.as_slice())?);
    Ok(Out { sends, deliveries })
}

/// Copies a step.
fn copy_step<A: Allocator + Copy>(alloc: A, step: &PlumStep<A>) -> Result<PlumStep<A>, AllocError> {
    let stimulus = copy_stimulus(&step.stimulus)?;
    let out = copy_out(alloc, &step.out)?;
    Ok(Step { stimulus, out })
}

/// Copies all steps of a trace.
fn copy_steps<A: Allocator + Copy>(
    alloc: A,
    trace: &PlumTrace<A>,
) -> Result<Vec<PlumStep<A>, A>, AllocError> {
    let mut steps = Vec::new(alloc);
    for at in 0..trace.len() {
        if let Some(step) = trace.step(at) {
            steps.push(copy_step(alloc, step)?)?;
        }
    }
    Ok(steps)
}

/// Puts steps in the place of those of a trace, and divides it after so many of them as `cuts` says.
fn refill<A: Allocator + Copy>(
    trace: &mut PlumTrace<A>,
    steps: Vec<PlumStep<A>, A>,
    cuts: &[usize],
) -> Result<(), AllocError> {
    trace.truncate(0);
    for step in steps {
        trace.push(step)?;
        if cuts.contains(&trace.len()) {
            let _ = trace.seal()?;
        }
    }
    Ok(())
}

/// Drops all steps of a trace but the first ones: `cut 1`.
pub(crate) fn cut<A: Allocator>(trace: &mut PlumTrace<A>, count: &str) -> Outcome {
    match place(count) {
        Some(count) => {
            trace.truncate(count);
            Outcome::Done
        }
        None => Outcome::Unknown,
    }
}

/// Leaves a trace those of its steps that stand at these places, in this order: `steps 0 2 2`.
pub(crate) fn select<A: Allocator + Copy>(
    alloc: A,
    trace: &mut PlumTrace<A>,
    words: &[&str],
) -> Result<Outcome, AllocError> {
    let Some(places) = places_of(alloc, words)? else {
        return Ok(Outcome::Unknown);
    };
    let mut steps = Vec::new(alloc);
    for place in &places {
        match trace.step(*place) {
            Some(step) => steps.push(copy_step(alloc, step)?)?,
            None => return Ok(Outcome::Unknown),
        }
    }
    refill(trace, steps, &[])?;
    Ok(Outcome::Done)
}

/// Divides a trace after so many of its steps: `divide 1 3`.
pub(crate) fn divide<A: Allocator + Copy>(
    alloc: A,
    trace: &mut PlumTrace<A>,
    words: &[&str],
) -> Result<Outcome, AllocError> {
    let Some(cuts) = places_of(alloc, words)? else {
        return Ok(Outcome::Unknown);
    };
    let steps = copy_steps(alloc, trace)?;
    refill(trace, steps, cuts.as_slice())?;
    Ok(Outcome::Done)
}

/// Has a trace start with other peers and another contact: `peers a c contact b`.
pub(crate) fn restart<A: Allocator + Copy>(
    alloc: A,
    trace: &mut PlumTrace<A>,
    words: &[&str],
) -> Result<Outcome, AllocError> {
    let Some((peers, contact)) = peers_and_contact(words) else {
        return Ok(Outcome::Unknown);
    };
    let Some(peers) = names(alloc, peers)? else {
        return Ok(Outcome::Unknown);
    };
    let steps = copy_steps(alloc, trace)?;
    let opening = copy_out(alloc, trace.opening())?;
    let origin = trace.origin();
    *trace = Trace::new(alloc, origin, Listed::from_vec(peers), contact, opening);
    refill(trace, steps, &[])?;
    Ok(Outcome::Done)
}

/// Has a step send only its first packets.
fn send_less<A: Allocator>(sends: &mut Listed<(NodeName, Frame<A>), A>, count: &str) -> Outcome {
    match place(count) {
        Some(count) => {
            sends.truncate(count);
            Outcome::Done
        }
        None => Outcome::Unknown,
    }
}

/// Has a node send one more packet.
fn send_more<A: Allocator + Copy>(
    alloc: A,
    sends: &mut Listed<(NodeName, Frame<A>), A>,
    sender: Origin,
    words: &[&str],
) -> Result<Outcome, AllocError> {
    let [to, count, words @ ..] = words else {
        return Ok(Outcome::Unknown);
    };
    let (Some(to), Some(number), Some(body)) = (name(to), number(count), body(alloc, words)?) else {
        return Ok(Outcome::Unknown);
    };
    match Frame::new(sender, number, body) {
        Ok(frame) => {
            sends.push((to, frame))?;
            Ok(Outcome::Done)
        }
        Err(_) => Ok(Outcome::Unknown),
    }
}

/// Has a step be made by something else.
fn remake<A: Allocator + Copy>(
    alloc: A,
    step: &mut PlumStep<A>,
    words: &[&str],
) -> Result<Outcome, AllocError> {
    match stimulus(alloc, words)? {
        Some(stimulus) => {
            step.stimulus = stimulus;
            Ok(Outcome::Done)
        }
        None => Ok(Outcome::Unknown),
    }
}

/// Alters a step of a run: `delivers nothing`, `sends 1`, that is the first of its packets alone, `sends-also b 2
/// PRUNE`, or what it is made by, as `arrive b/1 1 PRUNE`.
fn alter<A: Allocator + Copy>(
    alloc: A,
    run: Origin,
    step: &mut PlumStep<A>,
    words: &[&str],
) -> Result<Outcome, AllocError> {
    match words {
        ["delivers", "nothing"] => {
            step.out.deliveries.truncate(0);
            Ok(Outcome::Done)
        }
        ["sends", count] => Ok(send_less(&mut step.out.sends, count)),
        ["sends-also", words @ ..] => send_more(alloc, &mut step.out.sends, run, words),
        _ => remake(alloc, step, words),
    }
}

/// Alters the step at a place of a trace.
pub(crate) fn alter_step<A: Allocator + Copy>(
    alloc: A,
    trace: &mut PlumTrace<A>,
    at: &str,
    words: &[&str],
) -> Result<Outcome, AllocError> {
    let Some(at) = place(at) else {
        return Ok(Outcome::Unknown);
    };
    let mut steps = copy_steps(alloc, trace)?;
    let outcome = match steps.get_mut(at) {
        Some(step) => alter(alloc, trace.origin(), step, words)?,
        None => Outcome::Unknown,
    };
    refill(trace, steps, &[])?;
    Ok(outcome)
}
