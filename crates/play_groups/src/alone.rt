//! A core outside its group, whose calls are made directly.
use crate::cores::Played;
use crate::events::{place, thrown};
use crate::texts::{push_core, push_known, push_out};
use node_names::MsgId;
use play_script::layer::{Outcome, Turn};
use play_script::words::{id, name, payload};
use protocol::{Core, CoreError, Out, Prepared, Stimulus, StimulusOf, Wire};
use std::alloc::{AllocError, Allocator};
use std::fmt::Write;
use world::World;

/// A core, and what its steps gave.
#[derive(Drop)]
pub(crate) struct Alone<C: Core<A>, A: Allocator> {
    pub(crate) core: C,
    pub(crate) out: Out<C::Note, A>,
}

/// Which part of a step a command takes.
#[derive(Clone, Copy)]
pub(crate) enum Part {
    /// `prepare`: the step is prepared, and not carried out.
    Preparing,
    /// `advance`: the step is prepared without a refusal, and then carried out.
    Advancing,
    /// `step`: the step is taken as a whole.
    Whole,
}

/// Returns the core with an empty output.
pub(crate) fn make_alone<C: Core<A>, A: Allocator + Copy>(
    alloc: A,
    made: Result<C, AllocError>,
) -> Result<Alone<C, A>, AllocError> {
    Ok(Alone {
        core: made?,
        out: Out::new(alloc),
    })
}

/// Appends a core, what it knows of some messages, and how much its steps gave.
pub(crate) fn push_alone<C: Played<A>, A: Allocator>(
    text: &mut String,
    alone: &Alone<C, A>,
    ids: &[MsgId],
) -> Result<(), AllocError> {
    push_member(text, &alone.core, ids)?;
    let (sent, delivered) = (alone.out.sends.len(), alone.out.deliveries.len());
    if sent > 0 || delivered > 0 {
        writeln!(text, "given: {delivered} deliveries, {sent} packets")?;
    }
    Ok(())
}

/// Appends a core, and what it knows of some messages.
pub(crate) fn push_member<C: Played<A>, A: Allocator>(
    text: &mut String,
    core: &C,
    ids: &[MsgId],
) -> Result<(), AllocError> {
    text.push_str("core ")?;
    push_core(text, core)?;
    core.push_members(text)?;
    text.push('\n')?;
    for id in ids {
        push_known(text, core, id)?;
    }
    Ok(())
}

/// Returns the broadcast of a payload.
fn broadcast<N, A: Allocator + Copy>(
    alloc: A,
    letters: &str,
) -> Result<Option<Stimulus<N, A>>, AllocError> {
    match payload(alloc, letters)? {
        Some(payload) => Ok(Some(StimulusOf::Broadcast(payload))),
        None => Ok(None),
    }
}

/// Returns the arrival of the packet at a place of the group's flight. The packet stays there.
fn arrival<C: Core<A>, A: Allocator + Copy>(
    group: &World<C, A>,
    at: &str,
    words: &[&str],
) -> Result<Option<Stimulus<C::Note, A>>, AllocError> {
    let (Some(at), Some(dice)) = (place(at), thrown(words)) else {
        return Ok(None);
    };
    let Some(number) = group.flight().get(at) else {
        return Ok(None);
    };
    let Some(packet) = group.sent().get(*number) else {
        return Ok(None);
    };
    Ok(Some(StimulusOf::Arrive {
        sender: packet.sender,
        note: packet.note.copy()?,
        dice,
    }))
}

/// Parses a stimulus that brings neither a payload nor a packet.
fn plain<N, A: Allocator>(words: &[&str]) -> Option<Stimulus<N, A>> {
    Some(match words {
        ["fire", message] => StimulusOf::Fire(id(message)?),
        ["flush"] => StimulusOf::Flush,
        ["down", peer, words @ ..] => StimulusOf::Down {
            peer: name(peer)?,
            dice: thrown(words)?,
        },
        ["shuffle", words @ ..] => StimulusOf::Shuffle(thrown(words)?),
        ["join", contact] => StimulusOf::Join(name(contact)?),
        _ => return None,
    })
}

/// Parses what makes a core step: an event without the name of its node.
pub(crate) fn stimulus_of<C: Core<A>, A: Allocator + Copy>(
    alloc: A,
    group: &World<C, A>,
    words: &[&str],
) -> Result<Option<Stimulus<C::Note, A>>, AllocError> {
    match words {
        ["broadcast", letters] => broadcast(alloc, letters),
        ["arrive", at, words @ ..] => arrival(group, at, words),
        _ => Ok(plain(words)),
    }
}

/// Prepares a step. Returns whether it changes the active view.
fn prepare<C: Core<A>, A: Allocator + Copy>(
    core: &C,
    stimulus: &Stimulus<C::Note, A>,
    turn: &mut Turn<'_>,
    out: &mut Out<C::Note, A>,
) -> Result<bool, CoreError> {
    let lent = stimulus.as_ref();
    turn.begin();
    let answer = core.prepare(&lent, out);
    turn.end();
    let Prepared { moved, .. } = answer?;
    Ok(moved)
}

/// Prepares a step, and then carries it out. Returns whether it changes the active view. If it is not carried out,
/// nothing changes.
fn advance<C: Core<A>, A: Allocator + Copy>(
    core: &mut C,
    stimulus: &Stimulus<C::Note, A>,
    turn: &mut Turn<'_>,
    out: &mut Out<C::Note, A>,
) -> Result<bool, CoreError> {
    let (sent, delivered) = (out.sends.len(), out.deliveries.len());
    let lent = stimulus.as_ref();
    let Prepared { turn: step, moved } = core.prepare(&lent, out)?;
    turn.begin();
    let answer = core.advance(&lent, step);
    turn.end();
    if answer.is_err() {
        out.sends.truncate(sent);
        out.deliveries.truncate(delivered);
        return Err(CoreError::OutOfMemory);
    }
    Ok(moved)
}

/// Takes a step.
fn step<C: Core<A>, A: Allocator + Copy>(
    core: &mut C,
    stimulus: &Stimulus<C::Note, A>,
    turn: &mut Turn<'_>,
    out: &mut Out<C::Note, A>,
) -> Result<bool, CoreError> {
    turn.begin();
    let answer = core.step(stimulus, out);
    turn.end();
    answer?;
    Ok(false)
}

/// Takes a step or a part of it, and appends what that gave and, but for a whole step, whether it changes the active
/// view.
pub(crate) fn take_part<C: Played<A>, A: Allocator + Copy>(
    alone: &mut Alone<C, A>,
    stimulus: &Stimulus<C::Note, A>,
    part: Part,
    turn: &mut Turn<'_>,
    said: &mut String,
) -> Result<Outcome, AllocError> {
    let Alone { core, out } = alone;
    let (sent, delivered) = (out.sends.len(), out.deliveries.len());
    let answer = match part {
        Part::Preparing => prepare(core, stimulus, turn, out),
        Part::Advancing => advance(core, stimulus, turn, out),
        Part::Whole => step(core, stimulus, turn, out),
    };
    push_out::<C, A>(said, out, sent, delivered)?;
    push_answer(said, answer)
}

/// Appends what a step answered.
pub(crate) fn push_answer(
    said: &mut String,
    answer: Result<bool, CoreError>,
) -> Result<Outcome, AllocError> {
    match answer {
        Ok(true) => said.push_str("moves the active view\n")?,
        Ok(false) => {}
        Err(CoreError::OutOfMemory) => return Ok(Outcome::NoMemory),
        Err(why) => writeln!(said, "{why}")?,
    }
    Ok(Outcome::Done)
}
