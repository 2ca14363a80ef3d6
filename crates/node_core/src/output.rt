//! What a step sends and delivers: its packets, as numbered frames, and its delivery.
ghost use Rattle.std.specs.Prelude.{◌≡◌, ◌<◌, ◌≤◌, ◌+◌, ◌++◌, ◌∷◌, [], None, Some, length, take, IfOk, OnOk, OnErr};
ghost use Rattle.std.specs.Prelude.{◌&&◌, not, IsErrOf};
ghost use Rattle.node_names.specs.Same.{is_left_out};
ghost use Rattle.peer_sets.specs.Members.{is_eager_kind};
ghost use Rattle.gossip_core.specs.Answers.{effects_of, pushes};
ghost use Rattle.node_core.specs.Fits.{AreFit, IsFit};
ghost use Rattle.node_core.specs.Steps.{appended, delivered_at, numbered};

use frames::{Body, BodyOf, Frame};
use gossip_core::{Answer, AnswerOf, Spread};
use node_names::{Listed, NodeName, Origin, is_left_out};
use peer_sets::Member;
use protocol::{CoreError, Delivery, Out};
use std::alloc::{AllocError, Allocator};

/// Appends the body as a frame with this number.
fn push_frame<A: Allocator + Copy>(
    frames: &mut Listed<(NodeName, Frame<A>), A>,
    me: &Origin,
    number: u64,
    to: NodeName,
    body: Body<A>,
) -> Result<(), AllocError>
    requires numbered { 0 < number }
    requires fit { IsFit body }
    ensures ok { OnOk result
        (frames.new ≡ frames.old ++ (to, record { sender = me.now; number = number; body = body }) ∷ []) }
    ensures err { OnErr result (frames.new ≡ frames.old) }
{
    frames.push((to, Frame::from_parts(*me, number, body)))
}

/// Appends the bodies as frames of this origin, numbered in their order from `framed` + 1 on. There must be numbers
/// for all of them, and each must fit a frame. If an allocation fails, the earlier frames stay, and some of the new
/// ones may follow them.
fn number_all<A: Allocator + Copy>(
    me: &Origin,
    framed: u64,
    bodies: Listed<(NodeName, Body<A>), A>,
    frames: &mut Listed<(NodeName, Frame<A>), A>,
) -> Result<(), AllocError>
    requires fit { AreFit bodies }
    requires left { framed + length bodies ≤ u64.MAX }
    ensures ok { OnOk result (frames.new ≡ frames.old ++ numbered me.now framed bodies) }
    ensures err { OnErr result (take (length frames.old) frames.new ≡ frames.old) }
{
    let mut number = framed;
    for (to, body) in bodies.into_vec() {
        number += 1;
        push_frame(frames, me, number, to, body)?;
    }
    Ok(())
}

/// Appends the bodies, numbered, and returns the last number. `SeqSpent`: there are more bodies than numbers left. If
/// an allocation fails, some of the new frames may stand behind the earlier ones.
fn number_list<A: Allocator + Copy>(
    me: &Origin,
    framed: u64,
    bodies: Listed<(NodeName, Body<A>), A>,
    frames: &mut Listed<(NodeName, Frame<A>), A>,
) -> Result<u64, CoreError>
    requires { AreFit bodies }
    ensures last { IfOk result (λ last. last ≡ framed + length bodies) }
    ensures ok { OnOk result (frames.new ≡ frames.old ++ numbered me.now framed bodies) }
    ensures no_payload { IsErrOf result CoreError.PayloadTooLong → ⊥ }
    ensures spent { IsErrOf result CoreError.SeqSpent → u64.MAX < framed + length bodies }
    ensures err { OnErr result (take (length frames.old) frames.new ≡ frames.old) }
{
    let Some(last) = framed.checked_add(bodies.len() as u64) else {
        return Err(CoreError::SeqSpent);
    };
    number_all(me, framed, bodies, frames)?;
    Ok(last)
}

/// Returns whether the message goes on to the member.
fn goes_to<A: Allocator>(spread: &Spread<'_, A>, member: &Member) -> bool
    ensures { result ≡ (is_eager_kind member.now.1 && not (is_left_out spread.now.left_out member.now.0)) }
{
    member.1.is_eager() && !is_left_out(&spread.left_out, &member.0)
}

/// Appends the frame by which the message goes on to one peer, and returns its number. `SeqSpent`: no number is left.
fn number_push<A: Allocator + Copy>(
    me: &Origin,
    framed: u64,
    spread: &Spread<'_, A>,
    to: &NodeName,
    frames: &mut Listed<(NodeName, Frame<A>), A>,
) -> Result<u64, CoreError>
    requires { IsFit (BodyOf.Gossip spread.now.id spread.now.round spread.now.payload.now) }
    ensures last { IfOk result (λ last. last ≡ framed + 1) }
    ensures ok { OnOk result (frames.new ≡ frames.old ++ (
      to.now,
      record {
        sender = me.now;
        number = framed + 1;
        body = BodyOf.Gossip spread.now.id spread.now.round spread.now.payload.now;
      },
    ) ∷ []) }
    ensures no_payload { IsErrOf result CoreError.PayloadTooLong → ⊥ }
    ensures spent { IsErrOf result CoreError.SeqSpent → framed ≡ u64.MAX }
    ensures err { OnErr result (frames.new ≡ frames.old) }
{
    let Some(last) = framed.checked_add(1) else {
        return Err(CoreError::SeqSpent);
    };
    let body = BodyOf::Gossip {
        id: spread.id,
        round: spread.round,
        payload: spread.payload.clone()?,
    };
    push_frame(frames, me, last, *to, body)?;
    Ok(last)
}

/// Appends the frames by which a message goes on, in the same way as `number_list`.
fn number_pushes<A: Allocator + Copy>(
    me: &Origin,
    framed: u64,
    spread: &Spread<'_, A>,
    frames: &mut Listed<(NodeName, Frame<A>), A>,
) -> Result<u64, CoreError>
    requires { AreFit (pushes spread.now) }
    ensures last { IfOk result (λ last. last ≡ framed + length (pushes spread.now)) }
    ensures ok { OnOk result (frames.new ≡ frames.old ++ numbered me.now framed (pushes spread.now)) }
    ensures no_payload { IsErrOf result CoreError.PayloadTooLong → ⊥ }
    ensures spent { IsErrOf result CoreError.SeqSpent → u64.MAX < framed + length (pushes spread.now) }
    ensures err { OnErr result (take (length frames.old) frames.new ≡ frames.old) }
{
    let mut last = framed;
    for member in spread.members {
        if goes_to(spread, member) {
            last = number_push(me, last, spread, &member.0, frames)?;
        }
    }
    Ok(last)
}

/// Appends the frames by which a message goes on, and those behind them, in the same way.
fn number_message<A: Allocator + Copy>(
    me: &Origin,
    framed: u64,
    spread: &Spread<'_, A>,
    others: Listed<(NodeName, Body<A>), A>,
    frames: &mut Listed<(NodeName, Frame<A>), A>,
) -> Result<u64, CoreError>
    requires { AreFit (pushes spread.now ++ others) }
    ensures last { IfOk result (λ last. last ≡ framed + length (pushes spread.now ++ others)) }
    ensures ok { OnOk result (frames.new ≡ frames.old ++ numbered me.now framed (pushes spread.now ++ others)) }
    ensures no_payload { IsErrOf result CoreError.PayloadTooLong → ⊥ }
    ensures spent { IsErrOf result CoreError.SeqSpent → u64.MAX < framed + length (pushes spread.now ++ others) }
    ensures err { OnErr result (take (length frames.old) frames.new ≡ frames.old) }
{
    let pushed = number_pushes(me, framed, spread, frames)?;
    let last = number_list(me, pushed, others, frames)?;
    Ok(last)
}

/// Appends the delivery of a message that goes on.
fn deliver<A: Allocator + Copy>(
    me: &Origin,
    spread: &Spread<'_, A>,
    out: &mut Out<Frame<A>, A>,
) -> Result<(), AllocError>
    ensures ok { OnOk result (out.new ≡ record out.old {
      deliveries = out.old.deliveries ++ delivered_at me.now (Some (spread.now.id, spread.now.payload.now));
    }) }
    ensures err { OnErr result (out.new ≡ out.old) }
{
    out.deliveries.push(Delivery {
        node: *me,
        id: spread.id,
        payload: spread.payload.clone()?,
    })?;
    Ok(())
}

/// Appends a message that goes on, its delivery, and the packets behind it.
fn append_message<A: Allocator + Copy>(
    me: &Origin,
    framed: u64,
    spread: &Spread<'_, A>,
    others: Listed<(NodeName, Body<A>), A>,
    out: &mut Out<Frame<A>, A>,
) -> Result<u64, CoreError>
    requires { AreFit (pushes spread.now ++ others) }
    ensures last { IfOk result (λ last. last ≡ framed + length (pushes spread.now ++ others)) }
    ensures ok { OnOk result (out.new ≡ appended me.now framed (pushes spread.now ++ others)
        (Some (spread.now.id, spread.now.payload.now)) out.old) }
    ensures no_payload { IsErrOf result CoreError.PayloadTooLong → ⊥ }
    ensures spent { IsErrOf result CoreError.SeqSpent → u64.MAX < framed + length (pushes spread.now ++ others) }
    ensures err { OnErr result (out.new ≡ out.old) }
{
    let kept = out.sends.len();
    let last = match number_message(me, framed, spread, others, &mut out.sends) {
        Ok(last) => last,
        Err(e) => {
            out.sends.truncate(kept);
            return Err(e);
        }
    };
    if deliver(me, spread, out).is_err() {
        out.sends.truncate(kept);
        return Err(CoreError::OutOfMemory);
    }
    Ok(last)
}

/// Appends packets, numbered from `framed` + 1 on, and returns the last number. Each must fit a frame. `SeqSpent`:
/// there are more packets than numbers left.
pub(crate) fn append_list<A: Allocator + Copy>(
    me: &Origin,
    framed: u64,
    sends: Listed<(NodeName, Body<A>), A>,
    out: &mut Out<Frame<A>, A>,
) -> Result<u64, CoreError>
    requires { AreFit sends }
    ensures last { IfOk result (λ last. last ≡ framed + length sends) }
    ensures ok { OnOk result (out.new ≡ appended me.now framed sends None out.old) }
    ensures no_payload { IsErrOf result CoreError.PayloadTooLong → ⊥ }
    ensures spent { IsErrOf result CoreError.SeqSpent → u64.MAX < framed + length sends }
    ensures err { OnErr result (out.new ≡ out.old) }
{
    let kept = out.sends.len();
    match number_list(me, framed, sends, &mut out.sends) {
        Ok(last) => Ok(last),
        Err(e) => {
            out.sends.truncate(kept);
            Err(e)
        }
    }
}

/// Appends one packet, in the same way.
pub(crate) fn append_one<A: Allocator + Copy>(
    me: &Origin,
    framed: u64,
    to: NodeName,
    body: Body<A>,
    out: &mut Out<Frame<A>, A>,
) -> Result<u64, CoreError>
    requires { IsFit body }
    ensures last { IfOk result (λ last. last ≡ framed + 1) }
    ensures ok { OnOk result (out.new ≡ appended me.now framed ((to, body) ∷ []) None out.old) }
    ensures no_payload { IsErrOf result CoreError.PayloadTooLong → ⊥ }
    ensures spent { IsErrOf result CoreError.SeqSpent → framed ≡ u64.MAX }
    ensures err { OnErr result (out.new ≡ out.old) }
{
    let Some(last) = framed.checked_add(1) else {
        return Err(CoreError::SeqSpent);
    };
    push_frame(&mut out.sends, me, last, to, body)?;
    Ok(last)
}

/// Appends what the answer sends, numbered from `framed` + 1 on, and what it delivers, and returns the last number.
/// Each packet must fit a frame. `SeqSpent`: there are more packets than numbers left.
pub(crate) fn append_numbered<A: Allocator + Copy>(
    me: &Origin,
    framed: u64,
    answer: Answer<'_, A>,
    out: &mut Out<Frame<A>, A>,
) -> Result<u64, CoreError>
    requires { AreFit (effects_of answer).sends }
    ensures last { IfOk result (λ last. last ≡ framed + length (effects_of answer.entry).sends) }
    ensures ok { OnOk result (out.new ≡ appended me.now framed (effects_of answer.entry).sends
        (effects_of answer.entry).delivered out.old) }
    ensures no_payload { IsErrOf result CoreError.PayloadTooLong → ⊥ }
    ensures spent { IsErrOf result CoreError.SeqSpent → u64.MAX < framed + length (effects_of answer.entry).sends }
    ensures err { OnErr result (out.new ≡ out.old) }
{
    match answer {
        AnswerOf::Nothing => Ok(framed),
        AnswerOf::Packet { to, body } => append_one(me, framed, to, body, out),
        AnswerOf::Packets { sends } => append_list(me, framed, sends, out),
        AnswerOf::Message { spread, others } => append_message(me, framed, &spread, others, out),
    }
}
