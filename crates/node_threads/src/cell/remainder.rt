//! Compares what came out of a link with what the node sent, one packet at a time.
ghost use Rattle.std.specs.Prelude.{◌≡◌, ◌≤◌, ◌-◌, ◌==◌, ◌∷◌, [], IfOk, drop};
ghost use Rattle.std.specs.Prelude.{map, nat_eq, option_copied, if◌then◌else◌};
ghost use Rattle.std.specs.Cmp.Lexicographic.{pointwise};
ghost use Rattle.node_threads.specs.Applying.{mail_for};
ghost use Rattle.node_threads.specs.LinkText.{spelling, text_of, text_since};
ghost use Rattle.node_threads.specs.Report.{Leaves};

use crate::cell::link_frame::LinkFrame;
use frames::{Frame, encode};
use node_names::NodeName;
use protocol::Trace;
use std::alloc::{AllocError, Allocator};

/// Whether what came out is the frame. Only if it is not, the bytes of both are encoded, compared and freed again.
/// Different frames have different bytes, but comparing the bytes saves a proof of that.
fn is_frame<A: Allocator + Copy>(
    alloc: A,
    frame: &Frame<A>,
    given: &LinkFrame<A>,
) -> Result<bool, AllocError>
    ensures { IfOk result (λ same. same ≡ pointwise nat_eq given.now (spelling frame.now)) }
{
    if given.is(frame) {
        return Ok(true);
    }
    let bytes = encode(alloc, frame)?;
    let others = given.encode(alloc)?;
    Ok(others.as_slice() == bytes.as_slice())
}

/// What is left of these frames after a packet, which counts if it goes to the peer. `None`: its frame is not the first
/// of these.
fn strip_packet<'a, A: Allocator + Copy>(
    alloc: A,
    peer: &NodeName,
    send: &(NodeName, Frame<A>),
    given: &'a [LinkFrame<A>],
) -> Result<Option<&'a [LinkFrame<A>]>, AllocError>
    ensures { IfOk result (λ left. Leaves given.now (mail_for (send.now ∷ []) peer.now) (option_copied left)) }
{
    if send.0 != *peer {
        return Ok(Some(given));
    }
    let Some((first, rest)) = given.split_first() else {
        return Ok(Some(given));
    };
    if !is_frame(alloc, &send.1, first)? {
        return Ok(None);
    }
    Ok(Some(rest))
}

/// What is left of these frames after the packets of a step. Once nothing is left, the remaining packets are skipped.
fn strip<'a, A: Allocator + Copy>(
    alloc: A,
    peer: &NodeName,
    sends: &[(NodeName, Frame<A>)],
    mut given: &'a [LinkFrame<A>],
) -> Result<Option<&'a [LinkFrame<A>]>, AllocError>
    ensures { IfOk result (λ left. Leaves given.now (mail_for sends.now peer.now) (option_copied left)) }
{
    for send in sends {
        if given.is_empty() {
            return Ok(Some(given));
        }
        match strip_packet(alloc, peer, send, given)? {
            Some(rest) => given = rest,
            None => return Ok(None),
        }
    }
    Ok(Some(given))
}

/// What is left of these frames after the steps from a place on. Once nothing is left, the remaining steps are skipped.
fn strip_steps<'a, A: Allocator + Copy>(
    alloc: A,
    trace: &Trace<Frame<A>, A>,
    peer: &NodeName,
    opened: usize,
    mut given: &'a [LinkFrame<A>],
) -> Result<Option<&'a [LinkFrame<A>]>, AllocError>
    ensures { IfOk result (λ left.
        Leaves given.now (map spelling (text_of peer.now (drop opened trace.now.steps))) (option_copied left)) }
{
    for place in opened..trace.len() {
        if given.is_empty() {
            return Ok(Some(given));
        }
        let Some(step) = trace.step(place) else {
            unreachable!()
        };
        match strip(alloc, peer, step.out.sends.as_slice(), given)? {
            Some(rest) => given = rest,
            None => return Ok(None),
        }
    }
    Ok(Some(given))
}

/// The packets of the opening if a link was opened before any step, and no packets otherwise.
pub(crate) fn opening_of<A: Allocator>(
    trace: &Trace<Frame<A>, A>,
    opened: usize,
) -> &[(NodeName, Frame<A>)]
    ensures { result.now ≡ (if opened == 0 then trace.now.opening.sends else []) }
{
    if opened == 0 {
        trace.opening().sends.as_slice()
    } else {
        &[]
    }
}

/// What is left of these frames after all that the node sent to the peer since the link was opened. The trace lacks the
/// first `lost` steps.
pub(crate) fn strip_text<'a, A: Allocator + Copy>(
    alloc: A,
    trace: &Trace<Frame<A>, A>,
    lost: usize,
    peer: &NodeName,
    opened: usize,
    given: &'a [LinkFrame<A>],
) -> Result<Option<&'a [LinkFrame<A>]>, AllocError>
    requires { lost ≤ opened }
    ensures { IfOk result
        (λ left. Leaves given.now (map spelling (text_since lost trace.now peer.now opened)) (option_copied left)) }
{
    let Some(rest) = strip(alloc, peer, opening_of(trace, opened), given)? else {
        return Ok(None);
    };
    strip_steps(alloc, trace, peer, opened - lost, rest)
}
