//! What a node leaves, as text. Dice are compared with those that a reader draws.
use bytes::Bytes;
use frames::Frame;
use node_names::{Dice, NodeName, Origin};
use node_threads::{CloseError, Closed, LinkReport, NodeCore};
use protocol::{Delivery, Out, Step, Stimulus, StimulusOf, Trace};
use rand_core::SeedableRng;
use rand_pcg::Lcg128Xsl64;
use std::alloc::{AllocError, Allocator};
use std::fmt::Write;
use test_support::{push_frame, push_letters};

/// The seed of the generator of a reader's dice.
pub(crate) const SEED: u64 = 7;

/// Appends nothing if dice are all zeros, `by dice` if they are the generator's next, and `by other dice` otherwise.
fn push_dice(
    text: &mut String,
    dice: &Dice,
    generator: &mut Lcg128Xsl64,
) -> Result<(), AllocError> {
    if *dice == Dice::ZEROS {
        Ok(())
    } else if *dice == Dice::draw(generator) {
        write!(text, " by dice")
    } else {
        write!(text, " by other dice")
    }
}

/// Appends a broadcast.
fn push_broadcast<A: Allocator>(text: &mut String, payload: &Bytes<A>) -> Result<(), AllocError> {
    write!(text, "broadcast ")?;
    push_letters(text, payload.as_slice())
}

/// Appends the arrival of a frame.
fn push_arrival<A: Allocator>(
    text: &mut String,
    sender: &Origin,
    frame: &Frame<A>,
    dice: &Dice,
    generator: &mut Lcg128Xsl64,
) -> Result<(), AllocError> {
    write!(text, "from {sender} ")?;
    push_frame(text, frame)?;
    push_dice(text, dice, generator)
}

/// Appends the failure of a link.
fn push_down(
    text: &mut String,
    peer: &NodeName,
    dice: &Dice,
    generator: &mut Lcg128Xsl64,
) -> Result<(), AllocError> {
    write!(text, "down {peer}")?;
    push_dice(text, dice, generator)
}

/// Appends what made a node step.
fn push_stimulus<A: Allocator>(
    text: &mut String,
    stimulus: &Stimulus<Frame<A>, A>,
    generator: &mut Lcg128Xsl64,
) -> Result<(), AllocError> {
    match stimulus {
        StimulusOf::Broadcast(payload) => push_broadcast(text, payload),
        StimulusOf::Arrive { sender, note, dice } => {
            push_arrival(text, sender, note, dice, generator)
        }
        StimulusOf::Down { peer, dice } => push_down(text, peer, dice, generator),
        _ => write!(text, "other"),
    }
}

/// Appends a delivery.
fn push_delivery<A: Allocator>(
    text: &mut String,
    delivery: &Delivery<A>,
) -> Result<(), AllocError> {
    write!(text, "; {} delivers {} ", delivery.node, delivery.id)?;
    push_letters(text, delivery.payload.as_slice())
}

/// Appends deliveries.
fn push_deliveries<A: Allocator>(
    text: &mut String,
    given: &[Delivery<A>],
) -> Result<(), AllocError> {
    for delivery in given {
        push_delivery(text, delivery)?;
    }
    Ok(())
}

/// Appends sends.
fn push_sends<A: Allocator>(
    text: &mut String,
    sends: &[(NodeName, Frame<A>)],
) -> Result<(), AllocError> {
    for (to, frame) in sends {
        write!(text, "; to {to} ")?;
        push_frame(text, frame)?;
    }
    Ok(())
}

/// Appends what was delivered and sent.
fn push_out<A: Allocator>(text: &mut String, out: &Out<Frame<A>, A>) -> Result<(), AllocError> {
    push_deliveries(text, out.deliveries.as_slice())?;
    push_sends(text, out.sends.as_slice())
}

/// Appends a step.
fn push_step<A: Allocator>(
    text: &mut String,
    step: &Step<Frame<A>, A>,
    generator: &mut Lcg128Xsl64,
) -> Result<(), AllocError> {
    write!(text, " | ")?;
    push_stimulus(text, &step.stimulus, generator)?;
    push_out(text, &step.out)
}

/// Appends how a node started.
fn push_opening<A: Allocator>(
    text: &mut String,
    trace: &Trace<Frame<A>, A>,
) -> Result<(), AllocError> {
    write!(text, "{} among", trace.origin())?;
    for peer in trace.peers() {
        write!(text, " {peer}")?;
    }
    if let Some(contact) = trace.contact() {
        write!(text, " by {contact}")?;
    }
    push_out(text, trace.opening())
}

/// Appends a trace.
fn push_trace<A: Allocator>(
    text: &mut String,
    trace: &Trace<Frame<A>, A>,
) -> Result<(), AllocError> {
    let mut generator = Lcg128Xsl64::seed_from_u64(SEED);
    push_opening(text, trace)?;
    for place in 0..trace.len() {
        if let Some(step) = trace.step(place) {
            push_step(text, step, &mut generator)?;
        }
    }
    Ok(())
}

/// Appends the reports of links: how many frames came out, to which peer, and from which step on.
fn push_links(text: &mut String, links: &[LinkReport]) -> Result<(), AllocError> {
    for link in links {
        write!(
            text,
            "; {} to {} from {}",
            link.taken, link.peer, link.opened
        )?;
    }
    Ok(())
}

/// Appends how many steps a node forgot, if it may forget, and the trace of the others.
fn push_past<A: Allocator>(
    text: &mut String,
    since: &Option<usize>,
    trace: &Trace<Frame<A>, A>,
) -> Result<(), AllocError> {
    if let Some(since) = since {
        write!(text, "forgot {since}: ")?;
    }
    push_trace(text, trace)
}

/// Appends what a node left.
fn push_closed<A: Allocator>(text: &mut String, closed: &Closed<A>) -> Result<(), AllocError> {
    push_past(text, &closed.since, &closed.trace)?;
    write!(text, " | handed out {}", closed.handed_out)?;
    push_links(text, closed.links.as_slice())
}

/// Appends what the close of a node returns.
pub(crate) fn push_answer<C: NodeCore<A> + Drop, A: Allocator>(
    text: &mut String,
    answer: &Result<Closed<A>, CloseError<C, A>>,
) -> Result<(), AllocError> {
    match answer {
        Ok(closed) => push_closed(text, closed),
        Err(CloseError::PortMissing { .. }) => write!(text, "port missing"),
        Err(CloseError::Unlike { port, since, trace }) => {
            write!(text, "unlike at {port}: ")?;
            push_past(text, since, trace)
        }
        Err(CloseError::Torn { peer, since, trace }) => {
            write!(text, "torn to {peer}: ")?;
            push_past(text, since, trace)
        }
        Err(CloseError::OutOfMemory { since, trace }) => {
            write!(text, "out of memory: ")?;
            push_past(text, since, trace)
        }
    }
}
