//! Steps as text.
use crate::text::push_frame;
use anyhow::Result;
use frames::{Frame, encode};
use protocol::{Step, StimulusOf};
use std::alloc::{AllocError, Global};

/// Appends a frame that arrived.
fn push_arrival(alloc: Global, text: &mut String, frame: &Frame) -> Result<(), AllocError> {
    let spelling = encode(alloc, frame)?;
    push_frame(alloc, text, spelling.as_slice(), 0, frame)?;
    Ok(())
}

/// Appends what a step took.
fn push_step(alloc: Global, text: &mut String, step: &Step<Frame>) -> Result<(), AllocError> {
    match &step.stimulus {
        StimulusOf::Broadcast(payload) => write!(text, "broadcast {}", payload.len()),
        StimulusOf::Arrive { note, .. } => push_arrival(alloc, text, note),
        StimulusOf::Fire(id) => write!(text, "fire {id}"),
        StimulusOf::Flush => text.push_str("flush"),
        StimulusOf::Down { peer, .. } => write!(text, "down {peer}"),
        StimulusOf::Shuffle(_) => text.push_str("shuffle"),
        StimulusOf::Join(contact) => write!(text, "join {contact}"),
    }
}

/// Appends what steps took, each behind a comma.
pub(crate) fn push_steps(
    alloc: Global,
    text: &mut String,
    steps: &[Step<Frame>],
) -> Result<(), AllocError> {
    for step in steps {
        text.push_str(", ")?;
        push_step(alloc, text, step)?;
    }
    Ok(())
}
