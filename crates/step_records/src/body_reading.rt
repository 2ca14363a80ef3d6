//! Reading the body of an entry.
ghost use Rattle.std.specs.Prelude.{◌≡◌, ◌∷◌, ◌++◌, IfOk};
ghost use Rattle.frames.specs.Field.{origin_octets};
ghost use Rattle.frames.specs.Grammar.{IsSpelling};
ghost use Rattle.step_records.specs.Bodies.{IsBodyOf};
ghost use Rattle.step_records.specs.Text.{dice_text};

use crate::body_writing::{ARRIVE, BROADCAST, DOWN, FIRE, FLUSH, JOIN, SHUFFLE};
use crate::error::RecordErrorKind;
use crate::fields::Fields;
use bytes::Bytes;
use frames::{Frame, FrameFault, decode};
use node_names::{Dice, Origin};
use protocol::{Stimulus, StimulusOf};
use std::alloc::Global;

/// Reads the frame that these bytes are.
fn frame(alloc: Global, bytes: &[u8]) -> Result<Frame, RecordErrorKind>
    ensures { IfOk result (λ frame. IsSpelling frame bytes.now) }
{
    match decode(alloc, bytes) {
        Ok((frame, len)) if len == bytes.len() => Ok(frame),
        Ok(_) => Err(RecordErrorKind::BadFrame(FrameFault::Trailing)),
        Err(FrameFault::OutOfMemory) => Err(RecordErrorKind::OutOfMemory),
        Err(fault) => Err(RecordErrorKind::BadFrame(fault)),
    }
}

/// Reads the sender and the dice of an arrival.
fn sender(fields: &mut Fields<'_>) -> Result<(Origin, Dice), FrameFault>
    ensures { IfOk result (λ both. fields.old ≡ (origin_octets both.0 ++ dice_text both.1) ++ fields.new) }
{
    let sender = fields.origin()?;
    let dice = fields.dice()?;
    Ok((sender, dice))
}

/// Reads the sender, the dice and the frame of an arrival.
fn arrival(alloc: Global, fields: &mut Fields<'_>) -> Result<Stimulus<Frame>, RecordErrorKind>
    ensures { IfOk result (λ stimulus. IsBodyOf stimulus (2 ∷ fields.old)) }
{
    let (sender, dice) = match sender(fields) {
        Ok(both) => both,
        Err(fault) => return Err(RecordErrorKind::BadEntry(fault)),
    };
    let note = frame(alloc, fields.rest())?;
    Ok(StimulusOf::Arrive { sender, note, dice })
}

fn fire(fields: &mut Fields<'_>) -> Result<Stimulus<Frame>, FrameFault>
    ensures { IfOk result (λ stimulus. IsBodyOf stimulus (3 ∷ fields.old)) }
{
    let id = fields.id()?;
    fields.end()?;
    Ok(StimulusOf::Fire(id))
}

fn flush(fields: &mut Fields<'_>) -> Result<Stimulus<Frame>, FrameFault>
    ensures { IfOk result (λ stimulus. IsBodyOf stimulus (4 ∷ fields.old)) }
{
    fields.end()?;
    Ok(StimulusOf::Flush)
}

fn down(fields: &mut Fields<'_>) -> Result<Stimulus<Frame>, FrameFault>
    ensures { IfOk result (λ stimulus. IsBodyOf stimulus (5 ∷ fields.old)) }
{
    let peer = fields.name()?;
    let dice = fields.dice()?;
    fields.end()?;
    Ok(StimulusOf::Down { peer, dice })
}

fn shuffle(fields: &mut Fields<'_>) -> Result<Stimulus<Frame>, FrameFault>
    ensures { IfOk result (λ stimulus. IsBodyOf stimulus (6 ∷ fields.old)) }
{
    let dice = fields.dice()?;
    fields.end()?;
    Ok(StimulusOf::Shuffle(dice))
}

fn join(fields: &mut Fields<'_>) -> Result<Stimulus<Frame>, FrameFault>
    ensures { IfOk result (λ stimulus. IsBodyOf stimulus (7 ∷ fields.old)) }
{
    let contact = fields.name()?;
    fields.end()?;
    Ok(StimulusOf::Join(contact))
}

/// Reads the stimulus of a kind that has neither a payload nor a frame.
fn short(kind: u8, fields: &mut Fields<'_>) -> Result<Stimulus<Frame>, RecordErrorKind>
    ensures { IfOk result (λ stimulus. IsBodyOf stimulus (kind ∷ fields.old)) }
{
    let read = match kind {
        FIRE => fire(fields),
        FLUSH => flush(fields),
        DOWN => down(fields),
        SHUFFLE => shuffle(fields),
        JOIN => join(fields),
        _ => return Err(RecordErrorKind::UnknownKind(kind)),
    };
    match read {
        Ok(stimulus) => Ok(stimulus),
        Err(fault) => Err(RecordErrorKind::BadEntry(fault)),
    }
}

/// Reads the stimulus that the body of an entry tells.
pub(crate) fn stimulus(alloc: Global, body: &[u8]) -> Result<Stimulus<Frame>, RecordErrorKind>
    ensures { IfOk result (λ stimulus. IsBodyOf stimulus body.now) }
{
    let [kind, rest @ ..] = body else {
        return Err(RecordErrorKind::BadEntry(FrameFault::BadField));
    };
    match *kind {
        BROADCAST => {
            let payload = Bytes::copy_from_slice(alloc, rest)?;
            Ok(StimulusOf::Broadcast(payload))
        }
        ARRIVE => arrival(alloc, &mut Fields::new(rest)),
        other => short(other, &mut Fields::new(rest)),
    }
}
