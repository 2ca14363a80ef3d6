//! Writing the body of an entry: a byte for the kind of the stimulus, and its fields.
ghost use Rattle.std.specs.Prelude.{◌≡◌, ◌∷◌, ◌++◌, ℕ, List, IfOk, OnOk};
ghost use Rattle.node_names.specs.NodeName.{IsNodeName};
ghost use Rattle.frames.specs.Field.{IsOrigin, name_octets, origin_octets};
ghost use Rattle.frames.specs.Grammar.{IsSpelling};
ghost use Rattle.step_records.specs.Bodies.{IsBodyOf};
ghost use Rattle.step_records.specs.Text.{dice_text};

use crate::put::{put_dice, put_id, put_name, put_origin};
use frames::{Frame, encode};
use node_names::{Dice, NodeName, Origin};
use protocol::{Stimulus, StimulusOf};
use std::alloc::{AllocError, Global};

/// The kinds of entries.
pub(crate) const BROADCAST: u8 = 1;

pub(crate) const ARRIVE: u8 = 2;

pub(crate) const FIRE: u8 = 3;

pub(crate) const FLUSH: u8 = 4;

pub(crate) const DOWN: u8 = 5;

pub(crate) const SHUFFLE: u8 = 6;

pub(crate) const JOIN: u8 = 7;

/// Appends the kind, the sender and the dice of an arrival.
fn put_sender(out: &mut Vec<u8>, sender: &Origin, dice: &Dice) -> Result<(), AllocError>
    ensures bytes { OnOk result
        (out.new.items ≡ out.old.items ++ 2 ∷ (origin_octets sender.now ++ dice_text dice.now)) }
    ensures sender { OnOk result (IsOrigin sender.now) }
{
    out.push(ARRIVE)?;
    put_origin(out, sender)?;
    put_dice(out, dice)
}

/// Appends the body of an arrival.
fn put_arrival(
    out: &mut Vec<u8>,
    sender: &Origin,
    frame: &Frame,
    dice: &Dice,
) -> Result<(), AllocError>
    ensures { OnOk result ((spelling : List ℕ) × IsSpelling frame.now spelling
        × (out.new.items ≡ out.old.items ++ (2 ∷ (origin_octets sender.now ++ dice_text dice.now)) ++ spelling)) }
{
    let alloc = *out.allocator();
    put_sender(out, sender, dice)?;
    let spelling = encode(alloc, frame)?;
    out.extend_from_slice(spelling.as_slice())
}

/// Appends the kind, the peer and the dice of a link that fails.
fn put_down(out: &mut Vec<u8>, peer: &NodeName, dice: &Dice) -> Result<(), AllocError>
    ensures bytes { OnOk result (out.new.items ≡ out.old.items ++ 5 ∷ (name_octets peer.now ++ dice_text dice.now)) }
    ensures peer { OnOk result (IsNodeName peer.now) }
{
    out.push(DOWN)?;
    put_name(out, peer)?;
    put_dice(out, dice)
}

/// Appends the body of an entry.
fn put_body(out: &mut Vec<u8>, stimulus: &Stimulus<Frame>) -> Result<(), AllocError>
    ensures { OnOk result ((body : List ℕ) × IsBodyOf stimulus.now body × (out.new.items ≡ out.old.items ++ body)) }
{
    match stimulus {
        StimulusOf::Broadcast(payload) => {
            out.push(BROADCAST)?;
            out.extend_from_slice(payload.as_slice())
        }
        StimulusOf::Arrive { sender, note, dice } => put_arrival(out, sender, note, dice),
        StimulusOf::Fire(id) => {
            out.push(FIRE)?;
            put_id(out, id)
        }
        StimulusOf::Flush => Ok(out.push(FLUSH)?),
        StimulusOf::Down { peer, dice } => put_down(out, peer, dice),
        StimulusOf::Shuffle(dice) => {
            out.push(SHUFFLE)?;
            put_dice(out, dice)
        }
        StimulusOf::Join(contact) => {
            out.push(JOIN)?;
            put_name(out, contact)
        }
    }
}

/// Makes the body of an entry.
pub(crate) fn entry_body(alloc: Global, stimulus: &Stimulus<Frame>) -> Result<Vec<u8>, AllocError>
    ensures { IfOk result (λ body. IsBodyOf stimulus.now body.items) }
{
    let mut out = Vec::new(alloc);
    put_body(&mut out, stimulus)?;
    Ok(out)
}
