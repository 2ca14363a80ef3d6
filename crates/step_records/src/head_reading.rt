//! Reading the body of a file's first block.
ghost use Rattle.std.specs.Prelude.{◌≡◌, ◌++◌, ◌^◌, [], Ok, IfOk};
ghost use Rattle.step_records.specs.Bodies.{contact_text, head_text, limits_text, peers_text};
ghost use Rattle.step_records.specs.Text.{number_text};

use crate::error::{HeadPart, RecordErrorKind};
use crate::fields::Fields;
use crate::head::Head;
use crate::place::Place;
use frames::FrameFault;
use node_names::{Limits, Listed, NodeName};
use std::alloc::Global;

/// What was read of this part of the head.
fn part<T>(part: HeadPart, read: Result<T, FrameFault>) -> Result<T, RecordErrorKind>
    ensures { IfOk result (λ value. read ≡ Ok value) }
{
    match read {
        Ok(value) => Ok(value),
        Err(_) => Err(RecordErrorKind::BadHead(part)),
    }
}

fn limits(fields: &mut Fields<'_>) -> Result<Limits, FrameFault>
    ensures { IfOk result (λ limits. fields.old ≡ limits_text limits ++ fields.new) }
{
    let sizes = fields.octets(6)?;
    let threshold = fields.word()?;
    let keep = fields.word()?;
    match Limits::new(sizes[0], sizes[1], sizes[2], sizes[3], sizes[4], sizes[5]) {
        Ok(limits) => Ok(limits.tuned(threshold).keeping(keep)),
        Err(_) => Err(FrameFault::BadField),
    }
}

fn peers(alloc: Global, fields: &mut Fields<'_>) -> Result<Listed<NodeName>, RecordErrorKind>
    ensures { IfOk result (λ peers. fields.old ≡ peers_text peers ++ fields.new) }
{
    let count = part(HeadPart::Peers, fields.byte())?;
    let mut peers = Listed::new(alloc);
    for _place in 0..count {
        peers.push(part(HeadPart::Peers, fields.name())?)?;
    }
    Ok(peers)
}

fn contact(fields: &mut Fields<'_>) -> Result<Option<NodeName>, FrameFault>
    ensures { IfOk result (λ contact. fields.old ≡ contact_text contact ++ fields.new) }
{
    match fields.byte()? {
        0 => Ok(None),
        1 => Ok(Some(fields.name()?)),
        _ => Err(FrameFault::BadField),
    }
}

/// Reads the head that these bytes are.
pub(crate) fn read_head(alloc: Global, bytes: &[u8]) -> Result<Head, RecordErrorKind>
    ensures { IfOk result (λ head. bytes.now ≡ head_text head) }
{
    let mut fields = Fields::new(bytes);
    let label = part(HeadPart::Label, fields.name())?;
    let origin = part(HeadPart::Node, fields.origin())?;
    let limits = part(HeadPart::Limits, limits(&mut fields))?;
    let peers = peers(alloc, &mut fields)?;
    let contact = part(HeadPart::Contact, contact(&mut fields))?;
    part(HeadPart::Contact, fields.end())?;
    match Head::new(label, origin, limits, peers, contact) {
        Some(head) => Ok(head),
        None => Err(RecordErrorKind::BadHead(HeadPart::Peers)),
    }
}

/// Reads where a file goes on with the record.
pub(crate) fn read_place(bytes: &[u8]) -> Result<Place, RecordErrorKind>
    ensures { IfOk result (λ place. bytes.now ≡ number_text place.entries ++ place.check.0) }
{
    let mut fields = Fields::new(bytes);
    let entries = part(HeadPart::Place, fields.number())?;
    let check = part(HeadPart::Place, fields.check())?;
    part(HeadPart::Place, fields.end())?;
    Ok(Place { entries, check })
}
