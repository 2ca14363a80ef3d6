//! Writing the body of a file's first block.
ghost use Rattle.std.specs.Prelude.{◌≡◌, ◌++◌, IfOk, OnOk};
ghost use Rattle.step_records.specs.Bodies.{contact_text, head_text, limits_text, peers_text, sizes_text};
ghost use Rattle.step_records.specs.Writing.{first_body};

use crate::head::Head;
use crate::place::Place;
use crate::put::{put_name, put_number, put_origin, put_word};
use node_names::{Limits, NodeName};
use std::alloc::{AllocError, Global};

/// The six sizes.
fn sizes_of(limits: &Limits) -> [u8; 6]
    ensures { result ≡ sizes_text limits.now }
{
    [
        limits.active(),
        limits.passive(),
        limits.arwl(),
        limits.prwl(),
        limits.ka(),
        limits.kp(),
    ]
}

/// Appends the six sizes, the threshold and the number of payloads to keep.
fn put_limits(out: &mut Vec<u8>, limits: &Limits) -> Result<(), AllocError>
    ensures { OnOk result (out.new.items ≡ out.old.items ++ limits_text limits.now) }
{
    out.extend_from_slice(&sizes_of(limits))?;
    put_word(out, limits.threshold())?;
    put_word(out, limits.keep())
}

/// Appends the number of peers, and the peers.
fn put_peers(out: &mut Vec<u8>, head: &Head) -> Result<(), AllocError>
    ensures { OnOk result (out.new.items ≡ out.old.items ++ peers_text head.now.peers) }
{
    let _most = head.limits.active();
    out.push(head.peers.len() as u8)?;
    for peer in head.peers.as_slice() {
        put_name(out, peer)?;
    }
    Ok(())
}

/// Appends 1 and the contact, or 0 if there is none.
fn put_contact(out: &mut Vec<u8>, contact: &Option<NodeName>) -> Result<(), AllocError>
    ensures { OnOk result (out.new.items ≡ out.old.items ++ contact_text contact.now) }
{
    match contact {
        Some(contact) => {
            out.push(1)?;
            put_name(out, contact)
        }
        None => Ok(out.push(0)?),
    }
}

/// Writes a head. These bytes are the same in all files of a record.
pub(crate) fn head_bytes(alloc: Global, head: &Head) -> Result<Vec<u8>, AllocError>
    ensures { IfOk result (λ bytes. bytes.items ≡ head_text head.now) }
{
    let mut out = Vec::new(alloc);
    put_name(&mut out, &head.label)?;
    put_origin(&mut out, &head.origin)?;
    put_limits(&mut out, &head.limits)?;
    put_peers(&mut out, head)?;
    put_contact(&mut out, &head.contact)?;
    Ok(out)
}

/// Writes the body of a file's first block: the head, and where the file goes on with the record.
pub(crate) fn head_body(alloc: Global, head: &[u8], place: &Place) -> Result<Vec<u8>, AllocError>
    ensures { IfOk result (λ body. body.items ≡ first_body head.now place.now.entries place.now.check.0) }
{
    let mut out = Vec::from_slice(alloc, head)?;
    put_number(&mut out, place.entries)?;
    out.extend_from_slice(&place.check.0)?;
    Ok(out)
}
