//! The start of a node: its core, and what its first frames have wait.
ghost use Rattle.std.specs.Prelude.{◌≡◌, [], List, Result, IfErr, IfOk, IsTrue, OnOk};
ghost use Rattle.node_names.specs.NodeName.{Name};
ghost use Rattle.frames.specs.Frame.{Frame as Sent};
ghost use Rattle.protocol.specs.Peers.{are_peers};
ghost use Rattle.node_core.specs.Steps.{PlumStarts};
ghost use Rattle.wire_node.specs.Acting.{AreSettled};
ghost use Rattle.wire_node.specs.Recording.{opened};
ghost use Rattle.wire_node.specs.Waiting.{mail_for, settled_for};

use crate::drafts::{Entry, draft_all, settle_all};
use crate::error::WireError;
use crate::limits::WireLimits;
use crate::step::Record;
use frames::Frame;
use node_core::PlumCore;
use node_names::{NodeName, Origin};
use protocol::{Core, Out};
use std::alloc::{AllocError, Allocator};

/// Starts the core. What it sends is put into `out`, which is empty.
pub(crate) fn start_core<A: Allocator + Copy>(
    alloc: A,
    me: Origin,
    limits: &WireLimits,
    peers: &[NodeName],
    contact: Option<NodeName>,
    out: &mut Out<Frame<A>, A>,
) -> Result<PlumCore<A>, WireError>
    requires peers { IsTrue (are_peers limits.now.core me.name peers.now contact) }
    requires empty { (out.old.sends ≡ []) × (out.old.deliveries ≡ []) }
    ensures started { IfOk result (λ core. PlumStarts me limits.now.core peers.now contact out.new.sends core) }
    ensures nothing { OnOk result (out.new.deliveries ≡ []) }
    ensures refused { IfErr result (λ e. e ≡ WireError.OutOfMemory) }
{
    match PlumCore::start(alloc, me, limits.core, peers, contact, out) {
        Ok(core) => Ok(core),
        Err(error) => Err(WireError::of_core(error)),
    }
}

/// What waits if these frames are the first.
fn first_entries<A: Allocator + Copy>(
    alloc: A,
    sends: &[(NodeName, Frame<A>)],
) -> Result<Vec<Entry<A>, A>, AllocError>
    ensures waits { IfOk result (λ entries. (name : Name) → settled_for entries.items name ≡ mail_for sends.now name) }
    ensures settled { IfOk result (λ entries. AreSettled entries.items) }
{
    let mut entries = Vec::new(alloc);
    draft_all(&mut entries, sends)?;
    settle_all(&mut entries);
    Ok(entries)
}

/// Notes what the start sends, and returns what waits then.
pub(crate) fn first_mail<A: Allocator + Copy, R: Record<A>>(
    alloc: A,
    out: &Out<Frame<A>, A>,
    notes: &mut R,
) -> Result<Vec<Entry<A>, A>, WireError>
    ensures waits { IfOk result
        (λ entries. (name : Name) → settled_for entries.items name ≡ mail_for out.now.sends name) }
    ensures settled { IfOk result (λ entries. AreSettled entries.items) }
    ensures notes { OnOk result (R.noted notes.new ≡ opened (R.noted notes.old) out.now) }
    ensures refused { IfErr result (λ e. e ≡ WireError.OutOfMemory) }
{
    let entries = first_entries(alloc, out.sends.as_slice())?;
    notes.open(out)?;
    Ok(entries)
}

/// The core beside the rest of the node, if there is one. It names no core's type, so that the prover follows the drop
/// of the core by its trait alone.
pub(crate) fn beside<C: Drop, T: Drop, E: Drop>(core: C, rest: Result<T, E>) -> Result<(C, T), E>
    ensures ok { IfOk result (λ both. (both.0 ≡ core) × (rest ≡ Result.Ok both.1)) }
    ensures err { IfErr result (λ error. rest ≡ Result.Err error) }
{
    match rest {
        Ok(rest) => Ok((core, rest)),
        Err(error) => Err(error),
    }
}
