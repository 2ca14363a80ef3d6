//! Names that are down: the core is told, and what waited for them is dropped.
ghost use Rattle.std.specs.Prelude.{◌≡◌, ◌≤◌, ◌<◌, ◌∷◌, ◌++◌, [], IfNone, IfSome, IsErrOf, OnErr, OnOk, length, not};
ghost use Rattle.node_names.specs.NodeName.{Name};
ghost use Rattle.node_names.specs.Same.{same_name};
ghost use Rattle.protocol.specs.IdentityLaw.{IsTooLong};
ghost use Rattle.frames.specs.Frame.{Frame as Sent};
ghost use Rattle.node_core.specs.Steps.{PlumIsSpent};
ghost use Rattle.wire_node.specs.Acting.{AreSettled, GoesDown, machine, without};
ghost use Rattle.wire_node.specs.Moving.{Relieves};
ghost use Rattle.wire_node.specs.Waiting.{AreApart, settled_for};

use crate::drafts::Entry;
use crate::step::{Record, make_step};
use node_core::{PlumCore, Telling};
use node_names::{Dice, Listed, NodeName};
use protocol::{CoreError, Delivery, StimulusOf};
use std::alloc::Allocator;

/// Drops what waits for the name.
pub(crate) fn forget<A: Allocator + Copy>(entries: &mut Vec<Entry<A>, A>, name: &NodeName)
    ensures { entries.new.items ≡ without name.now entries.old.items }
{
    entries.retain(
        |entry: &Entry<A>| -> bool
            ensures { result ≡ not (same_name name.entry.now entry.now.name) }
        { *name != entry.name() },
    );
}

/// Tells the core that the name is down, drops what waits for it, and puts it into `lost`. If the step is refused,
/// nothing changes.
pub(crate) fn take_down<A: Allocator + Copy, R: Record<A>>(
    core: &mut PlumCore<A>,
    entries: &mut Vec<Entry<A>, A>,
    pending: &mut Listed<Delivery<A>, A>,
    notes: &mut R,
    telling: &mut Telling<A>,
    lost: &mut Listed<NodeName, A>,
    name: NodeName,
    dice: &Dice,
) -> Result<(), CoreError>
    requires { AreSettled entries.old.items }
    ensures down { OnOk result
        (GoesDown (machine core.old entries.old.items pending.old (R.noted notes.old) telling.old) name dice.now
        (machine core.new entries.new.items pending.new (R.noted notes.new) telling.new)) }
    ensures lost { OnOk result (lost.new ≡ lost.old ++ name ∷ []) }
    ensures settled { AreSettled entries.new.items }
    ensures err { OnErr result ((machine core.new entries.new.items pending.new (R.noted notes.new) telling.new
        ≡ machine core.old entries.old.items pending.old (R.noted notes.old) telling.old) × (lost.new ≡ lost.old)) }
    ensures too_long { IsErrOf result CoreError.PayloadTooLong → IsTooLong {N = Sent} (StimulusOf.Down name dice.now) }
    ensures spent { IsErrOf result CoreError.SeqSpent → PlumIsSpent core.old (StimulusOf.Down name dice.now) }
{
    let before = lost.len();
    lost.push(name)?;
    let told = make_step(
        core,
        entries,
        pending,
        notes,
        telling,
        &StimulusOf::Down {
            peer: name,
            dice: *dice,
        },
    );
    if let Err(error) = told {
        lost.truncate(before);
        return Err(error);
    }
    forget(entries, &name);
    Ok(())
}

/// The first name for whom more than `limit` bytes wait.
fn overfull<A: Allocator + Copy>(entries: &[Entry<A>], limit: usize) -> Option<NodeName>
    requires { AreApart entries.now }
    ensures some { IfSome result (λ name. limit < length (settled_for entries.now name)) }
    ensures none { IfNone result ((name : Name) → length (settled_for entries.now name) ≤ limit) }
{
    for entry in entries {
        if entry.len() > limit {
            return Some(entry.name());
        }
    }
    None
}

/// Takes names down for whom more than `limit` bytes wait: until there are none, or as many went down as there were
/// names, since others may have become overfull by that. Returns whether the step of one was refused.
pub(crate) fn relieve<A: Allocator + Copy, R: Record<A>>(
    core: &mut PlumCore<A>,
    entries: &mut Vec<Entry<A>, A>,
    pending: &mut Listed<Delivery<A>, A>,
    notes: &mut R,
    telling: &mut Telling<A>,
    lost: &mut Listed<NodeName, A>,
    limit: usize,
    dice: &Dice,
) -> bool
    requires { AreSettled entries.old.items }
    ensures relieved { Relieves limit (machine core.old entries.old.items pending.old (R.noted notes.old) telling.old)
        lost.old dice.now
        (machine core.new entries.new.items pending.new (R.noted notes.new) telling.new)
        lost.new
        result }
    ensures settled { AreSettled entries.new.items }
{
    let most = entries.len();
    let mut count: usize = 0;
    while count < most {
        let Some(name) = overfull(entries, limit) else {
            return false;
        };
        match take_down(core, entries, pending, notes, telling, lost, name, dice) {
            Ok(()) => count += 1,
            Err(_) => return true,
        }
    }
    false
}
