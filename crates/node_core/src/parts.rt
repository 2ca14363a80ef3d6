//! What a stimulus does to a node's two parts: first it is prepared, and then it is carried out.
ghost use Rattle.std.specs.Prelude.{◌≡◌, ◌↔◌, ◌⊎◌, ◌+◌, ◌<◌, ◌∷◌, [], false, None, Some, length};
ghost use Rattle.std.specs.Prelude.{IfOk, IsOk, OnOk, OnErr, IsErrOf};
ghost use Rattle.gossip_core.specs.Refusals.{IsSpent, IsTooLong};
ghost use Rattle.gossip_core.specs.Rows.{Leads};
ghost use Rattle.gossip_core.specs.Table.{after_downs, after_ups, lent as lent_call, outcome};
ghost use Rattle.membership.specs.Event.{lent as lent_event};
ghost use Rattle.membership.specs.Membership.{still};
ghost use Rattle.membership.specs.Table.{table};
ghost use Rattle.protocol.specs.SameNames.{SameNames};
ghost use Rattle.node_core.specs.Fits.{AreFit};
ghost use Rattle.node_core.specs.Parts.{CanMake, IsSpentPart, IsTooLongPart, Makes, by_part, lent};
ghost use Rattle.node_core.specs.Parts.{made_gossip, made_membership, moved_by, unboxed};
ghost use Rattle.node_core.specs.Steps.{appended};

use crate::dispatch::{Part, PartOf};
use crate::names::are_same;
use crate::output::{append_list, append_numbered, append_one};
use crate::prepared_step::{BoxedViewChange, PreparedStep, ViewChange};
use frames::{BodyOf, Frame};
use gossip_core::{Call, Decided, Gossip, Row, RowOf};
use membership::{Event, Membership, Moves};
use node_names::{Dice, NodeName, Origin};
use protocol::{CoreError, Out, Prepared};
use std::alloc::{AllocError, Allocator};
use std::boxed::Box;

/// Boxes a view change.
fn boxed<A: Allocator>(alloc: A, moved: ViewChange<A>) -> Result<BoxedViewChange<A>, AllocError>
    ensures { IfOk result (λ boxed. boxed.value ≡ moved) }
{
    Ok(Box::new(alloc, moved)?)
}

/// Prepares an event of the membership. The gossip sends nothing when links go down and come up.
fn prepare_event<A: Allocator + Copy>(
    me: &Origin,
    framed: u64,
    membership: &Membership<A>,
    event: &Event<'_>,
    dice: &Dice,
    out: &mut Out<Frame<A>, A>,
) -> Result<Prepared<PreparedStep<A>>, CoreError>
    requires { AreFit (table (lent_event event.now) dice.now (still membership.now)).sends }
    ensures takes { IfOk result (λ prepared.
        prepared.turn.moved ≡ Some (moved_by (table (lent_event event.now) dice.now (still membership.now)))) }
    ensures last { IfOk result (λ prepared. prepared.turn.framed
        ≡ framed + length (table (lent_event event.now) dice.now (still membership.now)).sends) }
    ensures ok { OnOk result (out.new ≡ appended me.now framed
        (table (lent_event event.now) dice.now (still membership.now)).sends None out.old) }
    ensures moved { IfOk result (λ prepared. (prepared.moved ≡ false) ↔ SameNames membership.now.views.active
        (table (lent_event event.now) dice.now (still membership.now)).views.active) }
    ensures no_payload { IsErrOf result CoreError.PayloadTooLong → ⊥ }
    ensures spent { IsErrOf result CoreError.SeqSpent →
        u64.MAX < framed + length (table (lent_event event.now) dice.now (still membership.now)).sends }
    ensures err { OnErr result (out.new ≡ out.old) }
{
    let (next, moves) = membership.prepare(event, dice)?;
    let is_moved = !are_same(membership.views().active(), next.views().active());
    let Moves { sends, downs, ups } = moves;
    let change = ViewChange {
        membership: next,
        downs,
        ups,
    };
    let moved = boxed(*out.sends.allocator(), change)?;
    let framed = append_list(me, framed, sends, out)?;
    Ok(Prepared {
        turn: PreparedStep {
            moved: Some(moved),
            row: RowOf::Nothing,
            framed,
        },
        moved: is_moved,
    })
}

/// Prepares a call of the gossip.
fn prepare_call<A: Allocator + Copy>(
    me: &Origin,
    framed: u64,
    gossip: &Gossip<A>,
    call: &Call<'_, A>,
    out: &mut Out<Frame<A>, A>,
) -> Result<Prepared<PreparedStep<A>>, CoreError>
    requires { (IsTooLong (lent_call call.now) → ⊥) → AreFit (outcome gossip.now (lent_call call.now)).sends }
    ensures still { IfOk result (λ prepared. prepared.turn.moved ≡ None) }
    ensures row { IfOk result (λ prepared.
        Leads gossip.now (outcome gossip.now (lent_call call.now)).state prepared.turn.row) }
    ensures last { IfOk result (λ prepared.
        prepared.turn.framed ≡ framed + length (outcome gossip.now (lent_call call.now)).sends) }
    ensures ok { OnOk result (out.new ≡ appended me.now framed
        (outcome gossip.now (lent_call call.now)).sends
        (outcome gossip.now (lent_call call.now)).delivered
        out.old) }
    ensures same { IfOk result (λ prepared. prepared.moved ≡ false) }
    ensures too_long { IsErrOf result CoreError.PayloadTooLong ↔ IsTooLong (lent_call call.now) }
    ensures spent { IsErrOf result CoreError.SeqSpent → IsSpent gossip.now (lent_call call.now)
        ⊎ (u64.MAX < framed + length (outcome gossip.now (lent_call call.now)).sends) }
    ensures numbers { IsSpent gossip.now (lent_call call.now) → IsErrOf result CoreError.SeqSpent }
    ensures err { OnErr result (out.new ≡ out.old) }
{
    let Decided { row, answer } = gossip.answer(call)?;
    let framed = append_numbered(me, framed, answer, out)?;
    Ok(Prepared {
        turn: PreparedStep {
            moved: None,
            row,
            framed,
        },
        moved: false,
    })
}

/// Prepares a JOIN to the contact.
fn prepare_greeting<A: Allocator + Copy>(
    me: &Origin,
    framed: u64,
    contact: &NodeName,
    out: &mut Out<Frame<A>, A>,
) -> Result<Prepared<PreparedStep<A>>, CoreError>
    ensures still { IfOk result (λ prepared. prepared.turn.moved ≡ None) }
    ensures row { IfOk result (λ prepared. prepared.turn.row ≡ RowOf.Nothing) }
    ensures last { IfOk result (λ prepared. prepared.turn.framed ≡ framed + 1) }
    ensures ok { OnOk result
        (out.new ≡ appended me.now framed ((contact.now, BodyOf.Join) ∷ []) None out.old) }
    ensures same { IfOk result (λ prepared. prepared.moved ≡ false) }
    ensures no_payload { IsErrOf result CoreError.PayloadTooLong → ⊥ }
    ensures spent { IsErrOf result CoreError.SeqSpent → u64.MAX < framed + 1 }
    ensures err { OnErr result (out.new ≡ out.old) }
{
    let framed = append_one(me, framed, *contact, BodyOf::Join, out)?;
    unmoved(framed)
}

/// Prepares a step that leaves both parts as they are.
fn unmoved<A: Allocator>(framed: u64) -> Result<Prepared<PreparedStep<A>>, CoreError>
    ensures prepared { IfOk result (λ prepared. prepared
        ≡ record { turn = record { moved = None; row = RowOf.Nothing; framed = framed }; moved = false }) }
    ensures done { IsOk result }
{
    Ok(Prepared {
        turn: PreparedStep {
            moved: None,
            row: RowOf::Nothing,
            framed,
        },
        moved: false,
    })
}

/// Prepares what the part does: appends what it sends, numbered from `framed` + 1 on, and what it delivers. Nothing
/// else changes.
pub(crate) fn prepare_part<A: Allocator + Copy>(
    me: &Origin,
    framed: u64,
    membership: &Membership<A>,
    gossip: &Gossip<A>,
    part: &Part<'_, A>,
    out: &mut Out<Frame<A>, A>,
) -> Result<Prepared<PreparedStep<A>>, CoreError>
    requires { (IsTooLongPart (lent part.now) → ⊥)
        → AreFit (by_part membership.now gossip.now (lent part.now)).sends }
    ensures makes { IfOk result (λ prepared. Makes membership.now gossip.now
        (by_part membership.now gossip.now (lent part.now)) prepared.turn.moved prepared.turn.row) }
    ensures last { IfOk result (λ prepared. prepared.turn.framed
        ≡ framed + length (by_part membership.now gossip.now (lent part.now)).sends) }
    ensures ok { OnOk result (out.new ≡ appended me.now framed
        (by_part membership.now gossip.now (lent part.now)).sends
        (by_part membership.now gossip.now (lent part.now)).delivered
        out.old) }
    ensures moved { IfOk result (λ prepared. (prepared.moved ≡ false) ↔ SameNames membership.now.views.active
        (by_part membership.now gossip.now (lent part.now)).membership.views.active) }
    ensures too_long { IsErrOf result CoreError.PayloadTooLong ↔ IsTooLongPart (lent part.now) }
    ensures spent { IsErrOf result CoreError.SeqSpent → IsSpentPart gossip.now (lent part.now)
        ⊎ (u64.MAX < framed + length (by_part membership.now gossip.now (lent part.now)).sends) }
    ensures numbers { IsSpentPart gossip.now (lent part.now) → IsErrOf result CoreError.SeqSpent }
    ensures err { OnErr result (out.new ≡ out.old) }
{
    match part {
        PartOf::Membership { event, dice } => {
            prepare_event(me, framed, membership, event, dice, out)
        }
        PartOf::Gossip { call } => prepare_call(me, framed, gossip, call, out),
        PartOf::Greeting { contact } => prepare_greeting(me, framed, contact, out),
        PartOf::Nobody => unmoved(framed),
    }
}

/// Carries out what was prepared: all of it, or nothing if an allocation fails. The gossip is told which links went
/// down and then which came up, or makes the row's change.
pub(crate) fn commit<A: Allocator + Copy>(
    membership: &mut Membership<A>,
    gossip: &mut Gossip<A>,
    moved: Option<BoxedViewChange<A>>,
    row: Row<A>,
) -> Result<(), AllocError>
    requires { CanMake gossip.old (unboxed moved) row }
    ensures membership { OnOk result (membership.new ≡ made_membership membership.old (unboxed moved)) }
    ensures gossip { OnOk result (gossip.new ≡ made_gossip gossip.old (unboxed moved) row) }
    ensures err { OnErr result ((membership.new ≡ membership.old) × (gossip.new ≡ gossip.old)) }
{
    match moved {
        Some(moved) => commit_event(membership, gossip, moved),
        None => gossip.take(row),
    }
}

/// Carries out an event of the membership, in the same way.
fn commit_event<A: Allocator + Copy>(
    membership: &mut Membership<A>,
    gossip: &mut Gossip<A>,
    moved: BoxedViewChange<A>,
) -> Result<(), AllocError>
    ensures membership { OnOk result (membership.new ≡ moved.value.membership) }
    ensures gossip { OnOk result (gossip.new ≡ after_ups moved.value.ups (after_downs moved.value.downs gossip.old)) }
    ensures err { OnErr result ((membership.new ≡ membership.old) × (gossip.new ≡ gossip.old)) }
{
    let moved = Box::into_inner(moved);
    gossip.relink(moved.downs.as_slice(), moved.ups.as_slice())?;
    *membership = moved.membership;
    Ok(())
}
