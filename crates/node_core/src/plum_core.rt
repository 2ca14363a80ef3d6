//! A node's core: the state machine that joins HyParView's membership and Plumtree's gossip.
ghost use Rattle.std.specs.Prelude.{◌≡◌, ◌+◌, ◌≤◌, ◌⊎◌, ◌++◌, None, List, length};
ghost use Rattle.std.specs.Prelude.{IsSome, IsTrue, IfOk, IfErr, OnOk, OnErr};
ghost use Rattle.node_names.specs.NodeName.{Name};
ghost use Rattle.frames.specs.Frame.{Frame as Plain};
ghost use Rattle.protocol.specs.Peers.{are_peers};
ghost use Rattle.protocol.specs.Stimulus.{lent};
ghost use Rattle.node_core.specs.Fits.{ComesFit};
ghost use Rattle.node_core.specs.Started.{IsStarted};
ghost use Rattle.node_core.specs.Steps.{IsAllowed, PlumStartsCounted, appended, opening};

use crate::dispatch::part_of;
use crate::output::append_list;
use crate::parts::{commit, prepare_part};
use crate::prepared_step::PreparedStep;
use bytes::Bytes;
use frames::{Body, Frame};
use gossip_core::Gossip;
use membership::{Membership, Moves};
use node_names::{Limits, Listed, MsgId, NameSet, NodeName, Origin};
use peer_sets::PeerSets;
use protocol::{Core, CoreError, Out, Prepared, StimulusOf, StimulusRef};
use std::alloc::{AllocError, Allocator, Global};
use std::marker::Model;

/// One run of one node.
///
/// The cost of a step depends on what it sends and changes: an event of the membership copies its views, of at most 80
/// names, and a call of the gossip finds ids by hash. Only a link that goes down passes over what is missing and what
/// waits to be announced, and only `copy` over what the node holds.
#[derive(Drop)]
pub struct PlumCore<A: Allocator = Global> {
    me: Origin,
    membership: Membership<A>,
    gossip: Gossip<A>,
    framed: u64,
}

impl<A: Allocator> Model for PlumCore<A> {
    ghost use Rattle.std.specs.FinSet as set;
    ghost use Rattle.node_core.specs.Fits.{FitsFrames};
    ghost use Rattle.node_core.specs.Plum.{Plum};

    ghost Value = { Plum };

    ghost use Rattle.std.specs.Coded.{codes};
    ghost use Rattle.node_names.specs.Order.{id_cmp};
    ghost use Rattle.node_names.specs.contracts.ids.MsgId as id;

    ghost coded = { Prim.hlevel (codes, set.code {R = id_cmp} id.the_row.coded) };

    ghost view = { λ core.
        record { me = core.me; membership = core.membership; gossip = core.gossip; framed = core.framed } };

    ghost invariant = { λ core. FitsFrames core.gossip };
}

/// Makes the JOIN to the contact, if there is one.
fn greet<A: Allocator + Copy>(
    alloc: A,
    membership: &mut Membership<A>,
    contact: Option<NodeName>,
) -> Result<Listed<(NodeName, Body<A>), A>, AllocError>
    ensures same { OnOk result (membership.new ≡ membership.old) }
    ensures opening { IfOk result (λ sends. sends ≡ opening contact) }
{
    let Some(contact) = contact else {
        return Ok(Listed::new(alloc));
    };
    let mut moves = Moves::new(alloc);
    membership.join(contact, &mut moves)?;
    let Moves { sends, .. } = moves;
    Ok(sends)
}

/// Sends JOIN to the contact, if there is one, with the number behind `framed`, and returns the last number.
/// `SeqSpent`: there is a contact, and no number is left.
fn open<A: Allocator + Copy>(
    alloc: A,
    me: &Origin,
    framed: u64,
    membership: &mut Membership<A>,
    contact: Option<NodeName>,
    out: &mut Out<Frame<A>, A>,
) -> Result<u64, CoreError>
    ensures same { OnOk result (membership.new ≡ membership.old) }
    ensures last { IfOk result (λ last. last ≡ framed + length (opening contact)) }
    ensures ok { OnOk result (out.new ≡ appended me.now framed (opening contact) None out.old) }
    ensures refused { IfErr result (λ e.
        (e ≡ CoreError.OutOfMemory) ⊎ ((e ≡ CoreError.SeqSpent) × IsSome contact × (framed ≡ u64.MAX))) }
    ensures err { OnErr result (out.new ≡ out.old) }
{
    let sends = greet(alloc, membership, contact)?;
    let last = append_list(me, framed, sends, out)?;
    Ok(last)
}

impl<A: Allocator + Copy> PlumCore<A> {
    /// Starts a node that has already used the message numbers up to `seq_spent` and the frame numbers up to
    /// `frames_spent`. `SeqSpent`: it has a contact, and no frame number is left for the JOIN.
    pub fn start_counted(
        alloc: A,
        me: Origin,
        limits: Limits,
        peers: &[NodeName],
        contact: Option<NodeName>,
        seq_spent: u64,
        frames_spent: u64,
        out: &mut Out<Frame<A>, A>,
    ) -> Result<PlumCore<A>, CoreError>
        requires { IsTrue (are_peers limits me.name peers.now contact) }
        ensures started { IfOk result (λ core. (sends : List (Name × Plain))
            × PlumStartsCounted seq_spent frames_spent me limits peers.now contact sends core
            × (out.new ≡ record out.old { sends = out.old.sends ++ sends })) }
        ensures lawful { IfOk result (λ core. (sends : List (Name × Plain))
            × IsStarted seq_spent limits me peers.now sends core
            × (out.new ≡ record out.old { sends = out.old.sends ++ sends })) }
        ensures numbered { OnOk result (frames_spent + length (opening contact) ≤ u64.MAX) }
        ensures refused { IfErr result (λ e.
            (e ≡ CoreError.OutOfMemory) ⊎ ((e ≡ CoreError.SeqSpent) × IsSome contact × (frames_spent ≡ u64.MAX))) }
        ensures err { OnErr result (out.new ≡ out.old) }
    {
        let _allowed = limits.active();
        let mut membership = Membership::new(alloc, me.name, limits, peers)?;
        let gossip = Gossip::new_tuned(
            alloc,
            me,
            peers,
            seq_spent,
            limits.threshold(),
            limits.keep(),
        )?;
        let framed = open(alloc, &me, frames_spent, &mut membership, contact, out)?;
        Ok(PlumCore {
            me,
            membership,
            gossip,
            framed,
        })
    }
}

/// Ensures that an allowed stimulus fits frames: a packet that arrived is itself a frame.
fn heed<A: Allocator + Copy>(stimulus: &StimulusRef<'_, Frame<A>, A>)
    ensures { IsAllowed (lent stimulus.now) → ComesFit (lent stimulus.now) }
{
    if let StimulusOf::Arrive { note, .. } = stimulus {
        let _within_limits = note.body();
    }
}

impl<A: Allocator + Copy> Core<A> for PlumCore<A> {
    ghost use Rattle.node_core.specs.Plum.{IsSoundPlum, plum_state};
    ghost use Rattle.node_core.specs.impl_proofs.PlumDelivers.{plum_delivers_one};
    ghost use Rattle.node_core.specs.impl_proofs.PlumLaws.{plum_lawful};
    ghost use Rattle.node_core.specs.Parts.{IsTurn};
    ghost use Rattle.node_core.specs.Steps.{PlumStarts, PlumSteps, PlumIsSpent, plum_after};

    type Note = Frame<A>;

    type Turn = PreparedStep<A>;

    ghost state = { plum_state };

    ghost is_sound = { IsSoundPlum };

    ghost starts = { PlumStarts };

    ghost steps = { PlumSteps };

    ghost is_spent = { PlumIsSpent };

    ghost after = { plum_after };

    ghost is_turn = { IsTurn };

    ghost lawful = { plum_lawful };

    ghost delivers_one = { plum_delivers_one };

    fn start(
        alloc: A,
        me: Origin,
        limits: Limits,
        peers: &[NodeName],
        contact: Option<NodeName>,
        out: &mut Out<Frame<A>, A>,
    ) -> Result<PlumCore<A>, CoreError> {
        PlumCore::start_counted(alloc, me, limits, peers, contact, 0, 0, out)
    }

    fn prepare(
        &self,
        stimulus: &StimulusRef<'_, Frame<A>, A>,
        out: &mut Out<Frame<A>, A>,
    ) -> Result<Prepared<PreparedStep<A>>, CoreError> {
        let _sound = self.membership.views().limits();
        heed(stimulus);
        let part = part_of(&self.me, &self.membership, stimulus);
        prepare_part(
            &self.me,
            self.framed,
            &self.membership,
            &self.gossip,
            &part,
            out,
        )
    }

    fn advance(
        &mut self,
        stimulus: &StimulusRef<'_, Frame<A>, A>,
        turn: PreparedStep<A>,
    ) -> Result<(), AllocError> {
        let _sound = self.membership.views().limits();
        heed(stimulus);
        let PreparedStep { moved, row, framed } = turn;
        commit(&mut self.membership, &mut self.gossip, moved, row)?;
        self.framed = framed;
        Ok(())
    }

    fn copy(&self) -> Result<PlumCore<A>, AllocError> {
        let membership = self.membership.copy()?;
        let gossip = self.gossip.copy()?;
        Ok(PlumCore {
            me: self.me,
            membership,
            gossip,
            framed: self.framed,
        })
    }

    fn me(&self) -> Origin {
        self.gossip.me()
    }

    fn has(&self, id: &MsgId) -> bool {
        self.gossip.knows(id)
    }

    fn payload(&self, id: &MsgId) -> Option<&Bytes<A>> {
        self.gossip.payload(id)
    }

    fn held(&self) -> &[MsgId] {
        self.gossip.held()
    }

    fn active(&self) -> &NameSet<A> {
        self.membership.views().active()
    }

    fn passive(&self) -> &NameSet<A> {
        self.membership.views().passive()
    }

    fn queued(&self) -> &[(NodeName, MsgId, u32)] {
        self.gossip.peers().queued()
    }

    fn wants(&self) -> &[Option<(MsgId, NodeName, u32)>] {
        self.gossip.missing().wants()
    }

    fn timers(&self) -> &[Option<MsgId>] {
        self.gossip.missing().timers()
    }

    fn is_armed(&self, id: &MsgId) -> bool {
        self.gossip.missing().armed(id)
    }
}

impl<A: Allocator> PlumCore<A> {
    /// The peers of the node's gossip: the eager ones, the lazy ones, and the announcements that are queued for them.
    pub fn peers(&self) -> &PeerSets<A>
        ensures { result.now ≡ self.now.gossip.peers }
    {
        self.gossip.peers()
    }
}
