//! A step, and the links that it opens and those that it finds to be down.
ghost use Rattle.std.specs.Prelude.{◌≡◌, IfOk, IfErr, OnErr};
ghost use Rattle.node_threads.specs.Downs.{AppliesDrawing, AppliesOpening, AppliesWithDowns};
ghost use Rattle.node_threads.specs.Downs.{TakesDownBy, TakesDowns, TakesDrawnDowns};
ghost use Rattle.node_threads.specs.Refusal.{Refuses};

use crate::cell::NodeCell;
use crate::cell::applied::Applied;
use crate::cell::learning::{Learnt, open_unlinked};
use crate::cores::NodeCore;
use crate::error::HostError;
use frames::Frame;
use node_names::{Dice, Listed, NodeName};
use protocol::{Stimulus, StimulusOf};
use rand_core::Rng;
use std::alloc::Allocator;

/// Applies the stimulus, and opens links to receivers of the step that have none, each from that step on.
///
/// Some receivers get no link: those that are held, those for which there is no place or no memory, and those for whom
/// the ring is too small. They are in `Applied::unlinked`.
fn apply_opening<C: NodeCore<A> + Drop, A: Allocator + Copy>(
    cell: &mut NodeCell<C, A>,
    stimulus: Stimulus<Frame<A>, A>,
    learnt: &mut Learnt<A>,
) -> Result<Applied<A>, HostError>
    ensures applied { IfOk result (λ applied. AppliesOpening C.state C.steps cell.old learnt.old
        stimulus cell.new learnt.new applied.id applied.place applied.full applied.unlinked) }
    ensures refused { IfErr result (Refuses C.is_spent cell.old stimulus) }
    ensures err { OnErr result ((cell.new ≡ cell.old) × (learnt.new ≡ learnt.old)) }
{
    let Applied {
        id,
        place,
        full,
        unlinked,
    } = cell.apply(stimulus)?;
    let left = open_unlinked(cell, learnt, place, unlinked.into_vec());
    Ok(Applied {
        id,
        place,
        full,
        unlinked: Listed::from_vec(left),
    })
}

/// Tells the core that the link to the peer is down, with these dice, and opens links to receivers of this step.
///
/// If the node refuses the step, nothing changes: the core does not learn that the link is closed, and the frames that
/// it sends over it reach no one.
fn take_down<C: NodeCore<A> + Drop, A: Allocator + Copy>(
    cell: &mut NodeCell<C, A>,
    peer: NodeName,
    dice: Dice,
    learnt: &mut Learnt<A>,
)
    ensures { TakesDownBy C.state C.steps C.is_spent dice cell.old learnt.old peer cell.new learnt.new }
{
    match apply_opening(cell, StimulusOf::Down { peer, dice }, learnt) {
        Ok(_) => (),
        Err(_) => (),
    }
}

/// Tells the core that the links to these peers are down, one after the other, with dice of zeros.
fn take_downs<C: NodeCore<A> + Drop, A: Allocator + Copy>(
    cell: &mut NodeCell<C, A>,
    peers: &[NodeName],
    learnt: &mut Learnt<A>,
)
    ensures { TakesDowns C.state C.steps C.is_spent cell.old learnt.old peers.now cell.new learnt.new }
{
    for peer in peers {
        take_down(cell, *peer, Dice::ZEROS, learnt);
    }
}

/// Tells the core that the links to these peers are down, one after the other, each with the generator's next dice.
fn take_drawn_downs<C: NodeCore<A> + Drop, A: Allocator + Copy, R: Rng>(
    cell: &mut NodeCell<C, A>,
    peers: &[NodeName],
    generator: &mut R,
    learnt: &mut Learnt<A>,
)
    ensures { TakesDrawnDowns C.state C.steps C.is_spent
        (R.stream generator.old) cell.old learnt.old peers.now cell.new learnt.new (R.stream generator.new) }
{
    for peer in peers {
        let dice = Dice::draw(generator);
        take_down(cell, *peer, dice, learnt);
    }
}

impl<C: NodeCore<A> + Drop, A: Allocator + Copy> NodeCell<C, A> {
    /// Applies the stimulus, and opens links to receivers of the step that have none, as far as `learnt` allows. Then
    /// it tells the core that the links are down that this step found full, and then those to the receivers that got no
    /// link. So a core that sends to a peer that it can't reach drops the peer from its active view. The Downs have
    /// dice of zeros.
    ///
    /// `Applied::unlinked` are the receivers that got no link. It is refused as `apply` is. The receivers of a Down
    /// that have no link get one likewise. If a Down in turn finds links full, or receivers that get no link, they are
    /// not followed up, and a Down that is refused is dropped.
    pub fn apply_with_downs(
        &mut self,
        stimulus: Stimulus<Frame<A>, A>,
        learnt: &mut Learnt<A>,
    ) -> Result<Applied<A>, HostError>
        ensures applied { IfOk result (λ applied. AppliesWithDowns C.state C.steps C.is_spent self.old
            learnt.old stimulus self.new learnt.new applied.id applied.place applied.full applied.unlinked) }
        ensures refused { IfErr result (Refuses C.is_spent self.old stimulus) }
        ensures err { OnErr result ((self.new ≡ self.old) × (learnt.new ≡ learnt.old)) }
    {
        let applied = apply_opening(self, stimulus, learnt)?;
        take_downs(self, applied.full.as_slice(), learnt);
        take_downs(self, applied.unlinked.as_slice(), learnt);
        Ok(applied)
    }

    /// Like `apply_with_downs`, except that each Down has the generator's next dice.
    pub fn apply_drawing<R: Rng>(
        &mut self,
        stimulus: Stimulus<Frame<A>, A>,
        generator: &mut R,
        learnt: &mut Learnt<A>,
    ) -> Result<Applied<A>, HostError>
        ensures applied { IfOk result (λ applied. AppliesDrawing C.state C.steps C.is_spent
            (R.stream generator.old)
            self.old learnt.old stimulus self.new learnt.new
            (R.stream generator.new)
            applied.id applied.place applied.full applied.unlinked) }
        ensures refused { IfErr result (Refuses C.is_spent self.old stimulus) }
        ensures err { OnErr result
            ((self.new ≡ self.old) × (learnt.new ≡ learnt.old) × (R.stream generator.new ≡ R.stream generator.old)) }
    {
        let applied = apply_opening(self, stimulus, learnt)?;
        take_drawn_downs(self, applied.full.as_slice(), generator, learnt);
        take_drawn_downs(self, applied.unlinked.as_slice(), generator, learnt);
        Ok(applied)
    }
}
