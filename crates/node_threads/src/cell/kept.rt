//! What the lock of a running node keeps.
use crate::cell::NodeCell;
use crate::cell::applied::Applied;
use crate::cell::learning::Learnt;
use crate::cell::outlet::Outlet;
use crate::cell::telling::Teller;
use crate::cores::NodeCore;
use crate::error::HostError;
use node_core::{News, Rejoining};
use node_names::{Dice, NodeName};
use protocol::StimulusOf;
use rand_pcg::Lcg128Xsl64;
use std::alloc::{AllocError, Allocator};

/// A cell, and what goes along with its steps: the links that they open, the news that they make, and by whom the node
/// joins again.
#[derive(Drop)]
pub(crate) struct Kept<C: NodeCore<A> + Drop, A: Allocator> {
    pub(crate) cell: NodeCell<C, A>,
    pub(crate) learnt: Learnt<A>,
    teller: Teller<A>,
    rejoining: Rejoining<A>,
}

/// Notes that each of these names has an outlet.
fn hold_all<A: Allocator + Copy>(
    learnt: &mut Learnt<A>,
    names: &[NodeName],
) -> Result<(), AllocError> {
    for name in names {
        learnt.hold(*name)?;
    }
    Ok(())
}

impl<C: NodeCore<A> + Drop, A: Allocator + Copy> Kept<C, A> {
    /// A cell that has links to these names, of which each has its outlet, and opens no others.
    pub(crate) fn new(
        alloc: A,
        cell: NodeCell<C, A>,
        names: &[NodeName],
    ) -> Result<Kept<C, A>, AllocError> {
        let mut learnt = Learnt::new(alloc);
        hold_all(&mut learnt, names)?;
        Ok(Kept {
            cell,
            learnt,
            teller: Teller::new(alloc),
            rejoining: Rejoining::new(alloc),
        })
    }

    /// The cell alone.
    pub(crate) fn into_cell(self) -> NodeCell<C, A> {
        let Kept { cell, .. } = self;
        cell
    }

    /// Notes how the last steps changed the active view.
    pub(crate) fn look(&mut self) {
        self.teller.note(
            self.cell.core().active(),
            self.cell.lost(),
            self.cell.trace(),
        );
    }

    /// Has the changes of the active view be told from now on, or none.
    pub(crate) fn tell_news(&mut self, tells: bool) -> Result<(), HostError> {
        let steps = self.cell.steps_made();
        let active = self.cell.core().active();
        Ok(self.teller.set_tells(tells, active, steps)?)
    }

    /// Takes the news, the oldest first.
    pub(crate) fn take_news(&mut self) -> Vec<News, A> {
        self.teller.take()
    }

    /// Sets by whom the node joins again.
    pub(crate) fn set_contacts(&mut self, contacts: &[NodeName]) -> Result<(), HostError> {
        Ok(self.rejoining.set_contacts(contacts)?)
    }

    /// By whom the node joins again at this tick, if it does.
    pub(crate) fn due_contact(
        &mut self,
        now: u64,
        generator: &mut Lcg128Xsl64,
    ) -> Option<NodeName> {
        let is_alone = self.cell.core().active().is_empty();
        self.rejoining.due(now, is_alone, generator)
    }

    /// Closes the link of an outlet. If it has frames, tells the core that the link is down: nobody takes them.
    pub(crate) fn close_link(&mut self, outlet: &mut Outlet<A>) {
        let peer = outlet.peer();
        self.cell.close_link(&peer);
        self.learnt.release(&peer);
        if outlet.has_next() {
            let dice = Dice::ZEROS;
            let _ = self
                .cell
                .apply_with_downs(StimulusOf::Down { peer, dice }, &mut self.learnt);
        }
    }
}
