//! What keeps a running node in its group: links to names that it learns, joining again, and news of its neighbours.
ghost use Rattle.std.specs.Prelude.{◌<◌, vec_capacity, vec_len};
ghost use Rattle.std.specs.Bool.{OnTrue};

use crate::cell::outlet::Outlet;
use crate::cores::NodeCore;
use crate::error::HostError;
use crate::host::Host;
use crate::host::joining::put;
use crate::host::shared::{Shared, step, with};
use crate::host::worker::Outlets;
use node_core::News;
use node_names::NodeName;
use rand_pcg::Lcg128Xsl64;
use std::alloc::Allocator;
use std::sync::Wait;

impl<C: NodeCore<A> + Drop, A: Allocator + Copy> Shared<C, A> {
    /// Has steps open links to names that have none, as long as fewer than `most` names have outlets.
    pub(crate) fn allow_links<R: Wait>(&self, rt: &R, most: usize) {
        let ring = self.ring;
        let _ = with(rt, &self.kept, |kept| kept.learnt.allow(ring, most));
    }

    /// Takes the outlets of the links that steps opened.
    pub(crate) fn take_opened<R: Wait>(&self, rt: &R) -> Vec<Outlet<A>, A> {
        with(rt, &self.kept, |kept| kept.learnt.take_outlets()).unwrap_or(Vec::new(self.alloc))
    }

    /// Closes the link of an outlet, and tells the core that it is down if the outlet has frames.
    pub(crate) fn close_link<R: Wait>(&self, rt: &R, outlet: &mut Outlet<A>) {
        let _ = step(
            rt,
            &self.kept,
            &self.wakeups,
            |kept| kept.close_link(outlet),
        );
    }

    /// Has changes of the active view be told from now on, or none.
    pub(crate) fn tell_news<R: Wait>(&self, rt: &R, tells: bool) -> Result<(), HostError> {
        with(rt, &self.kept, |kept| kept.tell_news(tells)).unwrap_or(Err(HostError::Closed))
    }

    /// Takes the news, the oldest first.
    pub(crate) fn take_news<R: Wait>(&self, rt: &R) -> Vec<News, A> {
        with(rt, &self.kept, |kept| kept.take_news()).unwrap_or(Vec::new(self.alloc))
    }

    /// Sets by whom the node joins again.
    pub(crate) fn set_contacts<R: Wait>(
        &self,
        rt: &R,
        contacts: &[NodeName],
    ) -> Result<(), HostError> {
        with(rt, &self.kept, |kept| kept.set_contacts(contacts)).unwrap_or(Err(HostError::Closed))
    }

    /// By whom the node joins again at this tick, if it does.
    pub(crate) fn due_contact<R: Wait>(
        &self,
        rt: &R,
        now: u64,
        generator: &mut Lcg128Xsl64,
    ) -> Option<NodeName> {
        with(rt, &self.kept, |kept| kept.due_contact(now, generator)).unwrap_or(None)
    }
}

/// Makes room for one more in a list. Returns whether there is.
fn has_room<T: Drop, A: Allocator>(list: &mut Vec<T, A>) -> bool
    ensures { OnTrue result (vec_len list.new < vec_capacity list.new) }
{
    list.reserve(1).is_ok()
}

impl<C: NodeCore<A> + Drop, A: Allocator + Copy> Host<C, A> {
    /// From now on a step that sends to a name without a link opens one as of this step, as long as fewer than `most`
    /// names have outlets, those of the start and those that `take_opened` gave among them. Without this call, or
    /// beyond that many, or where memory is refused or the link's ring is too small, the core is told that the link is
    /// down.
    ///
    /// The program takes the outlets now and then, and gives each to `write_link`, or, where it knows no way to the
    /// name, to `give_up`.
    pub fn allow_links<R: Wait>(&self, rt: &R, most: usize) {
        self.shared.allow_links(rt, most);
    }

    /// Takes the outlets of the links that steps opened since the last call, in order.
    pub fn take_opened<R: Wait>(&self, rt: &R) -> Vec<Outlet<A>, A> {
        self.shared.take_opened(rt)
    }

    /// Gives up the link of an outlet that has no writer: the link is closed, and if its outlet still has frames, the
    /// core is told that it is down. A later step that sends to the name opens a link anew. The outlet is kept for the
    /// close, unless the node may forget and what came out is as it was sent.
    ///
    /// If memory is refused, nothing happens, and the outlet is returned.
    pub fn give_up<R: Wait>(&mut self, rt: &R, mut outlet: Outlet<A>) -> Option<Outlet<A>> {
        if !has_room(&mut self.left) {
            return Some(outlet);
        }
        self.shared.close_link(rt, &mut outlet);
        if self.shared.lets_go(rt, &outlet) {
            return None;
        }
        let spent = Vec::new(self.shared.alloc);
        let last = Some(outlet);
        put(&mut self.left, Outlets { spent, last });
        None
    }

    /// Has the ticker make the node join again while its active view is empty, by these names in turn, with pauses that
    /// grow (`node_core::Rejoining`). The only errors are `OutOfMemory` and `Closed`, and then nothing changes.
    pub fn set_contacts<R: Wait>(&self, rt: &R, contacts: &[NodeName]) -> Result<(), HostError> {
        self.shared.set_contacts(rt, contacts)
    }

    /// Has the changes of the active view from now on be told, or none. Where they are told, take them now and then:
    /// they are kept until they are taken. The only errors are `OutOfMemory` and `Closed`, and then nothing changes.
    pub fn tell_news<R: Wait>(&self, rt: &R, tells: bool) -> Result<(), HostError> {
        self.shared.tell_news(rt, tells)
    }

    /// Takes the news, the oldest first. The view is looked at each time that the node's lock is given back, so a name
    /// that comes and goes under one hold of it, as one that is taken and found to have no link, is no news.
    pub fn take_news<R: Wait>(&self, rt: &R) -> Vec<News, A> {
        self.shared.take_news(rt)
    }
}
