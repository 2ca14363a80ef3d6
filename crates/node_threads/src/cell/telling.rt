//! What a host tells of its neighbours.
use frames::Frame;
use node_core::{News, Parting, farewell_of};
use node_names::{NameSet, NodeName, has_name};
use protocol::{Step, Trace};
use std::alloc::{AllocError, Allocator};
use std::mem;

/// The changes of an active view that its program did not take yet.
///
/// It looks at the view each time that the node's lock is given back, not at each step: a name that comes and goes
/// under one hold of the lock is no news. A node that takes a name and finds that it has no link to it would otherwise
/// tell of a neighbour that nobody else ever saw.
#[derive(Drop)]
pub(crate) struct Teller<A: Allocator> {
    tells: bool,
    /// The active view when it looked last.
    known: Vec<NodeName, A>,
    /// How many steps the node had made then.
    since: usize,
    news: Vec<News, A>,
}

/// Whether the view has these names, in any order.
fn is_same<A: Allocator>(known: &[NodeName], active: &NameSet<A>) -> bool {
    known.len() == active.len() && known.iter().all(|name| active.contains(name))
}

/// Why the name went, if the step says so.
fn said_by<A: Allocator>(step: &Step<Frame<A>, A>, name: &NodeName) -> Option<Parting> {
    match farewell_of(&step.stimulus) {
        Some(farewell) if farewell.name == *name => Some(farewell.why),
        _ => None,
    }
}

/// Why the name went: what the first of the steps from this place on says that says so, or else for another name.
fn parting_of<A: Allocator>(trace: &Trace<Frame<A>, A>, since: usize, name: &NodeName) -> Parting {
    for place in since..trace.len() {
        let said = trace.step(place).and_then(|step| said_by(step, name));
        if let Some(why) = said {
            return why;
        }
    }
    Parting::Displaced
}

/// Appends a piece of news.
fn add<A: Allocator>(news: &mut Vec<News, A>, item: News) -> Result<(), AllocError> {
    news.push(item)?;
    Ok(())
}

impl<A: Allocator + Copy> Teller<A> {
    /// Tells nothing.
    pub(crate) fn new(alloc: A) -> Teller<A> {
        Teller {
            tells: false,
            known: Vec::new(alloc),
            since: 0,
            news: Vec::new(alloc),
        }
    }

    /// Has the changes from this view on be told, or none. If memory is refused, nothing changes.
    pub(crate) fn set_tells(
        &mut self,
        tells: bool,
        active: &NameSet<A>,
        steps: usize,
    ) -> Result<(), AllocError> {
        let known = Vec::from_slice(*self.news.allocator(), active.as_slice())?;
        self.known = known;
        self.since = steps;
        self.tells = tells;
        Ok(())
    }

    /// Notes how the view changed since the last call. The trace lacks the first `lost` steps. If memory is refused,
    /// the next call makes up for it.
    pub(crate) fn note(&mut self, active: &NameSet<A>, lost: usize, trace: &Trace<Frame<A>, A>) {
        if !self.tells {
            return;
        }
        if !is_same(self.known.as_slice(), active) {
            let told = self.news.len();
            let first = self.since.saturating_sub(lost);
            if self.add_changes(active, first, trace).is_err() {
                self.news.truncate(told);
                return;
            }
        }
        self.since = lost.saturating_add(trace.len());
    }

    /// Appends what changed, by the steps from the place `first` on, and keeps the view.
    fn add_changes(
        &mut self,
        active: &NameSet<A>,
        first: usize,
        trace: &Trace<Frame<A>, A>,
    ) -> Result<(), AllocError> {
        let known = Vec::from_slice(*self.news.allocator(), active.as_slice())?;
        self.add_departures(active, first, trace)?;
        self.add_arrivals(active)?;
        if active.is_empty() {
            add(&mut self.news, News::Isolated)?;
        } else if self.known.is_empty() {
            add(&mut self.news, News::Joined)?;
        }
        self.known = known;
        Ok(())
    }

    /// Appends who went, and why.
    fn add_departures(
        &mut self,
        active: &NameSet<A>,
        first: usize,
        trace: &Trace<Frame<A>, A>,
    ) -> Result<(), AllocError> {
        for name in self.known.iter() {
            if !active.contains(name) {
                let why = parting_of(trace, first, name);
                add(&mut self.news, News::NeighborDown { name: *name, why })?;
            }
        }
        Ok(())
    }

    /// Appends who came.
    fn add_arrivals(&mut self, active: &NameSet<A>) -> Result<(), AllocError> {
        for name in active.as_slice() {
            if !has_name(self.known.as_slice(), name) {
                add(&mut self.news, News::NeighborUp(*name))?;
            }
        }
        Ok(())
    }

    /// Takes the news, the oldest first.
    pub(crate) fn take(&mut self) -> Vec<News, A> {
        let alloc = *self.news.allocator();
        mem::replace(&mut self.news, Vec::new(alloc))
    }
}
