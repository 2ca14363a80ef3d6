//! Which trace is visited next, and what the others wait for.
ghost use Rattle.std.specs.Prelude.{◌≡◌, ◌+◌, if◌then◌else◌};
ghost use Rattle.std.specs.Option.{is_some};
ghost use Rattle.std.specs.BTreeSet.{btree_set_len};

use crate::frame_index::FrameId;
use frames::Frame;
use indexmap::IndexMap;
use node_names::Origin;
use protocol::{Step, StimulusOf};
use std::alloc::{AllocError, Allocator};
use std::collections::BTreeSet;
use std::hash::{BuildHasherDefault, FoldHasher};
use world::Packet;

/// What must happen before a trace can be played on.
#[derive(Clone, Copy, Debug, PartialEq, Eq, Hash)]
pub(crate) enum Awaited {
    /// The run finishes.
    Run(Origin),
    /// The frame is sent.
    Frame(FrameId),
}

impl Awaited {
    /// What a step waits for that can't be played. Only an arrival waits.
    pub(crate) fn of<A: Allocator>(step: &Step<Frame<A>, A>) -> Option<Awaited> {
        match &step.stimulus {
            StimulusOf::Arrive { sender, note, .. } => Some(Awaited::Frame(FrameId {
                sender: *sender,
                number: note.number(),
            })),
            _ => None,
        }
    }

    /// The sending of a packet.
    pub(crate) fn sent<A: Allocator>(packet: &Packet<Frame<A>>) -> Awaited {
        Awaited::Frame(FrameId {
            sender: packet.sender,
            number: packet.note.number(),
        })
    }
}

/// A visit of the trace at index `at`. In each pass the traces are visited in the order of the list.
#[derive(Clone, Copy, Debug, PartialEq, Eq, PartialOrd, Ord)]
pub(crate) struct Visit {
    pass: u64,
    pub(crate) at: usize,
}

impl Visit {
    /// The first visit after this one of the trace at index `at`.
    fn next_of(&self, at: usize) -> Visit {
        let pass = if at > self.at {
            self.pass
        } else {
            self.pass.saturating_add(1)
        };
        Visit { pass, at }
    }
}

/// The visits to come. A trace that waits is visited once what it waits for has happened, at the place at which it
/// would be if all traces were visited in each pass.
#[derive(Drop)]
pub(crate) struct Visits<A: Allocator> {
    next: BTreeSet<Visit, A>,
    waiting: IndexMap<Awaited, Vec<usize, A>, BuildHasherDefault<FoldHasher>, A>,
}

impl<A: Allocator + Copy> Visits<A> {
    /// A first visit of each of so many traces.
    pub(crate) fn new(alloc: A, count: usize) -> Result<Visits<A>, AllocError> {
        let mut next = BTreeSet::new(alloc);
        for at in 0..count {
            next.insert(Visit { pass: 0, at })?;
        }
        let waiting = IndexMap::new(alloc);
        Ok(Visits { next, waiting })
    }

    /// Takes the next visit.
    pub(crate) fn pop(&mut self) -> Option<Visit>
        ensures { btree_set_len self.new.next + (if is_some result then 1 else 0) ≡ btree_set_len self.old.next }
    {
        self.next.pop_first()
    }

    /// Has the trace at index `at` wait.
    pub(crate) fn wait(&mut self, alloc: A, awaited: Awaited, at: usize) -> Result<(), AllocError>
        ensures { self.new.next ≡ self.old.next }
    {
        match self.waiting.get_mut(&awaited) {
            Some(traces) => traces.push(at)?,
            None => {
                let mut traces = Vec::new(alloc);
                traces.push(at)?;
                self.waiting.insert(awaited, traces)?;
            }
        }
        Ok(())
    }

    /// Has the traces that wait for this be visited again. A visit has brought it about.
    pub(crate) fn wake(&mut self, awaited: &Awaited, visit: &Visit) -> Result<(), AllocError> {
        if let Some(traces) = self.waiting.swap_remove(awaited) {
            for at in &traces {
                self.next.insert(visit.next_of(*at))?;
            }
        }
        Ok(())
    }
}
