//! The cores whose groups are played, and what the commands need of a core besides its contract.
use at_rest::{SettleError, settle};
use flood::{FloodCore, FloodNote};
use frames::Frame;
use node_core::PlumCore;
use node_names::{Limits, NodeName, Origin};
use play_script::bodies::push_body;
use play_script::lists::push_payload;
use protocol::{Core, CoreError, Out, are_peers};
use std::alloc::{AllocError, Allocator};
use std::fmt::Write;
use world::World;

/// The start of a core outside a group.
#[derive(Clone, Copy)]
pub(crate) struct Start<'a> {
    pub(crate) me: Origin,
    pub(crate) limits: Limits,
    pub(crate) peers: &'a [NodeName],
    pub(crate) contact: Option<NodeName>,
    /// How many numbers of messages and of packets its run has used up.
    pub(crate) spent: u64,
    pub(crate) framed: u64,
}

/// A core whose groups are played.
pub(crate) trait Played<A: Allocator>: Core<A> {
    /// Starts a core, or returns `None` if it cannot start so.
    fn start_spent(
        alloc: A,
        start: &Start<'_>,
        out: &mut Out<Self::Note, A>,
    ) -> Option<Result<Self, CoreError>>;

    /// Brings a group to rest, or returns `None` if groups of such cores cannot be brought to rest.
    fn settle(alloc: A, group: &mut World<Self, A>) -> Option<Result<u64, SettleError>>;

    /// Appends the gossip's members, if the core has any.
    fn push_members(&self, text: &mut String) -> Result<(), AllocError>;

    /// Appends what a packet says.
    fn push_note(text: &mut String, note: &Self::Note) -> Result<(), AllocError>;
}

impl<A: Allocator + Copy> Played<A> for FloodCore<A> {
    fn start_spent(
        alloc: A,
        start: &Start<'_>,
        out: &mut Out<FloodNote<A>, A>,
    ) -> Option<Result<FloodCore<A>, CoreError>> {
        if start.spent > 0 || start.framed > 0 {
            return None;
        }
        let Start {
            me,
            limits,
            peers,
            contact,
            ..
        } = *start;
        if !are_peers(&limits, &me.name, peers, &contact) {
            return None;
        }
        Some(FloodCore::start(alloc, me, limits, peers, contact, out))
    }

    fn settle(_alloc: A, _group: &mut World<FloodCore<A>, A>) -> Option<Result<u64, SettleError>> {
        None
    }

    fn push_members(&self, _text: &mut String) -> Result<(), AllocError> {
        Ok(())
    }

    fn push_note(text: &mut String, note: &FloodNote<A>) -> Result<(), AllocError> {
        write!(text, "{} ", note.id)?;
        push_payload(text, note.payload.as_slice())
    }
}

impl<A: Allocator + Copy> Played<A> for PlumCore<A> {
    fn start_spent(
        alloc: A,
        start: &Start<'_>,
        out: &mut Out<Frame<A>, A>,
    ) -> Option<Result<PlumCore<A>, CoreError>> {
        let Start {
            me,
            limits,
            peers,
            contact,
            spent,
            framed,
        } = *start;
        if !are_peers(&limits, &me.name, peers, &contact) {
            return None;
        }
        Some(PlumCore::start_counted(alloc, me, limits, peers, contact, spent, framed, out))
    }

    fn settle(alloc: A, group: &mut World<PlumCore<A>, A>) -> Option<Result<u64, SettleError>> {
        Some(settle(alloc, group))
    }

    fn push_members(&self, text: &mut String) -> Result<(), AllocError> {
        let mut before = " | members:";
        for (name, kind) in self.peers().members() {
            let kind = if kind.is_eager() { "eager" } else { "lazy" };
            write!(text, "{before} {name} {kind}")?;
            before = ",";
        }
        Ok(())
    }

    fn push_note(text: &mut String, note: &Frame<A>) -> Result<(), AllocError> {
        write!(text, "#{} ", note.number())?;
        push_body(text, note.body())
    }
}
