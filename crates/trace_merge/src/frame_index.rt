//! An index of the sent frames.
ghost use Rattle.std.specs.Prelude.{◌≡◌, [], Some, OnOk, if◌then◌else◌};
ghost use Rattle.std.specs.Map.{lookup};
ghost use Rattle.trace_merge.specs.FrameIds.{same_frame_id};
ghost use Rattle.trace_merge.specs.declared.frame_index.FrameId.{FrameId as Id};

use indexmap::IndexMap;
use node_names::Origin;
use std::alloc::{AllocError, Allocator};
use std::hash::{BuildHasherDefault, FoldHasher};

/// Identifies a frame: the run that sent it, and its number among the frames of that run.
#[derive(Clone, Copy, Debug, PartialEq, Eq, Hash)]
pub(crate) struct FrameId {
    pub(crate) sender: Origin,
    pub(crate) number: u64,
}

/// Maps each frame to the number of its packet among all sent packets.
#[derive(Drop)]
pub(crate) struct FrameIndex<A: Allocator> {
    numbers: IndexMap<FrameId, usize, BuildHasherDefault<FoldHasher>, A>,
}

impl<A: Allocator + Copy> FrameIndex<A> {
    /// Creates an empty index.
    pub(crate) fn new(alloc: A) -> FrameIndex<A>
        ensures { result.numbers.entries ≡ [] }
    {
        FrameIndex {
            numbers: IndexMap::new(alloc),
        }
    }

    /// The number of the packet with this frame, if there is one.
    pub(crate) fn find(&self, id: &FrameId) -> Option<usize>
        ensures { result ≡ lookup (same_frame_id id.now) self.now.numbers.entries }
    {
        self.numbers.get(id).copied()
    }

    /// Adds a packet.
    pub(crate) fn insert(&mut self, id: FrameId, number: usize) -> Result<(), AllocError>
        ensures { OnOk result ((other : Id) → lookup (same_frame_id other) self.new.numbers.entries
            ≡ (if same_frame_id id other then Some number else lookup (same_frame_id other) self.old.numbers.entries)) }
    {
        self.numbers.insert(id, number)?;
        Ok(())
    }
}
