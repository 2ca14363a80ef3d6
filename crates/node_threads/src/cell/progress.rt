//! How far the outlets of a node were compared with its trace.
use std::alloc::{AllocError, Allocator};
use std::sync::Arc;
use std::sync::atomic::{AtomicUsize, Ordering};

/// The place up to which one outlet was compared.
pub(crate) type Mark<A> = Arc<AtomicUsize, A>;

/// For each outlet that someone has, the place in the trace up to which it was compared.
///
/// The outlet is with its writer, which comes to the trace under the node's lock to compare it, so a mark is all that
/// the node can read of it. Marks are counters that threads share, so no contract speaks of them.
#[derive(Drop)]
pub(crate) struct Progress<A: Allocator> {
    marks: Vec<Mark<A>, A>,
}

impl<A: Allocator> Progress<A> {
    /// No outlets.
    pub(crate) fn new(alloc: A) -> Progress<A> {
        Progress {
            marks: Vec::new(alloc),
        }
    }

    /// Whether each outlet that is still there was compared up to the place.
    pub(crate) fn has_reached(&mut self, place: usize) -> bool {
        self.marks.retain(|mark| Arc::strong_count(mark) > 1);
        self.marks
            .iter()
            .all(|mark| mark.load(Ordering::SeqCst) >= place)
    }
}

impl<A: Allocator + Copy> Progress<A> {
    /// Makes the mark of a new outlet, which has nothing to compare before the place.
    pub(crate) fn mark(&mut self, place: usize) -> Result<Mark<A>, AllocError> {
        self.marks.retain(|mark| Arc::strong_count(mark) > 1);
        let mark = Arc::new(*self.marks.allocator(), AtomicUsize::new(place))?;
        self.marks.push(Arc::try_clone(&mark)?)?;
        Ok(mark)
    }
}
