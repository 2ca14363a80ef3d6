//! The threads that wait for a node's steps, and which of them a step wakes.
use crate::host::writer_place::WriterPlace;
use frames::Frame;
use node_names::{NameSet, NodeName};
use protocol::Out;
use std::alloc::{AllocError, Allocator};
use std::sync::{Condvar, Mutex, Wait};

/// The threads that steps are to wake.
#[derive(Clone, Copy)]
pub(crate) struct WakeSet {
    /// The places of the links that had frames, one bit each: place 64 shares the bit of place 0, and so on.
    links: u64,
    has_delivered: bool,
}

impl WakeSet {
    /// Wakes no one.
    pub(crate) fn nothing() -> WakeSet {
        WakeSet {
            links: 0,
            has_delivered: false,
        }
    }

    /// Wakes everyone.
    fn all() -> WakeSet {
        WakeSet {
            links: u64::MAX,
            has_delivered: true,
        }
    }
}

/// The threads that wait for a node's steps.
///
/// The writer of each link has a place of its own, and is woken only if its link had a frame. Otherwise a node with
/// many links would wake all their writers at each step.
#[derive(Drop)]
pub(crate) struct Wakeups<A: Allocator> {
    /// Wakes the worker that hands deliveries out, and the thread that closes the node.
    pub(crate) delivered: Condvar,
    /// The names that links were opened to at the start, in the order of their writers' places.
    names: NameSet<A>,
    writers: Vec<WriterPlace, A>,
    /// The names whose writers are to end once their outlets have no frame.
    retiring: Mutex<NameSet<A>>,
}

/// How many places the writers of links to other names share.
const SHARED: usize = 16;

/// Which of the shared places is that of the writer of a link to this name.
fn shared_place(name: &NodeName) -> usize {
    let mut sum: usize = 0;
    for byte in name.as_bytes() {
        sum = sum.wrapping_mul(31).wrapping_add(usize::from(*byte));
    }
    sum % SHARED
}

/// Makes a place for each of the names, and the shared ones.
fn places_for<A: Allocator + Copy>(
    alloc: A,
    names: &NameSet<A>,
) -> Result<Vec<WriterPlace, A>, AllocError> {
    let count = names.len().saturating_add(SHARED);
    let mut writers = Vec::with_capacity(alloc, count)?;
    for _ in 0..count {
        writers.push(WriterPlace::new())?;
    }
    Ok(writers)
}

impl<A: Allocator + Copy> Wakeups<A> {
    /// Makes the places for links to these names. No thread waits yet.
    pub(crate) fn new(alloc: A, links: &[NodeName]) -> Result<Wakeups<A>, AllocError> {
        let mut names = NameSet::new(alloc);
        for name in links {
            names.insert(*name)?;
        }
        let writers = places_for(alloc, &names)?;
        Ok(Wakeups {
            delivered: Condvar::new(),
            names,
            writers,
            retiring: Mutex::new(NameSet::new(alloc)),
        })
    }

    /// The number of the place where the writer of a link to this name waits.
    fn place_of(&self, peer: &NodeName) -> usize {
        match self.names.get_index_of(peer) {
            Some(place) => place,
            None => self.names.len().saturating_add(shared_place(peer)),
        }
    }

    /// The place where the writer of a link to this name waits.
    pub(crate) fn writer(&self, peer: &NodeName) -> Option<&WriterPlace> {
        self.writers.get(self.place_of(peer))
    }

    /// Has the writer of the link to this name end once its outlet has no frame. If memory is refused, it does not.
    pub(crate) fn retire<R: Wait>(&self, rt: &R, peer: &NodeName) {
        if self.retiring.lock(rt).insert(*peer).is_err() {
            return;
        }
        if let Some(place) = self.writer(peer) {
            place.tell(rt);
        }
    }

    /// Whether the writer of the link to this name was told to end since the last call.
    pub(crate) fn takes_retirement<R: Wait>(&self, rt: &R, peer: &NodeName) -> bool {
        self.retiring.lock(rt).swap_remove(peer)
    }

    /// Adds the threads that a step is to wake.
    pub(crate) fn add(&self, moved: &mut WakeSet, out: &Out<Frame<A>, A>) {
        for (to, _) in out.sends.as_slice() {
            moved.links |= 1_u64.rotate_left((self.place_of(to) % 64) as u32);
        }
        if !out.deliveries.is_empty() {
            moved.has_delivered = true;
        }
    }

    /// Wakes these threads.
    pub(crate) fn wake<R: Wait>(&self, rt: &R, moved: WakeSet) {
        if moved.links != 0 {
            self.tell_writers(rt, moved.links);
        }
        if moved.has_delivered {
            self.delivered.notify_all();
        }
    }

    /// Wakes the writers at the places of these bits.
    fn tell_writers<R: Wait>(&self, rt: &R, links: u64) {
        let mut bits = links;
        for writer in self.writers.iter() {
            if bits % 2 == 1 {
                writer.tell(rt);
            }
            bits = bits.rotate_right(1);
        }
    }

    /// Wakes all writers.
    pub(crate) fn wake_writers<R: Wait>(&self, rt: &R) {
        self.tell_writers(rt, u64::MAX);
    }

    /// Wakes all threads that wait.
    pub(crate) fn wake_all<R: Wait>(&self, rt: &R) {
        self.wake(rt, WakeSet::all());
    }
}
