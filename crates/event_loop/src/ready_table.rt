//! Values by place, and a queue of the places where something is to be done.
use slab::Slab;
use std::alloc::{AllocError, AllocFailed, Allocator};

/// A value, and where it is in the queue.
#[derive(Drop)]
struct Slot<T> {
    value: T,
    is_queued: bool,
    /// The place that is queued behind this one.
    next: Option<usize>,
}

/// Values by place, and a queue of the places where something is to be done. A place that is queued stands in the queue
/// once.
///
/// The queue leads from value to value, so that no place is lost for want of memory.
#[derive(Drop)]
pub(crate) struct ReadyTable<T, A: Allocator> {
    slots: Slab<Slot<T>, A>,
    first: Option<usize>,
    last: Option<usize>,
    /// How many places are queued.
    queued: usize,
}

impl<T: Drop, A: Allocator> ReadyTable<T, A> {
    /// Makes an empty table.
    pub(crate) fn new(alloc: A) -> ReadyTable<T, A> {
        ReadyTable {
            slots: Slab::new(alloc),
            first: None,
            last: None,
            queued: 0,
        }
    }

    /// A number above all places.
    pub(crate) fn places(&self) -> usize {
        self.slots.capacity()
    }

    /// How many values there are.
    pub(crate) fn len(&self) -> usize {
        self.slots.len()
    }

    /// How many places are queued.
    pub(crate) fn queued(&self) -> usize {
        self.queued
    }

    /// The value at this place.
    pub(crate) fn get(&self, place: usize) -> Option<&T> {
        match self.slots.get(place) {
            Some(slot) => Some(&slot.value),
            None => None,
        }
    }

    /// The value at this place.
    pub(crate) fn get_mut(&mut self, place: usize) -> Option<&mut T> {
        match self.slots.get_mut(place) {
            Some(slot) => Some(&mut slot.value),
            None => None,
        }
    }

    /// Makes room for a value.
    pub(crate) fn reserve(&mut self) -> Result<(), AllocError> {
        self.slots.reserve(1)
    }

    /// The place of the next value.
    pub(crate) fn next_place(&self) -> usize {
        self.slots.vacant_key()
    }

    /// Puts a value in, and queues its place, which it returns.
    pub(crate) fn insert(&mut self, value: T) -> Result<usize, AllocError> {
        let slot = Slot {
            value,
            is_queued: false,
            next: None,
        };
        let place = match self.slots.insert(slot) {
            Ok(place) => place,
            Err(_) => return Err(AllocError),
        };
        self.queue(place);
        Ok(place)
    }

    /// Removes the value at this place, which is not queued.
    pub(crate) fn remove(&mut self, place: usize) {
        self.slots.try_remove(place);
    }

    /// Takes the value at this place, at the end: the queue is of no use any more.
    pub(crate) fn take(&mut self, place: usize) -> Option<T> {
        let slot = self.slots.try_remove(place)?;
        Some(slot.value)
    }

    /// Queues the place behind the others, unless it is queued.
    pub(crate) fn queue(&mut self, place: usize) {
        match self.slots.get_mut(place) {
            Some(slot) if !slot.is_queued => {
                slot.is_queued = true;
                slot.next = None;
            }
            _ => return,
        }
        match self.last {
            Some(last) => self.link(last, place),
            None => self.first = Some(place),
        }
        self.last = Some(place);
        self.queued = self.queued.saturating_add(1);
    }

    /// Has a place stand behind another.
    fn link(&mut self, before: usize, place: usize) {
        if let Some(slot) = self.slots.get_mut(before) {
            slot.next = Some(place);
        }
    }

    /// Whether the place is queued.
    pub(crate) fn is_queued(&self, place: usize) -> bool {
        match self.slots.get(place) {
            Some(slot) => slot.is_queued,
            None => false,
        }
    }

    /// Takes the first place off the queue.
    pub(crate) fn take_first(&mut self) -> Option<usize> {
        let place = self.first?;
        let slot = self.slots.get_mut(place)?;
        slot.is_queued = false;
        self.first = slot.next;
        if self.first.is_none() {
            self.last = None;
        }
        self.queued = self.queued.saturating_sub(1);
        Some(place)
    }
}
