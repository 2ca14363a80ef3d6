use crate::countdown::Countdown;
use std::alloc::{AllocError, Allocator, Global};

/// An allocator that refuses one of the allocations to come, the one that a test names.
///
/// Making a block and making one larger are both allocations. Freeing and shrinking are not counted, and are
/// never refused here. Every other call is passed on to the inner allocator, and fails only where
/// that one fails.
///
/// Hand out a `&` of it: that is an allocator too, is `Copy`, and may cross threads where the
/// inner allocator may. Put it in a `Box` and `Box::leak` that for a `&'static` one.
///
/// ```text
/// let heap = RefusingAllocator::new(rt.alloc());
/// let mut list = Vec::new(&heap);
/// heap.refuse(1);
/// assert!(rt; list.push(7).is_err());
/// assert!(rt; heap.is_spent());
/// assert!(rt; list.push(7).is_ok());
/// ```
///
/// All values are equal, as those of `Global` are, so that a type with an allocator parameter can
/// derive the comparisons.
#[derive(Drop)]
#[derive_where(Debug, PartialEq, Eq, PartialOrd, Ord, Hash)]
pub struct RefusingAllocator<A: Allocator = Global> {
    #[derive_where(skip)]
    inner: A,
    #[derive_where(skip)]
    countdown: Countdown,
}

impl<A: Allocator> RefusingAllocator<A> {
    /// An allocator that takes its blocks from `inner`, and refuses nothing until it is asked to. The inner one is
    /// handed in, since only the runtime hands out the standard allocator.
    pub fn new(inner: A) -> Self {
        RefusingAllocator {
            inner,
            countdown: Countdown::new(),
        }
    }

    /// Has the `n`-th allocation from now on refused: the next one at 1, and none at 0.
    ///
    /// Exactly that allocation is refused, and those after it succeed again. A new call takes the
    /// place of the last one, whether its refusal has been given or not.
    pub fn refuse(&self, n: u64) {
        self.countdown.restart(n);
    }

    /// Whether the refusal that was asked for last has been given.
    ///
    /// It is false where none was asked for, as after `refuse(0)`. So a sweep asks it after each
    /// try: true says that the try was refused an allocation, and false that the sweep is over.
    pub fn is_spent(&self) -> bool {
        self.countdown.is_spent()
    }
}

unsafe impl<A: Allocator> Allocator for RefusingAllocator<A> {
    ghost dealloc_token = { λ heap ty ptr. A.dealloc_token heap.inner ty ptr };

    // An enlargement comes here too: the trait's `grow` allocates the larger block by this.
    fn allocate(&self, size: usize, align: usize) -> Result<*mut u8, AllocError> {
        if self.countdown.count_growth() {
            return Err(AllocError);
        }
        self.inner.allocate(size, align)
    }

    unsafe fn deallocate(&self, ptr: *mut u8, size: usize, align: usize) {
        unsafe { self.inner.deallocate(ptr, size, align) }
    }

    // The trait's own `shrink` allocates, and so would be counted.
    unsafe fn shrink<T>(
        &self,
        ptr: *mut T,
        len: usize,
        old_cap: usize,
        new_cap: usize,
    ) -> Result<*mut T, AllocError> {
        unsafe { self.inner.shrink(ptr, len, old_cap, new_cap) }
    }
}
