//! The allocator that refuses an allocation: which one it refuses, and what a list keeps.
use play_script::layer::{Layer, Outcome, Turn};
use play_script::words::number;
use refusing_allocator::RefusingAllocator;
use std::alloc::{AllocError, Global};
use std::fmt::Write;

/// An allocator of its own, apart from the one that refuses allocations of other layers.
#[derive(Drop)]
pub(crate) struct AllocatorLayer {
    heap: RefusingAllocator,
}

type Heap<'a> = &'a RefusingAllocator;

/// Makes one allocation: the list has no block yet. Returns whether it is granted.
fn is_granted(heap: Heap<'_>) -> bool {
    Vec::new(heap).push(7u8).is_ok()
}

/// Makes a list of one byte, in a block of `capacity` bytes.
fn one(heap: Heap<'_>, capacity: usize) -> Result<Vec<u8, Heap<'_>>, AllocError> {
    let mut list = Vec::with_capacity(heap, capacity)?;
    list.push(7)?;
    Ok(list)
}

/// Appends whether the refusal that was asked for has been given, and ends the line.
fn push_spent(said: &mut String, heap: Heap<'_>) -> Result<(), AllocError> {
    if heap.is_spent() {
        said.push_str("; spent")?;
    }
    said.push('\n')
}

/// Pushes to a list whose block is full while the allocation is refused, and again. Appends what the list is then.
fn push_enlarged(said: &mut String, heap: Heap<'_>) -> Result<(), AllocError> {
    let mut list = one(heap, 1)?;
    heap.refuse(1);
    match list.push(8) {
        Ok(()) => said.push_str("granted")?,
        Err(refused) => write!(said, "refused {}, {:?}", refused.value, list.as_slice())?,
    }
    push_spent(said, heap)?;
    list.push(8)?;
    writeln!(said, "then {:?}", list.as_slice())
}

/// Shrinks a list. Returns its capacity.
fn shrink(list: &mut Vec<u8, Heap<'_>>) -> usize {
    list.shrink_to_fit();
    list.capacity()
}

/// Shrinks a list of one byte in a block of 64 bytes, and frees it, while the next allocation is refused. Appends what
/// the list is before it is freed.
fn push_shrunk(said: &mut String, heap: Heap<'_>) -> Result<(), AllocError> {
    let mut list = one(heap, 64)?;
    heap.refuse(1);
    let is_smaller = shrink(&mut list) < 64;
    write!(
        said,
        "{}, {:?}",
        if is_smaller { "smaller" } else { "as large" },
        list.as_slice()
    )?;
    push_spent(said, heap)
}

/// Takes a value that may cross threads.
fn crosses_threads<T: Send + Sync>(_value: &T) {}

impl AllocatorLayer {
    pub(crate) fn new(own: Global) -> AllocatorLayer {
        AllocatorLayer {
            heap: RefusingAllocator::new(own),
        }
    }

    /// Asks for a refusal: `refuse 2`. Appends `spent` if it is given at once.
    fn refuse(&self, n: &str, said: &mut String) -> Result<Outcome, AllocError> {
        let Some(n) = number(n) else {
            return Ok(Outcome::Unknown);
        };
        self.heap.refuse(n);
        if self.heap.is_spent() {
            said.push_str("spent\n")?;
        }
        Ok(Outcome::Done)
    }

    /// Makes an allocation.
    fn grow(&self, said: &mut String) -> Result<(), AllocError> {
        let is_granted = is_granted(&self.heap);
        said.push_str(if is_granted { "granted" } else { "refused" })?;
        push_spent(said, &self.heap)
    }

    /// Takes the allocator and a list of it for values that may cross threads.
    fn cross(&self, said: &mut String) -> Result<(), AllocError> {
        let heap = &self.heap;
        crosses_threads(&heap);
        crosses_threads(&Vec::<u8, Heap<'_>>::new(heap));
        said.push_str("they may cross threads\n")
    }
}

impl Layer for AllocatorLayer {
    fn call(
        &mut self,
        words: &[&str],
        _turn: &mut Turn<'_>,
        said: &mut String,
    ) -> Result<Outcome, AllocError> {
        match words {
            ["refuse", n] => return self.refuse(n, said),
            ["grow"] => self.grow(said)?,
            ["enlarge"] => push_enlarged(said, &self.heap)?,
            ["shrink"] => push_shrunk(said, &self.heap)?,
            ["cross"] => self.cross(said)?,
            _ => return Ok(Outcome::Unknown),
        }
        Ok(Outcome::Done)
    }

    fn show(&self, _text: &mut String) -> Result<(), AllocError> {
        Ok(())
    }

    fn clear(&mut self) {
        self.heap.refuse(0);
    }
}
