//! What the commands of one layer are, and how a call is made while an allocation is refused.
use refusing_allocator::RefusingAllocator;
use std::alloc::AllocError;

/// A call that is made while allocation number `n` is refused, or none if `n` is 0.
#[derive(Drop)]
pub struct Turn<'a> {
    heap: &'a RefusingAllocator,
    n: u64,
    is_spent: bool,
}

impl<'a> Turn<'a> {
    pub fn new(heap: &'a RefusingAllocator, n: u64) -> Turn<'a> {
        Turn {
            heap,
            n,
            is_spent: false,
        }
    }

    /// Has the allocation refused from here on. Stands right before the call.
    pub fn begin(&mut self) {
        self.heap.refuse(self.n);
    }

    /// Stops refusing, and notes whether the allocation was refused. Stands right behind the call. Returns whether an
    /// allocation of this call was refused.
    pub fn end(&mut self) -> bool {
        let is_spent = self.n > 0 && self.heap.is_spent();
        self.is_spent = self.is_spent || is_spent;
        self.heap.refuse(0);
        is_spent
    }

    /// Returns whether the allocation was refused.
    pub fn is_spent(&self) -> bool {
        self.is_spent
    }

    /// Returns what came of a call that answers the same whether or not an allocation is refused.
    pub fn answered(&self) -> Outcome {
        if self.is_spent {
            Outcome::Regardless
        } else {
            Outcome::Done
        }
    }
}

/// What came of a command.
#[derive(Clone, Copy, PartialEq, Eq)]
pub enum Outcome {
    /// The call was made, and what it answered is said.
    Done,
    /// The call answered that it was refused memory.
    NoMemory,
    /// The call was refused memory, and what it answered is said: the same as when nothing is refused.
    Regardless,
    /// The words are no command of the layer, or not where they stand.
    Unknown,
}

/// A layer of the library whose public calls are commands.
pub trait Layer {
    /// Makes the call of a command, and appends what it answered, a line for each thing that it gave.
    fn call(
        &mut self,
        words: &[&str],
        turn: &mut Turn<'_>,
        said: &mut String,
    ) -> Result<Outcome, AllocError>;

    /// Appends the state, a line for each part that is not empty.
    fn show(&self, text: &mut String) -> Result<(), AllocError>;

    /// Appends all that can be read of the state, which may be more than what a block shows.
    fn show_all(&self, text: &mut String) -> Result<(), AllocError> {
        self.show(text)
    }

    /// Begins anew.
    fn clear(&mut self);
}

/// Puts what was made in the place of what was there. A refusal leaves that as it was.
pub fn fill<T: Drop>(place: &mut Option<T>, made: Result<T, AllocError>) -> Outcome {
    match made {
        Ok(made) => {
            *place = Some(made);
            Outcome::Done
        }
        Err(_) => Outcome::NoMemory,
    }
}

/// Returns what came of a call that fails only if it is refused memory.
pub fn in_memory(answer: Result<(), AllocError>) -> Outcome {
    match answer {
        Ok(()) => Outcome::Done,
        Err(_) => Outcome::NoMemory,
    }
}
