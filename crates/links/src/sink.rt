//! Consumers of frames, and sources of their bytes.
ghost use Rattle.std.specs.Prelude.{◌≡◌, ◌≤◌, ◌∷◌, ◌++◌, [], ℕ, List, Some, None, Ok, OnErr, IsTrue, length};
ghost use Rattle.std.specs.Bool.{OnTrue, OnFalse};
ghost use Rattle.frames.specs.declared.TheConstants.{MAX_FRAME};
ghost use Rattle.links.specs.Counting.{has_risen};

use bytes::Bytes;
use std::alloc::{AllocError, Allocator};

/// A consumer of frames of type `F`.
///
/// It counts the frames that it refused. The count saturates at `u64::MAX`.
///
/// The parameter is the type of the frames rather than their allocator, because impls of a trait whose methods take a
/// value over an allocator by value are not supported.
pub trait Sink<F> {
    /// The frames that the sink took, in order.
    ghost taken: { Self → List F };

    /// The number of frames that the sink refused.
    ghost refusals: { Self → ℕ };

    /// Takes `frame` and returns `true`, or refuses it and returns `false`. A sink that refuses a frame takes no more.
    fn frame(&mut self, frame: F) -> bool
        ensures took { OnTrue result (taken self.new ≡ taken self.old ++ frame ∷ []) }
        ensures closed { OnFalse result (taken self.new ≡ taken self.old) }
        ensures willing { OnTrue result (refusals self.new ≡ refusals self.old) }
        ensures refused { OnFalse result (IsTrue (has_risen (refusals self.old) (refusals self.new))) };
}

/// A source of the bytes of frames. Each item is one frame.
pub trait Source<A: Allocator> {
    /// The items that the source gave, in order.
    ghost given: { Self → List (List ℕ) };

    /// Whether the source has nothing more to give.
    ghost is_spent: { Self → Type 0 } = { λ _. Unit {0} };

    /// Returns the next item, or `Ok(None)` if there is none at the moment.
    fn next(&mut self) -> Result<Option<Bytes<A>>, AllocError>
        ensures some { (item : List ℕ)
            → result ≡ Ok (Some item)
            → (given self.new ≡ given self.old ++ item ∷ []) × (length item ≤ MAX_FRAME) }
        ensures none { result ≡ Ok None → (given self.new ≡ given self.old) × is_spent self.new }
        ensures err { OnErr result (given self.new ≡ given self.old) };
}
