//! An allocator for tests, which refuses the allocation that a test names.
//!
//! What does a call leave behind when it runs out of memory? A [`RefusingAllocator`] lets a test
//! ask that at each allocation of the call in turn: it refuses the first one, then, at the next try,
//! the second, and so on until a try has too few allocations to be refused.
//!
//! ```text
//! let heap = RefusingAllocator::new(rt.alloc());
//! let mut names = Vec::new(&heap);
//! for n in 1..100 {
//!     let before = names.clone()?;
//!     heap.refuse(n);
//!     let outcome = register(&heap, &mut names, "ada");
//!     if !heap.is_spent() {
//!         heap.refuse(0);
//!         return outcome;
//!     }
//!     assert!(rt; outcome.is_err(), "allocation {n}");
//!     assert_eq!(rt; names, before, "allocation {n}");
//! }
//! ```
//!
//! The copy to compare with is made before `refuse`, since its allocations would be counted, and
//! `refuse(0)` calls off what no allocation was left for.
//!
//! A contract cannot say what an atomic word holds. So it is proved that this is a sound allocator
//! and how an allocation changes the count; which allocations are refused, and what `is_spent` answers, is
//! only tested.
#![tactic(auto)]

mod allocator;
mod countdown;

pub use allocator::RefusingAllocator;
