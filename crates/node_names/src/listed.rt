//! A list that contracts see as its items alone.
ghost use Rattle.std.specs.Prelude.{◌≡◌, ◌↔◌, [], ◌∷◌, ◌++◌, length, take, IsTrue, IsNone, IfOk, OnOk, OnErr};
ghost use Rattle.std.specs.Option.{option_to_list};
ghost use Rattle.std.specs.Cmp.Lexicographic.{pointwise, lists_per, lists_equiv};

use std::alloc::{AllocError, Allocator, Global};
use std::fmt;
use std::marker::Model;

/// A growable list in the memory of its allocator.
///
/// Contracts see it as the list of its items. Unlike a `Vec`, it does not expose its spare capacity, so a contract
/// can state that a type that holds it is unchanged.
#[derive(Drop)]
pub struct Listed<T: Drop, A: Allocator = Global> {
    items: Vec<T, A>,
}

impl<T: Drop, A: Allocator> Model for Listed<T, A> {
    ghost use Rattle.std.specs.Prelude.{List};

    ghost Value = { List T };

    ghost view = { λ l. l.items.items };
}

impl<T: Drop, A: Allocator> Listed<T, A> {
    /// Creates an empty list, without allocating.
    pub fn new(alloc: A) -> Listed<T, A>
        ensures { result ≡ [] }
    {
        Listed {
            items: Vec::new(alloc),
        }
    }

    /// Turns a vector into a list without copying its items.
    pub fn from_vec(vec: Vec<T, A>) -> Listed<T, A>
        ensures { result ≡ vec.items }
    {
        Listed { items: vec }
    }

    /// Turns the list into a vector without copying its items.
    pub fn into_vec(self) -> Vec<T, A>
        ensures { result.items ≡ self }
    {
        let Listed { items } = self;
        items
    }

    /// Returns the items, in order.
    pub fn as_slice(&self) -> &[T]
        ensures { result.now ≡ self.now }
    {
        self.items.as_slice()
    }

    /// Returns the number of items.
    pub fn len(&self) -> usize
        ensures { result ≡ length self.now }
    {
        self.items.len()
    }

    /// Returns whether the list has no items.
    pub fn is_empty(&self) -> bool
        ensures { IsTrue result ↔ (self.now ≡ []) }
    {
        self.items.is_empty()
    }

    /// Appends `item`. When memory runs out, `item` is dropped and the list is unchanged.
    pub fn push(&mut self, item: T) -> Result<(), AllocError>
        ensures ok { OnOk result (self.new ≡ self.old ++ item ∷ []) }
        ensures err { OnErr result (self.new ≡ self.old) }
    {
        self.items.push(item)?;
        Ok(())
    }

    /// Appends the items of `more`. When memory runs out, they are dropped and the list is unchanged.
    pub fn append(&mut self, mut more: Vec<T, A>) -> Result<(), AllocError>
        ensures ok { OnOk result (self.new ≡ self.old ++ more.items) }
        ensures err { OnErr result (self.new ≡ self.old) }
    {
        self.items.append(&mut more)
    }

    /// Removes the last item and returns it, or returns `None` if the list is empty.
    pub fn pop(&mut self) -> Option<T>
        ensures last { self.old ≡ self.new ++ option_to_list result }
        ensures none { IsNone result ↔ (self.old ≡ []) }
    {
        self.items.pop()
    }

    /// Drops all items after the first `n`. Changes nothing if there are at most `n`.
    pub fn truncate(&mut self, n: usize)
        ensures { self.new ≡ take n self.old }
    {
        self.items.truncate(n);
    }

    /// Returns the allocator of the list.
    pub fn allocator(&self) -> &A {
        self.items.allocator()
    }
}

impl<T: Copy, A: Allocator + Copy> Listed<T, A> {
    /// Copies the items into a new list on the same allocator.
    pub fn copy(&self) -> Result<Listed<T, A>, AllocError>
        ensures { IfOk result (λ list. list ≡ self.now) }
    {
        let items = Vec::from_slice(*self.items.allocator(), self.as_slice())?;
        Ok(Listed { items })
    }
}

impl<T: PartialEq + Drop, A: Allocator> PartialEq for Listed<T, A> {
    ghost eq = { pointwise T.eq };

    ghost laws = { lists_per T.laws };

    fn eq(&self, other: &Listed<T, A>) -> bool {
        self.as_slice() == other.as_slice()
    }
}

impl<T: Eq + Drop, A: Allocator> Eq for Listed<T, A> {
    ghost laws = { lists_equiv T.Eq.laws };
}

impl<T: fmt::Debug + Drop, A: Allocator> fmt::Debug for Listed<T, A> {
    fn fmt<W: fmt::Write>(&self, f: &mut fmt::Formatter<W>) -> fmt::Result {
        f.debug_list().entries(self.as_slice()).finish()
    }
}
