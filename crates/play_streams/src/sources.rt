//! A source that gives one item again and again.
ghost use Rattle.std.specs.Prelude.{◌≤◌, length};
ghost use Rattle.frames.specs.declared.TheConstants.{MAX_FRAME};

use bytes::Bytes;
use frames::MAX_FRAME;
use links::Source;
use std::alloc::{AllocError, Allocator, Global};

/// A source that gives an item `left` more times, each time a separate copy.
#[derive(Drop)]
pub(crate) struct Same<A: Allocator> {
    alloc: A,
    item: Bytes<A>,
    left: usize,
    gave: Vec<Bytes<A>>,
    ghost short: { length item ≤ MAX_FRAME },
}

impl<A: Allocator + Copy> Same<A> {
    /// Creates a source that gives these bytes `times` times, or nothing if they are longer than any frame.
    pub(crate) fn new(
        own: Global,
        alloc: A,
        bytes: &[u8],
        times: usize,
    ) -> Result<Option<Same<A>>, AllocError> {
        if bytes.len() > MAX_FRAME {
            return Ok(None);
        }
        Ok(Some(Same {
            alloc,
            item: Bytes::copy_from_slice(alloc, bytes)?,
            left: times,
            gave: Vec::new(own),
        }))
    }

    /// Returns how many items the source gave.
    pub(crate) fn count(&self) -> usize {
        self.gave.len()
    }
}

impl<A: Allocator + Copy> Source<A> for Same<A> {
    ghost given = { λ same. same.gave.items };

    fn next(&mut self) -> Result<Option<Bytes<A>>, AllocError> {
        if self.left == 0 {
            return Ok(None);
        }
        let item = Bytes::copy_from_slice(self.alloc, self.item.as_slice())?;
        self.gave.push(self.item.clone()?)?;
        self.left -= 1;
        Ok(Some(item))
    }
}
