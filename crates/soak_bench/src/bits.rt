//! Sets of numbers.
use std::alloc::{AllocError, Global};

/// How many numbers a word has.
const WORD: usize = 64;

/// A set of numbers, a bit for each.
#[derive(Drop)]
pub(crate) struct Bits {
    words: Vec<u64>,
}

/// The bit of a number in its word.
pub(crate) fn bit(number: usize) -> u64 {
    1u64.wrapping_shl((number % WORD) as u32)
}

impl Bits {
    /// Makes an empty set.
    pub(crate) fn new(alloc: Global) -> Bits {
        Bits {
            words: Vec::new(alloc),
        }
    }

    /// Whether it has the number.
    pub(crate) fn contains(&self, number: usize) -> bool {
        match self.words.get(number / WORD) {
            Some(word) => *word & bit(number) != 0,
            None => false,
        }
    }

    /// Adds the number. Returns whether it is new.
    pub(crate) fn insert(&mut self, number: usize) -> Result<bool, AllocError> {
        let place = number / WORD;
        for _ in self.words.len()..place.saturating_add(1) {
            self.words.push(0)?;
        }
        if self.contains(number) {
            return Ok(false);
        }
        if let Some(word) = self.words.get_mut(place) {
            *word |= bit(number);
        }
        Ok(true)
    }
}
