//! Random numbers.
use rand_core::{Rng, SeedableRng};
use rand_pcg::Lcg128Xsl64;

/// Random numbers, the same for each run with the same seed.
#[derive(Drop)]
pub(crate) struct Dice {
    generator: Lcg128Xsl64,
}

impl Dice {
    /// Makes the numbers of a seed.
    pub(crate) fn new(seed: u64) -> Dice {
        Dice {
            generator: Lcg128Xsl64::seed_from_u64(seed),
        }
    }

    /// The next number below `most`, or 0.
    pub(crate) fn below(&mut self, most: u64) -> u64 {
        self.generator.next_u64().checked_rem(most).unwrap_or(0)
    }

    /// Whether something happens that happens once in so many times.
    pub(crate) fn once_in(&mut self, times: u64) -> bool {
        self.below(times) == 0
    }

    /// The next dice of a node.
    pub(crate) fn draw(&mut self) -> node_names::Dice {
        node_names::Dice::draw(&mut self.generator)
    }
}
