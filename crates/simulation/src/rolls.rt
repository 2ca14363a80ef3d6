//! The dice of a run.
ghost use Rattle.std.specs.Prelude.{◌≡◌};
ghost use Rattle.simulation.specs.Rolls.{after_roll, rolled, rolls_in, rolls_of};

use node_names::Dice;
use rand_core::SeedableRng;
use rand_pcg::Lcg128Xsl64;
use std::marker::Model;

/// The source of the dice of a run: the generator of a seed, or nothing, in which case all dice are zero.
///
/// A contract sees it as the generator.
#[derive(Drop)]
pub struct Rolls {
    generator: Option<Lcg128Xsl64>,
}

impl Model for Rolls {
    ghost use Rattle.std.specs.Prelude.{Option};
    ghost use Rattle.rand_pcg.specs.Lcg.{Lcg};

    ghost Value = { Option Lcg };

    ghost view = { λ rolls. rolls.generator };
}

impl Rolls {
    /// Creates the generator of the seed, if there is a seed.
    pub fn new(seed: Option<u64>) -> Rolls
        ensures { rolls_in result ≡ rolls_of seed }
    {
        let generator = match seed {
            Some(seed) => Some(Lcg128Xsl64::seed_from_u64(seed)),
            None => None,
        };
        Rolls { generator }
    }

    /// Draws the next dice.
    pub fn roll(&mut self) -> Dice
        ensures dice { result ≡ rolled (rolls_in self.old) }
        ensures left { rolls_in self.new ≡ after_roll (rolls_in self.old) }
    {
        match &mut self.generator {
            Some(generator) => Dice::draw(generator),
            None => Dice::ZEROS,
        }
    }
}
