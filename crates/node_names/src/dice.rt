//! The random words of one step.
ghost use Rattle.std.specs.Prelude.{◌≡◌, replicate};
ghost use Rattle.node_names.specs.Draws.{after_words, words};

use rand_core::Rng;

/// Sixteen random words, for the choices of one step.
///
/// Each choice of a step uses a word of its own. A choice among `n` candidates takes the one whose index is that
/// word modulo `n`.
#[derive(Clone, Copy, Debug, PartialEq, Eq, Hash)]
pub struct Dice(pub [u64; 16]);

impl Dice {
    /// Sixteen zeros. With them, each choice takes the first candidate.
    pub const ZEROS: Dice = Dice([0; 16]);

    /// Draws the next sixteen words of `rng`, in order.
    pub fn draw<R: Rng>(rng: &mut R) -> Dice
        ensures words { result.0 ≡ words 16 (R.stream rng.old) }
        ensures left { R.stream rng.new ≡ after_words 16 (R.stream rng.old) }
    {
        let mut words = [0; 16];
        for i in 0..16 {
            words[i] = rng.next_u64();
        }
        Dice(words)
    }
}

impl Default for Dice {
    ghost is_default = { λ dice. dice.0 ≡ replicate 16 0 };

    fn default() -> Dice {
        Dice::ZEROS
    }
}
