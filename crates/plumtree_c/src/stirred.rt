//! Dice for each of the frames that come with one call.
ghost use Rattle.std.specs.Prelude.{◌≡◌, map};
ghost use Rattle.plumtree_c.specs.Stirring.{mixed, next_dice, stirred};

use node_names::Dice;
use wire_node::DiceSource;

/// Dice that change after each draw: the first are the caller's own.
#[derive(Drop)]
pub(crate) struct Stirred {
    next: Dice,
}

impl Stirred {
    /// Begins with these dice.
    pub(crate) fn new(dice: &Dice) -> Stirred
        ensures { result.next ≡ dice.now }
    {
        Stirred { next: *dice }
    }
}

impl DiceSource for Stirred {
    ghost to_come = { λ source. stirred source.next };

    fn draw(&mut self) -> Dice {
        let drawn = self.next;
        mix_all(&mut self.next.0);
        drawn
    }
}

/// Puts each word through the generator SplitMix64.
fn mix_all(words: &mut [u64])
    ensures { words.new ≡ map mixed words.old }
{
    for i in 0..words.len() {
        words[i] = mixed(words[i]);
    }
}

/// The word after this one, by the generator SplitMix64.
fn mixed(word: u64) -> u64
    ensures { result ≡ mixed word }
{
    let word = word.wrapping_add(0x9e37_79b9_7f4a_7c15);
    let word = (word ^ (word >> 30)).wrapping_mul(0xbf58_476d_1ce4_e5b9);
    let word = (word ^ (word >> 27)).wrapping_mul(0x94d0_49bb_1331_11eb);
    word ^ (word >> 31)
}
