//! The dice as the log keeps them.
ghost use Rattle.std.specs.Prelude.{◌≡◌, IfOk};

use node_names::Dice;
use std::alloc::{AllocError, Allocator, Global};
use std::boxed::Box;
use std::marker::Model;

/// The dice of an accepted event. Dice that are all 0 take no memory of their own, since dice are half of an entry.
#[derive(Drop)]
pub struct KeptDice<A: Allocator = Global> {
    drawn: Option<Box<Dice, A>>,
}

impl<A: Allocator> Model for KeptDice<A> {
    ghost use Rattle.node_names.specs.declared.dice.Dice.{Dice};
    ghost use Rattle.world.specs.KeptDice.{dice_of};

    ghost Value = { Dice };

    ghost view = { λ kept. dice_of kept.drawn };
}

impl<A: Allocator> KeptDice<A> {
    /// Copies the dice, and allocates nothing if they are all 0.
    pub(crate) fn new(alloc: A, dice: &Dice) -> Result<Self, AllocError>
        ensures { IfOk result (λ kept. kept ≡ dice.now) }
    {
        if *dice == Dice::ZEROS {
            return Ok(KeptDice { drawn: None });
        }
        Ok(KeptDice {
            drawn: Some(Box::new(alloc, *dice)?),
        })
    }

    /// Returns the dice.
    pub fn get(&self) -> Dice
        ensures { result ≡ self.now }
    {
        match &self.drawn {
            Some(dice) => **dice,
            None => Dice::ZEROS,
        }
    }
}
