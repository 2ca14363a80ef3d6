//! Reading the fields of a body.
ghost use Rattle.std.specs.Prelude.{◌≡◌, ◌∷◌, ◌++◌, [], MatchResult, OnOk, IfOk, Ok, Err, length};
ghost use Rattle.std.specs.Int.{w32, w64, to_be_bytes};
ghost use Rattle.frames.specs.Answer.{Reads};
ghost use Rattle.frames.specs.Field.{name_octets, origin_octets};
ghost use Rattle.frames.specs.Reading as read;
ghost use Rattle.step_records.specs.Text.{dice_text, id_text, number_text};

use crate::check::Check;
use frames::FrameFault;
use node_names::{Dice, Incarnation, MsgId, NodeName, Origin};
use std::marker::Model;

/// The bytes of a body that are still to be read. Each method reads one field from the front, and returns `BadField` if
/// the bytes end within it. After a fault, nothing more may be read.
#[derive(Drop)]
pub(crate) struct Fields<'a> {
    rest: &'a [u8],
}

impl<'a> Model for Fields<'a> {
    ghost use Rattle.std.specs.Prelude.{ℕ, List};

    ghost Value = { List ℕ };

    ghost view = { λ f. f.rest.now };
}

impl<'a> Fields<'a> {
    /// Starts reading at the front of `rest`.
    pub(crate) fn new(rest: &'a [u8]) -> Fields<'a>
        ensures { result ≡ rest.now }
    {
        Fields { rest }
    }

    /// Returns the bytes that are still to be read.
    pub(crate) fn rest(&self) -> &'a [u8]
        ensures { result.now ≡ self.now }
    {
        self.rest
    }

    /// Reads `count` bytes.
    pub(crate) fn octets(&mut self, count: usize) -> Result<&'a [u8], FrameFault>
        ensures reads { MatchResult result
            (λ front. read.octets count self.old ≡ Ok (front.now, self.new))
            (λ fault. read.octets count self.old ≡ Err fault) }
        ensures text { IfOk result (λ front. self.old ≡ front.now ++ self.new) }
        ensures len { IfOk result (λ front. length front.now ≡ count) }
    {
        if self.rest.len() < count {
            return Err(FrameFault::BadField);
        }
        let (front, rest) = self.rest.split_at(count);
        self.rest = rest;
        Ok(front)
    }

    #[tactic(auto, unfolding(frames::specs::Reading::byte))]
    pub(crate) fn byte(&mut self) -> Result<u8, FrameFault>
        ensures reads { Reads result read.byte self.old self.new }
        ensures text { IfOk result (λ byte. self.old ≡ byte ∷ self.new) }
    {
        match self.rest {
            [] => Err(FrameFault::BadField),
            [first, rest @ ..] => {
                self.rest = rest;
                Ok(*first)
            }
        }
    }

    /// Reads a number of four bytes.
    #[tactic(auto, unfolding(frames::specs::Reading::word))]
    pub(crate) fn word(&mut self) -> Result<u32, FrameFault>
        ensures reads { Reads result (read.word w32) self.old self.new }
        ensures text { IfOk result (λ word. self.old ≡ to_be_bytes w32 word ++ self.new) }
    {
        let bytes = self.octets(4)?;
        Ok(u32::from_be_bytes([bytes[0], bytes[1], bytes[2], bytes[3]]))
    }

    /// Reads a number of eight bytes.
    #[tactic(auto, unfolding(frames::specs::Reading::word))]
    pub(crate) fn number(&mut self) -> Result<u64, FrameFault>
        ensures reads { Reads result (read.word w64) self.old self.new }
        ensures text { IfOk result (λ number. self.old ≡ number_text number ++ self.new) }
    {
        let bytes = self.octets(8)?;
        Ok(u64::from_be_bytes([
            bytes[0], bytes[1], bytes[2], bytes[3], bytes[4], bytes[5], bytes[6], bytes[7],
        ]))
    }

    pub(crate) fn check(&mut self) -> Result<Check, FrameFault>
        ensures { IfOk result (λ check. self.old ≡ check.0 ++ self.new) }
    {
        let mut check = [0; Check::LEN];
        check.copy_from_slice(self.octets(Check::LEN)?);
        Ok(Check(check))
    }

    /// Reads a name. Checks the length before reading the name's bytes, and their alphabet afterwards.
    #[tactic(auto, unfolding(frames::specs::Reading::name))]
    pub(crate) fn name(&mut self) -> Result<NodeName, FrameFault>
        ensures reads { Reads result read.name self.old self.new }
        ensures text { IfOk result (λ name. self.old ≡ name_octets name ++ self.new) }
    {
        let len = usize::from(self.byte()?);
        if len == 0 || len > NodeName::MAX_LEN {
            return Err(FrameFault::BadName);
        }
        let letters = self.octets(len)?;
        match NodeName::parse(letters) {
            Ok(name) => Ok(name),
            Err(_) => Err(FrameFault::BadName),
        }
    }

    #[tactic(auto, unfolding(frames::specs::Reading::origin))]
    pub(crate) fn origin(&mut self) -> Result<Origin, FrameFault>
        ensures reads { Reads result read.origin self.old self.new }
        ensures text { IfOk result (λ origin. self.old ≡ origin_octets origin ++ self.new) }
    {
        let name = self.name()?;
        let incarnation = Incarnation(self.number()?);
        Ok(Origin { name, incarnation })
    }

    pub(crate) fn id(&mut self) -> Result<MsgId, FrameFault>
        ensures { IfOk result (λ id. self.old ≡ id_text id ++ self.new) }
    {
        let origin = self.origin()?;
        let seq = self.number()?;
        Ok(MsgId { origin, seq })
    }

    /// Reads sixteen words.
    pub(crate) fn dice(&mut self) -> Result<Dice, FrameFault>
        ensures { IfOk result (λ dice. self.old ≡ dice_text dice ++ self.new) }
    {
        let mut dice = Dice::ZEROS;
        for i in 0..16 {
            dice.0[i] = self.number()?;
        }
        Ok(dice)
    }

    /// Rejects trailing bytes.
    #[tactic(auto, unfolding(frames::specs::Reading::end))]
    pub(crate) fn end(&mut self) -> Result<(), FrameFault>
        ensures reads { Reads result read.end self.old self.new }
        ensures text { OnOk result (self.old ≡ []) }
    {
        if !self.rest.is_empty() {
            return Err(FrameFault::Trailing);
        }
        Ok(())
    }
}
