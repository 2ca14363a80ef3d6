//! Reading the fields of a frame.
ghost use Rattle.std.specs.Prelude.{◌≡◌, MatchResult, Ok, Err};
ghost use Rattle.std.specs.Int.{w16, w32, w64};
ghost use Rattle.frames.specs.Answer.{Reads};
ghost use Rattle.frames.specs.Reading as read;

use crate::body::Kind;
use crate::fault::FrameFault;
use node_names::{Incarnation, MsgId, NodeName, Origin};
use std::marker::Model;

/// The bytes of a frame that are still to be read. Each method reads one field from the front and returns
/// `BadField` if the bytes end within it. After a fault, nothing more may be read.
#[derive(Drop)]
pub(crate) struct Fields<'a> {
    rest: &'a [u8],
}

impl<'a> Model for Fields<'a> {
    ghost use Rattle.std.specs.Prelude.{ℕ, List};

    ghost Value = { List ℕ };

    ghost view = { λ f. f.rest.now };
}

impl<'a> Fields<'a> {
    /// Starts reading at the front of `rest`.
    pub(crate) fn new(rest: &'a [u8]) -> Fields<'a>
        ensures { result ≡ rest.now }
    {
        Fields { rest }
    }

    /// Reads `count` bytes.
    pub(crate) fn octets(&mut self, count: usize) -> Result<&'a [u8], FrameFault>
        ensures { MatchResult result
            (λ front. read.octets count self.old ≡ Ok (front.now, self.new))
            (λ fault. read.octets count self.old ≡ Err fault) }
    {
        if self.rest.len() < count {
            return Err(FrameFault::BadField);
        }
        let (front, rest) = self.rest.split_at(count);
        self.rest = rest;
        Ok(front)
    }

    #[tactic(auto, unfolding(crate::specs::Reading::byte))]
    pub(crate) fn byte(&mut self) -> Result<u8, FrameFault>
        ensures { Reads result read.byte self.old self.new }
    {
        match self.rest {
            [] => Err(FrameFault::BadField),
            [first, rest @ ..] => {
                self.rest = rest;
                Ok(*first)
            }
        }
    }

    #[tactic(auto, unfolding(crate::specs::Reading::word))]
    pub(crate) fn word16(&mut self) -> Result<u16, FrameFault>
        ensures { Reads result (read.word w16) self.old self.new }
    {
        let bytes = self.octets(2)?;
        Ok(u16::from_be_bytes([bytes[0], bytes[1]]))
    }

    #[tactic(auto, unfolding(crate::specs::Reading::word))]
    pub(crate) fn word32(&mut self) -> Result<u32, FrameFault>
        ensures { Reads result (read.word w32) self.old self.new }
    {
        let bytes = self.octets(4)?;
        Ok(u32::from_be_bytes([bytes[0], bytes[1], bytes[2], bytes[3]]))
    }

    #[tactic(auto, unfolding(crate::specs::Reading::word))]
    pub(crate) fn word64(&mut self) -> Result<u64, FrameFault>
        ensures { Reads result (read.word w64) self.old self.new }
    {
        let bytes = self.octets(8)?;
        Ok(u64::from_be_bytes([
            bytes[0], bytes[1], bytes[2], bytes[3], bytes[4], bytes[5], bytes[6], bytes[7],
        ]))
    }

    #[tactic(auto, unfolding(crate::specs::Reading::flag))]
    pub(crate) fn flag(&mut self) -> Result<bool, FrameFault>
        ensures { Reads result read.flag self.old self.new }
    {
        let value = self.byte()?;
        if value > 1 {
            return Err(FrameFault::BadField);
        }
        Ok(value == 1)
    }

    /// Reads a name. Checks the length before reading the name's bytes, and their alphabet afterwards.
    #[tactic(auto, unfolding(crate::specs::Reading::name))]
    pub(crate) fn name(&mut self) -> Result<NodeName, FrameFault>
        ensures { Reads result read.name self.old self.new }
    {
        let len = usize::from(self.byte()?);
        if len == 0 || len > NodeName::MAX_LEN {
            return Err(FrameFault::BadName);
        }
        let letters = self.octets(len)?;
        match NodeName::parse(letters) {
            Ok(name) => Ok(name),
            Err(_) => Err(FrameFault::BadName),
        }
    }

    #[tactic(auto, unfolding(crate::specs::Reading::number))]
    pub(crate) fn number(&mut self) -> Result<u64, FrameFault>
        ensures { Reads result read.number self.old self.new }
    {
        let number = self.word64()?;
        if number == 0 {
            return Err(FrameFault::BadField);
        }
        Ok(number)
    }

    #[tactic(auto, unfolding(crate::specs::Reading::origin))]
    pub(crate) fn origin(&mut self) -> Result<Origin, FrameFault>
        ensures { Reads result read.origin self.old self.new }
    {
        let name = self.name()?;
        let incarnation = Incarnation(self.word64()?);
        Ok(Origin { name, incarnation })
    }

    #[tactic(auto, unfolding(crate::specs::Reading::id))]
    pub(crate) fn id(&mut self) -> Result<MsgId, FrameFault>
        ensures { Reads result read.id self.old self.new }
    {
        let origin = self.origin()?;
        let seq = self.number()?;
        Ok(MsgId { origin, seq })
    }

    #[tactic(auto, unfolding(crate::specs::Reading::announcement))]
    pub(crate) fn announcement(&mut self) -> Result<(MsgId, u32), FrameFault>
        ensures { Reads result read.announcement self.old self.new }
    {
        let id = self.id()?;
        let round = self.word32()?;
        Ok((id, round))
    }

    #[tactic(auto, unfolding(crate::specs::Reading::version))]
    pub(crate) fn version(&mut self) -> Result<u8, FrameFault>
        ensures { Reads result read.version self.old self.new }
    {
        let version = self.byte()?;
        if version != 1 && version != 2 {
            return Err(FrameFault::BadVersion);
        }
        Ok(version)
    }

    #[tactic(auto, unfolding(crate::specs::Reading::kind))]
    pub(crate) fn kind(&mut self, version: u8) -> Result<Kind, FrameFault>
        ensures { Reads result (read.kind version) self.old self.new }
    {
        let number = self.byte()?;
        match Kind::of_version(version, number) {
            Some(kind) => Ok(kind),
            None => Err(FrameFault::BadKind),
        }
    }

    /// Rejects trailing bytes.
    #[tactic(auto, unfolding(crate::specs::Reading::end))]
    pub(crate) fn end(&mut self) -> Result<(), FrameFault>
        ensures { Reads result read.end self.old self.new }
    {
        if !self.rest.is_empty() {
            return Err(FrameFault::Trailing);
        }
        Ok(())
    }
}
