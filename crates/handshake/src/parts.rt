//! Reading the parts of a `Hello`.
ghost use Rattle.std.specs.Prelude.{◌≡◌, length, MatchResult, Ok, Err};
ghost use Rattle.handshake.specs.Answer.{Reads};
ghost use Rattle.handshake.specs.Reading as read;

use crate::VERSION;
use crate::address::Address;
use crate::error::HelloError;
use node_names::NodeName;
use std::marker::Model;

/// The bytes that are still to be read. Each method reads one part from the front, and returns `Short` if the bytes end
/// within it. After an error, nothing more may be read.
#[derive(Drop)]
pub(crate) struct Parts<'a> {
    rest: &'a [u8],
}

impl<'a> Model for Parts<'a> {
    ghost use Rattle.std.specs.Prelude.{ℕ, List};

    ghost Value = { List ℕ };

    ghost view = { λ p. p.rest.now };
}

impl<'a> Parts<'a> {
    /// Starts reading at the front of `rest`.
    pub(crate) fn new(rest: &'a [u8]) -> Parts<'a>
        ensures { result ≡ rest.now }
    {
        Parts { rest }
    }

    /// Returns the number of bytes that are still to be read.
    pub(crate) fn left(&self) -> usize
        ensures { result ≡ length self.now }
    {
        self.rest.len()
    }

    /// Reads `count` bytes.
    pub(crate) fn octets(&mut self, count: usize) -> Result<&'a [u8], HelloError>
        ensures { MatchResult result
            (λ front. read.octets count self.old ≡ Ok (front.now, self.new))
            (λ error. read.octets count self.old ≡ Err error) }
    {
        if self.rest.len() < count {
            return Err(HelloError::Short);
        }
        let (front, rest) = self.rest.split_at(count);
        self.rest = rest;
        Ok(front)
    }

    #[tactic(auto, unfolding(crate::specs::Reading::byte))]
    pub(crate) fn byte(&mut self) -> Result<u8, HelloError>
        ensures { Reads result read.byte self.old self.new }
    {
        match self.rest {
            [] => Err(HelloError::Short),
            [first, rest @ ..] => {
                self.rest = rest;
                Ok(*first)
            }
        }
    }

    /// Reads `PLUM`, or returns `NotPlumtree` if other bytes stand there.
    #[tactic(auto, unfolding(crate::specs::Reading::start))]
    pub(crate) fn start(&mut self) -> Result<(), HelloError>
        ensures { Reads result read.start self.old self.new }
    {
        let front = self.octets(4)?;
        if front[0] != b'P' || front[1] != b'L' || front[2] != b'U' || front[3] != b'M' {
            return Err(HelloError::NotPlumtree);
        }
        Ok(())
    }

    /// Reads the version, or returns `OtherVersion` if it is not 2.
    #[tactic(auto, unfolding(crate::specs::Reading::version))]
    pub(crate) fn version(&mut self) -> Result<(), HelloError>
        ensures { Reads result read.version self.old self.new }
    {
        let version = self.byte()?;
        if version != VERSION {
            return Err(HelloError::OtherVersion(version));
        }
        Ok(())
    }

    /// Reads a name, or returns `bad` if it is malformed. Checks the length before reading the name's bytes, and their
    /// alphabet afterwards.
    #[tactic(auto, unfolding(crate::specs::Reading::name))]
    pub(crate) fn name(&mut self, bad: HelloError) -> Result<NodeName, HelloError>
        ensures { Reads result (read.name bad) self.old self.new }
    {
        let len = usize::from(self.byte()?);
        if len == 0 || len > NodeName::MAX_LEN {
            return Err(bad);
        }
        let letters = self.octets(len)?;
        match NodeName::parse(letters) {
            Ok(name) => Ok(name),
            Err(_) => Err(bad),
        }
    }

    #[tactic(auto, unfolding(crate::specs::Reading::port))]
    pub(crate) fn port(&mut self) -> Result<u16, HelloError>
        ensures { Reads result read.port self.old self.new }
    {
        let bytes = self.octets(2)?;
        Ok(u16::from_be_bytes([bytes[0], bytes[1]]))
    }

    #[tactic(auto, unfolding(crate::specs::Reading::v4))]
    fn v4(&mut self) -> Result<Address, HelloError>
        ensures { Reads result read.v4 self.old self.new }
    {
        let mut octets = [0; 4];
        octets.copy_from_slice(self.octets(4)?);
        let port = self.port()?;
        Ok(Address::V4 { octets, port })
    }

    #[tactic(auto, unfolding(crate::specs::Reading::v6))]
    fn v6(&mut self) -> Result<Address, HelloError>
        ensures { Reads result read.v6 self.old self.new }
    {
        let mut octets = [0; 16];
        octets.copy_from_slice(self.octets(16)?);
        let port = self.port()?;
        Ok(Address::V6 { octets, port })
    }

    /// Reads an address, or returns `BadAddress` if its first byte is neither 4 nor 6.
    #[tactic(auto, unfolding(crate::specs::Reading::address))]
    pub(crate) fn address(&mut self) -> Result<Address, HelloError>
        ensures { Reads result read.address self.old self.new }
    {
        match self.byte()? {
            4 => self.v4(),
            6 => self.v6(),
            other => Err(HelloError::BadAddress(other)),
        }
    }
}
