//! The records of a connection that are no frames, and reading one whose bytes are all there.
ghost use Rattle.std.specs.Prelude.{◌≡◌, ◌<◌, length};
ghost use Rattle.handshake.specs.Answer.{Reads};
ghost use Rattle.handshake.specs.Reading as read;
ghost use Rattle.handshake.specs.Judging.{read_hello, read_introduction, read_record};

use crate::decoding::first;
use crate::error::{HandshakeError, HelloError};
use crate::hello::Hello;
use crate::introduction::Introduction;
use crate::parts::Parts;

/// The first byte of the record of a `Hello`.
pub(crate) const HELLO: u8 = 1;

/// The first byte of the record of an `Introduction`.
pub(crate) const INTRODUCTION: u8 = 2;

/// What a record that is no frame says.
#[derive(Clone, Copy, Debug, PartialEq, Eq)]
pub enum Record {
    /// What the node that dialled says first.
    Hello(Hello),
    /// A node that the node that dialled names.
    Introduction(Introduction),
}

/// Reads the text of a `Hello`, which has to end with it.
pub(crate) fn read_hello(text: &[u8]) -> Result<Hello, HandshakeError>
    requires { length text.now < 256 }
    ensures { result ≡ read_hello text.now }
{
    match first(text) {
        Ok((hello, count)) if count == text.len() => Ok(hello),
        Ok(_) => Err(HandshakeError::BadLength(text.len() as u8)),
        Err(error) => Err(HandshakeError::Hello(error)),
    }
}

#[tactic(auto, unfolding(crate::specs::Reading::introduction))]
fn introduction(parts: &mut Parts<'_>) -> Result<Introduction, HelloError>
    ensures { Reads result read.introduction parts.old parts.new }
{
    let name = parts.name(HelloError::BadName)?;
    let at = parts.address()?;
    Ok(Introduction { name, at })
}

/// Reads the text of an `Introduction`, which has to end with it.
pub(crate) fn read_introduction(text: &[u8]) -> Result<Introduction, HandshakeError>
    ensures { result ≡ read_introduction text.now }
{
    let mut parts = Parts::new(text);
    match introduction(&mut parts) {
        Ok(introduction) if parts.left() == 0 => Ok(introduction),
        _ => Err(HandshakeError::BadIntroduction),
    }
}

/// Reads the text of a record: of a `Hello` before that came, and of an `Introduction` afterwards.
pub(crate) fn read_record(is_open: bool, text: &[u8]) -> Result<Record, HandshakeError>
    requires { length text.now < 256 }
    ensures { result ≡ read_record is_open text.now }
{
    if is_open {
        Ok(Record::Introduction(read_introduction(text)?))
    } else {
        Ok(Record::Hello(read_hello(text)?))
    }
}
