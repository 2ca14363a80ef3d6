//! Why bytes do not begin with a `Hello`, and why a connection is refused.

use thiserror::Error;

/// The reason why bytes do not begin with a `Hello`.
#[derive(Clone, Copy, Debug, PartialEq, Eq, Error)]
pub enum HelloError {
    /// The bytes end before the `Hello` does. More bytes may complete it.
    #[error("the hello is not whole")]
    Short,
    /// The first four bytes are not `PLUM`.
    #[error("the bytes do not begin with PLUM")]
    NotPlumtree,
    /// The version, which is here, is not 2.
    #[error("version {0} is unknown")]
    OtherVersion(u8),
    /// The length of the label is not 1 to 32, or one of its bytes is not allowed in names.
    #[error("the label is malformed")]
    BadLabel,
    /// The length of the name of the node that is meant is not 1 to 32, or one of its bytes is not allowed in names.
    #[error("the name of the node that is meant is malformed")]
    BadAddressee,
    /// The length of the name is not 1 to 32, or one of its bytes is not allowed in names.
    #[error("the name is malformed")]
    BadName,
    /// The byte before the address, which is here, is neither 4 nor 6.
    #[error("{0} is no kind of address")]
    BadAddress(u8),
}

/// The reason why the bytes of a connection are refused.
#[derive(Clone, Copy, Debug, PartialEq, Eq, Error)]
pub enum HandshakeError {
    /// The first byte of the connection, which is here, is not that of a hello.
    #[error("the connection does not begin with a hello, but with byte {0}")]
    NoHello(u8),
    /// The first byte of a record, which is here, begins neither a frame nor an introduction.
    #[error("record of unknown kind {0}")]
    UnknownRecord(u8),
    /// The length of a record, which is here, is 0 or too large for its kind, or longer than the hello within it.
    #[error("{0} is not the length of the record")]
    BadLength(u8),
    /// The text of the hello is malformed. `Short` means that its stated length ends before the hello does.
    #[error("malformed hello: {0}")]
    Hello(HelloError),
    /// The text of an introduction is malformed, or its stated length is not that of the introduction.
    #[error("malformed introduction")]
    BadIntroduction,
}
