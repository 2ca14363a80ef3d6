//! What a connection between two nodes carries beside its frames: a `Hello`, with which it begins, and introductions.
//!
//! The node that dialled writes, and the other reads:
//!
//! ```text
//! connection   = hello (introduction | frame)*
//! hello        = 1 length text
//! introduction = 2 length name address
//! frame        = 0 ..
//! ```
//!
//! A length is one byte: how many bytes follow it. The text of a hello is what `encode` makes. A frame begins with a
//! number of four bytes, most significant first, which is below 2^24, and as many bytes follow it.
#![tactic(auto)]

mod address;
mod arrival;
mod decoding;
mod encoding;
mod error;
mod hello;
mod inbound;
mod introduction;
mod kept;
mod laws;
mod outbound;
mod parts;
mod place;
mod record;
mod writing;

pub use address::Address;
pub use arrival::{Addressee, Arrival, Front, Refusal};
pub use decoding::decode;
pub use encoding::encode;
pub use error::{HandshakeError, HelloError};
pub use hello::Hello;
pub use inbound::Inbound;
pub use introduction::Introduction;
pub use laws::{connections_are_read, records_stand_between_frames, strangers_are_refused};
pub use outbound::Outbound;
pub use place::RecordPlace;
pub use record::Record;
pub use writing::{push_hello, push_introduction};

/// The version of the text of a `Hello`.
pub const VERSION: u8 = 2;

/// The maximum number of bytes of a `Hello`: three names of 32 bytes, and an IPv6 address.
pub const MAX_HELLO: usize = 123;

/// The maximum number of bytes of an `Introduction`: a name of 32 bytes, and an IPv6 address.
pub const MAX_INTRODUCTION: usize = 52;

/// The maximum number of bytes of a record that is no frame.
pub const MAX_RECORD: usize = 125;
