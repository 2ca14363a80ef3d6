//! The frames that nodes exchange, and their encoding as bytes.
#![tactic(auto)]

mod body;
mod cutter;
mod decoding;
mod encoding;
mod fault;
mod fields;
mod frame;
mod laws;
mod list;
mod sameness;

pub use body::{Body, BodyOf, kind_number};
pub use cutter::Cutter;
pub use decoding::decode;
pub use encoding::encode;
pub use fault::FrameFault;
pub use frame::Frame;
pub use laws::cuttings_agree;
pub use sameness::same_frame;

/// The maximum number of names in a list of a frame.
pub const MAX_NAMES: usize = 8;

/// The maximum number of announcements in a frame.
pub const MAX_ANNOUNCEMENTS: usize = 64;

/// The maximum number of bytes of a frame after its length prefix: a GOSSIP of the longest payload, with names of 32
/// bytes.
pub const MAX_BODY: usize = 32_876;

/// The maximum number of bytes of a frame, including its length prefix of four bytes.
pub const MAX_FRAME: usize = 32_880;
