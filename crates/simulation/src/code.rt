//! The codes that are printed for refusals.
ghost use Rattle.std.specs.Prelude.{Some};
ghost use Rattle.simulation.specs.Code.{code_of, settle_code_of};

use at_rest::SettleError;
use std::fmt;
use world::WorldError;

/// A refused event, which prints as the refusal's code.
#[derive(Clone, Copy, Debug, PartialEq, Eq)]
pub struct Code(pub WorldError);

impl fmt::Display for Code {
    ghost output = { λ code. Some (code_of code.0) };

    fn fmt<W: fmt::Write>(&self, f: &mut fmt::Formatter<W>) -> fmt::Result {
        match self.0 {
            WorldError::UnknownNode => f.write_str("W1"),
            WorldError::NotRunning => f.write_str("W2"),
            WorldError::StaleIncarnation { highest } => {
                let number = highest.0;
                write!(f, "W3 highest {number}")
            }
            WorldError::BadPeers => f.write_str("W4"),
            WorldError::NoPacket => f.write_str("W5"),
            WorldError::PayloadTooLong => f.write_str("W6"),
            WorldError::SeqSpent => f.write_str("W7"),
            WorldError::OutOfMemory => f.write_str("W8"),
        }
    }
}

/// Why a group was not brought to rest, which prints as the refusal's code.
#[derive(Clone, Copy, Debug, PartialEq, Eq)]
pub struct SettleCode(pub SettleError);

impl fmt::Display for SettleCode {
    ghost output = { λ code. Some (settle_code_of code.0) };

    fn fmt<W: fmt::Write>(&self, f: &mut fmt::Formatter<W>) -> fmt::Result {
        match self.0 {
            SettleError::NotCalm => f.write_str("S1"),
            SettleError::SeqSpent => f.write_str("S2"),
            SettleError::OutOfMemory => f.write_str("S3"),
        }
    }
}
