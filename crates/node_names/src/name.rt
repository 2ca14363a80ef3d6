//! The name of a node.
ghost use Rattle.std.specs.Prelude.{◌≡◌, ℕ, ◌<◌, ◌≤◌, ◌↔◌, [], length, IsTrue, IsOk};
ghost use Rattle.std.specs.Prelude.{IfOk, IsErrOf, IsNone, Some, All, nat_eq, refl};
ghost use Rattle.std.specs.Ordering.{nat_cmp};
ghost use Rattle.std.specs.Cmp.{partial_equiv_from_equiv};
ghost use Rattle.std.specs.Cmp.Lexicographic.{pointwise, slice_cmp, nat_list_eq_equiv};
ghost use Rattle.std.specs.Cmp.Lexicographic.{nat_list_cmp_total, texts_po, texts_ties};
ghost use Rattle.std.specs.Cmp.Rules.{hashing};
ghost use Rattle.std.specs.Hash as fed;
ghost use Rattle.std.proofs.Common.{rules};
ghost use Rattle.node_names.specs.NodeName.{IsNodeName, is_name_byte, first_bad_byte};

use std::cmp::Ordering;
use std::convert::AsStr;
use std::error::Error;
use std::hash::{Hash, Hasher};
use std::marker::Model;
use std::{fmt, str};

/// The name of a node: 1 to 32 bytes, each a lowercase ASCII letter, an ASCII digit or `-`.
///
/// Names are ordered by their bytes, a proper prefix first. Contracts see a name as its bytes.
///
/// A name takes 32 bytes: its own, then zeros, and the last is its length. A name of 32 bytes has its own last byte
/// there, which is greater than any length.
#[derive(Clone, Copy)]
pub struct NodeName {
    bytes: [u8; NodeName::MAX_LEN],
}

impl Model for NodeName {
    ghost use Rattle.std.specs.Prelude.{List, ℕ};
    ghost use Rattle.node_names.specs.NodeName.{HoldsName, held_name, packed};

    ghost Value = { List ℕ };

    ghost view = { λ n. held_name n.bytes };

    ghost invariant = { λ n. HoldsName n.bytes };

    ghost inverse = { λ name. record { bytes = packed name } };

    ghost inverse_ok = { λ n h i. record { bytes = h.whole i } };
}

/// The reason why bytes are not a name.
#[derive(Clone, Copy, Debug, PartialEq, Eq)]
pub enum NameFault {
    /// There are no bytes.
    Empty,
    /// There are more than 32 bytes.
    TooLong,
    /// The byte at index `at` is not a lowercase ASCII letter, a digit or `-`. It is the first such byte.
    BadByte { at: usize },
}

fn is_name_byte(byte: u8) -> bool
    ensures { result ≡ is_name_byte byte }
{
    matches!(byte, b'a'..=b'z' | b'0'..=b'9' | b'-')
}

fn first_bad_byte(bytes: &[u8]) -> Option<usize>
    ensures value { result ≡ first_bad_byte bytes.now }
    ensures none { IsNone result ↔ All (λ b. IsTrue (is_name_byte b)) bytes.now }
{
    bytes.iter().position(|byte| !is_name_byte(*byte))
}

impl NodeName {
    /// The maximum length of a name, in bytes.
    pub const MAX_LEN: usize = 32;

    /// Parses a name. Checks for empty input first, then for too many bytes, then for the first bad byte.
    pub fn parse(bytes: &[u8]) -> Result<NodeName, NameFault>
        ensures ok { IfOk result (λ name. name ≡ bytes.now) }
        ensures accepted { IsOk result ↔ IsNodeName bytes.now }
        ensures empty { IsErrOf result NameFault.Empty ↔ (bytes.now ≡ []) }
        ensures too_long { IsErrOf result NameFault.TooLong ↔ (32 < length bytes.now) }
        ensures bad_byte { (at : ℕ) → IsErrOf result (NameFault.BadByte at)
            ↔ ((length bytes.now ≤ 32) × (first_bad_byte bytes.now ≡ Some at)) }
    {
        if bytes.is_empty() {
            return Err(NameFault::Empty);
        }
        if bytes.len() > NodeName::MAX_LEN {
            return Err(NameFault::TooLong);
        }
        match first_bad_byte(bytes) {
            Some(at) => Err(NameFault::BadByte { at }),
            None => Ok(NodeName::from_well_formed(bytes)),
        }
    }

    fn from_well_formed(name: &[u8]) -> NodeName
        requires { IsNodeName name.now }
        ensures { result ≡ name.now }
    {
        let mut bytes = [0; NodeName::MAX_LEN];
        bytes[NodeName::MAX_LEN - 1] = name.len() as u8;
        bytes[..name.len()].copy_from_slice(name);
        NodeName { bytes }
    }

    /// Returns how many bytes the name has.
    #[tactic(auto, unfolding(crate::specs::NodeName::held_name, crate::specs::NodeName::held_length))]
    fn len(&self) -> usize
        ensures { result ≡ length self.now }
    {
        let last = usize::from(self.bytes[NodeName::MAX_LEN - 1]);
        if last < NodeName::MAX_LEN {
            last
        } else {
            NodeName::MAX_LEN
        }
    }

    /// Returns the name as bytes.
    #[tactic(auto, unfolding(crate::specs::NodeName::held_name, crate::specs::NodeName::held_length))]
    pub fn as_bytes(&self) -> &[u8]
        ensures value { result.now ≡ self.now }
        ensures valid { IsNodeName self.now }
    {
        &self.bytes[..self.len()]
    }

    /// Returns the name as text.
    pub fn as_str(&self) -> &str
        ensures value { result.now ≡ self.now }
        ensures valid { IsNodeName self.now }
    {
        str::from_utf8(self.as_bytes()).unwrap()
    }
}

impl PartialEq for NodeName {
    ghost eq = { pointwise nat_eq };

    ghost laws = { partial_equiv_from_equiv nat_list_eq_equiv };

    fn eq(&self, other: &NodeName) -> bool {
        self.bytes == other.bytes
    }
}

impl Eq for NodeName {
    ghost laws = { nat_list_eq_equiv };
}

impl PartialOrd for NodeName {
    ghost partial_cmp = { λ a b. Some (slice_cmp nat_cmp a b) };

    ghost laws = { texts_po };

    fn partial_cmp(&self, other: &NodeName) -> Option<Ordering> {
        Some(self.cmp(other))
    }
}

impl Ord for NodeName {
    ghost cmp = { slice_cmp nat_cmp };

    ghost total = { nat_list_cmp_total };

    ghost matches_partial_cmp = { λ a b. refl };

    ghost matches_eq = { texts_ties };

    fn cmp(&self, other: &NodeName) -> Ordering {
        self.as_bytes().cmp(&other.as_bytes())
    }
}

impl Hash for NodeName {
    ghost hash_input = { fed.slice fed.u8 };

    ghost respects_eq = { Prim.search (hashing, rules) };

    fn hash<H: Hasher>(&self, state: &mut H) {
        self.as_bytes().hash(state);
    }
}

impl AsStr for NodeName {
    ghost text = { λ name. name };

    fn as_str(&self) -> &str {
        NodeName::as_str(self)
    }
}

impl fmt::Debug for NodeName {
    fn fmt<W: fmt::Write>(&self, f: &mut fmt::Formatter<W>) -> fmt::Result {
        fmt::Debug::fmt(&self.as_str(), f)
    }
}

impl fmt::Display for NodeName {
    ghost output = { λ name. Some name };

    fn fmt<W: fmt::Write>(&self, f: &mut fmt::Formatter<W>) -> fmt::Result {
        fmt::Display::fmt(&self.as_str(), f)
    }
}

impl fmt::Display for NameFault {
    ghost use Rattle.std.specs.Prelude.{Some};
    ghost use Rattle.node_names.specs.NameFault.{fault_text};

    ghost output = { λ fault. Some (fault_text fault) };

    fn fmt<W: fmt::Write>(&self, f: &mut fmt::Formatter<W>) -> fmt::Result {
        match self {
            NameFault::Empty => write!(f, "the name is empty"),
            NameFault::TooLong => write!(f, "the name is longer than 32 bytes"),
            NameFault::BadByte { at } => write!(
                f,
                "byte {at} of the name is no small letter, digit or dash"
            ),
        }
    }
}

impl Error for NameFault {}
