//! The nodes that answered, as a group.
use crate::answer::Answer;
use crate::drawing::Drawing;
use crate::finding::{Finding, findings};
use crate::parts::Parts;
use std::alloc::{AllocError, Global};

/// The nodes that answered, as a group. Displays a line for each of them, one for each finding, and one that says how
/// they hang together.
#[derive(Debug, Drop)]
pub struct Group {
    pub(crate) answers: Vec<Answer>,
    pub(crate) findings: Vec<Finding>,
    pub(crate) parts: Parts,
}

impl Group {
    /// The group of nodes that gave these answers.
    pub fn new(alloc: Global, answers: Vec<Answer>) -> Result<Group, AllocError> {
        let findings = findings(alloc, &answers)?;
        let parts = Parts::of(alloc, &answers)?;
        Ok(Group {
            answers,
            findings,
            parts,
        })
    }

    /// The answers.
    pub fn answers(&self) -> &[Answer] {
        self.answers.as_slice()
    }

    /// What is wrong with the group, besides that it may fall into parts.
    pub fn findings(&self) -> &[Finding] {
        self.findings.as_slice()
    }

    /// Into how many parts it falls. A link connects two nodes whichever of them sees the other.
    pub fn parts(&self) -> usize {
        self.parts.count()
    }

    /// Whether it is connected, and nothing is wrong with it.
    pub fn is_sound(&self) -> bool {
        self.findings.is_empty() && self.parts.count() <= 1
    }

    /// The drawing of the group.
    pub fn drawing(&self) -> Drawing<'_> {
        Drawing {
            answers: self.answers.as_slice(),
        }
    }
}
