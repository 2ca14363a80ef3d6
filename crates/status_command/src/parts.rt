//! How the nodes of a group hang together.
use crate::answer::Answer;
use std::alloc::{AllocError, Global};

/// The parts of a group: two nodes are in one if links lead from the one to the other, whichever way each goes.
#[derive(Debug, Drop)]
pub(crate) struct Parts {
    /// For each node the index of the first one of its part.
    firsts: Vec<usize>,
}

impl Parts {
    /// The parts of the group of these nodes.
    pub(crate) fn of(alloc: Global, answers: &[Answer]) -> Result<Parts, AllocError> {
        let mut parts = Parts {
            firsts: (0..answers.len()).collect(alloc)?,
        };
        for (index, answer) in answers.iter().enumerate() {
            parts.join_neighbors(index, answer, answers);
        }
        Ok(parts)
    }

    /// Joins the part of this node with those of the nodes that it sees.
    fn join_neighbors(&mut self, index: usize, answer: &Answer, answers: &[Answer]) {
        for (other, seen) in answers.iter().enumerate() {
            if answer.sees(&seen.status.name) {
                self.join(index, other);
            }
        }
    }

    /// Joins the parts of two nodes.
    fn join(&mut self, one: usize, other: usize) {
        if let (Some(one), Some(other)) = (self.first_of(one), self.first_of(other)) {
            self.rename(one.max(other), one.min(other));
        }
    }

    /// The first node of the part of a node.
    fn first_of(&self, index: usize) -> Option<usize> {
        self.firsts.get(index).copied()
    }

    fn rename(&mut self, from: usize, to: usize) {
        for first in self.firsts.iter_mut() {
            if *first == from {
                *first = to;
            }
        }
    }

    /// For each node the index of the first one of its part.
    pub(crate) fn firsts(&self) -> &[usize] {
        self.firsts.as_slice()
    }

    /// How many parts there are.
    pub(crate) fn count(&self) -> usize {
        self.firsts
            .iter()
            .enumerate()
            .filter(|(index, first)| index == *first)
            .count()
    }
}
