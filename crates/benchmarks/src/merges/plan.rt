//! What is played before the traces are taken.
use crate::words::size;
use anyhow::Result;

/// Which packet in flight arrives next.
#[derive(Clone, Copy)]
pub(crate) enum Place {
    Oldest,
    Newest,
    Random,
}

/// A group, and what happens in it.
#[derive(Clone, Copy)]
pub(crate) struct Plan {
    /// How many nodes there are.
    pub(crate) nodes: usize,
    /// How many steps each makes, at least on average.
    pub(crate) steps: usize,
    pub(crate) place: Place,
    /// How many packets stay in flight after a broadcast.
    pub(crate) waiting: usize,
}

/// The place of this name. It is the oldest if there is no name.
fn place_of(word: Option<&String>) -> Place {
    match word {
        Some(word) if word.as_str() == "newest" => Place::Newest,
        Some(word) if word.as_str() == "random" => Place::Random,
        _ => Place::Oldest,
    }
}

impl Plan {
    /// Reads the plan from a program's arguments.
    pub(crate) fn parse(words: &[String]) -> Result<Plan> {
        Ok(Plan {
            nodes: size(words, 2, 64)?,
            steps: size(words, 3, 1_000)?,
            place: place_of(words.get(4)),
            waiting: size(words, 5, 0)?,
        })
    }
}
