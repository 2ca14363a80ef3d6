//! What the player of cases does with the text of a case: its blocks, its words, and what several layers print.
#![tactic(auto)]

pub mod bodies;
pub mod frame_words;
pub mod hexes;
pub mod layer;
pub mod limits;
pub mod lists;
pub mod runs;
pub mod script;
pub mod words;
