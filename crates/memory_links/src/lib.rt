//! Links between nodes of one process: pipes of bytes in memory.
#![tactic(auto)]

mod dialler;
mod pipe;
mod reader;
mod writer;

pub use dialler::PipeDialler;
pub use pipe::new_pipe;
pub use reader::PipeReader;
pub use writer::PipeWriter;
