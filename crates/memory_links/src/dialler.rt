//! A connection that can be made once.
use crate::writer::PipeWriter;
use links::LinkEnd;
use node_threads::Dialler;
use std::alloc::{Allocator, Global};
use std::sync::Wait;

/// Makes the connection of a pipe the first time, and fails after that.
#[derive(Drop)]
pub struct PipeDialler<R: Wait + Drop, A: Allocator + Copy = Global> {
    writer: Option<PipeWriter<R, A>>,
}

impl<R: Wait + Drop, A: Allocator + Copy> PipeDialler<R, A> {
    /// Makes a dialler for a connection to the reader of this pipe.
    pub fn new(writer: PipeWriter<R, A>) -> PipeDialler<R, A> {
        PipeDialler {
            writer: Some(writer),
        }
    }
}

impl<R: Wait + Drop + Send, A: Allocator + Copy + Send + Sync> Dialler for PipeDialler<R, A> {
    type Writer = PipeWriter<R, A>;

    fn dial(&mut self) -> Result<PipeWriter<R, A>, LinkEnd> {
        self.writer.take().ok_or(LinkEnd::WriteFault { bytes: 0 })
    }
}
