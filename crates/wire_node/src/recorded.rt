//! The steps of a node, kept until they are handed out.
ghost use Rattle.std.specs.Prelude.{◌≡◌, ◌+◌, [], length};
ghost use Rattle.wire_node.specs.Recording.{Noted};

use crate::copying::{copy_out, copy_stimulus};
use crate::step::Record;
use frames::Frame;
use node_names::Listed;
use protocol::{Out, Segment, Step, Stimulus};
use std::alloc::{AllocError, Allocator, Global};
use std::marker::Model;
use std::mem;

/// Keeps what the start of a node sends, and its steps, until they are taken: together they are the node's trace, as
/// `protocol::Trace` keeps it. The payloads of what it keeps are shared with the node.
#[derive(Drop)]
pub struct Recorded<A: Allocator = Global> {
    opening: Out<Frame<A>, A>,
    /// How many steps were taken.
    first: usize,
    steps: Listed<Step<Frame<A>, A>, A>,
}

impl<A: Allocator> Model for Recorded<A> {
    ghost use Rattle.std.specs.Prelude.{◌+◌, ◌<◌, ◌^◌, length};
    ghost use Rattle.wire_node.specs.Recording.{Noted};

    ghost Value = { Noted };

    ghost view = { λ r. record { opening = r.opening; first = r.first; steps = r.steps } };

    ghost invariant = { λ r. r.first + length r.steps < 2 ^ 64 };
}

impl<A: Allocator + Copy> Recorded<A> {
    /// Keeps nothing yet.
    pub fn new(alloc: A) -> Recorded<A>
        ensures { result ≡ record { opening = record { sends = []; deliveries = [] }; first = 0; steps = [] } }
    {
        Recorded {
            opening: Out::new(alloc),
            first: 0,
            steps: Listed::new(alloc),
        }
    }

    /// Takes the steps that are kept. The segment says how many were taken before.
    pub fn take_steps(&mut self) -> Segment<Frame<A>, A>
        ensures taken { result ≡ record { first = self.old.first; steps = self.old.steps } }
        ensures rest { self.new
            ≡ record { opening = self.old.opening; first = self.old.first + length self.old.steps; steps = [] } }
    {
        let alloc = *self.steps.allocator();
        let first = self.first;
        self.first += self.steps.len();
        let steps = mem::replace(&mut self.steps, Listed::new(alloc));
        Segment { first, steps }
    }

    /// Takes what the start sent.
    pub fn take_opening(&mut self) -> Out<Frame<A>, A>
        ensures taken { result ≡ self.old.opening }
        ensures rest { self.new ≡ record {
          opening = record { sends = []; deliveries = [] };
          first = self.old.first;
          steps = self.old.steps;
        } }
    {
        let alloc = *self.steps.allocator();
        mem::replace(&mut self.opening, Out::new(alloc))
    }
}

impl<A: Allocator + Copy> Record<A> for Recorded<A> {
    ghost use Rattle.std.specs.Prelude.{Some};

    ghost noted = { λ r. Some r };

    fn open(&mut self, opening: &Out<Frame<A>, A>) -> Result<(), AllocError> {
        let alloc = *self.steps.allocator();
        let copy = copy_out(alloc, opening)?;
        self.opening = copy;
        Ok(())
    }

    fn note(
        &mut self,
        stimulus: &Stimulus<Frame<A>, A>,
        out: &Out<Frame<A>, A>,
    ) -> Result<(), AllocError> {
        if self.first + self.steps.len() == usize::MAX {
            return Err(AllocError);
        }
        let alloc = *self.steps.allocator();
        let stimulus = copy_stimulus(stimulus)?;
        let out = copy_out(alloc, out)?;
        self.steps.push(Step { stimulus, out })
    }

    fn take_back(&mut self) {
        let last = self.steps.len().saturating_sub(1);
        self.steps.truncate(last);
    }
}
