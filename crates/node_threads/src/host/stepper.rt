//! A worker's access to its node's steps.
use crate::cores::NodeCore;
use crate::error::HostError;
use crate::host::gate::{Gate, passes, passes_later};
use crate::host::shared::Shared;
use frames::Frame;
use protocol::Stimulus;
use rand_pcg::Lcg128Xsl64;
use std::alloc::{AllocError, Allocator};
use std::mem;
use std::sync::{Arc, Wait};

/// Appends a frame.
fn add<A: Allocator>(frames: &mut Vec<Frame<A>, A>, frame: Frame<A>) -> Result<(), AllocError> {
    frames.push(frame)?;
    Ok(())
}

/// The node whose steps a worker makes, and the gate that the worker asks before each.
#[derive(Drop)]
pub(crate) struct Stepper<C: NodeCore<A> + Drop, A: Allocator, G: Gate + Drop> {
    pub(crate) shared: Arc<Shared<C, A>, A>,
    gate: G,
    /// The worker's number, by which the gate knows it.
    number: usize,
}

impl<C: NodeCore<A> + Drop, A: Allocator + Copy, G: Gate + Drop> Stepper<C, A, G> {
    /// The access of the worker with this number.
    pub(crate) fn new(shared: Arc<Shared<C, A>, A>, gate: G, number: usize) -> Stepper<C, A, G> {
        Stepper {
            shared,
            gate,
            number,
        }
    }

    /// Asks the gate, applies the stimulus with its Downs, whose dice are zeros, and reports the step.
    ///
    /// `GateShut`: the gate did not let the worker pass within `ASKINGS` attempts.
    pub(crate) fn apply<R: Wait>(
        &self,
        rt: &R,
        stimulus: Stimulus<Frame<A>, A>,
    ) -> Result<(), HostError> {
        self.ask()?;
        self.shared.apply(rt, stimulus)?;
        self.gate.applied(self.number);
        Ok(())
    }

    /// Like `apply`, with dice that are drawn.
    pub(crate) fn apply_drawing<R: Wait>(
        &self,
        rt: &R,
        stimulus: Stimulus<Frame<A>, A>,
        generator: &mut Lcg128Xsl64,
    ) -> Result<(), HostError> {
        self.ask()?;
        self.shared.apply_drawing(rt, stimulus, generator)?;
        self.gate.applied(self.number);
        Ok(())
    }

    /// Has the node take frames, one step each with its Downs, under one hold of the lock as long as the gate lets the
    /// worker pass at once. If it does not, the frames before are taken first.
    pub(crate) fn take_frames<R: Wait>(
        &self,
        rt: &R,
        frames: Vec<Frame<A>, A>,
        generator: &mut Lcg128Xsl64,
    ) -> Result<(), HostError> {
        let mut passed = Vec::with_capacity(self.shared.alloc, frames.len())?;
        for frame in frames {
            if !self.gate.pass(self.number) {
                let before = mem::replace(&mut passed, Vec::new(self.shared.alloc));
                self.take_passed(rt, before, generator)?;
                Self::require_pass(passes_later(&self.gate, self.number))?;
            }
            add(&mut passed, frame)?;
        }
        self.take_passed(rt, passed, generator)
    }

    /// Has the node take frames for which the gate let the worker pass, and reports the steps.
    fn take_passed<R: Wait>(
        &self,
        rt: &R,
        frames: Vec<Frame<A>, A>,
        generator: &mut Lcg128Xsl64,
    ) -> Result<(), HostError> {
        let (steps, ended) = self.shared.take_frames(rt, frames, generator);
        for _ in 0..steps {
            self.gate.applied(self.number);
        }
        ended
    }

    /// Asks the gate until it lets the worker pass, at most `ASKINGS` times.
    fn ask(&self) -> Result<(), HostError> {
        Self::require_pass(passes(&self.gate, self.number))
    }

    /// Returns `GateShut` if the gate did not let the worker pass.
    fn require_pass(is_passed: bool) -> Result<(), HostError> {
        if is_passed {
            Ok(())
        } else {
            Err(HostError::GateShut)
        }
    }
}
