//! Running nodes.
use crate::error::LoopError;
use crate::event_loop::EventLoop;
use crate::loop_node::LoopNode;
use crate::pace::Pace;
use crate::program::Program;
use crate::resolve::Resolve;
use std::alloc::Allocator;
use std::net::Net;
use std::sync::Wait;
use std::time::{Clock, Duration};

impl<N: LoopNode<A>, S: Resolve + Drop, A: Allocator + Copy> EventLoop<N, S, A> {
    /// Runs the nodes until the program ends it. A tick takes this time. If a call is refused, the loop is as that call
    /// left it, and may be run on.
    pub fn run<R, P>(&mut self, rt: &R, tick: Duration, program: &mut P) -> Result<(), LoopError>
    where
        R: Wait + Clock + Net,
        P: Program<N>,
    {
        if tick.is_zero() {
            return Err(LoopError::ZeroTick);
        }
        let mut pace = Pace::new(rt, tick)?;
        for _ in rt.forever() {
            if !self.turn(rt, &mut pace, program)? {
                return Ok(());
            }
        }
        unreachable!()
    }

    /// Makes a turn. Returns whether the program goes on.
    fn turn<R, P>(&mut self, rt: &R, pace: &mut Pace, program: &mut P) -> Result<bool, LoopError>
    where
        R: Clock + Net,
        P: Program<N>,
    {
        if !self.serve(rt, program)? {
            return Ok(false);
        }
        self.take(pace.left(rt)?)?;
        if pace.left(rt)?.is_zero() {
            self.tick()?;
            pace.begin_next(rt)?;
        }
        Ok(true)
    }

    /// Sends what waits, as long as that takes, but no longer than `grace`. Returns whether all went out. Nothing is
    /// read meanwhile.
    pub fn finish<R: Wait + Clock + Net>(
        &mut self,
        rt: &R,
        grace: Duration,
    ) -> Result<bool, LoopError> {
        let end = Pace::new(rt, grace)?;
        for _ in rt.forever() {
            self.send(rt)?;
            if !self.has_mail()? {
                return Ok(true);
            }
            let left = end.left(rt)?;
            if left.is_zero() {
                return Ok(false);
            }
            let is_behind = self.nodes.queued() > 0;
            self.wait(if is_behind { Duration::ZERO } else { left })?;
        }
        unreachable!()
    }

    /// Whether bytes wait in a node.
    fn has_mail(&self) -> Result<bool, LoopError> {
        for place in 0..self.nodes.places() {
            if let Some(hosted) = self.nodes.get(place) {
                if !hosted.node.receivers()?.is_empty() {
                    return Ok(true);
                }
            }
        }
        Ok(false)
    }
}
