//! Traces of the nodes of a group, which are read off the group, altered, and merged into one run.
//!
//! The events of the group are commands, and so are the changes of the traces. What a block leaves is not shown:
//! `trace` tells of it.
use crate::changes::{alter_step, cut, divide, restart, select};
use crate::texts::{Group, PlumTrace, push_trace, say_merged};
use node_names::{Limits, Origin};
use play_groups::events::event_of;
use play_groups::texts::{push_deliveries, push_packets};
use play_script::layer::{Layer, Outcome, Turn};
use play_script::limits::limits_of;
use play_script::words::origin;
use std::alloc::{AllocError, Allocator, Global};
use std::fmt::Write;
use trace_merge::{ProjectFault, merge, project};
use world::{World, WorldError};

/// A group, the traces that were read off it, and the run into which traces were merged last.
#[derive(Drop)]
pub struct MergeLayer<A: Allocator + Copy> {
    alloc: A,
    own: Global,
    group: Group<A>,
    traces: Vec<PlumTrace<A>, A>,
    merged: Group<A>,
}

/// Puts what was made behind the others, or returns why it was not made.
pub(crate) fn keep<T: Drop, E: Drop, A: Allocator>(
    list: &mut Vec<T, A>,
    made: Result<T, E>,
) -> Result<Option<E>, AllocError> {
    match made {
        Ok(made) => {
            list.push(made)?;
            Ok(None)
        }
        Err(fault) => Ok(Some(fault)),
    }
}

/// Plays an event in a group, and says what it delivered and sent.
fn apply<A: Allocator + Copy>(
    alloc: A,
    group: &mut Group<A>,
    words: &[&str],
    turn: &mut Turn<'_>,
    said: &mut String,
) -> Result<Outcome, AllocError> {
    let Some(event) = event_of(alloc, words)? else {
        return Ok(Outcome::Unknown);
    };
    let first = group.sent().len();
    turn.begin();
    let answer = group.apply(event);
    turn.end();
    match answer {
        Ok(given) => push_deliveries(said, given.as_slice())?,
        Err(WorldError::OutOfMemory) => return Ok(Outcome::NoMemory),
        Err(why) => writeln!(said, "{why}")?,
    }
    push_packets(said, group, first)?;
    Ok(Outcome::Done)
}

/// Returns the trace of a run, if it was read.
fn trace_of<'a, A: Allocator>(
    traces: &'a mut [PlumTrace<A>],
    run: &Origin,
) -> Option<&'a mut PlumTrace<A>> {
    traces.iter_mut().find(|trace| trace.origin() == *run)
}

/// Alters a trace, or says it if there are no words.
fn change<A: Allocator + Copy>(
    alloc: A,
    trace: &mut PlumTrace<A>,
    words: &[&str],
    said: &mut String,
) -> Result<Outcome, AllocError> {
    match words {
        [] => {
            push_trace(said, trace)?;
            Ok(Outcome::Done)
        }
        ["cut", count] => Ok(cut(trace, count)),
        ["steps", places @ ..] => select(alloc, trace, places),
        ["divide", places @ ..] => divide(alloc, trace, places),
        ["peers" | "contact", ..] => restart(alloc, trace, words),
        [at, words @ ..] => alter_step(alloc, trace, at, words),
    }
}

impl<A: Allocator + Copy> MergeLayer<A> {
    pub fn new(alloc: A, own: Global) -> MergeLayer<A> {
        MergeLayer {
            alloc,
            own,
            group: World::new(alloc, Limits::STANDARD),
            traces: Vec::new(alloc),
            merged: World::new(alloc, Limits::STANDARD),
        }
    }

    /// Reads the trace of a run off the group, and puts it behind those that were read before: `project c/1`.
    fn project(
        &mut self,
        run: &str,
        turn: &mut Turn<'_>,
        said: &mut String,
    ) -> Result<Outcome, AllocError> {
        let Some(run) = origin(run) else {
            return Ok(Outcome::Unknown);
        };
        turn.begin();
        let made = project(self.alloc, &self.group, run);
        turn.end();
        match keep(&mut self.traces, made)? {
            Some(ProjectFault::OutOfMemory) => return Ok(Outcome::NoMemory),
            Some(fault) => writeln!(said, "{fault}")?,
            None => {}
        }
        Ok(Outcome::Done)
    }

    /// Reads the traces of runs off the group, in place of those that were read before: `traces a/1 b/1`.
    fn project_all(
        &mut self,
        runs: &[&str],
        turn: &mut Turn<'_>,
        said: &mut String,
    ) -> Result<Outcome, AllocError> {
        self.traces.clear();
        for run in runs {
            let outcome = self.project(run, turn, said)?;
            if outcome != Outcome::Done {
                return Ok(outcome);
            }
        }
        Ok(Outcome::Done)
    }

    /// Merges the traces, and says the events of the run, or why there is none. Limits that are not the group's are
    /// given:
    /// `merge active 1`.
    fn merge(
        &mut self,
        words: &[&str],
        turn: &mut Turn<'_>,
        said: &mut String,
    ) -> Result<Outcome, AllocError> {
        let limits = match words {
            [] => self.group.limits(),
            words => match limits_of(words) {
                Some(limits) => limits,
                None => return Ok(Outcome::Unknown),
            },
        };
        turn.begin();
        let answer = merge(self.alloc, limits, self.traces.as_slice());
        turn.end();
        self.merged = World::new(self.alloc, limits);
        let traces = self.traces.as_slice();
        say_merged(self.alloc, self.own, &mut self.merged, traces, answer, said)
    }

    /// Alters the trace of a run, or says it.
    fn change(
        &mut self,
        run: &str,
        words: &[&str],
        said: &mut String,
    ) -> Result<Outcome, AllocError> {
        let Some(run) = origin(run) else {
            return Ok(Outcome::Unknown);
        };
        match trace_of(self.traces.as_mut_slice(), &run) {
            Some(trace) => change(self.alloc, trace, words, said),
            None => Ok(Outcome::Unknown),
        }
    }
}

impl<A: Allocator + Copy> Layer for MergeLayer<A> {
    fn call(
        &mut self,
        words: &[&str],
        turn: &mut Turn<'_>,
        said: &mut String,
    ) -> Result<Outcome, AllocError> {
        match words {
            ["traces", runs @ ..] => self.project_all(runs, turn, said),
            ["project", run] => self.project(run, turn, said),
            ["trace", run] => self.change(run, &[], said),
            ["alter", run, words @ ..] => self.change(run, words, said),
            ["merge", words @ ..] => self.merge(words, turn, said),
            _ => apply(self.alloc, &mut self.group, words, turn, said),
        }
    }

    fn show(&self, _text: &mut String) -> Result<(), AllocError> {
        Ok(())
    }

    fn show_all(&self, text: &mut String) -> Result<(), AllocError> {
        for trace in &self.traces {
            push_trace(text, trace)?;
        }
        Ok(())
    }

    fn clear(&mut self) {
        self.group = World::new(self.alloc, Limits::STANDARD);
        self.traces.clear();
    }
}
