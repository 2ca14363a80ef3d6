//! Following runs by their records, all side by side.
ghost use Rattle.std.specs.Prelude.{◌≡◌, All, OnOk};

use crate::cut::say_cut;
use crate::error::RecordsError;
use crate::halt::Halt;
use crate::order::put_in_order;
use crate::roster::runs_in;
use crate::run::{Run, Stage};
use crate::share::Share;
use crate::sink::DeliverySink;
use crate::source::Source;
use frames::Frame;
use node_core::PlumCore;
use protocol::Core;
use run_check::RunCheck;
use std::alloc::Global;
use std::fs::File;
use std::io::Write;
use std::rt::Files;
use trace_merge::MergeFault;

/// Whether the run at this index is over.
fn is_over(runs: &[Run], at: usize) -> bool {
    match runs.get(at) {
        Some(run) => run.stage == Stage::Over,
        None => false,
    }
}

/// Whether the run at this index may go on: all earlier ones of its name are over, and it is not.
fn may_go_on(runs: &[Run], at: usize) -> bool {
    let Some(run) = runs.get(at) else {
        return false;
    };
    match (run.stage, run.earlier) {
        (Stage::Over, _) => false,
        (Stage::Waiting, Some(earlier)) => is_over(runs, earlier),
        _ => true,
    }
}

/// Rejects runs of which one is not over: it waits for a frame that no record sends, or for an earlier run of its name.
fn judge_ends(runs: &[Run]) -> Result<(), MergeFault>
    ensures { OnOk result (All (λ run. run.stage ≡ Stage.Over) runs.now) }
{
    for run in runs {
        if run.stage != Stage::Over {
            return Err(MergeFault::Stuck {
                origin: run.origin,
                place: run.place(),
            });
        }
    }
    Ok(())
}

/// Says of each run whose record is cut that it is so.
fn say_all_cut<F: Write>(runs: &[Run], faults: &mut F) {
    for run in runs {
        say_cut(run.path(), run.left(), faults);
    }
}

/// Runs that are followed side by side, and the check of what they take.
#[derive(Drop)]
struct Following<C> {
    check: RunCheck<C>,
    runs: Vec<Run>,
}

impl<C: Core<Global, Note = Frame>> Following<C> {
    /// Has the run at this index take its share of a round. Returns whether it went on.
    fn visit<R: Files<File = File>, S: DeliverySink>(
        &mut self,
        source: &mut Source<'_, R>,
        at: usize,
        share: Share,
        sink: &mut S,
    ) -> Result<bool, Halt> {
        if !may_go_on(self.runs.as_slice(), at) {
            return Ok(false);
        }
        let Some(run) = self.runs.get_mut(at) else {
            return Ok(false);
        };
        let starts = run.stage == Stage::Waiting;
        if starts {
            run.start(source, &mut self.check)?;
        }
        let goes_on = run.go_on(source, &mut self.check, share, sink)?;
        Ok(starts || goes_on)
    }

    /// Visits each run once. Returns whether any went on.
    fn go_round<R: Files<File = File>, S: DeliverySink>(
        &mut self,
        source: &mut Source<'_, R>,
        share: Share,
        sink: &mut S,
    ) -> Result<bool, Halt> {
        let mut moved = false;
        for at in 0..self.runs.len() {
            if self.visit(source, at, share, sink)? {
                moved = true;
            }
        }
        Ok(moved)
    }

    /// Goes round the runs until none goes on, even where its share is free.
    fn follow<R: Files<File = File>, S: DeliverySink>(
        &mut self,
        source: &mut Source<'_, R>,
        sink: &mut S,
    ) -> Result<(), Halt> {
        let mut moved = true;
        for _ in 0..u64::MAX {
            let is_free = !moved;
            moved = self.go_round(source, Share::new(is_free), sink)?;
            if is_free && !moved {
                break;
            }
        }
        Ok(judge_ends(self.runs.as_slice())?)
    }
}

/// Follows runs of nodes that have these cores, and says of each record that is cut that it is so.
fn follow_all<C, R, S, F>(
    check: RunCheck<C>,
    source: &mut Source<'_, R>,
    runs: Vec<Run>,
    sink: &mut S,
    faults: &mut F,
) -> Result<(), Halt>
where
    C: Core<Global, Note = Frame>,
    R: Files<File = File>,
    S: DeliverySink,
    F: Write,
{
    let mut following = Following { check, runs };
    let ended = following.follow(source, sink);
    say_all_cut(following.runs.as_slice(), faults);
    ended
}

/// Follows the runs whose records the folders have.
fn follow_folders<R, S, F>(
    rt: &R,
    folders: &[&str],
    sink: &mut S,
    faults: &mut F,
) -> Result<(), Halt>
where
    R: AllocGlobal + Files<File = File> + Clone + Drop,
    S: DeliverySink,
    F: Write,
{
    let alloc = rt.alloc();
    let mut source = Source::new(rt, alloc);
    let mut runs = runs_in(rt, alloc, &mut source, folders)?;
    put_in_order(alloc, &mut runs)?;
    let Some(first) = runs.first() else {
        return Ok(());
    };
    let check: RunCheck<PlumCore> = RunCheck::new(alloc, first.limits);
    follow_all(check, &mut source, runs, sink, faults)
}

/// Reads the records of the folders side by side, has a check follow the runs that they tell, and hands out what the
/// runs deliver as it comes. Returns why the records are not those of one run, if they are not: what was delivered
/// before is handed out. Says of each record that is cut, as after a crash, that it is so, once it is read to its end.
///
/// It keeps the nodes as they are now, the frames in flight, and a piece of each record that is being read.
pub fn follow_records<R, S, F>(
    rt: &R,
    folders: &[&str],
    sink: &mut S,
    faults: &mut F,
) -> Result<Option<MergeFault>, RecordsError>
where
    R: AllocGlobal + Files<File = File> + Clone + Drop,
    S: DeliverySink,
    F: Write,
{
    match follow_folders(rt, folders, sink, faults) {
        Ok(()) => Ok(None),
        Err(Halt::Unmerged(fault)) => Ok(Some(fault)),
        Err(Halt::Failed(error)) => Err(error),
    }
}
