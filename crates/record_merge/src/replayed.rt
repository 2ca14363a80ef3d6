//! From a record to the trace of its run.
ghost use Rattle.std.specs.Prelude.{IfOk, Some, map};
ghost use Rattle.protocol.specs.Replay.{Replays};
ghost use Rattle.node_core.specs.Plum.{Plum};
ghost use Rattle.node_core.specs.Steps.{PlumStarts, PlumSteps};
ghost use Rattle.step_records.specs.declared.reader.Entry.TheVariants as entry;
ghost use Rattle.record_merge.specs.Replaying.{Gives, StartsAs, Tells, stimuli_of};

use crate::entries::Entries;
use crate::error::ReplayError;
use crate::steps::run_of;
use frames::Frame;
use node_core::PlumCore;
use protocol::Trace;
use std::alloc::Global;
use step_records::{Entry, Head};

/// A run of a node that was replayed from its record.
#[derive(Drop)]
pub struct Replayed {
    /// What the run started with.
    pub head: Head,
    /// What it did.
    pub trace: Trace<Frame>,
    /// How many bytes at the end of the last file are no whole entry. There are some where the node crashed.
    pub left: usize,
}

/// Reads the head of the first file.
fn first_head(entries: &mut Entries<'_>) -> Result<Head, ReplayError>
    ensures { IfOk result (λ head. Gives entries.old (Some (entry.Head head)) entries.new) }
{
    match entries.next()? {
        Some(Entry::Head(head)) => Ok(head),
        _ => Err(ReplayError::NoHead),
    }
}

/// Replays a record whose files are these, in order. Where the last of them is cut, the run ends with its last whole
/// entry.
pub fn replay(alloc: Global, files: &[Vec<u8>]) -> Result<Replayed, ReplayError>
    ensures replays { IfOk result
        (λ run. (last : Plum) × Replays PlumStarts PlumSteps run.head.limits run.trace last) }
    // The run is the one that the head names, and started as the head says.
    ensures starts { IfOk result (λ run. StartsAs run.head run.trace) }
    // The head is what the files begin with, and the steps are those at the stimuli that they tell, all of them in
    // order.
    ensures told { IfOk result
        (λ run. Tells (map (λ file. file.items) files.now) run.head (stimuli_of run.trace.steps) run.left) }
{
    let mut entries = Entries::new(alloc, files);
    let head = first_head(&mut entries)?;
    let trace = run_of::<PlumCore>(alloc, &head, &mut entries)?;
    Ok(Replayed {
        head,
        trace,
        left: entries.left(),
    })
}
