//! The order of the runs of one name.
use crate::halt::Halt;
use crate::run::Run;
use node_names::Origin;
use std::alloc::Global;
use std::collections::BTreeMap;
use trace_merge::MergeFault;

/// The runs, in the order of names and then of incarnations, each with its index.
type Places = BTreeMap<Origin, usize>;

/// Finds where each run stands. No two records may be of one run.
fn places_of(alloc: Global, runs: &[Run]) -> Result<Places, Halt> {
    let mut places = BTreeMap::new(alloc);
    for (at, run) in runs.iter().enumerate() {
        let origin = run.origin;
        if places.insert(origin, at)?.is_some() {
            return Err(Halt::Unmerged(MergeFault::Doubled { origin }));
        }
    }
    Ok(places)
}

/// The index of the last earlier run of the name.
fn last_before(places: &Places, origin: &Origin) -> Option<usize> {
    let (run, at) = places.range(..*origin).next_back()?;
    if run.name == origin.name {
        Some(*at)
    } else {
        None
    }
}

/// Tells each run which is the last earlier one of its name.
pub(crate) fn put_in_order(alloc: Global, runs: &mut Vec<Run>) -> Result<(), Halt> {
    let places = places_of(alloc, runs.as_slice())?;
    for run in runs.iter_mut() {
        run.earlier = last_before(&places, &run.origin);
    }
    Ok(())
}
