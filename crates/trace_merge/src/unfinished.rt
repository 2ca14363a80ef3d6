//! The runs whose traces may not be played out yet.
ghost use Rattle.std.specs.Prelude.{◌≡◌, ◌+◌, ℕ, List, Option, None, IfNone, IfOk, IfSome, if◌then◌else◌};
ghost use Rattle.std.specs.Option.{is_some};
ghost use Rattle.std.specs.BTreeMap.{Updates, btree_map_len, get};
ghost use Rattle.node_names.specs.Order.{origin_cmp};
ghost use Rattle.node_names.specs.declared.ids.Origin.{Origin as Run};
ghost use Rattle.trace_merge.specs.Held.{IsEarlier};
ghost use Rattle.trace_merge.specs.Left.{AreLeft};

use crate::readiness::is_earlier;
use frames::Frame;
use node_names::Origin;
use protocol::Trace;
use std::alloc::{AllocError, Allocator};
use std::collections::BTreeMap;

/// The runs that are not known to be finished, in the order of names and then of incarnations, each with the index of
/// its trace.
#[derive(Drop)]
pub(crate) struct Unfinished<A: Allocator> {
    runs: BTreeMap<Origin, usize, A>,
}

impl<A: Allocator + Copy> Unfinished<A> {
    /// The runs of all traces.
    pub(crate) fn new(alloc: A, traces: &[Trace<Frame<A>, A>]) -> Result<Unfinished<A>, AllocError>
        ensures { IfOk result (λ left. (places : List (Option ℕ)) → AreLeft traces.now places left.runs) }
    {
        let mut runs = BTreeMap::new(alloc);
        for (at, trace) in traces.iter().enumerate() {
            runs.insert(trace.origin(), at)?;
        }
        Ok(Unfinished { runs })
    }

    /// The last of the runs that is an earlier one of the same name, with the index of its trace.
    pub(crate) fn last_before(&self, origin: &Origin) -> Option<(Origin, usize)>
        ensures earlier { IfSome result (λ found. IsEarlier found.0 origin.now) }
        ensures listed { IfSome result (λ found. get origin_cmp self.now.runs found.0 ≡ Some found.1) }
        ensures none { IfNone result ((o : Run) → IsEarlier o origin.now → get origin_cmp self.now.runs o ≡ None) }
    {
        let (run, at) = self.runs.range(..*origin).next_back()?;
        if is_earlier(run, origin) {
            Some((*run, *at))
        } else {
            None
        }
    }

    /// Takes a run out.
    pub(crate) fn remove(&mut self, origin: &Origin)
        ensures updates { Updates origin_cmp self.old.runs self.new.runs origin.now None }
        ensures len { btree_map_len self.new.runs + (if is_some (get origin_cmp self.old.runs origin.now) then 1 else 0)
            ≡ btree_map_len self.old.runs }
    {
        self.runs.remove(origin);
    }
}
