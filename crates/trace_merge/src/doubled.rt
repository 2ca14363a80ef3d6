//! Finds runs that have two traces.
ghost use Rattle.std.specs.Prelude.{IfNone, IfOk, IfSome};
ghost use Rattle.trace_merge.specs.Merging.{AreDistinct, IsDoubled};

use frames::Frame;
use indexmap::IndexSet;
use node_names::Origin;
use protocol::Trace;
use std::alloc::{AllocError, Allocator};
use std::hash::{BuildHasherDefault, FoldHasher};

/// The runs of the traces so far.
type Seen<A> = IndexSet<Origin, BuildHasherDefault<FoldHasher>, A>;

/// Returns the run of the first trace that is of the same run as an earlier one.
pub(crate) fn first_doubled<A: Allocator + Copy>(
    alloc: A,
    traces: &[Trace<Frame<A>, A>],
) -> Result<Option<Origin>, AllocError>
    ensures doubled { IfOk result (λ found. IfSome found (λ o. IsDoubled traces.now o)) }
    ensures distinct { IfOk result (λ found. IfNone found (AreDistinct traces.now)) }
{
    let mut seen: Seen<A> = IndexSet::new(alloc);
    for trace in traces {
        let origin = trace.origin();
        if !seen.insert(origin)? {
            return Ok(Some(origin));
        }
    }
    Ok(None)
}
