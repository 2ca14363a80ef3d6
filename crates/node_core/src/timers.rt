//! The ids whose timers are armed, read from slots: `None` stands where a timer was taken out.
ghost use Rattle.std.specs.Prelude.{◌≡◌, IfOk, slice_get};
ghost use Rattle.node_names.specs.Slots.{somes};

use node_names::MsgId;
use std::alloc::{AllocError, Allocator};

/// Copies the ids whose timers are armed, in order of arming.
pub fn armed_ids<A: Allocator>(
    alloc: A,
    timers: &[Option<MsgId>],
) -> Result<Vec<MsgId, A>, AllocError>
    ensures { IfOk result (λ ids. ids.items ≡ somes timers.now) }
{
    let mut ids = Vec::with_capacity(alloc, timers.len())?;
    for timer in timers {
        if let Some(id) = timer {
            ids.push(*id)?;
        }
    }
    Ok(ids)
}

/// Returns the id whose timer has this place among those that are armed.
pub fn armed_at(timers: &[Option<MsgId>], place: usize) -> Option<MsgId>
    ensures { result ≡ slice_get (somes timers.now) place }
{
    timers.iter().flatten().nth(place).copied()
}
