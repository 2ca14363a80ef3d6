//! Reading the lists of a frame.
ghost use Rattle.std.specs.Prelude.{◌≡◌, [], ◌∷◌, ◌++◌, List, IfOk};
ghost use Rattle.frames.specs.Answer.{Makes, Reads};
ghost use Rattle.frames.specs.Reading.{Reader, alone, times};

use crate::fault::FrameFault;
use crate::fields::Fields;
use node_names::{Listed, MsgId, NodeName};
use std::alloc::{AllocError, Allocator};

/// An item of a list in a frame.
pub(crate) trait Item: Copy {
    ghost reader: { Reader Self };

    /// Reads one item.
    fn read(fields: &mut Fields<'_>) -> Result<Self, FrameFault>
        ensures { Reads result reader fields.old fields.new };
}

impl Item for NodeName {
    ghost use Rattle.frames.specs.Reading.{name};

    ghost reader = { name };

    fn read(fields: &mut Fields<'_>) -> Result<NodeName, FrameFault> {
        fields.name()
    }
}

impl Item for (MsgId, u32) {
    ghost use Rattle.frames.specs.Reading.{announcement};

    ghost reader = { announcement };

    fn read(fields: &mut Fields<'_>) -> Result<(MsgId, u32), FrameFault> {
        fields.announcement()
    }
}

/// Appends `item`, unless `items` is an error already. If memory runs out, `items` becomes an error.
fn keep<T: Item, A: Allocator>(items: &mut Result<Vec<T, A>, AllocError>, item: T)
    ensures { (xs : List T) → IfOk items.old (λ v. v.items ≡ xs) → IfOk items.new (λ v. v.items ≡ xs ++ item ∷ []) }
{
    if let Ok(kept) = items {
        if kept.push(item).is_err() {
            *items = Err(AllocError);
        }
    }
}

/// Reads `count` items and rejects trailing bytes. Reports a refused allocation only if there is no other fault.
pub(crate) fn list<T: Item, A: Allocator>(
    alloc: A,
    count: usize,
    fields: &mut Fields<'_>,
) -> Result<Listed<T, A>, FrameFault>
    ensures { Makes (λ items. (items, [])) result (alone (times count T.reader) fields.old) }
{
    let mut items = Vec::with_capacity(alloc, count);
    for _ in 0..count {
        let item = T::read(fields)?;
        keep(&mut items, item);
    }
    fields.end()?;
    Ok(Listed::from_vec(items?))
}
