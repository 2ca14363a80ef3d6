//! The calls by which a node of bytes tells news of its neighbours.
ghost use Rattle.std.specs.Prelude.{◌≡◌};
ghost use Rattle.plumtree_c.specs.Answers.{IsDone, IsNone};
ghost use Rattle.plumtree_c.specs.Slots.{BothBytes};
ghost use Rattle.plumtree_c.specs.Wire.{Does, HasNoNews, Informs, TellsNews};

use crate::plain::PlainNews;
use crate::refusal::{DONE, NONE};
use crate::slot::Slot;
use crate::wire::Wire;
use std::alloc::Global;

/// Has the node tell news of its next steps, or not. One that starts tells none. News that wait stay.
#[unsafe(no_mangle)]
pub extern "C" fn plumtree_wire_tell_news(slot: &mut Slot, alloc: Global, tells: bool) -> i32
    ensures done { IsDone result → BothBytes slot.old.held.value slot.new.held.value (Does (TellsNews tells)) }
    ensures kept { (IsDone result → ⊥) → slot.new.held.value ≡ slot.old.held.value }
{
    let mut wire = match slot.take::<Wire>(alloc) {
        Ok(wire) => wire,
        Err(refusal) => return refusal.code(),
    };
    wire.tell_news(tells);
    slot.put(wire);
    DONE
}

/// Takes the first news that wait. 0: none wait.
#[unsafe(no_mangle)]
pub extern "C" fn plumtree_wire_next_news(
    slot: &mut Slot,
    alloc: Global,
    news: &mut PlainNews,
) -> i32
    ensures done { IsDone result → BothBytes slot.old.held.value slot.new.held.value (Informs news.new) }
    ensures none { IsNone result → BothBytes slot.old.held.value slot.new.held.value HasNoNews }
    ensures kept { (IsDone result → ⊥) → (IsNone result → ⊥) → slot.new.held.value ≡ slot.old.held.value }
    ensures news { (IsDone result → ⊥) → news.new ≡ news.old }
{
    let mut wire = match slot.take::<Wire>(alloc) {
        Ok(wire) => wire,
        Err(refusal) => return refusal.code(),
    };
    let answer = wire.next_news();
    slot.put(wire);
    let found = match answer {
        Ok(found) => found,
        Err(refusal) => return refusal.code(),
    };
    match found {
        Some(its) => {
            *news = its;
            DONE
        }
        None => NONE,
    }
}
