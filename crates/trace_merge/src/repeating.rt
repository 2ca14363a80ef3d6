//! Puts packets into flight.
ghost use Rattle.std.specs.Prelude.{◌≡◌, ◌<◌, Some, IfErr, IfOk, IfSome, OnOk, length, slice_get};
ghost use Rattle.trace_merge.specs.Merging.{IsMerging};

use crate::fault::MergeFault;
use crate::merging::Merging;
use frames::Frame;
use protocol::Trace;
use std::alloc::Allocator;
use world::{EventOf, WorldError};

/// The place in flight of the packet of this number, if it is in flight. The numbers in flight are ascending as long as
/// each packet that is put there again arrives next.
fn place_of(flight: &[usize], number: usize) -> Option<usize>
    ensures { IfSome result (λ place. slice_get flight.now place ≡ Some number) }
{
    let place = flight.binary_search(&number).ok()?;
    if flight.get(place) == Some(&number) {
        Some(place)
    } else {
        None
    }
}

impl<A: Allocator + Copy> Merging<A> {
    /// Puts a packet that was sent into flight again, unless it is in flight. Returns its place in flight.
    pub(crate) fn fly(
        &mut self,
        traces: &[Trace<Frame<A>, A>],
        number: usize,
    ) -> Result<usize, MergeFault>
        requires merging { IsMerging self.old.world.limits traces.now self.old }
        requires sent { number < length self.old.world.group.sent }
        ensures limits { OnOk result (self.new.world.limits ≡ self.old.world.limits) }
        ensures places { OnOk result (self.new.places ≡ self.old.places) }
        ensures packets { OnOk result (self.new.world.group.sent ≡ self.old.world.group.sent) }
        ensures ok { OnOk result (IsMerging self.old.world.limits traces.now self.new) }
        ensures place { IfOk result (λ place. slice_get self.new.world.group.flight place ≡ Some number) }
        ensures err { IfErr result (λ fault. fault ≡ MergeFault.OutOfMemory) }
    {
        if let Some(place) = place_of(self.world.flight(), number) {
            return Ok(place);
        }
        let place = self.world.flight().len();
        match self.play(EventOf::Again { number }) {
            Ok(()) => Ok(place),
            Err(WorldError::OutOfMemory) => Err(MergeFault::OutOfMemory),
            Err(_) => unreachable!(),
        }
    }
}
