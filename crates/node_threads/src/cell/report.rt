//! Compares what came out of a link with the trace.
ghost use Rattle.std.specs.Prelude.{◌≡◌, None, Ok, IfOk, IfErr, IfSome};
ghost use Rattle.node_threads.specs.Cell.{lost};
ghost use Rattle.node_threads.specs.Report.{BeginsText, report_of};

use crate::cell::NodeCell;
use crate::cell::outlet::Outlet;
use crate::cell::remainder::strip_text;
use crate::cores::NodeCore;
use crate::error::HostError;
use node_names::NodeName;
use std::alloc::Allocator;

/// How far a link got whose frames came out as the node sent them.
#[derive(Drop)]
pub struct LinkReport {
    /// The name that the link goes to.
    pub peer: NodeName,
    /// The number of steps that the node had made when the link was opened, or up to which it was compared.
    pub opened: usize,
    /// The number of frames that came out since.
    pub taken: u64,
}

impl<C: NodeCore<A> + Drop, A: Allocator + Copy> NodeCell<C, A> {
    /// Returns how far a link got, if its frames came out as the node sent them to its peer since the link was opened:
    /// each as its bytes, in order, with none left out. `None`: they did not; or the link was opened after more steps
    /// than the node has made, so that the outlet belongs to another node; or before steps that it has forgotten.
    ///
    /// It goes over the steps since the link was opened until the frames that came out are used up, and encodes a frame
    /// only if it finds one that differs. The only error is `OutOfMemory`, and only this encoding causes it.
    pub fn report(&self, outlet: &Outlet<A>) -> Result<Option<LinkReport>, HostError>
        ensures begins { IfOk result
            (λ r. IfSome r (λ report. BeginsText (lost self.now.since) self.now.trace outlet.now)) }
        ensures report { IfOk result (λ r. IfSome r (λ report. report ≡ report_of outlet.now)) }
        ensures none { result ≡ Ok None → BeginsText (lost self.now.since) self.now.trace outlet.now → ⊥ }
        ensures refused { IfErr result (λ e. e ≡ HostError.OutOfMemory) }
    {
        let (peer, opened) = (outlet.peer(), outlet.opened());
        let lost = self.lost();
        if opened < lost {
            return Ok(None);
        }
        if opened > self.steps_made() {
            return Ok(None);
        }
        let alloc = *self.links.allocator();
        let Some(rest) = strip_text(alloc, &self.trace, lost, &peer, opened, outlet.given())? else {
            return Ok(None);
        };
        if !rest.is_empty() {
            return Ok(None);
        }
        Ok(Some(LinkReport {
            peer,
            opened,
            taken: outlet.taken(),
        }))
    }
}
