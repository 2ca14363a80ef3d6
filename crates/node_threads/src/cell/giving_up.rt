//! Outlets give up the frames that are as their node sent them.
ghost use Rattle.std.specs.Prelude.{◌≡◌, ◌≤◌, ◌<◌, ◌+◌, ◌^◌, [], ◌∷◌, ◌++◌, IfSome, length, take};
ghost use Rattle.node_threads.specs.Applying.{mail_for};
ghost use Rattle.node_threads.specs.Cell.{lost};
ghost use Rattle.node_threads.specs.Forgetting.{CameOut, GivesUp};

use crate::cell::NodeCell;
use crate::cell::link_frame::LinkFrame;
use crate::cell::outlet::Outlet;
use crate::cell::remainder::opening_of;
use crate::cores::NodeCore;
use frames::Frame;
use node_names::NodeName;
use protocol::Trace;
use std::alloc::Allocator;

/// How many of the frames are those of the packets so far, if the next one goes on with this packet's.
fn with_packet<A: Allocator + Copy>(
    peer: &NodeName,
    send: &(NodeName, Frame<A>),
    given: &[LinkFrame<A>],
    count: usize,
) -> Option<usize>
    requires { count ≤ length given.now }
    ensures few { IfSome result (λ n. n ≤ length given.now) }
    ensures same { IfSome result (λ n. take n given.now ≡ take count given.now ++ mail_for (send.now ∷ []) peer.now) }
{
    if send.0 != *peer {
        return Some(count);
    }
    if !given.get(count)?.is(&send.1) {
        return None;
    }
    Some(count + 1)
}

/// How many of these packets go to the peer, if the frames begin with all of these.
fn frames_of<A: Allocator + Copy>(
    peer: &NodeName,
    sends: &[(NodeName, Frame<A>)],
    given: &[LinkFrame<A>],
) -> Option<usize>
    ensures few { IfSome result (λ n. n ≤ length given.now) }
    ensures same { IfSome result (λ n. take n given.now ≡ mail_for sends.now peer.now) }
{
    let mut count = 0;
    for send in sends {
        count = with_packet(peer, send, given, count)?;
    }
    Some(count)
}

/// Up to which step all that the node sent to the peer came out, and how many frames that were. The trace lacks the
/// first
/// `lost` steps.
fn came_out<A: Allocator + Copy>(
    trace: &Trace<Frame<A>, A>,
    lost: usize,
    peer: &NodeName,
    opened: usize,
    given: &[LinkFrame<A>],
) -> (usize, usize)
    requires behind { lost ≤ opened }
    requires bound { lost + length trace.now.steps < 2 ^ 64 }
    ensures { CameOut lost trace.now peer.now opened given.now result.0 result.1 }
{
    let opening = opening_of(trace, opened);
    let Some(mut frames) = frames_of(peer, opening, given) else {
        return (opened, 0);
    };
    let mut whole = (opened, 0);
    for place in opened - lost..trace.len() {
        let Some(step) = trace.step(place) else {
            unreachable!()
        };
        let Some(more) = frames_of(peer, step.out.sends.as_slice(), &given[frames..]) else {
            return whole;
        };
        frames += more;
        whole = (lost + place + 1, frames);
    }
    whole
}

impl<C: NodeCore<A> + Drop, A: Allocator + Copy> NodeCell<C, A> {
    /// Up to which step all that the node sent over an outlet's link came out, and how many frames that were.
    pub(crate) fn came_out(&self, outlet: &Outlet<A>) -> (usize, usize)
        ensures { CameOut (lost self.now.since) self.now.trace outlet.now.peer
            outlet.now.opened outlet.now.given result.0 result.1 }
    {
        let (peer, opened, lost) = (outlet.peer(), outlet.opened(), self.lost());
        let _bound = self.steps_made();
        if opened < lost {
            return (opened, 0);
        }
        came_out(self.trace(), lost, &peer, opened, outlet.given())
    }

    /// Compares what came out of a link with what the node sent, and has the outlet give up what is the same, up to the
    /// last step of which all frames came out: it is then as if the link had been opened after that step. What differs
    /// stays, for `report`.
    pub fn compare(&self, outlet: &mut Outlet<A>)
        ensures { GivesUp (lost self.now.since) self.now.trace outlet.old outlet.new }
    {
        let (place, frames) = self.came_out(outlet);
        outlet.give_up(place, frames);
    }
}
