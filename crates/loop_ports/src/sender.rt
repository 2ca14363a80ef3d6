//! The end of a port that broadcasts.
ghost use Rattle.std.specs.Prelude.{◌≡◌, ◌<◌, ◌≤◌, ◌∷◌, ◌++◌, [], length, IfErr, OnOk};
ghost use Rattle.rtrb.specs.Ring.{known_free, sent};
ghost use Rattle.protocol.specs.declared.TheConstants.{MAX_PAYLOAD};

use crate::error::{PortError, PortFault};
use bytes::Bytes;
use mio::Waker;
use protocol::MAX_PAYLOAD;
use rtrb::{Producer, PushError};
use std::alloc::{Allocator, Global};

/// The end of a port that broadcasts. No call waits.
///
/// The loop takes no messages as long as what the node delivered is not taken by the other end.
#[derive(Drop)]
pub struct PortSender<A: Allocator = Global> {
    broadcasts: Producer<Bytes<A>, A>,
    waker: Waker,
}

impl<A: Allocator + Copy> PortSender<A> {
    /// Makes the end of this ring.
    pub(crate) fn new(broadcasts: Producer<Bytes<A>, A>, waker: Waker) -> PortSender<A> {
        PortSender { broadcasts, waker }
    }

    /// Hands in a message to be broadcast. Where it is not taken, the error gives it back.
    pub fn broadcast(&mut self, payload: Bytes<A>) -> Result<(), PortError<A>>
        ensures ok { OnOk result
            ((length payload ≤ MAX_PAYLOAD) × (sent self.new.broadcasts ≡ sent self.old.broadcasts ++ payload ∷ [])) }
        ensures err { IfErr result
            (λ e. (e.payload ≡ payload) × (sent self.new.broadcasts ≡ sent self.old.broadcasts)) }
        ensures too_long { IfErr result (λ e. e.fault ≡ PortFault.TooLong → MAX_PAYLOAD < length payload) }
        ensures full { IfErr result (λ e. e.fault ≡ PortFault.Full → known_free self.new.broadcasts ≡ 0) }
    {
        if payload.len() > MAX_PAYLOAD {
            return Err(PortError {
                payload,
                fault: PortFault::TooLong,
            });
        }
        if self.broadcasts.is_abandoned() {
            return Err(PortError {
                payload,
                fault: PortFault::Ended,
            });
        }
        if let Err(PushError::Full(payload)) = self.broadcasts.push(payload) {
            return Err(PortError {
                payload,
                fault: PortFault::Full,
            });
        }
        self.wake_for_first();
        Ok(())
    }

    /// Wakes the loop if no other message waits: it may sleep. If the system refuses that, the next tick does it.
    fn wake_for_first(&mut self)
        ensures { sent self.new.broadcasts ≡ sent self.old.broadcasts }
    {
        if self.broadcasts.slots().saturating_add(1) >= self.broadcasts.capacity() {
            let _ = self.waker.wake();
        }
    }

    /// Whether the loop takes no messages any more.
    pub fn has_ended(&mut self) -> bool {
        self.broadcasts.is_abandoned()
    }
}
