//! The end of a node for another thread.
ghost use Rattle.std.specs.Prelude.{◌≡◌, ◌<◌, ◌≤◌, ◌∷◌, ◌++◌, [], length, IfErr, IfNone, IfSome, IsSome, OnOk};
ghost use Rattle.rtrb.specs.Ring.{known_free, known_items, received, sent};
ghost use Rattle.protocol.specs.declared.TheConstants.{MAX_PAYLOAD};

use crate::error::{PortError, PortFault};
use crate::receiver::PortReceiver;
use crate::sender::PortSender;
use bytes::Bytes;
use protocol::Delivery;
use std::alloc::{Allocator, Global};
use wire_node::News;

/// The end of a node for another thread. No call waits.
///
/// A thread that broadcasts must also take what is delivered, its own messages among it: where nothing more can be
/// handed out, the loop takes no messages of this port, and reads no more of the node's connections. Once a port is
/// dropped, what is delivered at its node is dropped too. `split` makes an end for each of two threads of it.
///
/// News come by a ring of their own, so nothing says whether they came before or after a message. Those that nobody
/// takes hold nothing up: they wait in the loop.
#[derive(Drop)]
pub struct Port<A: Allocator = Global> {
    sender: PortSender<A>,
    receiver: PortReceiver<A>,
}

impl<A: Allocator + Copy> Port<A> {
    /// Makes the end of a node of its two halves.
    pub(crate) fn new(sender: PortSender<A>, receiver: PortReceiver<A>) -> Port<A> {
        Port { sender, receiver }
    }

    /// Takes the port apart, for one thread that broadcasts and one that takes what is delivered.
    pub fn split(self) -> (PortSender<A>, PortReceiver<A>)
        ensures { (result.0 ≡ self.sender) × (result.1 ≡ self.receiver) }
    {
        let Port { sender, receiver } = self;
        (sender, receiver)
    }

    /// Hands in a message to be broadcast. Where it is not taken, the error gives it back.
    pub fn broadcast(&mut self, payload: Bytes<A>) -> Result<(), PortError<A>>
        ensures ok { OnOk result ((length payload ≤ MAX_PAYLOAD)
            × (sent self.new.sender.broadcasts ≡ sent self.old.sender.broadcasts ++ payload ∷ [])) }
        ensures err { IfErr result
            (λ e. (e.payload ≡ payload) × (sent self.new.sender.broadcasts ≡ sent self.old.sender.broadcasts)) }
        ensures too_long { IfErr result (λ e. e.fault ≡ PortFault.TooLong → MAX_PAYLOAD < length payload) }
        ensures full { IfErr result (λ e. e.fault ≡ PortFault.Full → known_free self.new.sender.broadcasts ≡ 0) }
    {
        self.sender.broadcast(payload)
    }

    /// Takes the next message that was delivered, if there is one: in order, each once. `None` says that the ring was
    /// empty when this call looked.
    pub fn next(&mut self) -> Option<Delivery<A>>
        ensures some { IfSome result
            (λ message. received self.new.receiver.deliveries ≡ received self.old.receiver.deliveries ++ message ∷ []) }
        ensures none { IfNone result
            ((received self.new.receiver.deliveries ≡ received self.old.receiver.deliveries)
            × (known_items self.new.receiver.deliveries ≡ [])) }
        ensures there { 0 < length (known_items self.old.receiver.deliveries) → IsSome result }
    {
        self.receiver.next()
    }

    /// Takes the next news of the node, if there are some: which neighbours came and went, each once and in order. A
    /// port has none that `Ports::open_with_news` did not open.
    pub fn next_news(&mut self) -> Option<News>
        ensures some { IfSome result
            (λ news. received self.new.receiver.news ≡ received self.old.receiver.news ++ news ∷ []) }
        ensures none { IfNone result ((received self.new.receiver.news ≡ received self.old.receiver.news)
            × (known_items self.new.receiver.news ≡ [])) }
        ensures there { 0 < length (known_items self.old.receiver.news) → IsSome result }
        ensures deliveries { received self.new.receiver.deliveries ≡ received self.old.receiver.deliveries }
    {
        self.receiver.next_news()
    }

    /// Whether the loop takes no messages any more. What it delivered before may still be taken.
    pub fn has_ended(&mut self) -> bool {
        self.sender.has_ended()
    }
}
