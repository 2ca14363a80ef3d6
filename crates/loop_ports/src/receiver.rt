//! The end of a port that takes what its node has for it.
ghost use Rattle.std.specs.Prelude.{◌≡◌, ◌<◌, ◌∷◌, ◌++◌, [], IfNone, IfSome, IsSome, length};
ghost use Rattle.rtrb.specs.Ring.{known_items, received};

use mio::Waker;
use protocol::Delivery;
use rtrb::Consumer;
use std::alloc::{Allocator, Global};
use wire_node::News;

/// The end of a port that takes what its node delivers, and its news. No call waits.
#[derive(Drop)]
pub struct PortReceiver<A: Allocator = Global> {
    deliveries: Consumer<Delivery<A>, A>,
    /// Where the port is to have no news, a ring without room.
    news: Consumer<News, A>,
    waker: Waker,
    /// How many deliveries were taken since the loop was woken for it.
    taken: usize,
}

impl<A: Allocator + Copy> PortReceiver<A> {
    /// Makes the end of these rings.
    pub(crate) fn new(
        deliveries: Consumer<Delivery<A>, A>,
        news: Consumer<News, A>,
        waker: Waker,
    ) -> PortReceiver<A> {
        PortReceiver {
            deliveries,
            news,
            waker,
            taken: 0,
        }
    }

    /// Takes the next message that was delivered, if there is one: in order, each once. `None` says that the ring was
    /// empty when this call looked.
    pub fn next(&mut self) -> Option<Delivery<A>>
        ensures some { IfSome result
            (λ message. received self.new.deliveries ≡ received self.old.deliveries ++ message ∷ []) }
        ensures none { IfNone result ((received self.new.deliveries ≡ received self.old.deliveries)
            × (known_items self.new.deliveries ≡ [])) }
        ensures there { 0 < length (known_items self.old.deliveries) → IsSome result }
        ensures news { (received self.new.news ≡ received self.old.news)
            × (known_items self.new.news ≡ known_items self.old.news) }
    {
        let message = self.deliveries.pop().ok()?;
        self.taken = self.taken.saturating_add(1);
        if self.taken >= self.deliveries.capacity() / 2 {
            self.taken = 0;
            let _ = self.waker.wake();
        }
        Some(message)
    }

    /// Takes the next news of the node, if there are some: which neighbours came and went, each once and in order. A
    /// port has none that `Ports::open_with_news` did not open.
    pub fn next_news(&mut self) -> Option<News>
        ensures some { IfSome result (λ news. received self.new.news ≡ received self.old.news ++ news ∷ []) }
        ensures none { IfNone result ((received self.new.news ≡ received self.old.news)
            × (known_items self.new.news ≡ [])) }
        ensures there { 0 < length (known_items self.old.news) → IsSome result }
        ensures deliveries { received self.new.deliveries ≡ received self.old.deliveries }
    {
        self.news.pop().ok()
    }

    /// Whether nothing more comes but what is there already.
    pub fn has_ended(&mut self) -> bool {
        self.deliveries.is_abandoned()
    }
}
