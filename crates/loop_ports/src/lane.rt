//! The end of a port in the loop.
ghost use Rattle.std.specs.Prelude.{◌≡◌, ◌≢◌, ◌∷◌, ◌++◌, [], IfNone, IfOk, IfSome, List, OnErr, length, true, ℕ};
ghost use Rattle.rtrb.specs.Ring.{known_items, received};
ghost use Rattle.event_loop.specs.declared.program.Next.TheVariants as next;

use crate::outbox::Outbox;
use crate::port_node::PortNode;
use bytes::Bytes;
use event_loop::Next;
use protocol::Delivery;
use rtrb::{Consumer, Producer};
use std::alloc::Allocator;
use wire_node::{News, WireError};

/// How many messages a turn broadcasts at most: the more these are, the longer each waits on its way for those that
/// were broadcast with it.
const BROADCASTS: usize = 16;
/// From so many bytes on a turn broadcasts nothing more.
const TURN: usize = 32_768;

/// The end of a port in the loop.
#[derive(Drop)]
pub(crate) struct Lane<A: Allocator> {
    /// What was handed in. A message stays there until the node has broadcast it.
    broadcasts: Consumer<Bytes<A>, A>,
    deliveries: Outbox<Delivery<A>, A>,
    /// The news, if a port has them.
    news: Option<Outbox<News, A>>,
}

impl<A: Allocator + Copy> Lane<A> {
    /// Makes the end of a port by these rings, which has no news.
    pub(crate) fn new(
        alloc: A,
        broadcasts: Consumer<Bytes<A>, A>,
        deliveries: Producer<Delivery<A>, A>,
    ) -> Lane<A> {
        Lane {
            broadcasts,
            deliveries: Outbox::new(alloc, deliveries),
            news: None,
        }
    }

    /// The same end with these news.
    pub(crate) fn with_news(mut self, news: Option<Outbox<News, A>>) -> Lane<A> {
        self.news = news;
        self
    }

    /// Takes the end of the news, if a port has them.
    pub(crate) fn take_news(&mut self) -> Option<Outbox<News, A>> {
        self.news.take()
    }

    /// Hands out news, broadcasts what was handed in, if the node may, and hands out what was delivered. As long as not
    /// all deliveries can be handed out, none are taken, and no messages. News do not wait for deliveries, nor these
    /// for them.
    pub(crate) fn turn<N: PortNode<A>>(
        &mut self,
        may_broadcast: bool,
        node: &mut N,
    ) -> Result<Next, WireError>
        ensures handed_out { IfOk result (λ r. r ≢ next.Hold → self.new.deliveries.waiting ≡ []) }
    {
        self.tell(node);
        if !self.hand_out() {
            return Ok(Next::Hold);
        }
        let has_more = may_broadcast && self.broadcast_some(node)?;
        self.deliveries.fill(node.take_deliveries());
        if !self.hand_out() {
            return Ok(Next::Hold);
        }
        if has_more {
            return Ok(Next::Again);
        }
        if !self.has_ended() {
            return Ok(Next::Wait);
        }
        self.end_news(node);
        Ok(Next::End)
    }

    /// Hands out the news of the node, or ends them, where their port is dropped. As long as not all can be handed out,
    /// or if memory is refused, no more are taken: they wait in the node.
    fn tell<N: PortNode<A>>(&mut self, node: &mut N) {
        let Some(news) = &mut self.news else {
            return;
        };
        if news.is_abandoned() {
            self.end_news(node);
            return;
        }
        if news.send()
            && let Ok(told) = node.take_news()
        {
            news.fill(told);
            news.send();
        }
    }

    /// Has the node tell no more, if a port had news, and drops those that wait in it.
    fn end_news<N: PortNode<A>>(&mut self, node: &mut N)
        ensures { self.new.deliveries ≡ self.old.deliveries }
    {
        if self.news.take().is_some() {
            node.tell_news(false);
            let _ = node.take_news();
        }
    }

    /// Hands out the deliveries that wait. Returns whether none wait any more: there was room for all, or the port is
    /// dropped, and they with it.
    fn hand_out(&mut self) -> bool
        ensures { result ≡ true → self.new.deliveries.waiting ≡ [] }
    {
        if self.deliveries.is_abandoned() {
            self.deliveries.clear();
            return true;
        }
        self.deliveries.send()
    }

    /// Broadcasts messages that were handed in. Returns whether more may wait.
    fn broadcast_some<N: PortNode<A>>(&mut self, node: &mut N) -> Result<bool, WireError>
        ensures { self.new.deliveries ≡ self.old.deliveries }
    {
        let mut left = TURN;
        for _ in 0..BROADCASTS {
            if left == 0 {
                return Ok(true);
            }
            let Some(count) = self.broadcast_next(node)? else {
                return Ok(false);
            };
            left = left.saturating_sub(count);
        }
        Ok(true)
    }

    /// Broadcasts the next message that was handed in, and returns how many bytes it has. `None`: none waits, or memory
    /// is refused. A message that was not broadcast is the next once more.
    fn broadcast_next<N: PortNode<A>>(&mut self, node: &mut N) -> Result<Option<usize>, WireError>
        ensures taken { IfOk result (λ r. IfSome r (λ count. (payload : List ℕ) × (count ≡ length payload)
            × (received self.new.broadcasts ≡ received self.old.broadcasts ++ payload ∷ []))) }
        ensures left { IfOk result (λ r. IfNone r (received self.new.broadcasts ≡ received self.old.broadcasts)) }
        ensures err { OnErr result (received self.new.broadcasts ≡ received self.old.broadcasts) }
        ensures deliveries { self.new.deliveries ≡ self.old.deliveries }
    {
        if self.broadcasts.is_empty() {
            return Ok(None);
        }
        let payload = self.broadcasts.peek_known();
        let count = payload.len();
        match node.broadcast(payload) {
            Ok(()) => {}
            Err(WireError::OutOfMemory) => return Ok(None),
            Err(error) => return Err(error),
        }
        drop(self.broadcasts.pop_known());
        Ok(Some(count))
    }

    /// Whether the port is dropped, and all was broadcast that it handed in.
    fn has_ended(&mut self) -> bool
        ensures { self.new.deliveries ≡ self.old.deliveries }
    {
        self.broadcasts.is_abandoned() && self.broadcasts.is_empty()
    }
}
