//! The deliveries that a node handed out.
use crate::tests::node::LOOKS;
use node_threads::Handed;
use protocol::Delivery;
use std::alloc::{AllocError, Global};
use std::sync::{Arc, Mutex, Wait};
use std::thread;
use std::time::{Clock, Duration};

/// The deliveries that a node handed out, in order.
#[derive(Drop)]
pub(crate) struct Inbox {
    given: Mutex<Vec<Delivery>>,
}

impl Inbox {
    /// Makes an inbox without deliveries.
    fn new(alloc: Global) -> Inbox {
        Inbox {
            given: Mutex::new(Vec::new(alloc)),
        }
    }

    /// Makes an inbox without deliveries that several threads can hold.
    pub(crate) fn shared(alloc: Global) -> Result<Arc<Inbox, Global>, AllocError> {
        Ok(Arc::new(alloc, Inbox::new(alloc))?)
    }

    /// Appends deliveries.
    fn put<R: Wait>(&self, rt: &R, mut batch: Vec<Delivery>) -> Result<(), AllocError> {
        self.given.lock(rt).append(&mut batch)?;
        Ok(())
    }

    /// Waits until there are at least `count` deliveries. Returns whether there are.
    pub(crate) fn wait_for<R: Wait + Clock>(&self, rt: &R, count: usize) -> bool {
        for _ in 0..LOOKS {
            if self.given.lock(rt).len() >= count {
                return true;
            }
            thread::sleep(rt, Duration::from_millis(5));
        }
        false
    }

    /// Whether the inbox has exactly these deliveries, in this order.
    pub(crate) fn has<R: Wait>(&self, rt: &R, wanted: &[&Delivery]) -> bool {
        let given = self.given.lock(rt);
        given.len() == wanted.len()
            && given.iter().zip(wanted).all(|(one, other)| one.id == other.id
                && one.payload == other.payload)
    }
}

/// Puts what a node hands out into an inbox.
#[derive(Drop)]
pub(crate) struct ToInbox<R: Wait + Drop> {
    rt: R,
    inbox: Arc<Inbox, Global>,
}

impl<R: Wait + Drop> ToInbox<R> {
    /// Makes a sink that puts deliveries into this inbox.
    pub(crate) fn new(rt: R, inbox: Arc<Inbox, Global>) -> ToInbox<R> {
        ToInbox { rt, inbox }
    }
}

impl<R: Wait + Drop> Handed<Vec<Delivery>> for ToInbox<R> {
    fn take(&mut self, batch: Vec<Delivery>) {
        // Without memory the batch is lost, and the test then finds that it is missing.
        let _ = self.inbox.put(&self.rt, batch);
    }
}
