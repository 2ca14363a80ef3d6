//! What the nodes of a group handed out.
use crate::since::since;
use node_threads::Handed;
use protocol::Delivery;
use std::alloc::{AllocError, Global};
use std::mem;
use std::sync::{Arc, Mutex, Wait};
use std::time::{Clock, Duration, Instant};

/// Deliveries, and when each was handed out, since the run began.
#[derive(Drop)]
pub struct Given {
    pub(crate) deliveries: Vec<Delivery>,
    pub(crate) times: Vec<Duration>,
    /// Whether some were lost because an allocation was refused.
    is_short: bool,
}

impl Given {
    /// Makes a list without deliveries.
    pub fn new(alloc: Global) -> Given {
        Given {
            deliveries: Vec::new(alloc),
            times: Vec::new(alloc),
            is_short: false,
        }
    }

    /// Appends deliveries that were handed out at this time.
    pub fn put(&mut self, batch: &mut Vec<Delivery>, at: Duration) -> Result<(), AllocError> {
        for _ in 0..batch.len() {
            self.times.push(at)?;
        }
        self.deliveries.append(batch)?;
        Ok(())
    }

    /// How many deliveries there are.
    pub fn len(&self) -> usize {
        self.deliveries.len()
    }
}

/// The deliveries of one node, which the thread that hands them out shares with the one that runs the group.
#[derive(Drop)]
pub(crate) struct Inbox {
    given: Mutex<Given>,
    alloc: Global,
}

impl Inbox {
    /// An inbox without deliveries.
    pub(crate) fn new(alloc: Global) -> Inbox {
        Inbox {
            given: Mutex::new(Given::new(alloc)),
            alloc,
        }
    }

    /// Appends deliveries.
    fn put<R: Wait>(&self, rt: &R, mut batch: Vec<Delivery>, at: Duration) {
        let mut given = self.given.lock(rt);
        if given.put(&mut batch, at).is_err() {
            given.is_short = true;
        }
    }

    /// How many deliveries there are.
    pub(crate) fn len<R: Wait>(&self, rt: &R) -> usize {
        self.given.lock(rt).len()
    }

    /// Takes the deliveries out. `AllocError`: there was no memory for some of them.
    pub(crate) fn take<R: Wait>(&self, rt: &R) -> Result<Given, AllocError> {
        let given = mem::replace(&mut *self.given.lock(rt), Given::new(self.alloc));
        if given.is_short {
            return Err(AllocError);
        }
        Ok(given)
    }
}

/// Puts what a node hands out into an inbox.
#[derive(Drop)]
pub(crate) struct ToInbox<R: Wait + Clock + Drop> {
    pub(crate) rt: R,
    /// When the run began, if the clock could be read.
    pub(crate) start: Option<Instant>,
    pub(crate) inbox: Arc<Inbox, Global>,
}

impl<R: Wait + Clock + Drop> Handed<Vec<Delivery>> for ToInbox<R> {
    fn take(&mut self, batch: Vec<Delivery>) {
        let at = since(&self.rt, &self.start);
        self.inbox.put(&self.rt, batch, at);
    }
}
