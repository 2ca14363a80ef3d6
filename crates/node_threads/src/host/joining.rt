//! Workers that have ended are joined before the node is closed.
ghost use Rattle.std.specs.Prelude.{◌≡◌, ◌<◌, IfSome, Some, length, vec_capacity, vec_len};

use crate::cell::outlet::Outlet;
use crate::cores::NodeCore;
use crate::error::HostError;
use crate::host::Host;
use crate::host::worker::{Outlets, Worker};
use std::alloc::Allocator;
use std::thread::Threads;

/// Appends an item, for which there is room.
pub(crate) fn put<T: Drop, A: Allocator>(list: &mut Vec<T, A>, item: T)
    requires { vec_len list.old < vec_capacity list.old }
{
    list.push(item).unwrap();
}

/// The place of the first worker that has ended, if there is one.
fn first_ended<A: Allocator>(workers: &[Worker<A>]) -> Option<usize>
    ensures { IfSome result (λ place. place < length workers.now) }
{
    workers.iter().position(|worker| worker.has_ended())
}

/// Joins a worker. Appends its last outlet to `outlets` and those before to `left`; both have room.
fn join<R: Threads, A: Allocator>(
    rt: &R,
    worker: Worker<A>,
    left: &mut Vec<Outlets<A>, A>,
    outlets: &mut Vec<Outlet<A>, A>,
)
    requires left { vec_len left.old < vec_capacity left.old }
    requires outlets { vec_len outlets.old < vec_capacity outlets.old }
{
    let Outlets { spent, last } = worker.join(rt);
    if !spent.is_empty() {
        put(left, Outlets { spent, last: None });
    }
    if let Some(outlet) = last {
        put(outlets, outlet);
    }
}

impl<C: NodeCore<A> + Drop, A: Allocator + Copy> Host<C, A> {
    /// Joins the workers of a list that have ended, takes them out of it, and appends the last outlets of the writers
    /// among them to `outlets`: these can be given to `write_link` again, or to `rest` for the close. The outlets that
    /// a writer had before its last are kept for the close.
    ///
    /// `OutOfMemory`: the workers that were not joined are still in the list.
    pub fn join_ended<R: Threads>(
        &mut self,
        rt: &R,
        workers: &mut Vec<Worker<A>, A>,
        outlets: &mut Vec<Outlet<A>, A>,
    ) -> Result<(), HostError> {
        for _ in 0..workers.len() {
            let Some(place) = first_ended(workers.as_slice()) else {
                return Ok(());
            };
            self.left.reserve(1)?;
            outlets.reserve(1)?;
            join(rt, workers.swap_remove(place), &mut self.left, outlets);
            self.shared.discount_worker();
        }
        Ok(())
    }

    /// Makes a worker without a thread that has this outlet, for the close.
    pub fn rest(&self, outlet: Outlet<A>) -> Worker<A>
        ensures { result ≡ Some outlet.peer }
    {
        self.employ(Worker::ended(self.shared.alloc, outlet))
    }
}
