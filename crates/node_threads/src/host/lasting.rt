//! A running node that lasts: it forgets steps that were compared, while it runs.
ghost use Rattle.std.specs.Prelude.{◌≡◌, IfSome};
ghost use Rattle.node_threads.specs.Forgetting.{CameOutOnce, MayGiveUp};

use crate::cell::NodeCell;
use crate::cell::outlet::Outlet;
use crate::cell::sealing::Sealed;
use crate::cores::NodeCore;
use crate::error::HostError;
use crate::host::Host;
use crate::host::shared::{Shared, with};
use std::alloc::Allocator;
use std::sync::Wait;
use std::sync::atomic::Ordering;

/// Hands out the steps since the last call, and the place up to which outlets are to be compared, if the node may
/// forget.
fn seal<C: NodeCore<A> + Drop, A: Allocator + Copy>(
    cell: &mut NodeCell<C, A>,
) -> Result<(Sealed<C, A>, usize), HostError> {
    let sealed = cell.seal()?;
    let wanted = if cell.since().is_some() {
        cell.sealed
    } else {
        0
    };
    Ok((sealed, wanted))
}

/// Forgets what was handed out. Returns how many steps that were, and the place up to which outlets are to be compared.
fn forget<C: NodeCore<A> + Drop, A: Allocator + Copy>(cell: &mut NodeCell<C, A>) -> (usize, usize) {
    let count = cell.forget_sealed();
    (count, cell.sealed)
}

/// Forgets what was handed out or sealed off, and then seals the other steps off. As long as outlets are behind, what
/// they are to reach stays: otherwise a link that is always busy would never reach it.
fn forget_made<C: NodeCore<A> + Drop, A: Allocator + Copy>(
    cell: &mut NodeCell<C, A>,
) -> Result<(usize, usize), HostError> {
    let count = cell.forget_sealed();
    if cell.sealed <= cell.lost() {
        cell.seal_off()?;
    }
    Ok((count, cell.sealed))
}

impl<C: NodeCore<A> + Drop, A: Allocator + Copy> Shared<C, A> {
    /// Lets the node forget steps from now on.
    fn forget_from_now<R: Wait>(&self, rt: &R) {
        let _ = with(rt, &self.kept, |kept| kept.cell.forget_from_now());
    }

    /// Asks the writers to have their outlets compared up to the place.
    fn ask<R: Wait>(&self, rt: &R, wanted: usize) {
        self.wanted.store(wanted, Ordering::SeqCst);
        self.wakeups.wake_writers(rt);
    }

    /// The place up to which outlets are to be compared.
    pub(crate) fn wanted(&self) -> usize {
        self.wanted.load(Ordering::SeqCst)
    }

    /// Hands out the steps since the last call, and asks for what `forget_sealed` needs then.
    pub(crate) fn seal<R: Wait>(&self, rt: &R) -> Result<Sealed<C, A>, HostError> {
        let sealed = with(rt, &self.kept, |kept| seal(&mut kept.cell));
        let (sealed, wanted) = sealed.unwrap_or(Err(HostError::Closed))?;
        if wanted > 0 {
            self.ask(rt, wanted);
        }
        Ok(sealed)
    }

    /// Forgets the steps that were handed out in segments, and asks for what the next call needs.
    fn forget_sealed<R: Wait>(&self, rt: &R) -> Result<usize, HostError> {
        let forgot = with(rt, &self.kept, |kept| forget(&mut kept.cell));
        let (count, wanted) = forgot.ok_or(HostError::Closed)?;
        self.ask(rt, wanted);
        Ok(count)
    }

    /// Forgets the steps before those that the last call found, and asks for what the next call needs.
    fn forget_made<R: Wait>(&self, rt: &R) -> Result<usize, HostError> {
        let forgot = with(rt, &self.kept, |kept| forget_made(&mut kept.cell));
        let (count, wanted) = forgot.unwrap_or(Err(HostError::Closed))?;
        self.ask(rt, wanted);
        Ok(count)
    }

    /// Up to which step all that the node sent over an outlet's link came out, and how many frames that were.
    fn came_out<R: Wait>(&self, rt: &R, outlet: &Outlet<A>) -> Option<(usize, usize)>
        ensures { IfSome result (λ r. CameOutOnce outlet.now r.0 r.1) }
    {
        with(rt, &self.kept, |kept| kept.cell.came_out(outlet))
    }

    /// Compares an outlet with the trace, and has it give up what is the same.
    pub(crate) fn compare<R: Wait>(&self, rt: &R, outlet: &mut Outlet<A>)
        ensures peer { outlet.new.peer ≡ outlet.old.peer }
        ensures sent { MayGiveUp outlet.old outlet.new }
    {
        if let Some((place, frames)) = self.came_out(rt, outlet) {
            outlet.give_up(place, frames);
        }
    }

    /// Whether an outlet of a link that was closed can go: the node may forget, and what came out is what it sent.
    pub(crate) fn lets_go<R: Wait>(&self, rt: &R, outlet: &Outlet<A>) -> bool {
        with(rt, &self.kept, |kept| lets_go(&kept.cell, outlet)).unwrap_or(false)
    }
}

/// Whether the node may forget, and what came out of the outlet is what it sent.
fn lets_go<C: NodeCore<A> + Drop, A: Allocator + Copy>(
    cell: &NodeCell<C, A>,
    outlet: &Outlet<A>,
) -> bool {
    cell.since().is_some() && matches!(cell.report(outlet), Ok(Some(_)))
}

impl<C: NodeCore<A> + Drop, A: Allocator + Copy> Host<C, A> {
    /// Lets the node forget steps from now on. Its ports may then forget their calls (`Port::forget`), an outlet whose
    /// link was closed goes once it was compared, and `close` speaks of what is left.
    ///
    /// Call it after the start, before a link ends: an outlet that was given up before holds its steps until the close.
    /// A trace that becomes full nevertheless ends the workers whose steps are refused, also if the node forgets later.
    pub fn forget_from_now<R: Wait>(&self, rt: &R) {
        self.shared.forget_from_now(rt);
    }

    /// Forgets the steps that `seal` handed out, if it may, and if all outlets were compared with them. Returns how
    /// many it forgot. Writers compare theirs within a moment after `seal`; the program has `compare` do so for an
    /// outlet that has no writer, those of `take_opened` among them. So call this before the next `seal`: after that
    /// the steps since are to be compared too.
    ///
    /// `Closed`: the node is closed.
    pub fn forget_sealed<R: Wait>(&self, rt: &R) -> Result<usize, HostError> {
        self.shared.forget_sealed(rt)
    }

    /// Like `forget_sealed`, for a node whose steps nobody takes by `seal`: it forgets the steps that were there when
    /// an earlier call last forgot some. Call it now and then.
    ///
    /// `OutOfMemory`: it may have forgotten some. `Closed`: the node is closed.
    pub fn forget_made<R: Wait>(&self, rt: &R) -> Result<usize, HostError> {
        self.shared.forget_made(rt)
    }

    /// Compares what came out of a link that has no writer with what the node sent, and has the outlet give up what is
    /// the same.
    pub fn compare<R: Wait>(&self, rt: &R, outlet: &mut Outlet<A>)
        ensures peer { outlet.new.peer ≡ outlet.old.peer }
        ensures sent { MayGiveUp outlet.old outlet.new }
    {
        self.shared.compare(rt, outlet);
    }
}
