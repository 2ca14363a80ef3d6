//! Links that a node opens by itself to names that its steps sent to.
ghost use Rattle.std.specs.Prelude.{◌≡◌, ◌≤◌, ◌<◌, [], true, false, not, OnOk, OnErr, length, vec_len, vec_capacity};
ghost use Rattle.node_names.specs.Same.{has_name, same_name};
ghost use Rattle.indexmap.specs.IndexSet.{spare};
ghost use Rattle.node_threads.specs.Applying.{with_name};
ghost use Rattle.node_threads.specs.Cell.{IsPlace};
ghost use Rattle.node_threads.specs.Learning.{Opens, OpensOne};
ghost use Rattle.node_threads.specs.Opened.{others};

use crate::cell::NodeCell;
use crate::cell::opening::put_last;
use crate::cell::outlet::Outlet;
use crate::cores::NodeCore;
use node_names::{NameSet, NodeName};
use std::alloc::{AllocError, Allocator, Global};
use std::marker::Model;
use std::mem;

/// The names that have an outlet somewhere, and the outlets of links that the node opened by itself and that were not
/// taken yet.
///
/// A step that sends to a name without an open link may open one, unless the name is held: its outlet is then with
/// someone who opens the link again where needed, and a second writer of the name would close the link of the first.
///
/// The link is opened as of this step, before anyone knows whether the name has an address. Were that asked first, the
/// frames of the step would have to wait elsewhere, and what came out of the link would not be how its text begins.
#[derive(Drop)]
pub struct Learnt<A: Allocator = Global> {
    ring: usize,
    most: usize,
    names: NameSet<A>,
    outlets: Vec<Outlet<A>, A>,
}

impl<A: Allocator> Model for Learnt<A> {
    ghost use Rattle.node_threads.specs.Learning.{Learnt};

    ghost Value = { Learnt };

    ghost view = { λ l. record { ring = l.ring; most = l.most; names = l.names.keys; outlets = l.outlets.items } };
}

impl<A: Allocator + Copy> Learnt<A> {
    /// Holds no name and opens no link.
    pub fn new(alloc: A) -> Learnt<A>
        ensures { result ≡ record { ring = 0; most = 0; names = []; outlets = [] } }
    {
        Learnt {
            ring: 0,
            most: 0,
            names: NameSet::new(alloc),
            outlets: Vec::new(alloc),
        }
    }

    /// From now on links are opened while fewer than `most` names are held. Their rings have room for `ring` frames.
    pub fn allow(&mut self, ring: usize, most: usize)
        ensures { self.new ≡ record self.old { ring = ring; most = most } }
    {
        self.ring = ring;
        self.most = most;
    }

    /// Whether the name is held: no link to it is opened.
    pub fn holds(&self, name: &NodeName) -> bool
        ensures { result ≡ has_name self.now.names name.now }
    {
        self.names.contains(name)
    }

    /// Holds the name, whose outlet is elsewhere.
    pub fn hold(&mut self, name: NodeName) -> Result<(), AllocError>
        ensures ok { OnOk result (self.new ≡ record self.old { names = with_name self.old.names name }) }
        ensures err { OnErr result (self.new ≡ self.old) }
    {
        if self.names.contains(&name) {
            return Ok(());
        }
        self.names.reserve(1)?;
        put_last(&mut self.names, name);
        Ok(())
    }

    /// Holds the name no longer.
    pub fn release(&mut self, name: &NodeName)
        ensures { self.new ≡ record self.old { names = others name.now self.old.names } }
    {
        remove(&mut self.names, name);
    }

    /// Takes the outlets of the links that were opened since the last call. Their names stay held.
    pub fn take_outlets(&mut self) -> Vec<Outlet<A>, A>
        ensures taken { result.items ≡ self.old.outlets }
        ensures left { self.new ≡ record self.old { outlets = [] } }
    {
        let alloc = *self.outlets.allocator();
        mem::replace(&mut self.outlets, Vec::new(alloc))
    }

    /// Opens a link to the name whose text begins when the node had made `since` steps. Returns whether it did.
    ///
    /// If the name is held, if as many names are held as may be, if memory is refused, or if what the link begins with
    /// does not fit its ring, nothing changes.
    fn open_one<C: NodeCore<A> + Drop>(
        &mut self,
        cell: &mut NodeCell<C, A>,
        since: usize,
        name: NodeName,
    ) -> bool
        requires { IsPlace cell.old since }
        ensures opened { result ≡ true → OpensOne since cell.old self.old name cell.new self.new }
        ensures left { result ≡ false → (cell.new ≡ cell.old) × (self.new ≡ self.old) }
    {
        if self.names.len() >= self.most || self.names.contains(&name) {
            return false;
        }
        if reserve_one(&mut self.names, &mut self.outlets).is_err() {
            return false;
        }
        let Some(outlet) = cell.open_fitting(name, self.ring, since) else {
            return false;
        };
        self.outlets.push(outlet).unwrap();
        put_last(&mut self.names, name);
        true
    }
}

/// Removes the name from the names.
fn remove<A: Allocator>(names: &mut NameSet<A>, name: &NodeName)
    ensures { names.new.keys ≡ others name.now names.old.keys }
{
    names.retain(
        |other: &NodeName| -> bool
            ensures { result ≡ not (same_name name.entry.now other.now) }
        { name != other },
    );
}

/// Makes room for one more name and one more outlet.
fn reserve_one<A: Allocator>(
    names: &mut NameSet<A>,
    outlets: &mut Vec<Outlet<A>, A>,
) -> Result<(), AllocError>
    ensures names { names.new.keys ≡ names.old.keys }
    ensures outlets { outlets.new.items ≡ outlets.old.items }
    ensures name { OnOk result (0 < spare names.new) }
    ensures outlet { OnOk result (vec_len outlets.new < vec_capacity outlets.new) }
{
    names.reserve(1)?;
    outlets.reserve(1)?;
    Ok(())
}

/// Opens links to the receivers without a link of the step at this place, in order, each from that step on. Returns
/// those that got no link, in order. They stay in the vector that came in, so keeping them needs no memory.
pub(crate) fn open_unlinked<C: NodeCore<A> + Drop, A: Allocator + Copy>(
    cell: &mut NodeCell<C, A>,
    learnt: &mut Learnt<A>,
    place: usize,
    mut unlinked: Vec<NodeName, A>,
) -> Vec<NodeName, A>
    requires { IsPlace cell.old place }
    ensures opens { Opens place cell.old learnt.old unlinked.items cell.new learnt.new result.items }
    ensures none { learnt.old.most ≡ 0
        → (cell.new ≡ cell.old) × (learnt.new ≡ learnt.old) × (result.items ≡ unlinked.items) }
{
    let mut left = 0;
    for at in 0..unlinked.len() {
        let name = unlinked[at];
        if learnt.open_one(cell, place, name) {
            continue;
        }
        unlinked[left] = name;
        left += 1;
    }
    unlinked.truncate(left);
    unlinked
}
