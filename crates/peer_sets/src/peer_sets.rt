//! Eager and lazy peers, and the announcements that wait for them.
ghost use Rattle.std.specs.Prelude.{◌≡◌, ◌↔◌, [], false, IsTrue, IfOk, OnOk, OnErr};
ghost use Rattle.std.specs.List.{IsDistinct};
ghost use Rattle.node_names.specs.Same.{same_name};
ghost use Rattle.peer_sets.specs.Members.{is_member, is_eager, IsSplit, all_eager};
ghost use Rattle.peer_sets.specs.Members.{with_member, without_member, with_kind, lazy_but};
ghost use Rattle.peer_sets.specs.Queue.{has_entry_of, with_entry, with_entries, without_entries, batches};
ghost use Rattle.peer_sets.specs.PeerSets.{IsSound, relinked};
ghost use Rattle.peer_sets.specs.declared.members.PeerKind.TheVariants.{Eager, Lazy};

use crate::members::{self, Member, PeerKind};
use crate::queue::{self, Announcement, Batch};
use node_names::{Listed, MsgId, NodeName};
use std::alloc::{AllocError, Allocator, Global};
use std::marker::Model;

/// The members of a node's tree, each eager or lazy, and the announcements that wait for them.
///
/// Members keep the order in which they came up. Announcements keep the order in which they were queued; there is at
/// most one for a member and an id.
#[derive(Drop)]
pub struct PeerSets<A: Allocator = Global> {
    members: Vec<Member, A>,
    queued: Vec<Announcement, A>,
}

impl<A: Allocator> Model for PeerSets<A> {
    ghost use Rattle.peer_sets.specs.PeerSets.{PeerSets, IsSound};

    ghost Value = { PeerSets };

    ghost view = { λ p. record { members = p.members.items; queued = p.queued.items } };

    ghost invariant = { λ p. IsSound (record { members = p.members.items; queued = p.queued.items }) };
}

impl<A: Allocator + Copy> PeerSets<A> {
    /// Creates sets whose members are the `peers`, which must be distinct. All are eager, and nothing is queued.
    pub fn new(alloc: A, peers: &[NodeName]) -> Result<Self, AllocError>
        requires { IsDistinct same_name peers.now }
        ensures { IfOk result (λ sets. sets ≡ record { members = all_eager peers.now; queued = [] }) }
    {
        Ok(PeerSets {
            members: members::all_eager(alloc, peers)?,
            queued: Vec::new(alloc),
        })
    }

    /// Adds `name` as an eager member. A name that is a member already keeps its kind.
    pub fn up(&mut self, name: &NodeName) -> Result<(), AllocError>
        ensures ok { OnOk result (self.new ≡ record self.old { members = with_member name.now self.old.members }) }
        ensures err { OnErr result (self.new ≡ self.old) }
    {
        members::add(&mut self.members, name)
    }

    /// Removes a member together with the announcements that wait for it. Does nothing if `name` is no member. Takes
    /// time linear in the members and the queue.
    pub fn down(&mut self, name: &NodeName)
        ensures { self.new ≡ record {
          members = without_member name.now self.old.members;
          queued = without_entries name.now self.old.queued;
        } }
    {
        members::remove(&mut self.members, name);
        queue::remove(&mut self.queued, name);
    }

    /// Removes the members `downs` together with the announcements that wait for them, and then adds each of `ups` as
    /// `up` does. If memory is refused, nothing changes. Copies the members, and passes over the queue once if `downs`
    /// is not empty.
    pub fn relink(&mut self, downs: &[NodeName], ups: &[NodeName]) -> Result<(), AllocError>
        ensures ok { OnOk result (self.new ≡ relinked downs.now ups.now self.old) }
        ensures err { OnErr result (self.new ≡ self.old) }
    {
        let mut members = Vec::from_slice(*self.queued.allocator(), &self.members)?;
        members::remove_all(&mut members, downs);
        members::add_all(&mut members, ups)?;
        self.members = members;
        queue::remove_all(&mut self.queued, downs);
        Ok(())
    }

    /// Makes a member eager. Returns whether `name` is a member; if it is not, nothing changes.
    pub fn make_eager(&mut self, name: &NodeName) -> bool
        ensures found { result ≡ is_member self.old.members name.now }
        ensures changed { self.new ≡ record self.old { members = with_kind name.now Eager self.old.members } }
    {
        let found = self.is_member(name);
        members::set_kind(&mut self.members, name, PeerKind::Eager);
        found
    }

    /// Makes a member lazy. Returns whether `name` is a member; if it is not, nothing changes.
    pub fn make_lazy(&mut self, name: &NodeName) -> bool
        ensures found { result ≡ is_member self.old.members name.now }
        ensures changed { self.new ≡ record self.old { members = with_kind name.now Lazy self.old.members } }
    {
        let found = self.is_member(name);
        members::set_kind(&mut self.members, name, PeerKind::Lazy);
        found
    }

    /// Queues an announcement of `id` for the member `peer`. Does nothing if one of the same id waits for it already.
    /// Searches the whole queue, which `queue_lazy` does not.
    pub fn queue(&mut self, peer: &NodeName, id: &MsgId, round: u32) -> Result<(), AllocError>
        requires { IsTrue (is_member self.old.members peer.now) }
        ensures ok { OnOk result
            (self.new ≡ record self.old { queued = with_entry peer.now id.now round self.old.queued }) }
        ensures err { OnErr result (self.new ≡ self.old) }
    {
        queue::queue(&mut self.queued, &(*peer, *id, round))
    }

    /// Queues an announcement of `id` for each lazy member except `left_out`. If memory is refused, nothing changes:
    /// calls for one member each could leave a half of them queued.
    ///
    /// No announcement of `id` may be waiting: an id is queued when it becomes known, and so only once.
    pub fn queue_lazy(
        &mut self,
        left_out: &Option<NodeName>,
        id: &MsgId,
        round: u32,
    ) -> Result<(), AllocError>
        requires { has_entry_of id.now self.old.queued ≡ false }
        ensures ok { OnOk result (self.new ≡ record self.old {
          queued = with_entries (lazy_but left_out.now self.old.members) id.now round self.old.queued;
        }) }
        ensures err { OnErr result (self.new ≡ self.old) }
    {
        queue::queue_lazy(&mut self.queued, &self.members, left_out, id, round)
    }

    /// Empties the queue and returns what waited, in one batch per member, ordered by the members' first announcements.
    /// If memory is refused, the queue stays as it is.
    pub fn flush(&mut self) -> Result<Listed<Batch<A>, A>, AllocError>
        ensures batches { IfOk result (λ all. all ≡ batches self.old.queued) }
        ensures ok { OnOk result (self.new ≡ record self.old { queued = [] }) }
        ensures err { OnErr result (self.new ≡ self.old) }
    {
        let batches = self.batches()?;
        self.clear_queue();
        Ok(batches)
    }

    /// Returns the batches that `flush` would return, and leaves the queue as it is.
    pub fn batches(&self) -> Result<Listed<Batch<A>, A>, AllocError>
        ensures { IfOk result (λ all. all ≡ batches self.now.queued) }
    {
        queue::batches(*self.queued.allocator(), &self.queued)
    }

    /// Drops all announcements that wait.
    pub fn clear_queue(&mut self)
        ensures { self.new ≡ record self.old { queued = [] } }
    {
        self.queued.clear();
    }

    /// Returns a copy of the members and of the queue.
    pub fn copy(&self) -> Result<Self, AllocError>
        ensures { IfOk result (λ copy. copy ≡ self.now) }
    {
        let alloc = *self.queued.allocator();
        Ok(PeerSets {
            members: Vec::from_slice(alloc, &self.members)?,
            queued: Vec::from_slice(alloc, &self.queued)?,
        })
    }
}

impl<A: Allocator> PeerSets<A> {
    /// Returns whether `name` is a member.
    pub fn is_member(&self, name: &NodeName) -> bool
        ensures { result ≡ is_member self.now.members name.now }
    {
        members::is_member(&self.members, name)
    }

    /// Returns whether `name` is an eager member.
    pub fn is_eager(&self, name: &NodeName) -> bool
        ensures { result ≡ is_eager self.now.members name.now }
    {
        members::is_eager(&self.members, name)
    }

    /// Returns the members in the order in which they came up, each with its kind.
    pub fn members(&self) -> &[Member]
        ensures members { result.now ≡ self.now.members }
        ensures split { IsSplit self.now.members }
    {
        self.members.as_slice()
    }

    /// Returns the announcements that wait, oldest first.
    pub fn queued(&self) -> &[Announcement]
        ensures queued { result.now ≡ self.now.queued }
        ensures sound { IsSound self.now }
    {
        self.queued.as_slice()
    }
}
