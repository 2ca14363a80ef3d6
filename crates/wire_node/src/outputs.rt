//! What a node of bytes has for its driver: bytes by the name that they go to, deliveries, news, and names that are
//! down.
ghost use Rattle.std.specs.Prelude.{◌≡◌, ◌<◌, ◌++◌, ◌∷◌, ℕ, List, [], IfOk, OnErr, OnOk, drop, length, nat_lt};
ghost use Rattle.std.specs.Prelude.{if◌then◌else◌};
ghost use Rattle.bytes.specs.Unread.{concat_slices};
ghost use Rattle.node_names.specs.NodeName.{Name};
ghost use Rattle.node_names.specs.Same.{has_name, same_name};
ghost use Rattle.std.specs.List.{IsDistinct};
ghost use Rattle.wire_node.specs.Acting.{AreSettled};
ghost use Rattle.wire_node.specs.Waiting.{AreApart, receivers_of, settled_for};

use crate::drafts::{Entry, place_of};
use crate::engine::Engine;
use crate::idle::drop_idle;
use crate::node::{NAMES, WireNode};
use crate::step::Record;
use node_core::News;
use node_names::{Listed, NameSet, NodeName};
use protocol::{Core, Delivery};
use std::alloc::{AllocError, Allocator};
use std::mem;

/// Appends the name if bytes wait for it.
fn add_receiver<A: Allocator + Copy>(
    names: &mut Vec<NodeName, A>,
    entry: &Entry<A>,
) -> Result<(), AllocError>
    ensures { OnOk result (names.new.items ≡ names.old.items ++ receivers_of (entry.now ∷ [])) }
{
    if entry.len() > 0 {
        names.push(entry.name())?;
    }
    Ok(())
}

/// The names for whom bytes wait.
fn receivers_of<A: Allocator + Copy>(
    alloc: A,
    entries: &[Entry<A>],
) -> Result<Vec<NodeName, A>, AllocError>
    requires { AreApart entries.now }
    ensures names { IfOk result (λ names. names.items ≡ receivers_of entries.now) }
    ensures once { IfOk result (λ names. IsDistinct same_name names.items) }
    ensures all { IfOk result (λ names. (name : Name)
        → has_name names.items name ≡ nat_lt 0 (length (settled_for entries.now name))) }
{
    let mut names = Vec::new(alloc);
    for entry in entries {
        add_receiver(&mut names, entry)?;
    }
    Ok(names)
}

/// The first of the bytes that wait for the name, in up to four slices.
fn front_of<'a, A: Allocator + Copy>(
    entries: &'a Vec<Entry<A>, A>,
    name: &NodeName,
) -> [&'a [u8]; 4]
    requires { AreSettled entries.now.items }
    ensures front { (rest : List ℕ) × (concat_slices result ++ rest ≡ settled_for entries.now.items name.now) }
    ensures some { 0 < length (settled_for entries.now.items name.now) → 0 < length (concat_slices result) }
{
    match place_of(entries, name) {
        Some(place) => entries[place].slices(),
        None => [&[], &[], &[], &[]],
    }
}

/// Takes the first `count` of the bytes that wait for the name: they went out. Where fewer wait, takes all.
fn take_front<A: Allocator + Copy>(entries: &mut Vec<Entry<A>, A>, name: &NodeName, count: usize)
    requires { AreSettled entries.old.items }
    ensures settled { AreSettled entries.new.items }
    ensures gone { (other : Name)
        → settled_for entries.new.items other
        ≡ (if same_name other name.now
        then drop count (settled_for entries.old.items other)
        else settled_for entries.old.items other) }
{
    let Some(place) = place_of(entries, name) else {
        return;
    };
    let taken = count.min(entries[place].len());
    entries[place].advance(taken);
}

/// Takes the first `count` of the bytes that wait for the name. Where there are more than `names` entries, drops those
/// of names for whom nothing waits and that are no peers. Returns how many there may be before that is done next.
fn take_and_sweep<A: Allocator + Copy>(
    entries: &mut Vec<Entry<A>, A>,
    peers: &NameSet<A>,
    name: &NodeName,
    count: usize,
    names: usize,
) -> usize
    requires { AreSettled entries.old.items }
    ensures settled { AreSettled entries.new.items }
    ensures gone { (other : Name)
        → settled_for entries.new.items other
        ≡ (if same_name other name.now
        then drop count (settled_for entries.old.items other)
        else settled_for entries.old.items other) }
{
    take_front(entries, name, count);
    if entries.len() <= names {
        return names;
    }
    drop_idle(entries, peers);
    entries.len().saturating_mul(2).max(NAMES)
}

impl<A: Allocator + Copy, R: Record<A> + Drop> Engine<A, R> {
    /// The names for whom bytes wait, in no order that is promised.
    pub(crate) fn receivers(&self) -> Result<Vec<NodeName, A>, AllocError>
        ensures names { IfOk result (λ names. names.items ≡ receivers_of self.now.machine.waiting) }
        ensures once { IfOk result (λ names. IsDistinct same_name names.items) }
        ensures all { IfOk result (λ names. (name : Name)
            → has_name names.items name ≡ nat_lt 0 (length (settled_for self.now.machine.waiting name))) }
    {
        receivers_of(self.alloc(), &self.entries)
    }

    /// The first of the bytes that wait for the name, in up to four slices. Where any wait, the first two slices are
    /// not both empty.
    pub(crate) fn transmit(&self, name: &NodeName) -> [&[u8]; 4]
        ensures front { (rest : List ℕ)
            × (concat_slices result ++ rest ≡ settled_for self.now.machine.waiting name.now) }
        ensures some { 0 < length (settled_for self.now.machine.waiting name.now) → 0 < length (concat_slices result) }
    {
        front_of(&self.entries, name)
    }

    /// Takes the first `count` of the bytes that wait for the name. Where fewer wait, takes all.
    pub(crate) fn transmitted(&mut self, name: &NodeName, count: usize)
        ensures rest { self.new
            ≡ record self.old { machine = record self.old.machine { waiting = self.new.machine.waiting } } }
        ensures gone { (other : Name)
            → settled_for self.new.machine.waiting other
            ≡ (if same_name other name.now
            then drop count (settled_for self.old.machine.waiting other)
            else settled_for self.old.machine.waiting other) }
    {
        self.names = take_and_sweep(
            &mut self.entries,
            self.core.active(),
            name,
            count,
            self.names,
        );
    }

    /// Takes the deliveries that were not taken yet.
    pub(crate) fn take_deliveries(&mut self) -> Vec<Delivery<A>, A>
        ensures given { result.items ≡ self.old.machine.pending }
        ensures rest { self.new ≡ record self.old { machine = record self.old.machine { pending = [] } } }
    {
        let alloc = self.alloc();
        mem::replace(&mut self.pending, Listed::new(alloc)).into_vec()
    }

    /// Has the next steps be told of, or not.
    pub(crate) fn tell_news(&mut self, tells: bool)
        ensures { self.new ≡ record self.old { machine = record self.old.machine { tells = tells } } }
    {
        self.telling.set_tells(tells);
    }

    /// Takes the news that were not taken yet. If memory is refused, nothing changes.
    pub(crate) fn take_news(&mut self) -> Result<Vec<News, A>, AllocError>
        ensures given { IfOk result (λ news. news.items ≡ self.old.machine.news) }
        ensures rest { OnOk result (self.new ≡ record self.old { machine = record self.old.machine { news = [] } }) }
        ensures err { OnErr result (self.new ≡ self.old) }
    {
        self.telling.settle(self.core.active())?;
        Ok(self.telling.take())
    }

    /// Takes the names for whom bytes were dropped.
    pub(crate) fn take_lost(&mut self) -> Vec<NodeName, A>
        ensures given { result.items ≡ self.old.lost }
        ensures rest { self.new ≡ record self.old { lost = [] } }
    {
        let alloc = self.alloc();
        mem::replace(&mut self.lost, Listed::new(alloc)).into_vec()
    }
}

impl<A: Allocator + Copy, R: Record<A> + Drop> WireNode<A, R> {
    /// The names for whom bytes wait, each once.
    pub fn receivers(&self) -> Result<Vec<NodeName, A>, AllocError>
        ensures names { IfOk result (λ names. names.items ≡ receivers_of self.now.engine.machine.waiting) }
        ensures once { IfOk result (λ names. IsDistinct same_name names.items) }
        ensures all { IfOk result (λ names. (name : Name)
            → has_name names.items name ≡ nat_lt 0 (length (settled_for self.now.engine.machine.waiting name))) }
    {
        self.engine.receivers()
    }

    /// How many bytes wait for the name. Who broadcasts while much waits soon has more wait than may.
    pub fn waiting(&self, name: &NodeName) -> usize
        ensures { result ≡ length (settled_for self.now.engine.machine.waiting name.now) }
    {
        self.engine.waiting(name)
    }

    /// The first of the bytes that wait for the name, in up to four slices. Where any wait, the first two slices are
    /// not both empty. What of them went out is told by `transmitted`.
    pub fn transmit(&self, name: &NodeName) -> [&[u8]; 4]
        ensures front { (rest : List ℕ)
            × (concat_slices result ++ rest ≡ settled_for self.now.engine.machine.waiting name.now) }
        ensures some { 0 < length (settled_for self.now.engine.machine.waiting name.now)
            → 0 < length (concat_slices result) }
    {
        self.engine.transmit(name)
    }

    /// Takes the first `count` of the bytes that wait for the name: they went out. Where fewer wait, takes all.
    pub fn transmitted(&mut self, name: &NodeName, count: usize)
        ensures rest { self.new ≡ record self.old {
          engine = record self.old.engine {
            machine = record self.old.engine.machine { waiting = self.new.engine.machine.waiting };
          };
        } }
        ensures gone { (other : Name)
            → settled_for self.new.engine.machine.waiting other
            ≡ (if same_name other name.now
            then drop count (settled_for self.old.engine.machine.waiting other)
            else settled_for self.old.engine.machine.waiting other) }
    {
        self.engine.transmitted(name, count);
    }

    /// Returns the deliveries that were not taken yet, in order. This call takes them.
    pub fn take_deliveries(&mut self) -> Vec<Delivery<A>, A>
        ensures given { result.items ≡ self.old.engine.machine.pending }
        ensures rest { self.new ≡ record self.old {
          engine = record self.old.engine { machine = record self.old.engine.machine { pending = [] } };
        } }
    {
        self.engine.take_deliveries()
    }

    /// Has the next steps be told of: which names of the active view came and went. Where it is so, take the news now
    /// and then: they are kept until they are taken. A node that starts tells nothing. News that were not taken stay.
    pub fn tell_news(&mut self, tells: bool)
        ensures { self.new ≡ record self.old {
          engine = record self.old.engine { machine = record self.old.engine.machine { tells = tells } };
        } }
    {
        self.engine.tell_news(tells);
    }

    /// Returns the news that were not taken yet, each once and in order. This call takes them, unless memory is
    /// refused: then nothing changes.
    pub fn take_news(&mut self) -> Result<Vec<News, A>, AllocError>
        ensures given { IfOk result (λ news. news.items ≡ self.old.engine.machine.news) }
        ensures rest { OnOk result (self.new ≡ record self.old {
          engine = record self.old.engine { machine = record self.old.engine.machine { news = [] } };
        }) }
        ensures err { OnErr result (self.new ≡ self.old) }
    {
        self.engine.take_news()
    }

    /// Returns the names for whom bytes were dropped since the last call, in order: what leads to them is to be closed
    /// before anything more is sent there.
    pub fn take_lost(&mut self) -> Vec<NodeName, A>
        ensures given { result.items ≡ self.old.engine.lost }
        ensures rest { self.new ≡ record self.old { engine = record self.old.engine { lost = [] } } }
    {
        self.engine.take_lost()
    }
}
