//! The drafts of a step: its frames, as bytes behind what waits for the names that they go to.
ghost use Rattle.std.specs.Prelude.{◌≡◌, ◌++◌, ◌<◌, ◌≤◌, [], ℕ, List, length, map, take, All, position, false, drop};
ghost use Rattle.std.specs.Prelude.{IsNone, OnOk, OnErr};
ghost use Rattle.bytes.specs.Unread.{concat_slices};
ghost use Rattle.node_names.specs.Same.{same_name};
ghost use Rattle.wire_node.specs.Waiting.{KeepsSettled, all_drafted, drafted, settled, spelling, undrafted, with_draft};

use crate::heads::head_of;
use crate::outgoing::Outgoing;
use bytes::Bytes;
use frames::{BodyOf, Frame, encode};
use node_names::NodeName;
use std::alloc::{AllocError, Allocator};
use std::marker::Model;

/// A payload of so many bytes or more is shared with the message, and not copied for each receiver.
const SHARED_FROM: usize = 4_096;

/// Appends the bytes of a head and of the payload behind it. If memory runs out, the head may have been appended.
fn push_long<A: Allocator + Copy>(
    head: &[u8],
    payload: &Bytes<A>,
    out: &mut Outgoing<A>,
) -> Result<(), AllocError>
    ensures ok { OnOk result (out.new ≡ out.old ++ (head.now ++ payload.now)) }
    ensures err { OnErr result (take (length out.old) out.new ≡ out.old) }
{
    let shared = payload.clone()?;
    out.push_copy(head)?;
    out.push_shared(shared)
}

/// Appends the bytes of the frame. If memory runs out, a part of them may have been appended.
#[tactic(auto, unfolding(crate::specs::Waiting::spelling))]
fn spell_short<A: Allocator + Copy>(
    alloc: A,
    frame: &Frame<A>,
    out: &mut Outgoing<A>,
) -> Result<(), AllocError>
    ensures ok { OnOk result (out.new ≡ out.old ++ spelling frame.now) }
    ensures err { OnErr result (out.new ≡ out.old) }
{
    let bytes = encode(alloc, frame)?;
    out.push_copy(bytes.as_slice())
}

/// Appends the bytes of the frame. If memory runs out, a part of them may have been appended.
pub(crate) fn spell<A: Allocator + Copy>(
    alloc: A,
    frame: &Frame<A>,
    out: &mut Outgoing<A>,
) -> Result<(), AllocError>
    ensures ok { OnOk result (out.new ≡ out.old ++ spelling frame.now) }
    ensures err { OnErr result (take (length out.old) out.new ≡ out.old) }
{
    if let BodyOf::Gossip { id, round, payload } = frame.body() {
        let len = payload.len();
        if len >= SHARED_FROM {
            let head = head_of(alloc, frame.sender(), frame.number(), *id, *round, len)?;
            return push_long(head.as_slice(), payload, out);
        }
    }
    spell_short(alloc, frame, out)
}

/// What waits for one name, and behind it the drafts of a step.
#[derive(Drop)]
pub(crate) struct Entry<A: Allocator> {
    name: NodeName,
    bytes: Outgoing<A>,
    /// How many of the bytes wait. The others are drafts.
    kept: usize,
}

impl<A: Allocator> Model for Entry<A> {
    ghost use Rattle.std.specs.Prelude.{◌≤◌, drop, length, take};
    ghost use Rattle.wire_node.specs.Waiting.{Waiting};

    ghost Value = { Waiting };

    ghost view = { λ e. record { name = e.name; settled = take e.kept e.bytes; drafted = drop e.kept e.bytes } };

    ghost invariant = { λ e. e.kept ≤ length e.bytes };
}

impl<A: Allocator + Copy> Entry<A> {
    /// Makes an entry for whom nothing waits.
    pub(crate) fn new(alloc: A, name: NodeName) -> Entry<A>
        ensures { result ≡ record { name = name; settled = []; drafted = [] } }
    {
        Entry {
            name,
            bytes: Outgoing::new(alloc),
            kept: 0,
        }
    }

    /// The name for whom it waits.
    pub(crate) fn name(&self) -> NodeName
        ensures { result ≡ self.now.name }
    {
        self.name
    }

    /// How many bytes wait.
    pub(crate) fn len(&self) -> usize
        ensures { result ≡ length self.now.settled }
    {
        self.kept
    }

    /// Drafts the frame. If memory runs out, a part of it may be drafted.
    pub(crate) fn draft(&mut self, alloc: A, frame: &Frame<A>) -> Result<(), AllocError>
        ensures ok { OnOk result (self.new ≡ with_draft self.old (spelling frame.now)) }
        ensures err { OnErr result (undrafted self.new ≡ undrafted self.old) }
    {
        spell(alloc, frame, &mut self.bytes)
    }

    /// Has what is drafted wait.
    pub(crate) fn settle(&mut self)
        ensures { self.new ≡ settled self.old }
    {
        self.kept = self.bytes.len();
    }

    /// Drops the first `count` of the bytes that wait: they went out.
    pub(crate) fn advance(&mut self, count: usize)
        requires { count ≤ length self.old.settled }
        ensures { self.new
            ≡ record { name = self.old.name; settled = drop count self.old.settled; drafted = self.old.drafted } }
    {
        self.bytes.advance(count);
        self.kept -= count;
    }

    /// The first of the bytes, in up to four slices. Where any wait, the first two slices are not both empty.
    pub(crate) fn slices(&self) -> [&[u8]; 4]
        ensures front { (rest : List ℕ) × (concat_slices result ++ rest ≡ self.now.settled ++ self.now.drafted) }
        ensures some { 0 < length self.now.settled → 0 < length (concat_slices result) }
    {
        self.bytes.slices()
    }

    /// Drops what is drafted.
    pub(crate) fn undraft(&mut self)
        ensures { self.new ≡ undrafted self.old }
    {
        self.bytes.truncate(self.kept);
    }
}

/// The place of what waits for the name.
pub(crate) fn place_of<A: Allocator + Copy>(entries: &[Entry<A>], name: &NodeName) -> Option<usize>
    ensures place { result ≡ position (λ waiting. same_name name.now waiting.name) entries.now }
    ensures none { IsNone result → All (λ waiting. same_name name.now waiting.name ≡ false) entries.now }
{
    entries.iter().position(|entry| *name == entry.name())
}

/// Drafts a frame for a name for whom nothing waited. If memory runs out, nothing changes.
fn draft_first<A: Allocator + Copy>(
    entries: &mut Vec<Entry<A>, A>,
    name: NodeName,
    frame: &Frame<A>,
) -> Result<(), AllocError>
    requires { All (λ waiting. same_name name waiting.name ≡ false) entries.old.items }
    ensures ok { OnOk result (entries.new.items ≡ drafted entries.old.items name (spelling frame.now)) }
    ensures err { OnErr result (entries.new.items ≡ entries.old.items) }
{
    let alloc = *entries.allocator();
    let mut entry = Entry::new(alloc, name);
    entry.draft(alloc, frame)?;
    entries.push(entry)?;
    Ok(())
}

/// Drafts a frame for the name. If memory runs out, a part of it may be drafted.
fn draft<A: Allocator + Copy>(
    entries: &mut Vec<Entry<A>, A>,
    name: NodeName,
    frame: &Frame<A>,
) -> Result<(), AllocError>
    ensures ok { OnOk result (entries.new.items ≡ drafted entries.old.items name (spelling frame.now)) }
    ensures err { OnErr result (KeepsSettled entries.old.items entries.new.items) }
{
    match place_of(entries, &name) {
        Some(place) => {
            let alloc = *entries.allocator();
            entries[place].draft(alloc, frame)
        }
        None => draft_first(entries, name, frame),
    }
}

/// Drafts the frames for their receivers. If memory runs out, some of them may be drafted.
#[tactic(auto, using(crate::proofs::Drafting::keeps_same))]
pub(crate) fn draft_all<A: Allocator + Copy>(
    entries: &mut Vec<Entry<A>, A>,
    sends: &[(NodeName, Frame<A>)],
) -> Result<(), AllocError>
    ensures ok { OnOk result (entries.new.items ≡ all_drafted entries.old.items sends.now) }
    ensures kept { KeepsSettled entries.old.items entries.new.items }
{
    for send in sends {
        draft(entries, send.0, &send.1)?;
    }
    Ok(())
}

/// Has all that is drafted wait.
pub(crate) fn settle_all<A: Allocator + Copy>(entries: &mut Vec<Entry<A>, A>)
    ensures { entries.new.items ≡ map settled entries.old.items }
{
    for place in 0..entries.len() {
        entries[place].settle();
    }
}

/// Drops all that is drafted, and the entries from this place on.
pub(crate) fn undraft_all<A: Allocator + Copy>(entries: &mut Vec<Entry<A>, A>, len: usize)
    ensures { entries.new.items ≡ map undrafted (take len entries.old.items) }
{
    entries.truncate(len);
    undraft_each(entries);
}

/// Drops all that is drafted.
fn undraft_each<A: Allocator + Copy>(entries: &mut Vec<Entry<A>, A>)
    ensures { entries.new.items ≡ map undrafted entries.old.items }
{
    for place in 0..entries.len() {
        entries[place].undraft();
    }
}
