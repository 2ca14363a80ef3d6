//! The store of held messages.
ghost use Rattle.std.specs.Prelude.{◌≡◌, ◌*◌, ◌<◌, ◌≤◌, ◌++◌, ◌∷◌, [], None, drop, IfOk, OnOk};
ghost use Rattle.std.specs.List.{IsDistinct};
ghost use Rattle.std.specs.Map.{keys_of, lookup};
ghost use Rattle.std.specs.Option.{option_copied};
ghost use Rattle.indexmap.specs.IndexMap.{index_map_len, spare, IsUnique};
ghost use Rattle.node_names.specs.Same.{same_id};
ghost use Rattle.known_messages.specs.Held.{kept_last};

use bytes::Bytes;
use indexmap::IndexMap;
use node_names::MsgId;
use std::alloc::{AllocError, Allocator, Global};
use std::hash::{BuildHasherDefault, FoldHasher};
use std::marker::Model;

/// Messages in order of delivery, including forgotten ones at the front.
type Delivered<A> = IndexMap<MsgId, Bytes<A>, BuildHasherDefault<FoldHasher>, A>;

/// The payloads of the held messages, by message id and in order of delivery.
///
/// Messages are forgotten at the front. A forgotten message stays in memory until the forgotten ones outnumber the held
/// ones, and then all forgotten ones are dropped at once. So forgetting moves each message at most once on average, and
/// at most twice as many messages as are held are in memory. A queue, which would drop each at once, could not show the
/// held ids as one slice.
#[derive(Drop)]
pub struct MessageStore<A: Allocator = Global> {
    /// The held messages, preceded by the forgotten ones.
    messages: Delivered<A>,
    /// The number of forgotten messages at the front.
    gone: usize,
}

impl<A: Allocator> Model for MessageStore<A> {
    ghost use Rattle.std.specs.Prelude.{◌*◌, ◌≤◌, drop};
    ghost use Rattle.indexmap.specs.IndexMap.{IsUnique, index_map_len, spare};
    ghost use Rattle.node_names.specs.Same.{same_id};
    ghost use Rattle.known_messages.specs.Held.{Held};

    ghost Value = { Held };

    ghost view = { λ s. record { messages = drop s.gone s.messages.entries; room = spare s.messages } };

    ghost invariant = { λ s. IsUnique same_id s.messages × (2 * s.gone ≤ index_map_len s.messages) };
}

/// Drops the first `gone` messages. Moves all others, and does not allocate.
fn drop_front<A: Allocator>(messages: &mut Delivered<A>, gone: usize)
    requires { gone ≤ index_map_len messages.old }
    ensures messages { messages.new.entries ≡ drop gone messages.old.entries }
    ensures unique { IsUnique same_id messages.new }
    ensures room { spare messages.old ≤ spare messages.new }
{
    messages.drain(..gone);
}

/// Drops the `gone` forgotten messages at the front if `id` is among them, since inserting an id that is present keeps
/// its old place. Returns how many forgotten messages are left at the front: 0 or `gone`.
fn free_place<A: Allocator>(messages: &mut Delivered<A>, gone: usize, id: &MsgId) -> usize
    requires front { 2 * gone ≤ index_map_len messages.old }
    requires absent { lookup (same_id id.now) (drop gone messages.old.entries) ≡ None }
    ensures messages { drop result messages.new.entries ≡ drop gone messages.old.entries }
    ensures front { 2 * result ≤ index_map_len messages.new }
    ensures absent { lookup (same_id id.now) messages.new.entries ≡ None }
    ensures room { spare messages.old ≤ spare messages.new }
{
    if gone != 0 && messages.contains_key(id) {
        drop_front(messages, gone);
        0
    } else {
        gone
    }
}

impl<A: Allocator + Copy> MessageStore<A> {
    /// Creates a store that holds nothing. Does not allocate.
    pub fn new(alloc: A) -> Self
        ensures { result.messages ≡ [] }
    {
        MessageStore {
            messages: IndexMap::new(alloc),
            gone: 0,
        }
    }

    /// Reserves the memory for one more message. Changes no held message, even if memory is refused.
    pub fn make_room(&mut self) -> Result<(), AllocError>
        ensures room { OnOk result (0 < self.new.room) }
        ensures same { self.new.messages ≡ self.old.messages }
    {
        self.messages.reserve(1)
    }

    /// Returns a copy that holds the same messages.
    pub fn copy(&self) -> Result<Self, AllocError>
        ensures { IfOk result (λ copy. copy.messages ≡ self.now.messages) }
    {
        Ok(MessageStore {
            messages: self.messages.clone()?,
            gone: self.gone,
        })
    }
}

impl<A: Allocator> MessageStore<A> {
    /// Forgets the oldest messages so that at most `keep` are held. Does nothing if `keep` is 0.
    fn forget(&mut self, keep: u32)
        ensures { self.new.messages ≡ kept_last keep self.old.messages }
    {
        let held = self.messages.len() - self.gone;
        let keep = keep as usize;
        if keep != 0 && held > keep {
            self.gone += held - keep;
            if self.gone > keep {
                drop_front(&mut self.messages, self.gone);
                self.gone = 0;
            }
        }
    }

    /// Appends a message, without allocating, and then forgets all but the last `keep` messages. If `keep` is 0, it
    /// forgets none.
    ///
    /// Takes amortized constant time, unless the message was held before and has been forgotten: this may move all
    /// messages.
    pub fn push(&mut self, id: &MsgId, payload: Bytes<A>, keep: u32)
        requires room { 0 < self.old.room }
        requires absent { lookup (same_id id.now) self.old.messages ≡ None }
        ensures { self.new.messages ≡ kept_last keep (self.old.messages ++ (id.now, payload) ∷ []) }
    {
        self.gone = free_place(&mut self.messages, self.gone, id);
        let _ = self.messages.insert(*id, payload).unwrap();
        self.forget(keep);
    }

    /// Returns the payload of the message `id`, or `None` if it is not held.
    pub fn payload(&self, id: &MsgId) -> Option<&Bytes<A>>
        ensures { option_copied result ≡ lookup (same_id id.now) self.now.messages }
    {
        let (place, _, payload) = self.messages.get_full(id)?;
        if place < self.gone {
            None
        } else {
            Some(payload)
        }
    }

    /// Returns the ids of the held messages, in order of delivery.
    pub fn ids(&self) -> &[MsgId]
        ensures ids { result.now ≡ keys_of self.now.messages }
        ensures distinct { IsDistinct same_id result.now }
    {
        &self.messages.keys().as_slice()[self.gone..]
    }

    /// Returns the allocator of the store.
    pub fn allocator(&self) -> &A {
        self.messages.allocator()
    }
}
