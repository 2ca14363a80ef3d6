//! The bytes that wait to go out to one name.
ghost use Rattle.std.specs.Prelude.{◌≡◌, ◌-◌, ◌<◌, ◌≤◌, ◌++◌, [], List, ℕ, drop, length, take, OnOk, OnErr};
ghost use Rattle.bytes.specs.Unread.{concat_slices};

use bytes::{Bytes, BytesMut};
use std::alloc::{AllocError, Allocator};
use std::collections::VecDeque;
use std::marker::Model;

/// The bytes that wait to go out to one name. Contracts see them in their order.
///
/// Heads and small frames lie in one text. A long payload is shared with whoever else has it, and is kept with the
/// number of bytes of the text that come before it.
#[derive(Drop)]
pub(crate) struct Outgoing<A: Allocator> {
    text: BytesMut<A>,
    /// The shared payloads, each behind so many bytes of the text, counted from the payload before.
    shared: VecDeque<(usize, Bytes<A>), A>,
    /// How many bytes of the text follow the last shared payload.
    tail: usize,
    /// How many bytes wait.
    len: usize,
}

impl<A: Allocator> Model for Outgoing<A> {
    ghost use Rattle.std.specs.Prelude.{List, ℕ};
    ghost use Rattle.wire_node.specs.Weave.{IsWoven, woven};

    ghost Value = { List ℕ };

    ghost view = { λ o. woven o.text.items o.shared.items };

    ghost invariant = { λ o. IsWoven o.text.items o.shared.items o.tail o.len };
}

impl<A: Allocator + Copy> Outgoing<A> {
    /// Makes it empty, without allocating.
    pub(crate) fn new(alloc: A) -> Outgoing<A>
        ensures { result ≡ [] }
    {
        Outgoing {
            text: BytesMut::new(alloc),
            shared: VecDeque::new(alloc),
            tail: 0,
            len: 0,
        }
    }

    /// How many bytes wait.
    pub(crate) fn len(&self) -> usize
        ensures { result ≡ length self.now }
    {
        self.len
    }

    /// Appends a copy of the bytes.
    pub(crate) fn push_copy(&mut self, more: &[u8]) -> Result<(), AllocError>
        ensures ok { OnOk result (self.new ≡ self.old ++ more.now) }
        ensures err { OnErr result (self.new ≡ self.old) }
    {
        let Some(tail) = self.tail.checked_add(more.len()) else {
            return Err(AllocError);
        };
        let Some(len) = self.len.checked_add(more.len()) else {
            return Err(AllocError);
        };
        self.text.extend_from_slice(more)?;
        self.tail = tail;
        self.len = len;
        Ok(())
    }

    /// Appends the bytes without copying them.
    pub(crate) fn push_shared(&mut self, more: Bytes<A>) -> Result<(), AllocError>
        ensures ok { OnOk result (self.new ≡ self.old ++ more) }
        ensures err { OnErr result (self.new ≡ self.old) }
    {
        if more.is_empty() {
            return Ok(());
        }
        let Some(len) = self.len.checked_add(more.len()) else {
            return Err(AllocError);
        };
        self.shared.push_back((self.tail, more))?;
        self.tail = 0;
        self.len = len;
        Ok(())
    }

    /// Drops up to `most` of the last bytes. Returns how many.
    fn cut_last(&mut self, most: usize) -> usize
        requires some { 0 < most }
        requires within { most ≤ length self.old }
        ensures count { (0 < result) × (result ≤ most) }
        ensures left { self.new ≡ take (length self.old - result) self.old }
    {
        if self.tail > 0 {
            let cut = most.min(self.tail);
            self.text.truncate(self.text.len() - cut);
            self.tail -= cut;
            self.len -= cut;
            return cut;
        }
        let Some((before, mut last)) = self.shared.pop_back() else {
            unreachable!()
        };
        let cut = most.min(last.len());
        self.len -= cut;
        if cut < last.len() {
            last.truncate(last.len() - cut);
            self.shared.push_back_reserved((before, last));
            return cut;
        }
        self.tail = before;
        cut
    }

    /// Keeps the first `len` bytes.
    pub(crate) fn truncate(&mut self, len: usize)
        ensures { self.new ≡ take len self.old }
    {
        while len < self.len() {
            self.cut_last(self.len() - len);
        }
    }

    /// Drops up to `most` of the first bytes. Returns how many.
    fn advance_first(&mut self, most: usize) -> usize
        requires some { 0 < most }
        requires within { most ≤ length self.old }
        ensures count { (0 < result) × (result ≤ most) }
        ensures left { self.new ≡ drop result self.old }
    {
        let Some((before, mut first)) = self.shared.pop_front() else {
            self.text.advance(most);
            self.tail -= most;
            self.len -= most;
            return most;
        };
        if before > 0 {
            let taken = most.min(before);
            self.text.advance(taken);
            self.shared.push_front_reserved((before - taken, first));
            self.len -= taken;
            return taken;
        }
        let taken = most.min(first.len());
        self.len -= taken;
        if taken < first.len() {
            first.advance(taken);
            self.shared.push_front_reserved((0, first));
            return taken;
        }
        taken
    }

    /// Drops the first `count` bytes: they went out.
    pub(crate) fn advance(&mut self, count: usize)
        requires { count ≤ length self.old }
        ensures { self.new ≡ drop count self.old }
    {
        let mut left = count;
        while left > 0 {
            left -= self.advance_first(left);
        }
    }

    /// The first of the bytes that wait, in up to four slices: all of them, unless there are two shared payloads or
    /// more. Where any wait, the first two slices are not both empty.
    pub(crate) fn slices(&self) -> [&[u8]; 4]
        ensures front { (rest : List ℕ) × (concat_slices result ++ rest ≡ self.now) }
        ensures some { 0 < length self.now → 0 < length (concat_slices result) }
    {
        let text = self.text.as_slice();
        let Some((before, first)) = self.shared.get(0) else {
            return [text, &[], &[], &[]];
        };
        let (front, text) = text.split_at(*before);
        match self.shared.get(1) {
            None => [front, first.as_slice(), text, &[]],
            Some((between, second)) => [
                front,
                first.as_slice(),
                &text[..*between],
                second.as_slice(),
            ],
        }
    }
}
