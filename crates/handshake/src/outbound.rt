//! The end of a connection where a node writes.
ghost use Rattle.std.specs.Prelude.{◌≡◌, ◌-◌, ◌<◌, ◌++◌, List, ℕ, false, true, drop, length, take};
ghost use Rattle.std.specs.Prelude.{IfOk, OnErr, OnOk};
ghost use Rattle.bytes.specs.Unread.{concat_slices};
ghost use Rattle.handshake.specs.declared.place.Place.TheVariants.{Boundary};
ghost use Rattle.handshake.specs.Outbound.{lent, of_frames, sent, waiting};
ghost use Rattle.handshake.specs.Place as place;
ghost use Rattle.handshake.specs.Records.{hello_record, introduction_record};

use crate::hello::Hello;
use crate::introduction::Introduction;
use crate::place::RecordPlace;
use crate::writing::{push_hello, push_introduction};
use std::alloc::{AllocError, Allocator};
use std::marker::Model;

/// What a node writes on a connection beside its frames: first its hello, and then introductions. They go out whole,
/// and where no frame is under way.
///
/// Contracts see an `Outgoing`: whether there is a link, the bytes of records that wait, and where the frames stand.
#[derive(Drop)]
pub struct Outbound<A: Allocator> {
    records: Vec<u8, A>,
    /// How many of their bytes went out.
    gone: usize,
    /// Where in the frames the link stands.
    place: RecordPlace,
    is_open: bool,
}

impl<A: Allocator> Model for Outbound<A> {
    ghost use Rattle.std.specs.Prelude.{◌≤◌, drop, length};
    ghost use Rattle.handshake.specs.Outbound.{Outgoing};

    ghost Value = { Outgoing };

    ghost view = { λ o. record { is_open = o.is_open; records = drop o.gone o.records.items; place = o.place } };

    ghost invariant = { λ o. o.gone ≤ length o.records.items };
}

/// The first bytes of these that belong to the frame under way, and where the link stands after them.
fn front_of(at: RecordPlace, bytes: &[u8]) -> (&[u8], RecordPlace)
    ensures bytes { result.0.now ≡ take (place.cut at bytes.now) bytes.now }
    ensures place { result.1 ≡ place.after at (take (place.cut at bytes.now) bytes.now) }
{
    let front = &bytes[..at.cut(bytes)];
    let mut after = at;
    after.pass(front);
    (front, after)
}

/// The rest of the frame under way, of which these are the next bytes.
fn fronts_of<'a>(at: RecordPlace, frames: [&'a [u8]; 4]) -> [&'a [u8]; 4]
    ensures bytes { let bytes = concat_slices frames.entry in
        concat_slices result ≡ take (place.cut at bytes) bytes }
{
    let [first, second, third, fourth] = frames;
    let (first, at) = front_of(at, first);
    let (second, at) = front_of(at, second);
    let (third, at) = front_of(at, third);
    let (fourth, _) = front_of(at, fourth);
    [first, second, third, fourth]
}

/// Goes on by the first `count` of these bytes, or by all of them. Returns how many are still to come.
fn pass_some(at: &mut RecordPlace, bytes: &[u8], count: usize) -> usize
    ensures place { at.new ≡ place.after at.old (take count bytes.now) }
    ensures left { result ≡ count - length bytes.now }
{
    let gone = count.min(bytes.len());
    at.pass(&bytes[..gone]);
    count - gone
}

/// Goes on by the first `count` of these bytes of frames, or by all of them.
fn pass_all(at: &mut RecordPlace, frames: [&[u8]; 4], count: usize)
    ensures { at.new ≡ place.after at.old (take count (concat_slices frames.entry)) }
{
    let [first, second, third, fourth] = frames;
    let left = pass_some(at, first, count);
    let left = pass_some(at, second, left);
    let left = pass_some(at, third, left);
    pass_some(at, fourth, left);
}

impl<A: Allocator + Copy> Outbound<A> {
    /// Makes what goes out over a link that begins with this hello. There is none yet.
    pub fn new(alloc: A, hello: &Hello) -> Result<Outbound<A>, AllocError>
        ensures { IfOk result (λ out. out ≡ record {
          is_open = false;
          records = hello_record hello.now;
          place = Boundary;
        }) }
    {
        let mut records = Vec::new(alloc);
        push_hello(&mut records, hello)?;
        Ok(Outbound {
            records,
            gone: 0,
            place: RecordPlace::BOUNDARY,
            is_open: false,
        })
    }

    /// Has an introduction go out in front of the frames that follow the one under way. Where memory is refused, it
    /// does not.
    pub fn introduce(&mut self, introduction: &Introduction) -> Result<(), AllocError>
        ensures ok { OnOk result (self.new
            ≡ record self.old { records = self.old.records ++ introduction_record introduction.now }) }
        ensures err { OnErr result (self.new ≡ self.old) }
    {
        push_introduction(&mut self.records, introduction)
    }

    /// Notes that there is a link, or that it is being dialled.
    pub fn open(&mut self)
        ensures { self.new ≡ record self.old { is_open = true } }
    {
        self.is_open = true;
    }

    /// The bytes of records that wait to go out.
    fn rest(&self) -> &[u8]
        ensures { result.now ≡ self.now.records }
    {
        &self.records[self.gone..]
    }

    /// How many bytes of records wait to go out over the link, if there is one.
    pub fn waiting(&self) -> usize
        ensures { result ≡ waiting self.now }
    {
        if self.is_open { self.rest().len() } else { 0 }
    }

    /// Has the introduction go out as a pulse, if there is a link, and no other record waits: that tells as much.
    pub fn beat(&mut self, introduction: &Introduction) -> Result<(), AllocError>
        ensures due { self.old.is_open ≡ true → length self.old.records ≡ 0
            → OnOk result (self.new ≡ record self.old { records = introduction_record introduction.now }) }
        ensures closed { self.old.is_open ≡ false → self.new ≡ self.old }
        ensures waits { 0 < length self.old.records → self.new ≡ self.old }
        ensures err { OnErr result (self.new ≡ self.old) }
    {
        if self.is_open && self.rest().is_empty() {
            self.introduce(introduction)?;
        }
        Ok(())
    }

    /// Lends the first of what is to go out, where these bytes of frames wait. Where records wait within a frame, these
    /// are bytes of that frame alone.
    pub fn front<'a>(&'a self, frames: [&'a [u8]; 4]) -> [&'a [u8]; 4]
        ensures front { (rest : List ℕ) × (concat_slices result ++ rest ≡ lent self.now (concat_slices frames.entry)) }
        ensures some { 0 < length (lent self.now (concat_slices frames.entry)) → 0 < length (concat_slices result) }
    {
        let rest = self.rest();
        if rest.is_empty() {
            return frames;
        }
        if !self.place.is_boundary() {
            return fronts_of(self.place, frames);
        }
        let [first, second, third, _] = frames;
        [rest, first, second, third]
    }

    /// Takes the first `count` bytes from the records that wait, or all of them. Returns how many are left of `count`.
    fn take_records(&mut self, count: usize) -> usize
        ensures records { self.new ≡ record self.old { records = drop count self.old.records } }
        ensures left { result ≡ count - length self.old.records }
    {
        let rest = self.records.len() - self.gone;
        if count < rest {
            self.gone += count;
            return 0;
        }
        self.records.clear();
        self.gone = 0;
        count - rest
    }

    /// Notes that the first `count` bytes of what was lent went out, where these bytes of frames wait. Returns how many
    /// of them are of frames.
    pub fn sent(&mut self, frames: [&[u8]; 4], count: usize) -> usize
        ensures sent { self.new ≡ sent self.old (concat_slices frames.entry) count }
        ensures of_frames { result ≡ of_frames self.old count }
    {
        let of_frames = if self.place.is_boundary() {
            self.take_records(count)
        } else {
            count
        };
        pass_all(&mut self.place, frames, of_frames);
        of_frames
    }
}
