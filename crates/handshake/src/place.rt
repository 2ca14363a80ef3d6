//! Where in a frame a stream of frames stands.
ghost use Rattle.std.specs.Prelude.{◌≡◌, ◌≢◌, ◌+◌, ◌-◌, ◌<◌, ◌≤◌, false, true, drop, length, slice_index, take};
ghost use Rattle.handshake.specs.Place as spec;

use std::marker::Model;

/// Where in a frame a stream of frames stands.
#[derive(Clone, Copy, Debug, PartialEq, Eq)]
pub(crate) enum Place {
    /// Between two frames, or before the first.
    Boundary,
    /// After the first byte of a frame's length.
    One(u8),
    /// After two bytes of its length.
    Two(u8, u8),
    /// After three bytes of its length.
    Three(u8, u8, u8),
    /// In the body, of which so many bytes are left.
    Body(u32),
}

/// Where in a frame a stream of frames stands: at a boundary, within the length of a frame, or within its body.
///
/// Contracts see it as a `Place`.
#[derive(Clone, Copy, Debug, PartialEq, Eq)]
pub struct RecordPlace {
    place: Place,
}

impl Model for RecordPlace {
    ghost use Rattle.handshake.specs.declared.place.Place.{Place};

    ghost Value = { Place };

    ghost view = { λ p. p.place };

    ghost inverse = { λ place. record { place = place } };
}

/// The place where so many bytes of a body are left.
fn body(left: u32) -> Place
    ensures { result ≡ spec.body left }
{
    if left == 0 {
        Place::Boundary
    } else {
        Place::Body(left)
    }
}

/// Goes on by one byte.
fn next_place(place: Place, byte: u8) -> Place
    ensures { result ≡ spec.next_place place byte }
{
    match place {
        Place::Boundary => Place::One(byte),
        Place::One(a) => Place::Two(a, byte),
        Place::Two(a, b) => Place::Three(a, b, byte),
        Place::Three(a, b, c) => body(u32::from_be_bytes([a, b, c, byte])),
        Place::Body(left) => body(left.saturating_sub(1)),
    }
}

fn is_boundary(place: Place) -> bool
    ensures { result ≡ spec.is_boundary place }
{
    matches!(place, Place::Boundary)
}

/// Returns whether the next byte is of a frame.
fn goes_on(place: Place, byte: u8) -> bool
    ensures { result ≡ spec.goes_on place byte }
{
    !is_boundary(place) || byte == 0
}

/// Goes on by at most `len` bytes of a body of which `left` are left.
fn stride_in_body(left: u32, len: usize) -> (Place, usize)
    requires some_left { 0 < left }
    requires some { 0 < len }
    ensures some { 0 < result.1 }
    ensures within { result.1 ≤ len }
    ensures few { result.1 ≤ left }
    ensures place { result.0 ≡ spec.body (left - result.1) }
{
    if left as usize <= len {
        (Place::Boundary, left as usize)
    } else {
        (body(left - len as u32), len)
    }
}

/// Goes on by some of these bytes: by all that are of the body, or by one.
#[tactic(auto, using(crate::proofs::Strides::strides))]
fn stride(place: Place, bytes: &[u8]) -> (Place, usize)
    requires { 0 < length bytes.now }
    ensures some { 0 < result.1 }
    ensures within { result.1 ≤ length bytes.now }
    ensures after { spec.after place bytes.now ≡ spec.after result.0 (drop result.1 bytes.now) }
    ensures frames { spec.goes_on place (slice_index bytes.now 0) ≡ true
        → spec.frames place bytes.now ≡ result.1 + spec.frames result.0 (drop result.1 bytes.now) }
    ensures cut { spec.is_boundary place ≡ false
        → spec.cut place bytes.now ≡ result.1 + spec.cut result.0 (drop result.1 bytes.now) }
{
    match place {
        Place::Body(left) if left > 0 => stride_in_body(left, bytes.len()),
        other => (next_place(other, bytes[0]), 1),
    }
}

/// Goes on by these bytes.
#[tactic(auto, using(crate::proofs::Strides::strides))]
fn after(start: Place, bytes: &[u8]) -> Place
    ensures { result ≡ spec.after start bytes.now }
{
    let mut place = start;
    let mut rest = bytes;
    while !rest.is_empty() {
        let (next, count) = stride(place, rest);
        place = next;
        rest = &rest[count..];
    }
    place
}

/// Returns how many of the first bytes are of frames.
#[tactic(auto, using(crate::proofs::Strides::strides))]
fn frames(start: Place, bytes: &[u8]) -> usize
    ensures value { result ≡ spec.frames start bytes.now }
    ensures within { result ≤ length bytes.now }
{
    let mut place = start;
    let mut rest = bytes;
    while let [first, ..] = rest {
        if !goes_on(place, *first) {
            return bytes.len() - rest.len();
        }
        let (next, count) = stride(place, rest);
        place = next;
        rest = &rest[count..];
    }
    bytes.len()
}

/// Returns how many of the first bytes are of the frame under way.
#[tactic(auto, using(crate::proofs::Strides::strides))]
fn cut(start: Place, bytes: &[u8]) -> usize
    ensures value { result ≡ spec.cut start bytes.now }
    ensures within { result ≤ length bytes.now }
{
    let mut place = start;
    let mut rest = bytes;
    while !is_boundary(place) && !rest.is_empty() {
        let (next, count) = stride(place, rest);
        place = next;
        rest = &rest[count..];
    }
    bytes.len() - rest.len()
}

impl RecordPlace {
    /// Between two frames, as before the first.
    pub const BOUNDARY: RecordPlace = RecordPlace {
        place: Place::Boundary,
    };

    /// Returns whether no frame is under way.
    pub fn is_boundary(&self) -> bool
        ensures { result ≡ spec.is_boundary self.now }
    {
        is_boundary(self.place)
    }

    /// Returns how many of the first bytes are of frames: of the one under way and of those that follow. They end
    /// before a byte other than 0 at a boundary, since that begins a record that is no frame.
    #[tactic(auto, using(crate::proofs::Strides::fronts))]
    pub fn frames(&self, bytes: &[u8]) -> usize
        ensures value { result ≡ spec.frames self.now bytes.now }
        ensures within { result ≤ length bytes.now }
        ensures front { spec.frames self.now (take result bytes.now) ≡ result }
        ensures stops { result < length bytes.now
            → (spec.is_boundary (spec.after self.now (take result bytes.now)) ≡ true)
            × (slice_index bytes.now result ≢ 0) }
    {
        frames(self.place, bytes)
    }

    /// Returns how many of the first bytes are of the frame under way: 0 at a boundary.
    #[tactic(auto, using(crate::proofs::Strides::fronts))]
    pub fn cut(&self, bytes: &[u8]) -> usize
        ensures value { result ≡ spec.cut self.now bytes.now }
        ensures within { result ≤ length bytes.now }
        ensures stops { result < length bytes.now
            → spec.is_boundary (spec.after self.now (take result bytes.now)) ≡ true }
    {
        cut(self.place, bytes)
    }

    /// Goes on by these bytes of frames.
    pub fn pass(&mut self, bytes: &[u8])
        ensures { self.new ≡ spec.after self.old bytes.now }
    {
        self.place = after(self.place, bytes);
    }
}
