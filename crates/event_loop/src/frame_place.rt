//! Where in a frame or another record a stream of bytes stands.

/// How many bytes at the front of a frame say how many follow.
const PREFIX: usize = 4;

/// Where in a frame or another record a stream of bytes stands.
#[derive(Clone, Copy, Debug, PartialEq, Eq)]
pub(crate) struct FramePlace {
    /// How many bytes of the prefix are lacking.
    prefix: usize,
    /// The number that the others spell.
    number: u32,
    /// How many bytes are lacking after a whole prefix.
    rest: usize,
}

impl FramePlace {
    /// The front of a frame.
    pub(crate) const FRONT: FramePlace = FramePlace {
        prefix: PREFIX,
        number: 0,
        rest: 0,
    };

    /// Whether a part of a frame came, and not all of it.
    pub(crate) fn is_within(&self) -> bool {
        self.prefix < PREFIX || self.rest > 0
    }

    /// Goes on by these bytes. Returns whether a frame ended with one of them.
    pub(crate) fn pass(&mut self, bytes: &[u8]) -> bool {
        let mut left = bytes;
        let mut has_ended = false;
        for _ in 0..bytes.len() {
            let [first, others @ ..] = left else {
                return has_ended;
            };
            if self.rest > 0 {
                let count = self.rest.min(left.len());
                self.rest -= count;
                left = &left[count..];
                has_ended = has_ended || self.rest == 0;
            } else {
                self.pass_prefix(*first);
                left = others;
            }
        }
        has_ended
    }

    /// Goes on by a byte of a prefix. A first byte other than 0 begins no frame, since a frame has fewer than 2^24
    /// bytes, but a record that a node may have beside its frames, whose second byte says how many follow.
    fn pass_prefix(&mut self, byte: u8) {
        if self.prefix == PREFIX && byte != 0 {
            self.prefix = 1;
            return;
        }
        self.prefix = self.prefix.saturating_sub(1);
        self.number = self.number << 8 | byte as u32;
        if self.prefix == 0 {
            *self = FramePlace {
                rest: self.number as usize,
                ..FramePlace::FRONT
            };
        }
    }
}
