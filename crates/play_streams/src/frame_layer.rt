//! One frame: `frame` makes it from its parts and `decode` from bytes, and the other commands are about it. `fronts`,
//! `shortened` and `changed` decode variations of bytes.
use crate::frame_changes::{push_changed, push_fronts, push_shortened};
use crate::frame_texts::{push_encoded, push_frame, push_told};
use frames::{Body, BodyOf, Frame, FrameFault, decode, encode};
use node_names::Listed;
use play_script::frame_words::body;
use play_script::hexes::bytes_of;
use play_script::layer::{Layer, Outcome, Turn};
use play_script::words::{id, number, origin, short};
use protocol::Wire;
use std::alloc::{AllocError, Allocator, Global};
use std::fmt::Write;

/// The frame that was made last, until it is taken apart.
#[derive(Drop)]
pub struct FrameLayer<A: Allocator> {
    alloc: A,
    own: Global,
    frame: Option<Frame<A>>,
}

/// Parses a body. `IHAVE 65 times a/1/1 0` announces one message 65 times.
fn body_of<A: Allocator + Copy>(alloc: A, words: &[&str]) -> Result<Option<Body<A>>, AllocError> {
    let ["IHAVE", times, "times", message, round] = words else {
        return body(alloc, words);
    };
    let (Ok(times), Some(id), Some(round)) = (times.parse::<usize>(), id(message), short(round))
    else {
        return Ok(None);
    };
    let entries = Listed::from_vec(vec![in alloc; (id, round); times]?);
    Ok(Some(BodyOf::IHave { entries }))
}

/// Copies a frame. Returns whether the copy is equal to it, or nothing if memory was refused.
fn is_copied<A: Allocator + Copy>(frame: &Frame<A>, turn: &mut Turn<'_>) -> Option<bool> {
    turn.begin();
    let copied = frame.copy();
    turn.end();
    match copied {
        Ok(copy) => Some(copy == *frame),
        Err(_) => None,
    }
}

impl<A: Allocator + Copy> FrameLayer<A> {
    pub fn new(alloc: A, own: Global) -> FrameLayer<A> {
        FrameLayer {
            alloc,
            own,
            frame: None,
        }
    }

    /// Keeps the frame that was made, or appends why none was.
    fn keep(
        &mut self,
        made: Result<Frame<A>, FrameFault>,
        turn: &Turn<'_>,
        said: &mut String,
    ) -> Result<Outcome, AllocError> {
        match made {
            Ok(frame) => self.frame = Some(frame),
            Err(FrameFault::OutOfMemory) => return Ok(Outcome::NoMemory),
            Err(fault) => {
                writeln!(said, "{fault}")?;
                return Ok(turn.answered());
            }
        }
        Ok(Outcome::Done)
    }

    /// Makes a frame from its parts: `frame a 1 FORWARDJOIN c 3`.
    fn make(
        &mut self,
        sender: &str,
        place: &str,
        words: &[&str],
        turn: &mut Turn<'_>,
        said: &mut String,
    ) -> Result<Outcome, AllocError> {
        let (Some(sender), Some(place)) = (origin(sender), number(place)) else {
            return Ok(Outcome::Unknown);
        };
        let Some(body) = body_of(self.alloc, words)? else {
            return Ok(Outcome::Unknown);
        };
        turn.begin();
        let made = Frame::new(sender, place, body);
        turn.end();
        self.keep(made, turn, said)
    }

    /// Decodes the frame that bytes begin with: `decode 00000014 01 0b 0161 0000000000000001 0000000000000002`.
    fn decode(
        &mut self,
        words: &[&str],
        turn: &mut Turn<'_>,
        said: &mut String,
    ) -> Result<Outcome, AllocError> {
        let Some(bytes) = bytes_of(self.own, words)? else {
            return Ok(Outcome::Unknown);
        };
        turn.begin();
        let read = decode(self.alloc, bytes.as_slice());
        turn.end();
        match read {
            Ok((frame, len)) => {
                writeln!(said, "read: {len} bytes")?;
                self.keep(Ok(frame), turn, said)
            }
            Err(fault) => self.keep(Err(fault), turn, said),
        }
    }

    /// Encodes the frame.
    fn encode(&self, turn: &mut Turn<'_>, said: &mut String) -> Result<Outcome, AllocError> {
        let Some(frame) = &self.frame else {
            return Ok(Outcome::Unknown);
        };
        turn.begin();
        let written = encode(self.alloc, frame);
        turn.end();
        match written {
            Ok(bytes) => push_encoded(said, frame.sender().name, bytes.as_slice())?,
            Err(_) => return Ok(Outcome::NoMemory),
        }
        Ok(Outcome::Done)
    }

    /// Copies the frame.
    fn copy(&self, turn: &mut Turn<'_>, said: &mut String) -> Result<Outcome, AllocError> {
        let Some(frame) = &self.frame else {
            return Ok(Outcome::Unknown);
        };
        match is_copied(frame, turn) {
            Some(true) => said.push_str("the copy is equal\n")?,
            Some(false) => said.push_str("the copy differs\n")?,
            None => return Ok(Outcome::NoMemory),
        }
        Ok(Outcome::Done)
    }

    /// Asks the frame what it is.
    fn tell(&self, turn: &mut Turn<'_>, said: &mut String) -> Result<Outcome, AllocError> {
        let Some(frame) = &self.frame else {
            return Ok(Outcome::Unknown);
        };
        push_told(said, frame, turn)?;
        Ok(Outcome::Done)
    }

    /// Takes the frame apart, and so drops it.
    fn take(&mut self, turn: &mut Turn<'_>) -> Outcome {
        let Some(frame) = self.frame.take() else {
            return Outcome::Unknown;
        };
        turn.begin();
        let _ = frame.into_body();
        turn.end();
        Outcome::Done
    }

    /// Decodes variations of bytes.
    fn vary(&self, kind: &str, words: &[&str], said: &mut String) -> Result<Outcome, AllocError> {
        let Some(mut bytes) = bytes_of(self.own, words)? else {
            return Ok(Outcome::Unknown);
        };
        match kind {
            "fronts" => push_fronts(self.own, said, bytes.as_slice())?,
            "shortened" => push_shortened(self.own, said, &mut bytes)?,
            "changed" => push_changed(self.own, said, &mut bytes)?,
            _ => return Ok(Outcome::Unknown),
        }
        Ok(Outcome::Done)
    }
}

impl<A: Allocator + Copy> Layer for FrameLayer<A> {
    fn call(
        &mut self,
        words: &[&str],
        turn: &mut Turn<'_>,
        said: &mut String,
    ) -> Result<Outcome, AllocError> {
        match words {
            ["frame", sender, place, words @ ..] => self.make(sender, place, words, turn, said),
            ["decode", words @ ..] => self.decode(words, turn, said),
            ["encode"] => self.encode(turn, said),
            ["copy"] => self.copy(turn, said),
            ["tell"] => self.tell(turn, said),
            ["take"] => Ok(self.take(turn)),
            [kind, words @ ..] => self.vary(kind, words, said),
            [] => Ok(Outcome::Unknown),
        }
    }

    fn show(&self, text: &mut String) -> Result<(), AllocError> {
        match &self.frame {
            Some(frame) => {
                text.push_str("frame: ")?;
                push_frame(text, frame)?;
                text.push('\n')
            }
            None => Ok(()),
        }
    }

    fn clear(&mut self) {
        self.frame = None;
    }
}
