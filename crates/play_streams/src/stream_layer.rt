//! Streams of bytes that carry frames. `tape` lays down a stream. `cut`, `pump` and `drain` go over it from its first
//! byte; `cutter`, `feed` and `next` go step by step.
use crate::cuts::push_cut;
use crate::drains::{drain_of, push_drain};
use crate::frame_texts::push_frame;
use crate::pumps::{pump_of, push_pump};
use crate::replays::{replay_cut, replay_drain, replay_pump};
use frames::{Cutter, Frame, FrameFault};
use play_script::hexes::bytes_of;
use play_script::layer::{Layer, Outcome, Turn};
use std::alloc::{AllocError, Allocator, Global};
use std::fmt::Write;

/// A stream, and a cutter once it was made.
#[derive(Drop)]
pub struct StreamLayer<A: Allocator> {
    alloc: A,
    own: Global,
    tape: Vec<u8>,
    cutter: Option<Cutter<A>>,
}

/// Appends what a cutter gave.
fn push_given<A: Allocator>(
    said: &mut String,
    given: &Result<Option<Frame<A>>, FrameFault>,
    turn: &Turn<'_>,
) -> Result<Outcome, AllocError> {
    match given {
        Ok(Some(frame)) => {
            push_frame(said, frame)?;
            said.push('\n')?;
            Ok(Outcome::Done)
        }
        Ok(None) => {
            said.push_str("none\n")?;
            Ok(Outcome::Done)
        }
        Err(FrameFault::OutOfMemory) => Ok(Outcome::NoMemory),
        Err(fault) => {
            writeln!(said, "{fault}")?;
            Ok(turn.answered())
        }
    }
}

impl<A: Allocator + Copy> StreamLayer<A> {
    pub fn new(alloc: A, own: Global) -> StreamLayer<A> {
        StreamLayer {
            alloc,
            own,
            tape: Vec::new(own),
            cutter: None,
        }
    }

    /// Lays down a stream: `tape 00000014 01 0b 0161 0000000000000001 0000000000000002`.
    fn lay(&mut self, words: &[&str]) -> Result<Outcome, AllocError> {
        let Some(bytes) = bytes_of(self.own, words)? else {
            return Ok(Outcome::Unknown);
        };
        self.tape = bytes;
        Ok(Outcome::Done)
    }

    /// Makes a cutter.
    fn make(&mut self, turn: &mut Turn<'_>) -> Outcome {
        turn.begin();
        let cutter = Cutter::new(self.alloc);
        turn.end();
        self.cutter = Some(cutter);
        Outcome::Done
    }

    /// Feeds the cutter bytes: `feed 00000014 01 0b`.
    fn feed(&mut self, words: &[&str], turn: &mut Turn<'_>) -> Result<Outcome, AllocError> {
        let (Some(cutter), Some(bytes)) = (&mut self.cutter, bytes_of(self.own, words)?) else {
            return Ok(Outcome::Unknown);
        };
        turn.begin();
        let fed = cutter.feed(bytes.as_slice());
        turn.end();
        Ok(if fed.is_err() {
            Outcome::NoMemory
        } else {
            Outcome::Done
        })
    }

    /// Asks the cutter for a frame.
    fn next(&mut self, turn: &mut Turn<'_>, said: &mut String) -> Result<Outcome, AllocError> {
        let Some(cutter) = &mut self.cutter else {
            return Ok(Outcome::Unknown);
        };
        turn.begin();
        let given = cutter.next();
        turn.end();
        push_given(said, &given, turn)
    }

    /// Feeds the cutter the whole tape and asks it for a frame.
    fn through(&mut self, turn: &mut Turn<'_>, said: &mut String) -> Result<Outcome, AllocError> {
        let Some(cutter) = &mut self.cutter else {
            return Ok(Outcome::Unknown);
        };
        turn.begin();
        let fed = cutter.feed(self.tape.as_slice());
        let given = cutter.next();
        turn.end();
        if fed.is_err() {
            return Ok(Outcome::NoMemory);
        }
        push_given(said, &given, turn)
    }

    /// Asks the cutter how many bytes are left.
    fn left(&self, said: &mut String) -> Result<Outcome, AllocError> {
        let Some(cutter) = &self.cutter else {
            return Ok(Outcome::Unknown);
        };
        writeln!(said, "left: {} bytes", cutter.left())?;
        Ok(Outcome::Done)
    }

    /// Cuts the tape, fed in pieces of one size: `cut 5`.
    fn cut(
        &self,
        size: &str,
        turn: &mut Turn<'_>,
        said: &mut String,
    ) -> Result<Outcome, AllocError> {
        let Ok(size) = size.parse::<usize>() else {
            return Ok(Outcome::Unknown);
        };
        push_cut(self.alloc, said, self.tape.as_slice(), size, turn)
    }

    /// Pumps the tape: `pump pieces 5 19 fails 1 takes 0 turns 10`, where each part may be left out.
    fn pump(
        &self,
        words: &[&str],
        turn: &mut Turn<'_>,
        said: &mut String,
    ) -> Result<Outcome, AllocError> {
        let Some(args) = pump_of(self.own, words)? else {
            return Ok(Outcome::Unknown);
        };
        push_pump(
            self.own,
            self.alloc,
            said,
            self.tape.as_slice(),
            &args,
            turn,
        )
    }

    /// Drains a source that gives the tape as its only item, `items` times: `drain items 2 most 10 frames 10 fails 2`.
    /// `stalls 2` in the place of `fails 2` has that write take no byte.
    fn drain(
        &self,
        words: &[&str],
        turn: &mut Turn<'_>,
        said: &mut String,
    ) -> Result<Outcome, AllocError> {
        let Some(args) = drain_of(words) else {
            return Ok(Outcome::Unknown);
        };
        push_drain(
            self.own,
            self.alloc,
            said,
            self.tape.as_slice(),
            &args,
            turn,
        )
    }

    /// Makes a call again with the tape cut at each place in turn, and with each read or write refused in turn.
    fn replay(
        &self,
        words: &[&str],
        turn: &mut Turn<'_>,
        said: &mut String,
    ) -> Result<Outcome, AllocError> {
        let tape = self.tape.as_slice();
        match words {
            ["cut"] => replay_cut(self.own, self.alloc, said, tape, turn),
            ["pump"] => replay_pump(self.own, self.alloc, said, tape, turn),
            ["drain", words @ ..] => match drain_of(words) {
                Some(args) => replay_drain(self.own, self.alloc, said, tape, args, turn),
                None => Ok(Outcome::Unknown),
            },
            _ => Ok(Outcome::Unknown),
        }
    }

    /// Makes a call that goes over the whole tape.
    fn go_over(
        &self,
        words: &[&str],
        turn: &mut Turn<'_>,
        said: &mut String,
    ) -> Result<Outcome, AllocError> {
        match words {
            ["cut", size] => self.cut(size, turn, said),
            ["pump", words @ ..] => self.pump(words, turn, said),
            ["drain", words @ ..] => self.drain(words, turn, said),
            ["replay", words @ ..] => self.replay(words, turn, said),
            _ => Ok(Outcome::Unknown),
        }
    }
}

impl<A: Allocator + Copy> Layer for StreamLayer<A> {
    fn call(
        &mut self,
        words: &[&str],
        turn: &mut Turn<'_>,
        said: &mut String,
    ) -> Result<Outcome, AllocError> {
        match words {
            ["tape", words @ ..] => self.lay(words),
            ["cutter"] => Ok(self.make(turn)),
            ["feed", words @ ..] => self.feed(words, turn),
            ["next"] => self.next(turn, said),
            ["through"] => self.through(turn, said),
            ["left"] => self.left(said),
            _ => self.go_over(words, turn, said),
        }
    }

    // What is left in the cutter is shown by `left`.
    fn show(&self, _text: &mut String) -> Result<(), AllocError> {
        Ok(())
    }

    fn show_all(&self, text: &mut String) -> Result<(), AllocError> {
        match &self.cutter {
            Some(cutter) => writeln!(text, "left: {} bytes", cutter.left()),
            None => Ok(()),
        }
    }

    fn clear(&mut self) {
        self.tape.clear();
        self.cutter = None;
    }
}
