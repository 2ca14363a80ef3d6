//! Cases: blocks of commands, each followed by what it gives.
//!
//! A block is one line or more of commands, a line `----`, and what the commands give, up to an empty line. What stands
//! there is not read: it is printed anew. Lines that begin with `#`, empty lines and the line `layer NAME` stand
//! between blocks.
//!
//! `fresh` begins anew. `quiet` in front of a command leaves out what it answers, and `times N` makes it N times.
//! `sweep` in front of a command makes it once for each of its allocations, with that one refused: that has to be
//! answered as want of memory and to leave the state as it was, and the command made again has to give what it gives
//! where nothing is refused. `sweep-again` does the same with a command that may stop midway and goes on when it is
//! made again. Each try is made on a state of its own, by all commands since the last `fresh`. Commands behind a `;`
//! are made after each try, and have to answer the same each time.
use crate::layer::{Layer, Outcome, Turn};
use refusing_allocator::RefusingAllocator;
use std::alloc::{AllocError, Global};
use std::fmt::Write;

/// More allocations than any call makes.
const MANY: u64 = 10_000;

/// A case that is played: its layer, and the lines that were played since it last began anew.
#[derive(Drop)]
pub struct Player<'h, 't, L: Layer + Drop> {
    heap: &'h RefusingAllocator,
    alloc: Global,
    layer: L,
    played: Vec<&'t str>,
}

/// What came of a command, what it answered, and what the layer shows after it.
#[derive(Drop, PartialEq)]
struct Answer {
    outcome: Outcome,
    said: String,
    shown: String,
}

/// Returns whether the line stands between blocks.
fn is_between(line: &str) -> bool {
    line.is_empty() || line.starts_with('#') || line.starts_with("layer ")
}

/// Returns whether the word says that a command is swept.
fn is_sweep(word: &str) -> bool {
    word == "sweep" || word == "sweep-again"
}

/// Returns the words of a command without those that say how it is played.
fn command<'a>(words: &'a [&'a str]) -> &'a [&'a str] {
    let begin = match words.first() {
        Some(word) => usize::from(is_sweep(word)),
        None => 0,
    };
    words.get(begin..).unwrap_or(&[])
}

impl<'h, 't, L: Layer + Drop> Player<'h, 't, L> {
    pub fn new(heap: &'h RefusingAllocator, alloc: Global, layer: L) -> Player<'h, 't, L> {
        Player {
            heap,
            alloc,
            layer,
            played: Vec::new(alloc),
        }
    }

    /// Returns all that the layer shows.
    fn shown(&self) -> Result<String, AllocError> {
        let mut text = String::new(self.alloc);
        self.layer.show_all(&mut text)?;
        Ok(text)
    }

    /// Makes the call of a command, `times N` as often, until one is not done, and `quiet` without what it answered.
    fn call(
        &mut self,
        words: &[&str],
        turn: &mut Turn<'_>,
        said: &mut String,
    ) -> Result<Outcome, AllocError> {
        let (words, is_quiet) = match words {
            [word, words @ ..] if *word == "quiet" => (words, true),
            _ => (words, false),
        };
        let (words, times) = match words {
            ["times", times, words @ ..] => (words, times.parse().unwrap_or(0u32)),
            _ => (words, 1),
        };
        let mut quiet = String::new(self.alloc);
        for _ in 0..times {
            let said = if is_quiet { &mut quiet } else { &mut *said };
            let outcome = self.layer.call(words, turn, said)?;
            if outcome != Outcome::Done {
                return Ok(outcome);
            }
        }
        Ok(Outcome::Done)
    }

    /// Makes the first call of a line with allocation `n` refused. Returns its answer, or `None` if the call has no
    /// such allocation.
    fn refused(&mut self, words: &[&str], n: u64) -> Result<Option<Answer>, AllocError> {
        let mut turn = Turn::new(self.heap, n);
        let mut said = String::new(self.alloc);
        let words = words.split(|word| *word == ";").next().unwrap_or(&[]);
        let outcome = self.call(words, &mut turn, &mut said)?;
        if !turn.is_spent() {
            return Ok(None);
        }
        let shown = self.shown()?;
        Ok(Some(Answer {
            outcome,
            said,
            shown,
        }))
    }

    /// Makes all calls of a line with nothing refused.
    fn call_all(&mut self, words: &[&str], said: &mut String) -> Result<Outcome, AllocError> {
        let mut outcome = Outcome::Done;
        for words in words.split(|word| *word == ";") {
            let mut turn = Turn::new(self.heap, 0);
            outcome = self.call(words, &mut turn, said)?;
        }
        Ok(outcome)
    }

    /// Makes all calls of a line with nothing refused, and returns their answer.
    fn answer(&mut self, words: &[&str]) -> Result<Answer, AllocError> {
        let mut said = String::new(self.alloc);
        let outcome = self.call_all(words, &mut said)?;
        let shown = self.shown()?;
        Ok(Answer {
            outcome,
            said,
            shown,
        })
    }

    /// Begins anew, and makes all calls that were made since that was last done, with nothing refused.
    fn replay(&mut self) -> Result<(), AllocError> {
        self.layer.clear();
        let mut said = String::new(self.alloc);
        for place in 0..self.played.len() {
            let Some(line) = self.played.get(place) else {
                return Ok(());
            };
            let words: Vec<&str> = line.split_whitespace().collect(self.alloc)?;
            self.call_all(command(words.as_slice()), &mut said)?;
        }
        Ok(())
    }

    /// Makes a call with allocation `n` refused, and again. Returns whether there is such an allocation, or `None` if
    /// the refusal was answered otherwise, changed the state though `is_whole`, or led elsewhere than to `wanted`.
    fn try_refused(
        &mut self,
        words: &[&str],
        n: u64,
        is_whole: bool,
        wanted: &Answer,
    ) -> Result<Option<bool>, AllocError> {
        self.replay()?;
        let before = self.shown()?;
        let Some(refused) = self.refused(words, n)? else {
            return Ok(Some(false));
        };
        let is_kept = !is_whole || before == refused.shown;
        let again = self.answer(words)?;
        let is_answered = is_kept && is_of_refusal(&refused, wanted);
        Ok((is_answered && is_alike(&again, wanted, is_whole)).then_some(true))
    }

    /// Makes a call once for each of its allocations, with that one refused, and at last with none refused.
    fn sweep(
        &mut self,
        words: &[&str],
        is_whole: bool,
        said: &mut String,
    ) -> Result<Outcome, AllocError> {
        self.replay()?;
        let wanted = self.answer(words)?;
        for n in 1..MANY {
            match self.try_refused(words, n, is_whole, &wanted)? {
                Some(true) => {}
                Some(false) => {
                    writeln!(said, "refused: {}", n - 1)?;
                    break;
                }
                None => {
                    writeln!(
                        said,
                        "allocation {n}, refused, is answered otherwise or leads elsewhere"
                    )?;
                    break;
                }
            }
        }
        self.replay()?;
        self.call_all(words, said)
    }

    /// Makes the call of one line, and appends what it answered.
    fn play_line(&mut self, words: &[&str], said: &mut String) -> Result<(), AllocError> {
        let outcome = match words {
            ["fresh"] => {
                self.layer.clear();
                self.played.clear();
                Outcome::Done
            }
            ["sweep", words @ ..] => self.sweep(words, true, said)?,
            ["sweep-again", words @ ..] => self.sweep(words, false, said)?,
            _ => self.call_all(words, said)?,
        };
        match outcome {
            Outcome::Done | Outcome::Regardless => Ok(()),
            Outcome::NoMemory => said.push_str("out of memory\n"),
            Outcome::Unknown => said.push_str("no such command here\n"),
        }
    }

    /// Makes the calls of a block, and appends what they answered and, if it changed, the state after them.
    fn play_block(&mut self, lines: &[&'t str], out: &mut String) -> Result<(), AllocError> {
        let mut before = String::new(self.alloc);
        self.layer.show(&mut before)?;
        for line in lines {
            let words: Vec<&str> = line.split_whitespace().collect(self.alloc)?;
            self.play_line(words.as_slice(), out)?;
            if words.as_slice() != ["fresh"].as_slice() {
                self.played.push(*line)?;
            }
        }
        let mut after = String::new(self.alloc);
        self.layer.show(&mut after)?;
        if after == before {
            return Ok(());
        }
        if after.is_empty() {
            return out.push_str("empty\n");
        }
        out.push_str(after.as_str())
    }

    /// Plays the blocks of a case, and appends the case with what they give.
    pub fn play(&mut self, text: &'t str, out: &mut String) -> Result<(), AllocError> {
        let mut block = Vec::new(self.alloc);
        let mut is_answer = false;
        for line in text.split('\n') {
            if is_answer && !line.is_empty() {
                continue;
            }
            is_answer = line == "----";
            writeln!(out, "{line}")?;
            if is_answer {
                self.play_block(block.as_slice(), out)?;
                block.clear();
            } else if !is_between(line) {
                block.push(line)?;
            }
        }
        Ok(())
    }
}

/// Returns whether a call that was refused memory answered that, or the fault that it answers when nothing is refused.
fn is_of_refusal(refused: &Answer, wanted: &Answer) -> bool {
    match refused.outcome {
        Outcome::NoMemory => true,
        Outcome::Regardless => refused.said == wanted.said,
        Outcome::Done | Outcome::Unknown => false,
    }
}

/// Returns whether a call that was made again ended as one that was refused nothing. One that went on from where it had
/// stopped may answer something else.
fn is_alike(again: &Answer, wanted: &Answer, is_whole: bool) -> bool {
    again.outcome == wanted.outcome
        && again.shown == wanted.shown
        && (!is_whole || again.said == wanted.said)
}
