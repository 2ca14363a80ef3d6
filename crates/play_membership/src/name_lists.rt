//! Lists that contracts see as their items alone.
use node_names::Listed;
use play_script::layer::{Outcome, Turn, fill, in_memory};
use std::alloc::{AllocError, Allocator};
use std::fmt::Write;

/// A list, and the copy of it that was made last.
#[derive(Drop)]
pub(crate) struct Lists<A: Allocator> {
    alloc: A,
    list: Listed<u8, A>,
    copy: Option<Listed<u8, A>>,
}

impl<A: Allocator + Copy> Lists<A> {
    pub(crate) fn new(alloc: A) -> Lists<A> {
        Lists {
            alloc,
            list: Listed::new(alloc),
            copy: None,
        }
    }

    /// Appends an item: `list push 1`.
    fn push(&mut self, item: &str, turn: &mut Turn<'_>) -> Outcome {
        let Ok(item) = item.parse() else {
            return Outcome::Unknown;
        };
        turn.begin();
        let pushed = self.list.push(item);
        turn.end();
        in_memory(pushed)
    }

    /// Appends items: `list append 4 5`.
    fn append(&mut self, words: &[&str], turn: &mut Turn<'_>) -> Result<Outcome, AllocError> {
        let mut more = Vec::new(self.alloc);
        for word in words {
            let Ok(item) = word.parse::<u8>() else {
                return Ok(Outcome::Unknown);
            };
            more.push(item)?;
        }
        turn.begin();
        let appended = self.list.append(more);
        turn.end();
        Ok(in_memory(appended))
    }

    /// Copies the list.
    fn copy(&mut self, turn: &mut Turn<'_>) -> Outcome {
        turn.begin();
        let copied = self.list.copy();
        turn.end();
        fill(&mut self.copy, copied)
    }

    /// Appends whether the copy is equal to the list.
    fn compare(&self, said: &mut String) -> Result<Outcome, AllocError> {
        match &self.copy {
            Some(copy) if *copy == self.list => said.push_str("the copy is equal\n")?,
            Some(_) => said.push_str("the copy differs\n")?,
            None => return Ok(Outcome::Unknown),
        }
        Ok(Outcome::Done)
    }

    /// Turns the list into a vector and back.
    fn turn_over(&mut self) {
        let mut list = Listed::new(self.alloc);
        std::mem::swap(&mut list, &mut self.list);
        self.list = Listed::from_vec(list.into_vec());
    }

    /// Takes the last item out, and appends it: `list pop`. `list truncate 1` takes out all behind the first one, and
    /// `list turn-over` none.
    fn cut(&mut self, words: &[&str], said: &mut String) -> Result<Outcome, AllocError> {
        match words {
            ["pop"] => match self.list.pop() {
                Some(item) => writeln!(said, "{item}")?,
                None => said.push_str("none\n")?,
            },
            ["truncate", len] => match len.parse() {
                Ok(len) => self.list.truncate(len),
                Err(_) => return Ok(Outcome::Unknown),
            },
            ["turn-over"] => self.turn_over(),
            _ => return Ok(Outcome::Unknown),
        }
        Ok(Outcome::Done)
    }

    /// Makes the call of a command about the list.
    pub(crate) fn call(
        &mut self,
        words: &[&str],
        turn: &mut Turn<'_>,
        said: &mut String,
    ) -> Result<Outcome, AllocError> {
        match words {
            ["push", item] => Ok(self.push(item, turn)),
            ["append", words @ ..] => self.append(words, turn),
            ["copy"] => Ok(self.copy(turn)),
            ["compare"] => self.compare(said),
            _ => self.cut(words, said),
        }
    }

    /// Appends the list and its length, if it has items.
    pub(crate) fn show(&self, text: &mut String) -> Result<(), AllocError> {
        if self.list.is_empty() {
            return Ok(());
        }
        writeln!(text, "list: {:?}, {} long", self.list, self.list.len())
    }

    /// Begins anew.
    pub(crate) fn clear(&mut self) {
        self.list = Listed::new(self.alloc);
        self.copy = None;
    }
}
