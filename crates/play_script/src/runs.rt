//! Answers to numbered variations of a call, where those in a row with one answer share a line.
use std::alloc::AllocError;
use std::fmt::Write;

/// The last answer, and the numbers of the variations that gave it.
#[derive(Drop)]
pub struct Runs<'a> {
    before: &'a str,
    after: &'a str,
    first: usize,
    last: usize,
    answer: Option<String>,
}

impl<'a> Runs<'a> {
    /// Begins with no answer. The words `before` and `after` stand around the numbers of each line.
    pub fn new(before: &'a str, after: &'a str) -> Runs<'a> {
        Runs {
            before,
            after,
            first: 0,
            last: 0,
            answer: None,
        }
    }

    /// Takes the answer of the next variation. If it differs from the last one, the line of that one is appended.
    pub fn add(
        &mut self,
        text: &mut String,
        number: usize,
        answer: String,
    ) -> Result<(), AllocError> {
        let is_same = match &self.answer {
            Some(last) => *last == answer,
            None => false,
        };
        if !is_same {
            self.end(text)?;
            self.first = number;
            self.answer = Some(answer);
        }
        self.last = number;
        Ok(())
    }

    /// Appends the line of the last answer.
    pub fn end(&mut self, text: &mut String) -> Result<(), AllocError> {
        let Some(answer) = self.answer.take() else {
            return Ok(());
        };
        write!(text, "{}{}", self.before, self.first)?;
        if self.last > self.first {
            write!(text, " to {}", self.last)?;
        }
        writeln!(text, "{}: {answer}", self.after)
    }
}
