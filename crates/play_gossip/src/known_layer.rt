//! The ids that a node knows, kept as spans.
use known_messages::KnownIds;
use node_names::{MsgId, Origin};
use play_script::layer::{Layer, Outcome, Turn, fill};
use play_script::lists::yes_or_no;
use play_script::words::{id, origin};
use std::alloc::{AllocError, Allocator, Global};
use std::fmt::Write;

/// Known ids, and the runs of which a command spoke.
#[derive(Drop)]
pub struct KnownLayer<A: Allocator> {
    alloc: A,
    known: Option<KnownIds<A>>,
    runs: Vec<Origin>,
}

/// Adds an id, for which room is made first.
fn add<A: Allocator + Copy>(known: &mut KnownIds<A>, id: &MsgId) -> Result<(), AllocError> {
    known.make_room(id)?;
    known.insert(id);
    Ok(())
}

impl<A: Allocator + Copy> KnownLayer<A> {
    pub fn new(alloc: A, own: Global) -> KnownLayer<A> {
        KnownLayer {
            alloc,
            known: Some(KnownIds::new(alloc)),
            runs: Vec::new(own),
        }
    }

    /// Notes a run of which `show` tells the span.
    fn note(&mut self, run: Origin) -> Result<(), AllocError> {
        if !self.runs.contains(&run) {
            self.runs.push(run)?;
        }
        Ok(())
    }

    /// Adds an id, and says whether it was known before.
    fn add(
        &mut self,
        message: &str,
        turn: &mut Turn<'_>,
        said: &mut String,
    ) -> Result<Outcome, AllocError> {
        let Some(id) = id(message) else {
            return Ok(Outcome::Unknown);
        };
        let Some(known) = &mut self.known else {
            return Ok(Outcome::Unknown);
        };
        let was_known = known.contains(&id);
        turn.begin();
        let answer = add(known, &id);
        turn.end();
        if answer.is_err() {
            return Ok(Outcome::NoMemory);
        }
        if was_known {
            said.push_str("known already\n")?;
        }
        self.note(id.origin)?;
        Ok(Outcome::Done)
    }

    /// Says whether an id is known.
    fn contains(&self, message: &str, said: &mut String) -> Result<Outcome, AllocError> {
        let (Some(known), Some(id)) = (&self.known, id(message)) else {
            return Ok(Outcome::Unknown);
        };
        writeln!(said, "{}", yes_or_no(known.contains(&id)))?;
        Ok(Outcome::Done)
    }

    /// Puts a copy in its place.
    fn copy(&mut self, turn: &mut Turn<'_>) -> Outcome {
        let Some(known) = &self.known else {
            return Outcome::Unknown;
        };
        turn.begin();
        let made = known.copy();
        turn.end();
        fill(&mut self.known, made)
    }

    /// Has `show` tell the span of a run.
    fn watch(&mut self, run: &str) -> Result<Outcome, AllocError> {
        match origin(run) {
            Some(run) => {
                self.note(run)?;
                Ok(Outcome::Done)
            }
            None => Ok(Outcome::Unknown),
        }
    }
}

impl<A: Allocator + Copy> Layer for KnownLayer<A> {
    fn call(
        &mut self,
        words: &[&str],
        turn: &mut Turn<'_>,
        said: &mut String,
    ) -> Result<Outcome, AllocError> {
        match words {
            ["add", message] => self.add(message, turn, said),
            ["contains", message] => self.contains(message, said),
            ["watch", run] => self.watch(run),
            ["copy"] => Ok(self.copy(turn)),
            _ => Ok(Outcome::Unknown),
        }
    }

    fn clear(&mut self) {
        self.known = Some(KnownIds::new(self.alloc));
        self.runs.clear();
    }

    fn show(&self, text: &mut String) -> Result<(), AllocError> {
        let Some(known) = &self.known else {
            return Ok(());
        };
        for run in &self.runs {
            let (unbroken, past) = known.span(run);
            writeln!(text, "{run}: {unbroken} without a gap, {past} past it")?;
        }
        Ok(())
    }
}
