//! The two views of a node: `start` makes them, and the others are their calls.
//!
//! `tight` in front of a call puts a copy of the views in their place first. A copy has no memory to spare, so the call
//! has to ask for all that it needs.
use crate::membership_texts::push_views;
use crate::starting::start_of;
use node_names::{Dice, NodeName};
use play_script::frame_words::dice;
use play_script::layer::{Layer, Outcome, Turn, fill, in_memory};
use play_script::lists::{push_names, yes_or_no};
use play_script::words::{after, before, name, names, number};
use std::alloc::{AllocError, Allocator};
use std::fmt::Write;
use views::Views;

/// Views, once they were made.
#[derive(Drop)]
pub struct ViewsLayer<A: Allocator> {
    alloc: A,
    views: Option<Views<A>>,
}

/// Says a name behind `what`, if there is one.
fn say_name(
    said: &mut String,
    what: &str,
    answer: Result<Option<NodeName>, AllocError>,
) -> Result<Outcome, AllocError> {
    match answer {
        Ok(Some(name)) => writeln!(said, "{what} {name}")?,
        Ok(None) => {}
        Err(_) => return Ok(Outcome::NoMemory),
    }
    Ok(Outcome::Done)
}

/// Says `yes` or `no`.
fn say(said: &mut String, answer: Result<bool, AllocError>) -> Result<Outcome, AllocError> {
    match answer {
        Ok(is_so) => writeln!(said, "{}", yes_or_no(is_so))?,
        Err(_) => return Ok(Outcome::NoMemory),
    }
    Ok(Outcome::Done)
}

/// Adds a name to a view, and says which name had to leave that view.
fn add<A: Allocator + Copy>(
    views: &mut Views<A>,
    new: &str,
    is_active: bool,
    dice: &Dice,
    turn: &mut Turn<'_>,
    said: &mut String,
) -> Result<Outcome, AllocError> {
    let Some(new) = name(new) else {
        return Ok(Outcome::Unknown);
    };
    turn.begin();
    let answer = if is_active {
        views.add_active(new, dice)
    } else {
        views.add_passive(new, dice)
    };
    turn.end();
    say_name(said, if is_active { "demoted" } else { "evicted" }, answer)
}

/// Demotes an active name by the dice, and says which.
fn drop_active<A: Allocator + Copy>(
    views: &mut Views<A>,
    dice: &Dice,
    turn: &mut Turn<'_>,
    said: &mut String,
) -> Result<Outcome, AllocError> {
    turn.begin();
    let answer = views.drop_active(dice);
    turn.end();
    say_name(said, "demoted", answer)
}

/// Demotes a name, and says whether it was active.
fn demote<A: Allocator + Copy>(
    views: &mut Views<A>,
    old: &str,
    dice: &Dice,
    turn: &mut Turn<'_>,
    said: &mut String,
) -> Result<Outcome, AllocError> {
    let Some(old) = name(old) else {
        return Ok(Outcome::Unknown);
    };
    turn.begin();
    let answer = views.demote(old, dice);
    turn.end();
    say(said, answer)
}

/// Takes a name out of the views, and says whether one had it.
fn forget<A: Allocator>(
    views: &mut Views<A>,
    old: &str,
    turn: &mut Turn<'_>,
    said: &mut String,
) -> Result<Outcome, AllocError> {
    let Some(old) = name(old) else {
        return Ok(Outcome::Unknown);
    };
    turn.begin();
    let found = views.forget(old);
    turn.end();
    say(said, Ok(found))
}

/// Adds names to the passive view, for which the names that were sent leave first: `integrate s t sent r`.
fn integrate<A: Allocator + Copy>(
    alloc: A,
    views: &mut Views<A>,
    words: &[&str],
    dice: &Dice,
    turn: &mut Turn<'_>,
) -> Result<Outcome, AllocError> {
    let (Some(given), Some(sent)) = (
        names(alloc, before(words, "sent"))?,
        names(alloc, after(words, "sent"))?,
    ) else {
        return Ok(Outcome::Unknown);
    };
    turn.begin();
    let answer = views.integrate(given.as_slice(), sent.as_slice(), dice);
    turn.end();
    Ok(in_memory(answer))
}

/// Parses numbers.
fn numbers<A: Allocator + Copy>(
    alloc: A,
    words: &[&str],
) -> Result<Option<Vec<u64, A>>, AllocError> {
    let mut found = Vec::new(alloc);
    for word in words {
        let Some(number) = number(word) else {
            return Ok(None);
        };
        found.push(number)?;
    }
    Ok(Some(found))
}

/// Says the names that a sample drew, if it drew any.
fn say_drawn<A: Allocator>(
    said: &mut String,
    answer: Result<Vec<NodeName, A>, AllocError>,
) -> Result<Outcome, AllocError> {
    let Ok(drawn) = answer else {
        return Ok(Outcome::NoMemory);
    };
    if !drawn.is_empty() {
        said.push_str("drawn:")?;
        push_names(said, drawn.as_slice())?;
        said.push('\n')?;
    }
    Ok(Outcome::Done)
}

/// Draws active names other than one by these words: `sample-active 2 but z by 0 0`.
fn sample_active<A: Allocator + Copy>(
    alloc: A,
    views: &Views<A>,
    count: &str,
    except: &str,
    words: &[&str],
    turn: &mut Turn<'_>,
    said: &mut String,
) -> Result<Outcome, AllocError> {
    let (Ok(count), Some(except), Some(words)) = (
        count.parse::<usize>(),
        name(except),
        numbers(alloc, words)?,
    ) else {
        return Ok(Outcome::Unknown);
    };
    if count > words.len() {
        return Ok(Outcome::Unknown);
    }
    turn.begin();
    let answer = views.sample_active(count, except, words.as_slice());
    turn.end();
    say_drawn(said, answer)
}

/// Draws passive names by these words: `sample-passive 2 by 1 0`.
fn sample_passive<A: Allocator + Copy>(
    alloc: A,
    views: &Views<A>,
    count: &str,
    words: &[&str],
    turn: &mut Turn<'_>,
    said: &mut String,
) -> Result<Outcome, AllocError> {
    let (Ok(count), Some(words)) = (count.parse::<usize>(), numbers(alloc, words)?) else {
        return Ok(Outcome::Unknown);
    };
    if count > words.len() {
        return Ok(Outcome::Unknown);
    }
    turn.begin();
    let answer = views.sample_passive(count, words.as_slice());
    turn.end();
    say_drawn(said, answer)
}

/// Says what the readers return that do not show the views: whose views these are, and how many names they may have.
fn read<A: Allocator>(
    views: &Views<A>,
    turn: &mut Turn<'_>,
    said: &mut String,
) -> Result<Outcome, AllocError> {
    turn.begin();
    let (owner, limits) = (views.owner(), views.limits());
    let names = views.active().len() + views.passive().len();
    turn.end();
    writeln!(
        said,
        "{names} names in the views of {owner}, of at most {} active and {} passive names",
        limits.active(),
        limits.passive()
    )?;
    Ok(Outcome::Done)
}

/// Makes a call that changes views or only reads them.
fn change<A: Allocator + Copy>(
    alloc: A,
    views: &mut Views<A>,
    words: &[&str],
    dice: &Dice,
    turn: &mut Turn<'_>,
    said: &mut String,
) -> Result<Outcome, AllocError> {
    match words {
        ["add-active", new] => add(views, new, true, dice, turn, said),
        ["add-passive", new] => add(views, new, false, dice, turn, said),
        ["drop-active"] => drop_active(views, dice, turn, said),
        ["demote", old] => demote(views, old, dice, turn, said),
        ["forget", old] => forget(views, old, turn, said),
        ["integrate", words @ ..] => integrate(alloc, views, words, dice, turn),
        ["sample-active", count, "but", except, "by", words @ ..] => {
            sample_active(alloc, views, count, except, words, turn, said)
        }
        ["sample-passive", count, "by", words @ ..] => {
            sample_passive(alloc, views, count, words, turn, said)
        }
        ["read"] => read(views, turn, said),
        _ => Ok(Outcome::Unknown),
    }
}

impl<A: Allocator + Copy> ViewsLayer<A> {
    pub fn new(alloc: A) -> ViewsLayer<A> {
        ViewsLayer { alloc, views: None }
    }

    /// Makes the views of a node: `start x active 2 passive 2 peers a b`. Limits that are not given are the standard
    /// ones.
    fn start(
        &mut self,
        owner: &str,
        words: &[&str],
        turn: &mut Turn<'_>,
    ) -> Result<Outcome, AllocError> {
        let Some(start) = start_of(self.alloc, owner, words)? else {
            return Ok(Outcome::Unknown);
        };
        turn.begin();
        let made = Views::new(
            self.alloc,
            start.owner,
            start.limits,
            start.peers.as_slice(),
        );
        turn.end();
        Ok(fill(&mut self.views, made))
    }

    /// Puts a copy of the views in their place.
    fn copy(&mut self, turn: &mut Turn<'_>) -> Outcome {
        let Some(views) = &self.views else {
            return Outcome::Unknown;
        };
        turn.begin();
        let made = views.copy();
        turn.end();
        fill(&mut self.views, made)
    }

    /// Puts a copy of the views in their place, which has no memory to spare.
    fn tighten(&mut self) -> Result<(), AllocError> {
        if let Some(views) = &self.views {
            let copy = views.copy()?;
            self.views = Some(copy);
        }
        Ok(())
    }

    /// Makes a call that changes the views or only reads them.
    fn change(
        &mut self,
        words: &[&str],
        dice: &Dice,
        turn: &mut Turn<'_>,
        said: &mut String,
    ) -> Result<Outcome, AllocError> {
        match &mut self.views {
            Some(views) => change(self.alloc, views, words, dice, turn, said),
            None => Ok(Outcome::Unknown),
        }
    }
}

impl<A: Allocator + Copy> Layer for ViewsLayer<A> {
    fn call(
        &mut self,
        words: &[&str],
        turn: &mut Turn<'_>,
        said: &mut String,
    ) -> Result<Outcome, AllocError> {
        let Some(dice) = dice(after(words, "dice")) else {
            return Ok(Outcome::Unknown);
        };
        match before(words, "dice") {
            ["start", owner, words @ ..] => self.start(owner, words, turn),
            ["copy"] => Ok(self.copy(turn)),
            ["tight", words @ ..] => {
                self.tighten()?;
                self.change(words, &dice, turn, said)
            }
            words => self.change(words, &dice, turn, said),
        }
    }

    fn show(&self, text: &mut String) -> Result<(), AllocError> {
        match &self.views {
            Some(views) => push_views(text, views),
            None => Ok(()),
        }
    }

    fn clear(&mut self) {
        self.views = None;
    }
}
