//! Names, ids, limits, dice and lists.
use crate::name_lists::Lists;
use crate::name_orders::{push_hashed, push_ordered_ids, push_ordered_names};
use node_names::{Dice, Limits, LimitsFault, MsgId, NodeName};
use play_script::layer::{Layer, Outcome, Turn};
use play_script::words::{id, short};
use std::alloc::{AllocError, Allocator, Global};
use std::fmt::Write;

/// The limits and the lists that were made last.
#[derive(Drop)]
pub struct NameLayer<A: Allocator> {
    own: Global,
    limits: Option<Limits>,
    lists: Lists<A>,
}

/// Appends the name that a word is, or why it is none.
fn push_parsed(said: &mut String, word: &str) -> Result<(), AllocError> {
    match NodeName::parse(word.as_bytes()) {
        Ok(name) => {
            write!(said, "name: {}", name.as_str())?;
            if name.as_bytes() != word.as_bytes() {
                said.push_str(", of other bytes")?;
            }
            said.push('\n')
        }
        Err(fault) => writeln!(said, "{fault}"),
    }
}

/// Appends how an id and its parts print.
fn push_printed(said: &mut String, id: &MsgId) -> Result<(), AllocError> {
    let origin = id.origin;
    writeln!(
        said,
        "name: {}, {:?} to a programmer",
        origin.name, origin.name
    )?;
    writeln!(said, "incarnation: {}", origin.incarnation)?;
    writeln!(said, "run: {origin}")?;
    writeln!(said, "id: {id}")
}

/// Appends the words of the dice that are none in particular.
fn push_dice(said: &mut String) -> Result<(), AllocError> {
    said.push_str("dice:")?;
    for word in Dice::default().0 {
        write!(said, " {word}")?;
    }
    said.push('\n')
}

/// Appends limits.
fn push_limits(text: &mut String, limits: &Limits) -> Result<(), AllocError> {
    let (active, passive) = (limits.active(), limits.passive());
    let (arwl, prwl) = (limits.arwl(), limits.prwl());
    let (ka, kp) = (limits.ka(), limits.kp());
    let (threshold, keep) = (limits.threshold(), limits.keep());
    write!(
        text,
        "limits: active {active}, passive {passive}, arwl {arwl}, prwl {prwl}, ka {ka}, kp {kp}"
    )?;
    if threshold > 0 {
        write!(text, ", threshold {threshold}")?;
    }
    if keep > 0 {
        write!(text, ", keep {keep}")?;
    }
    text.push('\n')
}

/// Parses six sizes, and makes limits of them.
fn limits_of(words: &[&str]) -> Option<Result<Limits, LimitsFault>> {
    let [active, passive, arwl, prwl, ka, kp] = words else {
        return None;
    };
    Some(Limits::new(
        active.parse().ok()?,
        passive.parse().ok()?,
        arwl.parse().ok()?,
        prwl.parse().ok()?,
        ka.parse().ok()?,
        kp.parse().ok()?,
    ))
}

impl<A: Allocator + Copy> NameLayer<A> {
    pub fn new(alloc: A, own: Global) -> NameLayer<A> {
        NameLayer {
            own,
            limits: None,
            lists: Lists::new(alloc),
        }
    }

    /// Makes limits of six sizes: `limits 5 30 6 3 3 4`.
    fn limit(&mut self, words: &[&str], said: &mut String) -> Result<Outcome, AllocError> {
        match limits_of(words) {
            Some(Ok(limits)) => self.limits = Some(limits),
            Some(Err(fault)) => writeln!(said, "{fault}")?,
            None => return Ok(Outcome::Unknown),
        }
        Ok(Outcome::Done)
    }

    /// Changes the limits: `standard`, `default`, `tuned 3` or `keeping 4`.
    fn change(&mut self, words: &[&str]) -> Option<()> {
        self.limits = Some(match words {
            ["standard"] => Limits::STANDARD,
            ["default"] => Limits::default(),
            ["tuned", threshold] => self.limits?.tuned(short(threshold)?),
            ["keeping", keep] => self.limits?.keeping(short(keep)?),
            _ => return None,
        });
        Some(())
    }

    /// Makes the call of a command about names and ids.
    fn name(&self, words: &[&str], said: &mut String) -> Result<Outcome, AllocError> {
        match words {
            ["parse"] => push_parsed(said, "")?,
            ["parse", word] => push_parsed(said, word)?,
            ["print", message] => match id(message) {
                Some(id) => push_printed(said, &id)?,
                None => return Ok(Outcome::Unknown),
            },
            ["order", "names", words @ ..] => return push_ordered_names(self.own, said, words),
            ["order", "ids", words @ ..] => return push_ordered_ids(self.own, said, words),
            ["hash", words @ ..] => return push_hashed(self.own, said, words),
            _ => return Ok(Outcome::Unknown),
        }
        Ok(Outcome::Done)
    }
}

impl<A: Allocator + Copy> Layer for NameLayer<A> {
    fn call(
        &mut self,
        words: &[&str],
        turn: &mut Turn<'_>,
        said: &mut String,
    ) -> Result<Outcome, AllocError> {
        match words {
            ["list", words @ ..] => self.lists.call(words, turn, said),
            ["limits", words @ ..] => self.limit(words, said),
            ["dice"] => {
                push_dice(said)?;
                Ok(Outcome::Done)
            }
            _ if self.change(words).is_some() => Ok(Outcome::Done),
            _ => self.name(words, said),
        }
    }

    fn show(&self, text: &mut String) -> Result<(), AllocError> {
        if let Some(limits) = &self.limits {
            push_limits(text, limits)?;
        }
        self.lists.show(text)
    }

    fn clear(&mut self) {
        self.limits = None;
        self.lists.clear();
    }
}
