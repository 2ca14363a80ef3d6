//! The order of names and ids, and ids in a set.
ghost use Rattle.std.specs.Prelude.{◌≡◌, ◌↔◌, IsTrue};
ghost use Rattle.node_names.specs.Same.{same_id};
ghost use Rattle.node_names.specs.Order.{id_cmp};

use node_names::{MsgId, NodeName};
use play_script::layer::Outcome;
use play_script::words::{after, before, id, names};
use std::alloc::{AllocError, Global};
use std::cmp::Ordering;
use std::collections::HashSet;
use std::fmt::Write;

/// Returns whether ids are equal. The derived `==` is the test of the specs.
fn are_same(a: &MsgId, b: &MsgId) -> bool
    ensures test { result ≡ same_id a.now b.now }
    ensures equal { IsTrue result ↔ (a.now ≡ b.now) }
{
    a == b
}

/// Compares ids. The derived order is the order of the specs.
fn compared(a: &MsgId, b: &MsgId) -> Ordering
    ensures { result ≡ id_cmp a.now b.now }
{
    a.cmp(b)
}

/// Returns the sign between two values that compare so, or `?` if `==` says something else.
fn sign(order: Ordering, are_same: bool) -> &'static str {
    match (order, are_same) {
        (Ordering::Less, false) => " < ",
        (Ordering::Equal, true) => " = ",
        (Ordering::Greater, false) => " > ",
        _ => " ? ",
    }
}

/// Parses ids.
fn ids(own: Global, words: &[&str]) -> Result<Option<Vec<MsgId>>, AllocError> {
    let mut found = Vec::new(own);
    for word in words {
        let Some(id) = id(word) else {
            return Ok(None);
        };
        found.push(id)?;
    }
    Ok(Some(found))
}

/// Appends names, and between any two how they compare.
pub(crate) fn push_ordered_names(
    own: Global,
    said: &mut String,
    words: &[&str],
) -> Result<Outcome, AllocError> {
    let Some(names) = names(own, words)? else {
        return Ok(Outcome::Unknown);
    };
    let mut last: Option<NodeName> = None;
    for name in names.as_slice() {
        if let Some(last) = last {
            said.push_str(sign(last.cmp(name), last == *name))?;
        }
        write!(said, "{name}")?;
        last = Some(*name);
    }
    said.push('\n')?;
    Ok(Outcome::Done)
}

/// Appends ids, and between any two how they compare.
pub(crate) fn push_ordered_ids(
    own: Global,
    said: &mut String,
    words: &[&str],
) -> Result<Outcome, AllocError> {
    let Some(ids) = ids(own, words)? else {
        return Ok(Outcome::Unknown);
    };
    let mut last: Option<MsgId> = None;
    for id in ids.as_slice() {
        if let Some(last) = last {
            said.push_str(sign(compared(&last, id), are_same(&last, id)))?;
        }
        write!(said, "{id}")?;
        last = Some(*id);
    }
    said.push('\n')?;
    Ok(Outcome::Done)
}

/// Puts ids into a set, and appends of each whether it is new there.
fn push_inserted(
    said: &mut String,
    set: &mut HashSet<MsgId>,
    ids: &[MsgId],
) -> Result<(), AllocError> {
    for id in ids {
        let is_new = set.insert(*id)?;
        writeln!(said, "{id} {}", if is_new { "is new" } else { "was there" })?;
    }
    Ok(())
}

/// Puts ids into a set, and asks it for others: `hash a/1/1 a/1/2 asks a/1/2 b/1/1`.
pub(crate) fn push_hashed(
    own: Global,
    said: &mut String,
    words: &[&str],
) -> Result<Outcome, AllocError> {
    let (Some(put), Some(asked)) = (
        ids(own, before(words, "asks"))?,
        ids(own, after(words, "asks"))?,
    ) else {
        return Ok(Outcome::Unknown);
    };
    let mut set = HashSet::new(own);
    push_inserted(said, &mut set, put.as_slice())?;
    for id in asked.as_slice() {
        let is_there = set.contains(id);
        writeln!(
            said,
            "{id} {}",
            if is_there { "is there" } else { "is not there" }
        )?;
    }
    Ok(Outcome::Done)
}
