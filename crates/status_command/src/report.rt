//! The text that describes a group.
use crate::answer::Answer;
use crate::group::Group;
use std::fmt;

impl fmt::Display for Group {
    fn fmt<W: fmt::Write>(&self, f: &mut fmt::Formatter<W>) -> fmt::Result {
        for answer in &self.answers {
            write!(f, "{answer}\n")?;
        }
        for finding in &self.findings {
            write!(f, "{finding}\n")?;
        }
        write_parts(self, f)
    }
}

/// Writes how the nodes hang together.
fn write_parts<W: fmt::Write>(group: &Group, f: &mut fmt::Formatter<W>) -> fmt::Result {
    match (group.answers.len(), group.parts()) {
        (0, _) => f.write_str("no node answered\n"),
        (1, _) => f.write_str("one node answered\n"),
        (nodes, 1) => write!(f, "all {nodes} are connected\n"),
        (_, parts) => {
            write!(f, "the group is in {parts} parts: ")?;
            write_members(group, f)
        }
    }
}

/// Writes the names of the nodes of each part.
fn write_members<W: fmt::Write>(group: &Group, f: &mut fmt::Formatter<W>) -> fmt::Result {
    let firsts = group.parts.firsts();
    for (index, first) in firsts.iter().enumerate() {
        if index == *first {
            f.write_str(if index == 0 { "" } else { " | " })?;
            write_part(index, &group.answers, firsts, f)?;
        }
    }
    f.write_str("\n")
}

/// Writes the names of the nodes of the part whose first node has this index.
fn write_part<W: fmt::Write>(
    part: usize,
    answers: &[Answer],
    firsts: &[usize],
    f: &mut fmt::Formatter<W>,
) -> fmt::Result {
    for (index, (answer, first)) in answers.iter().zip(firsts).enumerate() {
        if *first == part {
            f.write_str(if index == part { "" } else { ", " })?;
            write!(f, "{}", answer.status.name)?;
        }
    }
    Ok(())
}
