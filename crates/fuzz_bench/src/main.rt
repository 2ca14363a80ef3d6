//! Answers cases of `bench/fuzz`: each line of standard input is a stream of bytes and how it arrives, or, behind the
//! word `node`, calls of a node of bytes. The line that is printed for it says what `decode`, a cutter and `pump`
//! return for the stream, or what the calls answer and which steps they make.
#![tactic(auto)]

mod answers;
mod calls;
mod case;
mod sending;
mod sink;
mod stepping_node;
mod steps;
mod text;

use crate::answers::push_answers;
use crate::calls::push_called;
use crate::case::Case;
use crate::stepping_node::SteppingNode;
use anyhow::Result;
use std::alloc::Global;
use std::io;
use std::io::{BufRead, BufReader, BufWriter, Write};
use wire_node::{Recorded, WireNode};

/// The buffer sizes of input and output, in bytes.
const ROOM: usize = 65_536;

/// Appends the answers to a stream.
fn answer_stream(alloc: Global, text: &mut String, line: &str) -> Result<()> {
    let case = Case::parse(alloc, line)?;
    push_answers(alloc, text, &case)
}

/// Replaces a text with the answers to a line.
fn answer<N: SteppingNode>(alloc: Global, text: &mut String, line: &str) -> Result<()> {
    text.clear();
    match line.strip_prefix("node ") {
        Some(rest) => push_called::<N>(alloc, text, rest),
        None => answer_stream(alloc, text, line),
    }
}

fn main(rt: HostRuntime) -> Result<()> {
    let alloc = rt.alloc();
    let mut out = BufWriter::with_capacity(alloc, ROOM, io::writer(&rt))?;
    let mut text = String::new(alloc);
    for line in BufReader::with_capacity(alloc, ROOM, rt.reader())?.lines(alloc) {
        let line = line?;
        answer::<WireNode<Global, Recorded>>(alloc, &mut text, line.as_str())?;
        writeln!(out, "{text}")?;
    }
    out.flush()?;
    Ok(())
}
