//! Plays cases: reads commands from standard input, makes the calls, and prints the commands with what each gave.
#![tactic(auto)]

mod allocator_layer;
mod casting;

use crate::casting::play_all;
use anyhow::Result;
use refusing_allocator::RefusingAllocator;
use std::io;
use std::io::{BufWriter, Read, Write};

/// The buffer size of the output, in bytes.
const ROOM: usize = 65_536;

fn main(rt: HostRuntime) -> Result<()> {
    let alloc = rt.alloc();
    let mut text = String::new(alloc);
    rt.reader().read_to_string(&mut text)?;
    let heap = RefusingAllocator::new(alloc);
    let mut out = String::new(alloc);
    play_all(&heap, alloc, text.as_str(), &mut out)?;
    let mut writer = BufWriter::with_capacity(alloc, ROOM, io::writer(&rt))?;
    write!(writer, "{out}")?;
    writer.flush()?;
    Ok(())
}
