//! Writes streams of frames, and cuts them in pieces of several sizes. It does each once and prints how many bytes and
//! frames went through, or for a number of MiB, and then prints how many per second.
mod stream;
mod through;

use crate::clock::{in_a_second, micros_since};
use crate::streams::stream::{Stream, long, mixed, short};
use crate::streams::through::{Through, cut, write};
use anyhow::Result;
use std::alloc::Global;
use std::io::Print;
use std::time::{Clock, Instant};

/// The sizes of the pieces into which a stream is cut.
const SIZES: [usize; 3] = [1, 64, 4_096];

/// What is done with a stream.
#[derive(Clone, Copy)]
enum Work {
    Write,
    /// The stream is cut in pieces of this size.
    Cut(usize),
}

fn work_on(alloc: Global, stream: &Stream, work: Work, enough: u64) -> Result<Through> {
    match work {
        Work::Write => write(alloc, stream, enough),
        Work::Cut(size) => cut(alloc, stream, size, enough),
    }
}

fn print(rt: &impl Print, stream: &Stream, work: Work, bytes: u64, frames: u64) -> Result<()> {
    let name = stream.name;
    match work {
        Work::Write => println!(rt; "{name:6} written             {bytes:12} {frames:10}")?,
        Work::Cut(size) => println!(rt; "{name:6} cut, pieces of {size:4} {bytes:12} {frames:10}")?,
    }
    Ok(())
}

/// Does the work once, or for `mib` MiB, and prints a line.
fn run<R: Print + Clock>(
    rt: &R,
    alloc: Global,
    stream: &Stream,
    work: Work,
    mib: Option<u64>,
) -> Result<()> {
    let enough = mib.unwrap_or(0).saturating_mul(1_048_576);
    let start = Instant::now(rt)?;
    let Through { bytes, frames } = work_on(alloc, stream, work, enough)?;
    let micros = micros_since(rt, start)?;
    if mib.is_none() {
        print(rt, stream, work, bytes, frames)
    } else {
        let bytes = in_a_second(bytes, micros);
        let frames = in_a_second(frames, micros);
        print(rt, stream, work, bytes, frames)
    }
}

fn run_stream<R: Print + Clock>(
    rt: &R,
    alloc: Global,
    stream: &Stream,
    mib: Option<u64>,
) -> Result<()> {
    run(rt, alloc, stream, Work::Write, mib)?;
    for size in SIZES {
        run(rt, alloc, stream, Work::Cut(size), mib)?;
    }
    Ok(())
}

/// Prints what went through when each stream is used once, or what went through per second for `mib` MiB of each.
pub(crate) fn run_all<R: Print + Clock>(rt: &R, alloc: Global, mib: Option<u64>) -> Result<()> {
    match mib {
        Some(_) => println!(rt; "stream work                   bytes / s frames / s")?,
        None => println!(rt; "stream work                       bytes     frames")?,
    }
    run_stream(rt, alloc, &short(alloc)?, mib)?;
    run_stream(rt, alloc, &mixed(alloc)?, mib)?;
    run_stream(rt, alloc, &long(alloc)?, mib)
}
