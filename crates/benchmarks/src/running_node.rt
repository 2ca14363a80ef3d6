//! A running node, with four links each way: how many frames go in and out, and how long that takes.
mod draining;
mod messages;
mod running;
mod tally;
mod writing;

use crate::clock::in_a_second;
use crate::plumtree::MeasuredNode;
use crate::running_node::messages::Sent;
use crate::running_node::running::run;
use anyhow::Result;
use std::alloc::Global;
use std::io::Print;
use std::sync::Wait;
use std::thread::Threads;
use std::time::Clock;

/// How many messages come in when nothing is measured.
const TOLD: u64 = 1_000;

/// Prints how many frames went in and out.
fn tell_sent(rt: &impl Print, sent: &Sent) -> Result<()> {
    let Sent {
        frames_in,
        frames_out,
        ..
    } = *sent;
    println!(rt; "frames in  frames out")?;
    println!(rt; "{frames_in:9} {frames_out:11}")?;
    Ok(())
}

/// Prints how long that took.
fn tell_time(rt: &impl Print, sent: &Sent, held: u64) -> Result<()> {
    let taken = in_a_second(sent.frames_in, sent.micros);
    let written = in_a_second(sent.frames_out, sent.micros);
    println!(rt; "{held} messages held: {taken} frames in and {written} out in a second")?;
    Ok(())
}

/// Prints how many frames go in and out.
pub(crate) fn tell<R, C>(rt: R, alloc: Global) -> Result<()>
where
    R: Print + Clock + Threads + Wait + Copy + Send + Drop + 'static,
    C: MeasuredNode,
{
    let sent = run::<R, C>(rt, alloc, TOLD, 0)?;
    tell_sent(&rt, &sent)
}

/// Prints how long it takes until `count` messages are passed on, while `held` others are held.
pub(crate) fn measure<R, C>(rt: R, alloc: Global, count: u64, held: u64) -> Result<()>
where
    R: Print + Clock + Threads + Wait + Copy + Send + Drop + 'static,
    C: MeasuredNode,
{
    let sent = run::<R, C>(rt, alloc, count, held)?;
    tell_sent(&rt, &sent)?;
    tell_time(&rt, &sent, held)
}
