//! Plumtree broadcast over HyParView membership, played from a scenario.
#![tactic(auto)]

mod arguments;
mod code;
mod merge;
mod node;
mod output;
mod program;
mod progress;
mod run_group;
mod stream;
mod version;

use output::Output;
use scenario::ScenarioError;
use simulation::report;
use std::io::BufWriter;
use std::process::ExitCode;

/// How many bytes of output are buffered for one write.
const OUTPUT_ROOM: usize = 65_536;

fn main(rt: HostRuntime) -> ExitCode {
    let mut faults = rt.stderr();
    let status = match BufWriter::with_capacity(rt.alloc(), OUTPUT_ROOM, Output::new(rt.stdout())) {
        Ok(mut out) => program::run(&rt, &mut out, &mut faults),
        Err(_) => report(&mut faults, ScenarioError::OutOfMemory, 1),
    };
    ExitCode::from(status)
}
