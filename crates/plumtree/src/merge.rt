//! `plumtree merge`.
ghost use Rattle.std.specs.Prelude.{◌≤◌};

use crate::run_group::{GroupError, write_records};
use crate::stream::{StreamError, write_stream};
use clap::{Arg, ArgAction, ArgMatches, Command};
use merge_command::{RecordsError, place_of, read_group};
use scenario::ScenarioError;
use simulation::{Form, report};
use std::alloc::{AllocError, Global};
use std::fs::File;
use std::io::Write;
use std::rt::Files;
use trace_merge::MergeFault;

/// The text below the help.
const AFTER_HELP: &str = "Example: plumtree merge /var/lib/plumtree/a /var/lib/plumtree/b";

/// Makes the subcommand `merge`, with all its arguments.
pub fn command<'a>(alloc: Global, trace: Arg<'a>, dot: Arg<'a>) -> Result<Command<'a>, AllocError> {
    let folders = Arg::new(alloc, "FOLDER")
        .required(true)
        .num_args(1..)
        .action(ArgAction::Append)
        .help("A folder with the records of nodes, as --record of plumtree node keeps them");
    let stream = Arg::new(alloc, "stream")
        .long("stream")
        .action(ArgAction::SetTrue)
        .help(
            "Takes memory for what is in flight alone, however long the records are, and prints no trees",
        )
        .conflicts_with("trace")?
        .conflicts_with("dot")?;
    Command::new(alloc, "merge")
        .about("Replays the records of a cluster's nodes and joins them into one run of a group")
        .after_help(AFTER_HELP)
        .arg(trace)?
        .arg(dot)?
        .arg(stream)?
        .arg(folders)
}

/// The folders that the words name.
pub(crate) fn folders_of<'w>(words: &'w ArgMatches<'_>) -> &'w [&'w str] {
    words.get_raw("FOLDER").unwrap_or(&[])
}

/// The form of the output.
fn form_of(words: &ArgMatches<'_>) -> Form {
    if words.get_flag("trace") {
        Form::Trace
    } else if words.get_flag("dot") {
        Form::Graph(None)
    } else {
        Form::Lines
    }
}

/// Writes why records were not read. Returns the exit status.
fn refuse<F: Write>(error: RecordsError, faults: &mut F) -> u8
    ensures { result ≤ 2 }
{
    match error {
        RecordsError::OutOfMemory => report(faults, ScenarioError::OutOfMemory, 1),
        error => report(faults, error, 1),
    }
}

/// Writes where in the files of the folders it stands that does not fit into one run. Returns the exit status.
fn locate<R, F>(rt: &R, folders: &[&str], fault: &MergeFault, faults: &mut F) -> u8
where
    R: AllocGlobal + Files<File = File> + Clone + Drop,
    F: Write,
    ensures { result ≤ 2 }
{
    match place_of(rt, folders, fault) {
        Ok(Some(place)) => report(faults, place, 1),
        Ok(None) => 1,
        Err(error) => refuse(error, faults),
    }
}

/// Writes what does not fit into one run, unless the output has it, and where it stands. Returns the exit status.
fn unfit<R, F>(rt: &R, folders: &[&str], is_plain: bool, fault: &MergeFault, faults: &mut F) -> u8
where
    R: AllocGlobal + Files<File = File> + Clone + Drop,
    F: Write,
    ensures { result ≤ 2 }
{
    if !is_plain {
        report(faults, *fault, 1);
    }
    locate(rt, folders, fault, faults)
}

/// What does not fit into one run, if that is why one was not written to its end.
fn unmerged(ended: &Result<(), GroupError>) -> Option<MergeFault> {
    match ended {
        Err(GroupError::Unmerged(fault)) => Some(*fault),
        _ => None,
    }
}

/// What does not fit into one run, if that is why records were not followed to their end.
fn unmerged_stream(ended: &Result<(), StreamError>) -> Option<MergeFault> {
    match ended {
        Err(StreamError::Unmerged(fault)) => Some(*fault),
        _ => None,
    }
}

/// Writes why a run was not written to its end, if it was not, but for what does not fit into one run. Returns the exit
/// status.
fn conclude<F: Write>(ended: Result<(), GroupError>, faults: &mut F) -> u8
    ensures { result ≤ 2 }
{
    match ended {
        Ok(()) => 0,
        Err(GroupError::Unmerged(_) | GroupError::Unwritten) => 1,
        Err(_) => report(faults, ScenarioError::OutOfMemory, 1),
    }
}

/// Writes why records were not followed to their end, if they were not, but for what does not fit into one run. Returns
/// the exit status.
fn conclude_stream<F: Write>(ended: Result<(), StreamError>, faults: &mut F) -> u8
    ensures { result ≤ 2 }
{
    match ended {
        Ok(()) => 0,
        Err(StreamError::Records(error)) => refuse(error, faults),
        Err(StreamError::OutOfMemory) => report(faults, ScenarioError::OutOfMemory, 1),
        Err(StreamError::Unmerged(_) | StreamError::Unwritten) => 1,
    }
}

/// Follows the records of the folders that the words name, and writes what they deliver. Returns the exit status.
fn stream_as_told<R, W, F>(rt: &R, words: &ArgMatches<'_>, out: &mut W, faults: &mut F) -> u8
where
    R: AllocGlobal + Files<File = File> + Clone + Drop,
    W: Write,
    F: Write,
    ensures { result ≤ 2 }
{
    let ended = write_stream(rt, words, out, faults);
    let fault = unmerged_stream(&ended);
    let status = conclude_stream(ended, faults);
    match fault {
        Some(fault) => locate(rt, folders_of(words), &fault, faults),
        None => status,
    }
}

/// Ends a merge: writes why it was not written to its end, if it was not, and where what does not fit stands. Returns
/// the exit status.
fn end_merge<R, F>(
    rt: &R,
    folders: &[&str],
    is_plain: bool,
    ended: Result<(), GroupError>,
    faults: &mut F,
) -> u8
where
    R: AllocGlobal + Files<File = File> + Clone + Drop,
    F: Write,
    ensures { result ≤ 2 }
{
    let fault = unmerged(&ended);
    let status = conclude(ended, faults);
    match fault {
        Some(fault) => unfit(rt, folders, is_plain, &fault, faults),
        None => status,
    }
}

/// Reads, replays and merges the records of the folders that the words name, and writes their run. Returns the exit
/// status.
pub fn merge_as_told<R, W, F>(rt: &R, words: &ArgMatches<'_>, out: &mut W, faults: &mut F) -> u8
where
    R: AllocGlobal + Files<File = File> + Clone + Drop,
    W: Write,
    F: Write,
    ensures { result ≤ 2 }
{
    if words.get_flag("stream") {
        return stream_as_told(rt, words, out, faults);
    }
    let folders = folders_of(words);
    let form = form_of(words);
    let is_plain = form == Form::Lines;
    match read_group(rt, folders, faults) {
        Ok(group) => {
            let ended = write_records(rt.alloc(), form, &group, out);
            end_merge(rt, folders, is_plain, ended, faults)
        }
        Err(error) => refuse(error, faults),
    }
}
