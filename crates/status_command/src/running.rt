//! Asks the nodes that the words name, and tells what they say.
ghost use Rattle.std.specs.Prelude.{◌≤◌};

use crate::answer::Answer;
use crate::asking::ask;
use crate::error::WordError;
use crate::group::Group;
use crate::options::{StatusOptions, read};
use clap::ArgMatches;
use std::alloc::AllocError;
use std::io;
use std::io::Write;
use std::net::{Net, TcpListener, TcpStream};
use std::time::Clock;

/// Asks the nodes that the words name, one after the other, writes how the group is to `out`, and which nodes do not
/// answer to `faults`. Returns the exit status: 0 if all is well with the group, 2 if the words are wrong, and else 1.
///
/// `words` are those that the subcommand of `command` found.
pub fn run_status<R, W, F>(rt: &R, words: &ArgMatches<'_>, out: &mut W, faults: &mut F) -> u8
where
    R: AllocGlobal + Clock + Net<Listener = TcpListener, Stream = TcpStream>,
    W: Write,
    F: Write,
    ensures { result ≤ 2 }
{
    match read(rt.alloc(), words) {
        Ok(options) => tell(rt, &options, out, faults),
        Err(error) => {
            let status = status_of(&error);
            write_fault(faults, &error);
            status
        }
    }
}

/// The status of the program that ends for these words.
fn status_of(error: &WordError) -> u8
    ensures { result ≤ 2 }
{
    match error {
        WordError::OutOfMemory => 1,
        _ => 2,
    }
}

/// Writes why nothing was asked. The status tells as well, so that nothing is lost if this fails.
fn write_fault<F: Write>(faults: &mut F, error: &WordError) {
    let _ = writeln!(faults, "plumtree: {error}");
    let _ = faults.flush();
}

/// Asks the nodes, and tells what they say.
fn tell<R, W, F>(rt: &R, options: &StatusOptions, out: &mut W, faults: &mut F) -> u8
where
    R: AllocGlobal + Clock + Net<Listener = TcpListener, Stream = TcpStream>,
    W: Write,
    F: Write,
    ensures { result ≤ 2 }
{
    match group_of(rt, options, faults) {
        Ok(group) => {
            let all_answered = group.answers().len() == options.addresses.len();
            let is_told = write_group(out, &group, options.is_drawn).is_ok();
            u8::from(!(all_answered && group.is_sound() && is_told))
        }
        Err(AllocError) => {
            write_fault(faults, &WordError::OutOfMemory);
            1
        }
    }
}

/// Asks the nodes. Those that do not answer are told.
fn group_of<R, F>(rt: &R, options: &StatusOptions, faults: &mut F) -> Result<Group, AllocError>
where
    R: AllocGlobal + Clock + Net<Listener = TcpListener, Stream = TcpStream>,
    F: Write,
{
    let alloc = rt.alloc();
    let mut answers = Vec::new(alloc);
    for at in &options.addresses {
        match ask(rt, alloc, *at, options.timeout) {
            Ok(status) => answers.push(Answer { at: *at, status })?,
            Err(error) => {
                let _ = writeln!(faults, "{at}: {error}");
            }
        }
    }
    let _ = faults.flush();
    Group::new(alloc, answers)
}

fn write_group<W: Write>(out: &mut W, group: &Group, is_drawn: bool) -> io::Result<()> {
    if is_drawn {
        write!(out, "{}", group.drawing())?;
    } else {
        write!(out, "{group}")?;
    }
    out.flush()
}
