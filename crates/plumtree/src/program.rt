//! The program over any system: its arguments, its scenario and its two streams; or a node of a cluster.
ghost use Rattle.std.specs.Prelude.{◌≡◌, ◌≤◌, IfSome};

use crate::arguments;
use crate::arguments::{Host, Request, Task};
use crate::code::RunCode;
use crate::merge::merge_as_told;
use crate::node::run_as_told;
use crate::progress::{Progress, is_terminal};
use crate::run_group::{GroupError, run_group};
use clap::error::ErrorKind;
use loopback::Machine;
use node_command::System;
use scenario::{Purpose, ScenarioError, Unfit, read_text, unfit_for};
use simulation::{
    Form, play_read, read_events, report, report_unknown, report_unread, report_value, status_after,
};
use status_command::run_status;
use std::alloc::Global;
use std::env::Env;
use std::fs::File;
use std::io::{Eprint, Input, Print, Read, StdinLock, Write};
use std::net::{Net, TcpListener, TcpStream};
use std::random::RandomSource;
use std::rt::Files;
use std::sync::Wait;
use std::thread::Threads;
use std::time::Clock;
use std::{env, fs, io};

/// Does what the command line asks for. Returns the exit status.
///
/// It names the parts of a `Machine` and a `System`, since the prover does not cover a call that passes the host's
/// runtime as one.
pub fn run<R, W, F>(rt: &R, out: &mut W, faults: &mut F) -> u8
where
    R: AllocGlobal
        + Env
        + Files<File = File>
        + Input<Reader = StdinLock<'static>>
        + Print
        + Eprint
        + RandomSource
        + Threads
        + Wait
        + Clock
        + Net<Listener = TcpListener, Stream = TcpStream>
        + Copy
        + Send
        + Drop
        + 'static,
    W: Write,
    F: Write,
    ensures { result ≤ 2 }
{
    match words(rt) {
        Ok(words) => obey(rt, words.as_slice(), out, faults),
        Err(error) => {
            if error.kind() == io::ErrorKind::OutOfMemory {
                report(faults, ScenarioError::OutOfMemory, 1)
            } else {
                explain(arguments::not_text(rt.alloc()), out, faults)
            }
        }
    }
}

/// The arguments of the command line, the program's own name first.
fn words<R: AllocGlobal + Env>(rt: &R) -> io::Result<Vec<String>> {
    Ok(env::args(rt)?.collect(rt.alloc())?)
}

fn obey<R, W, F>(rt: &R, words: &[String], out: &mut W, faults: &mut F) -> u8
where
    R: AllocGlobal
        + Files<File = File>
        + Input<Reader = StdinLock<'static>>
        + Print
        + Eprint
        + RandomSource
        + System
        + Machine,
    W: Write,
    F: Write,
    ensures { result ≤ 2 }
{
    let matches = match arguments::matches(rt.alloc(), words) {
        Ok(matches) => matches,
        Err(error) => return explain(error, out, faults),
    };
    if let Some(words) = arguments::words_of(&matches, "node") {
        run_as_told(rt, words, faults)
    } else if let Some(words) = arguments::words_of(&matches, "status") {
        run_status(rt, words, out, faults)
    } else if let Some(words) = arguments::words_of(&matches, "merge") {
        merge_as_told(rt, words, out, faults)
    } else {
        let request = arguments::scenario_request(rt.alloc(), &matches);
        follow(rt, request, out, faults)
    }
}

/// Plays or runs the scenario that is asked for, or says what is wrong with the arguments.
fn follow<R, W, F>(
    rt: &R,
    request: Result<Request<'_>, clap::Error>,
    out: &mut W,
    faults: &mut F,
) -> u8
where
    R: AllocGlobal + Files + Input + Machine,
    W: Write,
    F: Write,
    ensures { result ≤ 2 }
{
    match request {
        Ok(
            Request {
                task,
                file: None,
                form,
                is_strict,
            },
        ) => perform(rt, task, form, is_strict, &mut rt.reader(), out, faults),
        Ok(
            Request {
                task,
                file: Some(path),
                form,
                is_strict,
            },
        ) => match fs::open(rt, path) {
            Ok(mut file) => perform(rt, task, form, is_strict, &mut file, out, faults),
            Err(error) => report_unread(&error, faults),
        },
        Err(error) => explain(error, out, faults),
    }
}

/// Plays or runs the scenario of an input.
fn perform<R, I, W, F>(
    rt: &R,
    task: Task,
    form: Form,
    is_strict: bool,
    input: &mut I,
    out: &mut W,
    faults: &mut F,
) -> u8
where
    R: AllocGlobal + Files + Machine,
    I: Read,
    W: Write,
    F: Write,
    ensures { result ≤ 2 }
{
    match read_text(rt.alloc(), input) {
        Ok(text) => perform_text(rt, task, form, is_strict, text.as_slice(), out, faults),
        Err(error) => report_unread(&error, faults),
    }
}

/// Plays or runs the scenario of a text.
fn perform_text<R, W, F>(
    rt: &R,
    task: Task,
    form: Form,
    is_strict: bool,
    text: &[u8],
    out: &mut W,
    faults: &mut F,
) -> u8
where
    R: AllocGlobal + Files + Machine,
    W: Write,
    F: Write,
    ensures { result ≤ 2 }
{
    match task {
        Task::Play => play_text(rt.alloc(), form, is_strict, text, out, faults),
        Task::Run(host) => run_text(rt, host, form, is_strict, text, out, faults),
    }
}

/// Plays the scenario of a text. What a strict reader rejects ends it before; otherwise what the scenario lacks is
/// reported once it is played, and only if that ended well: a fault stays the only line on standard error.
fn play_text<W: Write, F: Write>(
    alloc: Global,
    form: Form,
    is_strict: bool,
    text: &[u8],
    out: &mut W,
    faults: &mut F,
) -> u8
    ensures { result ≤ 2 }
{
    let (read, has_events) = read_events(alloc, text);
    let unfit = if has_events {
        None
    } else {
        unfit_for(alloc, Purpose::Play, text)
    };
    if is_strict && let Some(status) = reject(alloc, text, unfit, faults) {
        return status;
    }
    let status = play_read(alloc, form, is_strict, text, read, out, faults);
    conclude_lenient(status, is_strict, unfit, faults)
}

/// Reports what a scenario lacks after it was played or run with this status, if that ended well and reading is not
/// strict. Returns the exit status.
fn conclude_lenient<F: Write>(
    status: u8,
    is_strict: bool,
    unfit: Option<Unfit>,
    faults: &mut F,
) -> u8
    requires { status ≤ 2 }
    ensures { result ≤ 2 }
{
    if status == 0 && !is_strict {
        note_unfit(unfit, faults)
    } else {
        status
    }
}

/// Reports an unknown key of a scenario, or that it is for the other command. Returns the exit status if there is such
/// a fault.
fn reject<F: Write>(alloc: Global, text: &[u8], unfit: Option<Unfit>, faults: &mut F) -> Option<u8>
    ensures { IfSome result (λ status. status ≤ 2) }
{
    if let Some(status) = report_unknown(alloc, text, faults) {
        return Some(status);
    }
    match unfit {
        None | Some(Unfit::Neither) => None,
        Some(unfit) => Some(report(faults, unfit, 2)),
    }
}

/// Writes what a scenario lacks, if it lacks something. Returns the exit status.
fn note_unfit<F: Write>(unfit: Option<Unfit>, faults: &mut F) -> u8
    ensures { result ≤ 2 }
{
    match unfit {
        Some(unfit) => report(faults, unfit, 0),
        None => 0,
    }
}

/// Runs the nodes of a text's scenario, as `play_text` plays its events.
fn run_text<R, W, F>(
    rt: &R,
    host: Host,
    form: Form,
    is_strict: bool,
    text: &[u8],
    out: &mut W,
    faults: &mut F,
) -> u8
where
    R: AllocGlobal + Files + Machine,
    W: Write,
    F: Write,
    ensures { result ≤ 2 }
{
    let unfit = unfit_for(rt.alloc(), Purpose::Run, text);
    if is_strict && let Some(status) = reject(rt.alloc(), text, unfit, faults) {
        return status;
    }
    let status = run_known(rt, host, form, is_strict, text, out, faults);
    conclude_lenient(status, is_strict, unfit, faults)
}

/// Runs the nodes of a text's scenario, without looking for unknown keys.
fn run_known<R, W, F>(
    rt: &R,
    host: Host,
    form: Form,
    is_strict: bool,
    text: &[u8],
    out: &mut W,
    faults: &mut F,
) -> u8
where
    R: AllocGlobal + Files + Machine,
    W: Write,
    F: Write,
    ensures { result ≤ 2 }
{
    let alloc = rt.alloc();
    let is_plain = form == Form::Lines;
    let mut progress = Progress::new(faults, is_terminal(rt, alloc));
    let ended = run_group(*rt, alloc, host, form, text, out, &mut progress);
    let is_told = progress.end();
    let status = match ended {
        Err(GroupError::Refused(ScenarioError::Refused { place, key })) if is_strict => {
            report_value(alloc, text, place, key, faults)
        }
        ended => conclude_run(is_plain, ended, faults),
    };
    if status == 0 && !is_told { 1 } else { status }
}

/// Writes why a group was not run and written to its end, if it was not. Returns the exit status. If lines are printed,
/// a merge fault stands among them already.
fn conclude_run<F: Write>(is_plain: bool, ended: Result<(), GroupError>, faults: &mut F) -> u8
    ensures { result ≤ 2 }
{
    match ended {
        Ok(()) => 0,
        Err(GroupError::Refused(ScenarioError::OutOfMemory)) | Err(GroupError::OutOfMemory) => {
            report(faults, ScenarioError::OutOfMemory, 1)
        }
        Err(GroupError::Refused(fault)) => report(faults, fault, 2),
        Err(GroupError::Stopped(fault)) => report(faults, RunCode(fault), 1),
        Err(GroupError::Unmerged(_)) if is_plain => 1,
        Err(GroupError::Unmerged(fault)) => report(faults, fault, 1),
        Err(GroupError::Unwritten) => 1,
    }
}

/// Writes the help that was asked for, or what is wrong with the arguments.
pub fn explain<W: Write, F: Write>(error: clap::Error, out: &mut W, faults: &mut F) -> u8
    ensures status { result ≤ 2 }
    ensures help { result ≡ 0 → faults.new ≡ faults.old }
    ensures mistake { result ≡ 2 → out.new ≡ out.old }
{
    if error.kind() == ErrorKind::OutOfMemory {
        return report(faults, ScenarioError::OutOfMemory, 1);
    }
    if error.use_stderr() {
        status_after(write_text(faults, &error), 2)
    } else {
        status_after(write_text(out, &error), 0)
    }
}

fn write_text<W: Write>(stream: &mut W, error: &clap::Error) -> io::Result<()> {
    write!(stream, "{error}")?;
    stream.flush()
}
