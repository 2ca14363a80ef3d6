//! `plumtree node`.
ghost use Rattle.std.specs.Prelude.{◌≤◌};

use clap::ArgMatches;
use node_command::{NodeError, System, run_node};
use node_options::{NodeOptions, OptionError, config_path, read};
use simulation::report;
use std::fs::File;
use std::io::{Eprint, Input, Print, StdinLock, Write};
use std::random::RandomSource;
use std::rt::Files;
use std::{fs, io};
use thiserror::Error;

/// Why a node was not run to its end.
#[derive(Debug, Drop, Error)]
enum Refusal {
    /// Its configuration file cannot be read.
    #[error("--config: cannot read {path}: {error}")]
    Unread { path: String, error: io::Error },
    /// Its words or its file are wrong.
    #[error("{0}")]
    Options(OptionError),
    /// It did not start, or could not go on.
    #[error("{0}")]
    Node(NodeError),
    /// There was no memory left to read them.
    #[error("out of memory")]
    OutOfMemory,
}

/// The status of the program that ends with this refusal.
fn status_of(refusal: &Refusal) -> u8
    ensures { result ≤ 2 }
{
    match refusal {
        Refusal::Unread { .. } | Refusal::Options(_) => 2,
        Refusal::Node(_) | Refusal::OutOfMemory => 1,
    }
}

/// The text of the configuration file, if the words name one.
fn config_text<R: AllocGlobal + Files>(
    rt: &R,
    words: &ArgMatches<'_>,
) -> Result<Option<String>, Refusal> {
    let Some(path) = config_path(words) else {
        return Ok(None);
    };
    match fs::read_to_string(rt, path) {
        Ok(text) => Ok(Some(text)),
        Err(error) => Err(match String::from_str(rt.alloc(), path) {
            Ok(path) => Refusal::Unread { path, error },
            Err(_) => Refusal::OutOfMemory,
        }),
    }
}

/// What the node is told.
fn options_of<R: AllocGlobal + Files>(
    rt: &R,
    words: &ArgMatches<'_>,
) -> Result<NodeOptions, Refusal> {
    let text = config_text(rt, words)?;
    let config = text.as_ref().map(|text| text.as_str());
    match read(rt.alloc(), words, config) {
        Ok(options) => Ok(options),
        Err(error) => Err(Refusal::Options(error)),
    }
}

/// Runs a node as its words and its file tell.
fn run_told<R>(rt: &R, words: &ArgMatches<'_>) -> Result<(), Refusal>
where
    R: AllocGlobal
        + Files<File = File>
        + Input<Reader = StdinLock<'static>>
        + Print
        + Eprint
        + RandomSource
        + System,
{
    let options = options_of(rt, words)?;
    match run_node(*rt, options) {
        Ok(()) => Ok(()),
        Err(error) => Err(Refusal::Node(error)),
    }
}

/// Runs a node as its words and its file tell, and says why it ended, if something is wrong. Returns the exit status.
pub fn run_as_told<R, F>(rt: &R, words: &ArgMatches<'_>, faults: &mut F) -> u8
where
    R: AllocGlobal
        + Files<File = File>
        + Input<Reader = StdinLock<'static>>
        + Print
        + Eprint
        + RandomSource
        + System,
    F: Write,
    ensures { result ≤ 2 }
{
    match run_told(rt, words) {
        Ok(()) => 0,
        Err(refusal) => {
            let status = status_of(&refusal);
            report(faults, refusal, status)
        }
    }
}
