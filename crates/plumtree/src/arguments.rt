//! What the arguments of the command line ask for.
ghost use Rattle.std.specs.Prelude.{◌≡◌, true, false, Option, Some, IfOk, codes, option_map, if◌then◌else◌};
ghost use Rattle.node_names.specs.declared.ids.MsgId.{MsgId};
ghost use Rattle.clap.specs.Matches.{first_value, found_of, one_text};

use crate::merge;
use crate::version::VERSION;
use clap::error::ErrorKind;
use clap::{Arg, ArgAction, ArgMatches, Command, Error};
use node_names::{Incarnation, MsgId, NodeName, Origin};
use simulation::Form;
use std::alloc::{AllocError, Global};

/// The text below the general help.
const AFTER_HELP: &str = "Examples:
  plumtree sim scenarios/hello.toml
  plumtree sim --trace scenarios/triangle.toml
  plumtree run scenarios/run/hello.toml
  plumtree node a --listen 127.0.0.1:7101 --status 127.0.0.1:8101
  plumtree status 127.0.0.1:8101

Status: 0 success, 1 an event was refused or a write failed, 2 bad arguments or a bad scenario.
docs/scenarios.md describes the format of scenarios and of what is printed, docs/cluster.md nodes.";

/// What is to be done with a scenario.
#[derive(Clone, Copy, Debug, PartialEq, Eq)]
pub enum Task {
    /// Its events are played in a simulated group.
    Play,
    /// Its nodes are run.
    Run(Host),
}

/// By what nodes are run.
#[derive(Clone, Copy, Debug, PartialEq, Eq)]
pub enum Host {
    /// By threads, several for each node.
    Threads,
    /// By one thread for all, with an event loop.
    Loop,
}

/// What the program is to do: play or run a scenario, and write the outcome.
#[derive(Clone, Copy, Debug, PartialEq, Eq)]
pub struct Request<'a> {
    /// What is to be done with the scenario.
    pub task: Task,
    /// The file of the scenario, or `None` for standard input.
    pub file: Option<&'a str>,
    /// The form in which the outcome is written.
    pub form: Form,
    /// Whether unknown keys, unarmed timers and links that do not exist are refused.
    pub is_strict: bool,
}

/// Reads the arguments, the first of which is the program's own name.
///
/// An error is a mistake in the arguments or a request for help, and displays the text to print.
pub fn matches<'a>(alloc: Global, words: &'a [String]) -> Result<ArgMatches<'a>, Error> {
    match command(alloc)?.try_get_matches_from(words) {
        Ok(matches) => Ok(matches),
        Err(error) => Err(with_tip(alloc, words, error)),
    }
}

/// The arguments after this subcommand, if it is asked for.
pub fn words_of<'m, 'a>(matches: &'m ArgMatches<'a>, name: &str) -> Option<&'m ArgMatches<'a>> {
    match matches.subcommand() {
        Some((asked, words)) if asked == name => Some(words),
        _ => None,
    }
}

/// What the arguments ask to do with a scenario.
pub fn scenario_request<'a>(alloc: Global, matches: &ArgMatches<'a>) -> Result<Request<'a>, Error> {
    match matches.subcommand() {
        Some((name, words)) => requested(alloc, task_of(name, words.get_flag("loop")), words),
        None => Ok(Request {
            task: Task::Play,
            file: None,
            form: Form::Lines,
            is_strict: false,
        }),
    }
}

/// Adds to an error the tip that a file comes after `sim`, if the first argument is not a subcommand.
fn with_tip(alloc: Global, words: &[String], error: Error) -> Error {
    if error.kind() != ErrorKind::InvalidSubcommand {
        return error;
    }
    let Some(word) = words.get(1) else {
        return error;
    };
    match tip_error(alloc, word.as_str()) {
        Ok(tip) => tip,
        Err(refused) => Error::from(refused),
    }
}

fn tip_error(alloc: Global, word: &str) -> Result<Error, AllocError> {
    let mut message = String::new(alloc);
    write!(
        message,
        "unrecognized subcommand '{word}'\n\n  tip: to play a scenario, write 'plumtree sim {word}'"
    )?;
    command(alloc)?.error(ErrorKind::InvalidSubcommand, message.as_str())
}

/// The task of a subcommand. `is_looped`: an event loop was asked for.
fn task_of(name: &str, is_looped: bool) -> Task
    ensures looped { name.now ≡ codes "run" → is_looped ≡ true → result ≡ Task.Run Host.Loop }
    ensures threaded { name.now ≡ codes "run" → is_looped ≡ false → result ≡ Task.Run Host.Threads }
{
    if name != "run" {
        return Task::Play;
    }
    Task::Run(if is_looped { Host::Loop } else { Host::Threads })
}

/// What the arguments after a subcommand ask for.
fn requested<'a>(alloc: Global, task: Task, words: &ArgMatches<'a>) -> Result<Request<'a>, Error>
    ensures task { IfOk result (λ request. request.task ≡ task) }
    ensures file { IfOk result
        (λ request. option_map (λ file. file.now) request.file ≡ first_value (found_of words.now) (codes "FILE")) }
    ensures traced { one_text (found_of words.now) (codes "trace") ≡ Some (codes "true")
        → IfOk result (λ request. request.form ≡ Form.Trace) }
    ensures drawn { one_text (found_of words.now) (codes "trace") ≡ Some (codes "false")
        → one_text (found_of words.now) (codes "dot") ≡ Some (codes "true")
        → IfOk result (λ request. (only : Option MsgId) × (request.form ≡ Form.Graph only)) }
    ensures plain { one_text (found_of words.now) (codes "trace") ≡ Some (codes "false")
        → one_text (found_of words.now) (codes "dot") ≡ Some (codes "false")
        → IfOk result (λ request. request.form ≡ Form.Lines) }
    ensures strict { one_text (found_of words.now) (codes "strict") ≡ Some (codes "true")
        → IfOk result (λ request. request.is_strict ≡ true) }
    ensures lenient { one_text (found_of words.now) (codes "strict") ≡ Some (codes "false")
        → IfOk result (λ request. request.is_strict ≡ false) }
{
    match asked_message(words) {
        Ok(only) => Ok(request_of(task, words, only)),
        Err(NoMessage) => Err(no_message(alloc, task)),
    }
}

/// The request of arguments that ask for this message, if they ask for one.
fn request_of<'a>(task: Task, words: &ArgMatches<'a>, only: Option<MsgId>) -> Request<'a>
    ensures task { result.task ≡ task }
    ensures file { option_map (λ file. file.now) result.file ≡ first_value (found_of words.now) (codes "FILE") }
    ensures traced { one_text (found_of words.now) (codes "trace") ≡ Some (codes "true") → result.form ≡ Form.Trace }
    ensures drawn { one_text (found_of words.now) (codes "trace") ≡ Some (codes "false")
        → one_text (found_of words.now) (codes "dot") ≡ Some (codes "true")
        → result.form ≡ Form.Graph only }
    ensures plain { one_text (found_of words.now) (codes "trace") ≡ Some (codes "false")
        → one_text (found_of words.now) (codes "dot") ≡ Some (codes "false")
        → result.form ≡ Form.Lines }
    ensures strict { one_text (found_of words.now) (codes "strict") ≡ Some (codes "true") → result.is_strict ≡ true }
    ensures lenient { one_text (found_of words.now) (codes "strict") ≡ Some (codes "false") → result.is_strict ≡ false }
{
    Request {
        task,
        file: words.get_str("FILE"),
        form: form_of(words.get_flag("trace"), words.get_flag("dot"), only),
        is_strict: words.get_flag("strict"),
    }
}

/// A text that is not the id of a message.
struct NoMessage;

/// The message that the arguments ask for, if they ask for one.
fn asked_message(words: &ArgMatches<'_>) -> Result<Option<MsgId>, NoMessage> {
    match words.get_str("message") {
        Some(text) => match message_of(text) {
            Some(id) => Ok(Some(id)),
            None => Err(NoMessage),
        },
        None => Ok(None),
    }
}

/// The form of the output: a trace or a drawing if one is asked for, and lines otherwise.
fn form_of(is_traced: bool, is_drawn: bool, only: Option<MsgId>) -> Form
    ensures { result ≡ (if is_traced then Form.Trace else (if is_drawn then Form.Graph only else Form.Lines)) }
{
    if is_traced {
        Form::Trace
    } else if is_drawn {
        Form::Graph(only)
    } else {
        Form::Lines
    }
}

/// Reads a number that is written in digits alone.
fn number_of(text: &str) -> Option<u64> {
    if text.starts_with('+') {
        return None;
    }
    text.parse().ok()
}

/// Reads the id of a message, written `NAME/INCARNATION/NUMBER`.
fn message_of(text: &str) -> Option<MsgId> {
    let mut parts = text.split('/');
    let (name, incarnation, seq) = (parts.next()?, parts.next()?, parts.next()?);
    if parts.next().is_some() {
        return None;
    }
    let origin = Origin {
        name: NodeName::parse(name.as_bytes()).ok()?,
        incarnation: Incarnation(number_of(incarnation)?),
    };
    Some(MsgId {
        origin,
        seq: number_of(seq)?,
    })
}

/// The error for a text that is not the id of a message.
fn no_message(alloc: Global, task: Task) -> Error {
    match no_message_error(alloc, task) {
        Ok(error) => error,
        Err(error) => Error::from(error),
    }
}

fn no_message_error(alloc: Global, task: Task) -> Result<Error, AllocError> {
    let message = "a message is written NODE/INCARNATION/NUMBER, as a/1/2";
    let mut command = match task {
        Task::Play => sim(alloc)?.bin_name("plumtree sim")?,
        Task::Run(_) => run(alloc)?.bin_name("plumtree run")?,
    };
    command.error(ErrorKind::ValueValidation, message)
}

/// The error for arguments that are not text.
pub fn not_text(alloc: Global) -> Error {
    match not_text_error(alloc) {
        Ok(error) => error,
        Err(error) => Error::from(error),
    }
}

fn not_text_error(alloc: Global) -> Result<Error, AllocError> {
    let message = "invalid UTF-8 was detected in one or more arguments";
    command(alloc)?.error(ErrorKind::InvalidValue, message)
}

/// A subcommand that works on a scenario.
fn subcommand<'a>(
    alloc: Global,
    name: &'a str,
    about: &'a str,
    example: &'a str,
) -> Result<Command<'a>, AllocError> {
    Command::new(alloc, name)
        .about(about)
        .after_help(example)
        .arg(trace(alloc)?)?
        .arg(dot(alloc))?
        .arg(message(alloc)?)?
        .arg(strict(alloc))?
        .arg(file(alloc))
}

/// The argument for a scenario's file.
fn file<'a>(alloc: Global) -> Arg<'a> {
    Arg::new(alloc, "FILE").help("The scenario, in TOML [default: standard input]")
}

/// The argument for a trace.
fn trace<'a>(alloc: Global) -> Result<Arg<'a>, AllocError> {
    flag(
        alloc,
        "trace",
        "Prints each step and the group's last state instead of deliveries and trees",
    )
    .conflicts_with("dot")
}

/// The argument for a drawing.
fn dot<'a>(alloc: Global) -> Arg<'a> {
    flag(
        alloc,
        "dot",
        "Prints the links and each message's tree as a Graphviz graph",
    )
}

/// The argument for the message that is drawn alone.
fn message<'a>(alloc: Global) -> Result<Arg<'a>, AllocError> {
    let message = Arg::new(alloc, "message")
        .long("message")
        .value_name("ID")
        .help("With --dot, draws only this message, for instance a/1/2");
    message.requires_arg("dot")
}

/// The argument for strict reading.
fn strict<'a>(alloc: Global) -> Arg<'a> {
    flag(
        alloc,
        "strict",
        "Rejects unknown keys, unarmed timers and links that do not exist",
    )
}

/// An argument without a value, which is given or not.
fn flag<'a>(alloc: Global, name: &'a str, help: &'a str) -> Arg<'a> {
    Arg::new(alloc, name)
        .long(name)
        .action(ArgAction::SetTrue)
        .help(help)
}

/// The subcommand that plays a scenario.
fn sim<'a>(alloc: Global) -> Result<Command<'a>, AllocError> {
    subcommand(
        alloc,
        "sim",
        "Plays a scenario in a simulated group and prints its deliveries and trees",
        "Example: plumtree sim scenarios/hello.toml",
    )
}

/// The subcommand that runs a scenario's nodes.
fn run<'a>(alloc: Global) -> Result<Command<'a>, AllocError> {
    let looped = flag(
        alloc,
        "loop",
        "Runs all nodes by one event loop on one thread, instead of threads for each",
    );
    subcommand(
        alloc,
        "run",
        "Runs a scenario's nodes over TCP on localhost, with the same output",
        "Example: plumtree run scenarios/run/hello.toml",
    )?
    .arg(looped)
}

fn command<'a>(alloc: Global) -> Result<Command<'a>, AllocError> {
    Command::new(alloc, "plumtree")
        .about("Plumtree broadcast over HyParView membership; without a command it is `sim`")
        .version(VERSION)
        .after_help(AFTER_HELP)
        .subcommand(sim(alloc)?)?
        .subcommand(run(alloc)?)?
        .subcommand(node_options::command(alloc)?)?
        .subcommand(status_command::command(alloc)?)?
        .subcommand(merge::command(alloc, trace(alloc)?, dot(alloc))?)
}
