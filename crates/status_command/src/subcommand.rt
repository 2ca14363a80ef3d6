//! The subcommand of the command line.
ghost use Rattle.std.specs.Prelude.{◌≡◌, IfOk, codes};
ghost use Rattle.clap.specs.declared.builder.command.Command.TheViews.{out-Command};

use clap::{Arg, ArgAction, Command};
use std::alloc::{AllocError, Global};

/// The text below the help.
const AFTER_HELP: &str =
    "Ends with status 0 if all nodes answered, are connected and see each other both ways, \
with 2 if the words are wrong, and else with 1.

Examples:
  plumtree status 127.0.0.1:8101 127.0.0.1:8102 127.0.0.1:8103
  plumtree status --timeout 1 10.0.0.1:8101 [2001:db8::2]:8101
  plumtree status --dot 10.0.0.1:8101 10.0.0.2:8101 | dot -Tsvg > group.svg";

/// Makes the subcommand `status`, with all its arguments.
pub fn command<'a>(alloc: Global) -> Result<Command<'a>, AllocError>
    ensures { IfOk result (λ command. (out-Command command).name.now ≡ codes "status") }
{
    Command::new(alloc, "status")
        .about("Asks nodes of a cluster for their status, and says who does not see whom")
        .after_help(AFTER_HELP)
        .arg(addresses(alloc))?
        .arg(dot(alloc))?
        .arg(timeout(alloc))
}

/// The argument for the nodes that are asked.
fn addresses<'a>(alloc: Global) -> Arg<'a> {
    Arg::new(alloc, "ADDRESS:PORT")
        .required(true)
        .num_args(1..)
        .action(ArgAction::Append)
        .help("Where a node answers requests for its status, as its --status tells")
}

/// The argument for a drawing.
fn dot<'a>(alloc: Global) -> Arg<'a> {
    Arg::new(alloc, "dot")
        .long("dot")
        .action(ArgAction::SetTrue)
        .help("Draws the group as a Graphviz graph instead")
}

/// The argument for how long a node has to answer.
fn timeout<'a>(alloc: Global) -> Arg<'a> {
    Arg::new(alloc, "timeout")
        .long("timeout")
        .value_name("SECONDS")
        .action(ArgAction::Set)
        .help("How long each node has to answer, 1 to 3600 [default: 5]")
}
