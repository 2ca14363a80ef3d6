//! The subcommand of the command line.
ghost use Rattle.std.specs.Prelude.{◌≡◌, IfOk, codes, option_map};
ghost use Rattle.clap.specs.Matches.{first_value, found_of};
ghost use Rattle.clap.specs.declared.builder.command.Command.TheViews.{out-Command};

use crate::rows::{CONFIG, ROWS, Row, Takes};
use clap::{Arg, ArgAction, ArgMatches, Command};
use std::alloc::{AllocError, Global};

/// The text below the help.
const AFTER_HELP: &str = "Examples:
  plumtree node a --until-end
  plumtree node b --listen 127.0.0.1:7102 --contact a --peer a=127.0.0.1:7101
  plumtree node c --config node.toml --listen 0.0.0.0:7101 --advertise 10.0.0.3:7101";

/// Makes the subcommand `node`, with all its arguments.
pub fn command<'a>(alloc: Global) -> Result<Command<'a>, AllocError>
    ensures { IfOk result (λ command. (out-Command command).name.now ≡ codes "node") }
{
    let name = Arg::new(alloc, "NAME")
        .required(true)
        .help("The node's name: 1 to 32 of a-z, 0-9 and -");
    let mut command = Command::new(alloc, "node")
        .about(
            "Runs one node of a cluster: broadcasts the lines of its input, and prints what it delivers",
        )
        .after_help(AFTER_HELP)
        .arg(name)?
        .arg(argument(alloc, &CONFIG))?;
    for row in &ROWS {
        command = command.arg(argument(alloc, row))?;
    }
    Ok(command)
}

/// The argument of an option.
fn argument<'a>(alloc: Global, row: &Row) -> Arg<'a> {
    let argument = Arg::new(alloc, row.word).long(row.word).help(row.help);
    match row.takes {
        Takes::One(value) => argument.value_name(value).action(ArgAction::Set),
        Takes::Several(value) => argument.value_name(value).action(ArgAction::Append),
        Takes::Nothing => argument.action(ArgAction::SetTrue),
    }
}

/// The path of the configuration file, if the words name one.
pub fn config_path<'a>(words: &ArgMatches<'a>) -> Option<&'a str>
    ensures { option_map (λ path. path.now) result ≡ first_value (found_of words.now) (codes "config") }
{
    words.get_str("config")
}
