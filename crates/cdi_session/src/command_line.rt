//! The command line.
ghost use Rattle.std.specs.Prelude.{◌≡◌, IfOk, IfErr, OnOk, [], map};
ghost use Rattle.clap.specs.Built.{TakesValue};
ghost use Rattle.clap.specs.Kinds.{HasKind};
ghost use Rattle.clap.specs.Simple.{app_of, matches_of};
ghost use Rattle.cdi_session.specs.Options.{flag_rule, script_rule, script_app, faults_of, IsArgument, GivesScript, Means};

use clap::{Arg, ArgAction, Command, Error};
use std::alloc::{AllocError, Global};
use std::convert::AsStr;

/// A command line: the flags and the script that it names.
#[derive(Clone, Copy, Debug)]
pub struct CommandLine<'a> {
    /// Leaves trace lines out.
    pub quiet: bool,
    /// Has status 1 where a command was refused.
    pub strict: bool,
    /// A path, or `-` for the standard input.
    pub script: &'a str,
}

fn flag<'a>(alloc: Global, name: &'a str, help: &'a str) -> Arg<'a>
    ensures { IsArgument (flag_rule name.entry.now) result }
{
    Arg::new(alloc, name)
        .long(name)
        .action(ArgAction::SetTrue)
        .help(help)
}

fn script_argument<'a>(alloc: Global) -> Arg<'a>
    ensures argument { IsArgument script_rule result }
    ensures value { TakesValue result }
{
    Arg::new(alloc, "script")
        .required(true)
        .action(ArgAction::Set)
        .value_name("SCRIPT")
        .help("A script of commands: a path, or - for the standard input")
}

fn script_command<'a>(alloc: Global) -> Result<Command<'a>, AllocError>
    ensures app { IfOk result (λ command. app_of command ≡ script_app) }
    ensures script { IfOk result GivesScript }
{
    let quiet = flag(alloc, "quiet", "Leaves trace lines out");
    let strict = flag(
        alloc,
        "strict",
        "Ends with status 1 where a command was refused",
    );
    Command::new(alloc, "container_script")
        .about("Runs a script of edits and questions on a component container")
        .arg(quiet)?
        .arg(strict)?
        .arg(script_argument(alloc))
}

/// What the words say, the program's name first among them, or `clap`'s error, whose text is for the user: a request for
/// help, words that are no command line, or out of memory. It takes memory.
pub fn options<'a, S: AsStr>(alloc: Global, words: &'a [S]) -> Result<CommandLine<'a>, Error>
    ensures accepted { OnOk result (faults_of (map S.text words.now) ≡ []) }
    ensures means { IfOk result (λ options. Means (matches_of script_app (map S.text words.now)) options) }
    ensures refused { IfErr result (λ error. HasKind (faults_of (map S.text words.now)) error) }
{
    let matches = script_command(alloc)?.try_get_matches_from(words)?;
    let Some(script) = matches.get_str("script") else {
        unreachable!();
    };
    Ok(CommandLine {
        quiet: matches.get_flag("quiet"),
        strict: matches.get_flag("strict"),
        script,
    })
}
