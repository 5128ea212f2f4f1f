//! The arguments of command lines.
use clap::{Arg, ArgAction, ArgMatches};
use std::alloc::{AllocError, Global};

/// An option without a value.
pub(crate) fn flag<'a>(alloc: Global, name: &'a str, help: &'a str) -> Arg<'a> {
    Arg::new(alloc, name)
        .long(name)
        .action(ArgAction::SetTrue)
        .help(help)
}

/// An option with a value, which its help calls by this name.
pub(crate) fn valued<'a>(
    alloc: Global,
    name: &'a str,
    value_name: &'a str,
    help: &'a str,
) -> Arg<'a> {
    Arg::new(alloc, name)
        .long(name)
        .action(ArgAction::Set)
        .value_name(value_name)
        .help(help)
}

/// The same, with the value that it has where it is left out.
pub(crate) fn with_default<'a>(argument: Arg<'a>, value: &'a str) -> Arg<'a> {
    argument.default_value(value)
}

/// A path that has to be given.
pub(crate) fn path<'a>(
    alloc: Global,
    name: &'a str,
    value_name: &'a str,
    help: &'a str,
) -> Arg<'a> {
    Arg::new(alloc, name)
        .action(ArgAction::Set)
        .required(true)
        .value_name(value_name)
        .help(help)
}

/// The paths of a deployment, of which one has to be given.
pub(crate) fn paths<'a>(alloc: Global) -> Arg<'a> {
    Arg::new(alloc, "path")
        .action(ArgAction::Append)
        .required(true)
        .num_args(1..)
        .value_name("PATH")
        .help("A folder, a declaration (*.toml), or a script")
}

/// The paths of a deployment that were given, in order.
pub(crate) fn paths_of<'a>(
    alloc: Global,
    matches: &ArgMatches<'a>,
) -> Result<Vec<&'a str>, AllocError> {
    let mut paths = Vec::new(alloc);
    if let Some(given) = matches.get_strs("path") {
        for path in given {
            paths.push(*path)?;
        }
    }
    Ok(paths)
}
