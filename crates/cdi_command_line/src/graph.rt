//! The command line of `container_graph`.
use crate::arguments::{flag, paths, paths_of, valued, with_default};
use crate::ending::{Ending, told};
use clap::{Arg, Command, Error, value_parser};
use std::alloc::{AllocError, Global};

/// What the words say.
#[derive(Debug, Drop)]
pub struct GraphLine<'a> {
    /// Whether each injection point is a node of its own.
    pub has_points: bool,
    /// Whether interceptors are shown.
    pub has_chains: bool,
    /// Whether events are shown.
    pub has_events: bool,
    /// The bean around which the wiring is shown, as its class or as its class, a slash and its producer method.
    pub around: Option<&'a str>,
    /// How many steps around it.
    pub depth: usize,
    pub paths: Vec<&'a str>,
}

const EXAMPLE: &str =
    "Example: container_graph --around Till --depth 1 examples/shop | dot -Tsvg > till.svg

Beans are boxes, and disabled ones dashed. An edge leads from a bean to the bean that is chosen
for an injection point of it. Points without a bean are red.";

/// The option for how much is shown around a bean.
fn depth_argument<'a>(alloc: Global) -> Arg<'a> {
    let depth = valued(alloc, "depth", "N", "How many beans away from it");
    with_default(depth.value_parser(value_parser!(u16)), "1")
}

fn command<'a>(alloc: Global) -> Result<Command<'a>, AllocError> {
    Command::new(alloc, "container_graph")
        .about(
            "Draws the wiring of the deployment that some files declare, as DOT text for graphviz",
        )
        .after_help(EXAMPLE)
        .arg(flag(alloc, "points", "Shows each injection point as a node"))?
        .arg(flag(alloc, "chains", "Shows the interceptors around each place"))?
        .arg(flag(
            alloc,
            "events",
            "Shows the events that bodies may fire, and their observers",
        ))?
        .arg(valued(
            alloc,
            "around",
            "BEAN",
            "Shows what is near to a bean alone",
        ))?
        .arg(depth_argument(alloc))?
        .arg(paths(alloc))
}

/// What the words say, as `check_line` does.
pub fn graph_line<'a>(
    rt: &HostRuntime,
    words: &'a [String],
) -> Result<Option<GraphLine<'a>>, Ending> {
    told(rt, parsed(rt.alloc(), words))
}

fn parsed<'a>(alloc: Global, words: &'a [String]) -> Result<GraphLine<'a>, Error> {
    let matches = command(alloc)?.try_get_matches_from(words)?;
    let depth = matches.get_one::<u16>("depth").unwrap_or(1);
    Ok(GraphLine {
        has_points: matches.get_flag("points"),
        has_chains: matches.get_flag("chains"),
        has_events: matches.get_flag("events"),
        around: matches.get_str("around"),
        depth: usize::from(depth),
        paths: paths_of(alloc, &matches)?,
    })
}
