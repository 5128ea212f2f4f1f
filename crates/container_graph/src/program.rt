//! A run of the program.
use cdi_assembly::declare;
use cdi_command_line::{Ending, GraphLine, graph_line, words, write_out};
use cdi_container::{BeanId, Container, Ident, Name};
use cdi_graph::Graph;
use cdi_picture::picture_of;
use cdi_sources::{PathForm, Source, read_sources};
use cdi_stack_room::take_stack;
use cdi_stock::StockBodies;
use std::alloc::AllocError;

/// Draws what the words of the system name, and answers the status: 0, or 1 where something is refused. Any other status is that of
/// an `Ending`.
pub(crate) fn draw(rt: &HostRuntime) -> Result<u8, Ending> {
    let words = words(rt)?;
    take_stack(rt, words.len())?;
    match graph_line(rt, words.as_slice())? {
        Some(line) => draw_paths(rt, &line),
        None => Ok(0),
    }
}

/// Draws what the paths declare. What is refused is told on the standard error, and left out.
fn draw_paths(rt: &HostRuntime, line: &GraphLine<'_>) -> Result<u8, Ending> {
    let readings = read_sources(rt, rt.alloc(), line.paths.as_slice(), PathForm::Escaped)?;
    let wiring = wiring_of(rt, readings.sources.as_slice())?;
    let text = part_of(rt, line, wiring.graph)?.dot(rt.alloc(), line.has_points)?;
    let written = write_out(rt, text.as_str());
    if !readings.tell_failed(rt) && written.is_ok() {
        return Err(Ending::Unreadable);
    }
    written?;
    Ok(u8::from(!wiring.is_whole))
}

/// The wiring of what some files declare.
#[derive(Drop)]
struct Wiring {
    graph: Graph,
    /// Whether nothing in the files is refused or repeated.
    is_whole: bool,
}

fn wiring_of(rt: &HostRuntime, sources: &[Source]) -> Result<Wiring, AllocError> {
    let mut container = Container::new(rt.alloc(), StockBodies);
    wiring_in(rt, sources, &mut container)
}

/// The same in an empty container.
fn wiring_in(
    rt: &HostRuntime,
    sources: &[Source],
    container: &mut Container<StockBodies>,
) -> Result<Wiring, AllocError> {
    let is_whole = declare(rt, container, sources)?;
    let graph = picture_of(rt.alloc(), container)?;
    Ok(Wiring { graph, is_whole })
}

/// The part of a graph that the words ask for.
fn part_of(rt: &HostRuntime, line: &GraphLine<'_>, whole: Graph) -> Result<Graph, Ending> {
    let graph = if line.has_chains {
        whole
    } else {
        whole.without_chains()
    };
    let graph = if line.has_events {
        graph
    } else {
        graph.without_events()
    };
    match line.around {
        Some(text) => around(rt, text, line.depth, graph),
        None => Ok(graph),
    }
}

/// The part around the bean that a text names. That there is none is told on the standard error.
fn around(rt: &HostRuntime, text: &str, depth: usize, graph: Graph) -> Result<Graph, Ending> {
    match bean_of(text) {
        Some(bean) if graph.has_bean(bean) => Ok(graph.around(rt.alloc(), bean, depth)?),
        _ => {
            let _ = eprintln!(rt; "error: there is no bean {text}");
            Err(Ending::Words)
        }
    }
}

/// The bean that a text names: its class, or its class, a slash and its producer method.
fn bean_of(text: &str) -> Option<BeanId> {
    match text.split_once('/') {
        Some((class, producer)) => Some(BeanId {
            class: Name::parse(class.as_bytes())?,
            producer: Some(Ident::parse(producer.as_bytes())?),
        }),
        None => Some(BeanId {
            class: Name::parse(text.as_bytes())?,
            producer: None,
        }),
    }
}
