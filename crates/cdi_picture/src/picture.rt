//! The graph of what a container declares.
ghost use Rattle.std.specs.Prelude.{◌≡◌, IfOk, filter, flat_map, map};
ghost use Rattle.cdi_container.specs.Points.{points_told};
ghost use Rattle.cdi_effective.specs.Beans.{beans};
ghost use Rattle.cdi_graph.specs.Edges.{is_choice, is_owned};
ghost use Rattle.cdi_graph.specs.Nodes.{is_bean, is_point};
ghost use Rattle.cdi_validate.specs.Faults.{faults};
ghost use Rattle.cdi_picture.specs.Told.{bean_node, told_choice, told_node, told_owned};

use crate::asking::{faults_of, fired_of, surrounded_of};
use crate::wires::{Rest, graph_at, nodes_of_beans};
use cdi_container::{Bodies, Container};
use cdi_graph::Graph;
use std::alloc::{AllocError, Global};

/// The graph of what a container declares. An edge leads from an injection point to the bean that is chosen for it, and a point is
/// red where a fault of the report says so (CDI 4.0, Performing typesafe resolution; Unsatisfied and ambiguous dependencies). It
/// takes memory for the graph, and for what the container keeps.
pub fn picture_of<B: Bodies>(
    alloc: Global,
    container: &mut Container<B>,
) -> Result<Graph, AllocError>
    ensures choices { IfOk result (λ graph. filter is_choice graph.edges.items
        ≡ flat_map told_choice (points_told container.old.decls)) }
    ensures owned { IfOk result (λ graph. filter is_owned graph.edges.items ≡ map told_owned (points_told container.old.decls)) }
    ensures points { IfOk result (λ graph. filter is_point graph.nodes.items
        ≡ map (told_node (faults container.old.decls container.old.book)) (points_told container.old.decls)) }
    ensures beans { IfOk result (λ graph. filter is_bean graph.nodes.items ≡ map bean_node (beans container.old.decls)) }
{
    let decls = container.present().copy()?;
    let beans = nodes_of_beans(alloc, container.beans())?;
    let surrounded = surrounded_of(alloc, &decls, container)?;
    let fired = fired_of(alloc, &decls, container)?;
    let faults = faults_of(container)?;
    let points = container.points()?;
    let rest = Rest {
        beans: beans.as_slice(),
        faults: faults.as_slice(),
        surrounded: surrounded.as_slice(),
        fired: fired.as_slice(),
    };
    graph_at(alloc, points, &rest)
}
