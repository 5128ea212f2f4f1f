//! The injection points at which a deployment has a fault.
ghost use Rattle.std.specs.Prelude.{◌≡◌, List, IfOk, OnOk};
ghost use Rattle.cdi_faults.specs.declared.fault.Fault.{Fault as AnyFault};
ghost use Rattle.std.specs.Prelude.{◌||◌};
ghost use Rattle.indexmap.specs.IndexSet.{contains};
ghost use Rattle.cdi_graph.specs.Red.{ambiguous_at, is_ambiguous, is_this, is_unsatisfied, point_in, state_of, unsatisfied_at, HoldsRed};
ghost use Rattle.cdi_graph.specs.SamePoint.{same_point};
ghost use Rattle.cdi_graph.specs.declared.node.PointId.{PointId as AnyPoint};

use crate::node::{PointId, PointState};
use cdi_faults::{Code, Fault, Subject};
use cdi_model::{DeclKey, Kind, Name, PointPlace};
use indexmap::IndexSet;
use std::alloc::{AllocError, Global};

/// The points for which no bean is right, and those for which more than one is left.
#[derive(Drop)]
pub(crate) struct Red {
    unsatisfied: IndexSet<PointId>,
    ambiguous: IndexSet<PointId>,
}

impl Red {
    /// Those of some faults. It takes memory for them.
    pub(crate) fn of(alloc: Global, faults: &[Fault]) -> Result<Red, AllocError>
        ensures { IfOk result (HoldsRed faults.now) }
    {
        Ok(Red {
            unsatisfied: unsatisfied_points(alloc, faults)?,
            ambiguous: ambiguous_points(alloc, faults)?,
        })
    }

    /// The state of a point.
    pub(crate) fn state(&self, point: &PointId) -> PointState
        ensures { (fs : List AnyFault) → HoldsRed fs self.now → result ≡ state_of fs point.now }
    {
        if self.unsatisfied.contains(point) {
            PointState::Unsatisfied
        } else if self.ambiguous.contains(point) {
            PointState::Ambiguous
        } else {
            PointState::Plain
        }
    }
}

/// The points for which no bean is right.
fn unsatisfied_points(alloc: Global, faults: &[Fault]) -> Result<IndexSet<PointId>, AllocError>
    ensures { IfOk result (λ points. (p : AnyPoint) → contains same_point points p ≡ is_unsatisfied faults.now p) }
{
    let mut points = IndexSet::new(alloc);
    for fault in faults {
        put_if(&mut points, unsatisfied_at(fault))?;
    }
    Ok(points)
}

/// The points for which more than one bean is left.
fn ambiguous_points(alloc: Global, faults: &[Fault]) -> Result<IndexSet<PointId>, AllocError>
    ensures { IfOk result (λ points. (p : AnyPoint) → contains same_point points p ≡ is_ambiguous faults.now p) }
{
    let mut points = IndexSet::new(alloc);
    for fault in faults {
        put_if(&mut points, ambiguous_at(fault))?;
    }
    Ok(points)
}

/// The point at which no bean is right, if the fault says so.
fn unsatisfied_at(fault: &Fault) -> Option<PointId>
    ensures { result ≡ unsatisfied_at fault.now }
{
    match fault {
        Fault::Declared {
            code: Code::Unsatisfied,
            kind,
            name,
            subject,
        } => point_in(*kind, *name, subject),
        _ => None,
    }
}

/// The point at which more than one bean is left, if the fault says so.
fn ambiguous_at(fault: &Fault) -> Option<PointId>
    ensures { result ≡ ambiguous_at fault.now }
{
    match fault {
        Fault::Declared {
            code: Code::Ambiguous,
            kind,
            name,
            subject,
        } => point_in(*kind, *name, subject),
        _ => None,
    }
}

/// Puts a point among others, if there is one.
#[tactic(auto, using(crate::proofs::RedLemmas::or_none))]
fn put_if(points: &mut IndexSet<PointId>, point: Option<PointId>) -> Result<(), AllocError>
    ensures { OnOk result ((p : AnyPoint) → contains same_point points.new p ≡ (contains same_point points.old p || is_this p point)) }
{
    match point {
        Some(point) => put(points, point),
        None => Ok(()),
    }
}

/// Puts a point among others.
fn put(points: &mut IndexSet<PointId>, point: PointId) -> Result<(), AllocError>
    ensures { OnOk result ((p : AnyPoint) → contains same_point points.new p ≡ (contains same_point points.old p || same_point point p)) }
{
    let _place: PointPlace = point.place;
    points.insert(point)?;
    Ok(())
}

/// The point that is the subject of a fault, if it is one.
fn point_in(kind: Kind, name: Name, subject: &Subject) -> Option<PointId>
    ensures { result ≡ point_in kind name subject.now }
{
    match subject {
        Subject::Point { place, name: point } => Some(PointId {
            owner: DeclKey { kind, name },
            place: *place,
            name: *point,
        }),
        _ => None,
    }
}
