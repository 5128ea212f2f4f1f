//! Injection points without a bean, or with one that cannot be proxied (CDI 4.0, Unsatisfied and ambiguous
//! dependencies; Unproxyable bean types).
ghost use Rattle.std.specs.Prelude.{◌≡◌, true, map, IfOk};
ghost use Rattle.cdi_model.specs.Mentions.{shown};
ghost use Rattle.cdi_observe.specs.Answers.{answer_to};
ghost use Rattle.cdi_observe.specs.Lending.{are_answerable, IsEvaluated};
ghost use Rattle.cdi_observe.specs.Wanted.{asked_by, key_of_point, point_named};
ghost use Rattle.cdi_subjects.specs.Subjects.{has_verdict, point_in, points_at_fault};

use crate::enabled::{is_enabled_in, producer_of_point};
use crate::proxies::is_unproxyable;
use cdi_effective::Effective;
use cdi_faults::Subject;
use cdi_model::{Decl, Mention, PointDecl};
use cdi_observe::View;
use cdi_resolve::Choice;
use std::alloc::{AllocError, Global};

/// What is wrong with the answer to a point.
#[derive(Clone, Copy)]
pub(crate) enum Verdict {
    Unsatisfied,
    Ambiguous,
    Unproxyable,
}

impl Verdict {
    /// Whether the answer to a point is such.
    fn is_of<V: View>(
        self,
        alloc: Global,
        view: &V,
        point: &PointDecl,
        choice: &Choice,
    ) -> Result<bool, AllocError>
        requires { IsEvaluated (V.list view.now) (V.kept view.now) }
        ensures { IfOk result (λ is. is ≡ has_verdict (V.list view.now) self point.now choice.now) }
    {
        match self {
            Verdict::Unsatisfied => Ok(matches!(choice, Choice::Unsatisfied)),
            Verdict::Ambiguous => Ok(matches!(choice, Choice::Ambiguous(_))),
            Verdict::Unproxyable => is_unproxyable(alloc, view, point, choice),
        }
    }
}

/// The injection points of enabled beans and interceptors whose answers are such, of a declaration that has these beans.
pub(crate) fn points_at_fault<V: View>(
    alloc: Global,
    view: &V,
    decl: &Decl,
    beans: &[Effective],
    verdict: Verdict,
) -> Result<Vec<Subject>, AllocError>
    requires evaluated { IsEvaluated (V.list view.now) (V.kept view.now) }
    requires answerable { are_answerable (V.kept view.now) (asked_by decl.now) ≡ true }
    ensures { IfOk result (λ list. list.items
        ≡ points_at_fault (has_verdict (V.list view.now) verdict) (answer_to (V.list view.now)) beans.now decl.now) }
{
    let mut subjects = Vec::new(alloc);
    for mention in decl.mentions() {
        if let Some(subject) = point_in(alloc, view, decl, beans, &mention, verdict)? {
            subjects.push(subject)?;
        }
    }
    Ok(subjects)
}

/// The point that is named in a place, where the answer to it is such.
fn point_in<V: View>(
    alloc: Global,
    view: &V,
    decl: &Decl,
    beans: &[Effective],
    mention: &Mention<'_>,
    verdict: Verdict,
) -> Result<Option<Subject>, AllocError>
    requires evaluated { IsEvaluated (V.list view.now) (V.kept view.now) }
    requires answerable { are_answerable (V.kept view.now) (map key_of_point (point_named (shown mention.now))) ≡ true }
    ensures { IfOk result (λ found. found
        ≡ point_in (has_verdict (V.list view.now) verdict) (answer_to (V.list view.now)) beans.now decl.now (shown mention.now)) }
{
    let Mention::Point(place, point) = mention else {
        return Ok(None);
    };
    if !is_enabled_in(decl, beans, producer_of_point(place)) {
        return Ok(None);
    }
    let answer = view.lent_choice(alloc, &point.required_type, &point.qualifiers)?;
    if !verdict.is_of(alloc, view, point, answer.get())? {
        return Ok(None);
    }
    Ok(Some(Subject::Point {
        place: *place,
        name: point.name,
    }))
}
