//! What is chosen for injection points.
ghost use Rattle.std.specs.Prelude.{◌≡◌, true, map, IfOk};
ghost use Rattle.cdi_effective.specs.Beans.{beans as beans_of};
ghost use Rattle.cdi_observe.specs.Answers.{answer_to};
ghost use Rattle.cdi_observe.specs.Lending.{are_answerable, is_answerable};
ghost use Rattle.cdi_observe.specs.Wanted.{key_of_point};
ghost use Rattle.cdi_staging.specs.Sites.{managed_class, nowhere, position_of_bean, position_of_class, target_of};
ghost use Rattle.cdi_staging.specs.Staged.{targets};

use crate::listed_beans::ListedBeans;
use cdi_effective::BeanId;
use cdi_model::{Name, PointDecl};
use cdi_observe::View;
use cdi_resolve::Choice;
use std::alloc::{AllocError, Global};

/// The bean that is chosen for an injection point (CDI 4.0, Performing typesafe resolution).
#[derive(Clone, Copy)]
pub struct Target {
    /// Its position in the bean list; where not one bean is chosen, that after the last.
    pub bean: usize,
    /// Its class, where it is a managed bean, so that its methods are those that are declared.
    pub class: Option<Name>,
}

/// The position of a bean, or the one after the last.
fn position_of_bean(beans: &ListedBeans<'_>, id: &BeanId) -> usize
    ensures { result ≡ position_of_bean beans.now id.now }
{
    beans.position(id).unwrap_or(beans.count())
}

/// The position of the managed bean of a class, or the one after the last.
pub(crate) fn position_of_class(beans: &ListedBeans<'_>, class: Name) -> usize
    ensures { result ≡ position_of_class beans.now class }
{
    let id = BeanId {
        class,
        producer: None,
    };
    position_of_bean(beans, &id)
}

/// No bean: the position after the last.
pub(crate) fn nowhere(beans: &ListedBeans<'_>) -> Target
    ensures { result ≡ nowhere beans.now }
{
    Target {
        bean: beans.count(),
        class: None,
    }
}

/// The class of a managed bean, and none of a product.
fn managed_class(id: &BeanId) -> Option<Name>
    ensures { result ≡ managed_class id.now }
{
    match id.producer {
        Some(_) => None,
        None => Some(id.class),
    }
}

/// Where a choice leads. It takes no memory.
#[tactic(auto, unfolding(crate::specs::Sites::target_of))]
pub fn target_of(beans: &ListedBeans<'_>, choice: &Choice) -> Target
    ensures { result ≡ target_of beans.now choice.now }
{
    match choice {
        Choice::One(id) => Target {
            bean: position_of_bean(beans, id),
            class: managed_class(id),
        },
        Choice::Unsatisfied | Choice::Ambiguous(_) => nowhere(beans),
    }
}

/// The bean that is chosen for a point.
fn target_for<V: View>(
    alloc: Global,
    view: &V,
    beans: &ListedBeans<'_>,
    point: &PointDecl,
) -> Result<Target, AllocError>
    requires { is_answerable (V.kept view.now) (key_of_point point.now) ≡ true }
    ensures { IfOk result (λ target. target ≡ target_of beans.now (answer_to (V.list view.now) point.now)) }
{
    let choice = view.lent_choice(alloc, &point.required_type, &point.qualifiers)?;
    Ok(target_of(beans, choice.get()))
}

/// The beans that are chosen for some points, in order. It takes memory for a list of them, and for the choices that the
/// view makes.
pub(crate) fn targets_of<V: View>(
    alloc: Global,
    view: &V,
    beans: &ListedBeans<'_>,
    points: &[PointDecl],
) -> Result<Vec<Target>, AllocError>
    requires beans { beans.now ≡ beans_of (V.list view.now) }
    requires answerable { are_answerable (V.kept view.now) (map key_of_point points.now) ≡ true }
    ensures { IfOk result (λ list. list.items ≡ targets (V.list view.now) points.now) }
{
    let mut list = Vec::with_capacity(alloc, points.len())?;
    for point in points {
        list.push(target_for(alloc, view, beans, point)?)?;
    }
    Ok(list)
}
