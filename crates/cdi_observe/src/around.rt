//! The interceptors around a bean.
ghost use Rattle.std.specs.Prelude.{◌≡◌, ◌++◌, true, Some, map, IfOk, OnOk};
ghost use Rattle.cdi_effective.specs.Disposers.{find_bean};
ghost use Rattle.cdi_intercept.specs.Sets.{has_place, places_of};
ghost use Rattle.cdi_observe.specs.Around.{names_at, names_of_bean};
ghost use Rattle.cdi_observe.specs.Keys.{ChainKey};
ghost use Rattle.cdi_observe.specs.Lending.{are_answerable, is_answerable};

use crate::view::View;
use cdi_intercept::places_of;
use cdi_model::{BeanDecl, BeanPlace, Name};
use std::alloc::{AllocError, Global};

/// The names of the interceptors around the places of a bean that is declared, in the order of its places: one may occur
/// twice. They are known where the view keeps answers. It takes memory for the list, and for what is made.
#[tactic(auto, unfolding(crate::specs::Around::names_of_bean))]
pub fn interceptors_of<V: View>(
    alloc: Global,
    view: &V,
    bean: &BeanDecl,
) -> Result<Vec<Name>, AllocError>
    requires found { find_bean bean.now.name (V.list view.now) ≡ Some bean.now }
    requires answerable { are_answerable (V.kept view.now) (map (ChainKey bean.now.name) (places_of bean.now)) ≡ true }
    ensures { IfOk result (λ names. names.items ≡ names_of_bean (V.list view.now) bean.now) }
{
    let places = places_of(alloc, bean)?;
    let mut names = Vec::new(alloc);
    for place in places.as_slice() {
        push_names_at(alloc, view, bean, place, &mut names)?;
    }
    Ok(names)
}

/// Appends the names of those around a place that it has.
fn push_names_at<V: View>(
    alloc: Global,
    view: &V,
    bean: &BeanDecl,
    place: &BeanPlace,
    names: &mut Vec<Name>,
) -> Result<(), AllocError>
    requires found { find_bean bean.now.name (V.list view.now) ≡ Some bean.now }
    requires place { has_place bean.now place.now ≡ true }
    requires answerable { is_answerable (V.kept view.now) (ChainKey bean.now.name place.now) ≡ true }
    ensures { OnOk result (names.new.items ≡ names.old.items ++ names_at (V.list view.now) bean.now place.now) }
{
    let around = view.lent_chain(alloc, &bean.name, place)?;
    push_names(around.get().as_slice(), names)
}

fn push_names(more: &[Name], names: &mut Vec<Name>) -> Result<(), AllocError>
    ensures { OnOk result (names.new.items ≡ names.old.items ++ more.now) }
{
    for name in more {
        names.push(*name)?;
    }
    Ok(())
}
