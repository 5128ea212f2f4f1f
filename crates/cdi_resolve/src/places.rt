//! The positions of the beans of a list.
ghost use Rattle.std.specs.Prelude.{◌≡◌, [], ◌∷◌, ◌++◌, All, Some, None, IfOk, OnOk, if◌then◌else◌};
ghost use Rattle.std.specs.List.Sorted.{IsStrictlySortedBy};
ghost use Rattle.std.specs.Option.{option_or};
ghost use Rattle.indexmap.specs.IndexMap.{get};
ghost use Rattle.cdi_model.specs.Bytes.{byte_order};
ghost use Rattle.cdi_match.specs.Chain.{has};
ghost use Rattle.cdi_resolve.specs.Places.{same_name, places_at, ArePlacesOfClasses, ArePlacesOfTypes};

use cdi_effective::Effective;
use cdi_model::Name;
use indexmap::IndexMap;
use std::alloc::{AllocError, Global};

/// For each class the place of its first bean.
pub(crate) fn places_of_classes(
    alloc: Global,
    beans: &[Effective],
) -> Result<IndexMap<Name, usize>, AllocError>
    ensures { IfOk result (λ classes. ArePlacesOfClasses beans.now classes) }
{
    let mut classes = IndexMap::new(alloc);
    for (place, bean) in beans.iter().enumerate() {
        add_class(&mut classes, bean.id.class, place)?;
    }
    Ok(classes)
}

/// Gives a class a place, unless it has one.
fn add_class(
    classes: &mut IndexMap<Name, usize>,
    class: Name,
    place: usize,
) -> Result<(), AllocError>
    ensures { OnOk result ((c : _) → get same_name classes.new c
        ≡ option_or (get same_name classes.old c) (if same_name class c then Some place else None)) }
{
    classes.entry(class)?.or_insert(place);
    Ok(())
}

/// For each type the places of the enabled beans that have it, rising.
pub(crate) fn places_of_types(
    alloc: Global,
    beans: &[Effective],
) -> Result<IndexMap<Name, Vec<usize>>, AllocError>
    requires { All (λ bean. IsStrictlySortedBy byte_order bean.types) beans.now }
    ensures { IfOk result (λ types. ArePlacesOfTypes beans.now types) }
{
    let mut types = IndexMap::new(alloc);
    for (place, bean) in beans.iter().enumerate() {
        if bean.is_enabled {
            add_types(alloc, &mut types, bean.types.as_slice(), place)?;
        }
    }
    Ok(types)
}

/// Adds a place to those of some types.
fn add_types(
    alloc: Global,
    types: &mut IndexMap<Name, Vec<usize>>,
    names: &[Name],
    place: usize,
) -> Result<(), AllocError>
    requires { IsStrictlySortedBy byte_order names.now }
    ensures { OnOk result ((t : _) → places_at types.new t
        ≡ places_at types.old t ++ (if has names.now t then place ∷ [] else [])) }
{
    for name in names {
        add_type(alloc, types, *name, place)?;
    }
    Ok(())
}

/// Adds a place to those of a type.
fn add_type(
    alloc: Global,
    types: &mut IndexMap<Name, Vec<usize>>,
    name: Name,
    place: usize,
) -> Result<(), AllocError>
    ensures { OnOk result ((t : _) → places_at types.new t
        ≡ places_at types.old t ++ (if same_name name t then place ∷ [] else [])) }
{
    types.entry(name)?.or_insert(Vec::new(alloc)).push(place)?;
    Ok(())
}
