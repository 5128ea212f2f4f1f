//! Beans by the interceptors around their places.
ghost use Rattle.std.specs.Prelude.{◌≡◌, ◌∷◌, ◌++◌, [], ℕ, List, IfOk, OnOk, if◌then◌else◌};
ghost use Rattle.std.specs.List.Sorted.{IsStrictlySortedBy};
ghost use Rattle.std.specs.Str.{bytes_eq};
ghost use Rattle.cdi_match.specs.Chain.{has};
ghost use Rattle.cdi_model.specs.Bytes.{byte_order};
ghost use Rattle.cdi_validate.specs.Surrounded.{numbers_at};

use cdi_match::each_once;
use cdi_model::Name;
use std::alloc::{AllocError, Global};
use std::collections::BTreeMap;

/// The numbers of the beans around a place of which an interceptor is. It takes no memory.
pub(crate) fn numbers_around<'a>(
    by_interceptor: &'a BTreeMap<Name, Vec<usize>>,
    interceptor: &Name,
) -> &'a [usize]
    ensures { result.now ≡ numbers_at by_interceptor.now interceptor.now }
{
    match by_interceptor.get(interceptor) {
        Some(numbers) => numbers.as_slice(),
        None => &[],
    }
}

/// Adds the number of a bean to those of each interceptor of some names. It takes memory for these names too.
pub(crate) fn add_number(
    alloc: Global,
    names: &[Name],
    number: usize,
    by_interceptor: &mut BTreeMap<Name, Vec<usize>>,
) -> Result<(), AllocError>
    ensures { OnOk result ((name : List ℕ) → numbers_at by_interceptor.new name
        ≡ numbers_at by_interceptor.old name ++ (if has names.now name then number ∷ [] else [])) }
{
    let mut list = Vec::with_capacity(alloc, names.len())?;
    list.extend_from_slice(names)?;
    let list = each_once(list);
    add_to_each(alloc, list.as_slice(), number, by_interceptor)
}

/// Adds a number to those of some names.
fn add_to_each(
    alloc: Global,
    names: &[Name],
    number: usize,
    by_interceptor: &mut BTreeMap<Name, Vec<usize>>,
) -> Result<(), AllocError>
    requires { IsStrictlySortedBy byte_order names.now }
    ensures { OnOk result ((name : List ℕ) → numbers_at by_interceptor.new name
        ≡ numbers_at by_interceptor.old name ++ (if has names.now name then number ∷ [] else [])) }
{
    for name in names {
        add_to(alloc, *name, number, by_interceptor)?;
    }
    Ok(())
}

/// Adds a number to those of a name.
fn add_to(
    alloc: Global,
    name: Name,
    number: usize,
    by_interceptor: &mut BTreeMap<Name, Vec<usize>>,
) -> Result<(), AllocError>
    ensures { OnOk result ((other : List ℕ) → numbers_at by_interceptor.new other
        ≡ numbers_at by_interceptor.old other ++ (if bytes_eq name other then number ∷ [] else [])) }
{
    let mut numbers = by_interceptor.remove(&name).unwrap_or(Vec::new(alloc));
    numbers.push(number)?;
    by_interceptor.insert(name, numbers)?;
    Ok(())
}
