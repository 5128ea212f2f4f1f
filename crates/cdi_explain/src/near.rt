//! Which declared name is near to one that was looked for.
ghost use Rattle.std.specs.Prelude.{◌≡◌, None, filter, fold, option_map, true, IfOk, IfSome};
ghost use Rattle.std.specs.List.{find};
ghost use Rattle.cdi_explain.specs.Near.{NearestIsNear, distance, is_namesake, is_near, is_nearer, is_other, nearer, nearest};
ghost use Rattle.cdi_explain.specs.Near.{known_in, nearest_name};

use crate::known::{Known, are_apart};
use cdi_model::Name;
use std::alloc::{AllocError, Global};
use std::marker::Model;
use strsim::osa_distance;

/// Declared names, among which the one is found that may have been meant by another.
#[derive(Drop)]
pub struct KnownNames {
    list: Vec<Known>,
}

impl Model for KnownNames {
    ghost use Rattle.std.specs.Prelude.{ℕ, List};
    ghost use Rattle.cdi_explain.specs.Near.{known_in};

    ghost Value = { List (List ℕ) };

    ghost view = { λ k. known_in k.list.items };
}

impl KnownNames {
    /// These names. It takes memory for them, and for counts of the characters of each.
    pub fn of(alloc: Global, declared: &[Name]) -> Result<KnownNames, AllocError>
        ensures { IfOk result (λ known. known ≡ declared.now) }
    {
        let mut list = Vec::with_capacity(alloc, declared.len())?;
        for name in declared {
            list.push(Known::of(alloc, *name)?)?;
        }
        Ok(KnownNames { list })
    }

    /// The one that may have been meant by a wanted name: the first other one with the same last identifier, and else the first
    /// of the nearest. A name is as far away as characters are put in, taken away or changed, or two neighbours are swapped
    /// (optimal string alignment). It is near if that is at most 2, and less than half of the wanted name's length. There is
    /// none where no other name is near. It takes memory while it compares, and time near the number of names.
    #[tactic(auto, unfolding(crate::specs::Near::nearest_name))]
    pub fn nearest(&self, alloc: Global, wanted: Name) -> Result<Option<Name>, AllocError>
        ensures value { IfOk result (λ found. found ≡ nearest_name wanted self.now) }
        ensures near { NearestIsNear }
    {
        let wanted = Known::of(alloc, wanted)?;
        match namesake(&wanted, &self.list) {
            Some(name) => Ok(Some(name)),
            None => closest(alloc, &wanted, &self.list),
        }
    }
}

/// A name, and how many characters it is away from the wanted one.
#[derive(Clone, Copy)]
struct Near {
    name: Name,
    distance: usize,
}

/// The first other name with the same last identifier.
fn namesake(wanted: &Known, declared: &[Known]) -> Option<Name>
    ensures { result ≡ find (is_namesake wanted.now.name) (known_in declared.now) }
{
    for known in declared {
        if is_namesake(wanted, known) {
            return Some(known.name);
        }
    }
    None
}

/// Whether a name is another one with the same last identifier.
fn is_namesake(wanted: &Known, known: &Known) -> bool
    ensures { result ≡ is_namesake wanted.now.name known.now.name }
{
    let (last, other) = (wanted.last_identifier(), known.last_identifier());
    last.first() == other.first() && last == other && known.name != wanted.name
}

/// The first of the nearest other names, if one is near.
fn closest(alloc: Global, wanted: &Known, declared: &[Known]) -> Result<Option<Name>, AllocError>
    ensures { IfOk result (λ found. found ≡ option_map (λ near. near.name)
        (nearest wanted.now.name (filter (is_other wanted.now.name) (known_in declared.now)))) }
{
    let nearest = nearest(alloc, wanted, declared)?;
    Ok(nearest.map(|near| near.name))
}

/// The same, with how far it is.
fn nearest(alloc: Global, wanted: &Known, declared: &[Known]) -> Result<Option<Near>, AllocError>
    ensures { IfOk result (λ near. near
        ≡ nearest wanted.now.name (filter (is_other wanted.now.name) (known_in declared.now))) }
{
    let mut best = None;
    for known in declared {
        if known.name != wanted.name {
            best = nearer_known(alloc, wanted, best, known)?;
        }
    }
    Ok(best)
}

/// The nearest, with one more.
fn nearer_known(
    alloc: Global,
    wanted: &Known,
    best: Option<Near>,
    known: &Known,
) -> Result<Option<Near>, AllocError>
    requires { IfSome best (λ near. is_near wanted.now.name near.distance ≡ true) }
    ensures near { IfOk result (λ near. near ≡ nearer wanted.now.name best known.now.name) }
    ensures still { IfOk result (λ found. IfSome found (λ near. is_near wanted.now.name near.distance ≡ true)) }
{
    if are_apart(&wanted.counts, &known.counts) {
        return Ok(best);
    }
    nearer(alloc, &wanted.name, best, &known.name)
}

/// The nearest, with one more.
fn nearer(
    alloc: Global,
    wanted: &Name,
    best: Option<Near>,
    name: &Name,
) -> Result<Option<Near>, AllocError>
    ensures { IfOk result (λ near. near ≡ nearer wanted.now best name.now) }
{
    let distance = distance(alloc, wanted, name)?;
    if is_nearer(wanted, &best, distance) {
        return Ok(Some(Near {
            name: *name,
            distance,
        }));
    }
    Ok(best)
}

/// How many characters are to be put in, taken away or changed, or swapped with the next one.
fn distance(alloc: Global, wanted: &Name, name: &Name) -> Result<usize, AllocError>
    ensures { IfOk result (λ count. count ≡ distance wanted.now name.now) }
{
    osa_distance(alloc, wanted.as_str(), name.as_str())
}

/// Whether one at a distance is near, or nearer than another.
fn is_nearer(wanted: &Name, best: &Option<Near>, distance: usize) -> bool
    ensures { result ≡ is_nearer wanted.now best.now distance }
{
    match best {
        None => is_near(wanted, distance),
        Some(best) => distance < best.distance,
    }
}

/// Whether a distance is at most 2, and less than half of the wanted name's length.
fn is_near(wanted: &Name, distance: usize) -> bool
    ensures { result ≡ is_near wanted.now distance }
{
    distance <= 2 && 2 * distance < wanted.as_bytes().len()
}
