//! What is kept of a base of declarations, some of it replaced.
ghost use Rattle.std.specs.Prelude.{◌≡◌, ◌<◌, ◌≤◌, ℕ, [], ◌∷◌, true, false, if◌then◌else◌, IfOk, OnOk, OnErr, MatchOption, List, Bool, length, is_some, option_map, position, slice_get, slice_set};
ghost use Rattle.cdi_positions.specs.Marks.{is_marked};
ghost use Rattle.cdi_model.specs.Decl.{kind_of, name_of_decl};
ghost use Rattle.cdi_model.specs.DeclList.{find_decl, is_of, put_in, remove_from};
ghost use Rattle.cdi_model.specs.Layers.{changed_by, is_at, unmarked, AreListed, AreMarked};
ghost use Rattle.cdi_model.specs.declared.decl.Decl.{Decl as AnyDecl};

use crate::base::Base;
use crate::decl::{Decl, Kind};
use crate::name::Name;
use cdi_positions::PositionSet;
use std::alloc::{AllocError, Global};
use std::marker::Model;
use std::rc::Rc;

/// What stands now at a place of the base.
#[derive(Drop)]
pub struct Replaced {
    pub(crate) place: usize,
    pub(crate) decl: Rc<Decl>,
}

/// The declarations of a base that are not gone, in order, of some of their keys another.
#[derive(Drop)]
pub struct Kept {
    base: Base,
    /// The places of which the declaration is gone.
    gone: PositionSet,
    /// The places at which one is replaced.
    changed: PositionSet,
    /// What stands at these places.
    replaced: Vec<Replaced>,
}

impl Model for Kept {
    ghost use Rattle.std.specs.Prelude.{List};
    ghost use Rattle.cdi_model.specs.declared.decl.Decl.{Decl as AnyDecl};
    ghost use Rattle.cdi_model.specs.Layers.{changed_by, kept, AreKept};

    ghost Value = { List AnyDecl };

    ghost view = { λ k. kept k.gone (changed_by k.replaced.items k.base) };

    ghost invariant = { λ k. AreKept k.base k.gone k.changed k.replaced.items };
}

impl Kept {
    /// All of a base. It takes no memory.
    pub(crate) fn of(alloc: Global, base: Base) -> Kept
        requires { AreListed base }
        ensures { result ≡ base }
    {
        Kept {
            base,
            gone: PositionSet::new(),
            changed: PositionSet::new(),
            replaced: Vec::new(alloc),
        }
    }

    /// An equal list, which shares the base. Its time and memory grow with what is replaced alone.
    pub(crate) fn copy(&self) -> Result<Kept, AllocError>
        ensures { IfOk result (λ copy. copy ≡ self.now) }
    {
        let base = self.base.copy()?;
        let replaced = copies(&self.replaced)?;
        Ok(Kept {
            base,
            gone: self.gone.copy(),
            changed: self.changed.copy(),
            replaced,
        })
    }

    /// How many are kept.
    pub(crate) fn len(&self) -> usize
        ensures { result ≡ length self.now }
    {
        let places = self.base.len();
        places - self.gone.count_below(places)
    }

    /// How many changes of the base there are.
    pub(crate) fn changes(&self) -> usize {
        let gone = self.gone.count_below(self.base.len());
        gone.saturating_add(self.replaced.len())
    }

    /// The declaration of a kind and name.
    pub(crate) fn get(&self, kind: Kind, name: &Name) -> Option<&Rc<Decl>>
        ensures { option_map (λ d. d.now.value) result ≡ find_decl kind name.now self.now }
    {
        let Some(place) = place_kept(&self.base, &self.gone, kind, name) else {
            return None;
        };
        standing(&self.base, &self.changed, &self.replaced, place)
    }

    /// The position of the declaration of a kind and name.
    pub(crate) fn position(&self, kind: Kind, name: &Name) -> Option<usize>
        ensures { result ≡ position (is_of kind name.now) self.now }
    {
        let Some(place) = place_kept(&self.base, &self.gone, kind, name) else {
            return None;
        };
        Some(place - self.gone.count_below(place))
    }

    /// The declaration at a position.
    pub(crate) fn at(&self, position: usize) -> Option<&Rc<Decl>>
        ensures { option_map (λ d. d.now.value) result ≡ slice_get self.now position }
    {
        let Some(place) = self.gone.nth_outside(position) else {
            return None;
        };
        standing(&self.base, &self.changed, &self.replaced, place)
    }

    /// The declarations, in order.
    pub(crate) fn iter(&self) -> KeptIter<'_>
        ensures { result ≡ self.now }
    {
        KeptIter {
            base: &self.base,
            gone: &self.gone,
            changed: &self.changed,
            replaced: &self.replaced,
            place: 0,
        }
    }

    /// Puts a declaration in the place of the one of its kind and name, and says whether there is one.
    pub(crate) fn replace(&mut self, decl: &Rc<Decl>) -> Result<bool, AllocError>
        ensures found { IfOk result (λ found. found ≡ is_some (find_decl (kind_of decl.now.value) (name_of_decl decl.now.value) self.old)) }
        ensures ok { IfOk result (λ found. self.new ≡ (if found then put_in self.old decl.now.value else self.old)) }
        ensures err { OnErr result (self.new ≡ self.old) }
    {
        let Some(place) = place_kept(&self.base, &self.gone, decl.kind(), decl.name()) else {
            return Ok(false);
        };
        put_at(&mut self.replaced, place, decl.clone()?)?;
        self.changed.insert(place);
        Ok(true)
    }

    /// Removes the declaration of a kind and name, and says whether there is one. It takes no memory.
    pub(crate) fn remove(&mut self, kind: Kind, name: &Name) -> bool
        ensures found { result ≡ is_some (find_decl kind name.now self.old) }
        ensures removed { self.new ≡ remove_from kind name.now self.old }
    {
        let Some(place) = place_kept(&self.base, &self.gone, kind, name) else {
            return false;
        };
        self.gone.insert(place);
        true
    }
}

/// The place in a base of the declaration of a kind and name, where that is not gone.
fn place_kept(base: &Base, gone: &PositionSet, kind: Kind, name: &Name) -> Option<usize>
    ensures { result ≡ unmarked gone.now (position (is_of kind name.now) base.now) }
{
    match base.place_of(kind, name) {
        Some(place) if !gone.contains(place) => Some(place),
        _ => None,
    }
}

/// What stands at a place of a base.
fn standing<'a>(
    base: &'a Base,
    changed: &PositionSet,
    replaced: &'a [Replaced],
    place: usize,
) -> Option<&'a Rc<Decl>>
    requires { AreMarked changed.now replaced.now }
    ensures { option_map (λ d. d.now.value) result ≡ slice_get (changed_by replaced.now base.now) place }
{
    let Some(decl) = base.at(place) else {
        return None;
    };
    if !changed.contains(place) {
        return Some(decl);
    }
    match index_of(replaced, place) {
        Some(index) => Some(&replaced[index].decl),
        None => Some(decl),
    }
}

/// Where it is told what stands at a place.
fn index_of(replaced: &[Replaced], place: usize) -> Option<usize>
    ensures { result ≡ position (is_at place) replaced.now }
{
    replaced.iter().position(|r| r.place == place)
}

/// Puts a declaration at a place.
fn put_at(replaced: &mut Vec<Replaced>, place: usize, decl: Rc<Decl>) -> Result<(), AllocError>
    ensures ok { OnOk result ((ds : List AnyDecl) → changed_by replaced.new.items ds ≡ slice_set (changed_by replaced.old.items ds) place decl.value) }
    ensures marked { OnOk result ((marks : List Bool) → AreMarked marks replaced.old.items → is_marked marks place ≡ true → AreMarked marks replaced.new.items) }
    ensures err { OnErr result (replaced.new.items ≡ replaced.old.items) }
{
    let entry = Replaced { place, decl };
    match index_of(replaced, place) {
        Some(index) => replaced[index] = entry,
        None => replaced.push(entry)?,
    }
    Ok(())
}

fn copies(replaced: &Vec<Replaced>) -> Result<Vec<Replaced>, AllocError>
    ensures ok { IfOk result (λ copy. (ds : List AnyDecl) → changed_by copy.items ds ≡ changed_by replaced.now.items ds) }
    ensures marked { IfOk result (λ copy. (marks : List Bool) → AreMarked marks replaced.now.items → AreMarked marks copy.items) }
{
    let mut copy = Vec::with_capacity(*replaced.allocator(), replaced.len())?;
    for entry in replaced {
        copy.push(Replaced {
            place: entry.place,
            decl: entry.decl.clone()?,
        })?;
    }
    Ok(copy)
}

/// What is left of what is kept, in order.
#[derive(Drop)]
pub struct KeptIter<'a> {
    base: &'a Base,
    gone: &'a PositionSet,
    changed: &'a PositionSet,
    replaced: &'a [Replaced],
    place: usize,
}

impl<'a> Model for KeptIter<'a> {
    ghost use Rattle.std.specs.Prelude.{List, drop};
    ghost use Rattle.cdi_model.specs.declared.decl.Decl.{Decl as AnyDecl};
    ghost use Rattle.cdi_model.specs.Layers.{changed_by, kept, AreMarked};

    ghost Value = { List AnyDecl };

    ghost view = { λ i. kept (drop i.place i.gone.now) (drop i.place (changed_by i.replaced.now i.base.now)) };

    ghost invariant = { λ i. AreMarked i.changed.now i.replaced.now };
}

impl<'a> KeptIter<'a> {
    /// The next, if one is left.
    pub(crate) fn next(&mut self) -> Option<&'a Rc<Decl>>
        ensures { MatchOption result ((self.old ≡ []) × (self.new ≡ [])) (λ d. self.old ≡ d.now.value ∷ self.new) }
    {
        let end = self.base.len();
        let place = first_outside(self.gone, self.place, end);
        if place >= end {
            self.place = end;
            return None;
        }
        self.place = place + 1;
        standing(self.base, self.changed, self.replaced, place)
    }
}

/// The first place from one on that is not in a set, or the end.
fn first_outside(set: &PositionSet, from: usize, end: usize) -> usize
    ensures skipped { (place : ℕ) → from ≤ place → place < result → is_marked set.now place ≡ true }
    ensures outside { result < end → is_marked set.now result ≡ false }
    ensures low { result < end → from ≤ result }
{
    for place in from..end {
        if !set.contains(place) {
            return place;
        }
    }
    end
}
