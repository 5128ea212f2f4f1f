//! The search for the names to which chains lead. It keeps positions of declarations, and takes no memory for them.
ghost use Rattle.std.specs.Prelude.{◌≡◌, ◌<◌, ◌∷◌, ◌++◌, [], List, ℕ, Option, Some, Bool, true, false, position, IfOk, OnOk};
ghost use Rattle.std.specs.Prelude.{IfSome, IfNone};
ghost use Rattle.std.specs.List.Sorted.{IsStrictlySortedBy};
ghost use Rattle.cdi_model.specs.Bytes.{byte_order};
ghost use Rattle.cdi_model.specs.declared.decl.Decl.{Decl as AnyDecl};
ghost use Rattle.cdi_model.specs.DeclList.{is_of, limit};
ghost use Rattle.cdi_match.specs.Chain.{has};
ghost use Rattle.cdi_match.specs.declared.followers.Links.{Links as AnyLinks};
ghost use Rattle.cdi_match.specs.Search.{is_led_to, kind_of, next_of};
ghost use Rattle.cdi_match.specs.Walk.{has_mark, has_none_left, is_listing, listing_among, tasks, HasMarks, HasNames, IsWalking, Meets};
ghost use Rattle.cdi_match.specs.Walk.{TellsMore, Told};

use crate::followers::{Followers, Links, following};
use cdi_model::{Decls, Name};
use cdi_positions::{PositionQueue, PositionSet};
use std::alloc::{AllocError, Global};

/// The declarations that were found, and those of them that are left to be taken, by their positions.
#[derive(Drop)]
pub(crate) struct Walk {
    marks: PositionSet,
    left: PositionQueue,
}

impl Walk {
    /// None is found.
    fn new() -> Walk
        ensures marks { (o : Option ℕ) → has_mark result.marks o ≡ false }
        ensures left { has_none_left result }
        ensures kept { HasMarks result }
    {
        Walk {
            marks: PositionSet::new(),
            left: PositionQueue::new(),
        }
    }

    /// A walk that begins with those of some names whose declarations list some. There is none where there are none of these.
    fn from(decls: &Decls, links: Links, names: Followers<'_>) -> Option<Walk>
        ensures none { IfNone result (listing_among links decls.now names.entry ≡ []) }
        ensures walking { IfSome result (λ walk. IsWalking links decls.now names.entry walk) }
        ensures kept { IfSome result (λ walk. HasMarks walk) }
        ensures named { IfSome result (λ walk. HasNames links decls.now walk) }
        ensures told { IfSome result (λ walk. (told : List ℕ → Bool)
            → ((s : List ℕ) → has names.entry s ≡ true → told s ≡ true) → Told links decls.now names.entry walk told) }
    {
        let mut names = names;
        let first = first_listing(decls, links, &mut names)?;
        let mut walk = Walk::new();
        walk.find(first);
        walk.add_all(decls, links, names);
        Some(walk)
    }

    /// Finds the declaration at a place in the list.
    fn find(&mut self, place: usize)
        requires bound { place < limit }
        requires kept { HasMarks self.old }
        ensures { (links : AnyLinks) (ds : List AnyDecl) (name : List ℕ) → position (is_of (kind_of links) name) ds ≡ Some place
            → is_listing links ds name ≡ true → Meets links ds (name ∷ []) self.old self.new }
    {
        if self.marks.insert(place) {
            self.left.put(place);
        }
    }

    /// Finds the declaration of a name, if it lists some names.
    fn add(&mut self, decls: &Decls, links: Links, name: &Name)
        requires { HasMarks self.old }
        ensures { Meets links decls.now (name.now ∷ []) self.old self.new }
    {
        if let Some(position) = listing_position(decls, links, name) {
            self.find(position);
        }
    }

    /// Finds the declarations of some names.
    fn add_all(&mut self, decls: &Decls, links: Links, names: Followers<'_>)
        requires { HasMarks self.old }
        ensures { Meets links decls.now names.entry self.old self.new }
    {
        for name in names {
            self.add(decls, links, name);
        }
    }

    /// Takes one of those that are left, and finds what it lists: these names, if there was one.
    fn take_one<'a>(&mut self, decls: &'a Decls, links: Links) -> Option<Followers<'a>>
        requires kept { HasMarks self.old }
        requires named { HasNames links decls.now self.old }
        ensures walking { (starts : List (List ℕ)) → IsWalking links decls.now starts self.old
            → IsWalking links decls.now starts self.new }
        ensures kept { HasMarks self.new }
        ensures named { HasNames links decls.now self.new }
        ensures less { IfSome result (λ names. tasks self.new < tasks self.old) }
        ensures led { IfSome result (λ names. (starts : List (List ℕ)) → IsWalking links decls.now starts self.old
            → (s : List ℕ) → has names s ≡ true → is_led_to links decls.now starts s ≡ true) }
        ensures told { IfSome result (λ names. TellsMore links decls.now names self.old self.new) }
        ensures end { IfNone result (has_none_left self.old) }
        ensures same { IfNone result (self.new ≡ self.old) }
    {
        let position = self.left.take()?;
        let decl = decls.at(position);
        self.add_all(decls, links, Followers::of(links, decl));
        Some(Followers::of(links, decl))
    }
}

/// The position of the declaration of a name, if it lists some names.
fn listing_position(decls: &Decls, links: Links, name: &Name) -> Option<usize>
    ensures some { IfSome result (λ p. (position (is_of (kind_of links) name.now) decls.now ≡ Some p)
        × (is_listing links decls.now name.now ≡ true)) }
    ensures bound { IfSome result (λ p. p < limit) }
    ensures none { IfNone result (is_listing links decls.now name.now ≡ false) }
{
    if following(decls, links, name).is_empty() {
        return None;
    }
    decls.position(links.kind(), name)
}

/// Leaves out the first names whose declarations list none, and the one after them. The position of its declaration.
fn first_listing(decls: &Decls, links: Links, names: &mut Followers<'_>) -> Option<usize>
    ensures some { IfSome result (λ first. (name : List ℕ) × (position (is_of (kind_of links) name) decls.now ≡ Some first)
        × (is_listing links decls.now name ≡ true)
        × (listing_among links decls.now names.old ≡ name ∷ listing_among links decls.now names.new)) }
    ensures bound { IfSome result (λ first. first < limit) }
    ensures none { IfNone result (listing_among links decls.now names.old ≡ []) }
{
    'unlisting: while let Some(name) = names.next() {
        if let Some(position) = listing_position(decls, links, name) {
            return Some(position);
        }
    }
    None
}

/// Whether a chain of one link or more leads from a name to another. It takes no memory.
pub(crate) fn leads_on(decls: &Decls, links: Links, start: &Name, goal: &Name) -> bool
    ensures { result ≡ is_led_to links decls.now (next_of links decls.now start.now) goal.now }
{
    if has_name(following(decls, links, start), goal) {
        return true;
    }
    let Some(mut walk) = Walk::from(decls, links, following(decls, links, start)) else {
        return false;
    };
    'taken: while let Some(names) = walk.take_one(decls, links) {
        if has_name(names, goal) {
            return true;
        }
    }
    false
}

/// Whether a name is among some.
fn has_name(names: Followers<'_>, goal: &Name) -> bool
    ensures { result ≡ has names.entry goal.now }
{
    for name in names {
        if *name == *goal {
            return true;
        }
    }
    false
}

/// The names to which chains lead from some names, these included. One may be there several times. It takes memory for them.
pub(crate) fn reached(
    alloc: Global,
    decls: &Decls,
    links: Links,
    starts: &[Name],
) -> Result<Vec<Name>, AllocError>
    ensures { IfOk result (λ found. (s : List ℕ) → has found.items s ≡ is_led_to links decls.now starts.now s) }
{
    let mut found = Vec::new(alloc);
    push_names(Followers::of_names(starts), &mut found)?;
    let Some(mut walk) = Walk::from(decls, links, Followers::of_names(starts)) else {
        return Ok(found);
    };
    'taken: while let Some(names) = walk.take_one(decls, links) {
        push_names(names, &mut found)?;
    }
    Ok(found)
}

/// Appends some names.
fn push_names(names: Followers<'_>, found: &mut Vec<Name>) -> Result<(), AllocError>
    ensures { OnOk result (found.new.items ≡ found.old.items ++ names.entry) }
{
    for name in names {
        found.push(*name)?;
    }
    Ok(())
}

/// Some names, each once, in byte order. It takes no memory.
pub fn each_once(names: Vec<Name>) -> Vec<Name>
    ensures names { (name : List ℕ) → has result.items name ≡ has names.items name }
    ensures order { IsStrictlySortedBy byte_order result.items }
{
    let mut list = names;
    list.sort_unstable();
    list.dedup();
    list
}
