//! The names that follow a name.
ghost use Rattle.std.specs.Prelude.{◌≡◌, [], Some, None, flat_map, map, not};
ghost use Rattle.std.specs.Iterator.{YieldsFirstRef, item_count};
ghost use Rattle.std.specs.Option.{option_copied};
ghost use Rattle.cdi_model.specs.Quals.{name_of_use};
ghost use Rattle.cdi_match.specs.Search.{kind_of, listed_by, next_of};
ghost use Rattle.cdi_match.specs.Walk.{has_some};

use cdi_model::{Decl, Decls, Kind, Name, Qual};
use std::marker::Model;

/// Which names follow a name.
#[derive(Clone, Copy)]
pub(crate) enum Links {
    /// What a type extends and implements.
    Supers,
    /// What a stereotype declares.
    Stereotypes,
    /// The types of the uses that a binding type declares.
    Bindings,
}

impl Links {
    /// The kind of the declarations that list the names.
    pub(crate) fn kind(self) -> Kind
        ensures { result ≡ kind_of self }
    {
        match self {
            Links::Supers => Kind::Type,
            Links::Stereotypes => Kind::Stereotype,
            Links::Bindings => Kind::Binding,
        }
    }
}

/// Names that are left of those that follow one, in order.
#[derive(Drop)]
pub(crate) struct Followers<'a> {
    first: Option<&'a Name>,
    names: &'a [Name],
    uses: &'a [Qual],
}

impl<'a> Model for Followers<'a> {
    ghost use Rattle.std.specs.Prelude.{List, ℕ, map, ◌++◌};
    ghost use Rattle.std.specs.Option.{option_copied, option_to_list};
    ghost use Rattle.cdi_model.specs.Quals.{name_of_use};

    ghost Value = { List (List ℕ) };

    ghost view = { λ f. option_to_list (option_copied f.first) ++ f.names.now ++ map name_of_use f.uses.now };
}

impl<'a> Followers<'a> {
    /// Some names.
    pub(crate) fn of_names(names: &'a [Name]) -> Followers<'a>
        ensures { result ≡ names.now }
    {
        Followers {
            first: None,
            names,
            uses: &[],
        }
    }

    /// Whether none is left.
    pub(crate) fn is_empty(&self) -> bool
        ensures { result ≡ not (has_some self.now) }
    {
        self.first.is_none() && self.names.is_empty() && self.uses.is_empty()
    }

    /// What a declaration lists, if there is one.
    pub(crate) fn of(links: Links, decl: Option<&'a Decl>) -> Followers<'a>
        ensures { result ≡ listed_by links (option_copied decl.entry) }
    {
        let mut followers = Followers {
            first: None,
            names: &[],
            uses: &[],
        };
        match (links, decl) {
            (Links::Supers, Some(Decl::Type(decl))) => {
                followers.first = decl.extends.as_ref();
                followers.names = decl.implements.as_slice();
            }
            (Links::Stereotypes, Some(Decl::Stereotype(decl))) => {
                followers.names = decl.stereotypes.as_slice();
            }
            (Links::Bindings, Some(Decl::Binding(decl))) => {
                followers.uses = decl.declares.as_slice();
            }
            _ => {}
        }
        followers
    }
}

impl<'a> Iterator for Followers<'a> {
    type Item = &'a Name;

    ghost next_gives = { YieldsFirstRef (λ s. s) };

    ghost remaining = { item_count (λ s. s) };

    fn next(&mut self) -> Option<&'a Name> {
        if let Some(name) = self.first.take() {
            return Some(name);
        }
        if let Some((name, others)) = self.names.split_first() {
            self.names = others;
            return Some(name);
        }
        let (binding, others) = self.uses.split_first()?;
        self.uses = others;
        Some(&binding.name)
    }
}

/// The names that follow a name: none where it is not declared. It takes no memory.
pub(crate) fn following<'a>(decls: &'a Decls, links: Links, name: &Name) -> Followers<'a>
    ensures { result ≡ next_of links decls.now name.now }
{
    Followers::of(links, decls.get(links.kind(), name))
}
